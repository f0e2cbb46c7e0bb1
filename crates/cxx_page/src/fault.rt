ghost use Rattle.std.specs.Prelude.{◌≡◌};
ghost use Rattle.cxx_page.specs.declared.fault.PlainFault.TheVariants.{OutOfMemory};

use std::alloc::AllocError;
use thiserror::Error;

/// Why there is no plain form.
#[derive(Clone, Copy, Debug, PartialEq, Eq, Error)]
pub enum PlainFault {
    /// It is longer than `MOST_OUTPUT` bytes.
    #[error("the plain form is too long")]
    Limit,
    #[error("out of memory")]
    OutOfMemory,
}

impl From<AllocError> for PlainFault {
    ghost from_gives = { λ _ fault. fault ≡ OutOfMemory };

    fn from(_error: AllocError) -> PlainFault {
        PlainFault::OutOfMemory
    }
}
