use cxx_model::{LimitKind, Place, TokenReason};
use thiserror::Error;

/// Why a text has no token list.
#[derive(Debug, Drop, Error)]
pub enum TokenFault {
    /// The first place at which no token of the profile begins, and why.
    #[error("no token begins at {}:{}", .0.line, .0.column)]
    Bad(Place, TokenReason),
    /// The quantity that was passed.
    #[error("the unit is too large")]
    Limit(LimitKind),
    #[error("out of memory")]
    OutOfMemory,
}
