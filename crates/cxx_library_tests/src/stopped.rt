use cxx_model::OutOfMemory;
use std::alloc::{AllocError, AllocFailed};

/// Why a test could not go on.
#[derive(Debug, Drop)]
pub(crate) enum Stopped {
    OutOfMemory,
}

impl From<OutOfMemory> for Stopped {
    fn from(_error: OutOfMemory) -> Stopped {
        Stopped::OutOfMemory
    }
}

impl From<AllocError> for Stopped {
    fn from(_error: AllocError) -> Stopped {
        Stopped::OutOfMemory
    }
}

impl<T: Drop> From<AllocFailed<T>> for Stopped {
    fn from(_error: AllocFailed<T>) -> Stopped {
        Stopped::OutOfMemory
    }
}
