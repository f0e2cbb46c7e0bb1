use cxx_model::OutOfMemory;
use std::alloc::{AllocError, AllocFailed};

/// Why a row could not be read.
#[derive(Debug, Drop)]
pub enum Stopped {
    OutOfMemory,
    IllRow,
}

impl From<OutOfMemory> for Stopped {
    fn from(_error: OutOfMemory) -> Stopped {
        Stopped::OutOfMemory
    }
}

impl From<AllocError> for Stopped {
    fn from(_error: AllocError) -> Stopped {
        Stopped::OutOfMemory
    }
}

impl<T: Drop> From<AllocFailed<T>> for Stopped {
    fn from(_error: AllocFailed<T>) -> Stopped {
        Stopped::OutOfMemory
    }
}
