use cxx_graph::AddFault;
use cxx_model::OutOfMemory;
use std::alloc::AllocError;

/// Why rows are not read to their end.
#[derive(Drop)]
pub(crate) enum Stopped {
    /// What is written is no row, or names what is not there.
    IllRow,
    OutOfMemory,
}

impl From<OutOfMemory> for Stopped {
    fn from(_error: OutOfMemory) -> Stopped {
        Stopped::OutOfMemory
    }
}

impl From<AddFault> for Stopped {
    fn from(_error: AddFault) -> Stopped {
        Stopped::OutOfMemory
    }
}

impl From<AllocError> for Stopped {
    fn from(_error: AllocError) -> Stopped {
        Stopped::OutOfMemory
    }
}
