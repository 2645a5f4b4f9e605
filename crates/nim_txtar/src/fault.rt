use std::alloc::{AllocError, AllocFailed};

/// Why a file of tests can't be read.
#[derive(Clone, Copy, Debug)]
pub enum FileFault {
    /// What is wrong with a line, counted from 1; line 0 is the whole file.
    At { line: usize, what: &'static str },
    /// Memory was refused.
    NoMemory,
}

impl From<AllocError> for FileFault {
    fn from(_refused: AllocError) -> FileFault {
        FileFault::NoMemory
    }
}

impl<T: Drop> From<AllocFailed<T>> for FileFault {
    fn from(_refused: AllocFailed<T>) -> FileFault {
        FileFault::NoMemory
    }
}
