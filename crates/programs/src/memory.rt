// Want of memory, the one thing that stops a program between reading and printing.
use std::alloc::{AllocError, AllocFailed};
use std::fmt;
use thiserror::Error;

#[derive(Clone, Copy, Debug, PartialEq, Eq, Error)]
#[error("there is not enough memory")]
pub struct NoMemory;

// kept: the three conversions are written by hand, since a derived one keeps what it was made of, and want of memory is one thing.
impl From<AllocError> for NoMemory {
    fn from(_e: AllocError) -> NoMemory {
        NoMemory
    }
}

impl<T: Drop> From<AllocFailed<T>> for NoMemory {
    fn from(_e: AllocFailed<T>) -> NoMemory {
        NoMemory
    }
}

impl From<fmt::Error> for NoMemory {
    fn from(_e: fmt::Error) -> NoMemory {
        NoMemory
    }
}
