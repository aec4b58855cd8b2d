// Why there is no answer to compare or to print.
use refusal::Refusal;
use std::alloc::{AllocError, AllocFailed};
use std::fmt;

#[derive(Drop)]
pub enum Error {
    // The line is none, or its numbers are no arguments of the call: one is missing, or too large
    // for its field.
    Unreadable,
    // The library refuses the call.
    Refused(Refusal),
    OutOfMemory(AllocError),
}

impl fmt::Display for Error {
    fn fmt<W: fmt::Write>(&self, f: &mut fmt::Formatter<W>) -> fmt::Result {
        match self {
            Error::Unreadable => write!(f, "unreadable"),
            Error::Refused(refusal) => {
                let number = refusal.number();
                let place = refusal.place();
                write!(f, "refused,{number},{place}")
            }
            Error::OutOfMemory(error) => write!(f, "{error}"),
        }
    }
}

impl From<Refusal> for Error {
    fn from(refusal: Refusal) -> Self {
        Error::Refused(refusal)
    }
}

impl From<AllocError> for Error {
    fn from(error: AllocError) -> Self {
        Error::OutOfMemory(error)
    }
}

impl<T: Drop> From<AllocFailed<T>> for Error {
    fn from(failed: AllocFailed<T>) -> Self {
        Error::OutOfMemory(failed.into())
    }
}
