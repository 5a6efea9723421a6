//! Why a case can't be read or run.
use std::alloc::{AllocError, AllocFailed};
use std::io;
use std::num::ParseIntError;
use std::str::Utf8Error;

#[derive(Clone, Copy, Debug)]
pub enum Fault {
    OutOfMemory,
    /// What is wrong with the case, in words.
    Wrong(&'static str),
}

impl Fault {
    /// The fault in words.
    pub fn words(self) -> &'static str {
        match self {
            Fault::OutOfMemory => "out of memory",
            Fault::Wrong(words) => words,
        }
    }
}

impl From<AllocError> for Fault {
    fn from(_error: AllocError) -> Fault {
        Fault::OutOfMemory
    }
}

impl<T: Drop> From<AllocFailed<T>> for Fault {
    fn from(_error: AllocFailed<T>) -> Fault {
        Fault::OutOfMemory
    }
}

impl From<io::Error> for Fault {
    fn from(_error: io::Error) -> Fault {
        Fault::Wrong("a file can't be read, or the output can't be written")
    }
}

impl From<ParseIntError> for Fault {
    fn from(_error: ParseIntError) -> Fault {
        Fault::Wrong("no number, or one out of range")
    }
}

impl From<Utf8Error> for Fault {
    fn from(_error: Utf8Error) -> Fault {
        Fault::Wrong("no UTF-8")
    }
}

/// What was looked for, or what is wrong where it isn't there.
pub fn found<T: Drop>(option: Option<T>, wrong: &'static str) -> Result<T, Fault> {
    match option {
        Some(value) => Ok(value),
        None => Err(Fault::Wrong(wrong)),
    }
}
