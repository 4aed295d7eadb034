// Why a case has no result.
use faults::Fault;
use std::alloc::AllocError;
use std::str::Utf8Error;
use std::{fmt, io};
use thiserror::Error;

#[derive(Drop, Error)]
pub enum Failure {
    #[error("refused: {0}")]
    Refused(#[from] Fault),
    #[error("a page is not text")]
    NotText(#[from] Utf8Error),
    #[error(transparent)]
    Memory(#[from] AllocError),
    #[error(transparent)]
    Printing(#[from] io::Error),
}

// `main` prints a failure by this: the error that it holds, and nothing about the enum.
impl fmt::Debug for Failure {
    fn fmt<W: fmt::Write>(&self, f: &mut fmt::Formatter<W>) -> fmt::Result {
        match self {
            Failure::Refused(fault) => write!(f, "{fault:?}"),
            Failure::NotText(error) => write!(f, "{error:?}"),
            Failure::Memory(error) => write!(f, "{:?}", io::Error::from(*error)),
            Failure::Printing(error) => write!(f, "{error:?}"),
        }
    }
}
