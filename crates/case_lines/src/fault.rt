ghost use Rattle.std.specs.Prelude.{◌≡◌};
ghost use Rattle.case_lines.specs.declared.fault.ReadError.TheVariants.{Memory};

use std::alloc::{AllocError, AllocFailed};
use std::error::Error;
use std::fmt;

// What is wrong with a line that cannot be read.
#[derive(Clone, Copy, Debug, PartialEq, Eq)]
pub enum Fault {
    UnknownWord,
    MissingWord,
    ExtraWord,
    NotANumber,
    // above the largest value of its field
    TooLarge,
    NotAByte,
}

impl fmt::Display for Fault {
    ghost use Rattle.std.specs.Prelude.{Some};
    ghost use Rattle.case_lines.specs.Told.{fault_told};

    ghost output = { λ fault. Some (fault_told fault) };

    fn fmt<W: fmt::Write>(&self, f: &mut fmt::Formatter<W>) -> fmt::Result {
        match self {
            Fault::UnknownWord => write!(f, "unknown word"),
            Fault::MissingWord => write!(f, "a word is missing"),
            Fault::ExtraWord => write!(f, "there is an extra word"),
            Fault::NotANumber => write!(f, "a word is no decimal number"),
            Fault::TooLarge => write!(f, "a number is above the largest of its field"),
            Fault::NotAByte => write!(f, "a word is no byte of one or two hexadecimal digits"),
        }
    }
}

impl Error for Fault {}

// Why a line was not read.
#[derive(Clone, Copy, Debug, PartialEq, Eq)]
pub enum ReadError {
    Memory,
    Fault(Fault),
}

impl fmt::Display for ReadError {
    fn fmt<W: fmt::Write>(&self, f: &mut fmt::Formatter<W>) -> fmt::Result {
        match self {
            ReadError::Memory => write!(f, "out of memory"),
            ReadError::Fault(fault) => write!(f, "{fault}"),
        }
    }
}

impl Error for ReadError {}

impl From<AllocError> for ReadError {
    ghost from_gives = { λ _ e. e ≡ Memory };

    fn from(_error: AllocError) -> ReadError {
        ReadError::Memory
    }
}

impl<T: Drop> From<AllocFailed<T>> for ReadError {
    ghost from_gives = { λ _ e. e ≡ Memory };

    fn from(_error: AllocFailed<T>) -> ReadError {
        ReadError::Memory
    }
}
