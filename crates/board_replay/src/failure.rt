ghost use Rattle.std.specs.Prelude.{◌≡◌};
ghost use Rattle.board_replay.specs.Failures.{failure_of};
ghost use Rattle.board_replay.specs.declared.failure.Failure.TheVariants as failures;

use crate::fault::Fault;
use case_lines::ReadError;
use records::OpeningRefusal;
use std::alloc::{AllocError, AllocFailed};
use std::error::Error;
use std::{fmt, io};

// Why a replay ended before its input did.
#[derive(Debug, Drop)]
pub enum Failure {
    Memory,
    Input(io::Error),
    // the line that was read last cannot be read
    Unreadable(case_lines::Fault),
    // the line that was read last cannot stand there
    Misplaced(Fault),
    // what was handed in does not open; it is recorded, and the replay goes on
    Opening(OpeningRefusal),
    // 2^64 - 1 lines were read, and there are more
    Endless,
}

impl fmt::Display for Failure {
    ghost use Rattle.board_replay.specs.Told.{failure_told};

    ghost output = { failure_told };

    fn fmt<W: fmt::Write>(&self, f: &mut fmt::Formatter<W>) -> fmt::Result {
        match self {
            Failure::Memory => write!(f, "out of memory"),
            Failure::Input(error) => write!(f, "{error}"),
            Failure::Unreadable(fault) => write!(f, "{fault}"),
            Failure::Misplaced(fault) => write!(f, "{fault}"),
            Failure::Opening(refusal) => write!(f, "{refusal}"),
            Failure::Endless => write!(f, "too many lines"),
        }
    }
}

impl Error for Failure {}

impl From<AllocError> for Failure {
    ghost from_gives = { λ _ f. f ≡ failures.Memory };

    fn from(_error: AllocError) -> Failure {
        Failure::Memory
    }
}

impl<T: Drop> From<AllocFailed<T>> for Failure {
    ghost from_gives = { λ _ f. f ≡ failures.Memory };

    fn from(_error: AllocFailed<T>) -> Failure {
        Failure::Memory
    }
}

impl From<io::Error> for Failure {
    ghost from_gives = { λ error f. f ≡ failures.Input error };

    fn from(error: io::Error) -> Failure {
        Failure::Input(error)
    }
}

impl From<ReadError> for Failure {
    ghost from_gives = { λ error f. f ≡ failure_of error };

    fn from(error: ReadError) -> Failure {
        match error {
            ReadError::Memory => Failure::Memory,
            ReadError::Fault(fault) => Failure::Unreadable(fault),
        }
    }
}

impl From<Fault> for Failure {
    ghost from_gives = { λ fault f. f ≡ failures.Misplaced fault };

    fn from(fault: Fault) -> Failure {
        Failure::Misplaced(fault)
    }
}

impl From<OpeningRefusal> for Failure {
    ghost from_gives = { λ refusal f. f ≡ failures.Opening refusal };

    fn from(refusal: OpeningRefusal) -> Failure {
        Failure::Opening(refusal)
    }
}
