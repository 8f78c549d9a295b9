use crate::refusal::Refusal;
use std::error::Error;
use std::fmt;

// Which of two boards has refused its question.
#[derive(Clone, Copy, Debug, PartialEq, Eq)]
pub enum Refused {
    First(Refusal),
    Second(Refusal),
}

impl fmt::Display for Refused {
    fn fmt<W: fmt::Write>(&self, f: &mut fmt::Formatter<W>) -> fmt::Result {
        match self {
            Refused::First(refusal) => write!(f, "the first board: {refusal}"),
            Refused::Second(refusal) => write!(f, "the second board: {refusal}"),
        }
    }
}

impl Error for Refused {}
