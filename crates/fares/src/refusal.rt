use std::error::Error;
use std::fmt;

// Why a tariff of this crate does not open.
#[derive(Clone, Copy, Debug, PartialEq, Eq)]
pub enum Refusal {
    Ladder,
    Surcharge,
}

impl fmt::Display for Refusal {
    fn fmt<W: fmt::Write>(&self, f: &mut fmt::Formatter<W>) -> fmt::Result {
        match self {
            Refusal::Ladder => write!(f, "the ladder is outside its limits"),
            Refusal::Surcharge => write!(f, "the surcharge is outside its limits"),
        }
    }
}

impl Error for Refusal {}
