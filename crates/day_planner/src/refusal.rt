ghost use Rattle.std.specs.Prelude.{◌≡◌};
ghost use Rattle.day_planner.specs.declared.refusal.Refusal.TheVariants.{Trip, Question};

use std::error::Error;
use std::fmt;

// Why an entry of a log was refused: for its trip, or as a question.
#[derive(Clone, Copy, Debug, PartialEq, Eq)]
pub enum Refusal {
    Trip(service_day::Refusal),
    Question(planner::Refusal),
}

impl fmt::Display for Refusal {
    fn fmt<W: fmt::Write>(&self, f: &mut fmt::Formatter<W>) -> fmt::Result {
        match self {
            Refusal::Trip(refusal) => write!(f, "{refusal}"),
            Refusal::Question(refusal) => write!(f, "{refusal}"),
        }
    }
}

impl Error for Refusal {}

impl From<service_day::Refusal> for Refusal {
    ghost from_gives = { λ refusal r. r ≡ Trip refusal };

    fn from(refusal: service_day::Refusal) -> Refusal {
        Self::Trip(refusal)
    }
}

impl From<planner::Refusal> for Refusal {
    ghost from_gives = { λ refusal r. r ≡ Question refusal };

    fn from(refusal: planner::Refusal) -> Refusal {
        Self::Question(refusal)
    }
}
