ghost use Rattle.std.specs.Prelude.{◌≡◌};
ghost use Rattle.records.specs.declared.opening_refusal.OpeningRefusal.TheVariants.{Timetable, Table, Fares};

use std::error::Error;
use std::fmt;

// Why a board was not opened: for its timetable, its table, or its ladder or surcharge.
#[derive(Clone, Copy, Debug, PartialEq, Eq)]
pub enum OpeningRefusal {
    Timetable(timetable::Refusal),
    Table(rule_table::Refusal),
    Fares(fares::Refusal),
}

impl fmt::Display for OpeningRefusal {
    fn fmt<W: fmt::Write>(&self, f: &mut fmt::Formatter<W>) -> fmt::Result {
        match self {
            OpeningRefusal::Timetable(refusal) => write!(f, "{refusal}"),
            OpeningRefusal::Table(refusal) => write!(f, "{refusal}"),
            OpeningRefusal::Fares(refusal) => write!(f, "{refusal}"),
        }
    }
}

impl Error for OpeningRefusal {}

impl From<timetable::Refusal> for OpeningRefusal {
    ghost from_gives = { λ refusal r. r ≡ Timetable refusal };

    fn from(refusal: timetable::Refusal) -> OpeningRefusal {
        Self::Timetable(refusal)
    }
}

impl From<rule_table::Refusal> for OpeningRefusal {
    ghost from_gives = { λ refusal r. r ≡ Table refusal };

    fn from(refusal: rule_table::Refusal) -> OpeningRefusal {
        Self::Table(refusal)
    }
}

impl From<fares::Refusal> for OpeningRefusal {
    ghost from_gives = { λ refusal r. r ≡ Fares refusal };

    fn from(refusal: fares::Refusal) -> OpeningRefusal {
        Self::Fares(refusal)
    }
}
