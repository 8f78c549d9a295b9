ghost use Rattle.std.specs.Prelude.{◌≡◌};
ghost use Rattle.planner.specs.declared.refusal.Refusal.TheVariants.{Question, ShortOutput};

use std::error::Error;
use std::fmt;

// What a question can be refused for.
#[derive(Clone, Copy, Debug, PartialEq, Eq)]
pub enum Field {
    Origin,
    Destination,
    Departure,
    Rides,
    // the timetable is too long to be asked
    Count,
}

// The lists that a question's answer rests on.
#[derive(Clone, Copy, Debug, PartialEq, Eq)]
pub enum NetworkList {
    Stops,
    Footpaths,
    Hops,
}

// The lists that an answer is written to.
#[derive(Clone, Copy, Debug, PartialEq, Eq)]
pub enum OutputList {
    Sheet,
    Legs,
}

// Why a question was not answered. `specs/Refusals` gives each case its number and values.
#[derive(Clone, Copy, Debug, PartialEq, Eq)]
pub enum Refusal {
    Question(Field),
    // the first place outside limits, or the length of a list that is too long
    Network { list: NetworkList, place: usize },
    ShortOutput(OutputList),
    // so many labels are written
    StoreFull(usize),
    // at this hop
    AboardFull(u32),
    // so many best offers there are
    ManyOffers(usize),
}

impl fmt::Display for Refusal {
    fn fmt<W: fmt::Write>(&self, f: &mut fmt::Formatter<W>) -> fmt::Result {
        match self {
            Refusal::Question(field) => write!(f, "the question cannot be asked: {field:?}"),
            Refusal::Network { list, place } => {
                write!(f, "the network is outside its limits: {list:?} {place}")
            }
            Refusal::ShortOutput(output) => write!(f, "there is too little room: {output:?}"),
            Refusal::StoreFull(labels) => write!(f, "the label store is full: {labels}"),
            Refusal::AboardFull(hop) => write!(f, "those aboard are too many at hop {hop}"),
            Refusal::ManyOffers(offers) => write!(f, "there are too many best offers: {offers}"),
        }
    }
}

impl Error for Refusal {}

impl From<Field> for Refusal {
    ghost from_gives = { λ field r. r ≡ Question field };

    fn from(field: Field) -> Refusal {
        Self::Question(field)
    }
}

impl From<OutputList> for Refusal {
    ghost from_gives = { λ output r. r ≡ ShortOutput output };

    fn from(output: OutputList) -> Refusal {
        Self::ShortOutput(output)
    }
}
