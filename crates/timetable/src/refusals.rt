use std::error::Error;
use std::fmt;

// Why a timetable was not opened. `specs/Refusals` gives each case its number and values.
#[derive(Clone, Copy, Debug, PartialEq, Eq)]
pub enum Refusal {
    // the first place at which a hop list breaks the timetable rule
    BrokenRule(usize),
    // an interval line is outside its limits
    IntervalLimits,
}

impl fmt::Display for Refusal {
    fn fmt<W: fmt::Write>(&self, f: &mut fmt::Formatter<W>) -> fmt::Result {
        match self {
            Refusal::BrokenRule(place) => write!(
                f,
                "the timetable rule is broken at place {place}"
            ),
            Refusal::IntervalLimits => write!(f, "the interval line is outside its limits"),
        }
    }
}

impl Error for Refusal {}
