use std::error::Error;
use std::fmt;

/// Why a leg does not follow those before it. The cases stand in the order in which they are tested: first those of a walk,
/// then those of a ride. (A hop by its place, as in `Leg`.)
#[derive(Clone, Copy, Debug, PartialEq, Eq)]
pub enum Misstep {
    /// A walk that does not name one footpath twice.
    TwoPaths,
    /// A walk right after a walk.
    SecondWalk,
    /// A walk over a footpath that there is not.
    NoPath,
    /// A walk from another stop than the one reached.
    PathElsewhere,
    /// A ride whose first hop stands behind its last.
    Backward,
    /// A ride with a hop that the timetable does not answer.
    NoHop,
    /// A ride from another stop than the one reached.
    HopElsewhere,
    /// A ride whose first hop departs before the time reached.
    Departed,
    /// A ride over a hop that does not run: the first such hop.
    Halted(usize),
    /// A ride over a hop of another trip than the first: the first such hop.
    OtherTrip(usize),
}

impl fmt::Display for Misstep {
    fn fmt<W: fmt::Write>(&self, f: &mut fmt::Formatter<W>) -> fmt::Result {
        match self {
            Misstep::TwoPaths => write!(f, "a walk names two footpaths"),
            Misstep::SecondWalk => write!(f, "a walk follows a walk"),
            Misstep::NoPath => write!(f, "there is no such footpath"),
            Misstep::PathElsewhere => write!(f, "the footpath begins at another stop"),
            Misstep::Backward => write!(f, "the first hop stands behind the last"),
            Misstep::NoHop => write!(f, "there is no such hop"),
            Misstep::HopElsewhere => write!(f, "the first hop begins at another stop"),
            Misstep::Departed => write!(f, "the first hop has departed"),
            Misstep::Halted(hop) => write!(f, "hop {hop} does not run"),
            Misstep::OtherTrip(hop) => write!(f, "hop {hop} is of another trip"),
        }
    }
}

impl Error for Misstep {}
