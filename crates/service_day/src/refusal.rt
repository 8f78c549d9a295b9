use std::error::Error;
use std::fmt;

// Why a trip was not cancelled, reinstated or delayed. Each case has the trip.
#[derive(Clone, Copy, Debug, PartialEq, Eq)]
pub enum Refusal {
    // the timetable has no such trip
    NoSuchTrip(u32),
    // an entry is needed, and the table lists 32
    TableFull(u32),
    // reinstated, and was not cancelled
    NotCancelled(u32),
    // above 7,200 seconds
    LongDelay(u32),
}

impl fmt::Display for Refusal {
    fn fmt<W: fmt::Write>(&self, f: &mut fmt::Formatter<W>) -> fmt::Result {
        match self {
            Refusal::NoSuchTrip(trip) => write!(f, "there is no trip {trip}"),
            Refusal::TableFull(trip) => write!(f, "the table has no entry left for trip {trip}"),
            Refusal::NotCancelled(trip) => write!(f, "trip {trip} is not cancelled"),
            Refusal::LongDelay(trip) => write!(f, "the delay of trip {trip} is too long"),
        }
    }
}

impl Error for Refusal {}
