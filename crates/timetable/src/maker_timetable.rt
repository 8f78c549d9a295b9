ghost use Rattle.timetable.specs.MakerTimetables.{maker_hops, maker_rule};

use crate::hop_list::HopList;
use crate::hops::Hop;
use crate::interval_line::IntervalLine;
use crate::tables::Timetable;

/// A timetable as one maker or the other holds it: written out, or as a pattern that runs again and again.
#[derive(Drop)]
pub enum MakerTimetable<'a> {
    /// The hops stand in a list.
    HopList(HopList<'a>),
    /// The hops are those of an interval line.
    IntervalLine(IntervalLine),
}

impl<'a> Timetable for MakerTimetable<'a> {
    ghost hops = { λ t. maker_hops t };

    ghost rule = { λ t. maker_rule t };

    fn count(&self) -> u32 {
        match self {
            MakerTimetable::HopList(list) => list.count(),
            MakerTimetable::IntervalLine(line) => line.count(),
        }
    }

    fn trips(&self) -> u32 {
        match self {
            MakerTimetable::HopList(list) => list.trips(),
            MakerTimetable::IntervalLine(line) => line.trips(),
        }
    }

    fn hop(&self, place: u32) -> Option<Hop> {
        match self {
            MakerTimetable::HopList(list) => list.hop(place),
            MakerTimetable::IntervalLine(line) => line.hop(place),
        }
    }
}
