ghost use Rattle.std.specs.Prelude.{◌≡◌, ◌+◌, ◌-◌, ◌*◌, ◌^◌, ◌<◌, ◌≤◌, ◌==◌, ◌&&◌, nat_le, true, length};
ghost use Rattle.short_list.specs.Items.{items};
ghost use Rattle.timetable.specs.Line.{most_pattern, shortest_interval, longest_interval, most_trips, shifted as shifted_hop, line, hops_of_first_trip, arriving_by, within_range, line_allowed, open_line, LineOpened};
ghost use Rattle.timetable.specs.LineFacts.{allowed_keeps};
ghost use Rattle.timetable.specs.LineHops.{hops_of, Reached, StandsAt};
ghost use Rattle.timetable.specs.Rule.{day_end, keeps};
ghost use Rattle.timetable.specs.Table.{trips_of, meant};

use crate::hops::Hop;
use crate::interval_line::{
    IntervalLine, LONGEST_INTERVAL, MOST_PATTERN, MOST_TRIPS, SHORTEST_INTERVAL,
};
use crate::refusals::Refusal;
use crate::rule::{DAY_END, first_break};
use crate::tables::Timetable;
use short_list::ShortList;

impl IntervalLine {
    // Opens exactly the lines inside their limits.
    pub fn open(pattern: &[Hop], interval: u32, trips: u32) -> Result<IntervalLine, Refusal>
        ensures answer { meant hops_of result ≡ open_line pattern.now interval trips }
        ensures limits { LineOpened pattern.now interval trips result }
    {
        if !is_allowed(pattern, interval, trips) {
            return Err(Refusal::IntervalLimits);
        }
        Ok(IntervalLine {
            pattern: ShortList::copy_of(pattern[0], pattern).unwrap(),
            interval,
            trips,
        })
    }

    // How many hops all its trips have.
    fn hop_count(&self) -> u32
        ensures hops { result ≡ length (hops_of self.now) }
        ensures few { result ≤ most_pattern * most_trips }
    {
        self.pattern.len() as u32 * self.trips
    }

    // How many trips it has.
    fn trip_count(&self) -> u32
        ensures { result ≡ trips_of (hops_of self.now) }
    {
        self.trips
    }

    // Whether a hop of its trips stands at a place.
    fn reaches(&self, place: u32) -> bool
        ensures { Reached self.now place result }
    {
        place < self.hop_count()
    }

    // A hop of the pattern as a trip has it.
    fn hop_of(&self, trip: u32, column: usize) -> Hop
        requires trip { trip < self.now.trips }
        requires column { column < length (items self.now.pattern) }
        ensures { StandsAt self.now trip column result }
    {
        shifted(
            self.pattern.as_slice()[column],
            trip,
            later(trip, self.interval),
        )
    }
}

impl Timetable for IntervalLine {
    ghost hops = { λ l. hops_of l };

    ghost rule = { λ l. allowed_keeps (items l.pattern) l.interval l.trips l.allowed };

    fn count(&self) -> u32 {
        self.hop_count()
    }

    fn trips(&self) -> u32 {
        self.trip_count()
    }

    fn hop(&self, place: u32) -> Option<Hop> {
        if !self.reaches(place) {
            return None;
        }
        let used = self.pattern.len() as u32;
        Some(self.hop_of(place / used, (place % used) as usize))
    }
}

fn is_within_ranges(hops: usize, interval: u32, trips: u32) -> bool
    ensures { result ≡ (within_range 1 most_pattern hops && (within_range shortest_interval longest_interval interval && within_range 1 most_trips trips)) }
{
    (1..=MOST_PATTERN).contains(&hops)
        && (SHORTEST_INTERVAL..=LONGEST_INTERVAL).contains(&interval)
        && (1..=MOST_TRIPS).contains(&trips)
}

// Whether a line is inside its limits. (The three are an `IntervalLine` once they are; a second struct for before is no
// plainer.)
#[tactic(auto, using(crate::proofs::Lines::allowed_decided))]
fn is_allowed(pattern: &[Hop], interval: u32, trips: u32) -> bool
    ensures { result ≡ line_allowed pattern.now interval trips }
{
    if !is_within_ranges(pattern.len(), interval, trips) {
        return false;
    }
    keeps_rule(pattern) && of_first_trip(pattern) && last_arrives(pattern, interval, trips)
}

fn keeps_rule(hops: &[Hop]) -> bool
    ensures { result ≡ keeps hops.now }
{
    first_break(hops).is_none()
}

fn is_of_first_trip(hop: &Hop) -> bool
    ensures { result ≡ (hop.now.runs && hop.now.trip == 0) }
{
    hop.runs && hop.trip == 0
}

// Whether each hop runs and is of trip 0.
fn of_first_trip(hops: &[Hop]) -> bool
    ensures { result ≡ hops_of_first_trip hops.now }
{
    hops.iter().all(|hop| is_of_first_trip(hop))
}

// Whether the last trip arrives by the day's end. No trip is later than the last.
fn last_arrives(pattern: &[Hop], interval: u32, trips: u32) -> bool
    requires interval { interval ≤ longest_interval }
    requires some { 1 ≤ trips }
    requires few { trips ≤ most_trips }
    ensures { result ≡ arriving_by ((trips - 1) * interval) pattern.now }
{
    arrive_by(pattern, later(trips - 1, interval))
}

fn arrives_by(hop: &Hop, seconds: u32) -> bool
    ensures { result ≡ nat_le (hop.now.arrival + seconds) day_end }
{
    hop.arrival as u64 + seconds as u64 <= DAY_END as u64
}

// Whether each hop arrives by the day's end, so many seconds later.
fn arrive_by(hops: &[Hop], seconds: u32) -> bool
    ensures { result ≡ arriving_by seconds hops.now }
{
    hops.iter().all(|hop| arrives_by(hop, seconds))
}

// How much later than the first a trip runs.
fn later(trip: u32, interval: u32) -> u32
    requires trip { trip ≤ most_trips }
    requires interval { interval ≤ longest_interval }
    ensures { result ≡ trip * interval }
{
    trip * interval
}

// The hop as a trip has it, so many seconds later.
fn shifted(hop: Hop, trip: u32, seconds: u32) -> Hop
    requires departs { hop.departure + seconds < 2 ^ 32 }
    requires arrives { hop.arrival + seconds < 2 ^ 32 }
    ensures { result ≡ shifted_hop trip seconds hop }
{
    Hop {
        trip,
        departure: hop.departure + seconds,
        arrival: hop.arrival + seconds,
        ..hop
    }
}
