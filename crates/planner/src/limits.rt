ghost use Rattle.std.specs.Prelude.{◌≡◌, ℕ, Bool, cond, length, nat_lt, Some};
ghost use Rattle.std.specs.Result.{result_err};
ghost use Rattle.timetable.specs.Table.{most_hops};
ghost use Rattle.planner.specs.Limits.{fault_of_question, stop_within, path_within, hop_within, first_bad, hops_fault, fault_of_network, fault_of_room};

use crate::refusal::{Field, NetworkList, OutputList, Refusal};
use journeys::{Footpath, Network, Question, Stop};
use sheet::SHEET_BYTES;
use timetable::{DAY_END, Hop, MOST_HOPS, Timetable};

const MOST_STOPS: usize = 4_096;

const MOST_PATHS: usize = 4_096;

const TOP_ZONE: u8 = 63;

const TOP_CLASS: u8 = 3;

const LONGEST_WALK: u32 = 3_600;

const MOST_RIDES: u32 = 8;

// 32 rows with at most 17 legs each.
pub const MOST_LEGS: usize = 544;

// Whether a question can be asked, where there are so many stops and hops; else its first field that
// cannot.
pub(crate) fn check_question(question: &Question, stops: usize, count: u32) -> Result<(), Field>
    ensures { result_err result ≡ fault_of_question question.now stops count }
{
    if question.origin as usize >= stops {
        return Err(Field::Origin);
    }
    if question.destination as usize >= stops {
        return Err(Field::Destination);
    }
    if question.departure > DAY_END {
        return Err(Field::Departure);
    }
    if question.rides < 1 || question.rides > MOST_RIDES {
        return Err(Field::Rides);
    }
    if count >= MOST_HOPS {
        return Err(Field::Count);
    }
    Ok(())
}

// What is within limits, where there are so many stops.
trait Limited {
    ghost within: { ℕ → Self → Bool };

    fn is_within(&self, stops: usize) -> bool
        ensures { result ≡ within stops self.now };
}

impl Limited for Stop {
    ghost within = { λ stops s. stop_within s };

    fn is_within(&self, stops: usize) -> bool {
        self.zone <= TOP_ZONE && self.class <= TOP_CLASS
    }
}

// A footpath leads from a stop to another one.
impl Limited for Footpath {
    ghost within = { path_within };

    fn is_within(&self, stops: usize) -> bool {
        (self.from as usize) < stops
            && (self.to as usize) < stops
            && self.from != self.to
            && (1..=LONGEST_WALK).contains(&self.seconds)
    }
}

// A hop that does not run may name any stops.
impl Limited for Hop {
    ghost within = { hop_within };

    fn is_within(&self, stops: usize) -> bool {
        !self.runs || ((self.from as usize) < stops && (self.to as usize) < stops)
    }
}

// The length of a list that is too long, else its first place outside limits.
fn list_fault<X: Limited>(list: &[X], most: usize, stops: usize) -> Option<usize>
    ensures { result ≡ cond (nat_lt most (length list.now)) (Some (length list.now)) (first_bad (X.within stops) 0 list.now) }
{
    if list.len() > most {
        return Some(list.len());
    }
    // a loop, since with `position` the proof did not close: the test is a trait's here
    for (place, item) in list.iter().enumerate() {
        if !item.is_within(stops) {
            return Some(place);
        }
    }
    None
}

// A timetable answers hops by place, and only those that it answers are tested.
fn first_bad_hop<T: Timetable>(timetable: &T, stops: usize) -> Option<usize>
    ensures { result ≡ hops_fault stops (T.Timetable.hops timetable.now) }
{
    let count = timetable.count();
    // by place, since a timetable is no list: it answers one hop at a time
    for place in 0..count {
        let Some(hop) = timetable.hop(place) else {
            continue;
        };
        if !hop.is_within(stops) {
            return Some(place as usize);
        }
    }
    None
}

// Whether the network is within limits; else its first list that is not, with the place.
pub(crate) fn check_network<T: Timetable>(timetable: &T, network: &Network) -> Result<(), Refusal>
    ensures { result_err result ≡ fault_of_network network.now.stops.now network.now.paths.now (T.Timetable.hops timetable.now) }
{
    let stops = network.stops.len();
    // what is found is a place, and becomes a refusal only here
    if let Some(place) = list_fault(network.stops, MOST_STOPS, stops) {
        return Err(outside(NetworkList::Stops, place));
    }
    if let Some(place) = list_fault(network.paths, MOST_PATHS, stops) {
        return Err(outside(NetworkList::Footpaths, place));
    }
    if let Some(place) = first_bad_hop(timetable, stops) {
        return Err(outside(NetworkList::Hops, place));
    }
    Ok(())
}

fn outside(list: NetworkList, place: usize) -> Refusal
    ensures { result ≡ Refusal.Network list place }
{
    Refusal::Network { list, place }
}

// Whether both lists have room for every answer; else the first that has not.
pub(crate) fn check_room(bytes: usize, legs: usize) -> Result<(), OutputList>
    ensures { result_err result ≡ fault_of_room bytes legs }
{
    if bytes < SHEET_BYTES {
        return Err(OutputList::Sheet);
    }
    if legs < MOST_LEGS {
        return Err(OutputList::Legs);
    }
    Ok(())
}
