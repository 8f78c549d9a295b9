ghost use Rattle.std.specs.Prelude.{◌≡◌};
ghost use Rattle.timetable.specs.Rule.{within_limits, meets, may_stand_after};
ghost use Rattle.timetable.specs.Table.{break_of, Searched};

use crate::hops::Hop;

// The last second of a service day, at which a hop may still arrive.
pub const DAY_END: u32 = 172_800;

// The longest hop.
pub const MOST_METRES: u32 = 100_000;

// Levels go from 0 to here.
pub const TOP_LEVEL: u8 = 7;

// Events go from 0 to here.
pub const TOP_EVENT: u8 = 15;

// Whether a running hop keeps its limits.
fn in_limits(hop: &Hop) -> bool
    ensures { result ≡ within_limits hop.now }
{
    hop.departure < hop.arrival
        && hop.arrival <= DAY_END
        && hop.metres <= MOST_METRES
        && hop.level <= TOP_LEVEL
        && hop.event <= TOP_EVENT
}

// Whether a hop goes on where and when its neighbour has arrived.
fn meets(before: &Hop, hop: &Hop) -> bool
    ensures { result ≡ meets before.now hop.now }
{
    before.to == hop.from && before.arrival <= hop.departure
}

// Whether `hop` may stand right after `before`, or first where there is none before.
fn may_follow(before: Option<Hop>, hop: &Hop) -> bool
    ensures { result ≡ may_stand_after before hop.now }
{
    let fit = !hop.runs || in_limits(hop);
    let Some(before) = before else {
        return hop.trip == 0 && fit;
    };
    let same_trip = hop.trip == before.trip;
    let joined = !(same_trip && before.runs && hop.runs) || meets(&before, hop);
    let next_trip = hop.trip > before.trip && hop.trip - before.trip == 1;
    (same_trip || next_trip) && fit && joined
}

// The least place p such that the first p + 1 hops break the timetable rule, if they do. (A sheet's rows are searched by a
// like loop. One function for both is no plainer: the contract of its closure is longer than the loop.)
pub(crate) fn first_break(hops: &[Hop]) -> Option<usize>
    ensures place { result ≡ break_of hops.now }
    ensures rule { Searched hops.now result }
{
    let mut before = None;
    for (place, hop) in hops.iter().enumerate() {
        if !may_follow(before, hop) {
            return Some(place);
        }
        before = Some(*hop);
    }
    None
}
