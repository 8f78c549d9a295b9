ghost use Rattle.std.specs.Prelude.{◌≡◌, true, List};
ghost use Rattle.timetable.specs.Rule.{keeps};
ghost use Rattle.timetable.specs.Table.{held as held_at, count_of, trips_of, hop_at};
ghost use Rattle.timetable.specs.declared.hops.Hop.{Hop};

use crate::hops::Hop;

// Counts are answered up to here, and places below it.
pub const MOST_HOPS: u32 = 65_536;

// A timetable means a list of hops that keeps the timetable rule.
pub trait Timetable {
    ghost hops: { Self → List Hop };

    // Each timetable brings the proof that its list keeps the rule. (A `law` is not to be had
    // for an impl with a lifetime, as that of the hop list.)
    ghost rule: { (t : Self) → keeps (hops t) ≡ true };

    // How many hops there are, held at 65,536.
    fn count(&self) -> u32
        ensures { result ≡ count_of (hops self.now) };

    // How many trips there are, held at 65,536.
    fn trips(&self) -> u32
        ensures { result ≡ trips_of (hops self.now) };

    // The hop at a place; nothing past the end, or from 65,536 on.
    fn hop(&self, place: u32) -> Option<Hop>
        ensures { result ≡ hop_at (hops self.now) place };
}

// A count as a timetable answers it.
pub(crate) fn held(count: usize) -> u32
    ensures { result ≡ held_at count }
{
    count.min(MOST_HOPS as usize) as u32
}
