ghost use Rattle.std.specs.Prelude.{◌≡◌, true, map};
ghost use Rattle.timetable.specs.Rule.{fit};
ghost use Rattle.timetable.specs.declared.hops.Hop.{Hop};
ghost use Rattle.service_day.specs.LayerRule.{Gentle, layer_keeps};

use timetable::{Hop, Timetable};

// The most trips that a table lists.
pub const MOST_LISTED: usize = 32;

// What a table makes of each hop.
pub trait Changes {
    ghost change: { Self → Hop → Hop };

    // Trips, limits and joins are kept. (Data and not a law, since a timetable's rule cites it.)
    ghost gentle: { (c : Self) → Gentle (change c) };

    // A hop that keeps its limits, changed.
    fn changed(&self, hop: Hop) -> Hop
        requires { fit hop ≡ true }
        ensures { result ≡ change self.now hop };
}

// A timetable in which each hop of the one below is changed as a table says.
#[derive(Drop)]
pub struct Layer<T, C> {
    pub(crate) below: T,
    pub(crate) changes: C,
}

impl<T: Timetable, C: Changes> Timetable for Layer<T, C> {
    ghost hops = { λ l. map (C.Changes.change l.changes) (T.Timetable.hops l.below) };

    ghost rule = { λ l. layer_keeps (C.Changes.change l.changes) (C.Changes.gentle l.changes) (T.Timetable.hops l.below) (T.Timetable.rule l.below) };

    fn count(&self) -> u32 {
        self.below.count()
    }

    fn trips(&self) -> u32 {
        self.below.trips()
    }

    fn hop(&self, place: u32) -> Option<Hop> {
        let hop = self.below.hop(place)?;
        Some(self.changes.changed(hop))
    }
}
