ghost use Rattle.std.specs.Prelude.{◌≡◌, ◌<◌, ◌∷◌, suc, length, drop};
ghost use Rattle.scan.specs.Chains.{slot as slot_of, slots, first_in};
ghost use Rattle.scan.specs.PathTables.{Tabled};

use crate::slot::{SLOTS, slot};
use journeys::Footpath;

// The footpaths of a network, in list order, each with the place of the next that begins in its slot. There are as many places as
// a network may have footpaths: any behind them are looked for one by one.
#[derive(Drop)]
pub(crate) struct PathTable<'a> {
    paths: &'a [Footpath],
    // half the size of places as they are elsewhere, since the table is made on the stack
    first: [Option<u16>; SLOTS],
    next: [Option<u16>; SLOTS],
    ghost tabled: { Tabled paths.now first next },
}

impl<'a> PathTable<'a> {
    // Built from the back, so that each footpath leads on to what begins its slot so far.
    pub(crate) fn over(paths: &'a [Footpath]) -> PathTable<'a>
        ensures paths { result.paths.now ≡ paths.now }
    {
        let mut first = [None; SLOTS];
        let mut next = [None; SLOTS];
        for place in (0..paths.len().min(SLOTS)).rev() {
            let slot = slot(paths[place].from);
            next[place] = first[slot];
            first[slot] = Some(place as u16);
        }
        PathTable { paths, first, next }
    }

    // The place of the first footpath in a stop's slot.
    pub(crate) fn first_at(&self, stop: u32) -> Option<usize>
        ensures { result ≡ first_in (λ p. p.from) (slot_of stop) 0 self.now.paths.now }
    {
        let slot = slot(stop);
        match self.first[slot] {
            Some(place) => Some(usize::from(place)),
            None => self.seek(slot, SLOTS),
        }
    }

    // The footpath at a place.
    pub(crate) fn path(&self, place: usize) -> &Footpath
        requires inside { place < length self.now.paths.now }
        ensures here { drop place self.now.paths.now ≡ result.now ∷ drop (suc place) self.now.paths.now }
    {
        &self.paths[place]
    }

    // The place of the next footpath in the slot of the one at a place.
    pub(crate) fn next(&self, place: usize) -> Option<usize>
        requires inside { place < length self.now.paths.now }
        ensures next { (path : Footpath) → drop place self.now.paths.now ≡ path ∷ drop (suc place) self.now.paths.now → result ≡ first_in (λ p. p.from) (slot_of path.from) (suc place) (drop (suc place) self.now.paths.now) }
    {
        let slot = slot(self.paths[place].from);
        if place >= SLOTS {
            return self.seek(slot, place + 1);
        }
        match self.next[place] {
            Some(next) => Some(usize::from(next)),
            None => self.seek(slot, SLOTS),
        }
    }

    // The first place in a slot from `begin` on. Behind the table, no footpath has the place of the next.
    fn seek(&self, wanted: usize, begin: usize) -> Option<usize>
        ensures { result ≡ first_in (λ p. p.from) wanted begin (drop begin self.now.paths.now) }
    {
        for place in begin..self.paths.len() {
            if slot(self.paths[place].from) == wanted {
                return Some(place);
            }
        }
        None
    }
}
