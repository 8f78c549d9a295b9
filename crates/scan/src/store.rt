ghost use Rattle.std.specs.Prelude.{◌≡◌, ◌<◌, ◌≤◌, ◌++◌, suc, length, drop, [], ◌∷◌, None, Some, slice_set};
ghost use Rattle.scan.specs.Chains.{slot as slot_of, slots, first_in};
ghost use Rattle.scan.specs.Links.{link, place_of};
ghost use Rattle.journeys.specs.declared.full.Full.TheVariants.{Store as StoreFull};

use crate::link::Link;
use crate::slot::{SLOTS, slot};
use crate::stored_label::StoredLabel;
use journeys::{Full, Label};

// The labels of a scan under way, in places that are lent: the first `used` are written. Each has the place of the next in its
// slot; where those of a slot begin and end stands beside them. (It is no `Filled` with more beside it: of a list that lies so
// deep, nothing was known once the scan was over.)
#[derive(Drop)]
pub(crate) struct Store<'a, S> {
    places: &'a mut [StoredLabel<S>],
    used: usize,
    first: [Link; SLOTS],
    last: [Link; SLOTS],
    ghost fits: { used ≤ length places.now },
}

impl<'a, S: Copy> Store<'a, S> {
    ghost use Rattle.journeys.specs.Runs.{overlay};
    ghost use Rattle.scan.specs.Chains.{lead as lead_to};
    ghost use Rattle.scan.specs.Filling.{filled, Kept, ran, next_unless};
    ghost use Rattle.scan.specs.Stores.{as_filled, Chained, Extended, labels_of, room_of};

    // None of these places is written yet.
    pub(crate) fn over(places: &'a mut [StoredLabel<S>]) -> Store<'a, S>
        ensures places { result.places.now ≡ places.old }
        ensures same { result.places.ghost_name ≡ places.entry.ghost_name }
        ensures none { labels_of result ≡ [] }
        ensures chained { Chained result }
    {
        Store {
            places,
            used: 0,
            first: [Link::NONE; SLOTS],
            last: [Link::NONE; SLOTS],
        }
    }

    // How many labels are written.
    pub(crate) fn len(&self) -> usize
        ensures { result ≡ length (labels_of self.now) }
    {
        self.used
    }

    // The place of the first label in a stop's slot.
    pub(crate) fn first_at(&self, stop: u32) -> Option<usize>
        requires chained { Chained self.now }
        ensures { result ≡ first_in (λ l. l.stop) (slot_of stop) 0 (labels_of self.now) }
    {
        self.first[slot(stop)].place()
    }

    // The label at a place, and the place of the next in its slot.
    pub(crate) fn label(&self, place: usize) -> &StoredLabel<S>
        requires chained { Chained self.now }
        requires written { place < length (labels_of self.now) }
        ensures here { drop place (labels_of self.now) ≡ result.now.label ∷ drop (suc place) (labels_of self.now) }
        ensures next { place_of result.now.next ≡ first_in (λ l. l.stop) (slot_of result.now.label.stop) (suc place) (drop (suc place) (labels_of self.now)) }
    {
        let places = &*self.places;
        &places[place]
    }

    // Writes a label next, unless it is covered.
    pub(crate) fn write_unless(&mut self, covered: bool, label: Label<S>) -> Result<(), Full>
        requires chained { Chained self.old }
        ensures run { next_unless covered (room_of self.old) StoreFull label (labels_of self.old) ≡ ran result (labels_of self.new) }
        ensures extended { Extended self.old self.new }
    {
        if covered {
            return Ok(());
        }
        if self.used == self.places.len() {
            return Err(Full::Store);
        }
        self.write(label);
        Ok(())
    }

    // Writes a label next: the last of its slot leads on to it.
    fn write(&mut self, label: Label<S>)
        requires chained { Chained self.old }
        requires room { self.old.used < room_of self.old }
        ensures labels { labels_of self.new ≡ labels_of self.old ++ (label ∷ []) }
        ensures extended { Extended self.old self.new }
    {
        let place = self.used;
        let slot = slot(label.stop);
        match self.last[slot].place() {
            Some(before) => self.lead(before, place),
            None => self.begin(slot, place),
        }
        self.fill(slot, label);
    }

    // A slot begins at a place.
    fn begin(&mut self, slot: usize, place: usize)
        requires slot_in_bounds { slot < slots }
        requires room { place < room_of self.old }
        ensures places { self.new.places ≡ self.old.places }
        ensures used { self.new.used ≡ self.old.used }
        ensures first { self.new.first ≡ slice_set self.old.first slot (link (Some place)) }
        ensures last { self.new.last ≡ self.old.last }
    {
        self.first[slot] = Link::to(place);
    }

    // The label at a place leads on to another.
    fn lead(&mut self, place: usize, next: usize)
        requires written { place < self.old.used }
        requires room { next < room_of self.old }
        ensures filled { filled (as_filled self.new) ≡ lead_to place next (filled (as_filled self.old)) }
        ensures behind { self.new.places.now ≡ overlay (filled (as_filled self.new)) self.old.places.now }
        ensures same { self.new.places.ghost_name ≡ self.old.places.ghost_name }
        ensures room { room_of self.new ≡ room_of self.old }
        ensures used { self.new.used ≡ self.old.used }
        ensures first { self.new.first ≡ self.old.first }
        ensures last { self.new.last ≡ self.old.last }
    {
        self.places[place].next = Link::to(next);
    }

    // A label fills the next place, leads to none, and is the last of its slot.
    fn fill(&mut self, slot: usize, label: Label<S>)
        requires slot_in_bounds { slot < slots }
        requires room { self.old.used < room_of self.old }
        ensures filled { filled (as_filled self.new) ≡ filled (as_filled self.old) ++ (record { label = label; next = link None } ∷ []) }
        ensures kept { Kept (as_filled self.old) (as_filled self.new) }
        ensures first { self.new.first ≡ self.old.first }
        ensures last { self.new.last ≡ slice_set self.old.last slot (link (Some self.old.used)) }
    {
        self.last[slot] = Link::to(self.used);
        self.places[self.used] = StoredLabel {
            next: Link::NONE,
            label,
        };
        self.used += 1;
    }
}
