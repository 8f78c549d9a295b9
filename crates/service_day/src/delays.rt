ghost use Rattle.std.specs.Prelude.{◌≡◌, ◌<◌, ◌≤◌, ◌==◌, ◌&&◌, true, false, [], ◌∷◌, ◌++◌, Some, find, position, length};
ghost use Rattle.std.specs.Option.{is_none};
ghost use Rattle.short_list.specs.Items.{items};
ghost use Rattle.timetable.specs.Table.{trips_of};
ghost use Rattle.service_day.specs.Changes.{delayed_by};
ghost use Rattle.service_day.specs.Causes.{MayNotDelay, RefusesFor};
ghost use Rattle.service_day.specs.Days.{longest_delay, delaying};
ghost use Rattle.service_day.specs.declared.delay.Delay.{Delay as DelayOf};
ghost use Rattle.service_day.specs.DelayTables.{trip_of};
ghost use Rattle.service_day.specs.LayerRule.{delayed_gentle};
ghost use Rattle.service_day.specs.Layers.{delay_in, late_in};
ghost use Rattle.service_day.specs.Marks.{MarksOf};
ghost use Rattle.service_day.specs.Refusals.{told, left};
ghost use Rattle.service_day.specs.Tables.{most_listed, trip_numbers, listed, without, with_entry, no_room};

use crate::changes::moved;
use crate::delay::Delay;
use crate::delayed_trips::DelayedTrips;
use crate::layer::{Changes, Layer, MOST_LISTED};
use crate::refusal::Refusal;
use crate::trip_marks::TripMarks;
use short_list::ShortList;
use timetable::{Hop, Timetable};

// The longest delay, in seconds.
pub const LONGEST_DELAY: u32 = 7_200;

// The delay of a trip that is not listed.
const NO_DELAY: u32 = 0;

const BLANK: Delay = Delay {
    trip: 0,
    seconds: NO_DELAY,
};

// A timetable in which the listed trips run late.
pub type Delays<T> = Layer<T, DelayedTrips>;

fn marks_of(delays: &ShortList<Delay, MOST_LISTED>) -> TripMarks
    ensures { MarksOf trip_of (items delays.now) result.marks }
{
    TripMarks::of(delays.as_slice(), |delay| delay.trip)
}

impl DelayedTrips {
    fn entry(&self, trip: u32) -> Option<Delay>
        ensures { result ≡ find (λ (d : DelayOf). d.trip == trip) (items self.now.delays) }
    {
        let delays = self.delays.as_slice();
        delays.iter().copied().find(|delay| delay.trip == trip)
    }

    // How late a trip runs.
    #[tactic(auto, using(crate::proofs::Outcomes::seconds_found))]
    fn seconds(&self, trip: u32) -> u32
        ensures { result ≡ late_in self.now trip }
    {
        if !self.marks.has(trip) {
            return NO_DELAY;
        }
        self.entry(trip).map_or(NO_DELAY, |delay| delay.seconds)
    }

    // The place of a trip's entry.
    fn place_of(&self, trip: u32) -> Option<usize>
        ensures { result ≡ position (λ (d : DelayOf). d.trip == trip) (items self.now.delays) }
    {
        if !self.marks.has(trip) {
            return None;
        }
        self.delays
            .as_slice()
            .iter()
            .position(|delay| delay.trip == trip)
    }

    // Whether a trip whose entry is found at this place needs one, and none is left.
    fn is_full_for(&self, place: Option<usize>) -> bool
        ensures { result ≡ (is_none place && length (items self.now.delays) == most_listed) }
    {
        place.is_none() && self.delays.len() == MOST_LISTED
    }

    // Takes a trip's delay away.
    fn strike(&mut self, trip: u32)
        ensures { items self.new.delays ≡ without trip_of trip (items self.old.delays) }
    {
        self.delays.retain(|delay| delay.trip != trip);
        self.marks = marks_of(&self.delays);
    }

    // Lists the delay of a trip that is not listed, where an entry is left.
    fn list(&mut self, delay: Delay)
        requires number { delay.trip < trip_numbers }
        requires late { 0 < delay.seconds }
        requires short { delay.seconds ≤ longest_delay }
        requires new { listed trip_of delay.trip (items self.old.delays) ≡ false }
        requires room { length (items self.old.delays) < most_listed }
        ensures { items self.new.delays ≡ items self.old.delays ++ delay ∷ [] }
    {
        self.delays.push(delay).unwrap();
        self.marks.mark(delay.trip);
    }

    // Writes the delay of a listed trip over the one at its place: the marks stay, since the trips are the same.
    fn overwrite(&mut self, place: usize, delay: Delay)
        requires late { 0 < delay.seconds }
        requires short { delay.seconds ≤ longest_delay }
        requires found { Some place ≡ position (λ (d : DelayOf). d.trip == delay.trip) (items self.old.delays) }
        ensures { items self.new.delays ≡ with_entry trip_of delay (items self.old.delays) }
    {
        self.delays.set(place, delay).unwrap();
    }

    // Sets the delay of a trip whose entry is found at this place.
    fn put(&mut self, place: Option<usize>, delay: Delay)
        requires number { delay.trip < trip_numbers }
        requires late { 0 < delay.seconds }
        requires short { delay.seconds ≤ longest_delay }
        requires found { place ≡ position (λ (d : DelayOf). d.trip == delay.trip) (items self.old.delays) }
        requires room { no_room trip_of delay.trip (items self.old.delays) ≡ false }
        ensures { items self.new.delays ≡ with_entry trip_of delay (items self.old.delays) }
    {
        match place {
            Some(place) => self.overwrite(place, delay),
            None => self.list(delay),
        }
    }
}

impl Changes for DelayedTrips {
    ghost change = { λ d. delayed_by (late_in d) };

    ghost gentle = { λ d. delayed_gentle (late_in d) };

    fn changed(&self, hop: Hop) -> Hop {
        moved(hop, self.seconds(hop.trip))
    }
}

impl<T: Timetable> Layer<T, DelayedTrips> {
    // No trip is delayed at first.
    pub fn new(below: T) -> Delays<T>
        ensures delay { delay_in result ≡ (λ _. 0) }
        ensures under { result.below ≡ below }
    {
        let delays = ShortList::empty(BLANK);
        let marks = marks_of(&delays);
        Layer {
            below,
            changes: DelayedTrips { delays, marks },
        }
    }

    // How late a trip runs.
    pub fn seconds(&self, trip: u32) -> u32
        ensures { result ≡ delay_in self.now trip }
    {
        self.changes.seconds(trip)
    }

    // Sets a trip's delay; 0 takes it away.
    pub fn delay(&mut self, trip: u32, seconds: u32) -> Result<(), Refusal>
        ensures answer { result ≡ told (delaying (trips_of (T.Timetable.hops self.old.below)) trip seconds (delay_in self.old)) }
        ensures causes { RefusesFor (MayNotDelay (trips_of (T.Timetable.hops self.old.below)) trip seconds (delay_in self.old)) result }
        ensures delay { delay_in self.new ≡ left (delay_in self.old) (delaying (trips_of (T.Timetable.hops self.old.below)) trip seconds (delay_in self.old)) }
        ensures under { self.new.below ≡ self.old.below }
    {
        if trip >= self.below.trips() {
            return Err(Refusal::NoSuchTrip(trip));
        }
        if seconds == NO_DELAY {
            self.changes.strike(trip);
            return Ok(());
        }
        let place = self.changes.place_of(trip);
        if self.changes.is_full_for(place) {
            return Err(Refusal::TableFull(trip));
        }
        if seconds > LONGEST_DELAY {
            return Err(Refusal::LongDelay(trip));
        }
        self.changes.put(place, Delay { trip, seconds });
        Ok(())
    }
}
