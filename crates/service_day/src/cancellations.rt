ghost use Rattle.std.specs.Prelude.{◌≡◌, ◌<◌, true, false, [], ◌∷◌, ◌++◌, length, Some, None, nat_lt, if◌then◌else◌};
ghost use Rattle.short_list.specs.Items.{items};
ghost use Rattle.timetable.specs.Table.{trips_of};
ghost use Rattle.service_day.specs.Changes.{cancelled_by};
ghost use Rattle.service_day.specs.Causes.{MayNotCancel, MayNotReinstate, RefusesFor};
ghost use Rattle.service_day.specs.Days.{cancelling, reinstating};
ghost use Rattle.service_day.specs.LayerRule.{cancelled_gentle};
ghost use Rattle.service_day.specs.Layers.{cancelled_in, off_in};
ghost use Rattle.service_day.specs.Marks.{MarksOf};
ghost use Rattle.service_day.specs.Refusals.{told, left};
ghost use Rattle.service_day.specs.Tables.{itself, most_listed, trip_numbers, without};

use crate::cancelled_trips::CancelledTrips;
use crate::changes::halted;
use crate::layer::{Changes, Layer, MOST_LISTED};
use crate::refusal::Refusal;
use crate::trip_marks::TripMarks;
use short_list::ShortList;
use timetable::{Hop, Timetable};

// A timetable in which the listed trips do not run.
pub type Cancellations<T> = Layer<T, CancelledTrips>;

fn marks_of(trips: &ShortList<u32, MOST_LISTED>) -> TripMarks
    ensures { MarksOf itself (items trips.now) result.marks }
{
    TripMarks::of(trips.as_slice(), |trip| trip)
}

impl CancelledTrips {
    fn is_listed(&self, trip: u32) -> bool
        ensures { result ≡ off_in self.now trip }
    {
        self.marks.has(trip) && self.trips.as_slice().iter().any(|listed| *listed == trip)
    }

    // Lists a trip, where an entry is left.
    fn list(&mut self, trip: u32) -> Option<()>
        requires number { trip < trip_numbers }
        requires new { off_in self.old trip ≡ false }
        ensures room { result ≡ (if nat_lt (length (items self.old.trips)) most_listed then Some tt else None) }
        ensures listed { items self.new.trips ≡ (if nat_lt (length (items self.old.trips)) most_listed then items self.old.trips ++ trip ∷ [] else items self.old.trips) }
    {
        self.trips.push(trip)?;
        self.marks.mark(trip);
        Some(())
    }

    // Takes a trip out.
    fn strike(&mut self, trip: u32)
        ensures { items self.new.trips ≡ without itself trip (items self.old.trips) }
    {
        self.trips.retain(|listed| *listed != trip);
        self.marks = marks_of(&self.trips);
    }
}

impl Changes for CancelledTrips {
    ghost change = { λ c. cancelled_by (off_in c) };

    ghost gentle = { λ c. cancelled_gentle (off_in c) };

    fn changed(&self, hop: Hop) -> Hop {
        if self.is_listed(hop.trip) {
            halted(hop)
        } else {
            hop
        }
    }
}

impl<T: Timetable> Layer<T, CancelledTrips> {
    // No trip is cancelled at first.
    pub fn new(below: T) -> Cancellations<T>
        ensures set { cancelled_in result ≡ (λ _. false) }
        ensures under { result.below ≡ below }
    {
        let trips = ShortList::empty(0);
        let marks = marks_of(&trips);
        Layer {
            below,
            changes: CancelledTrips { trips, marks },
        }
    }

    // Whether a trip is cancelled.
    pub fn is_cancelled(&self, trip: u32) -> bool
        ensures { result ≡ cancelled_in self.now trip }
    {
        self.changes.is_listed(trip)
    }

    // Cancels a trip, if it is not cancelled already.
    pub fn cancel(&mut self, trip: u32) -> Result<(), Refusal>
        ensures answer { result ≡ told (cancelling (trips_of (T.Timetable.hops self.old.below)) trip (cancelled_in self.old)) }
        ensures causes { RefusesFor (MayNotCancel (trips_of (T.Timetable.hops self.old.below)) trip (cancelled_in self.old)) result }
        ensures set { cancelled_in self.new ≡ left (cancelled_in self.old) (cancelling (trips_of (T.Timetable.hops self.old.below)) trip (cancelled_in self.old)) }
        ensures under { self.new.below ≡ self.old.below }
    {
        if trip >= self.below.trips() {
            return Err(Refusal::NoSuchTrip(trip));
        }
        if self.is_cancelled(trip) {
            return Ok(());
        }
        self.changes.list(trip).ok_or(Refusal::TableFull(trip))
    }

    // Reinstates a cancelled trip.
    pub fn reinstate(&mut self, trip: u32) -> Result<(), Refusal>
        ensures answer { result ≡ told (reinstating (trips_of (T.Timetable.hops self.old.below)) trip (cancelled_in self.old)) }
        ensures causes { RefusesFor (MayNotReinstate (trips_of (T.Timetable.hops self.old.below)) trip (cancelled_in self.old)) result }
        ensures set { cancelled_in self.new ≡ left (cancelled_in self.old) (reinstating (trips_of (T.Timetable.hops self.old.below)) trip (cancelled_in self.old)) }
        ensures under { self.new.below ≡ self.old.below }
    {
        if trip >= self.below.trips() {
            return Err(Refusal::NoSuchTrip(trip));
        }
        if !self.is_cancelled(trip) {
            return Err(Refusal::NotCancelled(trip));
        }
        self.changes.strike(trip);
        Ok(())
    }
}
