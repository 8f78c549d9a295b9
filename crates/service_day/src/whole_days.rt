ghost use Rattle.std.specs.Prelude.{◌≡◌};
ghost use Rattle.timetable.specs.Table.{trips_of};
ghost use Rattle.service_day.specs.Causes.{MayNotCancel, MayNotReinstate, MayNotDelay, RefusesFor};
ghost use Rattle.service_day.specs.Days.{cancelling, reinstating, delaying};
ghost use Rattle.service_day.specs.DayStates.{first_day, after_cancel, after_reinstate, after_delay, meant_on};
ghost use Rattle.service_day.specs.LayerRule.{both_keep};
ghost use Rattle.service_day.specs.Layers.{base, day_of};
ghost use Rattle.service_day.specs.Refusals.{told};

use crate::cancellations::Cancellations;
use crate::day::Day;
use crate::delays::Delays;
use crate::refusal::Refusal;
use timetable::{Hop, Timetable};

impl<T: Timetable> Day<T> {
    // A new day: nothing is cancelled or delayed.
    pub fn new(timetable: T) -> Day<T>
        ensures day { day_of result ≡ first_day }
        ensures under { base result ≡ timetable }
    {
        Day {
            layers: Delays::new(Cancellations::new(timetable)),
        }
    }

    // Cancels a trip.
    pub fn cancel(&mut self, trip: u32) -> Result<(), Refusal>
        ensures answer { result ≡ told (cancelling (trips_of (T.Timetable.hops (base self.old))) trip (day_of self.old).cancelled) }
        ensures causes { RefusesFor (MayNotCancel (trips_of (T.Timetable.hops (base self.old))) trip (day_of self.old).cancelled) result }
        ensures day { day_of self.new ≡ after_cancel (trips_of (T.Timetable.hops (base self.old))) trip (day_of self.old) }
        ensures under { base self.new ≡ base self.old }
    {
        self.layers.below.cancel(trip)
    }

    // Reinstates a cancelled trip.
    pub fn reinstate(&mut self, trip: u32) -> Result<(), Refusal>
        ensures answer { result ≡ told (reinstating (trips_of (T.Timetable.hops (base self.old))) trip (day_of self.old).cancelled) }
        ensures causes { RefusesFor (MayNotReinstate (trips_of (T.Timetable.hops (base self.old))) trip (day_of self.old).cancelled) result }
        ensures day { day_of self.new ≡ after_reinstate (trips_of (T.Timetable.hops (base self.old))) trip (day_of self.old) }
        ensures under { base self.new ≡ base self.old }
    {
        self.layers.below.reinstate(trip)
    }

    // Sets a trip's delay; 0 takes it away.
    pub fn delay(&mut self, trip: u32, seconds: u32) -> Result<(), Refusal>
        ensures answer { result ≡ told (delaying (trips_of (T.Timetable.hops (base self.old))) trip seconds (day_of self.old).delay) }
        ensures causes { RefusesFor (MayNotDelay (trips_of (T.Timetable.hops (base self.old))) trip seconds (day_of self.old).delay) result }
        ensures day { day_of self.new ≡ after_delay (trips_of (T.Timetable.hops (base self.old))) trip seconds (day_of self.old) }
        ensures under { base self.new ≡ base self.old }
    {
        self.layers.delay(trip, seconds)
    }
}

impl<T: Timetable> Timetable for Day<T> {
    ghost hops = { λ d. meant_on (day_of d) (T.Timetable.hops (base d)) };

    ghost rule = { λ d. both_keep (day_of d).cancelled (day_of d).delay (T.Timetable.hops (base d)) (T.Timetable.rule (base d)) };

    fn count(&self) -> u32 {
        self.layers.count()
    }

    fn trips(&self) -> u32 {
        self.layers.trips()
    }

    fn hop(&self, place: u32) -> Option<Hop> {
        self.layers.hop(place)
    }
}
