ghost use Rattle.std.specs.Prelude.{◌≡◌, ◌<◌, length};
ghost use Rattle.journeys.specs.Journey.{hop_in};
ghost use Rattle.retrace.specs.Missteps.{Checks, CanBoard};
ghost use Rattle.retrace.specs.Steps.{place_of};
ghost use Rattle.retrace.specs.Travels.{course_setup};

use crate::course::Course;
use crate::misstep::Misstep;
use crate::step::Step;
use journeys::{Fare, Leg, LegKind};
use timetable::{Hop, Timetable};

impl<'a, T: Timetable, F: Fare> Course<'a, T, F> {
    // The hop at a place that the timetable answers.
    pub(crate) fn hop(&self, place: usize) -> Hop
        requires { place < length (course_setup T.Timetable.hops F.Fare.model self.now).hops }
        ensures { result ≡ hop_in (course_setup T.Timetable.hops F.Fare.model self.now) place }
    {
        self.timetable.hop(place as u32).unwrap()
    }

    // Whether a walk leads on from where a rider is, or why not.
    fn check_walk(&self, at: &Step<F::State>, leg: &Leg) -> Result<(), Misstep>
        requires { leg.now.kind ≡ LegKind.Walk }
        ensures { Checks (course_setup T.Timetable.hops F.Fare.model self.now) (place_of at.now) leg.now result }
    {
        if leg.first != leg.last {
            return Err(Misstep::TwoPaths);
        }
        if at.is_on_foot {
            return Err(Misstep::SecondWalk);
        }
        let Some(path) = self.paths.get(leg.first) else {
            return Err(Misstep::NoPath);
        };
        if path.from != at.stop {
            return Err(Misstep::PathElsewhere);
        }
        Ok(())
    }

    // Whether the hops of a ride run and are of one trip, or which is the first that does not.
    fn check_hops(&self, at: &Step<F::State>, leg: &Leg) -> Result<(), Misstep>
        requires { CanBoard (course_setup T.Timetable.hops F.Fare.model self.now) (place_of at.now) leg.now }
        ensures { Checks (course_setup T.Timetable.hops F.Fare.model self.now) (place_of at.now) leg.now result }
    {
        let trip = self.hop(leg.first).trip;
        for place in leg.first..leg.last + 1 {
            let hop = self.hop(place);
            if !hop.runs {
                return Err(Misstep::Halted(place));
            }
            if hop.trip != trip {
                return Err(Misstep::OtherTrip(place));
            }
        }
        Ok(())
    }

    // Whether a ride leads on from where a rider is, or why not.
    fn check_ride(&self, at: &Step<F::State>, leg: &Leg) -> Result<(), Misstep>
        requires { leg.now.kind ≡ LegKind.Ride }
        ensures { Checks (course_setup T.Timetable.hops F.Fare.model self.now) (place_of at.now) leg.now result }
    {
        if leg.last < leg.first {
            return Err(Misstep::Backward);
        }
        if leg.last >= self.timetable.count() as usize {
            return Err(Misstep::NoHop);
        }
        let hop = self.hop(leg.first);
        if hop.from != at.stop {
            return Err(Misstep::HopElsewhere);
        }
        if u64::from(hop.departure) < at.time {
            return Err(Misstep::Departed);
        }
        self.check_hops(at, leg)
    }

    // Whether a leg leads on from where a rider is, or why not.
    pub(crate) fn check(&self, at: &Step<F::State>, leg: &Leg) -> Result<(), Misstep>
        ensures { Checks (course_setup T.Timetable.hops F.Fare.model self.now) (place_of at.now) leg.now result }
    {
        match leg.kind {
            LegKind::Walk => self.check_walk(at, leg),
            LegKind::Ride => self.check_ride(at, leg),
        }
    }
}
