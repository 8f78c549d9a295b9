ghost use Rattle.std.specs.Prelude.{◌≡◌, ◌+◌, ◌-◌, ◌<◌, ◌≤◌, ◌^◌, length, slice_set};
ghost use Rattle.sheet.specs.Outcome.{pasted};
ghost use Rattle.journeys.specs.Journey.{walk, ride, start, LegOk, RideOk, WalkOk};
ghost use Rattle.retrace.specs.Missteps.{leg_meant};
ghost use Rattle.retrace.specs.Steps.{step_at, step_after, place_of, leg_steps, IsPriced, step_aboard, step_by_hop, IsInTime};
ghost use Rattle.retrace.specs.Travels.{course_setup};

use crate::course::Course;
use crate::step::Step;
use journeys::{Fare, Leg, LegKind};
use timetable::Timetable;

// Writes a step at a place. (A function of its own: where more is known, that the place lies in memory is not found.)
fn write<S: Copy>(steps: &mut [Step<S>], place: usize, step: Step<S>)
    requires { place < length steps.old }
    ensures { steps.new ≡ slice_set steps.old place step }
{
    steps[place] = step;
}

impl<'a, T: Timetable, F: Fare> Course<'a, T, F> {
    // At the origin.
    pub(crate) fn start(&self) -> Step<F::State>
        ensures step { result ≡ step_at (F.Fare.model self.now.fare.now) (start (course_setup T.Timetable.hops F.Fare.model self.now)) }
        ensures in_time { IsInTime result }
    {
        Step {
            stop: self.origin,
            time: self.departure.into(),
            rides: 0,
            is_on_foot: false,
            state: self.fare.start(self.origin),
            price: 0,
        }
    }

    // Over a footpath.
    fn walk(&self, at: &Step<F::State>, path: usize) -> Step<F::State>
        requires follows { WalkOk (course_setup T.Timetable.hops F.Fare.model self.now) (place_of at.now) path }
        requires in_time { IsInTime at.now }
        requires priced { IsPriced (F.Fare.model self.now.fare.now) at.now }
        ensures step { result ≡ step_after (course_setup T.Timetable.hops F.Fare.model self.now) (place_of at.now) (walk path) }
        ensures in_time { IsInTime result }
    {
        let path = &self.paths[path];
        Step {
            stop: path.to,
            time: at.time + u64::from(path.seconds),
            rides: at.rides,
            is_on_foot: true,
            state: at.state,
            price: at.price,
        }
    }

    // Aboard, before the first hop.
    fn board(&self, at: &Step<F::State>) -> Step<F::State>
        requires { at.now.rides + 1 < 2 ^ 64 }
        ensures { result ≡ step_aboard (F.Fare.model self.now.fare.now) at.now }
    {
        let state = if at.rides == 0 {
            at.state
        } else {
            self.fare.change(at.state)
        };
        Step {
            stop: at.stop,
            time: at.time,
            rides: at.rides + 1,
            is_on_foot: false,
            state,
            price: at.price,
        }
    }

    // One hop on, for one who is aboard. The step is written at a place of the list.
    fn ride_on(
        &self,
        aboard: &Step<F::State>,
        hop: usize,
        steps: &mut [Step<F::State>],
        place: usize,
    ) -> Step<F::State>
        requires is { hop < length (course_setup T.Timetable.hops F.Fare.model self.now).hops }
        requires room { place < length steps.old }
        ensures step { result ≡ step_by_hop (course_setup T.Timetable.hops F.Fare.model self.now) hop aboard.now }
        ensures in_time { IsInTime result }
        ensures steps { steps.new ≡ slice_set steps.old place result }
    {
        let ridden = self.hop(hop);
        let state = self.fare.ride(&ridden, aboard.state);
        let step = Step {
            stop: ridden.to,
            time: ridden.arrival.into(),
            rides: aboard.rides,
            is_on_foot: false,
            state,
            price: self.fare.price(state),
        };
        write(steps, place, step);
        step
    }

    // Rides the hops of a leg, and writes a step after each, from a place of the list on. Answers the last.
    fn ride(
        &self,
        at: &Step<F::State>,
        leg: &Leg,
        steps: &mut [Step<F::State>],
        used: usize,
    ) -> Step<F::State>
        requires follows { RideOk (course_setup T.Timetable.hops F.Fare.model self.now) (place_of at.now) leg.now.first leg.now.last }
        requires rides { at.now.rides + 1 < 2 ^ 64 }
        requires room { used + (leg.now.last - leg.now.first + 1) ≤ length steps.old }
        ensures step { result ≡ step_after (course_setup T.Timetable.hops F.Fare.model self.now) (place_of at.now) (ride leg.now.first leg.now.last) }
        ensures in_time { IsInTime result }
        ensures steps { steps.new ≡ pasted used (leg_steps (course_setup T.Timetable.hops F.Fare.model self.now) (place_of at.now) (ride leg.now.first leg.now.last)) steps.old }
    {
        let mut step = self.board(at);
        for ridden in 0..leg.last - leg.first + 1 {
            step = self.ride_on(&step, leg.first + ridden, steps, used + ridden);
        }
        step
    }

    // Goes over a leg that leads on, and writes its steps from a place of the list on. Answers the last.
    pub(crate) fn go(
        &self,
        at: &Step<F::State>,
        leg: &Leg,
        steps: &mut [Step<F::State>],
        used: usize,
    ) -> Step<F::State>
        requires follows { LegOk (course_setup T.Timetable.hops F.Fare.model self.now) (place_of at.now) (leg_meant leg.now) }
        requires in_time { IsInTime at.now }
        requires priced { IsPriced (F.Fare.model self.now.fare.now) at.now }
        requires rides { at.now.rides + 1 < 2 ^ 64 }
        requires room { used + (leg.now.last - leg.now.first + 1) ≤ length steps.old }
        ensures step { result ≡ step_after (course_setup T.Timetable.hops F.Fare.model self.now) (place_of at.now) (leg_meant leg.now) }
        ensures in_time { IsInTime result }
        ensures steps { steps.new ≡ pasted used (leg_steps (course_setup T.Timetable.hops F.Fare.model self.now) (place_of at.now) (leg_meant leg.now)) steps.old }
    {
        match leg.kind {
            LegKind::Walk => {
                let step = self.walk(at, leg.first);
                write(steps, used, step);
                step
            }
            LegKind::Ride => self.ride(at, leg, steps, used),
        }
    }
}
