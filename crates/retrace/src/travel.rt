ghost use Rattle.retrace.specs.Promise.{Retraces, Accepts, FaresAreUpdates, WeightsAreSums};

use crate::course::Course;
use crate::fault::Fault;
use crate::step::Step;
use fares::{FareState, LawfulMeasure, Measure, Tariff};
use journeys::{Leg, Network, NetworkFare};
use timetable::Timetable;

/// What legs are retraced over, and from where and when they start.
#[derive_where(Clone, Copy)]
pub struct Travel<'a, 'b, T, F, M> {
    pub timetable: &'a T,
    pub tariff: &'a F,
    pub measure: &'a M,
    pub network: Network<'b>,
    pub origin: u32,
    pub departure: u32,
}

impl<'a, 'b, T: Timetable, F: Tariff, M: LawfulMeasure> Travel<'a, 'b, T, F, M> {
    /// Whether legs are a journey, and how many steps it has. They are written in front of the list, one after each walk and
    /// after each hop ridden; the rest of the list stays. At a fault the steps of the legs before that one are written.
    pub fn retrace(
        &self,
        legs: &[Leg],
        steps: &mut [Step<FareState<F::Ticket, M::Weight>>],
    ) -> Result<usize, Fault>
        ensures retraces { Retraces T.Timetable.hops F.Tariff.model M.Measure.model self.now legs.now steps.old result steps.new }
        ensures accepts { Accepts T.Timetable.hops F.Tariff.model M.Measure.model self.now legs.now steps.old result }
        ensures fares { FaresAreUpdates T.Timetable.hops F.Tariff.model M.Measure.model self.now legs.now result steps.new }
        ensures weights { WeightsAreSums T.Timetable.hops F.Tariff.model M.Measure.model self.now legs.now result steps.new }
    {
        let fare = NetworkFare {
            tariff: self.tariff,
            measure: self.measure,
            stops: self.network.stops,
        };
        let course = Course {
            timetable: self.timetable,
            fare: &fare,
            paths: self.network.paths,
            origin: self.origin,
            departure: self.departure,
        };
        course.follow(legs, steps)
    }
}
