ghost use Rattle.retrace.specs.Retracing.{Follows};
ghost use Rattle.retrace.specs.Travels.{course_setup};

use crate::fault::Fault;
use crate::step::Step;
use journeys::{Fare, Footpath, Leg};
use timetable::Timetable;

// What legs are retraced over, once its fares are made.
#[derive(Drop)]
pub(crate) struct Course<'a, T, F> {
    pub(crate) timetable: &'a T,
    pub(crate) fare: &'a F,
    pub(crate) paths: &'a [Footpath],
    pub(crate) origin: u32,
    pub(crate) departure: u32,
}

impl<'a, T: Timetable, F: Fare> Course<'a, T, F> {
    // Follows the legs as long as they lead on, and writes their steps.
    pub(crate) fn follow(&self, legs: &[Leg], steps: &mut [Step<F::State>]) -> Result<usize, Fault>
        ensures { Follows (course_setup T.Timetable.hops F.Fare.model self.now) legs.now steps.old result steps.new }
    {
        let mut at = self.start();
        let mut used = 0;
        for (place, leg) in legs.iter().enumerate() {
            if let Err(why) = self.check(&at, leg) {
                return Err(Fault::DoesNotFollow { leg: place, why });
            }
            let after_first = leg.last - leg.first;
            if steps.len() - used <= after_first {
                return Err(Fault::TooFewSteps { leg: place });
            }
            at = self.go(&at, leg, steps, used);
            used += after_first + 1;
        }
        Ok(used)
    }
}
