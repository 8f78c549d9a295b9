use crate::printout::Printout;
use journeys::Passenger;
use scan::LabelStore;

// The memory that a question is lent: a store for labels, places for those aboard, and where the
// answer is written to. The store has a lifetime of its own, so that one that is only borrowed can be
// taken out for a question and put back.
#[derive(Drop)]
pub struct Lent<'s, 'a, S> {
    pub store: LabelStore<'s, S>,
    pub aboard: &'a mut [Passenger<S>],
    pub out: Printout<'a>,
}
