use crate::entry::Entry;
use journeys::{Network, Question};

// A question after a log, with the timetable, the tariff, the measure and the network that it is about.
#[derive(Drop)]
pub struct Inquiry<'a, 'b, T, F, M> {
    pub timetable: T,
    pub tariff: F,
    pub measure: M,
    pub network: Network<'a>,
    pub log: &'b [Entry],
    pub question: Question,
}
