use fares::Gauges;

// From `ticket` to the higher `target`, at an event of the set (bit e stands for event e) once each gauge has reached
// its minimum. A rule with no event is never met, and still leads from ticket to ticket.
#[derive(Clone, Copy, Debug, PartialEq, Eq)]
pub struct Rule {
    pub ticket: u8,
    pub target: u8,
    pub events: u16,
    pub minima: Gauges,
}
