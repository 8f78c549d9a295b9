use journeys::Question;

// An entry of a board's log.
#[derive(Clone, Copy, Debug, PartialEq, Eq)]
pub enum Entry {
    Cancel(u32),
    Reinstate(u32),
    Delay { trip: u32, seconds: u32 },
    Ask(Question),
}
