// Whether a leg is walked or ridden.
#[derive(Clone, Copy, Debug, PartialEq, Eq)]
pub enum LegKind {
    Walk,
    Ride,
}

// One leg of the journey that is handed out with a row: the first and the last hop of a ride, or a
// walk's footpath twice.
#[derive(Clone, Copy, Debug, PartialEq, Eq)]
pub struct Leg {
    pub row: u8,
    pub kind: LegKind,
    pub first: usize,
    pub last: usize,
}
