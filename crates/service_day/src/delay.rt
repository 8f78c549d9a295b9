// A delay of a trip, in seconds.
#[derive(Clone, Copy, Debug, PartialEq, Eq)]
pub struct Delay {
    pub trip: u32,
    pub seconds: u32,
}
