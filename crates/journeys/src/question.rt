// From where to where, not before when, and with how many rides at most.
#[derive(Clone, Copy, Debug, PartialEq, Eq)]
pub struct Question {
    pub origin: u32,
    pub destination: u32,
    pub departure: u32,
    pub rides: u32,
}
