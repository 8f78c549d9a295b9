// One vehicle from one stop to the next. Times are seconds of the service day.
#[derive(Clone, Copy, Debug, PartialEq, Eq)]
pub struct Hop {
    pub trip: u32,
    pub from: u32,
    pub to: u32,
    pub departure: u32,
    pub arrival: u32,
    pub metres: u32,
    pub level: u8,
    pub event: u8,
    pub runs: bool,
}
