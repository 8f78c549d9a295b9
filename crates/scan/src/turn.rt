ghost use Rattle.std.specs.Prelude.{◌<◌};

use timetable::Hop;

// A hop at its place, in a round that passes it: round 0 passes none. The labels of the round lie from place `begins` on.
#[derive(Clone, Copy)]
pub(crate) struct Turn {
    pub(crate) round: u32,
    pub(crate) begins: usize,
    pub(crate) place: u32,
    pub(crate) hop: Hop,
    ghost later: { 0 < round },
}
