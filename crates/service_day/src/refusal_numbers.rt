ghost use Rattle.std.specs.Prelude.{◌≡◌, [], ◌∷◌};
ghost use Rattle.service_day.specs.Refusals.{cause};

use crate::refusal::Refusal;

impl Refusal {
    // Its number on the refusal board.
    pub fn number(self) -> u8
        ensures { result ≡ (cause self).number }
    {
        match self {
            Refusal::NoSuchTrip(_) => 5,
            Refusal::TableFull(_) => 6,
            Refusal::NotCancelled(_) => 7,
            Refusal::LongDelay(_) => 8,
        }
    }

    // The trip that it returns.
    pub fn trip(self) -> u32
        ensures { result ∷ [] ≡ (cause self).values }
    {
        match self {
            Refusal::NoSuchTrip(trip) => trip,
            Refusal::TableFull(trip) => trip,
            Refusal::NotCancelled(trip) => trip,
            Refusal::LongDelay(trip) => trip,
        }
    }
}
