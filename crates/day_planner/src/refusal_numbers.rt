ghost use Rattle.std.specs.Prelude.{◌≡◌};
ghost use Rattle.day_planner.specs.Refusals.{cause};

use crate::refusal::Refusal;

impl Refusal {
    // Its number on the refusal board.
    pub fn number(self) -> u8
        ensures { result ≡ (cause self).number }
    {
        match self {
            Refusal::Trip(refusal) => refusal.number(),
            Refusal::Question(refusal) => refusal.number(),
        }
    }
}
