ghost use Rattle.std.specs.Prelude.{◌≡◌};
ghost use Rattle.planner.specs.Refusals.{cause};

use crate::refusal::Refusal;

impl Refusal {
    // Its number on the refusal board.
    pub fn number(self) -> u8
        ensures { result ≡ (cause self).number }
    {
        match self {
            Refusal::Question(_) => 9,
            Refusal::Network { list: _, place: _ } => 10,
            Refusal::ShortOutput(_) => 11,
            Refusal::StoreFull(_) => 12,
            Refusal::AboardFull(_) => 13,
            Refusal::ManyOffers(_) => 14,
        }
    }
}
