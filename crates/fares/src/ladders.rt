ghost use Rattle.std.specs.Prelude.{◌≡◌, ◌≤◌, IfErr};
ghost use Rattle.fares.specs.Ladders.{ladder_opened, ladder_model};
ghost use Rattle.fares.specs.Limits.{top_first, top_step};
ghost use Rattle.fares.specs.Refusals.{meant};
ghost use Rattle.fares.specs.LadderLaws.{ladder_priced, ladder_laws};

use crate::gauges::Gauges;
use crate::refusal::Refusal;
use crate::tariff::{LawfulTariff, Tariff};

const TOP_RUNG: u8 = 15;

const TOP_FIRST: u32 = 999_999;

const TOP_STEP: u32 = 99_999;

// Sixteen tickets that rise with the zones touched: ticket i costs `first + i * step`.
#[derive(Clone, Copy, Debug, PartialEq, Eq)]
pub struct Ladder {
    first: u32,
    step: u32,
    ghost within: { (first ≤ top_first) × (step ≤ top_step) },
}

impl Ladder {
    pub fn open(first: u32, step: u32) -> Result<Ladder, Refusal>
        ensures opened { meant (λ t. (t.first, t.step)) result ≡ ladder_opened first step }
        ensures refusal { IfErr result (λ e. e ≡ Refusal.Ladder) }
    {
        if first > TOP_FIRST || step > TOP_STEP {
            return Err(Refusal::Ladder);
        }
        Ok(Ladder { first, step })
    }
}

impl Tariff for Ladder {
    type Ticket = u8;

    ghost model = { λ t. ladder_model t.first t.step };

    ghost priced = { λ t. ladder_priced t.first t.step t.within.0 t.within.1 };

    fn start(&self, class: u8) -> u8 {
        0
    }

    fn price(&self, ticket: u8) -> u32 {
        self.first + ticket.min(TOP_RUNG) as u32 * self.step
    }

    fn next(&self, ticket: u8, gauges: Gauges, event: u8) -> u8 {
        ticket.max(gauges.zones.saturating_sub(1).min(TOP_RUNG as u32) as u8)
    }

    fn covers(&self, ticket: u8, other: u8) -> bool {
        ticket <= other
    }
}

impl LawfulTariff for Ladder {
    ghost lawful = { λ t. ladder_laws t.first t.step };
}
