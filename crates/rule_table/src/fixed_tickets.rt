ghost use Rattle.std.specs.Prelude.{◌≡◌};
ghost use Rattle.rule_table.specs.CoverTests.{each_below, one_next};
ghost use Rattle.rule_table.specs.Masks.{constant_step};
ghost use Rattle.rule_table.specs.Sizes.{top_tickets, event_count};

use crate::bounded::all_below;
use crate::masks::has_ticket;
use crate::next_tickets::next_ticket;
use crate::rule::Rule;
use crate::sizes::{EVENT_COUNT, TOP_TICKETS};
use fares::Gauges;

// Next tickets only rise with the gauges, so the lowest and the largest readings speak for all.
fn has_one_next(rules: &[Rule], m: u8, event: u8) -> bool
    ensures { result ≡ one_next rules.now m event }
{
    next_ticket(rules, m, Gauges::lowest(), event)
        == next_ticket(rules, m, Gauges::largest(), event)
}

fn is_settled(rules: &[Rule], reach: u32, m: u8) -> bool
    ensures { result ≡ constant_step rules.now reach m }
{
    !has_ticket(reach, m) || all_below(EVENT_COUNT, |event| has_one_next(rules, m, event))
}

// Whether each of these tickets has, at each event, one next ticket whatever the gauges show.
pub(crate) fn is_constant(rules: &[Rule], reach: u32) -> bool
    ensures { result ≡ each_below (constant_step rules.now reach) top_tickets }
{
    all_below(TOP_TICKETS, |m| is_settled(rules, reach, m))
}
