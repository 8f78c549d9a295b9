ghost use Rattle.std.specs.Prelude.{◌≡◌, true, false, length, is_some};
ghost use Rattle.rule_table.specs.CoverTests.{covers_ticket};
ghost use Rattle.rule_table.specs.Masks.{MaskRows};
ghost use Rattle.rule_table.specs.RuleTables.{table_refusal};
ghost use Rattle.rule_table.specs.Spans.{spanned};
ghost use Rattle.rule_table.specs.Thresholds.{Thresholds};
ghost use Rattle.short_list.specs.Items.{items};

use crate::masks::Masks;
use crate::rule::Rule;
use crate::sizes::{CLASS_COUNT, TICKET_PLACES, TOP_RULES};
use crate::span::Span;
use fares::Gauges;
use short_list::ShortList;

// Tickets with their prices, the rules from ticket to ticket, and a start ticket for each stop class.
// What each ticket covers is decided once, when the table opens: `covered` is no column beside `prices`, but made from all
// rules at once, for 32 tickets, however many have prices. So is where the rules of each ticket lie, `spans`, and what a gauge must
// reach before any of them is met, `thresholds`: most of the rules need not be looked at for the next ticket, and often none.
#[derive(Clone, Copy)]
pub struct RuleTable {
    pub(crate) prices: ShortList<u32, TICKET_PLACES>,
    pub(crate) rules: ShortList<Rule, TOP_RULES>,
    pub(crate) starts: [u8; CLASS_COUNT],
    pub(crate) covered: Masks,
    pub(crate) spans: [Span; TICKET_PLACES],
    pub(crate) thresholds: [Gauges; TICKET_PLACES],
    ghost opened: { is_some (table_refusal (items prices) (items rules) starts) ≡ false },
    ghost decided: { MaskRows (covers_ticket (length (items prices)) (items rules)) covered },
    ghost known: { spanned spans 0 (items rules) ≡ true },
    ghost heeding: { Thresholds thresholds (items rules) },
}
