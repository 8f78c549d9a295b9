ghost use Rattle.std.specs.Prelude.{◌≡◌};
ghost use Rattle.rule_table.specs.CoverTests.{some_below, some_rule, reaches_ticket, outrunning_at, overtaking_by, steady};
ghost use Rattle.rule_table.specs.Masks.{mask_of, MaskRows, steady_step};
ghost use Rattle.rule_table.specs.Sizes.{top_tickets, event_count};

use crate::bounded::any_below;
use crate::masks::{Masks, has_ticket, mask_of, masks_of, row};
use crate::next_tickets::{event_in, next_ticket};
use crate::rule::Rule;
use crate::sizes::EVENT_COUNT;

// Whether, at the event and the rule's own minima, the rule leads on past all that ticket n comes to.
fn outruns_at(rules: &[Rule], rule: &Rule, n: u8, event: u8) -> bool
    ensures { result ≡ outrunning_at rules.now rule.now n event }
{
    event_in(rule.events, event) && next_ticket(rules, n, rule.minima, event) < rule.target
}

fn outruns(rules: &[Rule], rule: &Rule, n: u8) -> bool
    ensures { result ≡ some_below (outrunning_at rules.now rule.now n) event_count }
{
    any_below(EVENT_COUNT, |event| outruns_at(rules, rule, n, event))
}

fn overtakes_by(rules: &[Rule], rule: &Rule, m: u8, n: u8) -> bool
    ensures { result ≡ overtaking_by rules.now m n rule.now }
{
    rule.ticket == m && outruns(rules, rule, n)
}

fn overtakes(rules: &[Rule], m: u8, n: u8) -> bool
    ensures { result ≡ some_rule (overtaking_by rules.now m n) rules.now }
{
    rules.iter().any(|rule| overtakes_by(rules, rule, m, n))
}

fn is_steady(rules: &[Rule], reach: u32, m: u8, n: u8) -> bool
    ensures { result ≡ steady_step rules.now reach m n }
{
    has_ticket(reach, n) && !overtakes(rules, m, n)
}

fn steady_mask(rules: &[Rule], reach: u32, m: u8) -> u32
    ensures { result ≡ mask_of (steady_step rules.now reach m) top_tickets }
{
    mask_of(|n| is_steady(rules, reach, m, n))
}

// What each ticket reaches and never overtakes.
#[tactic(auto, using(crate::proofs::MaskRows::steady_row))]
pub(crate) fn steady_masks(rules: &[Rule], reach: &Masks) -> Masks
    requires { MaskRows (reaches_ticket rules.now) reach.now }
    ensures { MaskRows (steady rules.now) result }
{
    masks_of(|_, m| steady_mask(rules, row(reach, m), m))
}
