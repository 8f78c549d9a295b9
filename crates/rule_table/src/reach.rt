ghost use Rattle.std.specs.Prelude.{◌≡◌};
ghost use Rattle.rule_table.specs.CoverTests.{some_rule, reaches_ticket};
ghost use Rattle.rule_table.specs.Masks.{mask_of, MaskRows, leading_on, reach_step};
ghost use Rattle.rule_table.specs.Rules.{RulesRise};
ghost use Rattle.rule_table.specs.Sizes.{top_tickets};

use crate::masks::{Masks, has_ticket, mask_of, masks_of, row};
use crate::rule::Rule;

// Whether the rule leads from k to a ticket that is known to reach n.
fn leads_on(rule: &Rule, reach: &Masks, k: u8, n: u8) -> bool
    ensures { result ≡ leading_on reach.now k n rule.now }
{
    rule.ticket == k && has_ticket(row(reach, rule.target), n)
}

fn some_leads_on(rules: &[Rule], reach: &Masks, k: u8, n: u8) -> bool
    ensures { result ≡ some_rule (leading_on reach.now k n) rules.now }
{
    rules.iter().any(|rule| leads_on(rule, reach, k, n))
}

fn reaches_by(rules: &[Rule], reach: &Masks, k: u8, n: u8) -> bool
    ensures { result ≡ reach_step reach.now rules.now k n }
{
    k == n || some_leads_on(rules, reach, k, n)
}

fn reach_mask(rules: &[Rule], reach: &Masks, k: u8) -> u32
    ensures { result ≡ mask_of (reach_step reach.now rules.now k) top_tickets }
{
    mask_of(|n| reaches_by(rules, reach, k, n))
}

// What each ticket reaches. Rules lead up, so it is made from what the tickets above it reach.
#[tactic(auto, using(crate::proofs::MaskRows::reach_row))]
pub(crate) fn reach_masks(rules: &[Rule]) -> Masks
    requires { RulesRise top_tickets rules.now }
    ensures { MaskRows (reaches_ticket rules.now) result }
{
    masks_of(|above, k| reach_mask(rules, above, k))
}
