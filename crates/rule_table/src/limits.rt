ghost use Rattle.std.specs.Prelude.{◌≡◌, ◌≤◌, not, ◌<◌, length, IfSome, if◌then◌else◌};
ghost use Rattle.std.specs.List.{position_from};
ghost use Rattle.rule_table.specs.Refusals.{unless_refused};
ghost use Rattle.rule_table.specs.RuleTables.{prices_within, starts_within, rule_within, rest_within, first_bad};
ghost use Rattle.rule_table.specs.Sizes.{top_rules};

use crate::refusal::Refusal;
use crate::rule::Rule;
use crate::sizes::{LEAST_TICKETS, TOP_RULES, TOP_TICKETS};
use fares::TOP_PRICE;

fn are_prices_within(prices: &[u32]) -> bool
    ensures { result ≡ prices_within prices.now }
{
    prices.iter().all(|price| *price <= TOP_PRICE)
}

fn are_starts_within(count: usize, starts: &[u8]) -> bool
    ensures { result ≡ starts_within count starts.now }
{
    starts.iter().all(|start| (*start as usize) < count)
}

// The three are a `RuleTable` once they are within limits; a second struct for before is no plainer.
fn is_rest_within(prices: &[u32], rules: &[Rule], starts: &[u8]) -> bool
    ensures { result ≡ rest_within prices.now rules.now starts.now }
{
    LEAST_TICKETS <= prices.len()
        && prices.len() <= TOP_TICKETS as usize
        && rules.len() <= TOP_RULES
        && are_prices_within(prices)
        && are_starts_within(prices.len(), starts)
}

// All but the rules themselves.
pub(crate) fn check_rest(prices: &[u32], rules: &[Rule], starts: &[u8]) -> Result<(), Refusal>
    ensures { result ≡ (if rest_within prices.now rules.now starts.now then Ok tt else Err Refusal.Rest) }
{
    if is_rest_within(prices, rules, starts) {
        Ok(())
    } else {
        Err(Refusal::Rest)
    }
}

fn is_rule_within(prices: &[u32], rule: &Rule) -> bool
    ensures { result ≡ rule_within prices.now rule.now }
{
    (rule.ticket as usize) < prices.len()
        && (rule.target as usize) < prices.len()
        && rule.ticket < rule.target
        && prices[rule.ticket as usize] <= prices[rule.target as usize]
}

fn first_bad_place(prices: &[u32], rules: &[Rule]) -> Option<usize>
    ensures first { result ≡ position_from (λ r. not (rule_within prices.now r)) 0 rules.now }
    ensures within { IfSome result (λ i. i < length rules.now) }
{
    rules.iter().position(|rule| !is_rule_within(prices, rule))
}

// The first rule outside limits is the cause.
#[tactic(auto, using(crate::proofs::LimitScans::no_bad, crate::proofs::LimitScans::bad_at))]
pub(crate) fn check_rules(prices: &[u32], rules: &[Rule]) -> Result<(), Refusal>
    requires { length rules.now ≤ top_rules }
    ensures { result ≡ unless_refused (first_bad prices.now 0 rules.now) }
{
    match first_bad_place(prices, rules) {
        None => Ok(()),
        Some(place) => Err(Refusal::BadRule { place: place as u8 }),
    }
}
