ghost use Rattle.std.specs.Prelude.{◌≡◌};
ghost use Rattle.rule_table.specs.Rules.{event_among, at_least, met, raised_by, ticket_after};

use crate::rule::Rule;
use crate::sizes::EVENT_COUNT;
use fares::Gauges;

pub(crate) fn event_in(events: u16, event: u8) -> bool
    ensures { result ≡ event_among events event }
{
    event < EVENT_COUNT && (events >> event) % 2 == 1
}

fn at_least(minima: Gauges, gauges: Gauges) -> bool
    ensures { result ≡ at_least minima gauges }
{
    minima.metres <= gauges.metres
        && minima.stops <= gauges.stops
        && minima.zones <= gauges.zones
        && minima.level <= gauges.level
}

fn is_met(rule: &Rule, ticket: u8, gauges: Gauges, event: u8) -> bool
    ensures { result ≡ met rule.now ticket gauges event }
{
    rule.ticket == ticket && event_in(rule.events, event) && at_least(rule.minima, gauges)
}

// What is held once the rule was looked at.
fn raised(held: u8, rule: &Rule, ticket: u8, gauges: Gauges, event: u8) -> u8
    ensures { result ≡ raised_by rule.now ticket gauges event held }
{
    if is_met(rule, ticket, gauges, event) {
        held.max(rule.target)
    } else {
        held
    }
}

// The highest target of a met rule of the ticket, else the ticket itself.
pub(crate) fn next_ticket(rules: &[Rule], ticket: u8, gauges: Gauges, event: u8) -> u8
    ensures { result ≡ ticket_after rules.now ticket gauges event }
{
    rules.iter().fold(ticket, |held, rule| {
        raised(held, rule, ticket, gauges, event)
    })
}
