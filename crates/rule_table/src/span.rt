ghost use Rattle.std.specs.Prelude.{◌≡◌, ◌<◌, true};
ghost use Rattle.rule_table.specs.Spans.{spot as spot_of, spots, spanned};

use crate::rule::Rule;
use crate::sizes::TICKET_PLACES;

// Where the rules of a ticket lie: none before `begin`, and none from `end` on. An end of 0 is that of no rule.
#[derive(Clone, Copy)]
pub(crate) struct Span {
    pub(crate) begin: usize,
    pub(crate) end: usize,
}

// Whose span a ticket's rules are in: its own, if it is one of the tickets that a table may have.
pub(crate) fn spot(ticket: u8) -> usize
    ensures is { result ≡ spot_of ticket }
    ensures within { result < spots }
{
    ticket as usize % TICKET_PLACES
}

// Where the rules of each ticket lie.
pub(crate) fn spans_of(rules: &[Rule]) -> [Span; TICKET_PLACES]
    ensures { spanned result 0 rules.now ≡ true }
{
    let mut spans = [Span { begin: 0, end: 0 }; TICKET_PLACES];
    for (place, rule) in rules.iter().enumerate() {
        let spot = spot(rule.ticket);
        let span = spans[spot];
        spans[spot] = Span {
            begin: if span.end == 0 { place } else { span.begin },
            end: place + 1,
        };
    }
    spans
}
