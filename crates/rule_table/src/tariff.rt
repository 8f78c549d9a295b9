ghost use Rattle.std.specs.Prelude.{◌≡◌, ℕ, ◌&&◌, Decides, nat_lt, slice_index};
ghost use Rattle.rule_table.specs.Covering.{Covers};
ghost use Rattle.rule_table.specs.Masks.{ticket_listed};
ghost use Rattle.rule_table.specs.OpenedTables.{tickets_of, rules_of, table_of, prices_of};
ghost use Rattle.fares.specs.declared.gauges.Gauges.{Gauges};
ghost use Rattle.short_list.specs.Items.{items};
ghost use Rattle.rule_table.specs.Rules.{ticket_after, IsNext};
ghost use Rattle.rule_table.specs.TableLaws.{price_within, table_laws};
ghost use Rattle.rule_table.specs.SoundTables.{sound_table};

use crate::masks::{Masks, has_ticket, row};
use crate::next_tickets::next_ticket;
use crate::rule::Rule;
use crate::span::spot;
use crate::table::RuleTable;
use crate::threshold::is_short_of;
use fares::{Gauges, LawfulTariff, Tariff};

// What the ticket costs: nothing where it is no ticket of the table.
fn price_of(prices: &[u32], ticket: u8) -> u32
    ensures { result ≡ slice_index prices.now ticket }
{
    prices.get(ticket as usize).copied().unwrap_or(0)
}

// Whether the mask of ticket k, which is one of so many, has ticket l.
fn has_pair(masks: &Masks, tickets: usize, k: u8, l: u8) -> bool
    ensures { result ≡ (nat_lt k tickets && ticket_listed (slice_index masks.now k) l) }
{
    (k as usize) < tickets && has_ticket(row(masks, k), l)
}

impl RuleTable {
    // The rules of a ticket, and what lies between them: no other leads on from it.
    fn rules_around(&self, ticket: u8) -> &[Rule]
        ensures { (g : Gauges) (e : ℕ) → ticket_after result.now ticket g e ≡ ticket_after (items self.now.rules) ticket g e }
    {
        let rules = self.rules.as_slice();
        let span = self.spans[spot(ticket)];
        // within the rules, as each span is: so nothing need be said of it
        let end = span.end.min(rules.len());
        &rules[span.begin.min(end)..end]
    }
}

impl Tariff for RuleTable {
    type Ticket = u8;

    ghost model = { λ t. table_of t };

    ghost priced = { λ t k. price_within (prices_of t) k (sound_table t).priced };

    fn start(&self, class: u8) -> u8 {
        self.starts.get(class as usize).copied().unwrap_or(0)
    }

    fn price(&self, ticket: u8) -> u32 {
        price_of(self.prices.as_slice(), ticket)
    }

    fn next(&self, ticket: u8, gauges: Gauges, event: u8) -> u8 {
        if is_short_of(self.thresholds[spot(ticket)], gauges) {
            return ticket;
        }
        next_ticket(self.rules_around(ticket), ticket, gauges, event)
    }

    #[tactic(auto, using(crate::specs::SoundTables::covers_marked))]
    fn covers(&self, ticket: u8, other: u8) -> bool {
        has_pair(&self.covered, self.prices.len(), ticket, other)
    }
}

impl LawfulTariff for RuleTable {
    ghost lawful = { λ t. table_laws (prices_of t) (rules_of t) (sound_table t) t.starts };
}

impl RuleTable {
    // The next ticket, in the words of the rules.
    #[tactic(auto, using(crate::specs::SoundTables::next_named))]
    pub fn next_named(&self, ticket: u8, gauges: Gauges, event: u8) -> u8
        ensures { IsNext (rules_of self.now) ticket gauges event result }
    {
        self.next(ticket, gauges, event)
    }

    // Whether the ticket covers the other, in the words of free and fixed tickets: the masks decide what is defined over
    // all readings.
    #[tactic(auto, using(crate::specs::SoundTables::covers_decided))]
    pub fn is_covering(&self, ticket: u8, other: u8) -> bool
        ensures { Decides result (Covers (tickets_of self.now) (rules_of self.now) ticket other) }
    {
        self.covers(ticket, other)
    }
}
