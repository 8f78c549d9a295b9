#![tactic(auto)]
// A tariff that is written down as a table: tickets with their prices, and rules that lead from ticket to ticket.
//
// `RuleTable::open` takes at most 32 prices, at most 128 rules and a start ticket for each of four stop classes, and
// refuses what is outside limits (`Refusal`). A `Rule` is met at an event of its set once each gauge has reached its
// minimum; the next ticket is the highest that a met rule of the ticket names (`next_tickets`). Only the rules between its
// first and its last are looked at (`span`), and none before a gauge has reached its `threshold`.
// Which ticket covers which is decided once, when the table opens, as a mask for each ticket (`masks`), by tests of all
// tickets and events (`bounded`): what it reaches (`reach`), what it reaches and never overtakes (`overtaking`), whether
// it is free (`free_tickets`) or fixed (`fixed_tickets`), and so what it covers (`cover`). An opened table is a lawful
// tariff, and `next_named` and `is_covering` say in the words of the rules what its next tickets and its covering are.
mod bounded;
mod cover;
mod fixed_tickets;
mod free_tickets;
mod limits;
mod masks;
mod next_tickets;
mod opening;
mod overtaking;
mod reach;
mod refusal;
mod rule;
mod sizes;
mod span;
mod table;
mod tariff;
mod threshold;

pub use refusal::Refusal;
pub use rule::Rule;
pub use table::RuleTable;
