#![tactic(auto)]
// What a journey's fare is made of.
//
// A measure (`Measure`) adds up what is ridden, hop by hop, and shows it on four gauges (`Gauges`). A tariff (`Tariff`)
// has tickets with prices; at each event it takes the next ticket, looking at the gauges. A fare state (`FareState`)
// is a ticket and a weight: `start` makes it at the start stop, `update` carries it over a hop, `change` over a change
// of vehicle, and `covers` says that one is never worse than another. `update_keeps_covering` states the theorem that
// all of this is for: where measure and tariff keep their laws (`LawfulMeasure`, `LawfulTariff`), a state that covers
// another still does so after the same update of both.
// Two tariffs stand here: the `Ladder`, and the `Surcharge` over any other tariff. Neither opens outside its limits
// (`Refusal`).
mod covering;
mod fare_state;
mod gauges;
mod ladders;
mod measure;
mod readings;
mod refusal;
mod surcharges;
mod tariff;
mod tickets;
mod updates;

pub use covering::{covers, update_keeps_covering};
pub use fare_state::FareState;
pub use gauges::Gauges;
pub use ladders::Ladder;
pub use measure::{LawfulMeasure, Measure};
pub use refusal::Refusal;
pub use surcharges::Surcharge;
pub use tariff::{LawfulTariff, TOP_PRICE, Tariff};
pub use tickets::Marked;
pub use updates::{change, start, update};
