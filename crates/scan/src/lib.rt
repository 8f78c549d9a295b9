#![tactic(auto)]
// The scan: one pass over all hops for each ride that a journey may have.
//
// `LabelStore` is the label store: places that the caller lends, and how many of them are written.
// Its method `scan` runs a question over any timetable and any fares. A scan under way is a `Ride`:
// the labels written, a `Store`, and those aboard, a `Filled` list, and a method for each step, from a
// hop to all rounds. What is done over one list stands in a module of its own: `boarding` (who comes
// aboard a `Turn`), `riding` (all aboard take a hop and are offered), `walking` (footpaths), and for
// both kinds of candidates `offering` and `covering`. The labels of a `Store` and the footpaths of a
// `PathTable` are chained by the `slot` of their stop, so what is done at a stop looks at few of them.
// Every function is pinned to the definition in `specs/Scan` of the crate `journeys`.
mod boarding;
mod covering;
mod filled;
mod label_store;
mod link;
mod offering;
mod path_table;
mod ride;
mod riding;
mod slot;
mod store;
mod stored_label;
mod turn;
mod walking;

pub use label_store::LabelStore;
pub use link::Link;
pub use stored_label::StoredLabel;
