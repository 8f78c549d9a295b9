#![tactic(auto)]
// Five measures of a journey.
//
// `Metres` and `Stops` add up what is ridden, both as a `Count`, `Zones` collects the zones touched, `Level` keeps the
// highest level, and `Pair` joins any two measures. Each shows its weight on the gauge of its own: 0, 1, 2 and 3; a pair
// shows the greater of its two parts on each gauge. Their weights are an `Amount`, a `ZoneSet`, a `Height` and, for a
// pair, `Both`. Every one keeps the laws of a measure: the impls of `LawfulMeasure` are the proofs. Each weight has its
// range in its type, since the laws hold of the numbers within it and of no others. `zones_are_sets` says that the bits
// of a `ZoneSet` are a set.
mod counts;
mod level;
mod pairs;
mod shown;
mod weights;
mod zones;

pub use counts::{Count, Metres, Stops};
pub use level::Level;
pub use pairs::Pair;
pub use weights::{Amount, Both, Height, ZoneSet};
pub use zones::{Zones, zones_are_sets};
