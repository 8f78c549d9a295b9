#![tactic(auto)]
// Timetables: what vehicles do on a service day, as lists of hops that keep one rule.
//
// `Hop` is one vehicle from one stop to the next. The trait `Timetable` is anything that means a
// list of hops: it answers how many hops and trips there are and the hop at a place, and it brings
// the proof that its list keeps the timetable rule (`specs/Rule`).
// `HopList` stands for a slice that was handed in, once that was tested; `IntervalLine` for a
// pattern that runs again and again at an interval, without writing its list out. A `MakerTimetable`
// is either of these.
// Neither allocates, and a question alters no timetable. Calls that can fail answer a `Refusal`.

mod hop_list;
mod hops;
mod interval_hops;
mod interval_line;
mod maker_timetable;
mod refusals;
mod rule;
mod tables;

pub use hop_list::HopList;
pub use hops::Hop;
pub use interval_line::{
    IntervalLine, LONGEST_INTERVAL, MOST_PATTERN, MOST_TRIPS, SHORTEST_INTERVAL,
};
pub use maker_timetable::MakerTimetable;
pub use refusals::Refusal;
pub use rule::{DAY_END, MOST_METRES, TOP_EVENT, TOP_LEVEL};
pub use tables::{MOST_HOPS, Timetable};
