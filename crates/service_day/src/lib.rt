#![tactic(auto)]
// What happens to a timetable in the course of a service day.
//
// `Cancellations` and `Delays` are timetables over any timetable, which they hold by value. Each has
// a table of at most 32 trips: hops of cancelled trips are answered as not running, running hops of
// delayed trips later. What a table means is a set of trips, or a delay for each trip (`specs/Days`);
// in what order it lists them makes no difference.
// `Day` is delays over cancellations over any timetable: the timetable as it is on this day
// (`specs/DayStates`). Calls that can fail answer a `Refusal`.
mod cancellations;
mod cancelled_trips;
mod changes;
mod day;
mod delay;
mod delayed_trips;
mod delays;
mod layer;
mod refusal;
mod refusal_numbers;
mod trip_marks;
mod whole_days;

pub use cancellations::Cancellations;
pub use day::Day;
pub use delay::Delay;
pub use delays::{Delays, LONGEST_DELAY};
pub use layer::MOST_LISTED;
pub use refusal::Refusal;
