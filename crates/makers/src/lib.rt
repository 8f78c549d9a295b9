#![tactic(auto)]
// The boards of both makers, as they hang on the platforms.
//
// The makers differ in how a timetable is held, as a hop list or as an interval line (`MakerTimetable`), and not in the fares. A
// board has either of two: by table, a rule table under a surcharge with all four measures; or by ladder, a ladder with the zones.
// `ask_by_table` and `ask_by_ladder` answer a question after a log on such a board of either maker; `compare_tables`,
// `compare_ladders`, `compare_table_with_ladder` and `compare_ladder_with_table` put one to each of two. Their contracts are the
// promise for every log with nothing left open: these timetables, tariffs and measures are lawful, so the promise speaks of boards
// that there are. They also say that two boards with the same hops and fares, asked alike, answer alike: in the same room they give
// the same answer or refusal, and wherever both answer it is the same answer.
mod boards;
mod ladders;
mod mixed;
mod tables;
#[cfg(test)]
mod tests;

pub use boards::{AllMeasures, LadderInquiry, LadderState, TableInquiry, TableState};
pub use ladders::{ask_by_ladder, compare_ladders};
pub use mixed::{compare_ladder_with_table, compare_table_with_ladder};
pub use tables::{ask_by_table, compare_tables};
