#![tactic(auto)]
// A board's planner, the log of its day, and two boards compared.
//
// A `Planner` has a timetable as it is on this day, a tariff and a measure. It cancels, reinstates
// and delays trips, and answers questions; `enter` and `run` take these as entries of a log (`Entry`).
// `ask_after` answers a question after a log on a new planner, and `compare` does so on two boards
// and says whether they print the same sheet, or which of the two has `Refused`.
// `specs/Log` says what a log makes of a day, `specs/Promise` what is promised of a question after
// any log, `specs/Entering` what is promised of an entry and of each entry of a log, `specs/Comparing`
// when two boards print the same sheet.
mod board_planner;
mod entering;
mod entry;
mod inquiry;
mod planning;
mod refusal;
mod refusal_numbers;
mod reply;
mod two_boards;

pub use board_planner::Planner;
pub use entry::Entry;
pub use inquiry::Inquiry;
pub use planner::Refused;
pub use refusal::Refusal;
pub use reply::Reply;
pub use two_boards::{ask_after, ask_after_in_parts, compare, compare_in_parts};
