#![tactic(auto)]
// Replays case files: reads the lines of a board's day as they come, and writes the record of it.
//
// `Loaded` collects what a board was loaded with. At the first entry of the log the board is opened (`opening`): the
// timetable, the tariff and the measure of its own make. The log is then run line by line on one planner (`log`,
// `entries`), in memory that is made once (`memory`). `replay` does so for each board of a file, until the file ends or
// a line cannot be read (`Failure`). `replay_file` is the whole of a program: it also tells why a replay ended early, and answers
// the status (`telling`).
mod entries;
mod failure;
mod fault;
mod lines;
mod loaded;
mod log;
mod memory;
mod opening;
mod replaying;
mod telling;
#[cfg(test)]
mod tests;
mod writing;

pub use entries::{record_claim, record_entry};
pub use failure::Failure;
pub use fault::Fault;
pub use lines::Lines;
pub use loaded::{Base, Loaded, Timing};
pub use replaying::replay;
pub use telling::replay_file;
