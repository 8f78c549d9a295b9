#![tactic(auto)]
// Worked examples of timetables and sheets, run as tests. The crate has nothing of its own.

#[cfg(test)]
mod sheets;
#[cfg(test)]
mod timetables;
