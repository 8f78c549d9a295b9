#![tactic(auto)]
// Worked service days, run as tests: tables of 32 trips, full and over (`tables`); what cancellations
// and delays make of hops (`hops`); the ferry's day, asked after a log (`ferry`); a log entry by entry
// and in one run (`log`); questions after a log over other timetables, tariffs and measures (`piles`);
// two boards with timetables, tariffs and measures of different makes, compared before and after what
// happens to them (`two_makers`); memory that is lent in its parts (`parts`). The crate has nothing of its own.

#[cfg(test)]
mod asked;
#[cfg(test)]
mod ferry;
#[cfg(test)]
mod hops;
#[cfg(test)]
mod log;
#[cfg(test)]
mod parts;
#[cfg(test)]
mod piles;
#[cfg(test)]
mod tables;
#[cfg(test)]
mod two_makers;
