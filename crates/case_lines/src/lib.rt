#![tactic(auto)]
// The lines of a case file: what each one says, or what is wrong with it.
//
// `read_line` reads a line (`Line`): of what a board was loaded with (`Load`, `PriceTable`), of its log (`Entry`, `Claim`),
// or one that begins the next board. A line that cannot be read has a `Fault`, the first one from the left; want of
// memory is the other `ReadError`.
// `specs/Words` has words and numbers, `specs/Reading` what the words of each kind of line say.
mod fault;
mod fields;
mod keyword;
mod line;
mod numbers;
mod reading;
#[cfg(test)]
mod tests;
mod words;

pub use fault::{Fault, ReadError};
pub use line::{Claim, Extra, Line, Load, MeasureName, PriceTable, Room};
pub use reading::read_line;
