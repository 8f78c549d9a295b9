#![tactic(auto)]
// Rows of arrival and price, and the sheet of bytes that holds them.
//
// A board shows its best offers as rows, each later and cheaper than the one before. `write` packs
// at most 32 of them into at most 225 bytes, and `read` takes such bytes apart again. Both work on
// slices that the caller hands in, and a refusal leaves these as they were.
// `specs/Format` says what the bytes of rows are, `specs/Reading` what the rows of bytes are, and
// `specs/Promise` that each is the other read backwards.

mod reading;
mod refusals;
mod rows;
mod writing;

pub use reading::read;
pub use refusals::Refusal;
pub use rows::{LAST_ARRIVAL, MOST_ROWS, Row, SHEET_BYTES, TOP_PRICE};
pub use writing::write;
