#![tactic(auto)]
// The record of a board: the lines that are written of a case, of a board that was not opened, of
// each reply to an entry of its log, and of a sheet that was claimed.
//
// Each `write_` that is public appends a whole record to the bytes written so far, or nothing where memory runs out: a
// record is made aside, and appended once it is whole. `specs/Records` says which bytes it is.

mod answering;
mod appending;
mod cases;
mod claims;
mod front;
mod legs;
mod opening;
mod opening_refusal;
mod refusing;
mod replying;
mod sheets;
#[cfg(test)]
mod tests;
mod unanswered;

pub use cases::write_case;
pub use claims::write_claim;
pub use opening::write_opening;
pub use opening_refusal::OpeningRefusal;
pub use replying::write_reply;
