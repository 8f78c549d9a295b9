#![tactic(auto)]
// Questions answered.
//
// `ask` puts a `Question` to a `Board`, which has a timetable, a tariff and a measure. It tests the
// limits (`limits`), scans, selects the best offers (`selection`), and writes the sheet and the legs
// (`handout`, `tracing`) to the `Printout`. It answers how much it wrote (`Answer`), or why not
// (`Refusal`).
// `compare` puts two questions to two boards, each an `Inquiry`, and answers whether they print the
// same sheet, or which of the two has `Refused`.
// `specs/Outcome` says what is answered and what each list holds then, for every input;
// `specs/Asking` has all that is promised of a question: when it is accepted (`specs/Acceptance`), for
// which cause it is refused (`specs/Causes`), what the sheet and the legs of an answer show in terms of
// journeys (`specs/Promise`), and where the labels that it leaves stand. `specs/Comparing` says when two
// sheets are the same.
mod answer;
mod asking;
mod board;
mod handout;
mod inquiry;
mod lent;
mod limits;
mod printout;
mod refusal;
mod refusal_numbers;
mod refused;
mod selection;
mod tracing;
mod two_boards;

pub use answer::Answer;
pub use board::{Board, ask, ask_in_parts};
pub use inquiry::{Inquire, Inquiry};
pub use lent::Lent;
pub use limits::MOST_LEGS;
pub use printout::Printout;
pub use refusal::{Field, NetworkList, OutputList, Refusal};
pub use refused::Refused;
pub use two_boards::{compare, compare_in_parts};
