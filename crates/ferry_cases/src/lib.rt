#![tactic(auto)]
// Worked cases of one small network, computed.
//
// Two ferries cross from harbour to harbour, and beside each runs a cheaper trip, which takes longer or leads inland.
// `ferry_cases` says what questions about this network answer and write: with room to spare, with just enough and with
// too little, and after a trip was cancelled or delayed. It also says of some bytes that they are no sheet.
// `board` has the network as code, for programs and tests: `hops`, `network`, `tariff`, `no_fare` and `QUESTION`;
// `ferry_constants` says that its constants are those of the cases.
// `specs/FerryBoard` is the network, `specs/FerryCases` the cases, in terms of the planner's own definitions.
mod board;
mod cases;
mod fault;
mod running;
#[cfg(test)]
mod tests;
mod worked;

pub use board::{
    FERRY, FerryState, QUESTION, STOPS, ferry_constants, hop, hops, network, no_fare, tariff,
};
pub use cases::ferry_cases;
pub use fault::Fault;
pub use running::{read_case, run_case};
pub use worked::{AskingCase, Printed, ReadingCase};
