use std::error::Error;
use std::fmt;

// Why a table does not open.
#[derive(Clone, Copy, Debug, PartialEq, Eq)]
pub enum Refusal {
    // The number of tickets or of rules, a price, or a start ticket.
    Rest,
    // The first rule that does not lead to a higher ticket of the table that costs no less.
    BadRule { place: u8 },
}

impl fmt::Display for Refusal {
    fn fmt<W: fmt::Write>(&self, f: &mut fmt::Formatter<W>) -> fmt::Result {
        match self {
            Refusal::Rest => write!(
                f,
                "the table's size, a price or a start ticket is outside the limits"
            ),
            Refusal::BadRule { place } => write!(
                f,
                "rule {place} does not lead to a higher ticket that costs no less"
            ),
        }
    }
}

impl Error for Refusal {}
