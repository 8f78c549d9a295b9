use std::error::Error;
use std::fmt;

// Why rows are not written, or a sheet is not read. `specs/Refusals` gives each case its number and values.
#[derive(Clone, Copy, Debug, PartialEq, Eq)]
pub enum Refusal {
    // fewer than 225 bytes to write into
    SheetShort,
    // fewer than 32 rows to read into
    RowsFew,
    // the first row that is none, counted from 0
    NoRow(u8),
    // too many rows, a count that is missing or too high, or bytes left over
    NoSheet,
}

impl fmt::Display for Refusal {
    fn fmt<W: fmt::Write>(&self, f: &mut fmt::Formatter<W>) -> fmt::Result {
        match self {
            Refusal::SheetShort => write!(f, "the sheet is too short to write into"),
            Refusal::RowsFew => write!(f, "there are too few rows to read into"),
            Refusal::NoRow(row) => write!(f, "row {row} is no row"),
            Refusal::NoSheet => write!(f, "this is no sheet"),
        }
    }
}

impl Error for Refusal {}
