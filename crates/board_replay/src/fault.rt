use std::error::Error;
use std::fmt;

// What is wrong with a line where it stands, though its words can be read.
#[derive(Clone, Copy, Debug, PartialEq, Eq)]
pub enum Fault {
    // a second line where there is one at most
    Again,
    RuleBeforeTable,
    // neither a table nor a ladder, where a board is opened
    NoTariff,
    // handed in behind the first entry of the log
    Late,
}

impl fmt::Display for Fault {
    ghost use Rattle.std.specs.Prelude.{Some};
    ghost use Rattle.board_replay.specs.Told.{fault_told};

    ghost output = { λ fault. Some (fault_told fault) };

    fn fmt<W: fmt::Write>(&self, f: &mut fmt::Formatter<W>) -> fmt::Result {
        match self {
            Fault::Again => write!(f, "a second line of a kind that stands once at most"),
            Fault::RuleBeforeTable => write!(f, "a rule before a table"),
            Fault::NoTariff => write!(f, "neither a table nor a ladder"),
            Fault::Late => write!(f, "handed in behind the first entry of the log"),
        }
    }
}

impl Error for Fault {}
