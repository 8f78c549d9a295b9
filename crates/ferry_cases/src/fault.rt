ghost use Rattle.std.specs.Prelude.{◌≡◌};
ghost use Rattle.ferry_cases.specs.declared.fault.Fault.TheVariants.{Table, Surcharge};

use std::error::Error;
use std::fmt;

// Why the ferry's tariff would not open.
#[derive(Clone, Copy, Debug, PartialEq, Eq)]
pub enum Fault {
    Table(rule_table::Refusal),
    Surcharge(fares::Refusal),
}

impl fmt::Display for Fault {
    fn fmt<W: fmt::Write>(&self, f: &mut fmt::Formatter<W>) -> fmt::Result {
        match self {
            Fault::Table(refusal) => write!(f, "{refusal}"),
            Fault::Surcharge(refusal) => write!(f, "{refusal}"),
        }
    }
}

impl Error for Fault {}

impl From<rule_table::Refusal> for Fault {
    ghost from_gives = { λ refusal r. r ≡ Table refusal };

    fn from(refusal: rule_table::Refusal) -> Fault {
        Self::Table(refusal)
    }
}

impl From<fares::Refusal> for Fault {
    ghost from_gives = { λ refusal r. r ≡ Surcharge refusal };

    fn from(refusal: fares::Refusal) -> Fault {
        Self::Surcharge(refusal)
    }
}
