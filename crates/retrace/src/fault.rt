use crate::misstep::Misstep;
use std::error::Error;
use std::fmt;

/// Why legs were not retraced to their end: at which of them, by its place in their list.
#[derive(Clone, Copy, Debug, PartialEq, Eq)]
pub enum Fault {
    /// It does not follow those before it.
    DoesNotFollow { leg: usize, why: Misstep },
    /// It follows, but its steps have no room in their list.
    TooFewSteps { leg: usize },
}

impl fmt::Display for Fault {
    fn fmt<W: fmt::Write>(&self, f: &mut fmt::Formatter<W>) -> fmt::Result {
        match self {
            Fault::DoesNotFollow { leg, why } => write!(f, "leg {leg} does not follow: {why}"),
            Fault::TooFewSteps { leg } => write!(f, "the steps of leg {leg} have no room"),
        }
    }
}

impl Error for Fault {}
