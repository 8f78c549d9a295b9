use std::error::Error;
use std::fmt;

// Which list was full where a scan ended early: the label store, or those aboard at a hop. (No `Option` of a
// hop: each case names a list.)
#[derive(Clone, Copy, Debug, PartialEq, Eq)]
pub enum Full {
    Store,
    Aboard(u32),
}

impl fmt::Display for Full {
    fn fmt<W: fmt::Write>(&self, f: &mut fmt::Formatter<W>) -> fmt::Result {
        match self {
            Full::Store => write!(f, "the label store is full"),
            Full::Aboard(hop) => write!(f, "those aboard are too many at hop {hop}"),
        }
    }
}

impl Error for Full {}
