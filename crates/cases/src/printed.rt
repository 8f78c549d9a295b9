use journeys::{Leg, LegKind};
use planner::{Answer, MOST_LEGS, Refusal};
use sheet::SHEET_BYTES;

pub(crate) const BLANK_BYTE: u8 = 0xee;

// No answer has such a row.
pub(crate) const BLANK_LEG: Leg = Leg {
    row: 0xee,
    kind: LegKind::Walk,
    first: 0,
    last: 0,
};

pub(crate) fn ride(row: u8, first: usize, last: usize) -> Leg {
    Leg {
        row,
        kind: LegKind::Ride,
        first,
        last,
    }
}

pub(crate) fn walk(row: u8, path: usize) -> Leg {
    Leg {
        row,
        kind: LegKind::Walk,
        first: path,
        last: path,
    }
}

// What came of a question, with what it was printed on: blank where nothing is written.
#[derive(Drop)]
pub(crate) struct Printed {
    pub(crate) outcome: Result<Answer, Refusal>,
    pub(crate) sheet: [u8; SHEET_BYTES],
    pub(crate) legs: [Leg; MOST_LEGS],
}

impl Printed {
    // Whether these bytes and legs stand in front, and all else is blank.
    pub(crate) fn shows(&self, sheet: &[u8], legs: &[Leg]) -> bool {
        self.sheet.starts_with(sheet)
            && self
                .sheet
                .iter()
                .skip(sheet.len())
                .all(|byte| *byte == BLANK_BYTE)
            && self.legs.starts_with(legs)
            && self
                .legs
                .iter()
                .skip(legs.len())
                .all(|leg| *leg == BLANK_LEG)
    }
}
