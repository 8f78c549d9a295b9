use day_planner::{Inquiry, ask_after};
use fares::{FareState, LawfulMeasure, LawfulTariff, Measure, Tariff};
use journeys::{Leg, LegKind, Passenger};
use planner::{Answer, Lent, MOST_LEGS, Printout};
use scan::{LabelStore, StoredLabel};
use sheet::SHEET_BYTES;
use std::process::Abort;
use std::test::Fail;
use timetable::Timetable;

pub(crate) const LABELS: usize = 64;

pub(crate) const SEATS: usize = 16;

pub(crate) const BLANK_LEG: Leg = Leg {
    row: 0,
    kind: LegKind::Walk,
    first: 0,
    last: 0,
};

// `cases` has one, too: a public function of a library for it, with a contract and an edit, is no plainer.
pub(crate) fn blank_passenger<S>(state: S) -> Passenger<S> {
    Passenger {
        state,
        label: 0,
        first: 0,
    }
}

// Checks the bytes that an answered question has written.
pub(crate) fn check_sheet(
    rt: &impl Abort,
    answer: Answer,
    written: &[u8; SHEET_BYTES],
    sheet: &[u8],
) {
    let bytes = answer.bytes;
    assert_eq!(rt; bytes, sheet.len());
    assert!(rt; bytes <= SHEET_BYTES);
    assert!(rt; &written[0..bytes] == sheet);
}

// Asks what has to be answered with this sheet.
pub(crate) fn check_asked<T: Timetable + Drop, F: LawfulTariff + Drop, M: LawfulMeasure + Drop>(
    rt: &impl Abort,
    inquiry: Inquiry<T, F, M>,
    labels: &mut [StoredLabel<FareState<F::Ticket, M::Weight>>],
    aboard: &mut [Passenger<FareState<F::Ticket, M::Weight>>],
    sheet: &[u8],
) -> Result<Answer, Fail> {
    let mut written = [0; SHEET_BYTES];
    let mut legs = [BLANK_LEG; MOST_LEGS];
    let store = LabelStore::over(labels);
    let out = Printout {
        sheet: &mut written,
        legs: &mut legs,
    };
    let mut lent = Lent { store, aboard, out };
    let answer = ask_after(inquiry, &mut lent)?;
    check_sheet(rt, answer, &written, sheet);
    Ok(answer)
}
