use crate::asked::{LABELS, SEATS, blank_passenger, check_asked};
use day_planner::{Entry, Inquiry};
use ferry_cases::{QUESTION, hops, network, no_fare, tariff};
use measures::Zones;
use planner::Answer;
use scan::StoredLabel;
use std::process::Abort;
use std::test::Fail;
use timetable::HopList;

// By ferry at 1500 for 350, or without at 1800 for 300.
const BOTH_WAYS: [u8; 11] = [
    0x02, 0x1b, 0xdc, 0x05, 0x5e, 0x01, 0x1b, 0x08, 0x07, 0x2c, 0x01,
];

// By ferry alone.
const BY_FERRY: [u8; 6] = [0x01, 0x1b, 0xdc, 0x05, 0x5e, 0x01];

// The first ferry comes too late for the second, so that this one costs 450.
pub(crate) const ONE_FERRY: [u8; 11] = [
    0x02, 0x1b, 0xdc, 0x05, 0xc2, 0x01, 0x1b, 0x08, 0x07, 0x2c, 0x01,
];

// Asks the ferry's question after a log, on a new board.
fn check_day(rt: &impl Abort, log: &[Entry], sheet: &[u8]) -> Result<Answer, Fail> {
    let hops = hops();
    let inquiry = Inquiry {
        timetable: HopList::over(&hops)?,
        tariff: tariff()?,
        measure: Zones {},
        network: network(),
        log,
        question: QUESTION,
    };
    let mut labels = [StoredLabel::blank(no_fare()); LABELS];
    let mut aboard = [blank_passenger(no_fare()); SEATS];
    check_asked(rt, inquiry, &mut labels, &mut aboard, sheet)
}

fn delay(trip: u32, seconds: u32) -> Entry {
    Entry::Delay { trip, seconds }
}

#[test]
fn the_ferrys_day(rt: HostRuntime) -> Result<(), Fail> {
    assert_eq!(rt; check_day(&rt, &[], &BOTH_WAYS)?.labels, 6);
    assert_eq!(rt; check_day(&rt, &[Entry::Cancel(1)], &BY_FERRY)?.rows, 1);
    assert_eq!(rt; check_day(&rt, &[delay(0, 300)], &BOTH_WAYS)?.rows, 2);
    assert_eq!(rt; check_day(&rt, &[delay(0, 301)], &ONE_FERRY)?.rows, 2);
    let back = [Entry::Cancel(1), Entry::Reinstate(1)];
    assert_eq!(rt; check_day(&rt, &back, &BOTH_WAYS)?.labels, 6);
    Ok(())
}
