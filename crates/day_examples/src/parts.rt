use crate::asked::{BLANK_LEG, LABELS, SEATS, blank_passenger};
use crate::ferry::ONE_FERRY;
use day_planner::{Entry, Inquiry, Planner, compare_in_parts};
use ferry_cases::{FerryState, QUESTION, hops, network, no_fare, tariff};
use journeys::{Passenger, Question};
use measures::Zones;
use planner::{Answer, Board, MOST_LEGS, Printout, Refused};
use scan::{LabelStore, StoredLabel};
use sheet::SHEET_BYTES;
use std::test::Fail;
use timetable::HopList;

// The first ferry comes too late for the second.
const LATE: Entry = Entry::Delay {
    trip: 0,
    seconds: 301,
};

// A planner's day, in memory of which each part is lent by a reference of its own.
fn ask_late(
    store: &mut LabelStore<FerryState>,
    aboard: &mut [Passenger<FerryState>],
    out: &mut Printout,
) -> Result<Answer, Fail> {
    let hops = hops();
    let mut planner = Planner::new(HopList::over(&hops)?, tariff()?, Zones {});
    planner.run_in_parts(&[Entry::Cancel(1)], &network(), store, aboard, out);
    planner.enter_in_parts(LATE, &network(), store, aboard, out)?;
    planner.enter_in_parts(Entry::Reinstate(1), &network(), store, aboard, out)?;
    Ok(planner.ask_in_parts(&network(), &QUESTION, store, aboard, out)?)
}

// Two boards that are alike, but for the log of the second.
fn compare_days(
    store: &mut LabelStore<FerryState>,
    aboard: &mut [Passenger<FerryState>],
    out: &mut Printout,
    log: &[Entry],
) -> Result<Result<bool, Refused>, Fail> {
    let hops = hops();
    let first = Inquiry {
        timetable: HopList::over(&hops)?,
        tariff: tariff()?,
        measure: Zones {},
        network: network(),
        log: &[],
        question: QUESTION,
    };
    let second = Inquiry {
        timetable: HopList::over(&hops)?,
        tariff: tariff()?,
        measure: Zones {},
        network: network(),
        log,
        question: QUESTION,
    };
    let mut labels = [StoredLabel::blank(no_fare()); LABELS];
    let mut seats = [blank_passenger(no_fare()); SEATS];
    let mut sheet = [0; SHEET_BYTES];
    let mut legs = [BLANK_LEG; MOST_LEGS];
    let mut other_store = LabelStore::over(&mut labels);
    let mut other_out = Printout {
        sheet: &mut sheet,
        legs: &mut legs,
    };
    Ok(compare_in_parts(
        first,
        store,
        aboard,
        out,
        second,
        &mut other_store,
        &mut seats,
        &mut other_out,
    ))
}

// One board twice, the second time with one ride at most.
fn compare_rides(
    store: &mut LabelStore<FerryState>,
    aboard: &mut [Passenger<FerryState>],
    out: &mut Printout,
) -> Result<Result<bool, Refused>, Fail> {
    let hops = hops();
    let timetable = HopList::over(&hops)?;
    let tariff = tariff()?;
    let board = Board {
        timetable: &timetable,
        tariff: &tariff,
        measure: &Zones {},
    };
    let first = planner::Inquiry {
        board,
        network: network(),
        question: QUESTION,
    };
    let second = planner::Inquiry {
        question: Question {
            rides: 1,
            ..QUESTION
        },
        ..first
    };
    let mut labels = [StoredLabel::blank(no_fare()); LABELS];
    let mut seats = [blank_passenger(no_fare()); SEATS];
    let mut sheet = [0; SHEET_BYTES];
    let mut legs = [BLANK_LEG; MOST_LEGS];
    let mut other_store = LabelStore::over(&mut labels);
    let mut other_out = Printout {
        sheet: &mut sheet,
        legs: &mut legs,
    };
    Ok(planner::compare_in_parts(
        &first,
        store,
        aboard,
        out,
        &second,
        &mut other_store,
        &mut seats,
        &mut other_out,
    ))
}

// What was lent in its parts holds the answer afterwards.
#[test]
fn memory_lent_in_parts(rt: HostRuntime) -> Result<(), Fail> {
    let mut labels = [StoredLabel::blank(no_fare()); LABELS];
    let mut aboard = [blank_passenger(no_fare()); SEATS];
    let mut sheet = [0; SHEET_BYTES];
    let mut legs = [BLANK_LEG; MOST_LEGS];
    let mut store = LabelStore::over(&mut labels);
    let mut out = Printout {
        sheet: &mut sheet,
        legs: &mut legs,
    };
    let answer = ask_late(&mut store, &mut aboard, &mut out)?;
    assert_eq!(rt; answer.labels, store.used());
    assert_eq!(rt; answer.bytes, ONE_FERRY.len());
    assert!(rt; out.sheet.starts_with(&ONE_FERRY));
    let same = compare_days(&mut store, &mut aboard, &mut out, &[])?;
    assert_eq!(rt; same, Ok(true));
    let late = compare_days(&mut store, &mut aboard, &mut out, &[LATE])?;
    assert_eq!(rt; late, Ok(false));
    let rides = compare_rides(&mut store, &mut aboard, &mut out)?;
    assert_eq!(rt; rides, Ok(false));
    Ok(())
}
