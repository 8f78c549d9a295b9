use crate::{
    AllMeasures, LadderInquiry, LadderState, TableInquiry, TableState, ask_by_ladder, ask_by_table,
    compare_ladder_with_table, compare_ladders, compare_table_with_ladder, compare_tables,
};
use day_planner::{Entry, Inquiry};
use fares::{FareState, Ladder, Marked, Surcharge};
use journeys::{Leg, LegKind, Network, Passenger, Question, Stop};
use measures::{Amount, Both, Height, Level, Metres, Pair, Stops, ZoneSet, Zones};
use planner::{Answer, Lent, MOST_LEGS, Printout};
use rule_table::RuleTable;
use scan::{LabelStore, StoredLabel};
use sheet::SHEET_BYTES;
use std::process::Abort;
use std::test::Fail;
use timetable::{Hop, HopList, IntervalLine, MakerTimetable};

const STOPS: [Stop; 2] = [Stop { zone: 0, class: 0 }; 2];

const RIDE: Hop = Hop {
    trip: 0,
    from: 0,
    to: 1,
    departure: 600,
    arrival: 900,
    metres: 0,
    level: 0,
    event: 0,
    runs: true,
};

// The ride, three times, 1,200 seconds apart.
const WRITTEN_OUT: [Hop; 3] = [
    RIDE,
    Hop {
        trip: 1,
        departure: 1800,
        arrival: 2100,
        ..RIDE
    },
    Hop {
        trip: 2,
        departure: 3000,
        arrival: 3300,
        ..RIDE
    },
];

const QUESTION: Question = Question {
    origin: 0,
    destination: 1,
    departure: 600,
    rides: 1,
};

// The first trip does not run, and the second is 300 seconds late. A question between them leaves something else in the memory.
const LOG: [Entry; 3] = [
    Entry::Cancel(0),
    Entry::Ask(QUESTION),
    Entry::Delay {
        trip: 1,
        seconds: 300,
    },
];

// At 2400 for 200.
const SHEET: [u8; 5] = [0x01, 0x0b, 0x60, 0x09, 0xc8];

const ANSWER: Answer = Answer {
    rows: 1,
    labels: 2,
    bytes: 5,
    legs: 1,
};

const SECOND_TRIP: Leg = Leg {
    row: 0,
    kind: LegKind::Ride,
    first: 1,
    last: 1,
};

const BLANK_LEG: Leg = Leg {
    row: 7,
    kind: LegKind::Walk,
    first: 0,
    last: 0,
};

const NO_TABLE_FARE: TableState = FareState {
    ticket: Marked {
        below: 0,
        marked: false,
    },
    weight: Both {
        first: Both {
            first: Amount { value: 0 },
            second: Amount { value: 0 },
        },
        second: Both {
            first: ZoneSet { members: 0 },
            second: Height { value: 0 },
        },
    },
};

const NO_LADDER_FARE: LadderState = FareState {
    ticket: 0,
    weight: ZoneSet { members: 0 },
};

const MEASURES: AllMeasures = Pair {
    first: Pair {
        first: Metres {},
        second: Stops {},
    },
    second: Pair {
        first: Zones {},
        second: Level {},
    },
};

// What one maker holds as a line.
fn line() -> Result<MakerTimetable<'static>, Fail> {
    Ok(MakerTimetable::IntervalLine(IntervalLine::open(&[RIDE], 1200, 3)?))
}

// What the other holds as a list.
fn list(hops: &[Hop]) -> Result<MakerTimetable, Fail> {
    Ok(MakerTimetable::HopList(HopList::over(hops)?))
}

fn inquiry<T, F, M>(timetable: T, tariff: F, measure: M) -> Inquiry<'static, 'static, T, F, M> {
    Inquiry {
        timetable,
        tariff,
        measure,
        network: Network {
            stops: &STOPS,
            paths: &[],
        },
        log: &LOG,
        question: QUESTION,
    }
}

fn by_table(timetable: MakerTimetable) -> Result<TableInquiry, Fail> {
    let table = RuleTable::open(&[200], &[], [0; 4])?;
    Ok(inquiry(timetable, Surcharge::open(table, 2, 150)?, MEASURES))
}

fn by_ladder(timetable: MakerTimetable) -> Result<LadderInquiry, Fail> {
    Ok(inquiry(timetable, Ladder::open(200, 50)?, Zones {}))
}

fn passenger<S>(state: S) -> Passenger<S> {
    Passenger {
        state,
        label: 0,
        first: 0,
    }
}

fn lend<'a, S: Copy>(
    labels: &'a mut [StoredLabel<S>],
    aboard: &'a mut [Passenger<S>],
    sheet: &'a mut [u8],
    legs: &'a mut [Leg],
) -> Lent<'a, 'a, S> {
    let store = LabelStore::over(labels);
    let out = Printout { sheet, legs };
    Lent { store, aboard, out }
}

// A board has printed the sheet of the second trip.
fn check_printed(rt: &impl Abort, sheet: &[u8; SHEET_BYTES], legs: &[Leg; MOST_LEGS]) {
    assert!(rt; &sheet[..5] == SHEET.as_slice());
    assert_eq!(rt; legs[0], SECOND_TRIP);
    assert_eq!(rt; legs[1], BLANK_LEG);
}

// A list and a line, by table, print the same, whatever they held before.
#[test]
fn tables_of_both_makers(rt: HostRuntime) -> Result<(), Fail> {
    let mut labels = [StoredLabel::blank(NO_TABLE_FARE); 2];
    let mut others = labels;
    let mut seat = [passenger(NO_TABLE_FARE)];
    let mut other_seat = seat;
    let mut sheet = [0; SHEET_BYTES];
    let mut other_sheet = [255; SHEET_BYTES];
    let mut legs = [BLANK_LEG; MOST_LEGS];
    let mut other_legs = legs;
    let mut lent = lend(&mut labels, &mut seat, &mut sheet, &mut legs);
    let mut other = lend(
        &mut others,
        &mut other_seat,
        &mut other_sheet,
        &mut other_legs,
    );
    let first = by_table(list(&WRITTEN_OUT)?)?;
    let second = by_table(line()?)?;
    assert_eq!(rt;
        compare_tables(first, &mut lent, second, &mut other),
        Ok(true)
    );
    let again = by_table(line()?)?;
    assert_eq!(rt; ask_by_table(again, &mut lent), Ok(ANSWER));
    check_printed(&rt, &sheet, &legs);
    check_printed(&rt, &other_sheet, &other_legs);
    assert!(rt; labels == others);
    Ok(())
}

// A line and a list, by ladder, print the same; a list of the first trip alone prints something else.
#[test]
fn ladders_of_both_makers(rt: HostRuntime) -> Result<(), Fail> {
    let mut labels = [StoredLabel::blank(NO_LADDER_FARE); 2];
    let mut others = labels;
    let mut seat = [passenger(NO_LADDER_FARE)];
    let mut other_seat = seat;
    let mut sheet = [0; SHEET_BYTES];
    let mut other_sheet = [255; SHEET_BYTES];
    let mut legs = [BLANK_LEG; MOST_LEGS];
    let mut other_legs = legs;
    let mut lent = lend(&mut labels, &mut seat, &mut sheet, &mut legs);
    let mut other = lend(
        &mut others,
        &mut other_seat,
        &mut other_sheet,
        &mut other_legs,
    );
    let first = by_ladder(line()?)?;
    let second = by_ladder(list(&[RIDE])?)?;
    assert_eq!(rt;
        compare_ladders(first, &mut lent, second, &mut other),
        Ok(false)
    );
    let whole = by_ladder(list(&WRITTEN_OUT)?)?;
    assert_eq!(rt; ask_by_ladder(whole, &mut other), Ok(ANSWER));
    check_printed(&rt, &sheet, &legs);
    check_printed(&rt, &other_sheet, &other_legs);
    assert!(rt; labels == others);
    Ok(())
}

// Where the fares come to the same, so do the sheets, whichever board is asked first.
#[test]
fn a_table_with_a_ladder(rt: HostRuntime) -> Result<(), Fail> {
    let mut labels = [StoredLabel::blank(NO_TABLE_FARE); 2];
    let mut others = [StoredLabel::blank(NO_LADDER_FARE); 2];
    let mut seat = [passenger(NO_TABLE_FARE)];
    let mut other_seat = [passenger(NO_LADDER_FARE)];
    let mut sheet = [0; SHEET_BYTES];
    let mut other_sheet = [255; SHEET_BYTES];
    let mut legs = [BLANK_LEG; MOST_LEGS];
    let mut other_legs = legs;
    let mut lent = lend(&mut labels, &mut seat, &mut sheet, &mut legs);
    let mut other = lend(
        &mut others,
        &mut other_seat,
        &mut other_sheet,
        &mut other_legs,
    );
    let table = by_table(list(&WRITTEN_OUT)?)?;
    let ladder = by_ladder(line()?)?;
    assert_eq!(rt;
        compare_table_with_ladder(table, &mut lent, ladder, &mut other),
        Ok(true)
    );
    let table = by_table(line()?)?;
    let ladder = by_ladder(list(&WRITTEN_OUT)?)?;
    assert_eq!(rt;
        compare_ladder_with_table(ladder, &mut other, table, &mut lent),
        Ok(true)
    );
    check_printed(&rt, &sheet, &legs);
    check_printed(&rt, &other_sheet, &other_legs);
    Ok(())
}
