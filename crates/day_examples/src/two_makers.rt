use crate::asked::{BLANK_LEG, blank_passenger};
use day_planner::{Entry, Inquiry, Refused, compare};
use fares::{FareState, Ladder};
use journeys::{Network, Question, Stop};
use measures::{Amount, Metres, ZoneSet, Zones};
use planner::{Lent, MOST_LEGS, Printout, Refusal};
use rule_table::RuleTable;
use scan::{LabelStore, StoredLabel};
use sheet::SHEET_BYTES;
use std::process::Abort;
use std::test::Fail;
use timetable::{Hop, HopList, IntervalLine};

const STOPS: [Stop; 2] = [Stop { zone: 0, class: 0 }; 2];

const NETWORK: Network = Network {
    stops: &STOPS,
    paths: &[],
};

const RIDE: Hop = Hop {
    trip: 0,
    from: 0,
    to: 1,
    departure: 600,
    arrival: 900,
    metres: 0,
    level: 0,
    event: 0,
    runs: true,
};

const LATER: Hop = Hop {
    departure: 1800,
    arrival: 2100,
    ..RIDE
};

const QUESTION: Question = Question {
    origin: 0,
    destination: 1,
    departure: 600,
    rides: 1,
};

const NO_METERED: FareState<u8, Amount> = FareState {
    ticket: 0,
    weight: Amount { value: 0 },
};

const NO_ZONED: FareState<u8, ZoneSet> = FareState {
    ticket: 0,
    weight: ZoneSet { members: 0 },
};

const MOST_LABELS: usize = 2;

// What a maker's board has: a ride, a price, a log and so many labels.
#[derive(Clone, Copy)]
struct Maker<'a> {
    ride: &'a [Hop],
    price: u32,
    log: &'a [Entry],
    labels: usize,
}

const MAKER: Maker = Maker {
    ride: &[RIDE],
    price: 200,
    log: &[],
    labels: MOST_LABELS,
};

// A maker, or one that differs from it.
#[derive(Clone, Copy)]
enum Kind {
    Plain,
    Short,
    Shorter,
    Dearer,
    // with a ride when the second trip of the line runs
    Later,
    Delayed,
    WithoutFirst,
    WithoutAny,
}

fn maker_of<'a>(kind: Kind) -> Maker<'a> {
    match kind {
        Kind::Plain => MAKER,
        Kind::Short => Maker { labels: 1, ..MAKER },
        Kind::Shorter => Maker { labels: 0, ..MAKER },
        Kind::Dearer => Maker {
            price: 201,
            ..MAKER
        },
        Kind::Later => Maker {
            ride: &[LATER],
            ..MAKER
        },
        Kind::Delayed => Maker {
            log: &[Entry::Delay {
                trip: 0,
                seconds: 1200,
            }],
            ..MAKER
        },
        Kind::WithoutFirst => Maker {
            log: &[Entry::Cancel(0)],
            ..MAKER
        },
        Kind::WithoutAny => Maker {
            log: &[Entry::Cancel(0), Entry::Cancel(1), Entry::Cancel(2)],
            ..MAKER
        },
    }
}

fn inquiry<'a, T, F, M>(
    timetable: T,
    tariff: F,
    measure: M,
    log: &'a [Entry],
) -> Inquiry<'a, 'a, T, F, M> {
    Inquiry {
        timetable,
        tariff,
        measure,
        network: NETWORK,
        log,
        question: QUESTION,
    }
}

// One maker's board has a list of its ride and the table, by metres; the other's has the line of its
// ride and the ladder, by zones.
fn compare_makers(
    rt: &impl Abort,
    first: Kind,
    second: Kind,
) -> Result<Result<bool, Refused>, Fail> {
    let first = maker_of(first);
    let second = maker_of(second);
    assert!(rt; first.labels <= MOST_LABELS && second.labels <= MOST_LABELS);
    let list = HopList::over(first.ride)?;
    // One maker's tariff is a table of one ticket, the other's a ladder that starts at its price.
    let table = RuleTable::open(&[first.price], &[], [0; 4])?;
    let ladder = Ladder::open(second.price, 50)?;
    // Three trips, 1200 seconds apart.
    let line = IntervalLine::open(second.ride, 1200, 3)?;
    let mut labels = [StoredLabel::blank(NO_METERED); MOST_LABELS];
    let mut other_labels = [StoredLabel::blank(NO_ZONED); MOST_LABELS];
    let mut sheet = [0; SHEET_BYTES];
    let mut legs = [BLANK_LEG; MOST_LEGS];
    let mut other_sheet = [0; SHEET_BYTES];
    let mut other_legs = [BLANK_LEG; MOST_LEGS];
    let store = LabelStore::over(&mut labels[0..first.labels]);
    let out = Printout {
        sheet: &mut sheet,
        legs: &mut legs,
    };
    let mut lent = Lent {
        store,
        aboard: &mut [blank_passenger(NO_METERED); 1],
        out,
    };
    let other_store = LabelStore::over(&mut other_labels[0..second.labels]);
    let other_out = Printout {
        sheet: &mut other_sheet,
        legs: &mut other_legs,
    };
    let mut other = Lent {
        store: other_store,
        aboard: &mut [blank_passenger(NO_ZONED); 1],
        out: other_out,
    };
    Ok(compare(
        inquiry(list, table, Metres {}, first.log),
        &mut lent,
        inquiry(line, ladder, Zones {}, second.log),
        &mut other,
    ))
}

// Two makers, and whether they print the same sheet.
const COMPARED: [(Kind, Kind, bool); 12] = [
    (Kind::Plain, Kind::Plain, true),
    (Kind::Plain, Kind::Dearer, false),
    (Kind::Dearer, Kind::Plain, false),
    (Kind::Dearer, Kind::Dearer, true),
    (Kind::Later, Kind::Plain, false),
    (Kind::Later, Kind::WithoutFirst, true),
    (Kind::Later, Kind::Delayed, true),
    (Kind::Delayed, Kind::WithoutFirst, true),
    (Kind::Plain, Kind::WithoutFirst, false),
    (Kind::Plain, Kind::Delayed, false),
    (Kind::WithoutFirst, Kind::WithoutFirst, false),
    (Kind::WithoutFirst, Kind::WithoutAny, true),
];

// They have the stops in common and the ride. With no log they print the same sheet for the same price;
// a log makes them differ, and makes boards with different rides print the same.
#[test]
fn two_makers_print_one_sheet(rt: HostRuntime) -> Result<(), Fail> {
    for (list, line, is_same) in &COMPARED {
        assert_eq!(rt; compare_makers(&rt, *list, *line)?, Ok(*is_same));
    }
    Ok(())
}

#[test]
fn the_board_that_refuses_is_told(rt: HostRuntime) -> Result<(), Fail> {
    assert_eq!(rt;
        compare_makers(&rt, Kind::Plain, Kind::Short)?,
        Err(Refused::Second(Refusal::StoreFull(1)))
    );
    assert_eq!(rt;
        compare_makers(&rt, Kind::Short, Kind::Plain)?,
        Err(Refused::First(Refusal::StoreFull(1)))
    );
    assert_eq!(rt;
        compare_makers(&rt, Kind::Short, Kind::Shorter)?,
        Err(Refused::First(Refusal::StoreFull(1)))
    );
    Ok(())
}
