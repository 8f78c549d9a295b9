use crate::printed::{BLANK_BYTE, BLANK_LEG};
use fares::{FareState, Ladder};
use journeys::{Network, Passenger, Question, Stop};
use measures::{Amount, Metres, ZoneSet, Zones};
use planner::{Board, Inquiry, Lent, MOST_LEGS, Printout, Refusal, Refused, compare};
use rule_table::RuleTable;
use scan::{LabelStore, StoredLabel};
use sheet::SHEET_BYTES;
use std::mem::replace;
use std::test::*;
use timetable::{Hop, HopList, IntervalLine};

const STOPS: [Stop; 2] = [Stop { zone: 0, class: 0 }; 2];

const NETWORK: Network = Network {
    stops: &STOPS,
    paths: &[],
};

const RIDE: Hop = Hop {
    trip: 0,
    from: 0,
    to: 1,
    departure: 600,
    arrival: 900,
    metres: 0,
    level: 0,
    event: 0,
    runs: true,
};

const QUESTION: Question = Question {
    origin: 0,
    destination: 1,
    departure: 600,
    rides: 1,
};

type Metered = FareState<u8, Amount>;

type Zoned = FareState<u8, ZoneSet>;

const NO_METERED: Metered = FareState {
    ticket: 0,
    weight: Amount { value: 0 },
};

const NO_ZONED: Zoned = FareState {
    ticket: 0,
    weight: ZoneSet { members: 0 },
};

// `day_examples` has one, too: a public function of a library for it, with a contract and an edit, is no plainer.
fn blank_passenger<S>(state: S) -> Passenger<S> {
    Passenger {
        state,
        label: 0,
        first: 0,
    }
}

// One maker's board has a list of one hop and a table of one ticket for 200, by metres. The other's has
// a line with three trips and a ladder that starts at this price, by zones, and so many labels.
fn compare_makers(price: u32, labels: usize) -> Result<Result<bool, Refused>, Fail> {
    let ride = [RIDE];
    let list = HopList::over(&ride)?;
    let table = RuleTable::open(&[200], &[], [0; 4])?;
    let line = IntervalLine::open(&ride, 1200, 3)?;
    let ladder = Ladder::open(price, 50)?;
    let first = Inquiry {
        board: Board {
            timetable: &list,
            tariff: &table,
            measure: &Metres {},
        },
        network: NETWORK,
        question: QUESTION,
    };
    let second = Inquiry {
        board: Board {
            timetable: &line,
            tariff: &ladder,
            measure: &Zones {},
        },
        network: NETWORK,
        question: QUESTION,
    };
    let mut store = [StoredLabel::blank(NO_METERED); 2];
    let mut other_store = [StoredLabel::blank(NO_ZONED); 2];
    let other_store = other_store
        .get_mut(..labels)
        .ok_or_else(|| Fail::new("more places than there are"))?;
    let mut sheet = [BLANK_BYTE; SHEET_BYTES];
    let mut legs = [BLANK_LEG; MOST_LEGS];
    let mut other_sheet = [0; SHEET_BYTES];
    let mut other_legs = [BLANK_LEG; MOST_LEGS];
    let store = LabelStore::over(&mut store);
    let out = Printout {
        sheet: &mut sheet,
        legs: &mut legs,
    };
    let mut lent = Lent {
        store,
        aboard: &mut [blank_passenger(NO_METERED); 1],
        out,
    };
    let other_store = LabelStore::over(other_store);
    let other_out = Printout {
        sheet: &mut other_sheet,
        legs: &mut other_legs,
    };
    let mut other = Lent {
        store: other_store,
        aboard: &mut [blank_passenger(NO_ZONED); 1],
        out: other_out,
    };
    Ok(compare(first, &mut lent, second, &mut other))
}

#[test]
fn two_makers_print_one_sheet(rt: HostRuntime) -> Result<(), Fail> {
    assert_eq!(rt; compare_makers(200, 2)?, Ok(true));
    assert_eq!(rt; compare_makers(201, 2)?, Ok(false));
    assert_eq!(rt;
        compare_makers(200, 1)?,
        Err(Refused::Second(Refusal::StoreFull(1)))
    );
    Ok(())
}

// Puts a question twice with a store that is only borrowed: it is taken out, and put back.
fn compare_alike(store: &mut LabelStore<Zoned>) -> Result<Result<bool, Refused>, Fail> {
    let line = IntervalLine::open(&[RIDE], 1200, 3)?;
    let ladder = Ladder::open(200, 50)?;
    let inquiry = Inquiry {
        board: Board {
            timetable: &line,
            tariff: &ladder,
            measure: &Zones {},
        },
        network: NETWORK,
        question: QUESTION,
    };
    let mut sheet = [BLANK_BYTE; SHEET_BYTES];
    let mut legs = [BLANK_LEG; MOST_LEGS];
    let taken = replace(store, LabelStore::over(&mut []));
    let out = Printout {
        sheet: &mut sheet,
        legs: &mut legs,
    };
    let mut lent = Lent {
        store: taken,
        aboard: &mut [blank_passenger(NO_ZONED); 1],
        out,
    };
    let mut other_places = [StoredLabel::blank(NO_ZONED); 2];
    let mut other_sheet = [0; SHEET_BYTES];
    let mut other_legs = [BLANK_LEG; MOST_LEGS];
    let other_store = LabelStore::over(&mut other_places);
    let other_out = Printout {
        sheet: &mut other_sheet,
        legs: &mut other_legs,
    };
    let mut other = Lent {
        store: other_store,
        aboard: &mut [blank_passenger(NO_ZONED); 1],
        out: other_out,
    };
    let same = compare(inquiry, &mut lent, inquiry, &mut other);
    *store = lent.store;
    Ok(same)
}

#[test]
fn a_question_is_put_twice(rt: HostRuntime) -> Result<(), Fail> {
    let mut places = [StoredLabel::blank(NO_ZONED); 2];
    let mut store = LabelStore::over(&mut places);
    assert_eq!(rt; compare_alike(&mut store)?, Ok(true));
    assert_eq!(rt; store.used(), 2);
    assert_eq!(rt; compare_alike(&mut store)?, Ok(true));
    Ok(())
}
