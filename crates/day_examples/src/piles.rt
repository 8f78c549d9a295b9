use crate::asked::{LABELS, SEATS, blank_passenger, check_asked};
use crate::ferry::ONE_FERRY;
use day_planner::{Entry, Inquiry};
use fares::{FareState, Ladder, Marked};
use ferry_cases::{QUESTION, hops, network, tariff};
use journeys::{Network, Question, Stop};
use measures::{Amount, Both, Height, Level, Metres, Pair, Stops, ZoneSet, Zones};
use scan::StoredLabel;
use std::test::Fail;
use timetable::{Hop, HopList, IntervalLine};

type EveryMeasure = Pair<Pair<Metres, Stops>, Pair<Zones, Level>>;

type EveryWeight = Both<Both<Amount, Amount>, Both<ZoneSet, Height>>;

const EVERY_MEASURE: EveryMeasure = Pair {
    first: Pair {
        first: Metres {},
        second: Stops {},
    },
    second: Pair {
        first: Zones {},
        second: Level {},
    },
};

const NO_WEIGHT: EveryWeight = Both {
    first: Both {
        first: Amount { value: 0 },
        second: Amount { value: 0 },
    },
    second: Both {
        first: ZoneSet { members: 0 },
        second: Height { value: 0 },
    },
};

const STOPS: [Stop; 3] = [
    Stop { zone: 1, class: 0 },
    Stop { zone: 2, class: 0 },
    Stop { zone: 3, class: 0 },
];

const OUT: Hop = Hop {
    trip: 0,
    from: 0,
    to: 1,
    departure: 600,
    arrival: 900,
    metres: 5_000,
    level: 3,
    event: 2,
    runs: true,
};

const ON: Hop = Hop {
    from: 1,
    to: 2,
    departure: 900,
    arrival: 1200,
    ..OUT
};

// The first trip of three is cancelled, and the second arrives at 1200 + 600 + 60 seconds. Its price is
// 100 and 50 for each zone after the first.
#[test]
fn a_line_with_a_ladder_after_a_log(rt: HostRuntime) -> Result<(), Fail> {
    let timetable = IntervalLine::open(&[OUT, ON], 600, 3)?;
    let tariff = Ladder::open(100, 50)?;
    let log = [
        Entry::Cancel(0),
        Entry::Delay {
            trip: 1,
            seconds: 60,
        },
    ];
    let inquiry = Inquiry {
        timetable,
        tariff,
        measure: EVERY_MEASURE,
        network: Network {
            stops: &STOPS,
            paths: &[],
        },
        log: &log,
        question: Question {
            origin: 0,
            destination: 2,
            departure: 600,
            rides: 1,
        },
    };
    let fare = FareState {
        ticket: 0,
        weight: NO_WEIGHT,
    };
    let mut labels = [StoredLabel::blank(fare); LABELS];
    let mut aboard = [blank_passenger(fare); SEATS];
    let sheet = [0x01, 0x0b, 0x44, 0x07, 0xc8];
    let answer = check_asked(&rt, inquiry, &mut labels, &mut aboard, &sheet)?;
    assert_eq!(rt; answer.legs, 1);
    Ok(())
}

// The ferry's fares look at zones alone, so its offers are those of a board that measures nothing else.
#[test]
fn the_ferry_measured_in_every_way_after_a_log(rt: HostRuntime) -> Result<(), Fail> {
    let hops = hops();
    let log = [Entry::Delay {
        trip: 0,
        seconds: 301,
    }];
    let inquiry = Inquiry {
        timetable: HopList::over(&hops)?,
        tariff: tariff()?,
        measure: EVERY_MEASURE,
        network: network(),
        log: &log,
        question: QUESTION,
    };
    let fare = FareState {
        ticket: Marked {
            below: 0,
            marked: false,
        },
        weight: NO_WEIGHT,
    };
    let mut labels = [StoredLabel::blank(fare); LABELS];
    let mut aboard = [blank_passenger(fare); SEATS];
    let answer = check_asked(&rt, inquiry, &mut labels, &mut aboard, &ONE_FERRY)?;
    assert_eq!(rt; answer.legs, 4);
    Ok(())
}
