use crate::printed::{BLANK_BYTE, BLANK_LEG, Printed, ride};
use fares::{FareState, Gauges, Marked, Surcharge};
use ferry_cases::{FERRY, hop};
use journeys::{Leg, Network, Passenger, Question, Stop};
use measures::{Amount, Metres};
use planner::{Board, Lent, MOST_LEGS, Printout, Refusal, ask};
use rule_table::{Rule, RuleTable};
use scan::{LabelStore, StoredLabel};
use sheet::{MOST_ROWS, Row, SHEET_BYTES, write};
use std::test::*;
use timetable::{Hop, HopList};

const EVERY_EVENT: u16 = 0xffff;

const STOP: Stop = Stop { zone: 0, class: 0 };

const QUESTION: Question = Question {
    origin: 0,
    destination: 1,
    departure: 600,
    rides: 1,
};

type MetresState = FareState<Marked<u8>, Amount>;

const NO_FARE: MetresState = FareState {
    ticket: Marked {
        below: 0,
        marked: false,
    },
    weight: Amount { value: 0 },
};

// To the ticket for so many times 100 metres.
fn rule(hundreds: u8) -> Rule {
    Rule {
        ticket: 0,
        target: hundreds,
        events: EVERY_EVENT,
        minima: Gauges {
            metres: hundreds as u32 * 100,
            stops: 0,
            zones: 0,
            level: 0,
        },
    }
}

fn rules() -> [Rule; 31] {
    let mut rules = [rule(1); 31];
    for (k, place) in rules.iter_mut().enumerate() {
        *place = rule(k as u8 + 1);
    }
    rules
}

fn prices() -> [u32; 32] {
    let mut prices = [0; 32];
    for (k, price) in prices.iter_mut().enumerate() {
        *price = 200 + k as u32;
    }
    prices
}

// As many tickets as a table can have: 200 cents, and one more for each full 100 metres, up to 31. The
// ferry costs one cent more, so 33 different prices can be had.
fn tariff() -> Result<Surcharge<RuleTable>, Fail> {
    let table = RuleTable::open(&prices(), &rules(), [0; 4])?;
    Ok(Surcharge::open(table, FERRY, 1)?)
}

// Trip 0 is the ferry and takes the longest way. Each trip after it arrives a second later, by a way
// that is 100 metres shorter, and so costs a cent less.
fn trip(k: u8) -> Hop {
    let event = if k == 0 { FERRY } else { 0 };
    Hop {
        metres: 32u8.saturating_sub(k) as u32 * 100,
        ..hop(k as u32, 0, 1, 600, 1000 + k as u32, event)
    }
}

fn trips() -> [Hop; 33] {
    let mut trips = [trip(0); 33];
    for (k, place) in trips.iter_mut().enumerate() {
        *place = trip(k as u8);
    }
    trips
}

fn ask_over(trips: &[Hop]) -> Result<Printed, Fail> {
    let timetable = HopList::over(trips)?;
    let tariff = tariff()?;
    let board = Board {
        timetable: &timetable,
        tariff: &tariff,
        measure: &Metres {},
    };
    let network = Network {
        stops: &[STOP, STOP],
        paths: &[],
    };
    let mut labels = [StoredLabel::blank(NO_FARE); 34];
    let mut aboard = [Passenger {
        state: NO_FARE,
        label: 0,
        first: 0,
    }; 1];
    let mut sheet = [BLANK_BYTE; SHEET_BYTES];
    let mut legs = [BLANK_LEG; MOST_LEGS];
    let store = LabelStore::over(&mut labels);
    let out = Printout {
        sheet: &mut sheet,
        legs: &mut legs,
    };
    let mut lent = Lent {
        store,
        aboard: &mut aboard,
        out,
    };
    let outcome = ask(&board, &network, &QUESTION, &mut lent);
    Ok(Printed {
        outcome,
        sheet,
        legs,
    })
}

// The offers of the first 32 trips.
fn rows() -> [Row; MOST_ROWS] {
    let mut rows = [Row {
        arrival: 0,
        price: 0,
    }; MOST_ROWS];
    for (k, row) in rows.iter_mut().enumerate() {
        *row = Row {
            arrival: 1000 + k as u32,
            price: 232 - k as u32,
        };
    }
    rows
}

fn rides() -> [Leg; MOST_ROWS] {
    let mut rides = [BLANK_LEG; MOST_ROWS];
    for (k, leg) in rides.iter_mut().enumerate() {
        *leg = ride(k as u8, k, k);
    }
    rides
}

#[test]
fn as_many_offers_as_a_sheet_can_hold(rt: HostRuntime) -> Result<(), Fail> {
    let printed = ask_over(&trips()[0..32])?;
    let answer = printed.outcome?;
    assert_eq!(rt; answer.rows, MOST_ROWS);
    assert_eq!(rt; answer.legs, MOST_ROWS);
    let mut sheet = [BLANK_BYTE; SHEET_BYTES];
    assert_eq!(rt; write(&rows(), &mut sheet), Ok(answer.bytes));
    assert!(rt; printed.shows(&sheet, &rides()));
    Ok(())
}

#[test]
fn one_offer_too_many(rt: HostRuntime) -> Result<(), Fail> {
    let printed = ask_over(&trips())?;
    assert_eq!(rt; printed.outcome, Err(Refusal::ManyOffers(33)));
    assert!(rt; printed.shows(&[], &[]));
    Ok(())
}
