ghost use Rattle.cases.specs.OddTariffs.{odd_model, odd_priced, odd_laws};

use crate::printed::{BLANK_BYTE, BLANK_LEG, Printed, ride};
use fares::{FareState, Gauges, LawfulTariff, Tariff};
use ferry_cases::hop;
use journeys::{Network, Passenger, Question, Stop};
use measures::{Amount, Metres};
use planner::{Board, Lent, MOST_LEGS, Printout, ask};
use scan::{LabelStore, StoredLabel};
use sheet::SHEET_BYTES;
use std::test::*;
use timetable::{Hop, HopList};

const ODD_EVENT: u8 = 200;

const STOP: Stop = Stop { zone: 0, class: 0 };

const QUESTION: Question = Question {
    origin: 0,
    destination: 1,
    departure: 600,
    rides: 2,
};

type OddState = FareState<u8, Amount>;

const NO_FARE: OddState = FareState {
    ticket: 0,
    weight: Amount { value: 0 },
};

// A tariff that keeps its laws at the events that there are. At event 200 ticket 0 becomes 2 and each other one becomes 0: a
// covering ticket then leads to one that covers no more, and tickets get cheaper.
#[derive(Drop)]
struct Odd {}

impl Tariff for Odd {
    type Ticket = u8;

    ghost model = { λ t. odd_model };

    ghost priced = { λ t. odd_priced };

    fn start(&self, class: u8) -> u8 {
        0
    }

    fn price(&self, ticket: u8) -> u32 {
        200 + ticket.min(2) as u32 * 100
    }

    fn next(&self, ticket: u8, gauges: Gauges, event: u8) -> u8 {
        if event == ODD_EVENT {
            if ticket == 0 { 2 } else { 0 }
        } else if event == 2 {
            ticket.max(1)
        } else {
            ticket
        }
    }

    fn covers(&self, ticket: u8, other: u8) -> bool {
        ticket <= other
    }
}

impl LawfulTariff for Odd {
    ghost lawful = { λ t. odd_laws };
}

// A bus for 200, and a train that is faster and costs 300. A third trip has event 200: it does not run.
fn hops() -> [Hop; 3] {
    let third = Hop {
        runs: false,
        ..hop(2, 0, 1, 600, 601, ODD_EVENT)
    };
    [
        hop(0, 0, 1, 600, 1800, 0),
        hop(1, 0, 1, 600, 1200, 2),
        third,
    ]
}

fn ask_odd() -> Result<Printed, Fail> {
    let hops = hops();
    let timetable = HopList::over(&hops)?;
    let board = Board {
        timetable: &timetable,
        tariff: &Odd {},
        measure: &Metres {},
    };
    let network = Network {
        stops: &[STOP, STOP],
        paths: &[],
    };
    let mut labels = [StoredLabel::blank(NO_FARE); 3];
    let mut aboard = [Passenger {
        state: NO_FARE,
        label: 0,
        first: 0,
    }; 1];
    let mut sheet = [BLANK_BYTE; SHEET_BYTES];
    let mut legs = [BLANK_LEG; MOST_LEGS];
    let store = LabelStore::over(&mut labels);
    let out = Printout {
        sheet: &mut sheet,
        legs: &mut legs,
    };
    let mut lent = Lent {
        store,
        aboard: &mut aboard,
        out,
    };
    let outcome = ask(&board, &network, &QUESTION, &mut lent);
    Ok(Printed {
        outcome,
        sheet,
        legs,
    })
}

// Its laws fail at event 200, and nowhere else; no hop that runs has that event, so it is lawful and its board answers.
#[test]
fn a_tariff_may_answer_anything_at_events_that_are_none(rt: HostRuntime) -> Result<(), Fail> {
    let odd = Odd {};
    let gauges = Gauges::lowest();
    let (low, high) = (
        odd.next(0, gauges, ODD_EVENT),
        odd.next(1, gauges, ODD_EVENT),
    );
    assert!(rt; odd.covers(0, 1) && !odd.covers(low, high));
    assert!(rt; odd.price(high) < odd.price(1));
    let printed = ask_odd()?;
    assert_eq!(rt; printed.outcome?.rows, 2);
    // at 1200 for 300, at 1800 for 200
    let sheet = [2, 0x1b, 0xb0, 0x04, 0x2c, 0x01, 0x0b, 0x08, 0x07, 0xc8];
    assert!(rt; printed.shows(&sheet, &[ride(0, 1, 1), ride(1, 0, 0)]));
    Ok(())
}
