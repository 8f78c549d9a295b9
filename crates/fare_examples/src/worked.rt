use crate::given::{NIGHT, gauges, table};
use fares::{Ladder, Marked, Measure, Surcharge, Tariff, change, start, update};
use measures::{Metres, Zones};
use std::process::Abort;
use std::test::Fail;

const NIGHT_EXTRA: u32 = 75;

// Two hops from a stop of zone 0 with a change between them, the last by night or by day, and what is
// held and paid then.
struct Ridden {
    metres: [u32; 2],
    zones: [u8; 2],
    at_night: bool,
    ticket: u8,
    price: u32,
}

const BY_ZONES: [Ridden; 3] = [
    Ridden {
        metres: [1_000, 1_000],
        zones: [0, 0],
        at_night: false,
        ticket: 0,
        price: 200,
    },
    Ridden {
        metres: [1_000, 1_000],
        zones: [1, 0],
        at_night: false,
        ticket: 1,
        price: 300,
    },
    Ridden {
        metres: [1_000, 1_000],
        zones: [1, 2],
        at_night: false,
        ticket: 2,
        price: 450,
    },
];

const BY_METRES: [Ridden; 3] = [
    Ridden {
        metres: [1_000, 999],
        zones: [1, 2],
        at_night: false,
        ticket: 0,
        price: 200,
    },
    Ridden {
        metres: [1_000, 1_000],
        zones: [1, 2],
        at_night: false,
        ticket: 1,
        price: 300,
    },
    Ridden {
        metres: [3_000, 2_000],
        zones: [0, 0],
        at_night: true,
        ticket: 2,
        price: 525,
    },
];

const BY_LADDER: [Ridden; 2] = [
    Ridden {
        metres: [1_000, 1_000],
        zones: [1, 2],
        at_night: false,
        ticket: 2,
        price: 200,
    },
    Ridden {
        metres: [1_000, 1_000],
        zones: [1, 2],
        at_night: true,
        ticket: 2,
        price: 275,
    },
];

fn with_night<T: Drop>(below: T) -> Result<Surcharge<T>, fares::Refusal> {
    Surcharge::open(below, NIGHT, NIGHT_EXTRA)
}

fn ticket_after<F: Tariff, M: Measure>(tariff: &F, measure: &M, ridden: &Ridden) -> F::Ticket {
    let event = if ridden.at_night { NIGHT } else { 0 };
    let first = measure.hop(ridden.metres[0], 0, ridden.zones[0]);
    let last = measure.hop(ridden.metres[1], 0, ridden.zones[1]);
    let mut state = start(tariff, measure, 0, 0);
    state = update(tariff, measure, state, first, 0);
    state = change(tariff, measure, state);
    update(tariff, measure, state, last, event).ticket
}

fn check_each<F: Tariff<Ticket = Marked<u8>>, M: Measure>(
    rt: &impl Abort,
    tariff: &F,
    measure: &M,
    list: &[Ridden],
) {
    for ridden in list {
        let ticket = ticket_after(tariff, measure, ridden);
        assert_eq!(rt; ticket.below, ridden.ticket);
        assert_eq!(rt; ticket.marked, ridden.at_night);
        assert_eq!(rt; tariff.price(ticket), ridden.price);
    }
}

// The table of worked fares in `docs/fares.md`.
#[test]
fn fares_worked_by_hand(rt: HostRuntime) -> Result<(), Fail> {
    let by_zones = with_night(table(gauges(0, 2), gauges(0, 3))?)?;
    check_each(&rt, &by_zones, &Zones {}, &BY_ZONES);
    let by_metres = with_night(table(gauges(2_000, 0), gauges(5_000, 0))?)?;
    check_each(&rt, &by_metres, &Metres {}, &BY_METRES);
    let by_rungs = with_night(Ladder::open(100, 50)?)?;
    check_each(&rt, &by_rungs, &Zones {}, &BY_LADDER);
    Ok(())
}
