use crate::{Fault, Misstep, Step, Travel};
use fares::{FareState, Ladder};
use journeys::{Footpath, Leg, LegKind, Network, Stop};
use measures::{ZoneSet, Zones};
use std::test::Fail;
use timetable::{Hop, HopList};

type Shown = Step<FareState<u8, ZoneSet>>;

const HARBOUR: Stop = Stop { zone: 1, class: 0 };

const INLAND: Stop = Stop { zone: 2, class: 0 };

const STOPS: [Stop; 4] = [HARBOUR, HARBOUR, INLAND, HARBOUR];

const PATHS: [Footpath; 3] = [
    Footpath {
        from: 1,
        to: 3,
        seconds: 300,
    },
    Footpath {
        from: 0,
        to: 1,
        seconds: 100,
    },
    Footpath {
        from: 0,
        to: 1,
        seconds: 700,
    },
];

fn hop(trip: u32, from: u32, to: u32, departure: u32, arrival: u32, runs: bool) -> Hop {
    Hop {
        trip,
        from,
        to,
        departure,
        arrival,
        metres: 0,
        level: 0,
        event: 0,
        runs,
    }
}

fn walk(path: usize) -> Leg {
    Leg {
        row: 0,
        kind: LegKind::Walk,
        first: path,
        last: path,
    }
}

fn ride(first: usize, last: usize) -> Leg {
    Leg {
        row: 0,
        kind: LegKind::Ride,
        first,
        last,
    }
}

// Where a rider is who holds a ticket and has touched these zones, by their bits.
fn shown(
    (stop, time): (u32, u64),
    rides: usize,
    is_on_foot: bool,
    ticket: u8,
    members: u64,
    price: u32,
) -> Shown {
    Step {
        stop,
        time,
        rides,
        is_on_foot,
        state: FareState {
            ticket,
            weight: ZoneSet { members },
        },
        price,
    }
}

fn blank() -> Shown {
    shown((9, 9), 9, false, 9, 0, 9)
}

// Follows legs from stop 0 at 600.
fn retrace(legs: &[Leg], steps: &mut [Shown]) -> Result<Result<usize, Fault>, Fail> {
    let hops = [
        hop(0, 0, 1, 600, 900, true),
        hop(1, 0, 2, 600, 700, true),
        hop(1, 2, 1, 700, 900, true),
        hop(2, 1, 3, 1200, 1500, true),
        hop(3, 1, 3, 1200, 1800, true),
        hop(4, 3, 0, 1300, 1400, true),
        hop(4, 0, 1, 1500, 1600, false),
    ];
    let timetable = HopList::over(&hops)?;
    let tariff = Ladder::open(200, 100)?;
    let measure = Zones {};
    let travel = Travel {
        timetable: &timetable,
        tariff: &tariff,
        measure: &measure,
        network: Network {
            stops: &STOPS,
            paths: &PATHS,
        },
        origin: 0,
        departure: 600,
    };
    Ok(travel.retrace(legs, steps))
}

#[test]
fn each_walk_and_each_hop_is_a_step(rt: HostRuntime) -> Result<(), Fail> {
    let mut steps = [blank(); 5];
    let inland = retrace(&[ride(1, 2), walk(0), ride(5, 5)], &mut steps)?;
    assert_eq!(rt; inland, Ok(4));
    let ridden = [
        shown((2, 700), 1, false, 1, 6, 300),
        shown((1, 900), 1, false, 1, 6, 300),
        shown((3, 1200), 1, true, 1, 6, 300),
        shown((0, 1400), 2, false, 1, 6, 300),
        blank(),
    ];
    assert!(rt; steps == ridden);
    let along_the_shore = retrace(&[walk(1), ride(3, 3)], &mut steps)?;
    assert_eq!(rt; along_the_shore, Ok(2));
    assert_eq!(rt; steps[0], shown((1, 700), 0, true, 0, 2, 0));
    assert_eq!(rt; steps[1], shown((3, 1500), 1, false, 0, 2, 200));
    assert_eq!(rt; steps[2], ridden[2]);
    assert_eq!(rt; retrace(&[], &mut [])?, Ok(0));
    Ok(())
}

#[test]
fn a_leg_that_does_not_follow_says_why(rt: HostRuntime) -> Result<(), Fail> {
    let two_paths = Leg { last: 1, ..walk(0) };
    let missteps: [(&[Leg], Misstep); 10] = [
        (&[two_paths], Misstep::TwoPaths),
        (&[walk(1), walk(0)], Misstep::SecondWalk),
        (&[walk(3)], Misstep::NoPath),
        (&[walk(0)], Misstep::PathElsewhere),
        (&[ride(2, 1)], Misstep::Backward),
        (&[ride(1, 7)], Misstep::NoHop),
        (&[ride(2, 2)], Misstep::HopElsewhere),
        (&[walk(2), ride(3, 3)], Misstep::Departed),
        (&[ride(1, 2), walk(0), ride(5, 6)], Misstep::Halted(6)),
        (&[ride(0, 1)], Misstep::OtherTrip(1)),
    ];
    for (legs, why) in missteps {
        let mut steps = [blank(); 5];
        let leg = legs.len() - 1;
        assert_eq!(rt;
            retrace(legs, &mut steps)?,
            Err(Fault::DoesNotFollow { leg, why })
        );
    }
    let mut one = [blank()];
    let fault = retrace(&[walk(1), ride(4, 4), ride(5, 5)], &mut one)?;
    assert_eq!(rt; fault, Err(Fault::TooFewSteps { leg: 1 }));
    assert_eq!(rt; one[0], shown((1, 700), 0, true, 0, 2, 0));
    Ok(())
}
