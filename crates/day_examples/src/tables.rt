use service_day::{Cancellations, Delays, Refusal};
use std::process::Abort;
use std::test::Fail;
use timetable::{Hop, IntervalLine, Timetable};

const TRIPS: usize = 40;

// As many trips as a table lists.
const LISTED: u32 = 32;

const INTERVAL: u32 = 60;

const RIDE: Hop = Hop {
    trip: 0,
    from: 0,
    to: 1,
    departure: 600,
    arrival: 900,
    metres: 0,
    level: 0,
    event: 0,
    runs: true,
};

// A trip that is cancelled or reinstated.
enum Call {
    Cancel(u32),
    Reinstate(u32),
}

// After 32 trips from 0 on are cancelled: calls, and the numbers of their refusals where they are refused.
const CANCELLED: [(Call, Option<u8>); 15] = [
    (Call::Cancel(32), Some(6)),
    (Call::Cancel(40), Some(5)),
    (Call::Cancel(65_536), Some(5)),
    (Call::Reinstate(40), Some(5)),
    (Call::Reinstate(32), Some(7)),
    (Call::Cancel(0), None),
    (Call::Cancel(31), None),
    (Call::Cancel(33), Some(6)),
    (Call::Reinstate(7), None),
    (Call::Reinstate(7), Some(7)),
    (Call::Cancel(39), None),
    (Call::Cancel(7), Some(6)),
    (Call::Reinstate(0), None),
    (Call::Reinstate(39), None),
    (Call::Cancel(7), None),
];

// After 32 trips from 0 on are delayed: trips, seconds and the numbers of refusals.
const DELAYED: [(u32, u32, Option<u8>); 19] = [
    (32, 60, Some(6)),
    (32, 9_000, Some(6)),
    (40, 60, Some(5)),
    (40, 0, Some(5)),
    (40, 9_000, Some(5)),
    (3, 9_000, Some(8)),
    (3, 7_201, Some(8)),
    (3, 7_200, None),
    (33, 0, None),
    (33, 1, Some(6)),
    (0, 61, None),
    (31, 1, None),
    (5, 0, None),
    (5, 7_201, Some(8)),
    (39, 7_200, None),
    (5, 60, Some(6)),
    (39, 0, None),
    (39, 0, None),
    (5, 60, None),
];

fn line() -> Result<IntervalLine, Fail> {
    Ok(IntervalLine::open(&[RIDE], INTERVAL, TRIPS as u32)?)
}

// Whether a call is taken; it has to be refused with the trip, and with the number if there is one.
fn is_taken(rt: &impl Abort, outcome: Result<(), Refusal>, trip: u32, number: Option<u8>) -> bool {
    let told = outcome.map_err(|refusal| (refusal.number(), refusal.trip()));
    assert_eq!(rt; told.err(), number.map(|number| (number, trip)));
    told.is_ok()
}

// The one hop of a trip, so late.
fn hop_of(trip: u32, late: u32, runs: bool) -> Hop {
    let departure = (600 + trip.min(TRIPS as u32) * INTERVAL).saturating_add(late);
    Hop {
        trip,
        departure,
        arrival: departure.saturating_add(300),
        runs,
        ..RIDE
    }
}

// Checks of each trip whether it is cancelled.
fn check_cancelled(
    rt: &impl Abort,
    table: &Cancellations<IntervalLine>,
    cancelled: &[bool; TRIPS],
) {
    for (place, off) in cancelled.iter().enumerate() {
        let trip = place as u32;
        assert_eq!(rt; table.is_cancelled(trip), *off);
        assert_eq!(rt; table.hop(trip), Some(hop_of(trip, 0, !*off)));
    }
}

// Checks of each trip how late it is.
fn check_delayed(rt: &impl Abort, table: &Delays<IntervalLine>, seconds: &[u32; TRIPS]) {
    for (place, late) in seconds.iter().enumerate() {
        let trip = place as u32;
        assert_eq!(rt; table.seconds(trip), *late);
        assert_eq!(rt; table.hop(trip), Some(hop_of(trip, *late, true)));
    }
}

// Each call alters its own trip alone, and a refused one none.
#[test]
fn thirty_two_trips_are_cancelled(rt: HostRuntime) -> Result<(), Fail> {
    let mut table = Cancellations::new(line()?);
    let mut cancelled = [false; TRIPS];
    check_cancelled(&rt, &table, &cancelled);
    for trip in 0..LISTED {
        assert!(rt; table.cancel(trip).is_ok());
        cancelled[trip as usize] = true;
    }
    check_cancelled(&rt, &table, &cancelled);
    for (call, number) in &CANCELLED {
        let (trip, off, outcome) = match call {
            Call::Cancel(trip) => (*trip, true, table.cancel(*trip)),
            Call::Reinstate(trip) => (*trip, false, table.reinstate(*trip)),
        };
        if is_taken(&rt, outcome, trip, *number) {
            assert!(rt; trip < TRIPS as u32);
            cancelled[trip as usize] = off;
        }
        check_cancelled(&rt, &table, &cancelled);
    }
    Ok(())
}

// A delay of 0 needs no place, and frees one. A table that is full comes before a delay that is long.
#[test]
fn thirty_two_trips_are_delayed(rt: HostRuntime) -> Result<(), Fail> {
    let mut table = Delays::new(line()?);
    let mut seconds = [0; TRIPS];
    check_delayed(&rt, &table, &seconds);
    for trip in 0..LISTED {
        assert!(rt; table.delay(trip, trip + 1).is_ok());
        seconds[trip as usize] = trip + 1;
    }
    check_delayed(&rt, &table, &seconds);
    for (trip, late, number) in &DELAYED {
        let outcome = table.delay(*trip, *late);
        if is_taken(&rt, outcome, *trip, *number) {
            assert!(rt; *trip < TRIPS as u32);
            seconds[*trip as usize] = *late;
        }
        check_delayed(&rt, &table, &seconds);
    }
    Ok(())
}
