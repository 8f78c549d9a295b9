use service_day::Day;
use std::process::Abort;
use std::test::Fail;
use timetable::{Hop, HopList, Timetable};

const OUT: Hop = Hop {
    trip: 0,
    from: 0,
    to: 1,
    departure: 600,
    arrival: 900,
    metres: 5_000,
    level: 3,
    event: 2,
    runs: true,
};

const ON: Hop = Hop {
    from: 1,
    to: 2,
    departure: 900,
    arrival: 1200,
    metres: 700,
    ..OUT
};

// The last trip of the day arrives 100 seconds before its end.
const LATE: Hop = Hop {
    trip: 1,
    departure: 172_000,
    arrival: 172_500,
    ..OUT
};

const LAST: Hop = Hop {
    trip: 1,
    departure: 172_500,
    arrival: 172_700,
    ..ON
};

const IDLE: Hop = Hop {
    trip: 2,
    runs: false,
    ..OUT
};

const HOPS: [Hop; 5] = [OUT, ON, LATE, LAST, IDLE];

enum Call {
    Cancel(u32),
    Reinstate(u32),
    Delay(u32, u32),
}

// Calls one after the other, and how late the hops of the first trip then are; nothing where they do not
// run. In either order a trip that is cancelled and delayed does not run, and reinstated it runs late.
const FIRST_TRIP: [(Call, Option<u32>); 6] = [
    (Call::Cancel(0), None),
    (Call::Delay(0, 300), None),
    (Call::Reinstate(0), Some(300)),
    (Call::Cancel(0), None),
    (Call::Delay(0, 0), None),
    (Call::Reinstate(0), Some(0)),
];

// Delays of the last trip, and how late its two hops then are. One that would arrive after the day's end
// does not run.
const LAST_TRIP: [(u32, Option<u32>, Option<u32>); 6] = [
    (100, Some(100), Some(100)),
    (101, Some(101), None),
    (300, Some(300), None),
    (301, None, None),
    (7_200, None, None),
    (0, Some(0), Some(0)),
];

// The hop so many seconds later, or not running and unmoved.
fn changed(hop: Hop, seconds: Option<u32>) -> Hop {
    let Some(seconds) = seconds else {
        return Hop { runs: false, ..hop };
    };
    Hop {
        departure: hop.departure.saturating_add(seconds),
        arrival: hop.arrival.saturating_add(seconds),
        ..hop
    }
}

fn check_hop(rt: &impl Abort, day: &Day<HopList>, place: u32, hop: Hop, seconds: Option<u32>) {
    assert_eq!(rt; day.hop(place), Some(changed(hop, seconds)));
}

// Checks all hops: those of the first trip, and the two of the last. The idle one never changes.
fn check_hops(
    rt: &impl Abort,
    day: &Day<HopList>,
    first: Option<u32>,
    late: Option<u32>,
    last: Option<u32>,
) {
    check_hop(rt, day, 0, OUT, first);
    check_hop(rt, day, 1, ON, first);
    check_hop(rt, day, 2, LATE, late);
    check_hop(rt, day, 3, LAST, last);
    check_hop(rt, day, 4, IDLE, None);
    assert!(rt; day.hop(5).is_none());
    assert_eq!(rt; day.count(), 5);
    assert_eq!(rt; day.trips(), 3);
}

#[test]
fn cancelled_and_delayed(rt: HostRuntime) -> Result<(), Fail> {
    let hops = HOPS;
    let mut day = Day::new(HopList::over(&hops)?);
    check_hops(&rt, &day, Some(0), Some(0), Some(0));
    for (call, late) in &FIRST_TRIP {
        let outcome = match call {
            Call::Cancel(trip) => day.cancel(*trip),
            Call::Reinstate(trip) => day.reinstate(*trip),
            Call::Delay(trip, seconds) => day.delay(*trip, *seconds),
        };
        assert!(rt; outcome.is_ok());
        check_hops(&rt, &day, *late, Some(0), Some(0));
    }
    Ok(())
}

// An idle hop is not moved, and stays idle when its trip is reinstated.
#[test]
fn past_the_end_of_the_day_and_idle(rt: HostRuntime) -> Result<(), Fail> {
    let hops = HOPS;
    let mut day = Day::new(HopList::over(&hops)?);
    assert!(rt; day.delay(2, 300).is_ok() && day.cancel(2).is_ok());
    for (seconds, late, last) in &LAST_TRIP {
        assert!(rt; day.delay(1, *seconds).is_ok());
        check_hops(&rt, &day, Some(0), *late, *last);
    }
    assert!(rt; day.reinstate(2).is_ok());
    check_hops(&rt, &day, Some(0), Some(0), Some(0));
    Ok(())
}
