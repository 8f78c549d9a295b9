use std::test::Fail;
use timetable::{Hop, HopList, IntervalLine, Refusal, Timetable};

// A hop of trip 0 from stop 0 to stop 1, at the top of every range.
const FIRST: Hop = Hop {
    trip: 0,
    from: 0,
    to: 1,
    departure: 600,
    arrival: 900,
    metres: 100_000,
    level: 7,
    event: 15,
    runs: true,
};

// The hop that follows it, arriving at the end of the day.
const NEXT: Hop = Hop {
    trip: 0,
    from: 1,
    to: 2,
    departure: 900,
    arrival: 172_800,
    metres: 0,
    level: 0,
    event: 0,
    runs: true,
};

// Where the two hops break the rule, if they do.
fn broken(first: Hop, next: Hop) -> Option<usize> {
    match HopList::over(&[first, next]) {
        Err(Refusal::BrokenRule(place)) => Some(place),
        _ => None,
    }
}

#[test]
fn hops_that_keep_the_rule(rt: HostRuntime) {
    assert!(rt; broken(FIRST, NEXT).is_none());
    assert!(rt;
        broken(
            FIRST,
            Hop {
                trip: 1,
                from: 5,
                departure: 0,
                ..NEXT
            },
        )
        .is_none()
    );
    assert!(rt;
        broken(
            FIRST,
            Hop {
                runs: false,
                from: 9,
                departure: 800,
                arrival: 0,
                level: 8,
                ..NEXT
            },
        )
        .is_none()
    );
}

#[test]
fn each_clause_broken_alone(rt: HostRuntime) {
    assert_eq!(rt; broken(Hop { trip: 1, ..FIRST }, NEXT), Some(0));
    assert_eq!(rt; broken(FIRST, Hop { trip: 2, ..NEXT }), Some(1));
    assert_eq!(rt;
        broken(
            Hop {
                departure: 900,
                ..FIRST
            },
            NEXT,
        ),
        Some(0)
    );
    assert_eq!(rt;
        broken(
            FIRST,
            Hop {
                arrival: 172_801,
                ..NEXT
            },
        ),
        Some(1)
    );
    assert_eq!(rt;
        broken(
            Hop {
                metres: 100_001,
                ..FIRST
            },
            NEXT,
        ),
        Some(0)
    );
    assert_eq!(rt; broken(Hop { level: 8, ..FIRST }, NEXT), Some(0));
    assert_eq!(rt; broken(Hop { event: 16, ..FIRST }, NEXT), Some(0));
    assert_eq!(rt; broken(FIRST, Hop { from: 3, ..NEXT }), Some(1));
    assert_eq!(rt;
        broken(
            FIRST,
            Hop {
                departure: 899,
                ..NEXT
            },
        ),
        Some(1)
    );
}

fn at(hop: Hop, trip: u32, departure: u32, arrival: u32) -> Hop {
    Hop {
        trip,
        departure,
        arrival,
        ..hop
    }
}

#[test]
fn a_line_and_its_list_answer_alike(rt: HostRuntime) -> Result<(), Fail> {
    let pattern = [
        FIRST,
        Hop {
            arrival: 1000,
            ..NEXT
        },
    ];
    let line = IntervalLine::open(&pattern, 600, 2)?;
    let hops = [
        pattern[0],
        pattern[1],
        at(FIRST, 1, 1200, 1500),
        at(NEXT, 1, 1500, 1600),
    ];
    let mut list = HopList::empty();
    assert!(rt; list.open(&hops).is_ok());
    assert_eq!(rt; line.count(), list.count());
    assert_eq!(rt; line.trips(), list.trips());
    for place in 0..5 {
        assert_eq!(rt; line.hop(place), list.hop(place));
    }
    assert!(rt; IntervalLine::open(&[FIRST, NEXT], 600, 2).is_err());
    Ok(())
}
