use crate::case::{Case, ferry_and, ferry_case};
use journeys::{Footpath, Stop};
use planner::{Field, NetworkList, OutputList, Refusal};
use std::test::*;
use timetable::Hop;

#[test]
fn labels_and_seats_run_out(rt: HostRuntime) -> Result<(), Fail> {
    let mut case = ferry_case();
    case.labels = 6;
    case.aboard = 2;
    assert!(rt; case.is_answered()?);
    case.labels = 5;
    assert_eq!(rt; case.refusal()?, Refusal::StoreFull(5));
    case.aboard = 1;
    assert_eq!(rt; case.refusal()?, Refusal::AboardFull(3));
    Ok(())
}

#[test]
fn each_field_of_a_question(rt: HostRuntime) -> Result<(), Fail> {
    let mut case = ferry_case();
    case.question.origin = 4;
    assert_eq!(rt; case.refusal()?, Refusal::Question(Field::Origin));
    case = ferry_case();
    case.question.destination = 4;
    assert_eq!(rt; case.refusal()?, Refusal::Question(Field::Destination));
    case = ferry_case();
    case.question.departure = 172_800;
    assert!(rt; case.is_answered()?);
    case.question.departure = 172_801;
    assert_eq!(rt; case.refusal()?, Refusal::Question(Field::Departure));
    case = ferry_case();
    for rides in [0, 9] {
        case.question.rides = rides;
        assert_eq!(rt; case.refusal()?, Refusal::Question(Field::Rides));
    }
    case.question.rides = 8;
    assert!(rt; case.is_answered()?);
    Ok(())
}

#[test]
fn stops_outside_limits(rt: HostRuntime) -> Result<(), Fail> {
    let mut case = ferry_case();
    for stop in [Stop { zone: 64, class: 0 }, Stop { zone: 0, class: 4 }] {
        case.stops[2] = stop;
        assert_eq!(rt;
            case.refusal()?,
            Refusal::Network {
                list: NetworkList::Stops,
                place: 2
            }
        );
    }
    case.stops[2] = Stop { zone: 63, class: 3 };
    assert!(rt; case.is_answered()?);
    Ok(())
}

fn footpath(from: u32, to: u32, seconds: u32) -> Footpath {
    Footpath { from, to, seconds }
}

#[test]
fn footpaths_outside_limits(rt: HostRuntime) -> Result<(), Fail> {
    let fine = [footpath(0, 3, 1), footpath(3, 0, 3600)];
    assert!(rt; ferry_and(&fine).is_answered()?);
    let outside = [
        footpath(1, 1, 60),
        footpath(4, 1, 60),
        footpath(1, 4, 60),
        footpath(0, 1, 0),
        footpath(0, 1, 3601),
    ];
    for path in outside {
        assert_eq!(rt;
            ferry_and(&[fine[0], path]).refusal()?,
            Refusal::Network {
                list: NetworkList::Footpaths,
                place: 1
            }
        );
    }
    Ok(())
}

// A hop that does not run may lead to no stop.
#[test]
fn a_running_hop_leads_to_a_stop(rt: HostRuntime) -> Result<(), Fail> {
    let mut case = ferry_case();
    case.hops[4].to = 4;
    assert_eq!(rt;
        case.refusal()?,
        Refusal::Network {
            list: NetworkList::Hops,
            place: 4
        }
    );
    case.hops[4].runs = false;
    assert!(rt; case.is_answered()?);
    Ok(())
}

// A case with every cause for a refusal but those of a question and of footpaths.
fn faulty_and<'a>(paths: &'a [Footpath]) -> Case<'a> {
    let mut case = ferry_and(paths);
    case.stops[0].zone = 64;
    case.hops[0].to = 4;
    case.bytes = 224;
    case.legs = 543;
    case.labels = 0;
    case
}

// Each cause is mended in turn, and the next one shows.
#[test]
fn questions_stops_and_footpaths_come_first(rt: HostRuntime) -> Result<(), Fail> {
    let to_itself = [footpath(1, 1, 60)];
    let mut case = faulty_and(&to_itself);
    case.question.departure = 172_801;
    case.question.rides = 0;
    assert_eq!(rt; case.refusal()?, Refusal::Question(Field::Departure));
    case.question.departure = 600;
    assert_eq!(rt; case.refusal()?, Refusal::Question(Field::Rides));
    case.question.rides = 2;
    assert_eq!(rt;
        case.refusal()?,
        Refusal::Network {
            list: NetworkList::Stops,
            place: 0
        }
    );
    case.stops[0].zone = 1;
    assert_eq!(rt;
        case.refusal()?,
        Refusal::Network {
            list: NetworkList::Footpaths,
            place: 0
        }
    );
    Ok(())
}

#[test]
fn hops_outputs_and_the_store_come_next(rt: HostRuntime) -> Result<(), Fail> {
    let mut case = faulty_and(&[]);
    case.stops[0].zone = 1;
    assert_eq!(rt;
        case.refusal()?,
        Refusal::Network {
            list: NetworkList::Hops,
            place: 0
        }
    );
    case.hops[0].to = 1;
    assert_eq!(rt; case.refusal()?, Refusal::ShortOutput(OutputList::Sheet));
    case.bytes = 225;
    assert_eq!(rt; case.refusal()?, Refusal::ShortOutput(OutputList::Legs));
    case.legs = 544;
    assert_eq!(rt; case.refusal()?, Refusal::StoreFull(0));
    Ok(())
}

const IDLE: Hop = Hop {
    trip: 0,
    from: 0,
    to: 0,
    departure: 0,
    arrival: 0,
    metres: 0,
    level: 0,
    event: 0,
    runs: false,
};

#[test]
fn the_longest_timetable(rt: HostRuntime) -> Result<(), Fail> {
    let case = ferry_case();
    let mut hops = vec![in rt.alloc(); IDLE; 65_535]?;
    assert!(rt; case.ask_over(hops.as_slice())?.outcome.is_ok());
    hops.push(IDLE)?;
    assert_eq!(rt;
        case.ask_over(hops.as_slice())?.outcome,
        Err(Refusal::Question(Field::Count))
    );
    Ok(())
}
