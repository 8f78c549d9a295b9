use crate::case::{ferry_and, ferry_case};
use crate::printed::{ride, walk};
use ferry_cases::{FERRY, hop};
use journeys::Footpath;
use std::test::*;

const TWO_ROWS: [u8; 11] = [
    0x02, 0x1b, 0xdc, 0x05, 0x5e, 0x01, 0x1b, 0x08, 0x07, 0x2c, 0x01,
];

#[test]
fn one_ferry_is_faster_and_none_cheaper(rt: HostRuntime) -> Result<(), Fail> {
    let legs = [ride(0, 0, 0), ride(0, 3, 3), ride(1, 1, 2), ride(1, 4, 4)];
    let answer = ferry_case().answer(&TWO_ROWS, &legs)?;
    assert_eq!(rt; answer.labels, 6);
    assert_eq!(rt; answer.rows, 2);
    Ok(())
}

// The way inland is found first here, and costs less up to stop 1. With the ferry after it, it costs
// more than two ferries do: had it covered them for its price, the sheet would say 450 in place of 350.
#[test]
fn a_cheaper_part_does_not_cover_a_dearer_one(rt: HostRuntime) -> Result<(), Fail> {
    let mut case = ferry_case();
    case.hops[0] = hop(0, 0, 2, 600, 700, 0);
    case.hops[1] = hop(0, 2, 1, 700, 900, 0);
    case.hops[2] = hop(1, 0, 1, 600, 900, FERRY);
    let legs = [ride(0, 2, 2), ride(0, 3, 3), ride(1, 0, 1), ride(1, 4, 4)];
    let answer = case.answer(&TWO_ROWS, &legs)?;
    assert_eq!(rt; answer.rows, 2);
    Ok(())
}

#[test]
fn other_questions(rt: HostRuntime) -> Result<(), Fail> {
    let mut case = ferry_case();
    case.question.rides = 1;
    assert_eq!(rt; case.answer(&[0x00], &[])?.rows, 0);
    case = ferry_case();
    case.question.destination = 1;
    let arrival = [0x01, 0x1b, 0x84, 0x03, 0x2c, 0x01];
    assert_eq!(rt; case.answer(&arrival, &[ride(0, 1, 2)])?.rows, 1);
    case.question.destination = 0;
    assert_eq!(rt; case.answer(&[0x01, 0x03, 0x58, 0x02], &[])?.rows, 1);
    Ok(())
}

// With one ride the destination can be reached only on foot.
#[test]
fn a_walk_is_a_leg(rt: HostRuntime) -> Result<(), Fail> {
    let back = Footpath {
        from: 2,
        to: 0,
        seconds: 3600,
    };
    let on = Footpath {
        from: 1,
        to: 3,
        seconds: 60,
    };
    let paths = [back, on];
    let mut case = ferry_and(&paths);
    case.question.rides = 1;
    let sheet = [0x01, 0x1b, 0xc0, 0x03, 0x2c, 0x01];
    assert_eq!(rt; case.answer(&sheet, &[ride(0, 1, 2), walk(0, 1)])?.rows, 1);
    Ok(())
}
