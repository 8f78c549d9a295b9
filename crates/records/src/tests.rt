use crate::{OpeningRefusal, write_case, write_claim, write_opening, write_reply};
use day_planner::{Refusal, Reply};
use journeys::{Leg, LegKind};
use planner::{Answer, NetworkList};
use std::test::Fail;

// The ferry's sheet, and a byte behind it.
const SHEET: [u8; 12] = [
    0x02, 0x1b, 0xdc, 0x05, 0x5e, 0x01, 0x1b, 0x08, 0x07, 0x2c, 0x01, 0xff,
];

fn ferry() -> Result<Reply, Refusal> {
    Ok(Reply::Answered(Answer {
        rows: 2,
        labels: 6,
        bytes: 11,
        legs: 4,
    }))
}

fn ride(row: u8, first: usize, last: usize) -> Leg {
    Leg {
        row,
        kind: LegKind::Ride,
        first,
        last,
    }
}

#[test]
fn the_ferrys_answer(rt: HostRuntime) -> Result<(), Fail> {
    let legs = [
        ride(0, 0, 0),
        ride(0, 3, 3),
        ride(1, 1, 2),
        ride(1, 4, 4),
        ride(2, 5, 5),
    ];
    let mut out = Vec::new(rt.alloc());
    write_case(&mut out, b"ferry")?;
    write_reply(&mut out, ferry(), &SHEET, &legs)?;
    write_claim(&mut out, ferry(), &SHEET, &SHEET[..11])?;
    write_claim(&mut out, ferry(), &SHEET, &SHEET)?;
    let wanted = b"case ferry\n\
        rows 2 labels 6 bytes 11 legs 4\n\
        02 1b dc 05 5e 01 1b 08 07 2c 01\n\
        0 1 0 0\n0 1 3 3\n1 1 1 2\n1 1 4 4\n\
        same\ndiffers\n";
    assert!(rt; out.as_slice() == wanted.as_slice());
    Ok(())
}

#[test]
fn a_walk_and_no_bytes(rt: HostRuntime) -> Result<(), Fail> {
    let walk = Leg {
        kind: LegKind::Walk,
        ..ride(0, 7, 7)
    };
    let answer = Answer {
        rows: 1,
        labels: 10,
        bytes: 0,
        legs: 1,
    };
    let mut out = Vec::new(rt.alloc());
    write_reply(&mut out, Ok(Reply::Answered(answer)), &SHEET, &[walk])?;
    let wanted = b"rows 1 labels 10 bytes 0 legs 1\n\n0 0 7 7\n";
    assert!(rt; out.as_slice() == wanted.as_slice());
    Ok(())
}

#[test]
fn refusals_with_their_values(rt: HostRuntime) -> Result<(), Fail> {
    let opening = OpeningRefusal::from(timetable::Refusal::IntervalLimits);
    let asking = Refusal::from(planner::Refusal::Network {
        list: NetworkList::Footpaths,
        place: 7,
    });
    let mut out = Vec::new(rt.alloc());
    write_opening(&mut out, opening)?;
    write_reply(&mut out, Ok(Reply::Done), &[], &[])?;
    write_reply(&mut out, Err(asking), &[], &[])?;
    write_claim(&mut out, Err(asking), &[], &[])?;
    let wanted = b"refused 2\nok\nrefused 10 1 7\ndiffers\n";
    assert!(rt; out.as_slice() == wanted.as_slice());
    Ok(())
}
