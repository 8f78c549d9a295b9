use crate::{AskingCase, ReadingCase, read_case, run_case};
use planner::Refusal;
use std::process::Abort;

// How many rows and labels there are, and the first bytes of the sheet, with zeros behind a shorter one.
type Seen = Result<(usize, usize, [u8; 6]), Refusal>;

const BOTH_WAYS: Seen = Ok((2, 6, [0x02, 0x1b, 0xdc, 0x05, 0x5e, 0x01]));

fn check_asked(rt: &impl Abort, case: AskingCase, want: Seen) {
    match run_case(case) {
        Ok(printed) => {
            let sheet = printed.sheet;
            let first = [sheet[0], sheet[1], sheet[2], sheet[3], sheet[4], sheet[5]];
            let seen = (printed.answer.rows, printed.answer.labels, first);
            assert_eq!(rt; Ok(seen), want, "at {case:?}");
        }
        Err(refusal) => assert_eq!(rt; Err(refusal), want, "at {case:?}"),
    }
}

// Rows and prices worked by hand from the hops, the table and the surcharge.
#[test]
fn every_case(rt: HostRuntime) {
    check_asked(&rt, AskingCase::RoomToSpare, BOTH_WAYS);
    check_asked(&rt, AskingCase::SixLabels, BOTH_WAYS);
    check_asked(&rt, AskingCase::FiveLabels, Err(Refusal::StoreFull(5)));
    check_asked(&rt, AskingCase::TwoAboard, BOTH_WAYS);
    check_asked(&rt, AskingCase::OneAboard, Err(Refusal::AboardFull(3)));
    check_asked(&rt, AskingCase::OneRide, Ok((0, 4, [0; 6])));
    let half_way = [0x01, 0x1b, 0x84, 0x03, 0x2c, 0x01];
    check_asked(&rt, AskingCase::HalfWay, Ok((1, 6, half_way)));
    let no_trip = [0x01, 0x03, 0x58, 0x02, 0, 0];
    check_asked(&rt, AskingCase::ToTheOrigin, Ok((1, 6, no_trip)));
    let by_ferry = [0x01, 0x1b, 0xdc, 0x05, 0x5e, 0x01];
    check_asked(&rt, AskingCase::LandTripCancelled, Ok((1, 3, by_ferry)));
    check_asked(&rt, AskingCase::FerryJustCaught, BOTH_WAYS);
    let by_land_first = [0x02, 0x1b, 0xdc, 0x05, 0xc2, 0x01];
    check_asked(&rt, AskingCase::FerryMissed, Ok((2, 6, by_land_first)));
    assert_eq!(rt;
        read_case(ReadingCase::PriceOfZero),
        Err(sheet::Refusal::NoRow(0))
    );
    assert_eq!(rt;
        read_case(ReadingCase::ByteLeftOver),
        Err(sheet::Refusal::NoSheet)
    );
}
