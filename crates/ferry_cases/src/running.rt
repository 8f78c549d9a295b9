ghost use Rattle.std.specs.Prelude.{◌≡◌, ◌≤◌};
ghost use Rattle.planner.specs.Lent.{memory_of, Ends};
ghost use Rattle.day_planner.specs.Log.{asked_after};
ghost use Rattle.day_planner.specs.Rooms.{SameRoom};
ghost use Rattle.ferry_cases.specs.FerryBoard.{ferry_tariff, to as to_of};
ghost use Rattle.ferry_cases.specs.FerryCases.{ferry_basis, asking_case, reading_case, Asks, IsReadFrom, Prints, Reads};

use crate::board::{FerryState, QUESTION, hops, network, no_fare, tariff};
use crate::worked::{AskingCase, Printed, ReadingCase};
use day_planner::{Entry, Inquiry, ask_after};
use journeys::{Leg, LegKind, Passenger, Question};
use measures::Zones;
use planner::{Answer, Lent, MOST_LEGS, Printout, Refusal};
use scan::{LabelStore, StoredLabel};
use sheet::{MOST_ROWS, Row, SHEET_BYTES, read};
use timetable::HopList;

const MOST_LABELS: usize = 64;

const MOST_ABOARD: usize = 16;

const NO_ROW: Row = Row {
    arrival: 0,
    price: 0,
};

const NO_LEG: Leg = Leg {
    row: 0,
    kind: LegKind::Walk,
    first: 0,
    last: 0,
};

// What a case asks, after which log, and how much room there is.
#[derive(Clone, Copy)]
struct CaseInput {
    log: &'static [Entry],
    question: Question,
    labels: usize,
    aboard: usize,
}

const ROOMY: CaseInput = CaseInput {
    log: &[],
    question: QUESTION,
    labels: MOST_LABELS,
    aboard: MOST_ABOARD,
};

// From the first harbour to a stop, with so many rides at most.
fn to(destination: u32, rides: u32) -> Question
    ensures { result ≡ to_of destination rides }
{
    Question {
        destination,
        rides,
        ..QUESTION
    }
}

fn input_of(case: AskingCase) -> CaseInput
    ensures case { Asks (asking_case case) result.log.now result.question result.labels result.aboard }
    ensures few_labels { result.labels ≤ 64 }
    ensures few_aboard { result.aboard ≤ 16 }
{
    match case {
        AskingCase::RoomToSpare => ROOMY,
        AskingCase::SixLabels => CaseInput { labels: 6, ..ROOMY },
        AskingCase::FiveLabels => CaseInput { labels: 5, ..ROOMY },
        AskingCase::TwoAboard => CaseInput { aboard: 2, ..ROOMY },
        AskingCase::OneAboard => CaseInput { aboard: 1, ..ROOMY },
        AskingCase::OneRide => CaseInput {
            question: to(3, 1),
            ..ROOMY
        },
        AskingCase::HalfWay => CaseInput {
            question: to(1, 2),
            ..ROOMY
        },
        AskingCase::ToTheOrigin => CaseInput {
            question: to(0, 2),
            ..ROOMY
        },
        AskingCase::LandTripCancelled => CaseInput {
            log: &[Entry::Cancel(1)],
            ..ROOMY
        },
        AskingCase::FerryJustCaught => CaseInput {
            log: &[Entry::Delay {
                trip: 0,
                seconds: 300,
            }],
            ..ROOMY
        },
        AskingCase::FerryMissed => CaseInput {
            log: &[Entry::Delay {
                trip: 0,
                seconds: 301,
            }],
            ..ROOMY
        },
    }
}

// Puts the question of a case, after its log, to a new planner of the ferry's network.
fn ask_given(given: &CaseInput, lent: &mut Lent<FerryState>) -> Result<Answer, Refusal>
    ensures outcome { Ends (asked_after (ferry_basis ferry_tariff) given.now.log.now given.now.question (memory_of lent.old)) result (memory_of lent.new) }
    ensures same_room { SameRoom (memory_of lent.old) (memory_of lent.new) }
{
    let hops = hops();
    let inquiry = Inquiry {
        timetable: HopList::over(&hops).unwrap(),
        tariff: tariff().unwrap(),
        measure: Zones {},
        network: network(),
        log: given.log,
        question: given.question,
    };
    ask_after(inquiry, lent)
}

/// Runs a case that asks: the ferry's network and tariff are opened, the log is run on a new planner, and the question is put, with as
/// much room as the case has. What is answered and printed is what must come of it.
pub fn run_case(case: AskingCase) -> Result<Printed, Refusal>
    ensures { Prints (asking_case case) result }
{
    let given = input_of(case);
    let mut labels = [StoredLabel::blank(no_fare()); MOST_LABELS];
    let mut aboard = [Passenger {
        state: no_fare(),
        label: 0,
        first: 0,
    }; MOST_ABOARD];
    let mut sheet = [0; SHEET_BYTES];
    let mut legs = [NO_LEG; MOST_LEGS];
    let store = LabelStore::over(&mut labels[..given.labels]);
    let out = Printout {
        sheet: &mut sheet,
        legs: &mut legs,
    };
    let mut lent = Lent {
        store,
        aboard: &mut aboard[..given.aboard],
        out,
    };
    let answer = ask_given(&given, &mut lent)?;
    let mut printed = Printed {
        answer,
        sheet: [0; SHEET_BYTES],
        legs: [NO_LEG; MOST_LEGS],
    };
    printed.sheet.copy_from_slice(lent.out.sheet);
    printed.legs.copy_from_slice(lent.out.legs);
    Ok(printed)
}

fn bytes(case: ReadingCase) -> &'static [u8]
    ensures { IsReadFrom (reading_case case) result.now }
{
    match case {
        ReadingCase::PriceOfZero => &[0x01, 0x1b, 0xdc, 0x05, 0x5e, 0x00],
        ReadingCase::ByteLeftOver => &[0x00, 0x00],
    }
}

/// Runs a case that reads: its bytes are read as a sheet. What is answered is what must come of it.
pub fn read_case(case: ReadingCase) -> Result<usize, sheet::Refusal>
    ensures { Reads (reading_case case) result }
{
    read(bytes(case), &mut [NO_ROW; MOST_ROWS])
}
