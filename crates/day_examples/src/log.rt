use crate::asked::{BLANK_LEG, LABELS, SEATS, blank_passenger, check_sheet};
use crate::ferry::ONE_FERRY;
use day_planner::{Entry, Planner, Refusal, Reply};
use fares::Surcharge;
use ferry_cases::{FerryState, QUESTION, hops, network, no_fare, tariff};
use journeys::Question;
use measures::Zones;
use planner::{Answer, Lent, MOST_LEGS, Printout};
use rule_table::RuleTable;
use scan::{LabelStore, StoredLabel};
use sheet::SHEET_BYTES;
use std::process::Abort;
use std::test::Fail;
use timetable::HopList;

type FerryPlanner<'a> = Planner<HopList<'a>, Surcharge<RuleTable>, Zones>;

const NO_RIDES: Question = Question {
    rides: 0,
    ..QUESTION
};

// By ferry or without: the origin, twice the harbour, the inland stop, and twice the destination.
const BOTH_WAYS: Answer = Answer {
    rows: 2,
    labels: 6,
    bytes: 11,
    legs: 4,
};

// The origin, the harbour and the destination.
const BY_FERRY: Answer = Answer {
    rows: 1,
    labels: 3,
    bytes: 6,
    legs: 2,
};

// A refusal's number, as one for a trip or as a question.
#[derive(Clone, Copy, Debug, PartialEq, Eq)]
enum Number {
    Trip(u8),
    Question(u8),
}

// What an entry has to be replied; a refusal is told by its number.
type Told = Result<Reply, Number>;

const ENTRIES: usize = 12;

const LOG: [(Entry, Told); ENTRIES] = [
    (Entry::Ask(QUESTION), Ok(Reply::Answered(BOTH_WAYS))),
    (Entry::Cancel(4), Err(Number::Trip(5))),
    (Entry::Reinstate(1), Err(Number::Trip(7))),
    (Entry::Cancel(1), Ok(Reply::Done)),
    (Entry::Ask(QUESTION), Ok(Reply::Answered(BY_FERRY))),
    (Entry::Ask(NO_RIDES), Err(Number::Question(9))),
    (
        Entry::Delay {
            trip: 0,
            seconds: 7_201,
        },
        Err(Number::Trip(8)),
    ),
    (Entry::Ask(QUESTION), Ok(Reply::Answered(BY_FERRY))),
    (
        Entry::Delay {
            trip: 0,
            seconds: 301,
        },
        Ok(Reply::Done),
    ),
    (Entry::Reinstate(1), Ok(Reply::Done)),
    (Entry::Ask(QUESTION), Ok(Reply::Answered(BOTH_WAYS))),
    (
        Entry::Delay {
            trip: 4,
            seconds: 0,
        },
        Err(Number::Trip(5)),
    ),
];

fn number_within(refusal: Refusal) -> Number {
    match refusal {
        Refusal::Trip(refusal) => Number::Trip(refusal.number()),
        Refusal::Question(refusal) => Number::Question(refusal.number()),
    }
}

// Both numbers are as told: that of the inner refusal, and that of the whole.
fn check_reply(rt: &impl Abort, reply: Result<Reply, Refusal>, told: Told) {
    assert_eq!(rt; reply.map_err(number_within), told);
    if let (Err(refusal), Err(Number::Trip(number) | Number::Question(number))) = (reply, told) {
        assert_eq!(rt; refusal.number(), number);
    }
}

// The log without replies.
fn entries() -> [Entry; ENTRIES] {
    let mut entries = [Entry::Cancel(0); ENTRIES];
    for (place, (entry, _)) in entries.iter_mut().zip(&LOG) {
        *place = *entry;
    }
    entries
}

// Runs the log or enters it, and asks the ferry's question then. (A closure for each of the two is no plainer.)
fn answer_after(rt: &impl Abort, planner: &mut FerryPlanner, is_run: bool) -> Result<Answer, Fail> {
    let mut labels = [StoredLabel::blank(no_fare()); LABELS];
    let mut aboard = [blank_passenger(no_fare()); SEATS];
    let mut sheet = [0; SHEET_BYTES];
    let mut legs = [BLANK_LEG; MOST_LEGS];
    let store = LabelStore::over(&mut labels);
    let out = Printout {
        sheet: &mut sheet,
        legs: &mut legs,
    };
    let mut lent = Lent {
        store,
        aboard: &mut aboard,
        out,
    };
    if is_run {
        planner.run(&entries(), &network(), &mut lent);
    } else {
        for (entry, told) in &LOG {
            check_reply(rt, planner.enter(*entry, &network(), &mut lent), *told);
        }
    }
    let answer = planner.ask(&network(), &QUESTION, &mut lent)?;
    check_sheet(rt, answer, &sheet, &ONE_FERRY);
    Ok(answer)
}

// A log does the same entry by entry and in one run.
#[test]
fn a_log_of_every_kind_of_entry(rt: HostRuntime) -> Result<(), Fail> {
    let hops = hops();
    for is_run in [false, true] {
        let mut planner = Planner::new(HopList::over(&hops)?, tariff()?, Zones {});
        assert_eq!(rt; answer_after(&rt, &mut planner, is_run)?, BOTH_WAYS);
    }
    Ok(())
}
