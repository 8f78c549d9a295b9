ghost use Rattle.std.specs.Prelude.{◌≡◌, true, [], is_ok, IfOk};
ghost use Rattle.timetable.specs.Rule.{keeps};
ghost use Rattle.fares.specs.Surcharges.{surcharge_model};
ghost use Rattle.rule_table.specs.OpenedTables.{table_of};
ghost use Rattle.ferry_cases.specs.FerryBoard.{hop as hop_of, ferry_hops, ferry_stops, ferry_question, no_fare as no_fare_of, rule as rule_of, ferry_tariff};
ghost use Rattle.ferry_cases.specs.declared.board.TheConstants.{STOPS, QUESTION};

use crate::fault::Fault;
use fares::{FareState, Gauges, Marked, Surcharge};
use journeys::{Network, Question, Stop};
use measures::ZoneSet;
use rule_table::{Rule, RuleTable};
use timetable::Hop;

// The event of a crossing by ferry.
pub const FERRY: u8 = 2;

const FERRY_EXTRA: u32 = 150;

const EVERY_EVENT: u16 = 0xffff;

const PRICES: [u32; 3] = [200, 300, 450];

const HARBOUR: Stop = Stop { zone: 1, class: 0 };

const INLAND: Stop = Stop { zone: 2, class: 0 };

pub const STOPS: [Stop; 4] = [HARBOUR, HARBOUR, INLAND, HARBOUR];

pub const QUESTION: Question = Question {
    origin: 0,
    destination: 3,
    departure: 600,
    rides: 2,
};

pub type FerryState = FareState<Marked<u8>, ZoneSet>;

// What a blank place holds.
pub fn no_fare() -> FerryState
    ensures { result ≡ no_fare_of }
{
    FareState {
        ticket: Marked {
            below: 0,
            marked: false,
        },
        weight: ZoneSet { members: 0 },
    }
}

// The stops and the question are those of the cases. There is nothing to run.
pub fn ferry_constants()
    ensures stops { STOPS ≡ ferry_stops }
    ensures question { QUESTION ≡ ferry_question }
{}

// The stops of the cases, and no footpaths.
pub fn network() -> Network<'static>
    ensures stops { result.stops.now ≡ ferry_stops }
    ensures paths { result.paths.now ≡ [] }
{
    Network {
        stops: &STOPS,
        paths: &[],
    }
}

// A running hop of no length.
pub fn hop(trip: u32, from: u32, to: u32, departure: u32, arrival: u32, event: u8) -> Hop
    ensures { result ≡ hop_of trip from to departure arrival event }
{
    Hop {
        trip,
        from,
        to,
        departure,
        arrival,
        metres: 0,
        level: 0,
        event,
        runs: true,
    }
}

// Twice from harbour to harbour: by ferry, or the cheaper way, which takes longer or leads inland.
pub fn hops() -> [Hop; 5]
    ensures hops { result ≡ ferry_hops }
    ensures rule { keeps result ≡ true }
{
    [
        hop(0, 0, 1, 600, 900, FERRY),
        hop(1, 0, 2, 600, 700, 0),
        hop(1, 2, 1, 700, 900, 0),
        hop(2, 1, 3, 1200, 1500, FERRY),
        hop(3, 1, 3, 1200, 1800, 0),
    ]
}

// At every event, once so many zones are touched.
fn rule(ticket: u8, target: u8, zones: u32) -> Rule
    ensures { result ≡ rule_of ticket target zones }
{
    Rule {
        ticket,
        target,
        events: EVERY_EVENT,
        minima: Gauges {
            metres: 0,
            stops: 0,
            zones,
            level: 0,
        },
    }
}

// A ticket for each number of zones, and a surcharge for the ferry.
pub fn tariff() -> Result<Surcharge<RuleTable>, Fault>
    ensures opens { is_ok result ≡ true }
    ensures tariff { IfOk result (λ t. surcharge_model t.event t.extra (table_of t.below) ≡ ferry_tariff) }
{
    let rules = [rule(0, 1, 2), rule(0, 2, 3), rule(1, 2, 3)];
    let table = RuleTable::open(&PRICES, &rules, [0; 4])?;
    Ok(Surcharge::open(table, FERRY, FERRY_EXTRA)?)
}
