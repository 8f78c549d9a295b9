use day_planner::Entry;
use journeys::{Footpath, Question, Stop};
use rule_table::Rule;
use timetable::Hop;

// The measures that a board can be loaded with.
#[derive(Clone, Copy, Debug, PartialEq, Eq)]
pub enum MeasureName {
    Metres,
    Stops,
    Zones,
    Level,
    // pair(pair(metres, stops), pair(zones, level))
    All,
}

// A surcharge: its event, and what it costs.
#[derive(Clone, Copy, Debug, PartialEq, Eq)]
pub struct Extra {
    pub event: u8,
    pub amount: u32,
}

// How many places the lists of a question have.
#[derive(Clone, Copy, Debug, PartialEq, Eq)]
pub struct Room {
    pub labels: u32,
    pub aboard: u32,
    pub bytes: u32,
    pub legs: u32,
}

// A line of what a board was loaded with.
#[derive(Clone, Copy, Debug, PartialEq, Eq)]
pub enum Load {
    HopList,
    IntervalLine { interval: u32, trips: u32 },
    Hop(Hop),
    Stop(Stop),
    Footpath(Footpath),
    Measure(MeasureName),
    Rule(Rule),
    Ladder { first: u32, step: u32 },
    Surcharge(Extra),
    Room(Room),
}

// The line of a rule table: the start ticket of each class, and the price of each ticket.
#[derive(Debug, Drop)]
pub struct PriceTable {
    pub starts: [u8; 4],
    pub prices: Vec<u32>,
}

// A question with the bytes of the sheet that the board is said to have printed.
#[derive(Debug, Drop)]
pub struct Claim {
    pub question: Question,
    pub sheet: Vec<u8>,
}

// What a line says.
#[derive(Debug, Drop)]
pub enum Line {
    Nothing,
    // the next board begins, with this name
    Case(Vec<u8>),
    Load(Load),
    Table(PriceTable),
    Entry(Entry),
    Claim(Claim),
}
