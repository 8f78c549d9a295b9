ghost use Rattle.std.specs.Prelude.{◌≡◌};
ghost use Rattle.board_replay.specs.Boards.{room_of, measure_of};
ghost use Rattle.board_replay.specs.Loading.{handed, nothing_handed, said_table, taken, table_taken, rule_taken, answer_once, left_once, Takes};

use crate::failure::Failure;
use crate::fault::Fault;
use crate::memory::USUAL_ROOM;
use case_lines::{Extra, Load, MeasureName, PriceTable, Room};
use journeys::{Footpath, Network, Stop};
use rule_table::Rule;
use std::alloc::Global;
use timetable::Hop;

// What kind of timetable the hops are.
#[derive(Clone, Copy, Debug, PartialEq, Eq)]
pub enum Timing {
    HopList,
    IntervalLine { interval: u32, trips: u32 },
}

// The tariff below a surcharge.
#[derive(Debug, Drop)]
pub enum Base {
    Table(PriceTable),
    Ladder { first: u32, step: u32 },
}

// What a board was loaded with so far.
#[derive(Debug, Drop)]
pub struct Loaded {
    pub(crate) timing: Option<Timing>,
    pub(crate) hops: Vec<Hop>,
    pub(crate) stops: Vec<Stop>,
    pub(crate) paths: Vec<Footpath>,
    pub(crate) measure: Option<MeasureName>,
    pub(crate) base: Option<Base>,
    pub(crate) rules: Vec<Rule>,
    pub(crate) surcharge: Option<Extra>,
    pub(crate) room: Option<Room>,
}

// Puts a value where there is none yet.
fn put<T: Drop>(place: &mut Option<T>, value: T) -> Result<(), Fault>
    ensures answer { result ≡ answer_once place.old }
    ensures place { place.new ≡ left_once place.old value }
{
    if place.is_some() {
        return Err(Fault::Again);
    }
    *place = Some(value);
    Ok(())
}

impl Loaded {
    pub fn nothing(alloc: Global) -> Loaded
        ensures { handed result ≡ nothing_handed }
    {
        Loaded {
            timing: None,
            hops: Vec::new(alloc),
            stops: Vec::new(alloc),
            paths: Vec::new(alloc),
            measure: None,
            base: None,
            rules: Vec::new(alloc),
            surcharge: None,
            room: None,
        }
    }

    // Takes a line of what the board was loaded with.
    pub fn take(&mut self, load: Load) -> Result<(), Failure>
        ensures { Takes result (handed self.old) (handed self.new) (taken (handed self.old) load) }
    {
        match load {
            Load::HopList => put(&mut self.timing, Timing::HopList)?,
            Load::IntervalLine { interval, trips } => {
                put(&mut self.timing, Timing::IntervalLine { interval, trips })?
            }
            Load::Hop(hop) => self.hops.push(hop)?,
            Load::Stop(stop) => self.stops.push(stop)?,
            Load::Footpath(path) => self.paths.push(path)?,
            Load::Measure(measure) => put(&mut self.measure, measure)?,
            Load::Rule(rule) => self.take_rule(rule)?,
            Load::Ladder { first, step } => put(&mut self.base, Base::Ladder { first, step })?,
            Load::Surcharge(extra) => put(&mut self.surcharge, extra)?,
            Load::Room(room) => put(&mut self.room, room)?,
        }
        Ok(())
    }

    // Takes the line of a rule table.
    pub fn take_table(&mut self, table: PriceTable) -> Result<(), Failure>
        ensures { Takes result (handed self.old) (handed self.new) (table_taken (handed self.old) (said_table table)) }
    {
        put(&mut self.base, Base::Table(table))?;
        Ok(())
    }

    // Takes a rule of the table, which has to be there.
    fn take_rule(&mut self, rule: Rule) -> Result<(), Failure>
        ensures { Takes result (handed self.old) (handed self.new) (rule_taken (handed self.old) rule) }
    {
        match self.base {
            Some(Base::Table(_)) => Ok(self.rules.push(rule)?),
            _ => Err(Failure::Misplaced(Fault::RuleBeforeTable)),
        }
    }

    // The room that was handed in, or the usual one.
    pub(crate) fn room(&self) -> Room
        ensures { result ≡ room_of self.now.room }
    {
        match self.room {
            Some(room) => room,
            None => USUAL_ROOM,
        }
    }

    // The measure that was named, or all.
    pub(crate) fn measure(&self) -> MeasureName
        ensures { result ≡ measure_of self.now.measure }
    {
        match self.measure {
            Some(measure) => measure,
            None => MeasureName::All,
        }
    }

    pub(crate) fn network(&self) -> Network<'_>
        ensures stops { result.stops.now ≡ self.now.stops.items }
        ensures paths { result.paths.now ≡ self.now.paths.items }
    {
        Network {
            stops: self.stops.as_slice(),
            paths: self.paths.as_slice(),
        }
    }
}
