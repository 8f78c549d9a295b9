ghost use Rattle.std.specs.Prelude.{◌≡◌, ◌++◌, None, OnOk};
ghost use Rattle.planner.specs.Lent.{memory_of};
ghost use Rattle.day_planner.specs.Planners.{day_in, parts_of, basis};
ghost use Rattle.case_lines.specs.Reading.{seen};
ghost use Rattle.board_replay.specs.Memories.{memory_in};
ghost use Rattle.board_replay.specs.Replays.{Runs, Enters, Turns, turn_of, said_record, day_after_line, memory_after_line, log_from, skipped};
ghost use Rattle.board_replay.specs.Streams.{place, ReadsOn};

use crate::entries::{record_claim, record_entry};
use crate::failure::Failure;
use crate::fault::Fault;
use crate::lines::Lines;
use crate::memory::Memory;
use crate::writing::write_whole;
use case_lines::Line;
use day_planner::Planner;
use fares::{FareState, LawfulMeasure, LawfulTariff, Measure, Tariff};
use journeys::Network;
use planner::{Lent, Printout};
use scan::LabelStore;
use std::alloc::Global;
use std::io::{BufRead, Write};
use timetable::Timetable;

// The name of the next board, if there is one.
pub(crate) type Next = Option<Vec<u8>>;

// Enters a line of a log, and adds what is recorded of it. Answers the name of the next board, or nothing where the log
// goes on.
fn enter_line<T: Timetable, F: LawfulTariff, M: LawfulMeasure>(
    planner: &mut Planner<T, F, M>,
    line: Line,
    network: &Network,
    lent: &mut Lent<FareState<F::Ticket, M::Weight>>,
    text: &mut Vec<u8>,
) -> Result<Next, Failure>
    ensures turn { Enters (turn_of (seen line)) result }
    ensures text { OnOk result (text.new.items ≡ text.old.items ++ said_record (basis T.Timetable.hops F.Tariff.model M.Measure.model (parts_of planner.old) network.now) (day_in planner.old) (memory_of lent.old) (seen line)) }
    ensures day { day_in planner.new ≡ day_after_line (basis T.Timetable.hops F.Tariff.model M.Measure.model (parts_of planner.old) network.now) (day_in planner.old) (seen line) }
    ensures memory { memory_of lent.new ≡ memory_after_line (basis T.Timetable.hops F.Tariff.model M.Measure.model (parts_of planner.old) network.now) (day_in planner.old) (memory_of lent.old) (seen line) }
    ensures parts { parts_of planner.new ≡ parts_of planner.old }
{
    match line {
        Line::Case(name) => return Ok(Some(name)),
        Line::Load(_) | Line::Table(_) => return Err(Failure::Misplaced(Fault::Late)),
        Line::Nothing => {}
        Line::Entry(entry) => record_entry(planner, entry, network, lent, text)?,
        Line::Claim(claim) => {
            record_claim(planner, claim.question, &claim.sheet, network, lent, text)?;
        }
    }
    Ok(None)
}

// Runs the log of a board that was opened, line by line.
pub(crate) fn run<
    T: Timetable + Drop,
    F: LawfulTariff + Drop,
    M: LawfulMeasure + Drop,
    R: BufRead,
    W: Write,
>(
    alloc: Global,
    mut planner: Planner<T, F, M>,
    mut memory: Memory<FareState<F::Ticket, M::Weight>>,
    network: &Network,
    lines: &mut Lines<R>,
    out: &mut W,
) -> Result<Next, Failure>
    ensures log { Runs (log_from (basis T.Timetable.hops F.Tariff.model M.Measure.model (parts_of planner) network.now) (day_in planner) (memory_in memory)) (place R.Read.remaining lines.old) result (place R.Read.remaining lines.new) (W.contents out.old) (W.contents out.new) }
    ensures lines { ReadsOn (place R.Read.remaining lines.old) result (place R.Read.remaining lines.new) }
{
    let printout = Printout {
        sheet: &mut memory.sheet,
        legs: &mut memory.legs,
    };
    let mut lent = Lent {
        store: LabelStore::over(&mut memory.labels),
        aboard: &mut memory.aboard,
        out: printout,
    };
    let mut text = Vec::new(alloc);
    loop {
        let Some(line) = lines.next(alloc)? else {
            return Ok(None);
        };
        if let Some(name) = enter_line(&mut planner, line, network, &mut lent, &mut text)? {
            return Ok(Some(name));
        }
        write_whole(out, &text)?;
        text.clear();
    }
}

// What a line of a log is to one that does not run it: the name of the next board, or nothing where the log goes on.
fn passed_over(line: Line) -> Result<Next, Fault>
    ensures { Turns (turn_of (seen line)) result }
{
    match line {
        Line::Case(name) => Ok(Some(name)),
        Line::Load(_) | Line::Table(_) => Err(Fault::Late),
        Line::Nothing | Line::Entry(_) | Line::Claim(_) => Ok(None),
    }
}

// Reads the log of a board that was not opened.
pub(crate) fn skip<R: BufRead>(alloc: Global, lines: &mut Lines<R>) -> Result<Next, Failure>
    ensures log { Runs skipped (place R.Read.remaining lines.old) result (place R.Read.remaining lines.new) None None }
    ensures lines { ReadsOn (place R.Read.remaining lines.old) result (place R.Read.remaining lines.new) }
{
    loop {
        let Some(line) = lines.next(alloc)? else {
            return Ok(None);
        };
        if let Some(name) = passed_over(line)? {
            return Ok(Some(name));
        }
    }
}
