ghost use Rattle.std.specs.Prelude.{◌≡◌, Some};
ghost use Rattle.case_lines.specs.Reading.{seen};
ghost use Rattle.board_replay.specs.Boards.{opened_by, opened_or_skipped};
ghost use Rattle.board_replay.specs.Files.{is_logged, first_board, LoadsOn, TakesLine, Replayed};
ghost use Rattle.board_replay.specs.Loading.{handed, said_base};
ghost use Rattle.board_replay.specs.Replays.{Runs};
ghost use Rattle.board_replay.specs.Streams.{place, ReadsOn, ReadsUpTo, EndlessAt};

use crate::failure::Failure;
use crate::fault::Fault;
use crate::lines::Lines;
use crate::loaded::{Base, Loaded};
use crate::log::{Next, skip};
use crate::opening::open;
use crate::writing::write_whole;
use case_lines::Line;
use records::{write_case, write_opening};
use std::alloc::Global;
use std::io::{BufRead, Write};

// What became of a line while a board is loaded.
#[derive(Drop)]
enum Taken {
    // it says nothing
    Nothing,
    Loaded,
    // it is no line of what a board is loaded with
    Back(Line),
}

fn take_line(loaded: &mut Loaded, line: Line) -> Result<Taken, Failure>
    ensures { TakesLine (seen line) (handed loaded.old) result (handed loaded.new) }
{
    match line {
        Line::Nothing => Ok(Taken::Nothing),
        Line::Load(load) => {
            loaded.take(load)?;
            Ok(Taken::Loaded)
        }
        Line::Table(table) => {
            loaded.take_table(table)?;
            Ok(Taken::Loaded)
        }
        Line::Case(name) => Ok(Taken::Back(Line::Case(name))),
        Line::Entry(entry) => Ok(Taken::Back(Line::Entry(entry))),
        Line::Claim(claim) => Ok(Taken::Back(Line::Claim(claim))),
    }
}

// Whether a line is of a log.
fn is_logged(line: &Line) -> bool
    ensures { result ≡ is_logged (seen line.now) }
{
    matches!(line, Line::Entry(_) | Line::Claim(_))
}

// Collects what the next board is loaded with, up to the first line that is something else. That one is put back.
// Answers whether there was anything of a board.
fn load<R: BufRead>(
    alloc: Global,
    loaded: &mut Loaded,
    lines: &mut Lines<R>,
) -> Result<bool, Failure>
    ensures loads { LoadsOn (handed loaded.old) (place R.Read.remaining lines.old) result (handed loaded.new) (place R.Read.remaining lines.new) }
    ensures lines { ReadsUpTo (place R.Read.remaining lines.old) result (place R.Read.remaining lines.new) }
{
    let mut is_begun = false;
    loop {
        let Some(line) = lines.next(alloc)? else {
            return Ok(is_begun);
        };
        match take_line(loaded, line)? {
            Taken::Nothing => {}
            Taken::Loaded => is_begun = true,
            Taken::Back(line) => {
                is_begun |= is_logged(&line);
                lines.put_back(line);
                return Ok(is_begun);
            }
        }
    }
}

// Opens a board and runs its log. One that does not open is recorded as refused, and its log is passed over.
fn replay_board<R: BufRead, W: Write>(
    alloc: Global,
    loaded: &Loaded,
    base: &Base,
    lines: &mut Lines<R>,
    out: &mut W,
) -> Result<Next, Failure>
    ensures board { Runs (opened_or_skipped (opened_by (Some (said_base base.now)) (handed loaded.now))) (place R.Read.remaining lines.old) result (place R.Read.remaining lines.new) (W.contents out.old) (W.contents out.new) }
    ensures lines { ReadsOn (place R.Read.remaining lines.old) result (place R.Read.remaining lines.new) }
{
    match open(alloc, loaded, base, lines, out) {
        Err(Failure::Opening(refusal)) => {
            let mut record = Vec::new(alloc);
            write_opening(&mut record, refusal)?;
            write_whole(out, &record)?;
            skip(alloc, lines)
        }
        ended => ended,
    }
}

// Loads the next board and runs its log. One without a name is a board only if a line is of it.
fn first_board<R: BufRead, W: Write>(
    alloc: Global,
    is_named: bool,
    lines: &mut Lines<R>,
    out: &mut W,
) -> Result<Next, Failure>
    ensures board { Runs (first_board is_named) (place R.Read.remaining lines.old) result (place R.Read.remaining lines.new) (W.contents out.old) (W.contents out.new) }
    ensures lines { ReadsOn (place R.Read.remaining lines.old) result (place R.Read.remaining lines.new) }
{
    let mut loaded = Loaded::nothing(alloc);
    let is_begun = load(alloc, &mut loaded, lines)?;
    if is_named | is_begun {
        let Some(base) = &loaded.base else {
            return Err(Failure::Misplaced(Fault::NoTariff));
        };
        replay_board(alloc, &loaded, base, lines, out)
    } else {
        skip(alloc, lines)
    }
}

// Replays the boards of a case file, and writes the record of them.
pub fn replay<R: BufRead, W: Write>(
    alloc: Global,
    lines: &mut Lines<R>,
    out: &mut W,
) -> Result<(), Failure>
    ensures recorded { Replayed (place R.Read.remaining lines.old) result (place R.Read.remaining lines.new) (W.contents out.old) (W.contents out.new) }
    ensures endless { EndlessAt result (place R.Read.remaining lines.new) }
{
    let mut is_named = false;
    loop {
        let Some(name) = first_board(alloc, is_named, lines, out)? else {
            return Ok(());
        };
        let mut record = Vec::new(alloc);
        write_case(&mut record, &name)?;
        write_whole(out, &record)?;
        is_named = true;
    }
}
