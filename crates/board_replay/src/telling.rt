ghost use Rattle.std.specs.Prelude.{IfOk};
ghost use Rattle.std.specs.Fmt.InlineText.{inline_text};
ghost use Rattle.std.specs.Io.Buffered.{writer_contents, writer_buffer};
ghost use Rattle.board_replay.specs.Endings.{Ended, GoesThrough, Reports, at_first};
ghost use Rattle.board_replay.specs.Files.{Replayed};
ghost use Rattle.board_replay.specs.Streams.{place, EndlessAt};
ghost use Rattle.board_replay.specs.Told.{IsTold};

use crate::failure::Failure;
use crate::lines::Lines;
use crate::replaying::replay;
use crate::writing::write_whole;
use std::alloc::Global;
use std::fmt::{InlineText, Write as _};
use std::io::{BufRead, BufWriter, Write};
use std::process::ExitCode;
use std::{fmt, io};

// room for the system's words of a failure, which are at most 300 bytes
const LONGEST_WORDS: usize = 400;

// and for a line of them, or one that names a line of the file
const LONGEST_LINE: usize = 500;

// Replays, and sees that all that was written goes through the buffer, also where a line ends the replay. Where that fails, this
// is told in place of what ended the replay.
fn replay_through<R: BufRead, W: Write + Drop>(
    alloc: Global,
    lines: &mut Lines<R>,
    out: &mut BufWriter<W>,
) -> Result<(), Failure>
    ensures recorded { Replayed (place R.Read.remaining lines.old) result (place R.Read.remaining lines.new) (writer_contents W.contents out.old) (writer_contents W.contents out.new) }
    ensures endless { EndlessAt result (place R.Read.remaining lines.new) }
    ensures through { GoesThrough result (writer_buffer out.new) }
{
    let ended = replay(alloc, lines, out);
    out.flush()?;
    ended
}

// The line that a failure is told in. It needs no memory.
fn told(failure: Failure, number: u64) -> Result<InlineText<LONGEST_LINE>, fmt::Error>
    ensures { IfOk result (λ line. IsTold failure number (inline_text line)) }
{
    let mut line = InlineText::new();
    match failure {
        Failure::Unreadable(fault) => writeln!(line, "line {number}: {fault}")?,
        Failure::Misplaced(fault) => writeln!(line, "line {number}: {fault}")?,
        Failure::Memory | Failure::Endless => writeln!(line, "{failure}")?,
        Failure::Input(error) => {
            let words = InlineText::<LONGEST_WORDS>::of(error);
            writeln!(line, "{}", words.as_str())?
        }
        Failure::Opening(refusal) => {
            let words = InlineText::<LONGEST_WORDS>::of(refusal);
            writeln!(line, "{}", words.as_str())?
        }
    }
    Ok(line)
}

// Tells why a replay ended before its input did, and answers the status.
fn report<E: Write>(ended: Result<(), Failure>, number: u64, err: &mut E) -> io::Result<ExitCode>
    ensures { Reports ended number result (E.contents err.old) (E.contents err.new) }
{
    let Err(failure) = ended else {
        return Ok(ExitCode::SUCCESS);
    };
    let line = told(failure, number)?;
    write_whole(err, line.as_str().as_bytes())?;
    Ok(ExitCode::FAILURE)
}

/// Replays a case file, writes the record of it, tells why that ended before the file did, and answers the status of a
/// program that does no more than this: 0 if the whole record was written, else 1.
///
/// # Errors
///
/// If the failure cannot be told.
pub fn replay_file<R: BufRead + Drop, W: Write + Drop, E: Write>(
    alloc: Global,
    reader: R,
    out: &mut BufWriter<W>,
    err: &mut E,
) -> io::Result<ExitCode>
    ensures { Ended (R.Read.remaining reader) result (writer_contents W.contents out.old) (writer_contents W.contents out.new) (writer_buffer out.new) (E.contents err.old) (E.contents err.new) }
{
    let mut lines = Lines::new(alloc, reader);
    let ended = replay_through(alloc, &mut lines, out);
    report(ended, lines.number(), err)
}
