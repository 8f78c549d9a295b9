ghost use Rattle.std.specs.Prelude.{◌≡◌, true, Some, None, IfSome};
ghost use Rattle.std.specs.Io.BufRead.{strip_last};
ghost use Rattle.board_replay.specs.Streams.{place, left_at, Gets, Reads, CountsLine, Numbers};

use crate::failure::Failure;
use case_lines::{Line, read_line};
use std::alloc::Global;
use std::io::BufRead;

const LINE_FEED: u8 = b'\n';

// The lines of a case file, as they come.
#[derive(Drop)]
pub struct Lines<R> {
    reader: R,
    // of the line that is read
    text: Vec<u8>,
    // how many lines were read, which is the number of the last of them
    number: u64,
    // a line that was read and put back
    kept: Option<Line>,
}

// Takes the line feed at the end away.
fn strip(text: &mut Vec<u8>)
    ensures { text.new.items ≡ strip_last 10 text.old.items }
{
    if text.last() == Some(&LINE_FEED) {
        text.pop();
    }
}

impl<R: BufRead> Lines<R> {
    pub fn new(alloc: Global, reader: R) -> Lines<R>
        ensures reader { result.reader ≡ reader }
        ensures kept { result.kept ≡ None }
        ensures number { result.number ≡ 0 }
    {
        Lines {
            reader,
            text: Vec::new(alloc),
            number: 0,
            kept: None,
        }
    }

    // The number of the line that was read last, from 1 on.
    pub fn number(&self) -> u64
        ensures { result ≡ self.now.number }
    {
        self.number
    }

    // Reads a line without its line feed; false at the end. More lines than a number can count are too many.
    fn read(&mut self) -> Result<bool, Failure>
        ensures line { IfSome (R.Read.remaining self.old.reader) (λ text. Reads text result self.new.text.items (R.Read.remaining self.new.reader)) }
        ensures kept { self.new.kept ≡ self.old.kept }
        ensures number { CountsLine self.old.number result self.new.number }
    {
        self.text.clear();
        if self.reader.read_until(LINE_FEED, &mut self.text)? == 0 {
            return Ok(false);
        }
        self.number = self.number.checked_add(1).ok_or(Failure::Endless)?;
        strip(&mut self.text);
        Ok(true)
    }

    // The next line, or nothing at the end.
    pub(crate) fn next(&mut self, alloc: Global) -> Result<Option<Line>, Failure>
        ensures events { IfSome (left_at (place R.Read.remaining self.old)) (λ events. Gets events result (left_at (place R.Read.remaining self.new))) }
        ensures kept { self.new.kept ≡ None }
        ensures number { Numbers (place R.Read.remaining self.old) result (place R.Read.remaining self.new) }
    {
        if let Some(line) = self.kept.take() {
            return Ok(Some(line));
        }
        if !self.read()? {
            return Ok(None);
        }
        Ok(Some(read_line(alloc, &self.text)?))
    }

    // Gives a line back, to be read once more.
    pub(crate) fn put_back(&mut self, line: Line)
        ensures kept { self.new.kept ≡ Some line }
        ensures reader { self.new.reader ≡ self.old.reader }
        ensures number { self.new.number ≡ self.old.number }
    {
        self.kept = Some(line);
    }
}
