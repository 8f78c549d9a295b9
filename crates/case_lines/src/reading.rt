ghost use Rattle.std.specs.Prelude.{◌≡◌};
ghost use Rattle.case_lines.specs.Outcomes.{Gives};
ghost use Rattle.case_lines.specs.Reading.{seen, end_of, case_of, table_of, is_claim, claim_of, bare_of, ask_of, load_at, load_of, entry_at, entry_of, said_by, line_of_words, line_of};
ghost use Rattle.case_lines.specs.Words.{texts};
ghost use Rattle.case_lines.specs.Written.{NumbersReadBack, ReadsBack};

use crate::fault::{Fault, ReadError};
use crate::fields::{
    byte_field, field, footpath, hop, measure, pair, question, room, rule, stop, word,
};
use crate::keyword::{EntryWord, Keyword, LoadWord, kind_of};
use crate::line::{Claim, Extra, Line, Load, PriceTable};
use crate::numbers::{LARGEST, bytes, numbers};
use crate::words::words;
use day_planner::Entry;
use journeys::Question;
use std::alloc::Global;

const REMARK: u8 = b'#';

fn end(words: &[&[u8]]) -> Result<(), ReadError>
    ensures { Gives (λ x. x) result (end_of (texts words.now)) }
{
    if !words.is_empty() {
        return Err(ReadError::Fault(Fault::ExtraWord));
    }
    Ok(())
}

#[tactic(auto, unfolding(crate::specs::Reading::case_of))]
fn case(alloc: Global, words: &[&[u8]]) -> Result<Line, ReadError>
    ensures { Gives seen result (case_of (texts words.now)) }
{
    let (name, words) = word(words)?;
    end(words)?;
    Ok(Line::Case(Vec::from_slice(alloc, name)?))
}

// A table takes all words that are left.
#[tactic(auto, unfolding(crate::specs::Reading::table_of))]
fn table(alloc: Global, words: &[&[u8]]) -> Result<Line, ReadError>
    ensures { Gives seen result (table_of (texts words.now)) }
{
    let (class_0, words) = byte_field(words)?;
    let (class_1, words) = byte_field(words)?;
    let (class_2, words) = byte_field(words)?;
    let (class_3, words) = byte_field(words)?;
    let prices = numbers(alloc, words)?;
    Ok(Line::Table(PriceTable {
        starts: [class_0, class_1, class_2, class_3],
        prices,
    }))
}

// Whether a sheet follows.
fn is_claim(words: &[&[u8]]) -> bool
    ensures { result ≡ is_claim (texts words.now) }
{
    match words {
        [sign, ..] => *sign == b"=".as_slice(),
        [] => false,
    }
}

// A sheet takes all words that are left.
#[tactic(auto, unfolding(crate::specs::Reading::claim_of))]
fn claim(alloc: Global, question: Question, words: &[&[u8]]) -> Result<Line, ReadError>
    ensures { Gives seen result (claim_of question (texts words.now)) }
{
    let sheet = bytes(alloc, words)?;
    Ok(Line::Claim(Claim { question, sheet }))
}

#[tactic(auto, unfolding(crate::specs::Reading::bare_of))]
fn bare(question: Question, words: &[&[u8]]) -> Result<Line, ReadError>
    ensures { Gives seen result (bare_of question (texts words.now)) }
{
    end(words)?;
    Ok(Line::Entry(Entry::Ask(question)))
}

#[tactic(auto, unfolding(crate::specs::Reading::ask_of))]
fn ask(alloc: Global, words: &[&[u8]]) -> Result<Line, ReadError>
    ensures { Gives seen result (ask_of (texts words.now)) }
{
    let (question, words) = question(words)?;
    if is_claim(words) {
        claim(alloc, question, &words[1..])
    } else {
        bare(question, words)
    }
}

#[tactic(auto, unfolding(crate::specs::Reading::entry_at))]
fn entry<'a, 'b>(
    kind: EntryWord,
    words: &'b [&'a [u8]],
) -> Result<(Entry, &'b [&'a [u8]]), ReadError>
    ensures { Gives (λ x. (x.0, texts x.1.now)) result (entry_at kind (texts words.now)) }
{
    match kind {
        EntryWord::Cancel => {
            let (trip, words) = field(words, LARGEST)?;
            Ok((Entry::Cancel(trip), words))
        }
        EntryWord::Reinstate => {
            let (trip, words) = field(words, LARGEST)?;
            Ok((Entry::Reinstate(trip), words))
        }
        EntryWord::Delay => {
            let (trip, seconds, words) = pair(words)?;
            Ok((Entry::Delay { trip, seconds }, words))
        }
    }
}

#[tactic(auto, unfolding(crate::specs::Reading::load_at))]
fn load<'a, 'b>(kind: LoadWord, words: &'b [&'a [u8]]) -> Result<(Load, &'b [&'a [u8]]), ReadError>
    ensures { Gives (λ x. (x.0, texts x.1.now)) result (load_at kind (texts words.now)) }
{
    match kind {
        LoadWord::List => Ok((Load::HopList, words)),
        LoadWord::Line => {
            let (interval, trips, words) = pair(words)?;
            Ok((Load::IntervalLine { interval, trips }, words))
        }
        LoadWord::Hop => {
            let (hop, words) = hop(words)?;
            Ok((Load::Hop(hop), words))
        }
        LoadWord::Stop => {
            let (stop, words) = stop(words)?;
            Ok((Load::Stop(stop), words))
        }
        LoadWord::Path => {
            let (path, words) = footpath(words)?;
            Ok((Load::Footpath(path), words))
        }
        LoadWord::Measure => {
            let (measure, words) = measure(words)?;
            Ok((Load::Measure(measure), words))
        }
        LoadWord::Rule => {
            let (rule, words) = rule(words)?;
            Ok((Load::Rule(rule), words))
        }
        LoadWord::Ladder => {
            let (first, step, words) = pair(words)?;
            Ok((Load::Ladder { first, step }, words))
        }
        LoadWord::Surcharge => {
            let (event, words) = byte_field(words)?;
            let (amount, words) = field(words, LARGEST)?;
            Ok((Load::Surcharge(Extra { event, amount }), words))
        }
        LoadWord::Room => {
            let (room, words) = room(words)?;
            Ok((Load::Room(room), words))
        }
    }
}

#[tactic(auto, unfolding(crate::specs::Reading::load_of))]
fn load_line(kind: LoadWord, words: &[&[u8]]) -> Result<Line, ReadError>
    ensures { Gives seen result (load_of kind (texts words.now)) }
{
    let (load, words) = load(kind, words)?;
    end(words)?;
    Ok(Line::Load(load))
}

#[tactic(auto, unfolding(crate::specs::Reading::entry_of))]
fn entry_line(kind: EntryWord, words: &[&[u8]]) -> Result<Line, ReadError>
    ensures { Gives seen result (entry_of kind (texts words.now)) }
{
    let (entry, words) = entry(kind, words)?;
    end(words)?;
    Ok(Line::Entry(entry))
}

fn line_by(alloc: Global, kind: Keyword, words: &[&[u8]]) -> Result<Line, ReadError>
    ensures { Gives seen result (said_by kind (texts words.now)) }
{
    match kind {
        Keyword::Case => case(alloc, words),
        Keyword::Table => table(alloc, words),
        Keyword::Ask => ask(alloc, words),
        Keyword::Load(kind) => load_line(kind, words),
        Keyword::Entry(kind) => entry_line(kind, words),
    }
}

fn line_of(alloc: Global, words: &[&[u8]]) -> Result<Line, ReadError>
    ensures { Gives seen result (line_of_words (texts words.now)) }
{
    match words {
        [] => Ok(Line::Nothing),
        [first, rest @ ..] => match kind_of(first) {
            Some(kind) => line_by(alloc, kind, rest),
            None => Err(ReadError::Fault(Fault::UnknownWord)),
        },
    }
}

// What a line says, without the line feed at its end.
pub fn read_line(alloc: Global, text: &[u8]) -> Result<Line, ReadError>
    ensures said { Gives seen result (line_of text.now) }
    ensures numbers { NumbersReadBack }
    ensures back { ReadsBack text.now result }
{
    if let [REMARK, ..] = text {
        return Ok(Line::Nothing);
    }
    let words = words(alloc, text)?;
    line_of(alloc, words.as_slice())
}
