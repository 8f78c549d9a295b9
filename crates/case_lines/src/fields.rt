ghost use Rattle.std.specs.Prelude.{◌≡◌, ◌≤◌, IfOk};
ghost use Rattle.case_lines.specs.Fields.{field_at, word_at, hop_at, stop_at, path_at, minima_at, rule_at, room_at, question_at, pair_at, measure_named, measure_at};
ghost use Rattle.measures.specs.Shown.{readings};
ghost use Rattle.case_lines.specs.Outcomes.{Gives};
ghost use Rattle.case_lines.specs.Words.{texts};

use crate::fault::{Fault, ReadError};
use crate::line::{MeasureName, Room};
use crate::numbers::{LARGEST, number};
use fares::Gauges;
use journeys::{Footpath, Question, Stop};
use rule_table::Rule;
use timetable::Hop;

const LARGEST_BYTE: u32 = 255;

const EVERY_EVENT: u32 = 65_535;

// A word, and the words after it.
pub(crate) fn word<'a, 'b>(words: &'b [&'a [u8]]) -> Result<(&'a [u8], &'b [&'a [u8]]), ReadError>
    ensures { Gives (λ x. (x.0.now, texts x.1.now)) result (word_at (texts words.now)) }
{
    match words {
        [first, rest @ ..] => Ok((*first, rest)),
        [] => Err(ReadError::Fault(Fault::MissingWord)),
    }
}

// A number up to the largest of its field, and the words after it.
#[tactic(auto, unfolding(crate::specs::Fields::field_at))]
pub(crate) fn field<'a, 'b>(
    words: &'b [&'a [u8]],
    largest: u32,
) -> Result<(u32, &'b [&'a [u8]]), ReadError>
    ensures field { Gives (λ x. (x.0, texts x.1.now)) result (field_at largest (texts words.now)) }
    ensures small { IfOk result (λ x. x.0 ≤ largest) }
{
    let (first, rest) = word(words)?;
    Ok((number(first, largest)?, rest))
}

#[tactic(auto, unfolding(crate::specs::Fields::field_at))]
pub(crate) fn byte_field<'a, 'b>(words: &'b [&'a [u8]]) -> Result<(u8, &'b [&'a [u8]]), ReadError>
    ensures { Gives (λ x. (x.0, texts x.1.now)) result (field_at 255 (texts words.now)) }
{
    let (value, rest) = field(words, LARGEST_BYTE)?;
    Ok((value as u8, rest))
}

#[tactic(auto, unfolding(crate::specs::Fields::hop_at))]
pub(crate) fn hop<'a, 'b>(words: &'b [&'a [u8]]) -> Result<(Hop, &'b [&'a [u8]]), ReadError>
    ensures { Gives (λ x. (x.0, texts x.1.now)) result (hop_at (texts words.now)) }
{
    let (trip, words) = field(words, LARGEST)?;
    let (from, words) = field(words, LARGEST)?;
    let (to, words) = field(words, LARGEST)?;
    let (departure, words) = field(words, LARGEST)?;
    let (arrival, words) = field(words, LARGEST)?;
    let (metres, words) = field(words, LARGEST)?;
    let (level, words) = byte_field(words)?;
    let (event, words) = byte_field(words)?;
    let (runs, words) = field(words, 1)?;
    let hop = Hop {
        trip,
        from,
        to,
        departure,
        arrival,
        metres,
        level,
        event,
        runs: runs == 1,
    };
    Ok((hop, words))
}

#[tactic(auto, unfolding(crate::specs::Fields::stop_at))]
pub(crate) fn stop<'a, 'b>(words: &'b [&'a [u8]]) -> Result<(Stop, &'b [&'a [u8]]), ReadError>
    ensures { Gives (λ x. (x.0, texts x.1.now)) result (stop_at (texts words.now)) }
{
    let (zone, words) = byte_field(words)?;
    let (class, words) = byte_field(words)?;
    Ok((Stop { zone, class }, words))
}

#[tactic(auto, unfolding(crate::specs::Fields::path_at))]
pub(crate) fn footpath<'a, 'b>(
    words: &'b [&'a [u8]],
) -> Result<(Footpath, &'b [&'a [u8]]), ReadError>
    ensures { Gives (λ x. (x.0, texts x.1.now)) result (path_at (texts words.now)) }
{
    let (from, words) = field(words, LARGEST)?;
    let (to, words) = field(words, LARGEST)?;
    let (seconds, words) = field(words, LARGEST)?;
    Ok((Footpath { from, to, seconds }, words))
}

fn gauges(metres: u32, stops: u32, zones: u32, level: u32) -> Gauges
    ensures { result ≡ readings metres stops zones level }
{
    Gauges {
        metres,
        stops,
        zones,
        level,
    }
}

#[tactic(auto, unfolding(crate::specs::Fields::minima_at))]
fn minima<'a, 'b>(words: &'b [&'a [u8]]) -> Result<(Gauges, &'b [&'a [u8]]), ReadError>
    ensures { Gives (λ x. (x.0, texts x.1.now)) result (minima_at (texts words.now)) }
{
    let (metres, words) = field(words, LARGEST)?;
    let (stops, words) = field(words, LARGEST)?;
    let (zones, words) = field(words, LARGEST)?;
    let (level, words) = field(words, LARGEST)?;
    Ok((gauges(metres, stops, zones, level), words))
}

#[tactic(auto, unfolding(crate::specs::Fields::rule_at))]
pub(crate) fn rule<'a, 'b>(words: &'b [&'a [u8]]) -> Result<(Rule, &'b [&'a [u8]]), ReadError>
    ensures { Gives (λ x. (x.0, texts x.1.now)) result (rule_at (texts words.now)) }
{
    let (ticket, words) = byte_field(words)?;
    let (target, words) = byte_field(words)?;
    let (events, words) = field(words, EVERY_EVENT)?;
    let (minima, words) = minima(words)?;
    let rule = Rule {
        ticket,
        target,
        events: events as u16,
        minima,
    };
    Ok((rule, words))
}

#[tactic(auto, unfolding(crate::specs::Fields::room_at))]
pub(crate) fn room<'a, 'b>(words: &'b [&'a [u8]]) -> Result<(Room, &'b [&'a [u8]]), ReadError>
    ensures { Gives (λ x. (x.0, texts x.1.now)) result (room_at (texts words.now)) }
{
    let (labels, words) = field(words, LARGEST)?;
    let (aboard, words) = field(words, LARGEST)?;
    let (bytes, words) = field(words, LARGEST)?;
    let (legs, words) = field(words, LARGEST)?;
    let room = Room {
        labels,
        aboard,
        bytes,
        legs,
    };
    Ok((room, words))
}

#[tactic(auto, unfolding(crate::specs::Fields::question_at))]
pub(crate) fn question<'a, 'b>(
    words: &'b [&'a [u8]],
) -> Result<(Question, &'b [&'a [u8]]), ReadError>
    ensures { Gives (λ x. (x.0, texts x.1.now)) result (question_at (texts words.now)) }
{
    let (origin, words) = field(words, LARGEST)?;
    let (destination, words) = field(words, LARGEST)?;
    let (departure, words) = field(words, LARGEST)?;
    let (rides, words) = field(words, LARGEST)?;
    let question = Question {
        origin,
        destination,
        departure,
        rides,
    };
    Ok((question, words))
}

// Two numbers.
#[tactic(auto, unfolding(crate::specs::Fields::pair_at))]
pub(crate) fn pair<'a, 'b>(words: &'b [&'a [u8]]) -> Result<(u32, u32, &'b [&'a [u8]]), ReadError>
    ensures { Gives (λ x. (x.0, x.1, texts x.2.now)) result (pair_at (texts words.now)) }
{
    let (first, words) = field(words, LARGEST)?;
    let (second, words) = field(words, LARGEST)?;
    Ok((first, second, words))
}

fn measure_named(name: &[u8]) -> Result<MeasureName, ReadError>
    ensures { Gives (λ m. m) result (measure_named name.now) }
{
    if name == b"metres".as_slice() {
        Ok(MeasureName::Metres)
    } else if name == b"stops".as_slice() {
        Ok(MeasureName::Stops)
    } else if name == b"zones".as_slice() {
        Ok(MeasureName::Zones)
    } else if name == b"level".as_slice() {
        Ok(MeasureName::Level)
    } else if name == b"all".as_slice() {
        Ok(MeasureName::All)
    } else {
        Err(ReadError::Fault(Fault::UnknownWord))
    }
}

#[tactic(auto, unfolding(crate::specs::Fields::measure_at))]
pub(crate) fn measure<'a, 'b>(
    words: &'b [&'a [u8]],
) -> Result<(MeasureName, &'b [&'a [u8]]), ReadError>
    ensures { Gives (λ x. (x.0, texts x.1.now)) result (measure_at (texts words.now)) }
{
    let (name, words) = word(words)?;
    Ok((measure_named(name)?, words))
}
