ghost use Rattle.std.specs.Prelude.{◌≡◌, ◌++◌, OnOk, OnErr};
ghost use Rattle.records.specs.Records.{refusal_record, reply_record};

use crate::answering::write_answered;
use crate::refusing::write_refused;
use crate::unanswered::write_unanswered;
use day_planner::{Refusal, Reply};
use journeys::Leg;
use std::alloc::AllocError;

// Writes the lines of a reply. `sheet` and `legs` are what the memory holds after it: an answer says
// how much of each is its own.
pub fn write_reply(
    out: &mut Vec<u8>,
    reply: Result<Reply, Refusal>,
    sheet: &[u8],
    legs: &[Leg],
) -> Result<(), AllocError>
    ensures record { OnOk result (out.new.items ≡ out.old.items ++ reply_record reply sheet.now legs.now) }
    ensures kept { OnErr result (out.new.items ≡ out.old.items) }
{
    let mut record = Vec::new(*out.allocator());
    write_lines(&mut record, reply, sheet, legs)?;
    out.extend_from_slice(&record)
}

// Writes the lines of an entry that was taken, or the line of one that was refused.
fn write_lines(
    out: &mut Vec<u8>,
    reply: Result<Reply, Refusal>,
    sheet: &[u8],
    legs: &[Leg],
) -> Result<(), AllocError>
    ensures { OnOk result (out.new.items ≡ out.old.items ++ reply_record reply sheet.now legs.now) }
{
    match reply {
        Ok(Reply::Done) => out.extend_from_slice(b"ok\n"),
        Ok(Reply::Answered(answer)) => write_answered(out, answer, sheet, legs),
        Err(refusal) => write_refusal(out, refusal),
    }
}

// Writes the line of a refused entry.
fn write_refusal(out: &mut Vec<u8>, refusal: Refusal) -> Result<(), AllocError>
    ensures { OnOk result (out.new.items ≡ out.old.items ++ refusal_record refusal) }
{
    match refusal {
        Refusal::Trip(refusal) => {
            write_refused(out, refusal.number(), &[refusal.trip() as usize])
        }
        Refusal::Question(refusal) => write_unanswered(out, refusal),
    }
}
