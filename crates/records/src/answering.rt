ghost use Rattle.std.specs.Prelude.{◌≡◌, ◌++◌, OnOk};
ghost use Rattle.records.specs.Records.{counts_line, taken_record};
ghost use Rattle.day_planner.specs.declared.reply.Reply.TheVariants.{Answered};

use crate::appending::append;
use crate::front::front_of;
use crate::legs::write_legs;
use crate::sheets::write_sheet;
use journeys::Leg;
use planner::Answer;
use std::alloc::AllocError;

// Writes the lines of an answered question: the counts, the sheet, and the legs.
pub(crate) fn write_answered(
    out: &mut Vec<u8>,
    answer: Answer,
    sheet: &[u8],
    legs: &[Leg],
) -> Result<(), AllocError>
    ensures { OnOk result (out.new.items ≡ out.old.items ++ taken_record (Answered answer) sheet.now legs.now) }
{
    write_counts(out, answer)?;
    write_sheet(out, front_of(sheet, answer.bytes))?;
    write_legs(out, front_of(legs, answer.legs))
}

// Writes how much the question wrote of each list.
fn write_counts(out: &mut Vec<u8>, answer: Answer) -> Result<(), AllocError>
    ensures { OnOk result (out.new.items ≡ out.old.items ++ counts_line answer) }
{
    let Answer {
        rows,
        labels,
        bytes,
        legs,
    } = answer;
    append(
        out,
        format_args!("rows {rows} labels {labels} bytes {bytes} legs {legs}\n"),
    )
}
