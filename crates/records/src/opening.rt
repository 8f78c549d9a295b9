ghost use Rattle.std.specs.Prelude.{◌≡◌, ◌++◌, OnOk, OnErr};
ghost use Rattle.records.specs.Records.{opening_record};

use crate::opening_refusal::OpeningRefusal;
use crate::refusing::write_refused;
use std::alloc::AllocError;

// The place of no rule, which stands for the rest of a table.
const REST: usize = 128;

// Writes the line of a board that was not opened.
pub fn write_opening(out: &mut Vec<u8>, refusal: OpeningRefusal) -> Result<(), AllocError>
    ensures record { OnOk result (out.new.items ≡ out.old.items ++ opening_record refusal) }
    ensures kept { OnErr result (out.new.items ≡ out.old.items) }
{
    let mut record = Vec::new(*out.allocator());
    write_cause(&mut record, refusal)?;
    out.extend_from_slice(&record)
}

// Writes the line of a refusal to open, by its number and its values.
fn write_cause(out: &mut Vec<u8>, refusal: OpeningRefusal) -> Result<(), AllocError>
    ensures { OnOk result (out.new.items ≡ out.old.items ++ opening_record refusal) }
{
    match refusal {
        OpeningRefusal::Timetable(timetable::Refusal::BrokenRule(place)) => {
            write_refused(out, 1, &[place])
        }
        OpeningRefusal::Timetable(timetable::Refusal::IntervalLimits) => write_refused(out, 2, &[]),
        OpeningRefusal::Table(rule_table::Refusal::Rest) => write_refused(out, 3, &[REST]),
        OpeningRefusal::Table(rule_table::Refusal::BadRule { place }) => {
            write_refused(out, 3, &[place as usize])
        }
        OpeningRefusal::Fares(_) => write_refused(out, 4, &[]),
    }
}
