ghost use Rattle.std.specs.Prelude.{◌≡◌, ◌++◌, OnOk};
ghost use Rattle.planner.specs.Refusals.{cause, field_number, list_number, output_number};
ghost use Rattle.records.specs.Records.{refused};

use crate::refusing::write_refused;
use planner::{Field, NetworkList, OutputList, Refusal};
use std::alloc::AllocError;

// Writes the line of a question that was not answered.
pub(crate) fn write_unanswered(out: &mut Vec<u8>, refusal: Refusal) -> Result<(), AllocError>
    ensures { OnOk result (out.new.items ≡ out.old.items ++ refused (cause refusal).number (cause refusal).values) }
{
    match refusal {
        Refusal::Question(field) => write_refused(out, 9, &[field_number(field)]),
        Refusal::Network { list, place } => write_refused(out, 10, &[list_number(list), place]),
        Refusal::ShortOutput(output) => write_refused(out, 11, &[output_number(output)]),
        Refusal::StoreFull(labels) => write_refused(out, 12, &[labels]),
        Refusal::AboardFull(hop) => write_refused(out, 13, &[hop as usize]),
        Refusal::ManyOffers(offers) => write_refused(out, 14, &[offers]),
    }
}

// The number of a field of a question.
fn field_number(field: Field) -> usize
    ensures { result ≡ field_number field }
{
    match field {
        Field::Origin => 0,
        Field::Destination => 1,
        Field::Departure => 2,
        Field::Rides => 3,
        Field::Count => 4,
    }
}

// The number of a list that an answer rests on.
fn list_number(list: NetworkList) -> usize
    ensures { result ≡ list_number list }
{
    match list {
        NetworkList::Stops => 0,
        NetworkList::Footpaths => 1,
        NetworkList::Hops => 2,
    }
}

// The number of a list that an answer is written to.
fn output_number(output: OutputList) -> usize
    ensures { result ≡ output_number output }
{
    match output {
        OutputList::Sheet => 0,
        OutputList::Legs => 1,
    }
}
