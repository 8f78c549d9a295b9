ghost use Rattle.std.specs.Prelude.{◌≡◌, ◌++◌, OnOk};
ghost use Rattle.std.specs.List.{flat_map};
ghost use Rattle.records.specs.Records.{kind_number, leg_line};

use crate::appending::append;
use journeys::{Leg, LegKind};
use std::alloc::AllocError;

// Writes a line for each leg.
pub(crate) fn write_legs(out: &mut Vec<u8>, legs: &[Leg]) -> Result<(), AllocError>
    ensures { OnOk result (out.new.items ≡ out.old.items ++ flat_map leg_line legs.now) }
{
    for leg in legs {
        write_leg(out, *leg)?;
    }
    Ok(())
}

// Writes a leg by its row, its kind, and where it begins and ends.
fn write_leg(out: &mut Vec<u8>, leg: Leg) -> Result<(), AllocError>
    ensures { OnOk result (out.new.items ≡ out.old.items ++ leg_line leg) }
{
    let Leg {
        row,
        kind,
        first,
        last,
    } = leg;
    let kind = kind_number(kind);
    append(out, format_args!("{row} {kind} {first} {last}\n"))
}

// The kind of a leg as a record has it.
fn kind_number(kind: LegKind) -> u8
    ensures { result ≡ kind_number kind }
{
    match kind {
        LegKind::Walk => 0,
        LegKind::Ride => 1,
    }
}
