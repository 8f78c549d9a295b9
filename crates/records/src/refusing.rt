ghost use Rattle.std.specs.Prelude.{◌≡◌, ◌++◌, OnOk};
ghost use Rattle.records.specs.Records.{refused};

use crate::appending::append;
use std::alloc::AllocError;

// Writes the line of a refusal, by its number and its values.
pub(crate) fn write_refused(
    out: &mut Vec<u8>,
    number: u8,
    values: &[usize],
) -> Result<(), AllocError>
    ensures { OnOk result (out.new.items ≡ out.old.items ++ refused number values.now) }
{
    append(out, format_args!("refused {number}"))?;
    for value in values {
        append(out, format_args!(" {value}"))?;
    }
    out.push(b'\n')?;
    Ok(())
}
