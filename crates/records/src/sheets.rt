ghost use Rattle.std.specs.Prelude.{◌≡◌, ◌++◌, map, OnOk};
ghost use Rattle.std.specs.List.{join_with_byte};
ghost use Rattle.records.specs.Records.{hex, sheet_line};

use crate::appending::append;
use std::alloc::AllocError;

// Writes the line of a sheet.
pub(crate) fn write_sheet(out: &mut Vec<u8>, bytes: &[u8]) -> Result<(), AllocError>
    ensures { OnOk result (out.new.items ≡ out.old.items ++ sheet_line bytes.now) }
{
    write_bytes(out, bytes)?;
    out.push(b'\n')?;
    Ok(())
}

// Writes bytes in hexadecimal, with a blank between each two.
fn write_bytes(out: &mut Vec<u8>, bytes: &[u8]) -> Result<(), AllocError>
    ensures { OnOk result (out.new.items ≡ out.old.items ++ join_with_byte 32 (map hex bytes.now)) }
{
    let [first, rest @ ..] = bytes else {
        return Ok(());
    };
    write_byte(out, *first)?;
    for byte in rest {
        out.push(b' ')?;
        write_byte(out, *byte)?;
    }
    Ok(())
}

// Writes a byte in two digits.
fn write_byte(out: &mut Vec<u8>, byte: u8) -> Result<(), AllocError>
    ensures { OnOk result (out.new.items ≡ out.old.items ++ hex byte) }
{
    append(out, format_args!("{byte:02x}"))
}
