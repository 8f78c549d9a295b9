ghost use Rattle.std.specs.Prelude.{◌≡◌, ◌++◌, OnOk, OnErr};
ghost use Rattle.records.specs.Records.{case_record};

use std::alloc::AllocError;

// Writes the line that begins a case. Its name is bytes, since it may be no text.
pub fn write_case(out: &mut Vec<u8>, name: &[u8]) -> Result<(), AllocError>
    ensures record { OnOk result (out.new.items ≡ out.old.items ++ case_record name.now) }
    ensures kept { OnErr result (out.new.items ≡ out.old.items) }
{
    let mut record = Vec::new(*out.allocator());
    record.extend_from_slice(b"case ")?;
    record.extend_from_slice(name)?;
    record.push(b'\n')?;
    out.extend_from_slice(&record)
}
