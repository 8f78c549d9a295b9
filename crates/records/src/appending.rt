ghost use Rattle.std.specs.Prelude.{◌≡◌, ◌++◌, OnOk, IfSome};

use std::alloc::AllocError;
use std::fmt::Display;
use std::io::Write;

// Appends a text.
pub(crate) fn append<D: Display + Drop>(out: &mut Vec<u8>, text: D) -> Result<(), AllocError>
    ensures { OnOk result (IfSome (D.output text) (λ bytes. out.new.items ≡ out.old.items ++ bytes)) }
{
    // a vector's only error is that memory ran out
    out.write_fmt(text).map_err(|_| AllocError)
}
