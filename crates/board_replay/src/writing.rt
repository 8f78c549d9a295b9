ghost use Rattle.board_replay.specs.Writes.{Writes};

use std::io;
use std::io::{ErrorKind, Write};

// Writes a text whole. Where that fails, a front part of it was written.
pub(crate) fn write_whole<W: Write>(out: &mut W, text: &[u8]) -> io::Result<()>
    ensures { Writes result text.now (W.contents out.old) (W.contents out.new) }
{
    let mut written = 0;
    for _ in 0..u64::MAX {
        if written >= text.len() {
            return Ok(());
        }
        match out.write(&text[written..]) {
            Ok(count) => {
                if count == 0 {
                    return Err(io::Error::from(ErrorKind::WriteZero));
                }
                written += count;
            }
            Err(error) => {
                if error.kind() != ErrorKind::Interrupted {
                    return Err(error);
                }
            }
        }
    }
    Err(io::Error::from(ErrorKind::Interrupted))
}
