use crate::text::Text;
use std::io;
use std::io::Write;

/// How long the name is, in bytes.
const NAME: u32 = 5000;

/// So many times trips are cancelled, delayed and reinstated.
const TURNS: u32 = 2000;

/// An interval line with the most trips, a name that is long, and a log that is.
pub(crate) fn write_board(out: &mut Text) -> io::Result<()> {
    write!(out, "case ")?;
    for _ in 0..NAME {
        write!(out, "n")?;
    }
    writeln!(out)?;
    writeln!(out, "stop 11 0")?;
    writeln!(out, "stop 21 0")?;
    writeln!(out, "line 800 200")?;
    for hop in 0..16u32 {
        let departure = 600 + hop * 700;
        let (from, to) = (hop % 2, (hop + 1) % 2);
        writeln!(
            out,
            "hop 0 {from} {to} {departure} {} 100000 7 2 1",
            departure + 700
        )?;
    }
    writeln!(out, "ladder 999999 99999")?;
    writeln!(out, "surcharge 2 99999")?;
    for turn in 0..TURNS {
        let trip = turn * 3 % 211;
        writeln!(out, "cancel {trip}")?;
        writeln!(out, "delay {} {}", turn * 5 % 211, turn * 37 % 7300)?;
        if turn % 3 > 0 {
            writeln!(out, "reinstate {trip}")?;
        }
        if turn % 50 == 0 {
            writeln!(out, "ask 0 1 {} 2", turn * 80)?;
        }
    }
    Ok(())
}
