ghost use Rattle.std.specs.Prelude.{◌≡◌};
ghost use Rattle.journeys.specs.declared.leg.LegKind.TheVariants.{Walk, Ride};

use journeys::{Leg, LegKind};
use std::fmt;

// Bytes in hexadecimal, with a blank between them.
#[derive(Drop)]
pub struct Hex<'a>(pub &'a [u8]);

impl fmt::Display for Hex<'_> {
    fn fmt<W: fmt::Write>(&self, f: &mut fmt::Formatter<W>) -> fmt::Result {
        let mut gap = "";
        for byte in self.0 {
            write!(f, "{gap}{byte:02x}")?;
            gap = " ";
        }
        Ok(())
    }
}

// A leg as its row, its kind, and where it begins and ends.
#[derive(Drop)]
pub struct LegLine<'a>(pub &'a Leg);

fn kind_digit(kind: LegKind) -> u8
    ensures { elim kind [ Walk ↦ result ≡ 0 | Ride ↦ result ≡ 1 ] }
{
    kind as u8
}

impl fmt::Display for LegLine<'_> {
    fn fmt<W: fmt::Write>(&self, f: &mut fmt::Formatter<W>) -> fmt::Result {
        let Leg {
            row,
            kind,
            first,
            last,
        } = *self.0;
        let kind = kind_digit(kind);
        write!(f, "{row} {kind} {first} {last}")
    }
}
