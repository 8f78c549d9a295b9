ghost use Rattle.std.specs.Prelude.{◌≡◌};
ghost use Rattle.measures.specs.Heights.{held_level, level_model};
ghost use Rattle.measures.specs.HeightLaws.{level_laws};

use crate::shown::shown;
use crate::weights::Height;
use fares::{Gauges, LawfulMeasure, Measure};

const TOP_LEVEL: u8 = 7;

// A level above the highest one is held there, so that every hop has a weight.
fn height(level: u8) -> Height
    ensures { result ≡ held_level level }
{
    Height {
        value: level.min(TOP_LEVEL),
    }
}

// No instance of `Count`: its weight, its sum, its limit and its gauge are others, and what is left is `Measure` itself.

// The highest level ridden, shown in gauge 3.
#[derive(Clone, Copy, Debug, PartialEq, Eq)]
pub struct Level {}

impl Measure for Level {
    type Weight = Height;

    ghost model = { λ _. level_model };

    fn neutral(&self) -> Height {
        height(0)
    }

    fn add(&self, a: Height, b: Height) -> Height {
        height(a.value.max(b.value))
    }

    fn at_most(&self, a: Height, b: Height) -> bool {
        a.value <= b.value
    }

    fn gauges(&self, weight: Height) -> Gauges {
        shown(0, 0, 0, weight.value as u32)
    }

    fn start(&self, zone: u8) -> Height {
        height(0)
    }

    fn hop(&self, metres: u32, level: u8, zone: u8) -> Height {
        height(level)
    }
}

impl LawfulMeasure for Level {
    ghost lawful = { λ m. level_laws };
}
