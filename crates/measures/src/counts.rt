ghost use Rattle.measures.specs.Amounts.{count_model};
ghost use Rattle.measures.specs.AmountLaws.{count_laws};

use crate::shown::shown;
use crate::weights::Amount;
use fares::{Gauges, LawfulMeasure, Measure};

// What is ridden, added up: one for each hop, shown in gauge 1, or else its metres, shown in gauge 0.
#[derive(Clone, Copy, Debug, PartialEq, Eq)]
pub struct Count<const EACH_HOP: bool> {}

// Metres ridden.
pub type Metres = Count<false>;

// Stops passed.
pub type Stops = Count<true>;

impl<const EACH_HOP: bool> Measure for Count<EACH_HOP> {
    type Weight = Amount;

    ghost model = { λ _. count_model EACH_HOP };

    fn neutral(&self) -> Amount {
        Amount { value: 0 }
    }

    // A sum past the largest number stays there, so that a longer way never weighs less.
    fn add(&self, a: Amount, b: Amount) -> Amount {
        Amount {
            value: a.value.saturating_add(b.value),
        }
    }

    fn at_most(&self, a: Amount, b: Amount) -> bool {
        a.value <= b.value
    }

    fn gauges(&self, weight: Amount) -> Gauges {
        if EACH_HOP {
            shown(0, weight.value, 0, 0)
        } else {
            shown(weight.value, 0, 0, 0)
        }
    }

    fn start(&self, zone: u8) -> Amount {
        Amount { value: 0 }
    }

    fn hop(&self, metres: u32, level: u8, zone: u8) -> Amount {
        Amount {
            value: if EACH_HOP { 1 } else { metres },
        }
    }
}

impl<const EACH_HOP: bool> LawfulMeasure for Count<EACH_HOP> {
    ghost lawful = { λ _. count_laws EACH_HOP };
}
