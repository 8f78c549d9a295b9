ghost use Rattle.std.specs.Prelude.{◌≡◌};
ghost use Rattle.measures.specs.Pairs.{pair_model};
ghost use Rattle.measures.specs.Shown.{greater_readings};
ghost use Rattle.measures.specs.PairLaws.{pair_laws};

use crate::shown::shown;
use crate::weights::Both;
use fares::{Gauges, LawfulMeasure, Measure};

// The greater reading in each gauge, so that neither part hides the other.
fn greater(g: Gauges, h: Gauges) -> Gauges
    ensures { result ≡ greater_readings g h }
{
    shown(
        g.metres.max(h.metres),
        g.stops.max(h.stops),
        g.zones.max(h.zones),
        g.level.max(h.level),
    )
}

// Any two measures side by side, as pairs of weights.
#[derive(Clone, Copy, Debug, PartialEq, Eq)]
pub struct Pair<M, N> {
    pub first: M,
    pub second: N,
}

impl<M: Measure, N: Measure> Measure for Pair<M, N> {
    type Weight = Both<M::Weight, N::Weight>;

    ghost model = { λ p. pair_model (M.Measure.model p.first) (N.Measure.model p.second) };

    fn neutral(&self) -> Self::Weight {
        Both {
            first: self.first.neutral(),
            second: self.second.neutral(),
        }
    }

    fn add(&self, a: Self::Weight, b: Self::Weight) -> Self::Weight {
        Both {
            first: self.first.add(a.first, b.first),
            second: self.second.add(a.second, b.second),
        }
    }

    fn at_most(&self, a: Self::Weight, b: Self::Weight) -> bool {
        self.first.at_most(a.first, b.first) && self.second.at_most(a.second, b.second)
    }

    fn gauges(&self, weight: Self::Weight) -> Gauges {
        greater(
            self.first.gauges(weight.first),
            self.second.gauges(weight.second),
        )
    }

    fn start(&self, zone: u8) -> Self::Weight {
        Both {
            first: self.first.start(zone),
            second: self.second.start(zone),
        }
    }

    fn hop(&self, metres: u32, level: u8, zone: u8) -> Self::Weight {
        Both {
            first: self.first.hop(metres, level, zone),
            second: self.second.hop(metres, level, zone),
        }
    }
}

impl<M: LawfulMeasure, N: LawfulMeasure> LawfulMeasure for Pair<M, N> {
    ghost lawful = { λ p. pair_laws (M.Measure.model p.first) (N.Measure.model p.second) (M.LawfulMeasure.lawful p.first) (N.LawfulMeasure.lawful p.second) };
}
