ghost use Rattle.std.specs.Prelude.{◌≡◌};
ghost use Rattle.fares.specs.Measures.{MeasureModel, MeasureLaws};

use crate::gauges::Gauges;

// A measure of a journey: weights that are added hop by hop, compared, and shown as gauges.
pub trait Measure {
    type Weight: Copy;

    ghost model: { Self → MeasureModel Self.Weight };

    // The weight of nothing ridden.
    fn neutral(&self) -> Self::Weight
        ensures { result ≡ (model self.now).neutral };

    fn add(&self, a: Self::Weight, b: Self::Weight) -> Self::Weight
        ensures { result ≡ (model self.now).add a b };

    fn at_most(&self, a: Self::Weight, b: Self::Weight) -> bool
        ensures { result ≡ (model self.now).at_most a b };

    fn gauges(&self, weight: Self::Weight) -> Gauges
        ensures { result ≡ (model self.now).gauges weight };

    // The weight at a start stop of the zone.
    fn start(&self, zone: u8) -> Self::Weight
        ensures { result ≡ (model self.now).start zone };

    // The weight of one hop, which arrives at a stop of the zone.
    fn hop(&self, metres: u32, level: u8, zone: u8) -> Self::Weight
        ensures { result ≡ (model self.now).hop metres level zone };
}

// A measure that keeps the laws.
pub trait LawfulMeasure: Measure {
    ghost lawful: { (m : Self) → MeasureLaws (Self.Measure.model m) };
}
