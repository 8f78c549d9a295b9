ghost use Rattle.std.specs.Prelude.{◌≡◌};
ghost use Rattle.fares.specs.Readings.{lowest_readings, largest_readings};

use crate::gauges::Gauges;

impl Gauges {
    // Every gauge at 0.
    pub fn lowest() -> Gauges
        ensures { result ≡ lowest_readings }
    {
        Gauges {
            metres: 0,
            stops: 0,
            zones: 0,
            level: 0,
        }
    }

    // Every gauge at the largest number.
    pub fn largest() -> Gauges
        ensures { result ≡ largest_readings }
    {
        Gauges {
            metres: u32::MAX,
            stops: u32::MAX,
            zones: u32::MAX,
            level: u32::MAX,
        }
    }
}
