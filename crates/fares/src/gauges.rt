ghost use Rattle.std.specs.Prelude.{◌≤◌};
ghost use Rattle.fares.specs.Limits.{top_reading};

// Four readings that a tariff may look at: gauges 0 to 3. Their range is part of the type, since a law about every
// reading speaks of those that a gauge can show.
#[derive(Clone, Copy, Debug, PartialEq, Eq)]
pub struct Gauges {
    pub metres: u32,
    pub stops: u32,
    pub zones: u32,
    pub level: u32,
    ghost fits: { (metres ≤ top_reading) × (stops ≤ top_reading) × (zones ≤ top_reading) × (level ≤ top_reading) },
}
