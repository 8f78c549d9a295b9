ghost use Rattle.std.specs.Prelude.{◌^◌, ◌<◌, ◌≤◌};
ghost use Rattle.fares.specs.Limits.{top_reading};
ghost use Rattle.measures.specs.Bounds.{top_level, zone_count};

// A number that is added up and stays at the largest one.
#[derive(Clone, Copy, Debug, PartialEq, Eq)]
pub struct Amount {
    pub value: u32,
    ghost fits: { value ≤ top_reading },
}

// A level out of 0 to 7.
#[derive(Clone, Copy, Debug, PartialEq, Eq)]
pub struct Height {
    pub value: u8,
    ghost fits: { value ≤ top_level },
}

// A set of the zones 0 to 63: bit z stands where z is a member.
#[derive(Clone, Copy, Debug, PartialEq, Eq)]
pub struct ZoneSet {
    pub members: u64,
    ghost fits: { members < 2 ^ zone_count },
}

// A weight of each of two measures.
#[derive(Clone, Copy, Debug, PartialEq, Eq)]
pub struct Both<A, B> {
    pub first: A,
    pub second: B,
}
