ghost use Rattle.std.specs.Prelude.{◌≡◌};
ghost use Rattle.measures.specs.ZoneMembers.{ZonesAreSets};
ghost use Rattle.measures.specs.ZoneSets.{set_of_zone, bit_of_zone, zones_model};
ghost use Rattle.measures.specs.ZoneLaws.{zones_laws};

use crate::shown::shown;
use crate::weights::ZoneSet;
use fares::{Gauges, LawfulMeasure, Measure};

const ZONE_COUNT: u8 = 64;

fn zone_bit(zone: u8) -> u64
    ensures { result ≡ bit_of_zone zone }
{
    if zone < ZONE_COUNT { 1 << zone } else { 0 }
}

fn zone_set(bits: u64) -> ZoneSet
    ensures { result ≡ set_of_zone bits }
{
    ZoneSet { members: bits }
}

// The zones touched; gauge 2 shows how many.
#[derive(Clone, Copy, Debug, PartialEq, Eq)]
pub struct Zones {}

impl Measure for Zones {
    type Weight = ZoneSet;

    ghost model = { λ _. zones_model };

    fn neutral(&self) -> ZoneSet {
        zone_set(0)
    }

    fn add(&self, a: ZoneSet, b: ZoneSet) -> ZoneSet {
        zone_set(a.members | b.members)
    }

    fn at_most(&self, a: ZoneSet, b: ZoneSet) -> bool {
        a.members & b.members == a.members
    }

    fn gauges(&self, weight: ZoneSet) -> Gauges {
        shown(0, 0, weight.members.count_ones(), 0)
    }

    fn start(&self, zone: u8) -> ZoneSet {
        zone_set(zone_bit(zone))
    }

    fn hop(&self, metres: u32, level: u8, zone: u8) -> ZoneSet {
        zone_set(zone_bit(zone))
    }
}

impl LawfulMeasure for Zones {
    ghost lawful = { λ m. zones_laws };
}

// The bits are sets: sums are unions, the order is inclusion, and the gauge counts members. There is nothing to run: the
// contract is the theorem.
#[tactic(auto, using(crate::proofs::ZoneBits::zones_are_sets))]
pub fn zones_are_sets()
    ensures { ZonesAreSets }
{}
