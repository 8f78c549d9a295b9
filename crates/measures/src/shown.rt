ghost use Rattle.std.specs.Prelude.{◌≡◌};
ghost use Rattle.measures.specs.Shown.{readings};

use fares::Gauges;

// The gauges that show these four numbers.
pub(crate) fn shown(metres: u32, stops: u32, zones: u32, level: u32) -> Gauges
    ensures { result ≡ readings metres stops zones level }
{
    Gauges {
        metres,
        stops,
        zones,
        level,
    }
}
