ghost use Rattle.std.specs.Prelude.{◌≡◌, min, cond};
ghost use Rattle.rule_table.specs.Thresholds.{short_of, asks_metres, asks_stops, asks_zones, asks_level, Thresholds};

use crate::rule::Rule;
use crate::sizes::TICKET_PLACES;
use crate::span::spot;
use fares::Gauges;

// Whether no gauge has reached its threshold.
pub(crate) fn is_short_of(threshold: Gauges, gauges: Gauges) -> bool
    ensures { result ≡ short_of threshold gauges }
{
    gauges.metres < threshold.metres
        && gauges.stops < threshold.stops
        && gauges.zones < threshold.zones
        && gauges.level < threshold.level
}

// One threshold is lowered to a rule's minimum: that of the first gauge at which the rule asks for anything.
fn lowered(threshold: Gauges, minima: Gauges) -> Gauges
    ensures metres { result.metres ≡ cond (asks_metres minima) (min threshold.metres minima.metres) threshold.metres }
    ensures stops { result.stops ≡ cond (asks_stops minima) (min threshold.stops minima.stops) threshold.stops }
    ensures zones { result.zones ≡ cond (asks_zones minima) (min threshold.zones minima.zones) threshold.zones }
    ensures level { result.level ≡ cond (asks_level minima) (min threshold.level minima.level) threshold.level }
{
    let mut lower = threshold;
    if minima.metres > 0 {
        lower.metres = threshold.metres.min(minima.metres);
    } else if minima.stops > 0 {
        lower.stops = threshold.stops.min(minima.stops);
    } else if minima.zones > 0 {
        lower.zones = threshold.zones.min(minima.zones);
    } else {
        lower.level = threshold.level.min(minima.level);
    }
    lower
}

// The thresholds of each ticket: none of its rules is met before a gauge has reached its own.
pub(crate) fn thresholds_of(rules: &[Rule]) -> [Gauges; TICKET_PLACES]
    ensures { Thresholds result rules.now }
{
    let mut thresholds = [Gauges::largest(); TICKET_PLACES];
    for rule in rules {
        let spot = spot(rule.ticket);
        thresholds[spot] = lowered(thresholds[spot], rule.minima);
    }
    thresholds
}
