ghost use Rattle.fares.specs.FareStates.{KeepsCovering};
ghost use Rattle.fares.specs.Ladders.{ladder_model};
ghost use Rattle.fares.specs.Surcharges.{surcharge_model};
ghost use Rattle.measures.specs.Amounts.{metres_model, stops_model};
ghost use Rattle.measures.specs.Heights.{level_model};
ghost use Rattle.measures.specs.Pairs.{pair_model};
ghost use Rattle.measures.specs.ZoneSets.{zones_model};
ghost use Rattle.rule_table.specs.OpenedTables.{table_of};

use fares::{Ladder, Surcharge, update_keeps_covering};
use measures::{Level, Metres, Pair, Stops, Zones};
use rule_table::RuleTable;

// Under a surcharge over any table and over any ladder, measured by metres, stops, zones and level, the same update of
// two states keeps the one covering the other.
pub fn every_kind_keeps_covering(over_table: &Surcharge<RuleTable>, over_ladder: &Surcharge<Ladder>)
    ensures table { KeepsCovering
        (surcharge_model over_table.now.event over_table.now.extra (table_of over_table.now.below))
        (pair_model (pair_model metres_model stops_model) (pair_model zones_model level_model)) }
    ensures ladder { KeepsCovering
        (surcharge_model over_ladder.now.event over_ladder.now.extra
        (ladder_model over_ladder.now.below.first over_ladder.now.below.step))
        (pair_model (pair_model metres_model stops_model) (pair_model zones_model level_model)) }
{
    let measure = Pair {
        first: Pair {
            first: Metres {},
            second: Stops {},
        },
        second: Pair {
            first: Zones {},
            second: Level {},
        },
    };
    update_keeps_covering(over_table, &measure);
    update_keeps_covering(over_ladder, &measure);
}
