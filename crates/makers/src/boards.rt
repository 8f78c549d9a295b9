use day_planner::Inquiry;
use fares::{FareState, Ladder, Marked, Surcharge};
use measures::{Amount, Both, Height, Level, Metres, Pair, Stops, ZoneSet, Zones};
use rule_table::RuleTable;
use timetable::MakerTimetable;

/// All four measures: metres, stops, zones and levels.
pub type AllMeasures = Pair<Pair<Metres, Stops>, Pair<Zones, Level>>;

/// Where a fare by table stands.
pub type TableState = FareState<Marked<u8>, Both<Both<Amount, Amount>, Both<ZoneSet, Height>>>;

/// Where a fare by ladder stands.
pub type LadderState = FareState<u8, ZoneSet>;

/// A question after a log, on a board of either maker with a table under a surcharge.
pub type TableInquiry<'a, 'b, 'c> = Inquiry<
    'a,
    'b,
    MakerTimetable<'c>,
    Surcharge<RuleTable>,
    AllMeasures,
>;

/// A question after a log, on a board of either maker with a ladder over zones.
pub type LadderInquiry<'a, 'b, 'c> = Inquiry<'a, 'b, MakerTimetable<'c>, Ladder, Zones>;
