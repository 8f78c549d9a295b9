ghost use Rattle.std.specs.Prelude.{◌≡◌, true};
ghost use Rattle.short_list.specs.Items.{items};
ghost use Rattle.timetable.specs.Line.{line_allowed};

use crate::hops::Hop;
use short_list::ShortList;

// The most hops of a pattern.
pub const MOST_PATTERN: usize = 16;

// The shortest interval, in seconds.
pub const SHORTEST_INTERVAL: u32 = 60;

// The longest interval, in seconds.
pub const LONGEST_INTERVAL: u32 = 7_200;

// The most trips of a line.
pub const MOST_TRIPS: u32 = 200;

// A pattern of hops that runs again and again at an interval.
#[derive(Drop)]
pub struct IntervalLine {
    pub(crate) pattern: ShortList<Hop, MOST_PATTERN>,
    pub(crate) interval: u32,
    pub(crate) trips: u32,
    ghost allowed: { line_allowed (items pattern) interval trips ≡ true },
}
