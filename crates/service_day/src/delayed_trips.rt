ghost use Rattle.std.specs.Prelude.{◌≡◌, true};
ghost use Rattle.short_list.specs.Items.{items};
ghost use Rattle.service_day.specs.DelayTables.{trip_of, all_late};
ghost use Rattle.service_day.specs.Marks.{MarksOf};
ghost use Rattle.service_day.specs.Tables.{tidy as is_tidy};

use crate::delay::Delay;
use crate::layer::MOST_LISTED;
use crate::trip_marks::TripMarks;
use short_list::ShortList;

// A table of delays, and the marks of their trips.
#[derive(Clone, Copy)]
pub struct DelayedTrips {
    pub(crate) delays: ShortList<Delay, MOST_LISTED>,
    pub(crate) marks: TripMarks,
    ghost tidy: { is_tidy trip_of (items delays) ≡ true },
    ghost marked: { MarksOf trip_of (items delays) marks.marks },
    ghost late: { all_late (items delays) ≡ true },
}
