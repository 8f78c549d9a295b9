ghost use Rattle.std.specs.Prelude.{◌≡◌, true};
ghost use Rattle.short_list.specs.Items.{items};
ghost use Rattle.service_day.specs.Marks.{MarksOf};
ghost use Rattle.service_day.specs.Tables.{itself, tidy as is_tidy};

use crate::layer::MOST_LISTED;
use crate::trip_marks::TripMarks;
use short_list::ShortList;

// A table of cancelled trips, and their marks.
#[derive(Clone, Copy)]
pub struct CancelledTrips {
    pub(crate) trips: ShortList<u32, MOST_LISTED>,
    pub(crate) marks: TripMarks,
    ghost tidy: { is_tidy itself (items trips) ≡ true },
    ghost marked: { MarksOf itself (items trips) marks.marks },
}
