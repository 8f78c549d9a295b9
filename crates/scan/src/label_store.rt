ghost use Rattle.std.specs.Prelude.{◌≡◌, ◌≤◌, length, take};
ghost use Rattle.journeys.specs.Runs.{overlay, result_of};
ghost use Rattle.journeys.specs.Scan.{scan_for};
ghost use Rattle.scan.specs.Chains.{linked};
ghost use Rattle.scan.specs.Scanned.{told, used_after};

use crate::filled::Filled;
use crate::path_table::PathTable;
use crate::ride::{Given, scan};
use crate::store::Store;
use crate::stored_label::StoredLabel;
use journeys::{Fare, Footpath, Full, Passenger, Question};
use timetable::Timetable;

// The labels of one question, in places that the caller lends: the first `used` are written. (There is no heap, so the
// count stands beside the places. A `Filled` inside is no plainer: each clause of the planner would speak of it.)
#[derive(Drop)]
pub struct LabelStore<'a, S> {
    labels: &'a mut [StoredLabel<S>],
    used: usize,
    ghost fits: { used ≤ length labels.now },
}

impl<'a, S: Copy> LabelStore<'a, S> {
    // A store over these places, with nothing written yet.
    pub fn over(labels: &'a mut [StoredLabel<S>]) -> LabelStore<'a, S>
        ensures labels { result.labels.now ≡ labels.old }
        ensures used { result.used ≡ 0 }
        ensures same_labels { result.labels.ghost_name ≡ labels.entry.ghost_name }
    {
        LabelStore { labels, used: 0 }
    }

    // How many labels are written.
    pub fn used(&self) -> usize
        ensures { result ≡ self.now.used }
    {
        self.used
    }

    // How many labels there is room for.
    pub fn room(&self) -> usize
        ensures { result ≡ length self.now.labels.now }
    {
        self.labels.len()
    }

    // The labels that are written.
    pub fn written(&self) -> &[StoredLabel<S>]
        ensures { result.now ≡ take self.now.used self.now.labels.now }
    {
        &self.labels[..self.used]
    }

    // Scans a question anew. Where a list is full, none of the labels counts as written.
    pub fn scan<T: Timetable, F: Fare<State = S>>(
        &mut self,
        timetable: &T,
        fare: &F,
        paths: &[Footpath],
        aboard: &mut [Passenger<S>],
        question: &Question,
    ) -> Result<(), Full>
        ensures answer { result ≡ told (scan_for (F.Fare.model fare.now) (T.Timetable.hops timetable.now) paths.now question.now self.old.labels.now aboard.old) }
        ensures labels { self.new.labels.now ≡ overlay (linked (result_of (scan_for (F.Fare.model fare.now) (T.Timetable.hops timetable.now) paths.now question.now self.old.labels.now aboard.old)).store) self.old.labels.now }
        ensures used { self.new.used ≡ used_after (scan_for (F.Fare.model fare.now) (T.Timetable.hops timetable.now) paths.now question.now self.old.labels.now aboard.old) }
        ensures aboard { aboard.new ≡ (result_of (scan_for (F.Fare.model fare.now) (T.Timetable.hops timetable.now) paths.now question.now self.old.labels.now aboard.old)).places }
        ensures same_labels { self.new.labels.ghost_name ≡ self.old.labels.ghost_name }
    {
        self.used = 0;
        // lent by a name of their own, so that what they hold is known once the scan is over
        let places = &mut *self.labels;
        let mut labels = Store::over(places);
        let mut aboard = Filled::over(aboard);
        let paths = PathTable::over(paths);
        let given = Given {
            timetable,
            fare,
            paths: &paths,
        };
        scan(&given, question, &mut labels, &mut aboard)?;
        self.used = labels.len();
        Ok(())
    }
}
