ghost use Rattle.std.specs.Prelude.{◌≡◌, ◌<◌, ℕ, true, length, slice_set};
ghost use Rattle.service_day.specs.Marks.{mark_count, mark_of, marked, MarksOf};

const MARKS: usize = 256;

// A mark for each trip of a table, so that most trips need not be looked for in it.
#[derive(Clone, Copy)]
pub(crate) struct TripMarks {
    marks: [bool; MARKS],
    ghost sized: { length marks ≡ mark_count },
}

// The place of a trip's mark.
fn mark_of(trip: u32) -> usize
    ensures is { result ≡ mark_of trip }
    ensures within { result < mark_count }
{
    trip as usize % MARKS
}

impl TripMarks {
    // The marks of the trips of these entries.
    pub(crate) fn of<E: Copy, F: Fn(E) -> u32>(entries: &[E], trip: F) -> TripMarks
        requires { F.IsAlwaysCallable trip }
        ensures { (key : E → ℕ) → ((e : E) (t : ℕ) → F.post trip e t → t ≡ key e) → MarksOf key entries.now result.marks }
    {
        let mut marks = [false; MARKS];
        for entry in entries {
            marks[mark_of(trip(*entry))] = true;
        }
        TripMarks { marks }
    }

    // Marks a trip more.
    pub(crate) fn mark(&mut self, listed: u32)
        ensures { self.new.marks ≡ slice_set self.old.marks (mark_of listed) true }
    {
        self.marks[mark_of(listed)] = true;
    }

    // Whether a trip has a mark.
    pub(crate) fn has(&self, trip: u32) -> bool
        ensures { result ≡ marked self.now.marks trip }
    {
        self.marks[mark_of(trip)]
    }
}
