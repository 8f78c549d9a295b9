ghost use Rattle.std.specs.Prelude.{◌≡◌, true};
ghost use Rattle.timetable.specs.Rule.{fit};
ghost use Rattle.service_day.specs.Changes.{halted as halted_hop, moved as moved_hop};

use timetable::{DAY_END, Hop};

// The hop, not running.
pub(crate) fn halted(hop: Hop) -> Hop
    ensures { result ≡ halted_hop hop }
{
    Hop { runs: false, ..hop }
}

// The hop so many seconds later if it runs; one that would so arrive after the day's end stays and
// does not run.
pub(crate) fn moved(hop: Hop, seconds: u32) -> Hop
    requires { fit hop ≡ true }
    ensures { result ≡ moved_hop seconds hop }
{
    if !hop.runs || seconds == 0 {
        return hop;
    }
    if seconds > DAY_END.saturating_sub(hop.arrival) {
        return halted(hop);
    }
    Hop {
        departure: hop.departure + seconds,
        arrival: hop.arrival + seconds,
        ..hop
    }
}
