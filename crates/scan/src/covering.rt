ghost use Rattle.std.specs.Prelude.{◌≡◌};
ghost use Rattle.journeys.specs.Labels.{came_on_foot, covers};
ghost use Rattle.std.specs.List.{list_any};
ghost use Rattle.scan.specs.Stores.{Chained, labels_of};

use crate::store::Store;
use journeys::{Fare, Label, Way};

pub(crate) fn on_foot(way: Way) -> bool
    ensures { result ≡ came_on_foot way }
{
    matches!(way, Way::Walked { .. })
}

// Whether a label is no worse than a candidate at its stop, now and however the journey goes on. A
// label on foot may not walk on, and one of no rides has its first ride still to begin. (Fares come
// last: they take the longest to compare.)
fn label_covers<F: Fare>(fare: &F, label: &Label<F::State>, candidate: &Label<F::State>) -> bool
    ensures { result ≡ covers (F.Fare.model fare.now) label.now candidate.now }
{
    label.stop == candidate.stop
        && label.time <= candidate.time
        && label.rides <= candidate.rides
        && (!on_foot(label.way) || on_foot(candidate.way))
        && (!(label.rides == 0) || candidate.rides == 0)
        && fare.covers(label.state, candidate.state)
}

// Whether a label covers a candidate. Only those at its stop can, so only their chain is looked at.
pub(crate) fn is_covered<F: Fare>(
    fare: &F,
    labels: &Store<F::State>,
    candidate: &Label<F::State>,
) -> bool
    requires chained { Chained labels.now }
    ensures { result ≡ list_any (λ l. covers (F.Fare.model fare.now) l candidate.now) (labels_of labels.now) }
{
    let mut at = labels.first_at(candidate.stop);
    while let Some(place) = at {
        let stored = labels.label(place);
        if label_covers(fare, &stored.label, candidate) {
            return true;
        }
        at = stored.next.place();
    }
    false
}
