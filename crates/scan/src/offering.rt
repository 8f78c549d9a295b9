ghost use Rattle.std.specs.Prelude.{◌≡◌};
ghost use Rattle.journeys.specs.Scan.{offer as offer_run};
ghost use Rattle.scan.specs.Filling.{ran};
ghost use Rattle.scan.specs.Stores.{Chained, Extended, labels_of, room_of};

use crate::covering::is_covered;
use crate::store::Store;
use journeys::{Fare, Full, Label};

// Writes a candidate next unless an earlier label covers it.
pub(crate) fn offer<F: Fare>(
    fare: &F,
    candidate: Label<F::State>,
    labels: &mut Store<F::State>,
) -> Result<(), Full>
    requires chained { Chained labels.old }
    ensures run { offer_run (F.Fare.model fare.now) (room_of labels.old) candidate (labels_of labels.old) ≡ ran result (labels_of labels.new) }
    ensures extended { Extended labels.old labels.new }
{
    let covered = is_covered(fare, labels, &candidate);
    labels.write_unless(covered, candidate)
}
