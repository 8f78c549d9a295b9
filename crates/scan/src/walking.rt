ghost use Rattle.std.specs.Prelude.{◌≡◌};
ghost use Rattle.journeys.specs.Labels.{label_by_walk, fresh};
ghost use Rattle.journeys.specs.Scan.{walk as walk_run, walk_on as walk_on_run, walks as walks_run};
ghost use Rattle.scan.specs.Filling.{ran};
ghost use Rattle.scan.specs.Stores.{Chained, Extended, labels_of, room_of};

use crate::covering::on_foot;
use crate::offering::offer;
use crate::path_table::PathTable;
use crate::store::Store;
use journeys::{Fare, Footpath, Full, Label, Way};

// Whether a label was reached in this round, and not on foot.
fn is_fresh<S: Copy>(round: u32, label: &Label<S>) -> bool
    ensures { result ≡ fresh round label.now }
{
    label.rides == round && !on_foot(label.way)
}

fn walk_label<S: Copy>(from: usize, label: &Label<S>, place: usize, path: &Footpath) -> Label<S>
    ensures { result ≡ label_by_walk from label.now place path.now }
{
    Label {
        stop: path.to,
        time: label.time.saturating_add(path.seconds),
        rides: label.rides,
        state: label.state,
        way: Way::Walked { path: place, from },
    }
}

// Offers the footpath at `place` from the label at `from`, where it begins at that label's stop. (A struct of a label and its
// place, or of a path and its place, would be made and taken apart at each step, and is no plainer.)
fn walk<F: Fare>(
    fare: &F,
    from: usize,
    label: &Label<F::State>,
    place: usize,
    path: &Footpath,
    labels: &mut Store<F::State>,
) -> Result<(), Full>
    requires chained { Chained labels.old }
    ensures run { walk_run (F.Fare.model fare.now) (room_of labels.old) from label.now place path.now (labels_of labels.old) ≡ ran result (labels_of labels.new) }
    ensures extended { Extended labels.old labels.new }
{
    if path.from != label.stop {
        return Ok(());
    }
    offer(fare, walk_label(from, label, place, path), labels)
}

// Offers the footpaths, in list order, from a label that this round has reached by a ride. Only those that begin at its stop lead
// on from it, so only their chain is looked at.
fn walk_on<F: Fare>(
    fare: &F,
    paths: &PathTable,
    round: u32,
    from: usize,
    label: &Label<F::State>,
    labels: &mut Store<F::State>,
) -> Result<(), Full>
    requires chained { Chained labels.old }
    ensures run { walk_on_run (F.Fare.model fare.now) (room_of labels.old) paths.now.paths.now round from label.now (labels_of labels.old) ≡ ran result (labels_of labels.new) }
    ensures extended { Extended labels.old labels.new }
{
    if !is_fresh(round, label) {
        return Ok(());
    }
    let mut at = paths.first_at(label.stop);
    while let Some(place) = at {
        walk(fare, from, label, place, paths.path(place), labels)?;
        at = paths.next(place);
    }
    Ok(())
}

// The footpaths from the labels that this round has reached, in store order.
pub(crate) fn walks<F: Fare>(
    fare: &F,
    paths: &PathTable,
    round: u32,
    labels: &mut Store<F::State>,
) -> Result<(), Full>
    requires chained { Chained labels.old }
    ensures run { walks_run (F.Fare.model fare.now) (room_of labels.old) paths.now.paths.now round (labels_of labels.old) ≡ ran result (labels_of labels.new) }
    ensures extended { Extended labels.old labels.new }
{
    // an index: the walks write behind the labels that are read, and with no heap these cannot be copied first
    for from in 0..labels.len() {
        let label = labels.label(from).label;
        walk_on(fare, paths, round, from, &label, labels)?;
    }
    Ok(())
}
