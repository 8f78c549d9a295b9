ghost use Rattle.std.specs.Prelude.{◌≡◌, map};
ghost use Rattle.journeys.specs.Labels.{label_by_ride, rides_on};
ghost use Rattle.journeys.specs.Runs.{run_each, overlay};
ghost use Rattle.journeys.specs.Scan.{alight};
ghost use Rattle.scan.specs.Filling.{filled, ran};
ghost use Rattle.scan.specs.Stores.{Chained, Extended, labels_of, room_of};

use crate::filled::Filled;
use crate::offering::offer;
use crate::store::Store;
use crate::turn::Turn;
use journeys::{Fare, Full, Label, Passenger, Way};
use timetable::Hop;

// All aboard ride a hop on.
pub(crate) fn ride_all<F: Fare>(fare: &F, hop: &Hop, aboard: &mut Filled<Passenger<F::State>>)
    ensures same { aboard.new.places.ghost_name ≡ aboard.old.places.ghost_name }
    ensures used { aboard.new.used ≡ aboard.old.used }
    ensures places { aboard.new.places.now ≡ overlay (map (rides_on (F.Fare.model fare.now) hop.now) (filled aboard.old)) aboard.old.places.now }
{
    aboard.change_each(|passenger| Passenger {
        state: fare.ride(hop, passenger.state),
        label: passenger.label,
        first: passenger.first,
    });
}

fn ride_label<S: Copy>(turn: &Turn, passenger: &Passenger<S>) -> Label<S>
    ensures { result ≡ label_by_ride turn.now.round turn.now.place turn.now.hop passenger.now }
{
    Label {
        stop: turn.hop.to,
        time: turn.hop.arrival,
        rides: turn.round,
        state: passenger.state,
        way: Way::Rode {
            first: passenger.first,
            last: turn.place,
            from: passenger.label,
        },
    }
}

// All aboard are offered, in order, at the stop to which the hop leads.
pub(crate) fn alight_all<F: Fare>(
    fare: &F,
    turn: &Turn,
    aboard: &[Passenger<F::State>],
    labels: &mut Store<F::State>,
) -> Result<(), Full>
    requires chained { Chained labels.old }
    ensures run { run_each (alight (F.Fare.model fare.now) (room_of labels.old) turn.now.round turn.now.place turn.now.hop) 0 aboard.now (labels_of labels.old) ≡ ran result (labels_of labels.new) }
    ensures extended { Extended labels.old labels.new }
{
    for passenger in aboard {
        offer(fare, ride_label(turn, passenger), labels)?;
    }
    Ok(())
}
