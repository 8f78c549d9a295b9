ghost use Rattle.std.specs.Prelude.{◌≡◌, true, length};
ghost use Rattle.journeys.specs.Fare.{boarded};
ghost use Rattle.journeys.specs.Labels.{boards};
ghost use Rattle.std.specs.List.{list_any};
ghost use Rattle.journeys.specs.Runs.{run_each};
ghost use Rattle.journeys.specs.Scan.{seat as seat_run, board as board_run};
ghost use Rattle.scan.specs.Rounds.{all_from};
ghost use Rattle.scan.specs.Filling.{filled, Kept, ran};
ghost use Rattle.scan.specs.Stores.{Chained, labels_of};

use crate::filled::Filled;
use crate::store::Store;
use crate::turn::Turn;
use journeys::{Fare, Full, Label, Passenger};

// The fare to ride on with: each ride but the first begins with a change of vehicle.
fn boarding_state<F: Fare>(fare: &F, label: &Label<F::State>) -> F::State
    ensures { result ≡ boarded (F.Fare.model fare.now) label.now.rides label.now.state }
{
    if label.rides == 0 {
        return label.state;
    }
    fare.change(label.state)
}

// Whether the fare of somebody aboard covers a fare.
fn is_state_covered<F: Fare>(fare: &F, aboard: &[Passenger<F::State>], state: F::State) -> bool
    ensures { result ≡ list_any (λ p. (F.Fare.model fare.now).covers p.state state) aboard.now }
{
    aboard
        .iter()
        .any(|passenger| fare.covers(passenger.state, state))
}

// Takes one more aboard unless somebody aboard covers its fare.
fn seat<F: Fare>(
    fare: &F,
    place: u32,
    passenger: Passenger<F::State>,
    aboard: &mut Filled<Passenger<F::State>>,
) -> Result<(), Full>
    ensures run { seat_run (F.Fare.model fare.now) (length aboard.old.places.now) place passenger (filled aboard.old) ≡ ran result (filled aboard.new) }
    ensures kept { Kept aboard.old aboard.new }
{
    let covered = is_state_covered(fare, aboard.as_slice(), passenger.state);
    aboard.fill_unless(covered, passenger, Full::Aboard(place))
}

// Whether a label may board in this turn: reached in the round before, at the hop's stop, in time.
fn may_board<S: Copy>(turn: &Turn, label: &Label<S>) -> bool
    ensures { result ≡ boards turn.now.round turn.now.hop label.now }
{
    label.rides == turn.round - 1 && label.stop == turn.hop.from && label.time <= turn.hop.departure
}

// The label at `from` boards, if it may. (A struct of `from` and `label` would be made and taken apart at each step, and is no
// plainer.)
fn board<F: Fare>(
    fare: &F,
    turn: &Turn,
    from: usize,
    label: &Label<F::State>,
    aboard: &mut Filled<Passenger<F::State>>,
) -> Result<(), Full>
    ensures run { board_run (F.Fare.model fare.now) (length aboard.old.places.now) turn.now.round turn.now.place turn.now.hop from label.now (filled aboard.old) ≡ ran result (filled aboard.new) }
    ensures kept { Kept aboard.old aboard.new }
{
    if !may_board(turn, label) {
        return Ok(());
    }
    let state = boarding_state(fare, label);
    let passenger = Passenger {
        state,
        label: from,
        first: turn.place,
    };
    seat(fare, turn.place, passenger, aboard)
}

// The labels board in store order. Only those at the hop's stop may, so only their chain is looked at, and that up to where the
// labels of this round begin: they have ridden once too often.
pub(crate) fn board_all<F: Fare>(
    fare: &F,
    turn: &Turn,
    labels: &Store<F::State>,
    aboard: &mut Filled<Passenger<F::State>>,
) -> Result<(), Full>
    requires chained { Chained labels.now }
    requires begins { all_from turn.now.begins turn.now.round (labels_of labels.now) ≡ true }
    ensures run { run_each (board_run (F.Fare.model fare.now) (length aboard.old.places.now) turn.now.round turn.now.place turn.now.hop) 0 (labels_of labels.now) (filled aboard.old) ≡ ran result (filled aboard.new) }
    ensures kept { Kept aboard.old aboard.new }
{
    let mut at = labels.first_at(turn.hop.from);
    while let Some(place) = at {
        if place >= turn.begins {
            return Ok(());
        }
        let stored = labels.label(place);
        board(fare, turn, place, &stored.label, aboard)?;
        at = stored.next.place();
    }
    Ok(())
}
