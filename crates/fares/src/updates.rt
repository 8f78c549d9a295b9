ghost use Rattle.std.specs.Prelude.{◌≡◌};
ghost use Rattle.fares.specs.FareStates.{start_state, update_state, change_state};

use crate::fare_state::FareState;
use crate::measure::Measure;
use crate::tariff::Tariff;

const CHANGE_EVENT: u8 = 1;

// A struct of tariff and measure is no plainer: each clause would say `self.now.tariff.now` for `tariff.now`.

// The fare at the start stop, from its class and its zone.
pub fn start<F: Tariff, M: Measure>(
    tariff: &F,
    measure: &M,
    class: u8,
    zone: u8,
) -> FareState<F::Ticket, M::Weight>
    ensures { result ≡ start_state (F.Tariff.model tariff.now) (M.Measure.model measure.now) class zone }
{
    FareState {
        ticket: tariff.start(class),
        weight: measure.start(zone),
    }
}

// Adds the weight first, so that the tariff sees the gauges after the hop.
pub fn update<F: Tariff, M: Measure>(
    tariff: &F,
    measure: &M,
    state: FareState<F::Ticket, M::Weight>,
    weight: M::Weight,
    event: u8,
) -> FareState<F::Ticket, M::Weight>
    ensures { result ≡ update_state (F.Tariff.model tariff.now) (M.Measure.model measure.now) weight event state }
{
    let sum = measure.add(state.weight, weight);
    FareState {
        ticket: tariff.next(state.ticket, measure.gauges(sum), event),
        weight: sum,
    }
}

// A change of vehicle, with nothing ridden.
pub fn change<F: Tariff, M: Measure>(
    tariff: &F,
    measure: &M,
    state: FareState<F::Ticket, M::Weight>,
) -> FareState<F::Ticket, M::Weight>
    ensures { result ≡ change_state (F.Tariff.model tariff.now) (M.Measure.model measure.now) state }
{
    update(tariff, measure, state, measure.neutral(), CHANGE_EVENT)
}
