ghost use Rattle.std.specs.Prelude.{◌≡◌};
ghost use Rattle.journeys.specs.NetworkFare.{stop_numbered as stop_of, fare_over};

use crate::fare::Fare;
use crate::network::Stop;
use fares::{FareState, Measure, Tariff};
use timetable::Hop;

// The fares of a tariff and a measure over the stops of a network.
#[derive(Drop)]
pub struct NetworkFare<'a, 'b, F, M> {
    pub tariff: &'a F,
    pub measure: &'a M,
    pub stops: &'b [Stop],
}

// The stop of a number; one that is no stop counts as zone 0 and class 0.
fn stop_at(stops: &[Stop], number: u32) -> Stop
    ensures { result ≡ stop_of stops.now number }
{
    stops.get(number as usize).copied().unwrap_or_default()
}

impl<'a, 'b, F: Tariff, M: Measure> Fare for NetworkFare<'a, 'b, F, M> {
    type State = FareState<F::Ticket, M::Weight>;

    ghost model = { λ x. fare_over (F.Tariff.model x.tariff.now) (M.Measure.model x.measure.now) x.stops.now };

    fn start(&self, stop: u32) -> FareState<F::Ticket, M::Weight> {
        let at = stop_at(self.stops, stop);
        fares::start(self.tariff, self.measure, at.class, at.zone)
    }

    fn change(&self, state: FareState<F::Ticket, M::Weight>) -> FareState<F::Ticket, M::Weight> {
        fares::change(self.tariff, self.measure, state)
    }

    fn ride(
        &self,
        hop: &Hop,
        state: FareState<F::Ticket, M::Weight>,
    ) -> FareState<F::Ticket, M::Weight> {
        let arrived = stop_at(self.stops, hop.to);
        let weight = self.measure.hop(hop.metres, hop.level, arrived.zone);
        fares::update(self.tariff, self.measure, state, weight, hop.event)
    }

    fn covers(
        &self,
        state: FareState<F::Ticket, M::Weight>,
        other: FareState<F::Ticket, M::Weight>,
    ) -> bool {
        fares::covers(self.tariff, self.measure, state, other)
    }

    fn price(&self, state: FareState<F::Ticket, M::Weight>) -> u32 {
        self.tariff.price(state.ticket)
    }
}
