ghost use Rattle.std.specs.Prelude.{◌≡◌};
ghost use Rattle.journeys.specs.Fare.{FareModel};

use timetable::Hop;

// All that a scan asks of fares, whatever they are made of.
pub trait Fare {
    type State: Copy;

    ghost model: { Self → FareModel Self.State };

    // The fare of a journey that starts at a stop.
    fn start(&self, stop: u32) -> Self::State
        ensures { result ≡ (model self.now).start stop };

    // A change of vehicle.
    fn change(&self, state: Self::State) -> Self::State
        ensures { result ≡ (model self.now).change state };

    // One hop more.
    fn ride(&self, hop: &Hop, state: Self::State) -> Self::State
        ensures { result ≡ (model self.now).hop hop.now state };

    fn covers(&self, state: Self::State, other: Self::State) -> bool
        ensures { result ≡ (model self.now).covers state other };

    fn price(&self, state: Self::State) -> u32
        ensures { result ≡ (model self.now).price state };
}
