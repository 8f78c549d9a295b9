#![tactic(auto)]
// Journeys: what a question is about, and what the scan for it writes.
//
// `Network` has stops and footpaths, `Question` says from where to where. A journey is a list of legs
// (`Leg`, as it is handed out with a row); which offers are best is defined from journeys alone
// (`specs/Journey`, `specs/Offers`). The scan remembers part journeys as `Label`s and those aboard a
// trip as `Passenger`s, whatever the make of their fare states: `Fare` is all that it asks of fares,
// and `NetworkFare` makes one of any tariff and measure. `Full` says which list ended a scan early,
// and `BestOffer` is a row with its label.
// `specs/Scan` defines the scan, and the proofs show that it finds exactly the best offers.
mod best_offer;
mod fare;
mod full;
mod label;
mod leg;
mod network;
mod network_fare;
mod question;

pub use best_offer::BestOffer;
pub use fare::Fare;
pub use full::Full;
pub use label::{Label, Passenger, Way};
pub use leg::{Leg, LegKind};
pub use network::{Footpath, Network, Stop};
pub use network_fare::NetworkFare;
pub use question::Question;
