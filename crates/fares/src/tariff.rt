ghost use Rattle.std.specs.Prelude.{◌≡◌};
ghost use Rattle.fares.specs.Tariffs.{TariffModel, TariffLaws, Priced};

use crate::gauges::Gauges;

// No ticket of any tariff costs more, in cents.
pub const TOP_PRICE: u32 = 9_999_999;

// A tariff: tickets, what they cost, and which ticket comes next.
pub trait Tariff {
    type Ticket: Copy;

    ghost model: { Self → TariffModel Self.Ticket };

    fn start(&self, class: u8) -> Self::Ticket
        ensures { result ≡ (model self.now).start class };

    fn price(&self, ticket: Self::Ticket) -> u32
        ensures { result ≡ (model self.now).price ticket };

    // The ticket held after the event, at these gauges.
    fn next(&self, ticket: Self::Ticket, gauges: Gauges, event: u8) -> Self::Ticket
        ensures { result ≡ (model self.now).next ticket gauges event };

    fn covers(&self, ticket: Self::Ticket, other: Self::Ticket) -> bool
        ensures { result ≡ (model self.now).covers ticket other };

    // No price is above 9,999,999 cents, whether the tariff is lawful or not.
    ghost priced: { (t : Self) → Priced (model t) };
}

// A tariff that keeps the laws.
pub trait LawfulTariff: Tariff {
    ghost lawful: { (t : Self) → TariffLaws (Self.Tariff.model t) };
}
