ghost use Rattle.std.specs.Prelude.{◌≡◌, ◌≤◌, IfErr};
ghost use Rattle.fares.specs.Limits.{first_marking_event, top_event, least_extra, top_extra};
ghost use Rattle.fares.specs.Refusals.{meant};
ghost use Rattle.fares.specs.Surcharges.{surcharge_opened, surcharge_model};
ghost use Rattle.fares.specs.SurchargeLaws.{surcharge_priced, surcharge_laws};

use crate::gauges::Gauges;
use crate::refusal::Refusal;
use crate::tariff::{LawfulTariff, TOP_PRICE, Tariff};
use crate::tickets::Marked;

// Events 0 and 1 are nothing and a change of vehicle, and mark no ticket.
const FIRST_MARKING_EVENT: u8 = 2;

const TOP_EVENT: u8 = 15;

const LEAST_EXTRA: u32 = 1;

const TOP_EXTRA: u32 = 99_999;

// A surcharge over any tariff, which an event brings on for good.
#[derive(Drop)]
pub struct Surcharge<T> {
    below: T,
    event: u8,
    extra: u32,
    ghost within: { (first_marking_event ≤ event) × (event ≤ top_event) × (least_extra ≤ extra) × (extra ≤ top_extra) },
}

impl<T: Drop> Surcharge<T> {
    pub fn open(below: T, event: u8, extra: u32) -> Result<Surcharge<T>, Refusal>
        ensures opened { meant (λ t. (t.below, t.event, t.extra)) result ≡ surcharge_opened below event extra }
        ensures refusal { IfErr result (λ e. e ≡ Refusal.Surcharge) }
    {
        if event < FIRST_MARKING_EVENT
            || event > TOP_EVENT
            || extra < LEAST_EXTRA
            || extra > TOP_EXTRA
        {
            return Err(Refusal::Surcharge);
        }
        Ok(Surcharge {
            below,
            event,
            extra,
        })
    }
}

impl<T: Tariff> Tariff for Surcharge<T> {
    type Ticket = Marked<T::Ticket>;

    ghost model = { λ t. surcharge_model t.event t.extra (T.Tariff.model t.below) };

    ghost priced = { λ t. surcharge_priced t.event t.extra (T.Tariff.model t.below) (T.Tariff.priced t.below) };

    fn start(&self, class: u8) -> Self::Ticket {
        Marked {
            below: self.below.start(class),
            marked: false,
        }
    }

    fn price(&self, ticket: Self::Ticket) -> u32 {
        let below = self.below.price(ticket.below);
        if ticket.marked {
            below.saturating_add(self.extra).min(TOP_PRICE)
        } else {
            below
        }
    }

    fn next(&self, ticket: Self::Ticket, gauges: Gauges, event: u8) -> Self::Ticket {
        Marked {
            below: self.below.next(ticket.below, gauges, event),
            marked: ticket.marked || event == self.event,
        }
    }

    fn covers(&self, ticket: Self::Ticket, other: Self::Ticket) -> bool {
        self.below.covers(ticket.below, other.below) && (!ticket.marked || other.marked)
    }
}

impl<T: LawfulTariff> LawfulTariff for Surcharge<T> {
    ghost lawful = { λ t. surcharge_laws t.event t.extra (T.Tariff.model t.below) (T.Tariff.priced t.below) (T.LawfulTariff.lawful t.below) };
}
