ghost use Rattle.std.specs.Prelude.{◌≡◌, ◌<◌, ◌≤◌, map, length};
ghost use Rattle.short_list.specs.Items.{items};
ghost use Rattle.journeys.specs.Lists.{Each};
ghost use Rattle.planner.specs.Handout.{row_of, legs_from};
ghost use Rattle.planner.specs.Tracing.{Backward};
ghost use Rattle.scan.specs.Chains.{labels_in};
ghost use Rattle.sheet.specs.Outcome.{laid};

use crate::tracing::Traces;
use journeys::{BestOffer, Leg};
use sheet::{MOST_ROWS, Row};
use short_list::ShortList;

// No `From`: neither type is of this crate.
fn row_of(offer: BestOffer) -> Row
    ensures { result ≡ row_of offer }
{
    Row {
        arrival: offer.arrival,
        price: offer.price,
    }
}

// The rows of at most 32 offers.
pub(crate) fn rows_of(offers: &ShortList<BestOffer, MOST_ROWS>) -> ShortList<Row, MOST_ROWS>
    ensures { items result ≡ map row_of (items offers.now) }
{
    let mut rows = ShortList::empty(Row {
        arrival: 0,
        price: 0,
    });
    for offer in offers.as_slice() {
        rows.push(row_of(*offer)).unwrap();
    }
    rows
}

impl<'a, S: Copy> Traces<'a, S> {
    // Writes the legs of each offer's journey, row by row, and answers how many there are.
    pub(crate) fn trace_all(&self, offers: &[BestOffer], legs: &mut [Leg]) -> usize
        requires few { length offers.now ≤ 32 }
        requires each { Each (λ o. o.label < length (labels_in self.now.labels.now)) offers.now }
        requires legs_fit { length (legs_from (labels_in self.now.labels.now) 0 offers.now) ≤ length legs.old }
        ensures end { result ≡ length (legs_from (labels_in self.now.labels.now) 0 offers.now) }
        ensures legs { legs.new ≡ laid (legs_from (labels_in self.now.labels.now) 0 offers.now) legs.old }
    {
        let mut end = 0;
        for (row, offer) in offers.iter().enumerate() {
            end = self.trace(offer.label, row as u8, legs, end);
        }
        end
    }
}
