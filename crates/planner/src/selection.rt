ghost use Rattle.std.specs.Prelude.{◌≡◌};
ghost use Rattle.std.specs.Result.{result_map_both};
ghost use Rattle.short_list.specs.Items.{items};
ghost use Rattle.journeys.specs.Offers.{fee};
ghost use Rattle.planner.specs.Selecting.{selected};
ghost use Rattle.scan.specs.Chains.{labels_in};
ghost use Rattle.journeys.specs.Selection.{before, first_of, picking_one, pick as pick_among, best_offers};

use crate::refusal::Refusal;
use journeys::{BestOffer, Fare, Label};
use scan::StoredLabel;
use sheet::MOST_ROWS;
use short_list::ShortList;

// One more than the highest price.
const PRICE_BOUND: u32 = 10_000_000;

// The price of the last ticket, or 0 without a ride.
fn fee_of<F: Fare>(fare: &F, label: &Label<F::State>) -> u32
    ensures { result ≡ fee (F.Fare.model fare.now) label.now.rides label.now.state }
{
    if label.rides == 0 {
        return 0;
    }
    fare.price(label.state)
}

fn is_before(offer: BestOffer, other: BestOffer) -> bool
    ensures { result ≡ before offer other }
{
    (offer.arrival, offer.price) < (other.arrival, other.price)
}

// The one found first stays where the two are alike.
fn first_of(offer: BestOffer, found: Option<BestOffer>) -> Option<BestOffer>
    ensures { result ≡ first_of offer found }
{
    match found {
        Some(other) if !is_before(offer, other) => found,
        _ => Some(offer),
    }
}

// Looks at one label more, which counts if it stands at the destination and costs less than the bound.
fn pick_one<F: Fare>(
    fare: &F,
    destination: u32,
    bound: u32,
    place: usize,
    label: &Label<F::State>,
    found: Option<BestOffer>,
) -> Option<BestOffer>
    ensures { result ≡ picking_one (F.Fare.model fare.now) destination bound place label.now found }
{
    let price = fee_of(fare, label);
    if label.stop == destination && price < bound {
        return first_of(
            BestOffer {
                arrival: label.time,
                price,
                label: place,
            },
            found,
        );
    }
    found
}

// The first offer, by arrival and then price, of those that cost less than the bound.
fn pick<F: Fare>(
    fare: &F,
    labels: &[StoredLabel<F::State>],
    destination: u32,
    bound: u32,
) -> Option<BestOffer>
    ensures { result ≡ pick_among (F.Fare.model fare.now) destination bound (labels_in labels.now) }
{
    let mut found = None;
    for (place, stored) in labels.iter().enumerate() {
        found = pick_one(fare, destination, bound, place, &stored.label, found);
    }
    found
}

// The best offers, where a sheet can hold as many as there are.
pub(crate) fn select<F: Fare>(
    fare: &F,
    labels: &[StoredLabel<F::State>],
    destination: u32,
) -> Result<ShortList<BestOffer, MOST_ROWS>, Refusal>
    ensures { result_map_both items (λ e. e) result ≡ selected (best_offers (F.Fare.model fare.now) destination (labels_in labels.now)) }
{
    let mut offers = ShortList::empty(BestOffer {
        arrival: 0,
        price: 0,
        label: 0,
    });
    let mut bound = PRICE_BOUND;
    // counted, since there may be more than the list has places for, and there is no heap
    let mut count = 0;
    while let Some(offer) = pick(fare, labels, destination, bound) {
        offers.push(offer);
        count += 1;
        bound = offer.price;
    }
    if count > MOST_ROWS {
        return Err(Refusal::ManyOffers(count));
    }
    Ok(offers)
}
