ghost use Rattle.std.specs.Prelude.{◌≡◌, ◌+◌, ◌<◌, ◌≤◌, map, length};
ghost use Rattle.journeys.specs.Traces.{legs_of, spelled};
ghost use Rattle.sheet.specs.Outcome.{pasted};
ghost use Rattle.planner.specs.Tracing.{Backward, last_leg, backward_prop};
ghost use Rattle.scan.specs.Chains.{labels_in};

use journeys::{Leg, LegKind, Way};
use scan::StoredLabel;

// The leg that ends at a label, and the place of the label it begins at.
fn last_leg(way: Way, row: u8) -> Option<(Leg, usize)>
    ensures { result ≡ last_leg row way }
{
    let (kind, first, last, from) = match way {
        Way::Origin => return None,
        Way::Walked { path, from } => (LegKind::Walk, path, path, from),
        Way::Rode { first, last, from } => (LegKind::Ride, first as usize, last as usize, from),
    };
    Some((
        Leg {
            row,
            kind,
            first,
            last,
        },
        from,
    ))
}

// Labels of which each comes from an earlier one.
#[derive(Drop)]
pub(crate) struct Traces<'a, S> {
    pub(crate) labels: &'a [StoredLabel<S>],
    ghost backward: { Backward (labels_in labels.now) } by { backward_prop (labels_in labels.now) },
}

impl<'a, S: Copy> Traces<'a, S> {
    // Writes the legs from the origin to the label at a place, and answers where they end.
    pub(crate) fn trace(&self, place: usize, row: u8, legs: &mut [Leg], at: usize) -> usize
        requires place_in_bounds { place < length (labels_in self.now.labels.now) }
        requires legs_fit { at + length (legs_of (labels_in self.now.labels.now) place) ≤ length legs.old }
        ensures end { result ≡ at + length (legs_of (labels_in self.now.labels.now) place) }
        ensures legs { legs.new ≡ pasted at (map (spelled row) (legs_of (labels_in self.now.labels.now) place)) legs.old }
    {
        let Some((leg, from)) = last_leg(self.labels[place].label.way, row) else {
            return at;
        };
        let end = self.trace(from, row, legs, at);
        legs[end] = leg;
        end + 1
    }
}
