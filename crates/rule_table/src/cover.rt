ghost use Rattle.std.specs.Prelude.{◌≡◌, ◌<◌};
ghost use Rattle.rule_table.specs.CoverTests.{covers_ticket};
ghost use Rattle.rule_table.specs.Masks.{MaskRows, cover_step};
ghost use Rattle.rule_table.specs.Rules.{RulesRise};
ghost use Rattle.rule_table.specs.Sizes.{top_tickets};

use crate::fixed_tickets::is_constant;
use crate::free_tickets::is_free;
use crate::masks::{Masks, masks_of, row};
use crate::overtaking::steady_masks;
use crate::reach::reach_masks;
use crate::rule::Rule;

// Free tickets cover all that they reach, fixed ones themselves, others none.
fn cover_mask(count: u8, rules: &[Rule], reach: u32, steadies: &Masks, k: u8) -> u32
    requires { k < top_tickets }
    ensures { result ≡ cover_step count rules.now reach steadies.now k }
{
    if k >= count {
        0
    } else if is_free(reach, steadies) {
        reach
    } else if is_constant(rules, reach) {
        1 << k
    } else {
        0
    }
}

// What each of the `count` tickets covers.
#[tactic(auto, using(crate::proofs::MaskRows::cover_row))]
pub(crate) fn cover_masks(count: u8, rules: &[Rule]) -> Masks
    requires { RulesRise top_tickets rules.now }
    ensures { MaskRows (covers_ticket count rules.now) result }
{
    let reach = reach_masks(rules);
    let steadies = steady_masks(rules, &reach);
    masks_of(|_, k| cover_mask(count, rules, row(&reach, k), &steadies, k))
}
