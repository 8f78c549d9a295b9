ghost use Rattle.std.specs.Prelude.{◌≡◌, ℕ, ◌+◌, ◌<◌, ◌≤◌, Bool, slice_index};
ghost use Rattle.rule_table.specs.Masks.{mask_of, ticket_listed, MaskRows, MaskRowsFrom};
ghost use Rattle.rule_table.specs.Sizes.{top_tickets};

use crate::sizes::{TICKET_PLACES, TOP_TICKETS};

// A set of tickets for each ticket.
pub(crate) type Masks = [u32; TICKET_PLACES];

// A set of tickets is a mask: bit n stands where ticket n is a member.
pub(crate) fn has_ticket(mask: u32, n: u8) -> bool
    ensures { result ≡ ticket_listed mask n }
{
    n < TOP_TICKETS && (mask >> n) % 2 == 1
}

// The set of the tickets that pass.
pub(crate) fn mask_of<F: Fn(u8) -> bool>(test: F) -> u32
    requires { F.IsAlwaysCallable test }
    ensures { (p : ℕ → Bool) → ((n : ℕ) (b : Bool) → F.post test n b → b ≡ p n) → result ≡ mask_of p top_tickets }
{
    let mut mask = 0;
    // a ticket is its number, and no element of a list
    for n in 0..TOP_TICKETS {
        if test(n) {
            mask |= 1 << n;
        }
    }
    mask
}

// The set of ticket k, which is empty where k is no place of the masks.
pub(crate) fn row(masks: &Masks, k: u8) -> u32
    ensures { result ≡ slice_index masks.now k }
{
    masks.get(k as usize).copied().unwrap_or(0)
}

// A set for each ticket, from the highest ticket down: each may be made from those above it.
pub(crate) fn masks_of<F: Fn(&Masks, u8) -> u32>(set: F) -> Masks
    requires { (above : _) (k : ℕ) → k < top_tickets → F.pre set above k }
    ensures { (p : ℕ → ℕ → Bool)
        → ((above : _) (k mask : ℕ) → k < top_tickets → MaskRowsFrom (k + 1) p above.now → F.post set above k mask → mask ≡ mask_of (p k) top_tickets)
        → MaskRows p result }
{
    let mut masks = [0; TICKET_PLACES];
    // by number, since a set is made from those above it, which are filled already
    for k in (0..TOP_TICKETS).rev() {
        masks[k as usize] = set(&masks, k);
    }
    masks
}
