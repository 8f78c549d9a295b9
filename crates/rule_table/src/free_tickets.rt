ghost use Rattle.std.specs.Prelude.{◌≡◌};
ghost use Rattle.rule_table.specs.CoverTests.{each_below};
ghost use Rattle.rule_table.specs.Masks.{in_line, free_step};
ghost use Rattle.rule_table.specs.Sizes.{top_tickets};

use crate::bounded::all_below;
use crate::masks::{Masks, has_ticket, row};
use crate::sizes::TOP_TICKETS;

// Where both are reached and n is no lower, m must reach n and never overtake it.
fn is_in_line(reach: u32, ahead: u32, m: u8, n: u8) -> bool
    ensures { result ≡ in_line reach ahead m n }
{
    !(has_ticket(reach, m) && has_ticket(reach, n) && m <= n) || has_ticket(ahead, n)
}

fn is_ahead(reach: u32, ahead: u32, m: u8) -> bool
    ensures { result ≡ each_below (in_line reach ahead m) top_tickets }
{
    all_below(TOP_TICKETS, |n| is_in_line(reach, ahead, m, n))
}

// Whether a ticket that reaches these is free.
pub(crate) fn is_free(reach: u32, steadies: &Masks) -> bool
    ensures { result ≡ each_below (free_step reach steadies.now) top_tickets }
{
    all_below(TOP_TICKETS, |m| is_ahead(reach, row(steadies, m), m))
}
