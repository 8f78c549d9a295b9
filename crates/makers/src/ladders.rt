ghost use Rattle.std.specs.Prelude.{◌≡◌};
ghost use Rattle.planner.specs.Comparing.{left_of_second, Tells};
ghost use Rattle.planner.specs.Lent.{memory_of, Ends, SameLists};
ghost use Rattle.day_planner.specs.Comparing.{compared};
ghost use Rattle.makers.specs.MakerBoards.{ladder_basis, ladder_outcome, LadderPromise, LadderKept, SameOffers, LaddersAlike};

use crate::boards::{LadderInquiry, LadderState};
use day_planner::{Refused, ask_after, compare};
use planner::{Answer, Lent, Refusal};

/// Answers a question after a log on a board of either maker, by ladder.
pub fn ask_by_ladder(
    inquiry: LadderInquiry,
    lent: &mut Lent<LadderState>,
) -> Result<Answer, Refusal>
    ensures outcome { Ends (ladder_outcome inquiry.entry (memory_of lent.old)) result (memory_of lent.new) }
    ensures promise { LadderPromise inquiry.entry (memory_of lent.old) result (memory_of lent.new) }
    ensures same_lists { SameLists lent.old lent.new }
{
    ask_after(inquiry, lent)
}

/// Whether two boards of either maker, both by ladder, print the same sheet: exactly where their questions have the same best offers.
pub fn compare_ladders(
    first: LadderInquiry,
    lent: &mut Lent<LadderState>,
    second: LadderInquiry,
    other: &mut Lent<LadderState>,
) -> Result<bool, Refused>
    ensures answer { result ≡ compared (ladder_outcome first.entry (memory_of lent.old)) (ladder_outcome second.entry (memory_of other.old)) }
    ensures same_offers { Tells result (SameOffers (ladder_basis first.entry) first.entry (ladder_basis second.entry) second.entry) }
    ensures first_left { memory_of lent.new ≡ (ladder_outcome first.entry (memory_of lent.old)).left }
    ensures second_left { memory_of other.new ≡ left_of_second (ladder_outcome first.entry (memory_of lent.old)).answer (memory_of other.old) (ladder_outcome second.entry (memory_of other.old)) }
    ensures first_promise { LadderKept first.entry (memory_of lent.old) }
    ensures second_promise { LadderKept second.entry (memory_of other.old) }
    ensures asked_alike { LaddersAlike first.entry (memory_of lent.old) second.entry (memory_of other.old) result }
    ensures first_lists { SameLists lent.old lent.new }
    ensures second_lists { SameLists other.old other.new }
{
    compare(first, lent, second, other)
}
