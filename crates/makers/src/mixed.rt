ghost use Rattle.std.specs.Prelude.{◌≡◌};
ghost use Rattle.planner.specs.Comparing.{left_of_second, Tells};
ghost use Rattle.planner.specs.Lent.{memory_of, SameLists};
ghost use Rattle.day_planner.specs.Comparing.{compared};
ghost use Rattle.makers.specs.MakerBoards.{table_basis, ladder_basis, table_outcome, ladder_outcome, TableKept, LadderKept, SameOffers};

use crate::boards::{LadderInquiry, LadderState, TableInquiry, TableState};
use day_planner::{Refused, compare};
use planner::Lent;

/// Whether a board by table and one by ladder print the same sheet: exactly where their questions have the same best offers.
pub fn compare_table_with_ladder(
    table: TableInquiry,
    lent: &mut Lent<TableState>,
    ladder: LadderInquiry,
    other: &mut Lent<LadderState>,
) -> Result<bool, Refused>
    ensures answer { result ≡ compared (table_outcome table.entry (memory_of lent.old)) (ladder_outcome ladder.entry (memory_of other.old)) }
    ensures same_offers { Tells result (SameOffers (table_basis table.entry) table.entry (ladder_basis ladder.entry) ladder.entry) }
    ensures first_left { memory_of lent.new ≡ (table_outcome table.entry (memory_of lent.old)).left }
    ensures second_left { memory_of other.new ≡ left_of_second (table_outcome table.entry (memory_of lent.old)).answer (memory_of other.old) (ladder_outcome ladder.entry (memory_of other.old)) }
    ensures first_promise { TableKept table.entry (memory_of lent.old) }
    ensures second_promise { LadderKept ladder.entry (memory_of other.old) }
    ensures first_lists { SameLists lent.old lent.new }
    ensures second_lists { SameLists other.old other.new }
{
    compare(table, lent, ladder, other)
}

/// Whether a board by ladder and one by table print the same sheet: exactly where their questions have the same best offers.
pub fn compare_ladder_with_table(
    ladder: LadderInquiry,
    lent: &mut Lent<LadderState>,
    table: TableInquiry,
    other: &mut Lent<TableState>,
) -> Result<bool, Refused>
    ensures answer { result ≡ compared (ladder_outcome ladder.entry (memory_of lent.old)) (table_outcome table.entry (memory_of other.old)) }
    ensures same_offers { Tells result (SameOffers (ladder_basis ladder.entry) ladder.entry (table_basis table.entry) table.entry) }
    ensures first_left { memory_of lent.new ≡ (ladder_outcome ladder.entry (memory_of lent.old)).left }
    ensures second_left { memory_of other.new ≡ left_of_second (ladder_outcome ladder.entry (memory_of lent.old)).answer (memory_of other.old) (table_outcome table.entry (memory_of other.old)) }
    ensures first_promise { LadderKept ladder.entry (memory_of lent.old) }
    ensures second_promise { TableKept table.entry (memory_of other.old) }
    ensures first_lists { SameLists lent.old lent.new }
    ensures second_lists { SameLists other.old other.new }
{
    compare(ladder, lent, table, other)
}
