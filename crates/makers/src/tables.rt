ghost use Rattle.std.specs.Prelude.{◌≡◌};
ghost use Rattle.planner.specs.Comparing.{left_of_second, Tells};
ghost use Rattle.planner.specs.Lent.{memory_of, Ends, SameLists};
ghost use Rattle.day_planner.specs.Comparing.{compared};
ghost use Rattle.makers.specs.MakerBoards.{table_basis, table_outcome, TablePromise, TableKept, SameOffers, TablesAlike};

use crate::boards::{TableInquiry, TableState};
use day_planner::{Refused, ask_after, compare};
use planner::{Answer, Lent, Refusal};

/// Answers a question after a log on a board of either maker, by table.
pub fn ask_by_table(inquiry: TableInquiry, lent: &mut Lent<TableState>) -> Result<Answer, Refusal>
    ensures outcome { Ends (table_outcome inquiry.entry (memory_of lent.old)) result (memory_of lent.new) }
    ensures promise { TablePromise inquiry.entry (memory_of lent.old) result (memory_of lent.new) }
    ensures same_lists { SameLists lent.old lent.new }
{
    ask_after(inquiry, lent)
}

/// Whether two boards of either maker, both by table, print the same sheet: exactly where their questions have the same best offers.
pub fn compare_tables(
    first: TableInquiry,
    lent: &mut Lent<TableState>,
    second: TableInquiry,
    other: &mut Lent<TableState>,
) -> Result<bool, Refused>
    ensures answer { result ≡ compared (table_outcome first.entry (memory_of lent.old)) (table_outcome second.entry (memory_of other.old)) }
    ensures same_offers { Tells result (SameOffers (table_basis first.entry) first.entry (table_basis second.entry) second.entry) }
    ensures first_left { memory_of lent.new ≡ (table_outcome first.entry (memory_of lent.old)).left }
    ensures second_left { memory_of other.new ≡ left_of_second (table_outcome first.entry (memory_of lent.old)).answer (memory_of other.old) (table_outcome second.entry (memory_of other.old)) }
    ensures first_promise { TableKept first.entry (memory_of lent.old) }
    ensures second_promise { TableKept second.entry (memory_of other.old) }
    ensures asked_alike { TablesAlike first.entry (memory_of lent.old) second.entry (memory_of other.old) result }
    ensures first_lists { SameLists lent.old lent.new }
    ensures second_lists { SameLists other.old other.new }
{
    compare(first, lent, second, other)
}
