ghost use Rattle.std.specs.Prelude.{◌≡◌, ◌≤◌, length, take, Decides};
ghost use Rattle.journeys.specs.NetworkFare.{fare_over};
ghost use Rattle.journeys.specs.Offers.{Best};
ghost use Rattle.planner.specs.Comparing.{compared, left_of_second, Same, Tells, WhereAsked};
ghost use Rattle.planner.specs.Outcome.{asked_of};
ghost use Rattle.planner.specs.Promise.{setup_of};
ghost use Rattle.planner.specs.Lent.{lent, memory_of, SameLists};

use crate::board::ask_in_parts;
use crate::inquiry::{Inquire, Inquiry};
use crate::lent::Lent;
use crate::printout::Printout;
use crate::refused::Refused;
use fares::{FareState, LawfulMeasure, LawfulTariff, Measure, Tariff};
use journeys::Passenger;
use scan::LabelStore;
use timetable::Timetable;

// Whether two printouts show the same sheet, in their first bytes.
fn is_same_sheet(out: &Printout, bytes: usize, other: &Printout, other_bytes: usize) -> bool
    requires bytes_in_bounds { bytes ≤ length out.now.sheet.now }
    requires other_bytes_in_bounds { other_bytes ≤ length other.now.sheet.now }
    ensures { Decides result (take bytes out.now.sheet.now ≡ take other_bytes other.now.sheet.now) }
{
    out.sheet[..bytes] == other.sheet[..other_bytes]
}

// Whether two boards print the same sheet: exactly where their questions have the same best offers.
pub fn compare<A: Inquire, B: Inquire + Drop>(
    first: A,
    lent: &mut Lent<A::State>,
    second: B,
    other: &mut Lent<B::State>,
) -> Result<bool, Refused>
    ensures answer { result ≡ compared (A.outcome first (memory_of lent.old)).answer (A.outcome first (memory_of lent.old)).left.sheet (B.outcome second (memory_of other.old)).answer (B.outcome second (memory_of other.old)).left.sheet }
    ensures same_offers { Tells result (Same (A.best first) (B.best second)) }
    ensures first_left { memory_of lent.new ≡ (A.outcome first (memory_of lent.old)).left }
    ensures second_left { memory_of other.new ≡ left_of_second (A.outcome first (memory_of lent.old)).answer (memory_of other.old) (B.outcome second (memory_of other.old)) }
    ensures first_promise { A.promised first (memory_of lent.old) (A.outcome first (memory_of lent.old)).answer (A.outcome first (memory_of lent.old)).left }
    ensures second_promise { WhereAsked (A.outcome first (memory_of lent.old)).answer (B.promised second (memory_of other.old) (B.outcome second (memory_of other.old)).answer (B.outcome second (memory_of other.old)).left) }
    ensures first_lists { SameLists lent.old lent.new }
    ensures second_lists { SameLists other.old other.new }
{
    let bytes = first.put(lent).map_err(Refused::First)?.bytes;
    let other_bytes = second.put(other).map_err(Refused::Second)?.bytes;
    Ok(is_same_sheet(&lent.out, bytes, &other.out, other_bytes))
}

// The same of two questions whose memories are lent in their parts, each by a reference of its own.
pub fn compare_in_parts<
    T: Timetable,
    F: LawfulTariff,
    M: LawfulMeasure,
    U: Timetable,
    G: LawfulTariff,
    N: LawfulMeasure,
>(
    first: &Inquiry<T, F, M>,
    store: &mut LabelStore<FareState<F::Ticket, M::Weight>>,
    aboard: &mut [Passenger<FareState<F::Ticket, M::Weight>>],
    out: &mut Printout,
    second: &Inquiry<U, G, N>,
    other_store: &mut LabelStore<FareState<G::Ticket, N::Weight>>,
    other_aboard: &mut [Passenger<FareState<G::Ticket, N::Weight>>],
    other_out: &mut Printout,
) -> Result<bool, Refused>
    ensures answer { result ≡ compared (asked_of (F.Tariff.model first.now.board.tariff.now) (M.Measure.model first.now.board.measure.now) (T.Timetable.hops first.now.board.timetable.now) first.now.network.stops.now first.now.network.paths.now first.now.question (lent store.old aboard.old out.old)).answer (asked_of (F.Tariff.model first.now.board.tariff.now) (M.Measure.model first.now.board.measure.now) (T.Timetable.hops first.now.board.timetable.now) first.now.network.stops.now first.now.network.paths.now first.now.question (lent store.old aboard.old out.old)).left.sheet (asked_of (G.Tariff.model second.now.board.tariff.now) (N.Measure.model second.now.board.measure.now) (U.Timetable.hops second.now.board.timetable.now) second.now.network.stops.now second.now.network.paths.now second.now.question (lent other_store.old other_aboard.old other_out.old)).answer (asked_of (G.Tariff.model second.now.board.tariff.now) (N.Measure.model second.now.board.measure.now) (U.Timetable.hops second.now.board.timetable.now) second.now.network.stops.now second.now.network.paths.now second.now.question (lent other_store.old other_aboard.old other_out.old)).left.sheet }
    ensures same_offers { Tells result (Same (Best (setup_of (fare_over (F.Tariff.model first.now.board.tariff.now) (M.Measure.model first.now.board.measure.now) first.now.network.stops.now) (T.Timetable.hops first.now.board.timetable.now) first.now.network.paths.now first.now.question) first.now.question.destination first.now.question.rides) (Best (setup_of (fare_over (G.Tariff.model second.now.board.tariff.now) (N.Measure.model second.now.board.measure.now) second.now.network.stops.now) (U.Timetable.hops second.now.board.timetable.now) second.now.network.paths.now second.now.question) second.now.question.destination second.now.question.rides)) }
    ensures first { lent store.new aboard.new out.new ≡ (asked_of (F.Tariff.model first.now.board.tariff.now) (M.Measure.model first.now.board.measure.now) (T.Timetable.hops first.now.board.timetable.now) first.now.network.stops.now first.now.network.paths.now first.now.question (lent store.old aboard.old out.old)).left }
    ensures second { lent other_store.new other_aboard.new other_out.new ≡ left_of_second (asked_of (F.Tariff.model first.now.board.tariff.now) (M.Measure.model first.now.board.measure.now) (T.Timetable.hops first.now.board.timetable.now) first.now.network.stops.now first.now.network.paths.now first.now.question (lent store.old aboard.old out.old)).answer (lent other_store.old other_aboard.old other_out.old) (asked_of (G.Tariff.model second.now.board.tariff.now) (N.Measure.model second.now.board.measure.now) (U.Timetable.hops second.now.board.timetable.now) second.now.network.stops.now second.now.network.paths.now second.now.question (lent other_store.old other_aboard.old other_out.old)) }
{
    let bytes = ask_in_parts(
        &first.board,
        &first.network,
        &first.question,
        store,
        aboard,
        out,
    )
    .map_err(Refused::First)?
    .bytes;
    let other_bytes = ask_in_parts(
        &second.board,
        &second.network,
        &second.question,
        other_store,
        other_aboard,
        other_out,
    )
    .map_err(Refused::Second)?
    .bytes;
    Ok(is_same_sheet(out, bytes, other_out, other_bytes))
}
