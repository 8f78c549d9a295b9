ghost use Rattle.std.specs.Prelude.{◌≡◌, ◌≤◌, length, take, Decides};
ghost use Rattle.journeys.specs.Offers.{Best};
ghost use Rattle.planner.specs.Comparing.{left_of_second, Tells};
ghost use Rattle.planner.specs.Lent.{lent, memory_of, Ends, SameLists, SameParts};
ghost use Rattle.planner.specs.ShownOffers.{promised_shows};
ghost use Rattle.day_planner.specs.Comparing.{compared, SameBestAfter};
ghost use Rattle.day_planner.specs.Inquiries.{basis_of, log_of};
ghost use Rattle.day_planner.specs.Log.{asked_after, hops_after};
ghost use Rattle.day_planner.specs.Promise.{Promise, journeys_over};

use crate::board_planner::Planner;
use crate::inquiry::Inquiry;
use fares::{FareState, LawfulMeasure, LawfulTariff, Measure, Tariff};
use journeys::Passenger;
use planner::{Answer, Inquire, Lent, Printout, Refusal, Refused};
use scan::LabelStore;
use timetable::Timetable;

// Answers a question after a log, on a new planner. The questions of the log use the same memory, which is lent in its parts, each
// by a reference of its own.
pub fn ask_after_in_parts<T: Timetable + Drop, F: LawfulTariff + Drop, M: LawfulMeasure + Drop>(
    inquiry: Inquiry<T, F, M>,
    store: &mut LabelStore<FareState<F::Ticket, M::Weight>>,
    aboard: &mut [Passenger<FareState<F::Ticket, M::Weight>>],
    out: &mut Printout,
) -> Result<Answer, Refusal>
    ensures outcome { Ends (asked_after (basis_of T.Timetable.hops F.Tariff.model M.Measure.model inquiry.entry) (log_of inquiry.entry) inquiry.entry.question (lent store.old aboard.old out.old)) result (lent store.new aboard.new out.new) }
    ensures promise { Promise (basis_of T.Timetable.hops F.Tariff.model M.Measure.model inquiry.entry) (hops_after (T.Timetable.hops inquiry.entry.timetable) (log_of inquiry.entry)) inquiry.entry.question (lent store.old aboard.old out.old) result (lent store.new aboard.new out.new) }
    ensures same_lists { SameParts store.old store.new out.old out.new }
{
    let Inquiry {
        timetable,
        tariff,
        measure,
        network,
        log,
        question,
    } = inquiry;
    let mut planner = Planner::new(timetable, tariff, measure);
    planner.run_in_parts(log, &network, store, aboard, out);
    planner.ask_in_parts(&network, &question, store, aboard, out)
}

// The same, where the memory is lent whole.
pub fn ask_after<T: Timetable + Drop, F: LawfulTariff + Drop, M: LawfulMeasure + Drop>(
    inquiry: Inquiry<T, F, M>,
    lent: &mut Lent<FareState<F::Ticket, M::Weight>>,
) -> Result<Answer, Refusal>
    ensures outcome { Ends (asked_after (basis_of T.Timetable.hops F.Tariff.model M.Measure.model inquiry.entry) (log_of inquiry.entry) inquiry.entry.question (memory_of lent.old)) result (memory_of lent.new) }
    ensures promise { Promise (basis_of T.Timetable.hops F.Tariff.model M.Measure.model inquiry.entry) (hops_after (T.Timetable.hops inquiry.entry.timetable) (log_of inquiry.entry)) inquiry.entry.question (memory_of lent.old) result (memory_of lent.new) }
    ensures same_lists { SameLists lent.old lent.new }
{
    ask_after_in_parts(inquiry, &mut lent.store, lent.aboard, &mut lent.out)
}

impl<'a, 'b, T: Timetable + Drop, F: LawfulTariff + Drop, M: LawfulMeasure + Drop> Inquire
    for Inquiry<'a, 'b, T, F, M> {
    type State = FareState<F::Ticket, M::Weight>;

    ghost outcome = { λ i m. asked_after (basis_of T.Timetable.hops F.Tariff.model M.Measure.model i) (log_of i) i.question m };

    ghost promised = { λ i m r n. Promise (basis_of T.Timetable.hops F.Tariff.model M.Measure.model i) (hops_after (T.Timetable.hops i.timetable) (log_of i)) i.question m r n };

    ghost best = { λ i. Best (journeys_over (basis_of T.Timetable.hops F.Tariff.model M.Measure.model i) (hops_after (T.Timetable.hops i.timetable) (log_of i)) i.question) i.question.destination i.question.rides };

    ghost shows = { λ i m n r p. promised_shows (journeys_over (basis_of T.Timetable.hops F.Tariff.model M.Measure.model i) (hops_after (T.Timetable.hops i.timetable) (log_of i)) i.question) i.question.destination i.question.rides r n.sheet n.legs p.shown };

    fn put(self, lent: &mut Lent<FareState<F::Ticket, M::Weight>>) -> Result<Answer, Refusal> {
        ask_after(self, lent)
    }
}

// Whether two boards, each after its log, print the same sheet: exactly where their questions have
// the same best offers.
pub fn compare<
    T: Timetable + Drop,
    F: LawfulTariff + Drop,
    M: LawfulMeasure + Drop,
    U: Timetable + Drop,
    G: LawfulTariff + Drop,
    N: LawfulMeasure + Drop,
>(
    first: Inquiry<T, F, M>,
    lent: &mut Lent<FareState<F::Ticket, M::Weight>>,
    second: Inquiry<U, G, N>,
    other: &mut Lent<FareState<G::Ticket, N::Weight>>,
) -> Result<bool, Refused>
    ensures answer { result ≡ compared (asked_after (basis_of T.Timetable.hops F.Tariff.model M.Measure.model first.entry) (log_of first.entry) first.entry.question (memory_of lent.old)) (asked_after (basis_of U.Timetable.hops G.Tariff.model N.Measure.model second.entry) (log_of second.entry) second.entry.question (memory_of other.old)) }
    ensures same_offers { Tells result (SameBestAfter (basis_of T.Timetable.hops F.Tariff.model M.Measure.model first.entry) (log_of first.entry) first.entry.question (basis_of U.Timetable.hops G.Tariff.model N.Measure.model second.entry) (log_of second.entry) second.entry.question) }
    ensures first_left { (memory_of lent.new) ≡ (asked_after (basis_of T.Timetable.hops F.Tariff.model M.Measure.model first.entry) (log_of first.entry) first.entry.question (memory_of lent.old)).left }
    ensures second_left { (memory_of other.new) ≡ left_of_second (asked_after (basis_of T.Timetable.hops F.Tariff.model M.Measure.model first.entry) (log_of first.entry) first.entry.question (memory_of lent.old)).answer (memory_of other.old) (asked_after (basis_of U.Timetable.hops G.Tariff.model N.Measure.model second.entry) (log_of second.entry) second.entry.question (memory_of other.old)) }
    ensures first_promise { Promise (basis_of T.Timetable.hops F.Tariff.model M.Measure.model first.entry) (hops_after (T.Timetable.hops first.entry.timetable) (log_of first.entry)) first.entry.question (memory_of lent.old) (asked_after (basis_of T.Timetable.hops F.Tariff.model M.Measure.model first.entry) (log_of first.entry) first.entry.question (memory_of lent.old)).answer (asked_after (basis_of T.Timetable.hops F.Tariff.model M.Measure.model first.entry) (log_of first.entry) first.entry.question (memory_of lent.old)).left }
    ensures second_promise { Promise (basis_of U.Timetable.hops G.Tariff.model N.Measure.model second.entry) (hops_after (U.Timetable.hops second.entry.timetable) (log_of second.entry)) second.entry.question (memory_of other.old) (asked_after (basis_of U.Timetable.hops G.Tariff.model N.Measure.model second.entry) (log_of second.entry) second.entry.question (memory_of other.old)).answer (asked_after (basis_of U.Timetable.hops G.Tariff.model N.Measure.model second.entry) (log_of second.entry) second.entry.question (memory_of other.old)).left }
    ensures first_lists { SameLists lent.old lent.new }
    ensures second_lists { SameLists other.old other.new }
{
    planner::compare(first, lent, second, other)
}

// Whether two printouts show the same sheet, in their first bytes.
fn is_same_sheet(out: &Printout, bytes: usize, other: &Printout, other_bytes: usize) -> bool
    requires bytes_in_bounds { bytes ≤ length out.now.sheet.now }
    requires other_bytes_in_bounds { other_bytes ≤ length other.now.sheet.now }
    ensures { Decides result (take bytes out.now.sheet.now ≡ take other_bytes other.now.sheet.now) }
{
    out.sheet[..bytes] == other.sheet[..other_bytes]
}

// The same of two questions whose memories are lent in their parts, each by a reference of its own.
pub fn compare_in_parts<
    T: Timetable + Drop,
    F: LawfulTariff + Drop,
    M: LawfulMeasure + Drop,
    U: Timetable + Drop,
    G: LawfulTariff + Drop,
    N: LawfulMeasure + Drop,
>(
    first: Inquiry<T, F, M>,
    store: &mut LabelStore<FareState<F::Ticket, M::Weight>>,
    aboard: &mut [Passenger<FareState<F::Ticket, M::Weight>>],
    out: &mut Printout,
    second: Inquiry<U, G, N>,
    other_store: &mut LabelStore<FareState<G::Ticket, N::Weight>>,
    other_aboard: &mut [Passenger<FareState<G::Ticket, N::Weight>>],
    other_out: &mut Printout,
) -> Result<bool, Refused>
    ensures answer { result ≡ compared (asked_after (basis_of T.Timetable.hops F.Tariff.model M.Measure.model first.entry) (log_of first.entry) first.entry.question (lent store.old aboard.old out.old)) (asked_after (basis_of U.Timetable.hops G.Tariff.model N.Measure.model second.entry) (log_of second.entry) second.entry.question (lent other_store.old other_aboard.old other_out.old)) }
    ensures same_offers { Tells result (SameBestAfter (basis_of T.Timetable.hops F.Tariff.model M.Measure.model first.entry) (log_of first.entry) first.entry.question (basis_of U.Timetable.hops G.Tariff.model N.Measure.model second.entry) (log_of second.entry) second.entry.question) }
    ensures first_left { lent store.new aboard.new out.new ≡ (asked_after (basis_of T.Timetable.hops F.Tariff.model M.Measure.model first.entry) (log_of first.entry) first.entry.question (lent store.old aboard.old out.old)).left }
    ensures second_left { lent other_store.new other_aboard.new other_out.new ≡ left_of_second (asked_after (basis_of T.Timetable.hops F.Tariff.model M.Measure.model first.entry) (log_of first.entry) first.entry.question (lent store.old aboard.old out.old)).answer (lent other_store.old other_aboard.old other_out.old) (asked_after (basis_of U.Timetable.hops G.Tariff.model N.Measure.model second.entry) (log_of second.entry) second.entry.question (lent other_store.old other_aboard.old other_out.old)) }
    ensures first_promise { Promise (basis_of T.Timetable.hops F.Tariff.model M.Measure.model first.entry) (hops_after (T.Timetable.hops first.entry.timetable) (log_of first.entry)) first.entry.question (lent store.old aboard.old out.old) (asked_after (basis_of T.Timetable.hops F.Tariff.model M.Measure.model first.entry) (log_of first.entry) first.entry.question (lent store.old aboard.old out.old)).answer (asked_after (basis_of T.Timetable.hops F.Tariff.model M.Measure.model first.entry) (log_of first.entry) first.entry.question (lent store.old aboard.old out.old)).left }
    ensures second_promise { Promise (basis_of U.Timetable.hops G.Tariff.model N.Measure.model second.entry) (hops_after (U.Timetable.hops second.entry.timetable) (log_of second.entry)) second.entry.question (lent other_store.old other_aboard.old other_out.old) (asked_after (basis_of U.Timetable.hops G.Tariff.model N.Measure.model second.entry) (log_of second.entry) second.entry.question (lent other_store.old other_aboard.old other_out.old)).answer (asked_after (basis_of U.Timetable.hops G.Tariff.model N.Measure.model second.entry) (log_of second.entry) second.entry.question (lent other_store.old other_aboard.old other_out.old)).left }
{
    let bytes = ask_after_in_parts(first, store, aboard, out)
        .map_err(Refused::First)?
        .bytes;
    let other_bytes = ask_after_in_parts(second, other_store, other_aboard, other_out)
        .map_err(Refused::Second)?
        .bytes;
    Ok(is_same_sheet(out, bytes, other_out, other_bytes))
}
