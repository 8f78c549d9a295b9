ghost use Rattle.journeys.specs.NetworkFare.{fare_over};
ghost use Rattle.planner.specs.Asking.{Promise};
ghost use Rattle.planner.specs.Lent.{lent, memory_of, Ends, SameLists, SameParts};
ghost use Rattle.planner.specs.Outcome.{asked_of};

use crate::answer::Answer;
use crate::asking::{answer, check};
use crate::lent::Lent;
use crate::printout::Printout;
use crate::refusal::Refusal;
use fares::{FareState, LawfulMeasure, LawfulTariff, Measure, Tariff};
use journeys::{Network, NetworkFare, Passenger, Question};
use scan::LabelStore;
use timetable::Timetable;

// What a board is loaded with: a timetable, a tariff and a measure.
#[derive_where(Clone, Copy)]
pub struct Board<'a, T, F, M> {
    pub timetable: &'a T,
    pub tariff: &'a F,
    pub measure: &'a M,
}

// Answers a question: a sheet of every connection worth choosing, with the legs to follow. A refusal
// leaves the printout as it was. The memory is lent in its parts, each by a reference of its own.
pub fn ask_in_parts<T: Timetable, F: LawfulTariff, M: LawfulMeasure>(
    board: &Board<T, F, M>,
    network: &Network,
    question: &Question,
    store: &mut LabelStore<FareState<F::Ticket, M::Weight>>,
    aboard: &mut [Passenger<FareState<F::Ticket, M::Weight>>],
    out: &mut Printout,
) -> Result<Answer, Refusal>
    ensures outcome { Ends (asked_of (F.Tariff.model board.now.tariff.now) (M.Measure.model board.now.measure.now) (T.Timetable.hops board.now.timetable.now) network.now.stops.now network.now.paths.now question.now (lent store.old aboard.old out.old)) result (lent store.new aboard.new out.new) }
    ensures promise { Promise (fare_over (F.Tariff.model board.now.tariff.now) (M.Measure.model board.now.measure.now) network.now.stops.now) (T.Timetable.hops board.now.timetable.now) network.now.stops.now network.now.paths.now question.now (lent store.old aboard.old out.old) result (lent store.new aboard.new out.new) }
    ensures same_lists { SameParts store.old store.new out.old out.new }
{
    check(board.timetable, network, question, out)?;
    let fare = NetworkFare {
        tariff: board.tariff,
        measure: board.measure,
        stops: network.stops,
    };
    answer(
        board.timetable,
        &fare,
        network,
        question,
        store,
        aboard,
        out,
    )
}

// The same, where the memory is lent whole.
pub fn ask<T: Timetable, F: LawfulTariff, M: LawfulMeasure>(
    board: &Board<T, F, M>,
    network: &Network,
    question: &Question,
    lent: &mut Lent<FareState<F::Ticket, M::Weight>>,
) -> Result<Answer, Refusal>
    ensures outcome { Ends (asked_of (F.Tariff.model board.now.tariff.now) (M.Measure.model board.now.measure.now) (T.Timetable.hops board.now.timetable.now) network.now.stops.now network.now.paths.now question.now (memory_of lent.old)) result (memory_of lent.new) }
    ensures promise { Promise (fare_over (F.Tariff.model board.now.tariff.now) (M.Measure.model board.now.measure.now) network.now.stops.now) (T.Timetable.hops board.now.timetable.now) network.now.stops.now network.now.paths.now question.now (memory_of lent.old) result (memory_of lent.new) }
    ensures same_lists { SameLists lent.old lent.new }
{
    ask_in_parts(
        board,
        network,
        question,
        &mut lent.store,
        lent.aboard,
        &mut lent.out,
    )
}
