ghost use Rattle.std.specs.Prelude.{Result};
ghost use Rattle.journeys.specs.NetworkFare.{fare_over};
ghost use Rattle.journeys.specs.Offers.{Offer, Best};
ghost use Rattle.planner.specs.Asking.{Promise};
ghost use Rattle.planner.specs.Comparing.{ShowsBest};
ghost use Rattle.planner.specs.Lent.{memory_of, Ends, SameLists};
ghost use Rattle.planner.specs.Outcome.{Memory, Outcome, asked_of};
ghost use Rattle.planner.specs.Promise.{setup_of};
ghost use Rattle.planner.specs.ShownOffers.{promised_shows};
ghost use Rattle.planner.specs.declared.answer.Answer.{Answer};
ghost use Rattle.planner.specs.declared.refusal.Refusal.{Refusal as AskRefusal};

use crate::answer::Answer;
use crate::board::{Board, ask};
use crate::lent::Lent;
use crate::refusal::Refusal;
use fares::{FareState, LawfulMeasure, LawfulTariff, Measure, Tariff};
use journeys::{Network, Question};
use timetable::Timetable;

// A question that can be put, once, to the board that it is about.
pub trait Inquire {
    type State: Copy;

    ghost outcome: { Self → Memory Self.State → Outcome Self.State };

    // What is promised of an answer, by the memory before and after.
    ghost promised: { Self → Memory Self.State → Result Answer AskRefusal → Memory Self.State → Type 0 };

    // The best offers of the question.
    ghost best: { Self → Offer → Type 0 };

    fn put(self, lent: &mut Lent<Self::State>) -> Result<Answer, Refusal>
        ensures outcome { Ends (outcome self (memory_of lent.old)) result (memory_of lent.new) }
        ensures promise { promised self (memory_of lent.old) result (memory_of lent.new) }
        ensures same_lists { SameLists lent.old lent.new };

    // As promised, an answered sheet holds the best offers, and nothing else.
    ghost shows: { (i : Self) (m n : Memory Self.State) (r : Result Answer AskRefusal) → promised i m r n → ShowsBest (best i) r n.sheet };
}

// A question, with the board and the network that it is about.
#[derive_where(Clone, Copy)]
pub struct Inquiry<'a, 'b, T, F, M> {
    pub board: Board<'a, T, F, M>,
    pub network: Network<'b>,
    pub question: Question,
}

impl<'a, 'b, T: Timetable, F: LawfulTariff, M: LawfulMeasure> Inquire for Inquiry<'a, 'b, T, F, M> {
    type State = FareState<F::Ticket, M::Weight>;

    ghost outcome = { λ i m. asked_of (F.Tariff.model i.board.tariff.now) (M.Measure.model i.board.measure.now) (T.Timetable.hops i.board.timetable.now) i.network.stops.now i.network.paths.now i.question m };

    ghost promised = { λ i m r n. Promise (fare_over (F.Tariff.model i.board.tariff.now) (M.Measure.model i.board.measure.now) i.network.stops.now) (T.Timetable.hops i.board.timetable.now) i.network.stops.now i.network.paths.now i.question m r n };

    ghost best = { λ i. Best (setup_of (fare_over (F.Tariff.model i.board.tariff.now) (M.Measure.model i.board.measure.now) i.network.stops.now) (T.Timetable.hops i.board.timetable.now) i.network.paths.now i.question) i.question.destination i.question.rides };

    ghost shows = { λ i m n r p. promised_shows (setup_of (fare_over (F.Tariff.model i.board.tariff.now) (M.Measure.model i.board.measure.now) i.network.stops.now) (T.Timetable.hops i.board.timetable.now) i.network.paths.now i.question) i.question.destination i.question.rides r n.sheet n.legs p.shown };

    fn put(self, lent: &mut Lent<FareState<F::Ticket, M::Weight>>) -> Result<Answer, Refusal> {
        ask(&self.board, &self.network, &self.question, lent)
    }
}
