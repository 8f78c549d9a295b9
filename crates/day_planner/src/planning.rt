ghost use Rattle.std.specs.Prelude.{◌≡◌};
ghost use Rattle.timetable.specs.Table.{trips_of};
ghost use Rattle.service_day.specs.Causes.{MayNotCancel, MayNotReinstate, MayNotDelay, RefusesFor};
ghost use Rattle.service_day.specs.Days.{cancelling, reinstating, delaying};
ghost use Rattle.service_day.specs.DayStates.{first_day, after_cancel, after_reinstate, after_delay, meant_on};
ghost use Rattle.service_day.specs.Refusals.{told};
ghost use Rattle.planner.specs.Lent.{lent, memory_of, Ends, SameLists, SameParts};
ghost use Rattle.day_planner.specs.Log.{asked_on};
ghost use Rattle.day_planner.specs.Planners.{day_in, parts_of, basis};
ghost use Rattle.day_planner.specs.Promise.{Promise};

use crate::board_planner::Planner;
use fares::{FareState, LawfulMeasure, LawfulTariff, Measure, Tariff};
use journeys::{Network, Passenger, Question};
use planner::{Answer, Board, Lent, Printout, ask_in_parts};
use scan::LabelStore;
use service_day::{Day, Refusal};
use timetable::Timetable;

impl<T: Timetable, F: LawfulTariff, M: LawfulMeasure> Planner<T, F, M> {
    // A planner on a new day: no trip is cancelled or delayed.
    pub fn new(timetable: T, tariff: F, measure: M) -> Planner<T, F, M>
        ensures day { day_in result ≡ first_day }
        ensures parts { parts_of result ≡ record { timetable = timetable; tariff = tariff; measure = measure } }
    {
        Planner {
            day: Day::new(timetable),
            tariff,
            measure,
        }
    }

    // Cancels a trip.
    pub fn cancel(&mut self, trip: u32) -> Result<(), Refusal>
        ensures answer { result ≡ told (cancelling (trips_of (T.Timetable.hops (parts_of self.old).timetable)) trip (day_in self.old).cancelled) }
        ensures day { day_in self.new ≡ after_cancel (trips_of (T.Timetable.hops (parts_of self.old).timetable)) trip (day_in self.old) }
        ensures causes { RefusesFor (MayNotCancel (trips_of (T.Timetable.hops (parts_of self.old).timetable)) trip (day_in self.old).cancelled) result }
        ensures parts { parts_of self.new ≡ parts_of self.old }
    {
        self.day.cancel(trip)
    }

    // Reinstates a cancelled trip.
    pub fn reinstate(&mut self, trip: u32) -> Result<(), Refusal>
        ensures answer { result ≡ told (reinstating (trips_of (T.Timetable.hops (parts_of self.old).timetable)) trip (day_in self.old).cancelled) }
        ensures day { day_in self.new ≡ after_reinstate (trips_of (T.Timetable.hops (parts_of self.old).timetable)) trip (day_in self.old) }
        ensures causes { RefusesFor (MayNotReinstate (trips_of (T.Timetable.hops (parts_of self.old).timetable)) trip (day_in self.old).cancelled) result }
        ensures parts { parts_of self.new ≡ parts_of self.old }
    {
        self.day.reinstate(trip)
    }

    // Sets a trip's delay; 0 takes it away.
    pub fn delay(&mut self, trip: u32, seconds: u32) -> Result<(), Refusal>
        ensures answer { result ≡ told (delaying (trips_of (T.Timetable.hops (parts_of self.old).timetable)) trip seconds (day_in self.old).delay) }
        ensures day { day_in self.new ≡ after_delay (trips_of (T.Timetable.hops (parts_of self.old).timetable)) trip seconds (day_in self.old) }
        ensures causes { RefusesFor (MayNotDelay (trips_of (T.Timetable.hops (parts_of self.old).timetable)) trip seconds (day_in self.old).delay) result }
        ensures parts { parts_of self.new ≡ parts_of self.old }
    {
        self.day.delay(trip, seconds)
    }

    // Answers a question on this day: a sheet of every connection worth choosing, with the legs to
    // follow. A refusal leaves the printout as it was.
    // The memory is lent in its parts, each by a reference of its own.
    pub fn ask_in_parts(
        &self,
        network: &Network,
        question: &Question,
        store: &mut LabelStore<FareState<F::Ticket, M::Weight>>,
        aboard: &mut [Passenger<FareState<F::Ticket, M::Weight>>],
        out: &mut Printout,
    ) -> Result<Answer, planner::Refusal>
        ensures outcome { Ends (asked_on (basis T.Timetable.hops F.Tariff.model M.Measure.model (parts_of self.now) network.now) (day_in self.now) question.now (lent store.old aboard.old out.old)) result (lent store.new aboard.new out.new) }
        ensures promise { Promise (basis T.Timetable.hops F.Tariff.model M.Measure.model (parts_of self.now) network.now) (meant_on (day_in self.now) (T.Timetable.hops (parts_of self.now).timetable)) question.now (lent store.old aboard.old out.old) result (lent store.new aboard.new out.new) }
        ensures same_lists { SameParts store.old store.new out.old out.new }
    {
        let board = Board {
            timetable: &self.day,
            tariff: &self.tariff,
            measure: &self.measure,
        };
        ask_in_parts(&board, network, question, store, aboard, out)
    }

    // The same, where the memory is lent whole.
    pub fn ask(
        &self,
        network: &Network,
        question: &Question,
        lent: &mut Lent<FareState<F::Ticket, M::Weight>>,
    ) -> Result<Answer, planner::Refusal>
        ensures outcome { Ends (asked_on (basis T.Timetable.hops F.Tariff.model M.Measure.model (parts_of self.now) network.now) (day_in self.now) question.now (memory_of lent.old)) result (memory_of lent.new) }
        ensures promise { Promise (basis T.Timetable.hops F.Tariff.model M.Measure.model (parts_of self.now) network.now) (meant_on (day_in self.now) (T.Timetable.hops (parts_of self.now).timetable)) question.now (memory_of lent.old) result (memory_of lent.new) }
        ensures same_lists { SameLists lent.old lent.new }
    {
        self.ask_in_parts(
            network,
            question,
            &mut lent.store,
            lent.aboard,
            &mut lent.out,
        )
    }
}
