ghost use Rattle.std.specs.Prelude.{◌≡◌};
ghost use Rattle.timetable.specs.Table.{trips_of};
ghost use Rattle.planner.specs.Lent.{lent, memory_of, SameLists, SameParts};
ghost use Rattle.day_planner.specs.Entering.{EntryPromise, EachEntryPromise};
ghost use Rattle.day_planner.specs.Log.{after, day_after, reply_to, memory_left, memory_after};
ghost use Rattle.day_planner.specs.Planners.{day_in, parts_of, basis};

use crate::board_planner::Planner;
use crate::entry::Entry;
use crate::refusal::Refusal;
use crate::reply::Reply;
use fares::{FareState, LawfulMeasure, LawfulTariff, Measure, Tariff};
use journeys::{Network, Passenger};
use planner::{Lent, Printout};
use scan::LabelStore;
use timetable::Timetable;

impl<T: Timetable, F: LawfulTariff, M: LawfulMeasure> Planner<T, F, M> {
    // Takes an entry of a log. Only a question uses the network and the memory, which is lent in its parts, each by a reference
    // of its own.
    pub fn enter_in_parts(
        &mut self,
        entry: Entry,
        network: &Network,
        store: &mut LabelStore<FareState<F::Ticket, M::Weight>>,
        aboard: &mut [Passenger<FareState<F::Ticket, M::Weight>>],
        out: &mut Printout,
    ) -> Result<Reply, Refusal>
        ensures reply { result ≡ reply_to (basis T.Timetable.hops F.Tariff.model M.Measure.model (parts_of self.old) network.now) (day_in self.old) (lent store.old aboard.old out.old) entry }
        ensures day { day_in self.new ≡ after (trips_of (T.Timetable.hops (parts_of self.old).timetable)) (day_in self.old) entry }
        ensures memory { lent store.new aboard.new out.new ≡ memory_left (basis T.Timetable.hops F.Tariff.model M.Measure.model (parts_of self.old) network.now) (day_in self.old) (lent store.old aboard.old out.old) entry }
        ensures parts { parts_of self.new ≡ parts_of self.old }
        ensures promise { EntryPromise (basis T.Timetable.hops F.Tariff.model M.Measure.model (parts_of self.old) network.now) (day_in self.old) (lent store.old aboard.old out.old) entry result (lent store.new aboard.new out.new) }
        ensures same_lists { SameParts store.old store.new out.old out.new }
    {
        match entry {
            Entry::Cancel(trip) => self.cancel(trip)?,
            Entry::Reinstate(trip) => self.reinstate(trip)?,
            Entry::Delay { trip, seconds } => self.delay(trip, seconds)?,
            Entry::Ask(question) => {
                let answer = self.ask_in_parts(network, &question, store, aboard, out)?;
                return Ok(Reply::Answered(answer));
            }
        }
        Ok(Reply::Done)
    }

    // The same, where the memory is lent whole.
    pub fn enter(
        &mut self,
        entry: Entry,
        network: &Network,
        lent: &mut Lent<FareState<F::Ticket, M::Weight>>,
    ) -> Result<Reply, Refusal>
        ensures reply { result ≡ reply_to (basis T.Timetable.hops F.Tariff.model M.Measure.model (parts_of self.old) network.now) (day_in self.old) (memory_of lent.old) entry }
        ensures day { day_in self.new ≡ after (trips_of (T.Timetable.hops (parts_of self.old).timetable)) (day_in self.old) entry }
        ensures memory { memory_of lent.new ≡ memory_left (basis T.Timetable.hops F.Tariff.model M.Measure.model (parts_of self.old) network.now) (day_in self.old) (memory_of lent.old) entry }
        ensures parts { parts_of self.new ≡ parts_of self.old }
        ensures promise { EntryPromise (basis T.Timetable.hops F.Tariff.model M.Measure.model (parts_of self.old) network.now) (day_in self.old) (memory_of lent.old) entry result (memory_of lent.new) }
        ensures same_lists { SameLists lent.old lent.new }
    {
        self.enter_in_parts(entry, network, &mut lent.store, lent.aboard, &mut lent.out)
    }

    // Runs a whole log: a refused entry alters nothing, and the next one follows. The memory is lent in its parts, each by a
    // reference of its own.
    pub fn run_in_parts(
        &mut self,
        log: &[Entry],
        network: &Network,
        store: &mut LabelStore<FareState<F::Ticket, M::Weight>>,
        aboard: &mut [Passenger<FareState<F::Ticket, M::Weight>>],
        out: &mut Printout,
    )
        ensures day { day_in self.new ≡ day_after (trips_of (T.Timetable.hops (parts_of self.old).timetable)) (day_in self.old) log.now }
        ensures memory { lent store.new aboard.new out.new ≡ memory_after (basis T.Timetable.hops F.Tariff.model M.Measure.model (parts_of self.old) network.now) (day_in self.old) (lent store.old aboard.old out.old) log.now }
        ensures parts { parts_of self.new ≡ parts_of self.old }
        ensures promises { EachEntryPromise (basis T.Timetable.hops F.Tariff.model M.Measure.model (parts_of self.old) network.now) (day_in self.old) (lent store.old aboard.old out.old) log.now }
        ensures same_lists { SameParts store.old store.new out.old out.new }
    {
        for entry in log {
            let _ = self.enter_in_parts(*entry, network, store, aboard, out);
        }
    }

    // The same, where the memory is lent whole.
    pub fn run(
        &mut self,
        log: &[Entry],
        network: &Network,
        lent: &mut Lent<FareState<F::Ticket, M::Weight>>,
    )
        ensures day { day_in self.new ≡ day_after (trips_of (T.Timetable.hops (parts_of self.old).timetable)) (day_in self.old) log.now }
        ensures memory { memory_of lent.new ≡ memory_after (basis T.Timetable.hops F.Tariff.model M.Measure.model (parts_of self.old) network.now) (day_in self.old) (memory_of lent.old) log.now }
        ensures parts { parts_of self.new ≡ parts_of self.old }
        ensures promises { EachEntryPromise (basis T.Timetable.hops F.Tariff.model M.Measure.model (parts_of self.old) network.now) (day_in self.old) (memory_of lent.old) log.now }
        ensures same_lists { SameLists lent.old lent.new }
    {
        self.run_in_parts(log, network, &mut lent.store, lent.aboard, &mut lent.out);
    }
}
