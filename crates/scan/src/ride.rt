ghost use Rattle.std.specs.Prelude.{◌≡◌, ℕ, ◌+◌, true, []};
ghost use Rattle.journeys.specs.Scan.{passed, emptied, kept, riding, pass_hop as pass_hop_run, pass_hops as pass_hops_run, round as round_run, rounds as rounds_run, scan_for};
ghost use Rattle.journeys.specs.Runs.{overlay};
ghost use Rattle.scan.specs.Chains.{linked};
ghost use Rattle.scan.specs.Rounds.{all_from};
ghost use Rattle.scan.specs.Filling.{ran};
ghost use Rattle.scan.specs.Stages.{stage, stage_of, room_for, idle, Carried};
ghost use Rattle.scan.specs.Stores.{Chained, labels_of};

use crate::boarding::board_all;
use crate::filled::Filled;
use crate::offering::offer;
use crate::path_table::PathTable;
use crate::riding::{alight_all, ride_all};
use crate::store::Store;
use crate::turn::Turn;
use crate::walking::walks;
use journeys::{Fare, Full, Label, Passenger, Question};
use timetable::{Hop, Timetable};

// What a scan reads beside the question.
#[derive(Drop)]
pub(crate) struct Given<'a, T, F> {
    pub(crate) timetable: &'a T,
    pub(crate) fare: &'a F,
    pub(crate) paths: &'a PathTable<'a>,
}

// A scan under way: the labels written, those aboard, and the trip that they are on. It is lent its
// lists: of lists that it owned, nothing was known once it was over.
#[derive(Drop)]
pub(crate) struct Ride<'r, 'a, 'b, S> {
    labels: &'r mut Store<'a, S>,
    aboard: &'r mut Filled<'b, Passenger<S>>,
    trip: u32,
}

// Round 0 passes no hop, every other round all of them.
fn hops_in_round<T: Timetable>(timetable: &T, round: u32) -> u32
    ensures { result ≡ passed (T.Timetable.hops timetable.now) round }
{
    if round == 0 { 0 } else { timetable.count() }
}

impl<'r, 'a, 'b, S: Copy> Ride<'r, 'a, 'b, S> {
    // Nobody is aboard any more.
    #[tactic(auto, using(crate::proofs::Extending::extended_same))]
    fn empty(&mut self, trip: u32)
        requires chained { Chained self.old.labels.now }
        ensures run { stage_of self.new ≡ emptied trip (stage_of self.old) }
        ensures carried { Carried self.old self.new }
    {
        self.aboard.clear();
        self.trip = trip;
    }

    // A new trip lets all off.
    #[tactic(auto, using(crate::proofs::Extending::extended_same))]
    fn keep(&mut self, hop: &Hop)
        requires chained { Chained self.old.labels.now }
        ensures run { stage_of self.new ≡ kept hop.now (stage_of self.old) }
        ensures carried { Carried self.old self.new }
    {
        if self.trip != hop.trip {
            self.empty(hop.trip);
        }
    }

    // Whether nobody would ride a hop, if it ran: no label is in the slot of its stop, and those aboard are on another trip, if there
    // are any.
    fn is_idle(&self, hop: &Hop) -> bool
        requires chained { Chained self.now.labels.now }
        ensures { result ≡ idle hop.now self.now }
    {
        self.labels.first_at(hop.from).is_none()
            && (self.trip != hop.trip || self.aboard.len() == 0)
    }

    // A hop that runs: labels board, all aboard ride on, and all aboard are offered. (A call of its own: at most hops nobody rides.)
    #[inline(never)]
    fn ride<F: Fare<State = S>>(&mut self, fare: &F, turn: &Turn) -> Result<(), Full>
        requires chained { Chained self.old.labels.now }
        requires begins { all_from turn.now.begins turn.now.round (labels_of self.old.labels.now) ≡ true }
        ensures run { riding (F.Fare.model fare.now) (room_for self.old) turn.now.round turn.now.place turn.now.hop (stage_of self.old) ≡ ran result (stage_of self.new) }
        ensures carried { Carried self.old self.new }
    {
        self.keep(&turn.hop);
        board_all(fare, turn, self.labels, self.aboard)?;
        ride_all(fare, &turn.hop, self.aboard);
        alight_all(fare, turn, self.aboard.as_slice(), self.labels)
    }

    // A hop that does not run lets all off; so does one that nobody rides.
    #[inline(always)]
    fn pass_hop<F: Fare<State = S>>(&mut self, fare: &F, turn: &Turn) -> Result<(), Full>
        requires chained { Chained self.old.labels.now }
        requires begins { all_from turn.now.begins turn.now.round (labels_of self.old.labels.now) ≡ true }
        ensures run { pass_hop_run (F.Fare.model fare.now) (room_for self.old) turn.now.round turn.now.place turn.now.hop (stage_of self.old) ≡ ran result (stage_of self.new) }
        ensures carried { Carried self.old self.new }
    {
        if !turn.hop.runs || self.is_idle(&turn.hop) {
            self.empty(turn.hop.trip);
            return Ok(());
        }
        self.ride(fare, turn)
    }

    // Passes the hops of a round, which begins with nobody aboard.
    #[tactic(auto, using(crate::proofs::Stages::carried_then))]
    fn pass_hops<T: Timetable, F: Fare<State = S>>(
        &mut self,
        given: &Given<T, F>,
        round: u32,
    ) -> Result<(), Full>
        requires chained { Chained self.old.labels.now }
        ensures run { pass_hops_run (F.Fare.model given.now.fare.now) (room_for self.old) (T.Timetable.hops given.now.timetable.now) round (stage_of self.old) (passed (T.Timetable.hops given.now.timetable.now) round) ≡ ran result (stage_of self.new) }
        ensures carried { Carried self.old self.new }
    {
        self.empty(0);
        let begins = self.labels.len();
        // by place, since a timetable is no list: it answers one hop at a time
        for place in 0..hops_in_round(given.timetable, round) {
            let Some(hop) = given.timetable.hop(place) else {
                continue;
            };
            let turn = Turn {
                round,
                begins,
                place,
                hop,
            };
            self.pass_hop(given.fare, &turn)?;
        }
        Ok(())
    }

    // A round: its hops, and then the footpaths from the labels that it has reached.
    fn round<T: Timetable, F: Fare<State = S>>(
        &mut self,
        given: &Given<T, F>,
        round: u32,
    ) -> Result<(), Full>
        requires chained { Chained self.old.labels.now }
        ensures run { round_run (F.Fare.model given.now.fare.now) (room_for self.old) (T.Timetable.hops given.now.timetable.now) given.now.paths.now.paths.now round (stage_of self.old) ≡ ran result (stage_of self.new) }
        ensures carried { Carried self.old self.new }
    {
        self.pass_hops(given, round)?;
        walks(given.fare, given.paths, round, self.labels)
    }

    // Round 0 and `limit` rounds more.
    #[tactic(auto, using(crate::proofs::Stages::carried_then))]
    fn rounds<T: Timetable, F: Fare<State = S>>(
        &mut self,
        given: &Given<T, F>,
        limit: u32,
    ) -> Result<(), Full>
        requires chained { Chained self.old.labels.now }
        ensures run { rounds_run (F.Fare.model given.now.fare.now) (room_for self.old) (T.Timetable.hops given.now.timetable.now) given.now.paths.now.paths.now (stage_of self.old) (limit + 1) ≡ ran result (stage_of self.new) }
        ensures carried { Carried self.old self.new }
    {
        // a round is its number, and no element of a list
        for round in 0..=limit {
            self.round(given, round)?;
        }
        Ok(())
    }
}

// Writes the origin, and then runs round 0 and as many rounds as the question asks for.
pub(crate) fn scan<T: Timetable, F: Fare>(
    given: &Given<T, F>,
    question: &Question,
    labels: &mut Store<F::State>,
    aboard: &mut Filled<Passenger<F::State>>,
) -> Result<(), Full>
    requires chained { Chained labels.old }
    requires unwritten { labels_of labels.old ≡ [] }
    requires nobody { aboard.old.used ≡ 0 }
    ensures run { (trip : ℕ) × (scan_for (F.Fare.model given.now.fare.now) (T.Timetable.hops given.now.timetable.now) given.now.paths.now.paths.now question.now labels.old.places.now aboard.old.places.now ≡ ran result (stage trip labels.new aboard.new)) }
    ensures labels { labels.new.places.now ≡ overlay (linked (labels_of labels.new)) labels.old.places.now }
    ensures same_labels { labels.new.places.ghost_name ≡ labels.old.places.ghost_name }
    ensures same_aboard { aboard.new.places.ghost_name ≡ aboard.old.places.ghost_name }
{
    let state = given.fare.start(question.origin);
    let origin = Label::at_origin(question.origin, question.departure, state);
    offer(given.fare, origin, labels)?;
    let mut ride = Ride {
        labels,
        aboard,
        trip: 0,
    };
    ride.rounds(given, question.rides)
}
