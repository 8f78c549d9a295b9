ghost use Rattle.std.specs.Prelude.{◌≡◌, ◌<◌, ◌≤◌, map, length, None};
ghost use Rattle.std.specs.Result.{result_err};
ghost use Rattle.short_list.specs.Items.{items};
ghost use Rattle.journeys.specs.Lists.{Each};
ghost use Rattle.journeys.specs.Scan.{scan_for};
ghost use Rattle.scan.specs.Chains.{labels_in};
ghost use Rattle.sheet.specs.Format.{encode};
ghost use Rattle.sheet.specs.Outcome.{laid};
ghost use Rattle.sheet.specs.Rows.{Good};
ghost use Rattle.planner.specs.Handout.{row_of, legs_from};
ghost use Rattle.planner.specs.Lent.{lent, Ends, SameParts};
ghost use Rattle.planner.specs.Limits.{fault_of};
ghost use Rattle.planner.specs.Outcome.{scanned, refusal_of_scan};
ghost use Rattle.planner.specs.Tracing.{Backward};

use crate::answer::Answer;
use crate::handout::rows_of;
use crate::limits::{check_network, check_question, check_room};
use crate::printout::Printout;
use crate::refusal::Refusal;
use crate::selection::select;
use crate::tracing::Traces;
use journeys::{BestOffer, Fare, Full, Label, Network, Passenger, Question};
use scan::LabelStore;
use sheet::{MOST_ROWS, write};
use short_list::ShortList;
use timetable::Timetable;

// Whether a question may be scanned, or why it is refused before.
pub(crate) fn check<T: Timetable>(
    timetable: &T,
    network: &Network,
    question: &Question,
    out: &Printout,
) -> Result<(), Refusal>
    ensures { result_err result ≡ fault_of question.now network.now.stops.now network.now.paths.now (T.Timetable.hops timetable.now) (length out.now.sheet.now) (length out.now.legs.now) }
{
    check_question(question, network.stops.len(), timetable.count())?;
    check_network(timetable, network)?;
    check_room(out.sheet.len(), out.legs.len())?;
    Ok(())
}

// The refusal of a scan that a full list has ended.
fn scan_refusal(full: Full, room: usize) -> Refusal
    ensures { result ≡ refusal_of_scan full room }
{
    match full {
        Full::Store => Refusal::StoreFull(room),
        Full::Aboard(hop) => Refusal::AboardFull(hop),
    }
}

// Writes the rows and the legs of the best offers.
fn print_offers<S: Copy>(
    traces: &Traces<S>,
    offers: &ShortList<BestOffer, MOST_ROWS>,
    out: &mut Printout,
) -> Answer
    requires good { Good (map row_of (items offers.now)) }
    requires each { Each (λ o. o.label < length (labels_in traces.now.labels.now)) (items offers.now) }
    requires sheet_fits { 225 ≤ length out.old.sheet.now }
    requires legs_fit { length (legs_from (labels_in traces.now.labels.now) 0 (items offers.now)) ≤ length out.old.legs.now }
    ensures answer { result ≡ record { rows = length (items offers.now); labels = length (labels_in traces.now.labels.now); bytes = length (encode (map row_of (items offers.now))); legs = length (legs_from (labels_in traces.now.labels.now) 0 (items offers.now)) } }
    ensures sheet { out.new.sheet.now ≡ laid (encode (map row_of (items offers.now))) out.old.sheet.now }
    ensures same_sheet { out.new.sheet.ghost_name ≡ out.old.sheet.ghost_name }
    ensures same_legs { out.new.legs.ghost_name ≡ out.old.legs.ghost_name }
    ensures legs { out.new.legs.now ≡ laid (legs_from (labels_in traces.now.labels.now) 0 (items offers.now)) out.old.legs.now }
{
    let bytes = write(rows_of(offers).as_slice(), out.sheet).unwrap();
    let legs = traces.trace_all(offers.as_slice(), out.legs);
    Answer {
        rows: offers.len(),
        labels: traces.labels.len(),
        bytes,
        legs,
    }
}

// Scans a question that has no fault, and writes its best offers.
pub(crate) fn answer<T: Timetable, F: Fare>(
    timetable: &T,
    fare: &F,
    network: &Network,
    question: &Question,
    store: &mut LabelStore<F::State>,
    aboard: &mut [Passenger<F::State>],
    out: &mut Printout,
) -> Result<Answer, Refusal>
    requires { fault_of question.now network.now.stops.now network.now.paths.now (T.Timetable.hops timetable.now) (length out.old.sheet.now) (length out.old.legs.now) ≡ None }
    ensures outcome { Ends (scanned (F.Fare.model fare.now) question.now.destination (lent store.old aboard.old out.old) (scan_for (F.Fare.model fare.now) (T.Timetable.hops timetable.now) network.now.paths.now question.now store.old.labels.now aboard.old)) result (lent store.new aboard.new out.new) }
    ensures same_lists { SameParts store.old store.new out.old out.new }
{
    let room = store.room();
    store
        .scan(timetable, fare, network.paths, aboard, question)
        .map_err(|full| scan_refusal(full, room))?;
    let offers = select(fare, store.written(), question.destination)?;
    let traces = Traces {
        labels: store.written(),
    };
    Ok(print_offers(&traces, &offers, out))
}
