ghost use Rattle.std.specs.Prelude.{◌≡◌, ◌++◌, OnOk, OnErr};
ghost use Rattle.timetable.specs.Table.{trips_of};
ghost use Rattle.planner.specs.Lent.{memory_of, SameLists};
ghost use Rattle.day_planner.specs.declared.entry.Entry.TheVariants as entries;
ghost use Rattle.day_planner.specs.Log.{after, memory_left};
ghost use Rattle.day_planner.specs.Planners.{day_in, parts_of, basis};
ghost use Rattle.records.specs.Records.{reply_record, claim_record};
ghost use Rattle.board_replay.specs.LogRecords.{entry_record, asked_record, RecordPromise, SheetIsReadBack};

use day_planner::{Entry, Planner, Refusal, Reply};
use fares::{FareState, LawfulMeasure, LawfulTariff, Measure, Tariff};
use journeys::{Network, Question};
use planner::{Lent, Printout};
use records::{write_claim, write_reply};
use std::alloc::AllocError;
use timetable::Timetable;

// Adds a reply, with what a question has printed.
fn write_shown(
    text: &mut Vec<u8>,
    reply: Result<Reply, Refusal>,
    out: &Printout,
) -> Result<(), AllocError>
    ensures record { OnOk result (text.new.items ≡ text.old.items ++ reply_record reply out.now.sheet.now out.now.legs.now) }
    ensures kept { OnErr result (text.new.items ≡ text.old.items) }
{
    let sheet = &*out.sheet;
    let legs = &*out.legs;
    write_reply(text, reply, sheet, legs)
}

// Adds whether the sheet that a question has printed is the one that was claimed.
fn write_compared(
    text: &mut Vec<u8>,
    reply: Result<Reply, Refusal>,
    out: &Printout,
    claimed: &[u8],
) -> Result<(), AllocError>
    ensures { OnOk result (text.new.items ≡ text.old.items ++ claim_record reply out.now.sheet.now claimed.now) }
{
    let sheet = &*out.sheet;
    write_claim(text, reply, sheet, claimed)
}

// Enters an entry of a log, and adds what is recorded of it.
pub fn record_entry<T: Timetable, F: LawfulTariff, M: LawfulMeasure>(
    planner: &mut Planner<T, F, M>,
    entry: Entry,
    network: &Network,
    lent: &mut Lent<FareState<F::Ticket, M::Weight>>,
    text: &mut Vec<u8>,
) -> Result<(), AllocError>
    ensures record { OnOk result (text.new.items ≡ text.old.items ++ entry_record (basis T.Timetable.hops F.Tariff.model M.Measure.model (parts_of planner.old) network.now) (day_in planner.old) (memory_of lent.old) entry) }
    ensures kept { OnErr result (text.new.items ≡ text.old.items) }
    ensures promise { RecordPromise (basis T.Timetable.hops F.Tariff.model M.Measure.model (parts_of planner.old) network.now) (day_in planner.old) (memory_of lent.old) entry (memory_of lent.new) }
    ensures day { day_in planner.new ≡ after (trips_of (T.Timetable.hops (parts_of planner.old).timetable)) (day_in planner.old) entry }
    ensures memory { memory_of lent.new ≡ memory_left (basis T.Timetable.hops F.Tariff.model M.Measure.model (parts_of planner.old) network.now) (day_in planner.old) (memory_of lent.old) entry }
    ensures parts { parts_of planner.new ≡ parts_of planner.old }
    ensures same_lists { SameLists lent.old lent.new }
{
    let reply = planner.enter(entry, network, lent);
    write_shown(text, reply, &lent.out)
}

// Puts a question of a log, and adds what is recorded of it and of the sheet that the board is said to have printed.
pub fn record_claim<T: Timetable, F: LawfulTariff, M: LawfulMeasure>(
    planner: &mut Planner<T, F, M>,
    question: Question,
    claimed: &[u8],
    network: &Network,
    lent: &mut Lent<FareState<F::Ticket, M::Weight>>,
    text: &mut Vec<u8>,
) -> Result<(), AllocError>
    ensures record { OnOk result (text.new.items ≡ text.old.items ++ asked_record (basis T.Timetable.hops F.Tariff.model M.Measure.model (parts_of planner.old) network.now) (day_in planner.old) (memory_of lent.old) question claimed.now) }
    ensures kept { OnErr result (text.new.items ≡ text.old.items) }
    ensures promise { RecordPromise (basis T.Timetable.hops F.Tariff.model M.Measure.model (parts_of planner.old) network.now) (day_in planner.old) (memory_of lent.old) (entries.Ask question) (memory_of lent.new) }
    ensures again { SheetIsReadBack (basis T.Timetable.hops F.Tariff.model M.Measure.model (parts_of planner.old) network.now) (day_in planner.old) (memory_of lent.old) question }
    ensures day { day_in planner.new ≡ day_in planner.old }
    ensures memory { memory_of lent.new ≡ memory_left (basis T.Timetable.hops F.Tariff.model M.Measure.model (parts_of planner.old) network.now) (day_in planner.old) (memory_of lent.old) (entries.Ask question) }
    ensures parts { parts_of planner.new ≡ parts_of planner.old }
    ensures same_lists { SameLists lent.old lent.new }
{
    let reply = planner.enter(Entry::Ask(question), network, lent);
    let mut record = Vec::new(*text.allocator());
    write_shown(&mut record, reply, &lent.out)?;
    write_compared(&mut record, reply, &lent.out, claimed)?;
    text.extend_from_slice(&record)
}
