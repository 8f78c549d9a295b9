ghost use Rattle.std.specs.Prelude.{Some};
ghost use Rattle.board_replay.specs.Boards.{day_from, measured_by, measure_of, surcharged_by, based_on, opened_by, Opens};
ghost use Rattle.board_replay.specs.Loading.{handed, said_base};
ghost use Rattle.board_replay.specs.Replays.{Runs};
ghost use Rattle.board_replay.specs.Streams.{place, ReadsOn};

use crate::failure::Failure;
use crate::lines::Lines;
use crate::loaded::{Base, Loaded, Timing};
use crate::log::{Next, run};
use crate::memory::{Memory, blank_state};
use case_lines::MeasureName;
use day_planner::Planner;
use fares::{Ladder, LawfulMeasure, LawfulTariff, Measure, Surcharge, Tariff};
use measures::{Level, Metres, Pair, Stops, Zones};
use records::OpeningRefusal;
use rule_table::RuleTable;
use std::alloc::Global;
use std::io::{BufRead, Write};
use timetable::{HopList, IntervalLine, Timetable};

// Opens the timetable, then the tariff, and runs the log.
pub(crate) fn open<R: BufRead, W: Write>(
    alloc: Global,
    loaded: &Loaded,
    base: &Base,
    lines: &mut Lines<R>,
    out: &mut W,
) -> Result<Next, Failure>
    ensures opening { Opens (opened_by (Some (said_base base.now)) (handed loaded.now)) (place R.Read.remaining lines.old) result (place R.Read.remaining lines.new) (W.contents out.old) (W.contents out.new) }
    ensures lines { ReadsOn (place R.Read.remaining lines.old) result (place R.Read.remaining lines.new) }
{
    match loaded.timing {
        Some(Timing::IntervalLine { interval, trips }) => {
            let line = IntervalLine::open(&loaded.hops, interval, trips).map_err(
                OpeningRefusal::Timetable,
            )?;
            with_timetable(alloc, loaded, base, line, lines, out)
        }
        _ => {
            let list = HopList::over(&loaded.hops).map_err(OpeningRefusal::Timetable)?;
            with_timetable(alloc, loaded, base, list, lines, out)
        }
    }
}

fn with_timetable<T: Timetable + Drop, R: BufRead, W: Write>(
    alloc: Global,
    loaded: &Loaded,
    base: &Base,
    timetable: T,
    lines: &mut Lines<R>,
    out: &mut W,
) -> Result<Next, Failure>
    ensures opening { Opens (based_on (Some (said_base base.now)) (T.Timetable.hops timetable) (handed loaded.now)) (place R.Read.remaining lines.old) result (place R.Read.remaining lines.new) (W.contents out.old) (W.contents out.new) }
    ensures lines { ReadsOn (place R.Read.remaining lines.old) result (place R.Read.remaining lines.new) }
{
    match base {
        Base::Table(table) => {
            let tariff = RuleTable::open(&table.prices, &loaded.rules, table.starts).map_err(
                OpeningRefusal::Table,
            )?;
            with_base(alloc, loaded, timetable, tariff, lines, out)
        }
        Base::Ladder { first, step } => {
            let tariff = Ladder::open(*first, *step).map_err(OpeningRefusal::Fares)?;
            with_base(alloc, loaded, timetable, tariff, lines, out)
        }
    }
}

fn with_base<T: Timetable + Drop, F: LawfulTariff + Drop, R: BufRead, W: Write>(
    alloc: Global,
    loaded: &Loaded,
    timetable: T,
    base: F,
    lines: &mut Lines<R>,
    out: &mut W,
) -> Result<Next, Failure>
    ensures opening { Opens (surcharged_by loaded.now.surcharge (F.Tariff.model base) (T.Timetable.hops timetable) (handed loaded.now)) (place R.Read.remaining lines.old) result (place R.Read.remaining lines.new) (W.contents out.old) (W.contents out.new) }
    ensures lines { ReadsOn (place R.Read.remaining lines.old) result (place R.Read.remaining lines.new) }
{
    match loaded.surcharge {
        Some(extra) => {
            let tariff = Surcharge::open(base, extra.event, extra.amount).map_err(
                OpeningRefusal::Fares,
            )?;
            with_tariff(alloc, loaded, timetable, tariff, lines, out)
        }
        None => with_tariff(alloc, loaded, timetable, base, lines, out),
    }
}

fn with_tariff<T: Timetable + Drop, F: LawfulTariff + Drop, R: BufRead, W: Write>(
    alloc: Global,
    loaded: &Loaded,
    timetable: T,
    tariff: F,
    lines: &mut Lines<R>,
    out: &mut W,
) -> Result<Next, Failure>
    ensures log { Runs (measured_by (measure_of loaded.now.measure) (F.Tariff.model tariff) (T.Timetable.hops timetable) (handed loaded.now)) (place R.Read.remaining lines.old) result (place R.Read.remaining lines.new) (W.contents out.old) (W.contents out.new) }
    ensures lines { ReadsOn (place R.Read.remaining lines.old) result (place R.Read.remaining lines.new) }
{
    match loaded.measure() {
        MeasureName::Metres => {
            with_measure(alloc, loaded, timetable, tariff, Metres {}, lines, out)
        }
        MeasureName::Stops => with_measure(alloc, loaded, timetable, tariff, Stops {}, lines, out),
        MeasureName::Zones => with_measure(alloc, loaded, timetable, tariff, Zones {}, lines, out),
        MeasureName::Level => with_measure(alloc, loaded, timetable, tariff, Level {}, lines, out),
        MeasureName::All => {
            let all = Pair {
                first: Pair {
                    first: Metres {},
                    second: Stops {},
                },
                second: Pair {
                    first: Zones {},
                    second: Level {},
                },
            };
            with_measure(alloc, loaded, timetable, tariff, all, lines, out)
        }
    }
}

fn with_measure<
    T: Timetable + Drop,
    F: LawfulTariff + Drop,
    M: LawfulMeasure + Drop,
    R: BufRead,
    W: Write,
>(
    alloc: Global,
    loaded: &Loaded,
    timetable: T,
    tariff: F,
    measure: M,
    lines: &mut Lines<R>,
    out: &mut W,
) -> Result<Next, Failure>
    ensures log { Runs (day_from (F.Tariff.model tariff) (M.Measure.model measure) (T.Timetable.hops timetable) (handed loaded.now)) (place R.Read.remaining lines.old) result (place R.Read.remaining lines.new) (W.contents out.old) (W.contents out.new) }
    ensures lines { ReadsOn (place R.Read.remaining lines.old) result (place R.Read.remaining lines.new) }
{
    let room = loaded.room();
    let memory = Memory::new(alloc, &room, blank_state(&tariff, &measure))?;
    let planner = Planner::new(timetable, tariff, measure);
    run(alloc, planner, memory, &loaded.network(), lines, out)
}
