use crate::{Extra, Fault, Line, Load, MeasureName, ReadError, Room, read_line};
use day_planner::Entry;
use fares::Gauges;
use journeys::{Footpath, Question, Stop};
use rule_table::Rule;
use std::test::Fail;
use timetable::Hop;

const HOP: Hop = Hop {
    trip: 7,
    from: 1,
    to: 2,
    departure: 600,
    arrival: 4_294_967_295,
    metres: 1500,
    level: 3,
    event: 255,
    runs: true,
};

const QUESTION: Question = Question {
    origin: 4,
    destination: 9,
    departure: 28_800,
    rides: 2,
};

fn loaded(line: Line) -> Option<Load> {
    match line {
        Line::Load(load) => Some(load),
        _ => None,
    }
}

fn entered(line: Line) -> Option<Entry> {
    match line {
        Line::Entry(entry) => Some(entry),
        _ => None,
    }
}

#[test]
fn what_a_board_was_loaded_with_and_its_log(rt: HostRuntime) -> Result<(), Fail> {
    let rule = Rule {
        ticket: 1,
        target: 255,
        events: 65_535,
        minima: Gauges {
            metres: 5000,
            stops: 6,
            zones: 7,
            level: 8,
        },
    };
    let room = Room {
        labels: 4096,
        aboard: 256,
        bytes: 225,
        legs: 544,
    };
    let loads = [
        ("list", Load::HopList),
        (
            "line 600 20",
            Load::IntervalLine {
                interval: 600,
                trips: 20,
            },
        ),
        ("hop 7 1 2 600 4294967295 1500 3 255 1", Load::Hop(HOP)),
        (
            "  hop 7   1 2 600 4294967295 01500 3 255 0 ",
            Load::Hop(Hop { runs: false, ..HOP }),
        ),
        (
            "stop 255 3",
            Load::Stop(Stop {
                zone: 255,
                class: 3,
            }),
        ),
        (
            "path 8 9 240",
            Load::Footpath(Footpath {
                from: 8,
                to: 9,
                seconds: 240,
            }),
        ),
        ("measure metres", Load::Measure(MeasureName::Metres)),
        ("measure stops", Load::Measure(MeasureName::Stops)),
        ("measure zones", Load::Measure(MeasureName::Zones)),
        ("measure level", Load::Measure(MeasureName::Level)),
        ("measure all", Load::Measure(MeasureName::All)),
        ("rule 1 255 65535 5000 6 7 8", Load::Rule(rule)),
        ("ladder 3 4", Load::Ladder { first: 3, step: 4 }),
        (
            "surcharge 15 4294967295",
            Load::Surcharge(Extra {
                event: 15,
                amount: 4_294_967_295,
            }),
        ),
        ("room 4096 256 225 544", Load::Room(room)),
    ];
    for (text, wanted) in loads {
        let line = read_line(rt.alloc(), text.as_bytes())?;
        assert_eq!(rt; loaded(line), Some(wanted), "at {text}");
    }
    let entries = [
        ("cancel 7", Entry::Cancel(7)),
        ("reinstate 8", Entry::Reinstate(8)),
        (
            "delay 9 300",
            Entry::Delay {
                trip: 9,
                seconds: 300,
            },
        ),
        ("ask 4 9 28800 2", Entry::Ask(QUESTION)),
    ];
    for (text, wanted) in entries {
        let line = read_line(rt.alloc(), text.as_bytes())?;
        assert_eq!(rt; entered(line), Some(wanted), "at {text}");
    }
    Ok(())
}

#[test]
fn nothing_names_tables_and_claims(rt: HostRuntime) -> Result<(), Fail> {
    for text in ["", "   ", "#", "# stop 1 2"] {
        let line = read_line(rt.alloc(), text.as_bytes())?;
        assert!(rt; matches!(line, Line::Nothing), "at {text}");
    }
    let line = read_line(rt.alloc(), b"case  #1")?;
    assert!(rt; matches!(&line, Line::Case(name) if name.as_slice() == b"#1".as_slice()));
    let prices = [0, 4_294_967_295];
    for (text, prices) in [
        ("table 0 1 2 255 0 4294967295", prices.as_slice()),
        ("table 0 1 2 255", &[]),
    ] {
        let line = read_line(rt.alloc(), text.as_bytes())?;
        assert!(rt;
            matches!(&line, Line::Table(table)
            if table.starts == [0, 1, 2, 255] && table.prices.as_slice() == prices),
            "at {text}"
        );
    }
    let sheet = [0x02, 0x1b, 0xdc, 0x05, 0xff];
    for (text, sheet) in [
        ("ask 4 9 28800 2 = 02 1b DC 5 fF", sheet.as_slice()),
        ("ask 4 9 28800 2 =", &[]),
    ] {
        let line = read_line(rt.alloc(), text.as_bytes())?;
        assert!(rt;
            matches!(&line, Line::Claim(claim)
            if claim.question == QUESTION && claim.sheet.as_slice() == sheet),
            "at {text}"
        );
    }
    Ok(())
}

#[test]
fn lines_that_cannot_be_read(rt: HostRuntime) {
    let hundred_digits = "cancel 1000000000000000000000000000000000000000000000000\
        000000000000000000000000000000000000000000000000000";
    let lines = [
        ("stops 1 2", Fault::UnknownWord),
        ("Stop 1 2", Fault::UnknownWord),
        ("stop\t1 2", Fault::UnknownWord),
        (" # stop 1 2", Fault::UnknownWord),
        ("measure seconds", Fault::UnknownWord),
        ("case", Fault::MissingWord),
        ("stop 1", Fault::MissingWord),
        ("measure", Fault::MissingWord),
        ("table 0 1 2", Fault::MissingWord),
        ("ask 4 9 28800 = 02", Fault::NotANumber),
        ("case a b", Fault::ExtraWord),
        ("list 1", Fault::ExtraWord),
        ("stop 1 2 3", Fault::ExtraWord),
        ("ask 4 9 28800 2 02", Fault::ExtraWord),
        ("cancel x", Fault::NotANumber),
        ("cancel -1", Fault::NotANumber),
        ("table 0 1 2 3 4 5x", Fault::NotANumber),
        ("stop 256 0", Fault::TooLarge),
        ("rule 1 2 65536 0 0 0 0", Fault::TooLarge),
        ("cancel 4294967296", Fault::TooLarge),
        (hundred_digits, Fault::TooLarge),
        ("hop 7 1 2 600 700 1500 3 4 2", Fault::TooLarge),
        ("ask 4 9 28800 2 = 02 01b", Fault::NotAByte),
        ("ask 4 9 28800 2 = gg", Fault::NotAByte),
    ];
    for (text, wanted) in lines {
        let fault = read_line(rt.alloc(), text.as_bytes()).err();
        assert_eq!(rt; fault, Some(ReadError::Fault(wanted)), "at {text}");
    }
}
