use crate::{Failure, Fault, Lines, replay, replay_file};
use case_lines::Fault as LineFault;
use std::io;
use std::io::{BufRead, BufReader, BufWriter, Read, Write};
use std::process::{Abort, ExitCode};
use std::test::Fail;

// A file with a bad line, what was recorded before it, and the number of the line that was read last.
type BadFile = (&'static str, &'static str, u64);

const UNKNOWN_WORD: [BadFile; 4] = [
    ("stops 0 0\n", "", 1),
    ("\n# a remark\nmeasure kilometres\n", "", 3),
    (
        "ladder 7 0\ncancel 0\nAsk 0 1 0 1\ncancel 0\n",
        "refused 5 0\n",
        3,
    ),
    (
        "case a\nline 59 1\nladder 7 0\ncancel 0\nundo\n",
        "case a\nrefused 2\n",
        5,
    ),
];

const MISSING_WORD: [BadFile; 8] = [
    ("case\n", "", 1),
    ("line 600\n", "", 1),
    ("hop 0 0 1 10 20 0 0 0\n", "", 1),
    ("measure\n", "", 1),
    ("table 0 0 0\n", "", 1),
    ("table 0 0 0 0 5\nrule 0 1 1 0 0 0\n", "", 2),
    ("ladder 7 0\nask 0 1 0\n", "", 2),
    ("ladder 7 0\ncancel 0\ndelay 0\n", "refused 5 0\n", 3),
];

const EXTRA_WORD: [BadFile; 6] = [
    ("case a b\n", "", 1),
    ("list 0\n", "", 1),
    ("stop 0 0 0\n", "", 1),
    ("surcharge 2 5 5\n", "", 1),
    ("ladder 7 0\ncancel 0 0\n", "", 2),
    ("ladder 7 0\ncancel 0\nask 0 1 0 1 00\n", "refused 5 0\n", 3),
];

// Each field up to 255, EVENTS, RUNS, and fields up to 4,294,967,295 of each kind of line.
const TOO_LARGE: [BadFile; 22] = [
    ("stop 256 0\n", "", 1),
    ("stop 0 256\n", "", 1),
    ("hop 0 0 1 10 20 0 256 0 1\n", "", 1),
    ("hop 0 0 1 10 20 0 0 256 1\n", "", 1),
    ("hop 0 0 1 10 20 0 0 0 2\n", "", 1),
    ("table 256 0 0 0 5\n", "", 1),
    ("table 0 0 0 256 5\n", "", 1),
    ("rule 256 1 1 0 0 0 0\n", "", 1),
    ("rule 0 256 1 0 0 0 0\n", "", 1),
    ("rule 0 1 65536 0 0 0 0\n", "", 1),
    ("surcharge 256 5\n", "", 1),
    ("line 4294967296 1\n", "", 1),
    ("hop 4294967296 0 1 10 20 0 0 0 1\n", "", 1),
    ("path 0 1 4294967296\n", "", 1),
    ("table 0 0 0 0 5 4294967296\n", "", 1),
    ("rule 0 1 1 0 0 0 4294967296\n", "", 1),
    ("ladder 7 4294967296\n", "", 1),
    ("surcharge 2 4294967296\n", "", 1),
    ("room 4096 256 225 4294967296\n", "", 1),
    ("ladder 7 0\ncancel 4294967296\n", "", 2),
    (
        "ladder 7 0\ncancel 0\ndelay 0 4294967296\n",
        "refused 5 0\n",
        3,
    ),
    (
        "ladder 7 0\ncancel 0\nask 0 4294967296 0 1\n",
        "refused 5 0\n",
        3,
    ),
];

const NOT_A_NUMBER: [BadFile; 2] = [
    ("stop 0 0x1\n", "", 1),
    ("ladder 7 0\ncancel 0\nreinstate -1\n", "refused 5 0\n", 3),
];

const NOT_A_BYTE: [BadFile; 2] = [
    ("ladder 7 0\nask 0 1 0 1 = 001\n", "", 2),
    (
        "ladder 7 0\ncancel 0\nask 0 1 0 1 = 00 0g\n",
        "refused 5 0\n",
        3,
    ),
];

const RULE_BEFORE_TABLE: [BadFile; 3] = [
    ("rule 0 1 1 0 0 0 0\ntable 0 0 0 0 5 6\n", "", 1),
    ("ladder 7 0\nrule 0 1 1 0 0 0 0\n", "", 2),
    (
        "case a\ntable 0 0 0 0 5 6\ncancel 0\ncase b\nrule 0 1 1 0 0 0 0\n",
        "case a\nrefused 5 0\ncase b\n",
        5,
    ),
];

const AGAIN: [BadFile; 12] = [
    ("list\nlist\n", "", 2),
    ("line 600 2\nline 600 2\n", "", 2),
    ("list\nline 600 2\n", "", 2),
    ("line 600 2\nlist\n", "", 2),
    ("measure all\nstop 0 0\nmeasure stops\n", "", 3),
    ("table 0 0 0 0 5\ntable 0 0 0 0 5\n", "", 2),
    ("ladder 7 0\nladder 7 0\n", "", 2),
    ("table 0 0 0 0 5\nladder 7 0\n", "", 2),
    ("ladder 7 0\ntable 0 0 0 0 5\n", "", 2),
    ("surcharge 2 5\nsurcharge 3 5\n", "", 2),
    ("room 4096 256 225 544\nroom 4096 256 225 544\n", "", 2),
    (
        "case a\nladder 7 0\ncancel 0\ncase b\nladder 7 0\nladder 7 0\ncase c\n",
        "case a\nrefused 5 0\ncase b\n",
        6,
    ),
];

// At the first entry of the log, by the next case line, and by the end of the file.
const NO_TARIFF: [BadFile; 9] = [
    ("stop 0 0\ncancel 0\n", "", 2),
    ("ask 0 1 0 1\n", "", 1),
    ("ask 0 1 0 1 = 00\n", "", 1),
    ("line 59 1\nsurcharge 1 5\ncancel 0\n", "", 3),
    ("hop 1 0 1 10 20 0 0 0 1\ncancel 0\n", "", 2),
    ("stop 0 0\ncase a\nladder 7 0\n", "", 2),
    ("case a\ncase b\nladder 7 0\n", "case a\n", 2),
    ("measure all\n", "", 1),
    (
        "case a\nladder 7 0\ncase b\nlist\n\n# a remark",
        "case a\ncase b\n",
        6,
    ),
];

// Also on a board that was refused as it was opened.
const LATE: [BadFile; 6] = [
    ("ladder 7 0\ncancel 0\nstop 0 0\n", "refused 5 0\n", 3),
    (
        "ladder 7 0\ncancel 0\ntable 0 0 0 0 5\n",
        "refused 5 0\n",
        3,
    ),
    (
        "ladder 7 0\nask 0 1 0 1 = 00\nlist\n",
        "refused 9 0\ndiffers\n",
        3,
    ),
    (
        "ladder 7 0\ncancel 0\n\nladder 7 0\ncancel 1\n",
        "refused 5 0\n",
        4,
    ),
    (
        "line 59 1\nladder 7 0\ncancel 0\nmeasure all\n",
        "refused 2\n",
        4,
    ),
    (
        "line 59 1\nladder 7 0\ncancel 0\ntable 0 0 0 0 5\n",
        "refused 2\n",
        4,
    ),
];

// Files whose lines can all be read, and their records.
const GOOD: [(&str, &str); 17] = [
    ("", ""),
    ("# a remark\n\n   \n#", ""),
    // no entry, and no name
    ("list\nladder 7 0\n", ""),
    ("line 59 1\nladder 7 0\n", "refused 2\n"),
    // no entry, with a name
    (
        "case a\nhop 1 0 1 10 20 0 0 0 1\nladder 7 0\ncase b\nladder 7 0\ncase c\nladder 1000000 0",
        "case a\nrefused 1 0\ncase b\ncase c\nrefused 4\n",
    ),
    // the timetable is opened first, then the table or the ladder, then the surcharge
    (
        "line 59 1\ntable 0 0 0 1 5\nsurcharge 1 5\ncancel 0\n",
        "refused 2\n",
    ),
    (
        "hop 1 0 1 10 20 0 0 0 1\nladder 1000000 0\ncancel 0\n",
        "refused 1 0\n",
    ),
    (
        "table 0 0 0 1 5\nsurcharge 1 5\ncancel 0\n",
        "refused 3 128\n",
    ),
    (
        "table 0 0 0 0 5\nrule 0 0 1 0 0 0 0\nsurcharge 1 5\ncancel 0\n",
        "refused 3 0\n",
    ),
    ("ladder 7 0\nsurcharge 1 5\ncancel 0\n", "refused 4\n"),
    ("table 0 0 0 0 5\nsurcharge 2 0\ncancel 0\n", "refused 4\n"),
    // a log is read on after its board was refused
    (
        "case a\nline 59 1\nladder 7 0\ncancel 0\n# a remark\nask 0 1 0 1 = 00\ncase b\nladder 7 0\ncancel 3\n",
        "case a\nrefused 2\ncase b\nrefused 5 3\n",
    ),
    // nothing is left of the board before
    (
        "list\nmeasure stops\nsurcharge 2 5\nroom 1 1 1 1\nhop 0 0 1 10 20 0 0 0 1\nladder 7 0\ncancel 0\n\
        case a\nlist\nmeasure stops\nsurcharge 2 5\nroom 1 1 1 1\nladder 7 0\nreinstate 0\n\
        case b\nline 600 2\nhop 0 0 1 10 20 0 0 0 1\ntable 0 0 0 0 5\nreinstate 1\n",
        "ok\ncase a\nrefused 5 0\ncase b\nrefused 7 1\n",
    ),
    // blanks, and digits to spare
    ("  ladder   07 00  \n  cancel 0003 \n", "refused 5 3\n"),
    (
        "ladder 7 0\ncancel 0\ncancel 4294967295",
        "refused 5 0\nrefused 5 4294967295\n",
    ),
    // no room for the sheet, the legs, the origin's label, the first aboard
    (
        "stop 0 0\nladder 7 0\nroom 1 0 224 544\nask 0 0 0 1\n\
        case a\nstop 0 0\nladder 7 0\nroom 1 0 225 543\nask 0 0 0 1\n\
        case b\nstop 0 0\nladder 7 0\nroom 0 0 225 544\nask 0 0 0 1\n\
        case c\nstop 0 0\nstop 0 0\nhop 0 0 1 10 20 0 0 0 1\nladder 7 0\nroom 2 0 225 544\nask 0 1 0 1\n",
        "refused 11 0\ncase a\nrefused 11 1\ncase b\nrefused 12 0\ncase c\nrefused 13 0\n",
    ),
    // by hop 0 at 20 = 0x14 for 7
    (
        "stop 0 0\nstop 0 0\nhop 0 0 1 10 20 0 0 0 1\nladder 7 0\n\
        ask 0 1 0 1 = 1 09 14 07\nask 0 1 11 1 = 00 00\nask 2 1 0 1 =",
        "rows 1 labels 2 bytes 4 legs 1\n01 09 14 07\n0 1 0 0\nsame\n\
        rows 0 labels 1 bytes 1 legs 0\n00\ndiffers\n\
        refused 9 0\ndiffers\n",
    ),
];

// What is wrong with a line.
#[derive(Clone, Copy, Debug, PartialEq, Eq)]
enum Wrong {
    Unreadable(LineFault),
    Misplaced(Fault),
}

fn wrong_line(ended: Result<(), Failure>) -> Option<Wrong> {
    match ended {
        Err(Failure::Unreadable(fault)) => Some(Wrong::Unreadable(fault)),
        Err(Failure::Misplaced(fault)) => Some(Wrong::Misplaced(fault)),
        _ => None,
    }
}

fn check_files(rt: &(impl Abort + AllocGlobal), files: &[BadFile], wrong: Wrong) {
    let alloc = rt.alloc();
    for (text, record, number) in files {
        let mut lines = Lines::new(alloc, text.as_bytes());
        let mut out = Vec::new(alloc);
        let ended = replay(alloc, &mut lines, &mut out);
        assert_eq!(rt; wrong_line(ended), Some(wrong), "{text}");
        assert_eq!(rt; lines.number(), *number, "{text}");
        assert!(rt; out.as_slice() == record.as_bytes(), "{text}");
    }
}

#[test]
fn lines_that_cannot_be_read(rt: HostRuntime) {
    check_files(
        &rt,
        &UNKNOWN_WORD,
        Wrong::Unreadable(LineFault::UnknownWord),
    );
    check_files(
        &rt,
        &MISSING_WORD,
        Wrong::Unreadable(LineFault::MissingWord),
    );
    check_files(&rt, &EXTRA_WORD, Wrong::Unreadable(LineFault::ExtraWord));
    check_files(&rt, &TOO_LARGE, Wrong::Unreadable(LineFault::TooLarge));
    check_files(&rt, &NOT_A_NUMBER, Wrong::Unreadable(LineFault::NotANumber));
    check_files(&rt, &NOT_A_BYTE, Wrong::Unreadable(LineFault::NotAByte));
    check_files(
        &rt,
        &RULE_BEFORE_TABLE,
        Wrong::Misplaced(Fault::RuleBeforeTable),
    );
    check_files(&rt, &AGAIN, Wrong::Misplaced(Fault::Again));
    check_files(&rt, &NO_TARIFF, Wrong::Misplaced(Fault::NoTariff));
    check_files(&rt, &LATE, Wrong::Misplaced(Fault::Late));
}

#[test]
fn boards_and_their_records(rt: HostRuntime) {
    let alloc = rt.alloc();
    for (text, record) in &GOOD {
        let mut lines = Lines::new(alloc, text.as_bytes());
        let mut out = Vec::new(alloc);
        assert!(rt; replay(alloc, &mut lines, &mut out).is_ok(), "{text}");
        assert!(rt; out.as_slice() == record.as_bytes(), "{text}");
    }
}

// A reader that fails.
#[derive(Drop)]
struct Broken;

impl Read for Broken {
    fn read(&mut self, _buf: &mut [u8]) -> io::Result<usize> {
        Err(io::Error::from(io::ErrorKind::TimedOut))
    }
}

#[test]
fn a_read_and_a_write_that_fail(rt: HostRuntime) -> Result<(), Fail> {
    let alloc = rt.alloc();
    let text = b"case a\nladder 7 0\ncancel 3\ncancel 4";
    let record = b"case a\nrefused 5 3\n";

    // in mid-line
    let mut lines = Lines::new(alloc, text.as_slice().chain(BufReader::new(alloc, Broken)?));
    let mut out = Vec::new(alloc);
    let ended = replay(alloc, &mut lines, &mut out);
    assert!(rt;
        matches!(ended, Err(Failure::Input(error)) if error.kind() == io::ErrorKind::TimedOut)
    );
    assert_eq!(rt; lines.number(), 3);
    assert!(rt; out.as_slice() == record.as_slice());

    // where there is room for a part of the record
    let mut room = [0; 12];
    let mut lines = Lines::new(alloc, text.as_slice());
    let ended = replay(alloc, &mut lines, &mut room.as_mut_slice());
    assert!(rt;
        matches!(ended, Err(Failure::Input(error)) if error.kind() == io::ErrorKind::WriteZero)
    );
    assert_eq!(rt; lines.number(), 3);
    assert!(rt; room.as_slice() == &record[..12]);
    Ok(())
}

// A writer that fails once it has no more room.
#[derive(Drop)]
struct Full {
    room: usize,
    held: Vec<u8>,
}

impl Write for Full {
    fn write(&mut self, buf: &[u8]) -> io::Result<usize> {
        if self.room == 0 {
            return Err(io::Error::from(io::ErrorKind::StorageFull));
        }
        let count = buf.len().min(self.room);
        self.held.extend_from_slice(&buf[..count])?;
        self.room -= count;
        Ok(count)
    }

    fn flush(&mut self) -> io::Result<()> {
        Ok(())
    }
}

// What a file is told of, and the status.
type Told = (&'static str, &'static str, &'static str, ExitCode);

const TOLD: [Told; 4] = [
    (
        "case a\nladder 7 0\ncancel 3\n",
        "case a\nrefused 5 3\n",
        "",
        ExitCode::SUCCESS,
    ),
    (
        "case a\nladder 7 0\ncancel 3\n\nundo\ncancel 4\n",
        "case a\nrefused 5 3\n",
        "line 5: unknown word\n",
        ExitCode::FAILURE,
    ),
    (
        "case a\nladder 7 0\ncancel 3\nlist\n",
        "case a\nrefused 5 3\n",
        "line 4: handed in behind the first entry of the log\n",
        ExitCode::FAILURE,
    ),
    (
        "ladder 7 0\ncancel 3\ncase a\n\n# the last line",
        "refused 5 3\ncase a\n",
        "line 5: neither a table nor a ladder\n",
        ExitCode::FAILURE,
    ),
];

#[test]
fn what_is_told_of_a_file(rt: HostRuntime) -> Result<(), Fail> {
    let alloc = rt.alloc();
    for (text, record, told, status) in &TOLD {
        let mut out = BufWriter::new(alloc, Vec::new(alloc))?;
        let mut err = Vec::new(alloc);
        let ended = replay_file(alloc, text.as_bytes(), &mut out, &mut err)?;
        assert!(rt; ended == *status, "{text}");
        assert!(rt; err.as_slice() == told.as_bytes(), "{text}");
        assert!(rt; out.get_ref().as_slice() == record.as_bytes(), "{text}");
    }
    Ok(())
}

#[test]
fn what_is_told_of_a_read_and_of_a_write_that_fail(rt: HostRuntime) -> Result<(), Fail> {
    let alloc = rt.alloc();
    let text = b"case a\nladder 7 0\ncancel 3\ncancel 4\n";
    let record = b"case a\nrefused 5 3\nrefused 5 4\n";
    let stopped = b"case a\nladder 7 0\ncancel 3\nundo\n";

    // in mid-stream, at the last write, and at the last write before a line that cannot be read
    let files = [
        (text.as_slice(), 4),
        (text.as_slice(), 100),
        (stopped.as_slice(), 100),
    ];
    for (text, capacity) in files {
        let full = Full {
            room: 12,
            held: Vec::new(alloc),
        };
        let mut out = BufWriter::with_capacity(alloc, capacity, full)?;
        let mut err = Vec::new(alloc);
        let ended = replay_file(alloc, text, &mut out, &mut err)?;
        assert!(rt; ended == ExitCode::FAILURE);
        assert!(rt; err.as_slice() == b"no storage space\n".as_slice());
        assert!(rt; out.get_ref().held.as_slice() == &record[..12]);
    }

    let broken = text[..27].chain(BufReader::new(alloc, Broken)?);
    let mut out = BufWriter::new(alloc, Vec::new(alloc))?;
    let mut err = Vec::new(alloc);
    let ended = replay_file(alloc, broken, &mut out, &mut err)?;
    assert!(rt; ended == ExitCode::FAILURE);
    assert!(rt; err.as_slice() == b"timed out\n".as_slice());
    assert!(rt; out.get_ref().as_slice() == &record[..19]);
    Ok(())
}

#[test]
fn what_is_told_where_telling_fails(rt: HostRuntime) -> Result<(), Fail> {
    let alloc = rt.alloc();
    let mut out = BufWriter::new(alloc, Vec::new(alloc))?;
    let mut err = Full {
        room: 12,
        held: Vec::new(alloc),
    };
    let text = b"case a\nladder 7 0\ncancel 3\nundo\n";
    let ended = replay_file(alloc, text.as_slice(), &mut out, &mut err);
    assert!(rt; matches!(ended, Err(error) if error.kind() == io::ErrorKind::StorageFull));
    assert!(rt; err.held.as_slice() == b"line 4: unkn".as_slice());
    assert!(rt; out.get_ref().as_slice() == b"case a\nrefused 5 3\n".as_slice());
    Ok(())
}
