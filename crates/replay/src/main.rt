#![tactic(auto)]
// Reads a case file on standard input, replays each board's day, and writes the record on standard output. A line that
// cannot be read is named on standard error, and ends the run with status 1.
use board_replay::replay_file;
use std::io;
use std::io::{BufReader, BufWriter};
use std::process::ExitCode;

fn run(rt: &HostRuntime) -> io::Result<ExitCode> {
    let alloc = rt.alloc();
    let reader = BufReader::new(alloc, rt.reader())?;
    let mut out = BufWriter::new(alloc, rt.stdout())?;
    replay_file(alloc, reader, &mut out, &mut rt.stderr())
}

fn main(rt: HostRuntime) -> ExitCode {
    run(&rt).unwrap_or(ExitCode::FAILURE)
}
