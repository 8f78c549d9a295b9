#![tactic(auto)]
// Replays a case file that ends badly: its second board is handed a hop behind an entry of its log. The record has what came
// before that line, the line is named on standard error, and the status is 1.
use board_replay::replay_file;
use std::io;
use std::io::{BufReader, BufWriter};
use std::process::ExitCode;

fn run(rt: &HostRuntime) -> io::Result<ExitCode> {
    let alloc = rt.alloc();
    let reader = BufReader::new(alloc, rt.reader())?;
    let mut out = BufWriter::new(alloc, rt.stdout())?;
    replay_file(alloc, reader, &mut out, &mut rt.stderr())
}

fn main(rt: HostRuntime) -> ExitCode {
    run(&rt).unwrap_or(ExitCode::FAILURE)
}
