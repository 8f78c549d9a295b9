#![tactic(auto)]
//! Boards as large as they can be, and one more: writes a case file of them (`widest`, `fullest`, `longest`, `past`), replays
//! it, and prints the record. With the argument `case` it prints the case file itself, for other programs to read.
//!
//! The file is five megabytes, and so it is made here and not stored.
mod fullest;
mod longest;
mod past;
mod text;
mod widest;

use board_replay::{Lines, replay};
use std::env::Env;
use std::io::{BufWriter, Write};
use std::{env, io};
use text::Text;

/// The whole case file.
fn case_file(out: &mut Text) -> io::Result<()> {
    widest::write_board(out)?;
    fullest::write_board(out)?;
    longest::write_board(out)?;
    past::write_boards(out)
}

fn is_case_wanted<R: Env + AllocGlobal>(rt: &R) -> anyhow::Result<bool> {
    let wanted = env::args(rt)?.nth(1);
    Ok(matches!(wanted, Some(word) if word.as_str() == "case"))
}

fn run<R: Env + Print + AllocGlobal>(rt: &R) -> anyhow::Result<()> {
    let alloc = rt.alloc();
    let mut case = Vec::new(alloc);
    case_file(&mut case)?;
    let mut out = BufWriter::new(alloc, io::writer(rt))?;
    if is_case_wanted(rt)? {
        out.write_all(&case)?;
    } else {
        let mut lines = Lines::new(alloc, case.as_slice());
        replay(alloc, &mut lines, &mut out)?;
    }
    out.flush()?;
    Ok(())
}

fn main(rt: HostRuntime) -> anyhow::Result<()> {
    run(&rt)
}
