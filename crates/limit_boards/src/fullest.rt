use crate::text::{Ride, Text, write_hop};
use std::io;
use std::io::Write;

const ROWS: u32 = 32;

/// The hop of the row: each arrives later than the one before, by a shorter way, and so for less.
fn write_trip(out: &mut Text, row: u32) -> io::Result<()> {
    let ride = Ride {
        from: 0,
        to: 1,
        metres: (ROWS - row.min(ROWS)) * 1000,
        level: 0,
        event: 0,
    };
    write_hop(out, row, 600, arrival(row), ride)
}

/// None of its three bytes is 0.
fn arrival(row: u32) -> u32 {
    0x01_02_03 + row.min(ROWS)
}

/// None of its three bytes is 0.
fn price(row: u32) -> u32 {
    0x11_11_40 - row.min(ROWS)
}

/// A ticket for each row, the dearest for the longest way.
fn write_table(out: &mut Text) -> io::Result<()> {
    write!(out, "table 0 0 0 0")?;
    for ticket in 0..ROWS {
        write!(out, " {}", price(ROWS - 1 - ticket))?;
    }
    writeln!(out)?;
    for ticket in 1..ROWS {
        let metres = (ticket + 1) * 1000;
        writeln!(out, "rule 0 {ticket} 65535 {metres} 0 0 0")?;
    }
    Ok(())
}

fn write_bytes(out: &mut Text, number: u32) -> io::Result<()> {
    let low = number % 256;
    let middle = number / 256 % 256;
    let high = number / 65536 % 256;
    write!(out, " {low:02x} {middle:02x} {high:02x}")
}

/// The question, with the sheet of 225 bytes that must come.
fn write_claim(out: &mut Text) -> io::Result<()> {
    write!(out, "ask 0 1 600 1 = 20")?;
    for row in 0..ROWS {
        write!(out, " 3f")?;
        write_bytes(out, arrival(row))?;
        write_bytes(out, price(row))?;
    }
    writeln!(out)
}

/// A sheet of 32 rows of which each byte is written, claimed; and one trip more, which makes 33 best offers.
pub(crate) fn write_board(out: &mut Text) -> io::Result<()> {
    writeln!(out, "case fullest")?;
    writeln!(out, "stop 0 0")?;
    writeln!(out, "stop 0 0")?;
    for row in 0..ROWS {
        write_trip(out, row)?;
    }
    write_table(out)?;
    writeln!(out, "measure metres")?;
    writeln!(out, "room 33 1 225 544")?;
    write_claim(out)?;
    writeln!(out, "cancel 31")?;
    write_claim(out)
}
