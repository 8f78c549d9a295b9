use crate::text::{Ride, Text, write_hop, write_stops};
use std::io;
use std::io::Write;

const RIDE: Ride = Ride {
    from: 0,
    to: 1,
    metres: 0,
    level: 0,
    event: 0,
};

/// Trips of one hop each.
fn write_trips(out: &mut Text, count: u32) -> io::Result<()> {
    for trip in 0..count {
        write_hop(out, trip, 600, 900, RIDE)?;
    }
    Ok(())
}

fn write_footpaths(out: &mut Text, count: u32) -> io::Result<()> {
    for _ in 0..count {
        writeln!(out, "path 0 1 60")?;
    }
    Ok(())
}

fn write_rules(out: &mut Text, count: u32) -> io::Result<()> {
    writeln!(out, "table 0 0 0 0 200 300")?;
    for _ in 0..count {
        writeln!(out, "rule 0 1 65535 0 0 0 0")?;
    }
    Ok(())
}

fn write_end(out: &mut Text) -> io::Result<()> {
    writeln!(out, "ladder 100 50")?;
    writeln!(out, "ask 0 1 600 1")
}

/// One more than the most of hops, of stops, of footpaths and of rules, each on a board of its own.
pub(crate) fn write_boards(out: &mut Text) -> io::Result<()> {
    writeln!(out, "case hops")?;
    write_stops(out, 2)?;
    write_trips(out, 65536)?;
    write_end(out)?;
    writeln!(out, "case stops")?;
    write_stops(out, 4097)?;
    write_end(out)?;
    writeln!(out, "case footpaths")?;
    write_stops(out, 2)?;
    write_footpaths(out, 4097)?;
    write_end(out)?;
    writeln!(out, "case rules")?;
    write_rules(out, 129)?;
    writeln!(out, "ask 0 1 600 1")
}
