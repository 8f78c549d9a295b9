use crate::text::{Ride, Text, write_hop, write_stops};
use std::io;
use std::io::Write;

const STOPS: u32 = 4096;

const FOOTPATHS: u32 = 4096;

const TRIPS: u32 = 4369;

const HOPS_OF_A_TRIP: u32 = 15;

/// Each trip rides on from stop to stop, two minutes a hop; trips begin a minute apart, over two hours.
fn write_trips(out: &mut Text) -> io::Result<()> {
    for trip in 0..TRIPS {
        let first = trip * 7 % STOPS;
        let begin = 600 + trip % 120 * 60;
        for hop in 0..HOPS_OF_A_TRIP {
            let departure = begin + hop * 120;
            let ride = Ride {
                from: (first + hop) % STOPS,
                to: (first + hop + 1) % STOPS,
                metres: 100 + trip % 1000,
                level: trip % 8,
                event: (trip + hop) % 16,
            };
            write_hop(out, trip, departure, departure + 90, ride)?;
        }
    }
    Ok(())
}

/// A footpath from each stop to the next but one.
fn write_footpaths(out: &mut Text) -> io::Result<()> {
    for stop in 0..FOOTPATHS {
        let to = (stop + 2) % STOPS;
        writeln!(out, "path {stop} {to} {}", 1 + stop * 7 % 3600)?;
    }
    Ok(())
}

/// 32 tickets, and 128 rules: from each ticket to the next ones, by metres and zones.
fn write_table(out: &mut Text) -> io::Result<()> {
    write!(out, "table 0 1 2 3")?;
    for ticket in 0..32u32 {
        write!(out, " {}", 200 + ticket * 50)?;
    }
    writeln!(out)?;
    let mut rules = 0u32;
    for step in 1..6u32 {
        for ticket in 0..32u32 {
            if ticket + step < 32 && rules < 128 {
                let target = ticket + step;
                let far = (ticket + step) * 800;
                writeln!(out, "rule {ticket} {target} 65535 {far} 0 {target} 0")?;
                rules += 1;
            }
        }
    }
    Ok(())
}

fn write_log(out: &mut Text) -> io::Result<()> {
    writeln!(out, "ask 0 20 600 1")?;
    writeln!(out, "ask 0 30 600 2")?;
    writeln!(out, "cancel 0")?;
    writeln!(out, "delay 4368 7200")?;
    writeln!(out, "ask 0 30 600 2")?;
    writeln!(out, "ask 4095 9 8000 1")?;
    writeln!(out, "cancel 4369")
}

/// 65,535 hops, 4,096 stops and footpaths, 32 tickets and 128 rules, a surcharge, and room to match.
pub(crate) fn write_board(out: &mut Text) -> io::Result<()> {
    writeln!(out, "case widest")?;
    write_stops(out, STOPS)?;
    write_trips(out)?;
    write_footpaths(out)?;
    write_table(out)?;
    writeln!(out, "surcharge 15 99999")?;
    writeln!(out, "room 500000 65535 225 544")?;
    write_log(out)
}
