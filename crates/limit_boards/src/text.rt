use std::io;
use std::io::Write;

/// A case file as far as it is written.
pub(crate) type Text = Vec<u8>;

/// What a hop line says, but for its trip and its times.
#[derive(Clone, Copy)]
pub(crate) struct Ride {
    pub(crate) from: u32,
    pub(crate) to: u32,
    pub(crate) metres: u32,
    pub(crate) level: u32,
    pub(crate) event: u32,
}

/// Writes a `hop` line of a running hop.
pub(crate) fn write_hop(
    out: &mut Text,
    trip: u32,
    departure: u32,
    arrival: u32,
    ride: Ride,
) -> io::Result<()> {
    let Ride {
        from,
        to,
        metres,
        level,
        event,
    } = ride;
    writeln!(
        out,
        "hop {trip} {from} {to} {departure} {arrival} {metres} {level} {event} 1"
    )
}

/// Writes so many stops, in all zones and classes by turns.
pub(crate) fn write_stops(out: &mut Text, count: u32) -> io::Result<()> {
    for stop in 0..count {
        writeln!(out, "stop {} {}", stop % 64, stop % 4)?;
    }
    Ok(())
}
