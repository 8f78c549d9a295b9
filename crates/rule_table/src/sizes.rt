// How large a table may be, and how many events and stop classes there are.
pub(crate) const LEAST_TICKETS: usize = 1;

pub(crate) const TOP_TICKETS: u8 = 32;

// A place for each ticket.
pub(crate) const TICKET_PLACES: usize = TOP_TICKETS as usize;

pub(crate) const TOP_RULES: usize = 128;

pub(crate) const EVENT_COUNT: u8 = 16;

pub(crate) const CLASS_COUNT: usize = 4;
