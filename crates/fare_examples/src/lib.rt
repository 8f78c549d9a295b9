#![tactic(auto)]
// Tariffs and measures put together, and worked examples of fares.
//
// `every_kind_keeps_covering` takes a surcharge over a table and one over a ladder, measured in all four ways at once:
// every impl that the theorem about updates asks for stands, so the theorem is about something. The tests beside it
// work fares out by hand and try every limit of a table.
mod every_kind;
#[cfg(test)]
mod given;
#[cfg(test)]
mod tests;
#[cfg(test)]
mod worked;

pub use every_kind::every_kind_keeps_covering;
