#![tactic(auto)]
// A list of few entries in fixed memory: a `ShortList` has N places, of which the first ones are used. Nothing is
// allocated, and what does not fit is refused.
mod entries;
mod list;

pub use list::ShortList;
