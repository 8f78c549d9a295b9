#![tactic(auto)]
// Legs retraced: whether the legs on a printed sheet are a journey, and where it leads.
//
// A `Travel` is what legs are retraced over: a timetable, a tariff, a measure, a network, an origin and a departure. Its one
// call, `retrace`, takes legs as they are handed out with a row, and writes a `Step` after each walk and after each hop ridden:
// stop, time, rides, fare state and price. Legs that are no journey are a `Fault`, which says which leg is the first that does
// not follow, and by what `Misstep`.
// `specs/Promise` says what is promised of this, by `specs/Retracing`: in terms of journeys what is answered and what the list of
// steps holds then. `specs/Steps` says what the steps of a journey are, `specs/Missteps` what each misstep means,
// `specs/Weights` which fare and which weight a journey comes to.
mod checking;
mod course;
mod fault;
mod misstep;
mod step;
mod stepping;
#[cfg(test)]
mod tests;
mod travel;

pub use fault::Fault;
pub use misstep::Misstep;
pub use step::Step;
pub use travel::Travel;
