#![tactic(auto)]
// Worked questions, run as tests: four stops and two crossings, each by ferry or the cheaper way
// (`case`); as many offers as a sheet can hold, and one more (`most_offers`); a tariff that
// breaks its laws only at an event that no hop has (`odd_event`); two boards that have
// nothing in common but their offers (`two_makers`). The crate has nothing of its own.

#[cfg(test)]
mod answers;
#[cfg(test)]
mod case;
#[cfg(test)]
mod most_offers;
#[cfg(test)]
mod odd_event;
#[cfg(test)]
mod printed;
#[cfg(test)]
mod refusals;
#[cfg(test)]
mod two_makers;
