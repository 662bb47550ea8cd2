//! Schedules on small domains, captures at one router, generated domains, and texts of `hop` and `headers`, with their
//! complete reports and what their captures contain; each call of a source or a sink that fails; and the topology of a
//! router, and what it does with a frame. This crate contains only tests.
#![tactic(auto)]

#[cfg(test)]
mod captures;
#[cfg(test)]
mod chains;
#[cfg(test)]
mod domains;
#[cfg(test)]
mod faults;
#[cfg(test)]
mod grown;
#[cfg(test)]
mod inputs;
#[cfg(test)]
mod made;
#[cfg(test)]
mod received;
#[cfg(test)]
mod reports;
#[cfg(test)]
mod runs;
#[cfg(test)]
mod systems;
#[cfg(test)]
mod twelve;
#[cfg(test)]
mod views;
