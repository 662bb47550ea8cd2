//! Files as sources and sinks whose calls fail one by one, a real file, and runs of the program on real files. This
//! crate contains only tests.
#![tactic(auto)]

#[cfg(test)]
mod disk;
#[cfg(test)]
mod files;
#[cfg(test)]
mod runs;
