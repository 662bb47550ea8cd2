//! A comparison of two lists of octets, many at once.
//!
//! It depends on nothing but `std`.
#![tactic(auto)]

mod same;

pub use same::are_same_octets;
