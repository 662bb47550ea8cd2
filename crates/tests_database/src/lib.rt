//! A router's flooding and its BFR-NBRs, case by case. This crate contains only tests.
#![tactic(auto)]

#[cfg(test)]
mod bfr_nbrs;
#[cfg(test)]
mod floods;
