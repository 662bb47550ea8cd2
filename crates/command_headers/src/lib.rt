//! The command `headers`: the BIER headers of a capture.
//!
//! It reads the capture record by record. For each record that carries a BIER packet it reports the header, or why its
//! octets are not a valid header.
#![tactic(auto)]

mod headers;
mod line;

pub use headers::run_headers;
