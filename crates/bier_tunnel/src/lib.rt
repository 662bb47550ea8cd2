//! The routes of tunnels: over which interface a router sends a tunnel, to which BFR-prefix, and what it
//! does with a tunnel packet that it receives (RFC 8279, 6.9; RFC 2784).
#![tactic(auto)]

mod fib;
mod first_steps;
mod laws;
mod next;
mod ways;

pub use fib::Fib;
pub use laws::tunnel_ways;
pub use next::{Next, next_of};
