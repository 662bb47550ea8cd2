//! A domain whose interfaces come up and go down by hellos, as text: the capture of what its routers sent, and the report of
//! adjacencies, deliveries and drops (ISO/IEC 10589, 8.2; RFC 5303).
//!
//! It depends on `domain_replay` and `isis_hello`, and promises that the texts, the events of the domain and the circuits are those of
//! the definitions, event by event and round by round.
#![tactic(auto)]

mod changes;
mod hand_world;
mod handshakes;
mod laws;

pub use handshakes::Handshakes;
pub use laws::{hellos_move_interfaces, interfaces_begin_down};
