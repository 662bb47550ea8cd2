//! What one router does with a BIER packet (RFC 8279, 6.5; RFC 8296, 2 and 3): it parses it, delivers it, sends its copies, in
//! tunnels or not, and drops the rest. Likewise for packets that enter the domain here. It also forwards tunnel packets for other
//! routers (RFC 2784).
//!
//! This crate depends on those for the header, rows, table, hop, tunnels and ingress. It does exactly what the definition of
//! one router prescribes for a packet.
#![tactic(auto)]

mod bift;
mod cache;
mod copy;
mod effects;
mod enter;
mod forward;
mod incoming;
mod outcome;
mod routes;
mod sent_frames;
mod table_rows;
mod transit;
mod ways;

pub use cache::Routes;
pub use effects::{DropNote, Effects};
pub use enter::enter_packets;
pub use forward::hop_packet;
pub use incoming::{Incoming, read_packet};
pub use sent_frames::SentFrames;
pub use table_rows::own_place;
pub use transit::forward_tunnel;
