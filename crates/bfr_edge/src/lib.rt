//! The ingress of a domain (RFC 8279, 3; RFC 8296, 3): the packets for a list of BFR-ids, and their header.
//!
//! This crate depends on `bier_bits` and `bier_head`. It returns one packet for each set identifier, in which each BFR-id of the
//! list occurs once, or the first rule that the list breaks.
#![tactic(auto)]

mod enter;
mod fault;
mod head;
mod packet;

pub use enter::ingress;
pub use fault::sub_in;
pub use head::head_of;
pub use packet::Packet;
pub use wire_base::EdgeFault;
