//! One router that handles frames: what it floods, what it forwards and what it delivers (ISO/IEC 10589, 7.3.15 to
//! 7.3.17; RFC 8279, 6; RFC 8296, 2 and 3; RFC 8401).
//!
//! It depends on all crates of one router. It promises that a router is its control state, and that each call changes
//! this state, and returns, what the definitions say, for arbitrary octets.
#![tactic(auto)]

mod control;
mod ends;
mod entering;
mod frames;
mod framing;
mod kept;
mod membership;
mod own;
mod pdus;
mod pending;
mod reconfiguration;
mod router;
mod seconds;
mod send_memory;
mod sending;
mod snp_needs;
mod staleness;

pub use bfr_edge::{EdgeFault, Packet};
pub use bier_forward::{DropNote, Effects, SentFrames};
pub use membership::{is_in, is_known, is_too_high, is_worn, own_range, used_label};
pub use router::Router;
pub use send_memory::SendMemory;
pub use wire_base::{Cause, Got};
