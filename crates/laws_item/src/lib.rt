//! Laws of items in flight: the content of an item's frame, in a tunnel or not, is parsed again, and a router processes it
//! accordingly. Each function does nothing; its contract is the law.
#![tactic(auto)]

mod control;
mod packet;

pub use control::{control_frames_law, entries_law, sent_pdus_law};
pub use packet::packet_frames_law;
