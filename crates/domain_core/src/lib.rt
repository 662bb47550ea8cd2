//! A running domain, as code: a `World` of routers and of frames in flight, whose every event does what the model of
//! `domain_model` defines. It uses `router_core`, whose routers receive the frames.
//!
//! It promises that a world's next state, and what it sends, delivers and drops, are the model's, and that its LSDBs
//! are truthful. It tells whether a domain is quiet, and which BFR-ids an injection would reach then (`quiet_domain`,
//! `laws_quiet`).
#![tactic(auto)]

mod alone;
mod cover;
mod events;
mod frame_laws;
mod network;
mod over;
mod peers;
mod quiet;
mod refusal;
mod transit;
mod world;

pub use domain_model::{DropLine, EventFault, GotLine, StepOut, WireFrame, WireFrames};
pub use frame_laws::{frames_do_what_items_do, sent_frames_are_items};
pub use frames_in_flight::{confs_of, peer_place};
pub use quiet_domain::Quiet;
pub use world::World;
