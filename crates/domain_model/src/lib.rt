//! The model of a running domain: the control states of its routers and what is in flight on its links, what each event
//! does and why one is not allowed, whole runs, and the invariant that every event preserves. It has definitions, laws,
//! and the types of what an event reports. It depends on the definitions of one router (`wire_base`, `router_core`).
//! `domain_core` is proved to implement it.
#![tactic(auto)]

mod fault;
mod laws;
mod lines;
mod step_out;
mod wire_frames;

pub use fault::EventFault;
pub use laws::{a_start_is_truthful, events_keep_the_truth};
pub use lines::{DropLine, GotLine};
pub use step_out::{StepOut, WireFrame};
pub use wire_frames::WireFrames;
