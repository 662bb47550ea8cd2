//! What is reported of a running domain, as text: its frames in a capture, its deliveries and drops in the lines of a
//! report, and its counts; the answers to questions; and the directions of its links.
//!
//! It depends on `domain_model`, `frames_in_flight` and `quiet_domain`, and promises that the texts of an event are those of its
//! definitions.
#![tactic(auto)]

mod answers;
mod capture;
mod counts;
mod direction;
mod interfaces;
mod lines;
mod made;
mod recording;
mod refused;

pub use answers::{push_cover, push_quiet};
pub use capture::{push_frames, push_front, push_record};
pub use counts::Counts;
pub use direction::{Direction, directions};
pub use lines::{push_done, push_event, push_name};
pub use made::push_made;
pub use recording::Recording;
pub use refused::{push_event_refused, push_text_refused, push_too_long};
