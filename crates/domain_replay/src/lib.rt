//! What a domain did in a schedule, as text: the capture of what its routers sent, and the report of what they
//! delivered and dropped.
//!
//! It depends on `domain_core`, and promises that the texts are those of the model's run, line by line.
#![tactic(auto)]

mod asked;
mod idle;
mod laws;
mod replay;
mod reported_world;

pub use asked::numbers_fit;
pub use domain_core::confs_of;
pub use laws::{a_start_is_told, each_line_is_told};
pub use replay::Replay;
pub use replay_report::{
    Recording, push_cover, push_event_refused, push_front, push_quiet, push_text_refused,
    push_too_long,
};
