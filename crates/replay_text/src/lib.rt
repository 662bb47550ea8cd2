//! The lines of the program's inputs, and the texts that its reports consist of.
//!
//! It depends on `wire_base`, `bier_bits` and, for the events of hellos, `isis_hello`. It promises what a line contains or the first rule that it breaks.
#![tactic(auto)]

mod arguments;
mod block;
mod check;
mod check_line;
mod event;
mod fault;
mod hand;
mod hand_line;
mod hop;
mod hop_line;
mod ids;
mod keyword;
mod listed;
mod payload;
mod pieces;
mod place;
mod positions;
mod report;
mod schedule_line;
mod short;
mod tokens;

pub use block::Block;
pub use check::CheckLine;
pub use check_line::read_check_line;
pub use event::{Event, Line};
pub use fault::{TextFault, push_rule};
pub use hand::HandLine;
pub use hand_line::read_hand_line;
pub use hop::{HopLine, HopRow, HopState};
pub use hop_line::read_hop_line;
pub use ids::push_ids;
pub use payload::push_payload;
pub use pieces::next_line;
pub use positions::{push_positions, put_bit_string, put_set};
pub use report::{push_cause, push_loss, push_number};
pub use schedule_line::read_line;
pub use short::ShortText;
