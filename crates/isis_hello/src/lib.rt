//! Point-to-point hellos with a three-way handshake: parser, writer, and the adjacencies of a domain's circuits
//! (ISO/IEC 10589, 8.2 and 9.7; RFC 5303).
//!
//! This crate depends on `isis_tlv` and `link_frame`. For any octets its parser returns the hello or the first broken rule;
//! each hello has one encoding, which is parsed again. Its circuits do what the definition of adjacencies says at each event.
#![tactic(auto)]

mod adjacency;
mod changes;
mod circuits;
pub mod codepoints;
mod doing;
mod ends;
mod event;
mod examples;
mod fault;
mod hello;
mod hellos;
mod laws;
pub mod limits;
mod links;
mod reader;
mod way;
mod writer;

pub use adjacency::{Adjacency, Circuit, Kept};
pub use circuits::Circuits;
pub use event::{EndChange, HelloOut};
pub use examples::{example_handshake, example_hello};
pub use fault::{CircuitFault, HelloFault};
pub use hello::{Hello, Tri};
pub use laws::{
    adjacencies_are_held, adjacencies_begin_down, changes_are_reported, hello_law, only_hellos_send,
};
pub use reader::read_hello;
pub use wire_base::HelloEvent;
pub use writer::{HELLO_HEAD, MOST_HELLO_OCTETS, hello_front, hello_head, hello_tlvs, write_hello};
