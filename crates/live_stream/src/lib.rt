//! One router of a domain on a live stream, and its hellos.
//!
//! The stream is a capture that grows: the frames that the router's interfaces receive, and between them events, as frames of
//! an EtherType for local experiments: an interface that comes up or goes down, a second that passes, a packet that enters. What
//! the router sends is written as a capture before the call waits for more of the stream; what it delivers and drops is reported.
//!
//! It depends on `command_drive`, `command_node` and one router. It promises that status, frames and report are a fold over the
//! records of the stream, whatever octets come; so a recorded stream, given again, gives the same frames and the same report.
#![tactic(auto)]

mod adjacencies;
mod event;
mod fault;
mod greeter;
mod greeting;
mod happening;
mod hello_frames;
mod hello_pdu;
mod hello_stream;
mod node;
mod run;
mod seat;
mod stream;
mod texts;

pub use event::{EVENT_TYPE, EVENT_VERSION};
pub use fault::LiveFault;
pub use greeting::Greeting;
pub use hello_pdu::TLV_INTERFACE_ADDRESSES;
pub use hello_stream::run_hellos;
pub use run::{refuse_words, run_hello, run_live};
pub use stream::run_router;
