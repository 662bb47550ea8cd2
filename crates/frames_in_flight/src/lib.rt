//! Frames in flight between the routers of a domain, each with the item that it represents, and what is reported of the
//! effects of a router. This crate uses the definitions of `domain_model`, and is used by `domain_core`, whose routers
//! it does not need.
//!
//! It promises that what a router sends is in flight in the order in which it was sent, as it is reported, or that
//! nothing has changed.
#![tactic(auto)]

mod carried;
mod flight;
mod flights;
mod inside;
mod places;
mod sent;
mod taken;
mod told;

pub use flight::{Flight, FlightSeen, Note};
pub use flights::Flights;
pub use inside::reader_of;
pub use places::{confs_of, link_between, peer_place};
pub use sent::{queue_on_link, queue_sent};
pub use taken::{drop_flight, queue_taken};
pub use told::is_silent;
