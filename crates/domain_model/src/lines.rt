//! Deliveries and drops in a domain. Routers are named by their indices in it.
use wire_base::{Cause, Octets, Rows};

/// A delivery: the payload of an injection, for a BFR-id, at a router.
#[derive(Drop)]
pub struct GotLine {
    pub router: u16,
    pub injection: u32,
    pub id: u16,
    pub payload: Octets,
}

/// A drop at a router: of a copy of an injection for BFR-ids, or, without injection and ids, of a frame that carries no
/// packet.
#[derive(Drop)]
pub struct DropLine {
    pub router: u16,
    pub injection: Option<u32>,
    pub cause: Cause,
    pub ids: Rows<u16>,
}
