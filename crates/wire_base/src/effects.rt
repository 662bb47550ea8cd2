//! The externally visible actions of one router.
use crate::lists::Octets;

/// A frame that a router sends, with the index of the interface that it leaves by.
#[derive(Drop)]
pub struct Sent {
    pub link: u16,
    pub octets: Octets,
}

/// A packet delivered at this router: the sub-domain and BFR-id that it was delivered for, and the ingress's BFR-id, the
/// entropy and the payload's protocol from its header (RFC 8296, 2.1.2).
#[derive(Drop)]
pub struct Got {
    pub sd: u8,
    pub id: u16,
    pub bfir: u16,
    pub entropy: u32,
    pub proto: u8,
    pub payload: Octets,
}
