use wire_base::{Ipv4, Kind};

/// The headers of a tunnel packet, and the range of the octets that it carries: from `from` up to before `to`, counted
/// from 0.
#[derive(Clone, Copy, Debug, PartialEq, Eq)]
pub struct Tunnel {
    /// The address of the router at the start of the tunnel.
    pub src: Ipv4,
    /// The address of the router at the end of the tunnel.
    pub dst: Ipv4,
    /// The outer TTL: how many more times the packet may be forwarded.
    pub ttl: u8,
    /// The encapsulation of the packet inside.
    pub inner: Kind,
    pub from: usize,
    pub to: usize,
}
