//! The causes for which a router drops a frame, or some bit positions of a packet.
use crate::faults::{FrameFault, HeadFault, IpFault, PduFault};

/// Why a router drops a frame or some of the bit positions of a packet.
#[derive(Clone, Copy, Debug, PartialEq, Eq)]
pub enum Cause {
    /// The BIFT has no entry for the bit position (RFC 8279, 6.5).
    NoRow,
    /// The TTL was 0 or 1 (RFC 8296, 2.1.1.2).
    Ttl,
    /// The BIFT-id is unknown at this router.
    Label,
    /// The BIER header is invalid.
    Head(HeadFault),
    /// The Ethernet frame is invalid.
    Frame(FrameFault),
    /// The tunnel packet is invalid.
    Ip(IpFault),
    /// The IS-IS PDU is invalid.
    Pdu(PduFault),
    /// The outer TTL of the tunnel packet was 0 or 1.
    Outer,
    /// There is no path to a router with the tunnel's destination address.
    Route,
    /// The link lost the frame.
    Lost,
    /// The interface at which the frame arrived is down.
    Link,
    /// The LSP has the sequence number 0.
    Sequence,
    /// The LSDB is full.
    Full,
}
