//! The Ethernet header and the EtherTypes that the routers use (IEEE 802.3, 3.1.1 and 3.2.6).
ghost use Rattle.std.specs.Prelude.{◌≡◌};
ghost use Rattle.wire_base.specs.model.Tunnel.{protocol_of};

use crate::conf::Kind;

/// The length of an Ethernet header in octets: destination, source, and a length or a type.
pub const FRAME_HEAD: usize = 14;
/// The EtherType of MPLS packets (RFC 3032, 3.3).
pub const MPLS_TYPE: u16 = 0x8847;
/// The EtherType of BIER packets without MPLS (RFC 8296, 3).
pub const BIER_TYPE: u16 = 0xab37;
/// The EtherType of IPv4 packets (RFC 894).
pub const IP_TYPE: u16 = 0x0800;

impl Kind {
    /// Returns the EtherType of BIER packets with this encapsulation, for an Ethernet frame (RFC 8296, 2.1.1 and 2.2.1) or
    /// a GRE header (RFC 2784, 2.4).
    pub fn protocol(self) -> u16
        ensures { result ≡ protocol_of self }
    {
        match self {
            Kind::Mpls => MPLS_TYPE,
            Kind::Configured => BIER_TYPE,
        }
    }
}
