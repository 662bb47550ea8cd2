//! Tunnels that carry BIER packets across non-BFRs: an IPv4 header and a GRE header before the packet
//! (RFC 791, 3.1; RFC 2784, 2). Parser, writer, and the change of the header when a router forwards the packet.
#![tactic(auto)]

mod checksum;
mod laws;
mod onward;
mod read;
mod tunnel;
mod write;

pub use laws::tunnel_law;
pub use onward::write_onward;
pub use read::read_tunnel;
pub use tunnel::Tunnel;
pub use wire_base::IpFault;
pub use write::write_tunnel;
