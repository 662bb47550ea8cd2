//! The next step of a tunnel packet.
ghost use Rattle.std.specs.Prelude.{◌≡◌};
ghost use Rattle.bier_tunnel.specs.Ways.{next_of};

use gre_ip::Tunnel;
use wire_base::Ipv4;

/// What a router does with a tunnel packet that it received.
#[derive(Clone, Copy, Debug, PartialEq, Eq)]
pub enum Next {
    /// The tunnel ends here: the inner packet is treated as one that came without a tunnel.
    Leave,
    /// The packet is forwarded over the interface with that index, with that outer TTL.
    On { link: u16, ttl: u8 },
    /// The outer TTL has expired.
    Outer,
    /// There is no path to another router with that BFR-prefix.
    Route,
}

/// Returns what a router with the BFR-prefix `own` does with the packet, if `link` leads to the packet's destination. Only this
/// function decides about a tunnel's outer TTL (RFC 2784; RFC 1812, 5.3.1).
pub fn next_of(own: Ipv4, t: &Tunnel, link: Option<u16>) -> Next
    ensures { result ≡ next_of own t.now link }
{
    if t.dst == own {
        return Next::Leave;
    }
    if t.ttl <= 1 {
        return Next::Outer;
    }
    match link {
        Some(link) => Next::On {
            link,
            ttl: t.ttl - 1,
        },
        None => Next::Route,
    }
}
