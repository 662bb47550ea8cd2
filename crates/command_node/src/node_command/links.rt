//! The interface that a record arrived on.
ghost use Rattle.std.specs.Prelude.{◌≡◌, ◌≤◌, ◌<◌, length, IfSome};
ghost use Rattle.command_node.specs.NodeRun as run;

use pcapng_frames::NgRecord;
use wire_base::limits::MOST_FRAME;
use wire_base::{End, RouterConf};

/// Returns the index of the interface whose peer has that Ethernet address.
fn link_from(ends: &[End], mac: &[u8]) -> Option<u16>
    requires { length ends.now ≤ 65535 }
    ensures link { result ≡ run.link_from ends.now mac.now }
    ensures there { IfSome result (λ link. link < length ends.now) }
{
    for (place, end) in ends.iter().enumerate() {
        if end.peer_mac.0.as_slice() == mac {
            return Some(place as u16);
        }
    }
    None
}

/// Returns the link that a record arrived on: that of the peer that sent it; none if the record is passed over.
pub fn link_of(conf: &RouterConf, captured: &NgRecord) -> Option<u16>
    requires { length conf.now.ends ≤ 65535 }
    ensures link { result ≡ run.link_of conf.now captured.now }
    ensures there { IfSome result (λ link. link < length conf.now.ends) }
    ensures short { IfSome result (λ link. length captured.now.cap.octets ≤ MOST_FRAME) }
{
    let octets = captured.cap.octets.as_slice();
    if !captured.ethernet || !captured.cap.whole {
        return None;
    }
    if octets.len() < 12 || octets.len() > MOST_FRAME {
        return None;
    }
    link_from(conf.ends.as_slice(), &octets[6..12])
}
