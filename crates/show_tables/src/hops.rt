//! What a router does with a packet.
ghost use Rattle.std.specs.Prelude.{◌<◌, ◌^◌};
ghost use Rattle.wire_base.specs.model.Configuration.{IsSound};
ghost use Rattle.bier_forward.specs.Packets.{LeadsToEnds};

use crate::planes::Ground;
use crate::sets::packet_for;
use bier_forward::{Effects, Routes, enter_packets};
use wire_base::{M, Triple};

/// Returns what the router does with a packet that arrives with that TTL, above 0, and entropy, for those of the BFR-ids that are in
/// the triple's set. This is the router's own hop: `enter_packets` gives the hop a TTL that is one above the one it is passed.
pub(crate) fn hop(
    ground: Ground<'_>,
    triple: Triple,
    ids: &[u16],
    ttl: u8,
    entropy: u32,
) -> M<Effects>
    requires sound { IsSound ground.conf.now }
    requires leads { LeadsToEnds ground.conf.now ground.view.now.nodes }
    requires entropy { entropy < 2 ^ 20 }
{
    let packets = [packet_for(triple, ids)];
    let mut routes = Routes::new(ground.alloc);
    enter_packets(
        ground.alloc,
        ground.conf,
        ground.view,
        &mut routes,
        &packets,
        ttl.saturating_sub(1),
        entropy,
        &[],
    )
}
