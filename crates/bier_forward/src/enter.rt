//! Packets that enter the domain at a router (BFIR).
ghost use Rattle.std.specs.Prelude.{◌≡◌, ◌<◌, ◌≤◌, ◌*◌, ◌^◌, IfOk, OnOk, List, ℕ, length, map};
ghost use Rattle.std.specs.List.{AllByRecursion};
ghost use Rattle.wire_base.specs.declared.bsl.Bsl.{Bsl};
ghost use Rattle.wire_base.specs.model.Configuration.{IsSound};
ghost use Rattle.wire_base.specs.model.Control.{Control};
ghost use Rattle.wire_base.specs.model.Ingress.{inject, packets_for};
ghost use Rattle.wire_base.specs.model.BitSet.{set_of};
ghost use Rattle.wire_base.specs.model.Place.{bits_of};
ghost use Rattle.wire_base.specs.model.View.{control_view};
ghost use Rattle.bier_bits.specs.Any.{positions_of};
ghost use Rattle.bfr_edge.specs.Entry.{placed, positions_in};
ghost use Rattle.bier_forward.specs.Kept.{AreRoutes};
ghost use Rattle.bier_forward.specs.Packets.{LeadsToEnds, entered, entering_with};
ghost use Rattle.bier_forward.specs.Sets.{HasLength};

use crate::cache::Routes;
use crate::effects::Effects;
use crate::forward::{hop_packet, own_id};
use crate::incoming::Incoming;
use bfr_edge::{Packet, head_of};
use std::alloc::Global;
use wire_base::limits::MOST_PAYLOAD;
use wire_base::{Kind, M, RouterConf, View, kind_of};

/// The most octets of a BitString: those of one with 4,096 bits.
const MOST_SET: usize = 512;

/// Processes packets that enter the domain at this router (RFC 8279, 3; RFC 8296, 3). Each gets the ingress's header and is
/// processed with one more than the given TTL, so that its copies have that TTL. Precondition: the entropy has at most 20 bits.
pub fn enter_packets(
    alloc: Global,
    conf: &RouterConf,
    view: &View,
    routes: &mut Routes,
    packets: &[Packet],
    ttl: u8,
    entropy: u32,
    payload: &[u8],
) -> M<Effects>
    requires sound { IsSound conf.now }
    requires ends { LeadsToEnds conf.now view.now.nodes }
    requires kept { AreRoutes conf.now view.now.nodes routes.old }
    requires lengths { AllByRecursion HasLength packets.now }
    requires entropy { entropy < 2 ^ 20 }
    requires payload { length payload.now ≤ MOST_PAYLOAD }
    ensures exact { IfOk result (λ e. e ≡ entered conf.now view.now.nodes ttl entropy payload.now (map positions_in packets.now)) }
    ensures injected { IfOk result (λ e. (c : Control) (sd : ℕ) (bsl : Bsl) (ids : List ℕ) → c.conf ≡ conf.now → control_view c ≡ view.now.nodes
        → map positions_in packets.now ≡ map placed (packets_for sd bsl ids) → e ≡ inject c sd bsl ids ttl entropy payload.now) }
    ensures kept { OnOk result (AreRoutes conf.now view.now.nodes routes.new) }
{
    let mut effects = Effects::nothing(alloc);
    let mut room = [0; MOST_SET];
    for packet in packets {
        let set = set_octets(packet, &mut room);
        let incoming = entering(conf, packet, ttl, entropy, set, payload);
        hop_packet(
            conf,
            view,
            routes,
            &incoming,
            u16::from(ttl) + 1,
            &mut effects,
        )?;
    }
    Ok(effects)
}

/// Returns a packet with the ingress's header. Its BIFT-id is that of no router, since only copies are sent.
#[tactic(auto, unfolding(wire_base::specs::model::Item::ingress_header))]
fn entering<'a>(
    conf: &RouterConf,
    packet: &Packet,
    ttl: u8,
    entropy: u32,
    set: &'a [u8],
    payload: &'a [u8],
) -> Incoming<'a>
    requires length { HasLength packet.now }
    requires entropy { entropy < 2 ^ 20 }
    requires whole { 8 * length set.now ≡ bits_of packet.now.triple.bsl }
    requires set { set_of set.now ≡ positions_of packet.now.bits }
    ensures { result ≡ entering_with conf.now ttl entropy payload.now (positions_in packet.now) }
{
    let sd = packet.triple.sd;
    let own = own_id(conf.subs.as_slice(), sd).unwrap_or(0);
    Incoming {
        triple: packet.triple,
        kind: kind_of(conf.kinds.as_slice(), sd).unwrap_or(Kind::Mpls),
        header: head_of(packet, 0, ttl, entropy, own),
        set,
        payload,
    }
}

/// Writes the octets of a packet's BitString, and returns them.
fn set_octets<'a>(packet: &Packet, room: &'a mut [u8; MOST_SET]) -> &'a [u8]
    requires { HasLength packet.now }
    ensures whole { 8 * length result.now ≡ bits_of packet.now.triple.bsl }
    ensures set { set_of result.now ≡ positions_of packet.now.bits }
{
    let octets = &mut room[..usize::from(packet.triple.bsl.bits() / 8)];
    packet.bits.to_be_bytes(octets);
    octets
}
