//! The actions of a router for one outcome of a hop.
ghost use Rattle.std.specs.Prelude.{◌≡◌, ◌<◌, ◌*◌, ◌∷◌, [], IsTrue, Some, OnOk};
ghost use Rattle.wire_base.specs.model.BitSet.{IsWithin};
ghost use Rattle.wire_base.specs.model.Configuration.{IsSound};
ghost use Rattle.wire_base.specs.model.Hop as hops;
ghost use Rattle.wire_base.specs.model.OnFrame as on_frame;
ghost use Rattle.wire_base.specs.model.OnFrame.{delivery, one_drop};
ghost use Rattle.wire_base.specs.model.Place.{bits_of, id_at};
ghost use Rattle.bier_bits.specs.Any.{bsl_of, positions_of};
ghost use Rattle.bier_bits.specs.Sets.{is_width};
ghost use Rattle.bier_hop.specs.Outcomes.{out_of, outcome};
ghost use Rattle.bier_forward.specs.Packets.{IsShort, LeadsToEnds};
ghost use Rattle.bier_forward.specs.Tunnels.{IsBuilt};
ghost use Rattle.bier_forward.specs.Hops.{IsDue, IsNext, after, cause_of, given, place_of};

use crate::copy::send_frame;
use crate::effects::{DropNote, Effects};
use crate::incoming::Incoming;
use crate::ways::way_to;
use bfr_edge::Packet;
use bier_bits::{AnyBits, BitString};
use bier_hop::{Action, Why};
use bier_tunnel::Fib;
use wire_base::{Cause, First, Got, M, Octets, RouterConf, Triple, View};

/// Performs an action on those positions: delivers, sends a copy or drops.
pub(crate) fn give<const W: usize>(
    conf: &RouterConf,
    view: &View,
    packet: &Incoming<'_>,
    action: Action<'_>,
    set: &BitString<W>,
    fib: &mut Option<Fib>,
    effects: &mut Effects,
) -> M<()>
    requires width { IsTrue (is_width W) }
    requires sound { IsSound conf.now }
    requires ends { LeadsToEnds conf.now view.now.nodes }
    requires short { IsShort packet.now }
    requires bits { bits_of packet.now.triple.bsl ≡ 64 * W }
    requires due { IsDue conf.now view.now.nodes packet.now (out_of {w = W} set.now action) }
    requires built { IsBuilt conf.now view.now.nodes fib.old }
    ensures given { OnOk result (effects.new ≡ after effects.old (given conf.now view.now.nodes packet.now (outcome (place_of view.now.nodes) (out_of {w = W} set.now action.entry)))) }
    ensures kept { OnOk result (IsBuilt conf.now view.now.nodes fib.new) }
{
    match action {
        Action::Local(bp) => deliver(packet, bp, effects),
        Action::Copy { to, ttl } => send_copy(conf, view, packet, *to, set, ttl, fib, effects),
        Action::Dropped(why) => drop_set(packet.triple, set, cause_of(why), effects),
    }
}

/// Delivers the payload for the BFR-id of a position.
fn deliver(packet: &Incoming<'_>, bp: u16, effects: &mut Effects) -> M<()>
    requires { id_at packet.now.triple bp < 65536 }
    ensures { OnOk result (effects.new ≡ after effects.old (record on_frame.nothing { got = delivery packet.now (id_at packet.now.triple bp) ∷ [] })) }
{
    let payload = Octets::from_slice(effects.allocator(), packet.payload)?;
    effects.deliver(Got {
        sd: packet.triple.sd,
        id: id_at(packet.triple, bp),
        bfir: packet.header.bfir,
        entropy: packet.header.entropy,
        proto: packet.header.proto,
        payload,
    })
}

/// Returns the BFR-id at a position, if it is one.
fn id_at(triple: Triple, bp: u16) -> u16
    requires { id_at triple bp < 65536 }
    ensures { result ≡ id_at triple bp }
{
    (u32::from(triple.si) * u32::from(triple.bsl.bits()) + u32::from(bp)) as u16
}

/// Sends a copy with those positions to a router; if there is no route to it, drops them.
fn send_copy<const W: usize>(
    conf: &RouterConf,
    view: &View,
    packet: &Incoming<'_>,
    to: First,
    set: &BitString<W>,
    ttl: u8,
    fib: &mut Option<Fib>,
    effects: &mut Effects,
) -> M<()>
    requires width { IsTrue (is_width W) }
    requires sound { IsSound conf.now }
    requires ends { LeadsToEnds conf.now view.now.nodes }
    requires short { IsShort packet.now }
    requires next { IsNext conf.now view.now.nodes to }
    requires bits { bits_of packet.now.triple.bsl ≡ 64 * W }
    requires built { IsBuilt conf.now view.now.nodes fib.old }
    ensures given { OnOk result (effects.new ≡ after effects.old (given conf.now view.now.nodes packet.now (hops.Copy (place_of view.now.nodes to) set.now ttl))) }
    ensures kept { OnOk result (IsBuilt conf.now view.now.nodes fib.new) }
{
    let _width = set.width();
    let alloc = effects.allocator();
    match way_to(alloc, conf, view, packet.triple, to, fib)? {
        None => drop_set(packet.triple, set, Cause::NoRow, effects),
        Some(way) => send_frame(conf, packet, way, set, ttl, effects),
    }
}

/// Drops positions of a triple.
fn drop_set<const W: usize>(
    triple: Triple,
    set: &BitString<W>,
    cause: Cause,
    effects: &mut Effects,
) -> M<()>
    requires width { IsTrue (is_width W) }
    requires bits { bits_of triple.bsl ≡ 64 * W }
    ensures dropped { OnOk result (effects.new ≡ after effects.old (one_drop cause (Some (record { triple = triple; positions = set.now })))) }
    ensures ordered { IsWithin 0 (bits_of triple.bsl) set.now }
{
    let _width = set.width();
    let bits = AnyBits::from_set(triple.bsl, set);
    effects.note(DropNote {
        cause,
        sets: Some(Packet { triple, bits }),
    })
}

/// Returns why positions are dropped.
fn cause_of(why: Why) -> Cause
    ensures { result ≡ cause_of why }
{
    match why {
        Why::NoRow => Cause::NoRow,
        Why::Ttl => Cause::Ttl,
    }
}
