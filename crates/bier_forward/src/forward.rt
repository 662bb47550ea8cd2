//! One hop of a packet, from its header to the frames of its copies.
ghost use Rattle.std.specs.Prelude.{◌≡◌, ◌≤◌, ◌<◌, ◌*◌, ℕ, Some, IfOk, IsTrue, OnOk, length, map, option_map};
ghost use Rattle.wire_base.specs.model.Configuration.{IsSound};
ghost use Rattle.wire_base.specs.model.Hop.{hop};
ghost use Rattle.wire_base.specs.model.OnFrame as on_frame;
ghost use Rattle.wire_base.specs.model.OnFrame.{class_of};
ghost use Rattle.wire_base.specs.model.Place.{bits_of, id_at, id_of, sub_in};
ghost use Rattle.bier_bits.specs.Sets.{is_width};
ghost use Rattle.bift_table.specs.Bift.{router_at};
ghost use Rattle.bier_hop.specs.Outcomes.{IsOwn};
ghost use Rattle.bier_forward.specs.Hops.{AreNext, after, given, own_position, place_of};
ghost use Rattle.bier_forward.specs.Kept.{AreRoutes, HasTable, LeadsAs};
ghost use Rattle.bier_forward.specs.Packets.{IsShort, LeadsToEnds, hopped};
ghost use Rattle.bier_forward.specs.Tunnels.{IsBuilt};

use crate::cache::Routes;
use crate::effects::Effects;
use crate::incoming::Incoming;
use crate::outcome::give;
use bfr_edge::sub_in;
use bier_bits::BitString;
use bier_hop::Hop;
use bier_tunnel::Fib;
use bift_table::{AnyTable, Table};
use std::marker::Brand;
use std::sync::ledger::{Blank, Ledger};
use wire_base::{M, OwnSub, RouterConf, Steps, Triple, View};

/// Processes a packet with a TTL of at most 256, by a topology of its domain (RFC 8279, 6.5). The router delivers the payload if
/// its own BFR-id is among the packet's, sends one copy to each router to which other BFR-ids lead, and drops those whose TTL has
/// expired or that have no route.
///
/// A copy is the packet with the BIFT-id of the next router, a TTL one lower and the positions that lead to that router; all other
/// fields and the octets after the header are unchanged. A copy to a router that is not a direct neighbor is sent in a tunnel to
/// its BFR-prefix (RFC 8279, 6.9; RFC 2784); if that router has no prefix in the sub-domain, the positions are dropped.
///
/// The required rows, tables and routes of the topology are cached, and built on first use.
///
/// What it does is appended to `effects`. What they hold after an error is not specified.
pub fn hop_packet(
    conf: &RouterConf,
    view: &View,
    routes: &mut Routes,
    packet: &Incoming<'_>,
    ttl: u16,
    effects: &mut Effects,
) -> M<()>
    requires sound { IsSound conf.now }
    requires ends { LeadsToEnds conf.now view.now.nodes }
    requires kept { AreRoutes conf.now view.now.nodes routes.old }
    requires short { IsShort packet.now }
    requires ttl { ttl ≤ 256 }
    ensures effects { OnOk result (effects.new ≡ after effects.old (hopped conf.now view.now.nodes packet.now ttl)) }
    ensures alone { OnOk result (effects.old ≡ on_frame.nothing → effects.new ≡ hopped conf.now view.now.nodes packet.now ttl) }
    ensures kept { OnOk result (AreRoutes conf.now view.now.nodes routes.new) }
{
    hop_counted::<Brand>(conf, view, routes, packet, ttl, Blank::new(1), effects)
}

/// The same, with a ledger for the steps over the table, whose count is not used.
fn hop_counted<L: Ledger>(
    conf: &RouterConf,
    view: &View,
    routes: &mut Routes,
    packet: &Incoming<'_>,
    ttl: u16,
    blank: Blank,
    effects: &mut Effects,
) -> M<()>
    requires name { blank.name ≡ L.name }
    requires parts { blank.parts ≡ L.parts }
    requires some { 0 < blank.parts }
    requires sound { IsSound conf.now }
    requires ends { LeadsToEnds conf.now view.now.nodes }
    requires kept { AreRoutes conf.now view.now.nodes routes.old }
    requires short { IsShort packet.now }
    requires ttl { ttl ≤ 256 }
    ensures effects { OnOk result (effects.new ≡ after effects.old (hopped conf.now view.now.nodes packet.now ttl)) }
    ensures kept { OnOk result (AreRoutes conf.now view.now.nodes routes.new) }
{
    let place = routes.keep_table(conf, view, packet.triple, class_of(packet))?;
    let mut steps = Steps::<L>::new(blank);
    hop_by_width(
        conf,
        view,
        packet,
        &routes.tables[place].table,
        ttl,
        &mut routes.fib,
        &mut steps,
        effects,
    )
}

/// Performs the hop at the width of the packet's table, which is that of its BitString.
fn hop_by_width<L: Ledger>(
    conf: &RouterConf,
    view: &View,
    packet: &Incoming<'_>,
    table: &AnyTable,
    ttl: u16,
    fib: &mut Option<Fib>,
    steps: &mut Steps<L>,
    effects: &mut Effects,
) -> M<()>
    requires sound { IsSound conf.now }
    requires ends { LeadsToEnds conf.now view.now.nodes }
    requires short { IsShort packet.now }
    requires ttl { ttl ≤ 256 }
    requires table { HasTable conf.now view.now.nodes packet.now.triple (class_of packet.now) table.now }
    requires built { IsBuilt conf.now view.now.nodes fib.old }
    ensures effects { OnOk result (effects.new ≡ after effects.old (hopped conf.now view.now.nodes packet.now ttl)) }
    ensures built { OnOk result (IsBuilt conf.now view.now.nodes fib.new) }
{
    match table {
        AnyTable::B64(table) => { hop_over(conf, view, packet, table, ttl, fib, steps, effects) }
        AnyTable::B128(table) => { hop_over(conf, view, packet, table, ttl, fib, steps, effects) }
        AnyTable::B256(table) => { hop_over(conf, view, packet, table, ttl, fib, steps, effects) }
        AnyTable::B512(table) => { hop_over(conf, view, packet, table, ttl, fib, steps, effects) }
        AnyTable::B1024(table) => { hop_over(conf, view, packet, table, ttl, fib, steps, effects) }
        AnyTable::B2048(table) => { hop_over(conf, view, packet, table, ttl, fib, steps, effects) }
        AnyTable::B4096(table) => { hop_over(conf, view, packet, table, ttl, fib, steps, effects) }
    }
}

/// Returns the entropy class of a packet, which selects among equal-cost paths.
fn class_of(packet: &Incoming<'_>) -> u8
    ensures value { result ≡ class_of packet.now }
    ensures below { result < 16 }
{
    (packet.header.entropy % 16) as u8
}

/// Performs the hop over the packet's table.
fn hop_over<const W: usize, L: Ledger>(
    conf: &RouterConf,
    view: &View,
    packet: &Incoming<'_>,
    table: &Table<W>,
    ttl: u16,
    fib: &mut Option<Fib>,
    steps: &mut Steps<L>,
    effects: &mut Effects,
) -> M<()>
    requires width { IsTrue (is_width W) }
    requires sound { IsSound conf.now }
    requires ends { LeadsToEnds conf.now view.now.nodes }
    requires short { IsShort packet.now }
    requires ttl { ttl ≤ 256 }
    requires bits { bits_of packet.now.triple.bsl ≡ 64 * W }
    requires leads { LeadsAs conf.now view.now.nodes packet.now.triple (class_of packet.now) table.now }
    requires built { IsBuilt conf.now view.now.nodes fib.old }
    ensures effects { OnOk result (effects.new ≡ after effects.old (hopped conf.now view.now.nodes packet.now ttl)) }
    ensures built { OnOk result (IsBuilt conf.now view.now.nodes fib.new) }
{
    let set = packet.set();
    let _width = set.width();
    let _graph = view.as_slice();
    give_all(conf, view, packet, table, set, ttl, fib, steps, effects)
}

/// Performs the outcomes of a set of positions over a table, one after the other. It is not inlined, so that a packet needs
/// stack space for its own width alone.
#[inline(never)]
fn give_all<const W: usize, L: Ledger>(
    conf: &RouterConf,
    view: &View,
    packet: &Incoming<'_>,
    table: &Table<W>,
    set: BitString<W>,
    ttl: u16,
    fib: &mut Option<Fib>,
    steps: &mut Steps<L>,
    effects: &mut Effects,
) -> M<()>
    requires width { IsTrue (is_width W) }
    requires sound { IsSound conf.now }
    requires ends { LeadsToEnds conf.now view.now.nodes }
    requires short { IsShort packet.now }
    requires ttl { ttl ≤ 256 }
    requires bits { bits_of packet.now.triple.bsl ≡ 64 * W }
    requires next { AreNext conf.now view.now.nodes table.now }
    requires built { IsBuilt conf.now view.now.nodes fib.old }
    ensures effects { OnOk result (effects.new ≡ after effects.old (on_frame.joined (map (given conf.now view.now.nodes packet.now)
        (hop (own_position conf.now packet.now.triple) (λ p. option_map (place_of view.now.nodes) (router_at table.now p)) set.entry ttl)))) }
    ensures built { OnOk result (IsBuilt conf.now view.now.nodes fib.new) }
{
    let own = own_position(conf, packet.triple);
    let mut hop = Hop::begin(table, own, set, ttl);
    let mut taken = BitString::zero();
    'outcomes: while let Some(action) = hop.next_into(&mut taken, steps) {
        give(conf, view, packet, action, &taken, fib, effects)?;
    }
    Ok(())
}

/// Returns the position of the router's own BFR-id in packets of a triple, if it has one in the triple's set.
fn own_position(conf: &RouterConf, triple: Triple) -> Option<u16>
    ensures value { result ≡ own_position conf.now triple }
    ensures own { IsOwn (bits_of triple.bsl) result }
    ensures id { (p : ℕ) → result ≡ Some p → id_at triple p < 65536 }
{
    triple.place(own_id(conf.subs.as_slice(), triple.sd)?)
}

/// Returns the BFR-id of a router in a sub-domain; 0 is none.
pub(crate) fn own_id(subs: &[OwnSub], sd: u8) -> Option<u16>
    ensures { result ≡ id_of (sub_in subs.now sd) }
{
    match sub_in(subs, sd) {
        Some(sub) if sub.id != 0 => Some(sub.id),
        _ => None,
    }
}
