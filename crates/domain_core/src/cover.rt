//! Which BFR-ids an injection would reach.
ghost use Rattle.std.specs.Prelude.{◌≡◌, ◌<◌, ◌≤◌, ◌+◌, ◌^◌, ◌++◌, ◌∷◌, [], true, length, is_some, map, filter, IfOk, OnOk, Ok, MatchResult};
ghost use Rattle.std.specs.List.{AllByRecursion};
ghost use Rattle.wire_base.specs.model.BitSet.{has_member};
ghost use Rattle.wire_base.specs.model.Place.{bits_of, id_at, id_of, position_in, sub_in};
ghost use Rattle.bier_bits.specs.Any.{bsl_of, positions_of};
ghost use Rattle.bfr_edge.specs.Entry.{positions_in};
ghost use Rattle.laws_quiet.specs.Cover.{is_covered, is_own};
ghost use Rattle.domain_core.specs.Cover.{Rejects, cover_of, paths_from, reached_at, reached_by, reaches_from};
ghost use Rattle.domain_core.specs.Held.{state_of, world_in};
ghost use Rattle.domain_core.specs.Network.{IsTrueNetwork};

use crate::network::Network;
use bfr_edge::{Packet, ingress};
use bier_bits::AnyBits;
use bier_forward::own_place;
use quiet_domain::{Paths, Way};
use std::alloc::Global;
use std::marker::Model;
use wire_base::{Bsl, EdgeFault, M, OwnSub, RouterConf, Rows, Triple, View};

/// Where packets enter: the router's configuration, its topology and its node there, the TTL of the copies, and the
/// entropy class.
#[derive(Drop)]
struct Entrance<'a> {
    conf: &'a RouterConf,
    view: &'a View,
    own: u16,
    ttl: u8,
    class: u8,
}

impl<'a> Model for Entrance<'a> {
    ghost use Rattle.std.specs.Prelude.{◌<◌, ◌≤◌, length};
    ghost use Rattle.domain_core.specs.Cover.{EntryPoint, IsEntryPoint};

    ghost Value = { EntryPoint };

    ghost view = { λ e. record { conf = e.conf.now; nodes = e.view.now.nodes; own = e.own; ttl = e.ttl; class = e.class } };

    ghost invariant = { λ e. IsEntryPoint (record { conf = e.conf.now; nodes = e.view.now.nodes; own = e.own; ttl = e.ttl; class = e.class }) };
}

impl Entrance<'_> {
    /// Returns the BFR-ids that packets reach, packet by packet.
    fn reached(&self, alloc: Global, packets: &[Packet]) -> M<Rows<u16>>
        requires { AllByRecursion (λ p. bsl_of p.bits ≡ p.triple.bsl) packets.now }
        ensures { IfOk result (λ ks. ks ≡ reached_by self.now (map positions_in packets.now)) }
    {
        let mut ids = Rows::new(alloc);
        for packet in packets {
            self.push_reached(alloc, &mut ids, packet.triple, &packet.bits)?;
        }
        Ok(ids)
    }

    /// Appends the BFR-ids that one packet reaches.
    fn push_reached(
        &self,
        alloc: Global,
        ids: &mut Rows<u16>,
        triple: Triple,
        bits: &AnyBits,
    ) -> M<()>
        requires { bsl_of bits.now ≡ triple.bsl }
        ensures { OnOk result (ids.new ≡ ids.old ++ reached_at self.now triple (positions_of bits.now)) }
    {
        let mut paths = Paths::new(alloc, self.view, self.conf, triple, self.class)?;
        for position in 0..bits.bsl().bits() {
            self.push_position(alloc, ids, &mut paths, triple, bits, position + 1)?;
        }
        Ok(())
    }

    /// Appends the BFR-id of a bit position, if the packet has that bit and reaches the BFR-id.
    fn push_position(
        &self,
        alloc: Global,
        ids: &mut Rows<u16>,
        paths: &mut Paths<'_>,
        triple: Triple,
        bits: &AnyBits,
        position: u16,
    ) -> M<()>
        requires paths { paths.old ≡ paths_from self.now triple }
        requires low { 1 ≤ position }
        requires high { position ≤ bits_of triple.bsl }
        ensures ids { OnOk result (ids.new ≡ ids.old ++ reached_at self.now triple (filter (λ p. has_member p (positions_of bits.now)) (position ∷ []))) }
        ensures paths { paths.new ≡ paths.old }
    {
        let id = u32::from(triple.si) * u32::from(triple.bsl.bits()) + u32::from(position);
        if bits.has(position) && id <= 65535 && self.reaches(alloc, paths, triple, id as u16)? {
            ids.push(id as u16)?;
        }
        Ok(())
    }

    /// Returns whether packets of a triple reach a BFR-id of its set.
    fn reaches(&self, alloc: Global, paths: &mut Paths<'_>, triple: Triple, id: u16) -> M<bool>
        requires paths { paths.old ≡ paths_from self.now triple }
        requires place { is_some (position_in triple id) ≡ true }
        ensures does { IfOk result (λ does. does ≡ reaches_from self.now triple id) }
        ensures paths { paths.new ≡ paths.old }
    {
        if is_own(self.conf.subs.as_slice(), triple.sd, id) {
            return Ok(true);
        }
        let path = paths.way(alloc, self.own, id)?;
        Ok(is_covered(self.ttl, path))
    }
}

/// Returns whether a router's BFR-id in a sub-domain is that one.
fn is_own(subs: &[OwnSub], sd: u8, id: u16) -> bool
    ensures { result ≡ is_own (id_of (sub_in subs.now sd)) id }
{
    for sub in subs {
        if sub.sd == sd {
            return sub.id != 0 && sub.id == id;
        }
    }
    false
}

/// Returns whether a path has hops, no more than a TTL, and no tunnel with more links than an outer TTL of 255 allows.
fn is_covered(ttl: u8, path: Option<Way>) -> bool
    ensures { result ≡ is_covered ttl path }
{
    match path {
        Some(way) => way.hops > 0 && way.hops <= u16::from(ttl) && way.longest <= 255,
        None => false,
    }
}

impl Network {
    /// Returns the BFR-ids that an injection at a router would reach, ascending and each once. The errors are those of
    /// the injection.
    pub(crate) fn cover(
        &self,
        alloc: Global,
        router: u16,
        sd: u8,
        bsl: Bsl,
        ids: &[u16],
        ttl: u8,
        entropy: u32,
    ) -> Result<Rows<u16>, EdgeFault>
        requires truth { IsTrueNetwork (state_of self.now) }
        requires place { router < length self.now.routers.items }
        requires entropy { entropy < 2 ^ 20 }
        ensures { MatchResult result (λ ks. cover_of (world_in self.now) router sd bsl ids.now ttl entropy ≡ Ok ks) (λ e. Rejects (cover_of (world_in self.now) router sd bsl ids.now ttl entropy) e) }
    {
        let at = &self.routers[usize::from(router)];
        let conf = at.conf();
        let packets = match ingress(alloc, conf, sd, bsl, ids) {
            Ok(packets) => packets,
            Err(fault) => return Err(fault),
        };
        let view = at.current_view()?;
        let Some(own) = own_place(view.as_slice(), conf.system) else {
            unreachable!()
        };
        let entrance = Entrance {
            conf,
            view: &view,
            own,
            ttl,
            class: (entropy % 16) as u8,
        };
        Ok(entrance.reached(alloc, packets.as_slice())?)
    }
}
