//! A domain, and where the interfaces of its routers lead.
ghost use Rattle.std.specs.Prelude.{◌≡◌, ◌≤◌, length, map, slice_get, Some, IfOk};
ghost use Rattle.std.specs.List.{AllByRecursion, range_with_len};
ghost use Rattle.wire_base.specs.model.Configuration.{IsSound};
ghost use Rattle.domain_model.specs.World.{link_between, peer_place};
ghost use Rattle.domain_core.specs.Peers as spec;

use bier_forward::Effects;
use frames_in_flight::{confs_of, link_between, peer_place};
use std::alloc::Global;
use std::marker::Model;
use wire_base::limits::MOST_ROUTERS;
use wire_base::{Domain, M, RouterConf, Rows};

/// Where an interface leads: the router at the far end, by its index, and the interface there that leads back.
#[derive(Clone, Copy, Drop)]
pub(crate) struct Peer {
    pub(crate) to: u16,
    pub(crate) back: Option<u16>,
}

/// For each router, by index, where its interfaces lead.
type Peers = Rows<Rows<Peer>>;

/// A domain, and where the interfaces of its routers lead, which is found once. Contracts model it as the domain.
#[derive(Drop)]
pub(crate) struct LinkedDomain {
    domain: Domain,
    peers: Peers,
}

impl Model for LinkedDomain {
    ghost use Rattle.std.specs.Prelude.{◌≡◌};
    ghost use Rattle.wire_base.specs.model.Configuration.{DomainConf};
    ghost use Rattle.domain_core.specs.Peers.{peers_of};

    ghost Value = { DomainConf };

    ghost view = { λ l. l.domain };

    ghost invariant = { λ l. l.peers ≡ peers_of l.domain.routers };
}

/// Returns where an interface of the router at an index leads.
fn peer_over(confs: &[RouterConf], at: u16, link: u16) -> Peer
    requires few { length confs.now ≤ MOST_ROUTERS }
    requires sound { AllByRecursion IsSound confs.now }
    ensures { result ≡ spec.peer_over confs.now at link }
{
    let to = peer_place(confs, at, link);
    let back = link_between(confs, to, at);
    Peer { to, back }
}

/// Returns where the first interfaces of a router lead: as many as `ends` says.
fn peers_at(alloc: Global, confs: &[RouterConf], at: u16, ends: u16) -> M<Rows<Peer>>
    requires few { length confs.now ≤ MOST_ROUTERS }
    requires sound { AllByRecursion IsSound confs.now }
    ensures { IfOk result (λ peers. peers ≡ map (spec.peer_over confs.now at) (range_with_len 0 ends)) }
{
    let mut peers = Rows::new(alloc);
    for link in 0..ends {
        peers.push(peer_over(confs, at, link))?;
    }
    Ok(peers)
}

/// Returns where the interfaces of all routers lead.
#[tactic(auto, unfolding(crate::specs::Peers::peers_of))]
fn peers_of(alloc: Global, confs: &[RouterConf]) -> M<Peers>
    requires few { length confs.now ≤ MOST_ROUTERS }
    requires sound { AllByRecursion IsSound confs.now }
    ensures { IfOk result (λ peers. peers ≡ spec.peers_of confs.now) }
{
    let mut peers = Rows::new(alloc);
    for at in 0..confs.len() {
        let ends = confs[at].ends.len() as u16;
        peers.push(peers_at(alloc, confs, at as u16, ends)?)?;
    }
    Ok(peers)
}

/// Returns what is stored of an interface of a router.
fn stored_at(peers: &[Rows<Peer>], at: u16, link: u16) -> Option<Peer>
    ensures { result ≡ spec.stored (slice_get peers.now at) link }
{
    if usize::from(at) < peers.len() {
        stored_over(peers[usize::from(at)].as_slice(), link)
    } else {
        None
    }
}

fn stored_over(peers: &[Peer], link: u16) -> Option<Peer>
    ensures { result ≡ slice_get peers.now link }
{
    if usize::from(link) < peers.len() {
        Some(peers[usize::from(link)])
    } else {
        None
    }
}

impl LinkedDomain {
    /// Finds where the interfaces of a domain's routers lead.
    pub(crate) fn new(alloc: Global, domain: Domain) -> M<LinkedDomain>
        ensures { IfOk result (λ linked. linked ≡ domain) }
    {
        let peers = peers_of(alloc, confs_of(&domain))?;
        Ok(LinkedDomain { domain, peers })
    }

    /// Returns the domain's configuration.
    pub(crate) fn conf(&self) -> &Domain
        ensures { result.now ≡ self.now }
    {
        &self.domain
    }

    /// Returns where an interface of a router leads, if there is such an interface.
    pub(crate) fn peer(&self, at: u16, link: u16) -> Option<Peer>
        ensures { result ≡ spec.peer_of self.now.routers at link }
    {
        stored_at(self.peers.as_slice(), at, link)
    }

    /// Returns the interface at the far end of a link from one router to another.
    pub(crate) fn back(&self, from: u16, link: u16, to: u16) -> Option<u16>
        requires { link_between self.now.routers from to ≡ Some link }
        ensures { result ≡ link_between self.now.routers to from }
    {
        let _confs = confs_of(&self.domain);
        match self.peer(from, link) {
            Some(peer) => peer.back,
            None => None,
        }
    }
}

/// Returns the interface on which the first frame of those effects is sent, and the router that it leads to. If nothing is sent, returns
/// the interface that is passed in.
pub(crate) fn first_peer(
    domain: &LinkedDomain,
    at: u16,
    known: (u16, u16),
    effects: &Effects,
) -> (u16, u16)
    requires { known.1 ≡ peer_place domain.now.routers at known.0 }
    ensures { result.1 ≡ peer_place domain.now.routers at result.0 }
{
    if effects.sent.len() == 0 {
        return known;
    }
    let link = effects.sent.link_at(0);
    match domain.peer(at, link) {
        Some(peer) => (link, peer.to),
        None => known,
    }
}
