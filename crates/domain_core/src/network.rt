//! The routers of a domain, and what is in flight between them.
ghost use Rattle.std.specs.Prelude.{◌≡◌, ◌≤◌, length, map, slice_get, option_map, IfOk, IfSome};
ghost use Rattle.std.specs.List.{AllByRecursion};
ghost use Rattle.wire_base.specs.model.Configuration.{IsSound};
ghost use Rattle.domain_core.specs.Held.{state_of, world_in, heard_in};
ghost use Rattle.domain_core.specs.Network.{confs_of, started_router, IsTrueNetwork};
ghost use Rattle.domain_model.specs.Truth.{router_at};
ghost use Rattle.frames_in_flight.specs.Flights.{place_seen};
ghost use Rattle.domain_model.specs.World.{link_between, frames_between, queue_at, first_world, ids_in_flight};

use crate::peers::LinkedDomain;
use bier_forward::Effects;
use frames_in_flight::{FlightSeen, Flights, confs_of, link_between, reader_of};
use isis_pdu::KnownLsps;
use lsp_store::Contents;
use router_core::{Router, SendMemory};
use std::alloc::Global;
use wire_base::limits::MOST_ROUTERS;
use wire_base::{Domain, M, RouterConf, Rows};

/// A running domain: its routers by index, the frames in flight, the numbers of injections and events so far, and the memory of
/// the last send, which serves for the next one.
#[derive(Drop)]
pub(crate) struct Network {
    pub(crate) domain: LinkedDomain,
    pub(crate) routers: Vec<Router>,
    pub(crate) flights: Flights,
    pub(crate) injections: u32,
    pub(crate) events: u32,
    pub(crate) memory: SendMemory,
    /// What a router does when it receives a frame. It is mostly nothing, so that this is seldom built or freed.
    pub(crate) effects: Effects,
}

/// Returns a router that has just started, which shares the contents of LSPs, and what is known of them, with others.
fn router_of(alloc: Global, conf: &RouterConf, contents: &Contents, known: &KnownLsps) -> M<Router>
    requires { IsSound conf.now }
    ensures { IfOk result (λ router. router ≡ started_router conf.now) }
{
    let mut router = Router::new(alloc, conf.copy()?)?;
    router.share_contents(contents.share()?);
    router.share_known(known.share()?);
    Ok(router)
}

/// Returns routers that have just started. They store equal contents of an LSP once, and verify equal LSPs once.
fn routers_of(alloc: Global, confs: &[RouterConf]) -> M<Vec<Router>>
    requires { AllByRecursion IsSound confs.now }
    ensures { IfOk result (λ routers. routers.items ≡ map started_router confs.now) }
{
    let contents = Contents::new(alloc)?;
    let known = KnownLsps::new(alloc)?;
    let mut routers = Vec::new(alloc);
    for conf in confs {
        routers.push(router_of(alloc, conf, &contents, &known)?)?;
    }
    Ok(routers)
}

/// Returns copies of the routers' configurations, as they are now.
fn confs_now(alloc: Global, routers: &[Router]) -> M<Rows<RouterConf>>
    ensures { IfOk result (λ confs. confs ≡ confs_of routers.now) }
{
    let mut confs = Rows::new(alloc);
    for router in routers {
        confs.push(router.conf().copy()?)?;
    }
    Ok(confs)
}

/// Returns the configuration, as it is now, of the router at an index.
fn conf_of(routers: &[Router], place: u16) -> Option<&RouterConf>
    ensures conf { option_map (λ r. r.now) result ≡ slice_get (confs_of routers.now) place }
    ensures sound { IfSome result (λ r. IsSound r.now) }
{
    let at = usize::from(place);
    if at < routers.len() {
        Some(routers[at].conf())
    } else {
        None
    }
}

/// Returns the configuration, as it is now, of the router that the packet in a frame in flight is for. The domain's
/// configurations, by index, are passed in for their prefixes, which never change.
pub(crate) fn reader<'a>(
    routers: &'a [Router],
    confs: &[RouterConf],
    flight: &FlightSeen<'_>,
) -> Option<&'a RouterConf>
    requires { length confs.now ≤ MOST_ROUTERS }
    ensures reader { option_map (λ r. r.now) result ≡ router_at (confs_of routers.now) (place_seen confs.now flight.now) }
    ensures sound { IfSome result (λ r. IsSound r.now) }
{
    let place = reader_of(confs, flight)?;
    conf_of(routers, place)
}

impl Network {
    /// Returns a domain in which each router has just started, with all its interfaces up, and nothing is in flight.
    pub(crate) fn new(alloc: Global, domain: Domain) -> M<Network>
        ensures world { IfOk result (λ n. world_in n ≡ first_world domain) }
        ensures heard { IfOk result (λ n. heard_in n ≡ map (λ r. 0) domain.routers) }
        ensures kept { IfOk result (λ n. IsTrueNetwork (state_of n)) }
    {
        let routers = routers_of(alloc, confs_of(&domain))?;
        let flights = Flights::new(alloc, confs_of(&domain))?;
        Ok(Network {
            domain: LinkedDomain::new(alloc, domain)?,
            routers,
            flights,
            injections: 0,
            events: 0,
            memory: SendMemory::new(alloc),
            effects: Effects::nothing(alloc),
        })
    }

    /// Returns the allocator of the domain.
    pub(crate) fn allocator(&self) -> Global {
        self.domain.conf().routers.allocator()
    }

    /// Returns the interface of a router that leads to another, if a link joins the two.
    pub(crate) fn link(&self, from: u16, to: u16) -> Option<u16>
        ensures { result ≡ link_between self.now.domain.routers from to }
    {
        link_between(confs_of(self.domain.conf()), from, to)
    }

    /// Returns how many frames are in flight from the interface of a router.
    pub(crate) fn frames_over(&self, from: u16, link: u16) -> usize
        ensures { result ≡ length (queue_at (world_in self.now).flights from link) }
    {
        self.flights.len(from, link)
    }

    /// Returns how many frames are in flight from one router to another.
    pub(crate) fn frames(&self, from: u16, to: u16) -> usize
        ensures { result ≡ length (frames_between (world_in self.now) from to) }
    {
        match self.link(from, to) {
            Some(link) => self.frames_over(from, link),
            None => 0,
        }
    }

    /// Returns how many BFR-ids are in flight.
    #[tactic(auto, using(crate::proofs::CarriedLaws::ids_are_carried))]
    pub(crate) fn ids_in_flight(&self) -> M<u64>
        requires { IsTrueNetwork (state_of self.now) }
        ensures { IfOk result (λ count. count ≡ ids_in_flight (world_in self.now).flights) }
    {
        let confs = confs_now(self.allocator(), self.routers.as_slice())?;
        self.flights.ids(confs.as_slice())
    }
}
