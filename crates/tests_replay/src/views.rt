//! The topology of a router after others have advertised themselves.
ghost use Rattle.std.specs.List.{AllByRecursion};
ghost use Rattle.wire_base.specs.model.Configuration.{IsSound};

use crate::domains::RING;
use crate::inputs::octets_of;
use domain_conf::read_domain;
use router_core::Router;
use std::alloc::Global;
use wire_base::{Domain, M, RouterConf};

// What the second, the third and the fourth router of the ring advertise first, as another implementation writes it.
const OTHERS_OF_THE_RING: [&str; 3] = [
    "09002b000005020000010000005bfefe03831b010014010000005804b0000000000002000000000001899a030104034900018101cc89014216160000000000010000000a000000000000030000000a00871700000000600a0000020d200b00000000020104001000c8",
    "09002b000005020000020001005bfefe03831b010014010000005804b00000000000030000000000017b3e030104034900018101cc89014316160000000000020000000a000000000000040000000a00871700000000600a0000030d200b000000000301040010012c",
    "09002b000005020000030002005bfefe03831b010014010000005804b0000000000004000000000001ed65030104034900018101cc89014416160000000000030000000a000000000000010000000a00871700000000600a0000040d200b0000000004010400100190",
];

/// Returns the number of routers in a router's topology.
fn nodes_seen(router: &Router) -> Option<usize> {
    let view = router.current_view().ok()?;
    Some(view.as_slice().len())
}

/// Returns whether a router accepted a frame on its first link.
fn takes(router: &mut Router, frame: &[u8]) -> bool {
    router.conf().ends.len() > 0 && frame.len() <= 65_000 && router.frame(0, frame).is_ok()
}

/// Returns whether a router accepted a frame, given by its digits, on its first link.
fn takes_digits(alloc: Global, router: &mut Router, digits: &str) -> bool {
    match octets_of(alloc, digits) {
        Some(frame) => takes(router, frame.as_slice()),
        None => false,
    }
}

/// Returns the configurations of a domain's routers, each of which is sound.
fn confs(domain: &Domain) -> &[RouterConf]
    ensures { AllByRecursion IsSound result.now }
{
    domain.routers.as_slice()
}

/// Returns a router that has just started.
fn started(alloc: Global, conf: &RouterConf) -> M<Router>
    requires { IsSound conf.now }
{
    Router::new(alloc, conf.copy()?)
}

/// Returns the second router of a domain that has two.
pub fn second(alloc: Global, domain: &Domain) -> Option<Router> {
    match confs(domain) {
        [_, conf] => started(alloc, conf).ok(),
        _ => None,
    }
}

/// Returns the number of routers in a router's topology after it received a frame on its first link.
fn nodes_then(alloc: Global, router: &mut Router, digits: &str) -> Option<usize> {
    if takes_digits(alloc, router, digits) {
        nodes_seen(router)
    } else {
        None
    }
}

/// Returns the number of routers in a router's topology before three others advertise themselves one after the other,
/// and after each of them.
fn seen_in_turn(alloc: Global, router: &mut Router) -> [Option<usize>; 4] {
    let [second, third, fourth] = OTHERS_OF_THE_RING;
    [
        nodes_seen(router),
        nodes_then(alloc, router, second),
        nodes_then(alloc, router, third),
        nodes_then(alloc, router, fourth),
    ]
}

/// Returns the first router of a domain.
fn first(alloc: Global, domain: &Domain) -> Option<Router> {
    match confs(domain) {
        [conf, ..] => started(alloc, conf).ok(),
        [] => None,
    }
}

fn first_sees(alloc: Global, domain: &Domain) -> [Option<usize>; 4] {
    match first(alloc, domain) {
        Some(mut router) => seen_in_turn(alloc, &mut router),
        None => [None; 4],
    }
}

fn ring_sees(alloc: Global) -> [Option<usize>; 4] {
    match read_domain(alloc, RING.as_bytes()) {
        Ok(domain) => first_sees(alloc, &domain),
        Err(_) => [None; 4],
    }
}

#[test]
fn the_ring_sees_itself(rt: HostRuntime) {
    assert!(rt; ring_sees(rt.alloc()) == [Some(1), Some(2), Some(3), Some(4)]);
}
