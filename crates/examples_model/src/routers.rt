//! Router A of the pair and of the ring, as values.
ghost use Rattle.std.specs.Prelude.{◌≡◌, ◌<◌, IfOk, length};
ghost use Rattle.wire_base.specs.model.Configuration.{IsSound};
ghost use Rattle.examples_model.specs.Domains as domains;
ghost use Rattle.examples_model.specs.Domains.{pair_a, ring_a};

use std::alloc::Global;
use wire_base::{
    Bsl, End, Ipv4, Kind, LabelRange, Level, M, Mac, Name, Octets, OwnSub, RouterConf, Rows,
    SubKind, SystemId,
};

/// Returns the configuration of router A with those links.
pub fn router_a(alloc: Global, ends: Rows<End>) -> M<RouterConf>
    ensures { IfOk result (λ conf. conf ≡ record pair_a { ends = ends }) }
{
    let range = LabelRange {
        bsl: Bsl::B64,
        max_si: 0,
        label: 100,
    };
    let kind = SubKind {
        sd: 0,
        kind: Kind::Mpls,
    };
    let mut subs = Rows::new(alloc);
    subs.push(OwnSub {
        sd: 0,
        id: 1,
        ranges: Rows::from_slice(alloc, &[range])?,
    })?;
    Ok(RouterConf {
        level: Level::Two,
        area: Octets::from_slice(alloc, &[0x49, 0, 1])?,
        name: Name::from_slice(alloc, b"A")?,
        system: SystemId([0, 0, 0, 0, 0, 1]),
        prefix: Ipv4([10, 0, 0, 1]),
        overload: false,
        subs,
        away: Rows::new(alloc),
        past: Rows::new(alloc),
        kinds: Rows::from_slice(alloc, &[kind])?,
        table: Rows::new(alloc),
        ends,
    })
}

/// Returns router A's link to a router.
pub fn end_of_a(peer: u8) -> End
    requires { 0 < peer }
    ensures { result ≡ domains.end 1 peer }
{
    End {
        peer: SystemId([0, 0, 0, 0, 0, peer]),
        peer_mac: Mac([2, 0, 0, peer - 1, 0, 0]),
        own_mac: Mac([2, 0, 0, 0, 0, peer - 1]),
        metric: 10,
    }
}

/// Returns the configuration of router A of the ring, with links to B and D.
#[tactic(auto, using(crate::proofs::Validity::ring_a_sound))]
pub fn ring_router_a(alloc: Global) -> M<RouterConf>
    ensures is { IfOk result (λ conf. conf ≡ ring_a) }
    ensures sound { IfOk result (λ conf. IsSound conf) }
    ensures ends { IfOk result (λ conf. length conf.ends ≡ 2) }
{
    router_a(alloc, Rows::from_slice(alloc, &[end_of_a(2), end_of_a(4)])?)
}
