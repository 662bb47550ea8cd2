//! The routers of the generated domain.
ghost use Rattle.std.specs.Prelude.{◌≡◌, ◌<◌, ◌++◌, ◌∷◌, [], filter_map, option_to_list, IfOk, OnOk};
ghost use Rattle.wire_base.specs.declared.limits.TheConstants.{MOST_ROUTERS};
ghost use Rattle.domain_conf.specs.Links.{made_mac};
ghost use Rattle.grown_domain.specs.Routers as spec;

use crate::links::Link;
use domain_conf::made_mac;
use std::alloc::Global;
use wire_base::{
    Bsl, End, Ipv4, Kind, LabelRange, Level, M, Name, Octets, OwnSub, RouterConf, Rows, SubKind,
    SystemId,
};

/// Returns `r` followed by the router's index.
fn name(alloc: Global, place: u16) -> M<Name>
    ensures { IfOk result (λ name. name ≡ spec.name place) }
{
    let mut text = Octets::new(alloc);
    text.push(b'r')?;
    text.append_number(u64::from(place))?;
    Name::from_slice(alloc, text.as_slice())
}

/// Returns the number of the router, from 1, in six octets.
fn system(place: u16) -> SystemId
    ensures { result ≡ spec.system place }
{
    let number = u32::from(place) + 1;
    let [first, second, third, fourth] = number.to_be_bytes();
    SystemId([0, 0, first, second, third, fourth])
}

fn end_toward(own: u16, peer: u16, metric: u32) -> End
    ensures { result ≡ spec.end_toward own peer metric }
{
    End {
        peer: system(peer),
        peer_mac: made_mac(peer, own),
        own_mac: made_mac(own, peer),
        metric,
    }
}

/// Returns a router's interface on a link, if the link joins that router.
fn end_of(place: u16, link: &Link) -> Option<End>
    ensures { result ≡ spec.end_of place link.now }
{
    if link.a == place {
        Some(end_toward(link.a, link.b, link.metric))
    } else if link.b == place {
        Some(end_toward(link.b, link.a, link.metric))
    } else {
        None
    }
}

fn push_some(ends: &mut Rows<End>, end: Option<End>) -> M<()>
    ensures { OnOk result (ends.new ≡ ends.old ++ option_to_list end) }
{
    match end {
        Some(end) => ends.push(end),
        None => Ok(()),
    }
}

/// Returns the interfaces of a router, in the order of the links.
fn ends_of(alloc: Global, links: &[Link], place: u16) -> M<Rows<End>>
    ensures { IfOk result (λ ends. ends ≡ filter_map (spec.end_of place) links.now) }
{
    let mut ends = Rows::new(alloc);
    for link in links {
        push_some(&mut ends, end_of(place, link))?;
    }
    Ok(ends)
}

/// Returns the maximum SI of `n` BFR-ids: 0 if one set has them all, otherwise 3.
fn last_set(n: u16) -> u8
    ensures { result ≡ spec.last_set n }
{
    if n > 256 { 3 } else { 0 }
}

/// Returns the sub-domain of all `n` routers, with the router's own BFR-id.
fn subs_of(alloc: Global, n: u16, place: u16) -> M<Rows<OwnSub>>
    requires { place < MOST_ROUTERS }
    ensures { IfOk result (λ subs. subs ≡ spec.own_sub n place ∷ []) }
{
    let mut ranges = Rows::new(alloc);
    ranges.push(LabelRange {
        bsl: Bsl::B256,
        max_si: last_set(n),
        label: 16_000,
    })?;
    let mut subs = Rows::new(alloc);
    subs.push(OwnSub {
        sd: 0,
        id: place + 1,
        ranges,
    })?;
    Ok(subs)
}

fn kinds(alloc: Global) -> M<Rows<SubKind>>
    ensures { IfOk result (λ kinds. kinds ≡ spec.kind ∷ []) }
{
    let mut kinds = Rows::new(alloc);
    kinds.push(SubKind {
        sd: 0,
        kind: Kind::Mpls,
    })?;
    Ok(kinds)
}

/// Returns the router at an index, of a domain of `n` routers with those links.
pub fn router(alloc: Global, links: &[Link], n: u16, place: u16) -> M<RouterConf>
    requires { place < MOST_ROUTERS }
    ensures { IfOk result (λ conf. conf ≡ spec.router links.now n place) }
{
    let number = place + 1;
    Ok(RouterConf {
        level: Level::Two,
        area: Octets::from_slice(alloc, &[0x49, 0, 1])?,
        name: name(alloc, place)?,
        system: system(place),
        prefix: Ipv4([10, 0, (number / 256) as u8, (number % 256) as u8]),
        overload: false,
        subs: subs_of(alloc, n, place)?,
        away: Rows::new(alloc),
        past: Rows::new(alloc),
        kinds: kinds(alloc)?,
        table: Rows::new(alloc),
        ends: ends_of(alloc, links, place)?,
    })
}
