//! The entries of `link`.
ghost use Rattle.std.specs.Prelude.{◌≡◌, ◌==◌, [], map};
ghost use Rattle.std.specs.List.{list_any};
ghost use Rattle.toml.specs.View.{view};
ghost use Rattle.domain_conf.specs.Reading.{Gives};
ghost use Rattle.domain_conf.specs.Fields.{entry_path};
ghost use Rattle.domain_conf.specs.Arrays.{entries_from};
ghost use Rattle.domain_conf.specs.Links as spec;

use crate::by_router::{AtRouters, ByRouter};
use crate::entry::Entry;
use crate::fault::ConfFault;
use crate::forms::mac_octets;
use crate::routers::{Routers, known_router};
use std::alloc::Global;
use toml::Value;
use wire_base::Mac;

/// A link between two routers, which are named by their indices in the file: the metric in each direction, and the
/// Ethernet address of each interface.
#[derive(Clone, Copy)]
pub struct LinkEntry {
    pub a: u16,
    pub b: u16,
    pub metric_ab: u32,
    pub metric_ba: u32,
    pub mac_a: Mac,
    pub mac_b: Mac,
}

impl AtRouters for LinkEntry {
    ghost routers_of = { λ l. (l.a, l.b) };

    fn routers(&self) -> (u16, u16) {
        (self.a, self.b)
    }
}

/// Returns the Ethernet address of a router's interface toward a peer if the file has none: 02:00, the router's index
/// and the peer's index.
#[tactic(auto, unfolding(crate::specs::Links::made_mac))]
pub fn made_mac(own: u16, peer: u16) -> Mac
    ensures { result ≡ spec.made_mac own peer }
{
    Mac([
        2,
        0,
        (own / 256) as u8,
        (own % 256) as u8,
        (peer / 256) as u8,
        (peer % 256) as u8,
    ])
}

/// Returns the Ethernet address at a key, or a default if the key is missing.
#[tactic(auto, unfolding(crate::specs::Fields::field))]
fn mac_or_made(entry: &Entry, key: &str, made: Mac) -> Result<Mac, ConfFault>
    ensures { Gives (λ mac. mac) result (spec.mac_or_made made (entry_path entry.now.array.now entry.now.place) key.now (view entry.now.value.now)) }
{
    let Some(value) = entry.value.get(key) else {
        return Ok(made);
    };
    let Some(text) = value.as_str() else {
        return Err(ConfFault::Field(entry.path(key)?));
    };
    match mac_octets(text.as_bytes()) {
        Some(octets) => Ok(Mac(octets)),
        None => Err(ConfFault::Range(entry.path(key)?)),
    }
}

fn same_routers(l: &LinkEntry, m: &LinkEntry) -> bool
    ensures { result ≡ spec.same_routers l.now m.now }
{
    (l.a == m.a && l.b == m.b) || (l.a == m.b && l.b == m.a)
}

fn has_peer_mac(router: u16, mac: Mac, link: &LinkEntry) -> bool
    ensures { result ≡ spec.has_peer_mac router mac link.now }
{
    (link.a == router && link.mac_b == mac) || (link.b == router && link.mac_a == mac)
}

fn any_same(links: &[LinkEntry], link: &LinkEntry) -> bool
    ensures { result ≡ list_any (spec.same_routers link.now) links.now }
{
    links.iter().any(|other| same_routers(link, other))
}

fn any_peer_mac(links: &[LinkEntry], router: u16, mac: Mac) -> bool
    ensures { result ≡ list_any (spec.has_peer_mac router mac) links.now }
{
    links.iter().any(|link| has_peer_mac(router, mac, link))
}

#[tactic(auto, using(crate::proofs::GroupLemmas::same_in_group))]
fn is_joined(earlier: &ByRouter<LinkEntry>, link: &LinkEntry) -> bool
    ensures { result ≡ list_any (spec.same_routers link.now) earlier.now }
{
    any_same(earlier.of(link.a), link)
}

#[tactic(auto, using(crate::proofs::GroupLemmas::mac_in_group))]
fn has_peer(earlier: &ByRouter<LinkEntry>, router: u16, mac: Mac) -> bool
    ensures { result ≡ list_any (spec.has_peer_mac router mac) earlier.now }
{
    any_peer_mac(earlier.of(router), router, mac)
}

fn new_link(
    entry: &Entry,
    earlier: &ByRouter<LinkEntry>,
    link: LinkEntry,
) -> Result<LinkEntry, ConfFault>
    ensures { Gives (λ l. l) result (spec.new_link (entry_path entry.now.array.now entry.now.place) earlier.now link) }
{
    if link.a == link.b {
        return Err(ConfFault::Reference(entry.path("b")?));
    }
    if is_joined(earlier, &link) {
        return Err(ConfFault::Duplicate(entry.path("b")?));
    }
    if has_peer(earlier, link.b, link.mac_a) {
        return Err(ConfFault::Duplicate(entry.path("mac_a")?));
    }
    if has_peer(earlier, link.a, link.mac_b) {
        return Err(ConfFault::Duplicate(entry.path("mac_b")?));
    }
    Ok(link)
}

/// Reads an entry for the link between those two routers.
#[tactic(auto, unfolding(crate::specs::Links::link_between))]
fn link_between(
    entry: &Entry,
    earlier: &ByRouter<LinkEntry>,
    a: u16,
    b: u16,
) -> Result<LinkEntry, ConfFault>
    ensures { Gives (λ l. l) result (spec.link_between (entry_path entry.now.array.now entry.now.place) earlier.now a b (view entry.now.value.now)) }
{
    let metric_ab = entry.number("metric_ab", 1, 16_777_214)?;
    let metric_ba = entry.number("metric_ba", 1, 16_777_214)?;
    let mac_a = mac_or_made(entry, "mac_a", made_mac(a, b))?;
    let mac_b = mac_or_made(entry, "mac_b", made_mac(b, a))?;
    let link = LinkEntry {
        a,
        b,
        metric_ab,
        metric_ba,
        mac_a,
        mac_b,
    };
    new_link(entry, earlier, link)
}

fn link_in(
    entry: &Entry,
    routers: &Routers,
    earlier: &ByRouter<LinkEntry>,
) -> Result<LinkEntry, ConfFault>
    ensures { Gives (λ l. l) result (spec.link_in (entry_path entry.now.array.now entry.now.place) routers.now earlier.now (view entry.now.value.now)) }
{
    entry.has_only(&["a", "b", "metric_ab", "metric_ba", "mac_a", "mac_b"])?;
    let a = known_router(entry, routers, "a")?;
    let b = known_router(entry, routers, "b")?;
    link_between(entry, earlier, a, b)
}

#[tactic(auto, unfolding(crate::specs::Links::link_at))]
fn link_at(
    alloc: Global,
    routers: &Routers,
    earlier: &ByRouter<LinkEntry>,
    place: usize,
    value: &Value,
) -> Result<LinkEntry, ConfFault>
    ensures { Gives (λ l. l) result (spec.link_at routers.now earlier.now place (view value.now)) }
{
    let entry = Entry {
        alloc,
        array: "link",
        place,
        value,
    };
    link_in(&entry, routers, earlier)
}

/// Reads the links of a file.
pub fn read_links(
    alloc: Global,
    routers: &Routers,
    values: &[Value],
) -> Result<ByRouter<LinkEntry>, ConfFault>
    ensures { Gives (λ ls. ls) result (entries_from (spec.link_at routers.now) [] 0 (map view values.now)) }
{
    let mut earlier = ByRouter::new(alloc);
    for (place, value) in values.iter().enumerate() {
        let next = link_at(alloc, routers, &earlier, place, value)?;
        earlier = earlier.with(alloc, next)?;
    }
    Ok(earlier)
}
