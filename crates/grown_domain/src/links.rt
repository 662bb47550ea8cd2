//! The links of the generated domain.
ghost use Rattle.std.specs.Prelude.{◌≡◌, ◌<◌, ◌≤◌, ◌==◌, map, IfOk, OnOk};
ghost use Rattle.std.specs.List.{list_any, range_with_len};
ghost use Rattle.wire_base.specs.declared.limits.TheConstants.{MOST_ROUTERS};
ghost use Rattle.grown_domain.specs.Links as spec;

use std::alloc::Global;
use wire_base::{LinkConf, M, Rows};

/// A link: the indices of the two routers that it joins, and its metric, which is the same in both directions.
#[derive(Clone, Copy)]
pub struct Link {
    pub a: u16,
    pub b: u16,
    pub metric: u32,
}

fn joins_same(l: &Link, m: &Link) -> bool
    ensures { result ≡ spec.joins_same l.now m.now }
{
    (l.a == m.a && l.b == m.b) || (l.a == m.b && l.b == m.a)
}

fn is_joined(links: &[Link], link: &Link) -> bool
    ensures { result ≡ list_any (spec.joins_same link.now) links.now }
{
    links.iter().any(|other| joins_same(link, other))
}

/// Returns the link from router `i` to the next one around the ring of `n` routers.
fn ring_link(n: u16, i: u16) -> Link
    requires few { n ≤ MOST_ROUTERS }
    requires within { i < n }
    ensures { result ≡ spec.ring_link n i }
{
    Link {
        a: i,
        b: (i + 1) % n,
        metric: 10,
    }
}

/// Returns the link from router `i` to the one halfway around the ring.
fn chord(n: u16, i: u16) -> Link
    requires few { n ≤ MOST_ROUTERS }
    requires within { i < n }
    ensures { result ≡ spec.chord n i }
{
    Link {
        a: i,
        b: (i + n / 2) % n,
        metric: 25,
    }
}

#[tactic(auto, unfolding(crate::specs::Links::ring))]
fn ring(alloc: Global, n: u16) -> M<Rows<Link>>
    requires few { n ≤ MOST_ROUTERS }
    ensures { IfOk result (λ links. links ≡ spec.ring n) }
{
    let mut links = Rows::new(alloc);
    for i in 0..n {
        links.push(ring_link(n, i))?;
    }
    Ok(links)
}

/// Appends a link, if none joins its two routers yet.
#[tactic(auto, unfolding(crate::specs::Links::with_link))]
fn push_new(links: &mut Rows<Link>, link: Link) -> M<()>
    ensures { OnOk result (links.new ≡ spec.with_link links.old link) }
{
    if is_joined(links.as_slice(), &link) {
        return Ok(());
    }
    links.push(link)
}

/// Returns the ring of `n` routers, followed by a chord from every fifth of them, if no link joins its two routers yet.
pub fn grown_links(alloc: Global, n: u16) -> M<Rows<Link>>
    requires few { n ≤ MOST_ROUTERS }
    ensures { IfOk result (λ links. links ≡ spec.grown_links n) }
{
    let mut links = ring(alloc, n)?;
    for i in 0..n {
        if i % 5 == 0 {
            push_new(&mut links, chord(n, i))?;
        }
    }
    Ok(links)
}

/// Returns which routers the links join.
pub fn pairs(alloc: Global, links: &[Link]) -> M<Rows<LinkConf>>
    ensures { IfOk result (λ pairs. pairs ≡ map spec.joined links.now) }
{
    let mut pairs = Rows::new(alloc);
    for link in links {
        pairs.push(LinkConf {
            a: link.a,
            b: link.b,
        })?;
    }
    Ok(pairs)
}
