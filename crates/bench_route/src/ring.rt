//! The LSDB of a router in a ring with chords: the LSPs of all other routers.
ghost use Rattle.std.specs.Prelude.{◌≤◌, ◌<◌, ◌+◌};

use lsp_store::Store;
use std::alloc::Global;
use wire_base::{Content, Entry, LspId, M, Memory, Octets, SystemId};

/// Returns the router at an index of a ring. Router 1 is at index 0, between routers 2 and 4.
fn router_at(nodes: u16, place: u16) -> u16
    requires { place < 65534 }
{
    match place {
        0..3 => place + 1,
        _ if place + 1 == nodes => 4,
        _ => place + 2,
    }
}

fn system(router: u16) -> SystemId {
    let [high, low] = router.to_be_bytes();
    SystemId([0, 0, 0, 0, high, low])
}

/// Appends an entry of TLV 22.
fn append_link(content: &mut Octets, router: u16, metric: u8) -> M<()> {
    content.append(&system(router).0)?;
    content.append(&[0, 0, 0, metric, 0])
}

/// A router that advertises nothing, so that a link to it does not count.
const NOWHERE: u16 = 65_535;

/// The variable parts of a router's LSP: its sequence number, the metric of its link to the next router of the ring, and
/// which of its two links there are up.
#[derive(Clone, Copy)]
struct Says {
    seq: u32,
    metric: u8,
    has_next: bool,
    has_previous: bool,
}

/// The variable parts of a router's first LSP.
const FIRST: Says = Says {
    seq: 1,
    metric: 10,
    has_next: true,
    has_previous: true,
};

/// Appends the links of the router at an index: those of the ring, and at each fifth index a chord to the opposite side.
fn append_links(content: &mut Octets, nodes: u16, place: u16, says: Says) -> M<()>
    requires few { nodes ≤ 1000 }
    requires some { 0 < nodes }
    requires within { place < nodes }
{
    let chord = place % 5 == 2;
    content.append(&[22, if chord { 33 } else { 22 }])?;
    let next = router_at(nodes, (place + 1) % nodes);
    let previous = router_at(nodes, (place + nodes - 1) % nodes);
    append_link(
        content,
        if says.has_next { next } else { NOWHERE },
        says.metric,
    )?;
    append_link(
        content,
        if says.has_previous { previous } else { NOWHERE },
        10,
    )?;
    if chord {
        append_link(content, router_at(nodes, (place + nodes / 2) % nodes), 25)?;
    }
    Ok(())
}

/// Appends a TLV 135 with the router's prefix and its membership of sub-domain 0: its number is its BFR-id, and it has labels
/// for four sets of 256 bits.
fn append_place(content: &mut Octets, router: u16) -> M<()> {
    let [high, low] = router.to_be_bytes();
    let range = 3 * 16_777_216 + 3 * 1_048_576 + 16_000 + 4 * u32::from(router);
    content.append(&[135, 23, 0, 0, 0, 0, 0x60, 10, 0, high, low, 13])?;
    content.append(&[32, 11, 0, 0, 0, high, low, 1, 4])?;
    content.append(&range.to_be_bytes())
}

/// Returns the LSP of the router at an index.
fn router_entry(alloc: Global, nodes: u16, place: u16, says: Says) -> M<Entry>
    requires few { nodes ≤ 1000 }
    requires some { 0 < nodes }
    requires within { place < nodes }
{
    let router = router_at(nodes, place);
    let mut content = Octets::new(alloc);
    append_links(&mut content, nodes, place, says)?;
    append_place(&mut content, router)?;
    Ok(Entry {
        id: LspId {
            system: system(router),
            pseudonode: 0,
            fragment: 0,
        },
        seq: says.seq,
        life: 1200,
        hold: 0,
        sum: 1,
        flags: 3,
        content: Content::from_octets(alloc, content)?,
    })
}

fn put_router(store: &mut Store, alloc: Global, nodes: u16, place: u16) -> M<()>
    requires few { nodes ≤ 1000 }
    requires some { 0 < nodes }
    requires within { place < nodes }
{
    match store.put(router_entry(alloc, nodes, place, FIRST)?) {
        Ok(()) => Ok(()),
        Err(_) => Err(Memory),
    }
}

/// Returns the LSPs of all routers but router 1.
pub fn database(alloc: Global, nodes: u16) -> M<Store>
    requires { nodes ≤ 1000 }
{
    let mut store = Store::new(alloc);
    for place in 1..nodes {
        put_router(&mut store, alloc, nodes, place)?;
    }
    Ok(store)
}

/// Returns the LSP of the router halfway round after the metric of a link has changed.
pub fn changed_entry(alloc: Global, nodes: u16) -> M<Entry>
    requires few { nodes ≤ 1000 }
    requires some { 0 < nodes }
{
    let says = Says {
        seq: 2,
        metric: 20,
        ..FIRST
    };
    router_entry(alloc, nodes, nodes / 2, says)
}

/// Returns the LSPs of that router and the next one after they have lost the link between them.
pub fn parted_entries(alloc: Global, nodes: u16) -> M<(Entry, Entry)>
    requires few { nodes ≤ 1000 }
    requires some { 0 < nodes }
{
    let before = Says {
        seq: 3,
        has_next: false,
        ..FIRST
    };
    let after = Says {
        seq: 2,
        has_previous: false,
        ..FIRST
    };
    let place = nodes / 2;
    let first = router_entry(alloc, nodes, place, before)?;
    let second = router_entry(alloc, nodes, (place + 1) % nodes, after)?;
    Ok((first, second))
}
