//! The BFR-NBRs of a router of the ring, and of one whose only neighbor is no BFR.
ghost use Rattle.std.specs.Prelude.{◌≡◌, length};
ghost use Rattle.wire_base.specs.model.Configuration.{IsSound};

use birt_rows::rows;
use examples_model::ring_router_a;
use lsp_store::Store;
use std::alloc::Global;
use std::test::Fail;
use view_graph::view;
use wire_base::{Bsl, Content, Entry, First, LspId, M, Memory, RouterConf, SystemId, Triple, View};

/// The own LSPs of B, C and D of the ring: two links of metric 10, the prefix and one label.
const B_SAYS: &[u8] =
    b"\x01\x04\x03\x49\0\x01\x81\x01\xcc\x89\x01B\x16\x16\0\0\0\0\0\x01\0\0\0\x0a\0\0\0\0\0\0\x03\0\0\0\x0a\0\x87\x17\0\0\0\0\x60\x0a\0\0\x02\x0d\x20\x0b\0\0\0\0\x02\x01\x04\0\x10\0\xc8";

const C_SAYS: &[u8] =
    b"\x01\x04\x03\x49\0\x01\x81\x01\xcc\x89\x01C\x16\x16\0\0\0\0\0\x02\0\0\0\x0a\0\0\0\0\0\0\x04\0\0\0\x0a\0\x87\x17\0\0\0\0\x60\x0a\0\0\x03\x0d\x20\x0b\0\0\0\0\x03\x01\x04\0\x10\x01\x2c";

const D_SAYS: &[u8] =
    b"\x01\x04\x03\x49\0\x01\x81\x01\xcc\x89\x01D\x16\x16\0\0\0\0\0\x03\0\0\0\x0a\0\0\0\0\0\0\x01\0\0\0\x0a\0\x87\x17\0\0\0\0\x60\x0a\0\0\x04\x0d\x20\x0b\0\0\0\0\x04\x01\x04\0\x10\x01\x90";

/// The links of the system 2, which is no BFR, to 1, 3 and 4.
const FORK_SAYS: &[u8] =
    b"\x16\x21\0\0\0\0\0\x01\0\0\0\x0a\0\0\0\0\0\0\x03\0\0\0\x0a\0\0\0\0\0\0\x04\0\0\0\x0a\0";

/// The link of the systems 3 and 4 to 2, their prefix and one label.
const THREE_SAYS: &[u8] =
    b"\x16\x0b\0\0\0\0\0\x02\0\0\0\x0a\0\x87\x17\0\0\0\0\x60\x0a\0\0\x03\x0d\x20\x0b\0\0\0\0\x03\x01\x04\0\x10\x01\x2c";

const FOUR_SAYS: &[u8] =
    b"\x16\x0b\0\0\0\0\0\x02\0\0\0\x0a\0\x87\x17\0\0\0\0\x60\x0a\0\0\x04\x0d\x20\x0b\0\0\0\0\x04\x01\x04\0\x10\x01\x90";

/// Around the ring there are two shortest paths to BFR-id 3, over both neighbors.
#[test]
fn both_neighbors_on_the_ring(rt: HostRuntime) -> Result<(), Fail> {
    let firsts = [
        First {
            system: system(2),
            direct: Some(0),
        },
        First {
            system: system(4),
            direct: Some(1),
        },
    ];
    assert!(rt; ring_has(rt.alloc(), 3, &firsts)?);
    Ok(())
}

/// Behind a router that is no BFR the first BFRs are reached by tunnels.
#[test]
fn tunnels_over_the_fork(rt: HostRuntime) -> Result<(), Fail> {
    for id in [3, 4] {
        let first = First {
            system: system(id),
            direct: None,
        };
        assert!(rt; fork_has(rt.alloc(), id, &[first])?, "for {id}");
    }
    Ok(())
}

/// Returns whether those are the BFR-NBRs of a bit position at the node 0 of a topology, the router with that
/// configuration.
fn has(alloc: Global, conf: &RouterConf, seen: &View, position: u8, firsts: &[First]) -> M<bool>
    requires { length conf.now.ends ≡ 2 }
{
    if seen.as_slice().is_empty() || position == 0 {
        return Ok(false);
    }
    let triple = Triple {
        sd: 0,
        bsl: Bsl::B64,
        si: 0,
    };
    let set = rows(alloc, seen, conf, 0, triple)?;
    Ok(set.bits.at(usize::from(position - 1)) == firsts)
}

/// Returns whether those are the BFR-NBRs in the topology of an LSDB, over the interfaces that are up.
fn store_has(
    store: &Store,
    conf: &RouterConf,
    up: &[bool],
    position: u8,
    firsts: &[First],
) -> M<bool>
    requires sound { IsSound conf.now }
    requires ends { length conf.now.ends ≡ 2 }
    requires up { length up.now ≡ 2 }
{
    let seen = view(store.allocator(), conf, up, store)?;
    has(store.allocator(), conf, &seen, position, firsts)
}

fn ring_has(alloc: Global, position: u8, firsts: &[First]) -> M<bool> {
    let conf = ring_router_a(alloc)?;
    let mut store = Store::new(alloc);
    put(&mut store, 2, B_SAYS)?;
    put(&mut store, 3, C_SAYS)?;
    put(&mut store, 4, D_SAYS)?;
    store_has(&store, &conf, &[true, true], position, firsts)
}

/// The first router of the ring, whose interface to the second one alone is up.
fn fork_has(alloc: Global, position: u8, firsts: &[First]) -> M<bool> {
    let conf = ring_router_a(alloc)?;
    let mut store = Store::new(alloc);
    put(&mut store, 2, FORK_SAYS)?;
    put(&mut store, 3, THREE_SAYS)?;
    put(&mut store, 4, FOUR_SAYS)?;
    store_has(&store, &conf, &[true, false], position, firsts)
}

fn system(n: u8) -> SystemId {
    SystemId([0, 0, 0, 0, 0, n])
}

/// Stores a live fragment 0.
fn put(store: &mut Store, n: u8, content: &[u8]) -> M<()> {
    let content = Content::from_slice(store.allocator(), content)?;
    let answer = store.put(Entry {
        id: LspId::fragment_0(system(n)),
        seq: 1,
        life: 1200,
        hold: 0,
        sum: 1,
        flags: 3,
        content,
    });
    match answer {
        Ok(()) => Ok(()),
        Err(_) => Err(Memory),
    }
}
