//! What systems advertise now, and the nodes rebuilt from it.
ghost use Rattle.std.specs.Prelude.{◌≡◌, ◌≤◌, ◌∷◌, length, IfOk, IfSome};
ghost use Rattle.view_graph.specs.Edges.{AreInOrder};
ghost use Rattle.view_graph.specs.Renewal.{IsPatch, said_now, node_claims};

use crate::changes::changed_places;
use crate::claims::{Claim, own_claim, with_known};
use crate::heard::said_in;
use crate::patch::NewNode;
use crate::rebuilt::nodes_now;
use lsp_store::Store;
use wire_base::{M, RouterConf, SystemId, ViewNode};

/// Returns what a system advertises now.
#[tactic(auto, unfolding(crate::specs::Renewal::said_now))]
pub(crate) fn said_now(
    conf: &RouterConf,
    up: &[bool],
    store: &Store,
    system: &SystemId,
) -> M<Option<Claim>>
    requires one_each { length up.now ≡ length conf.now.ends }
    ensures { IfOk result (λ said. said ≡ said_now conf.now up.now store.now.entries system.now) }
{
    let alloc = conf.kinds.allocator();
    if *system == conf.system {
        let own = own_claim(alloc, conf, up)?;
        let known = with_known(conf.kinds.as_slice(), own)?;
        Ok(Some(known))
    } else {
        said_in(alloc, conf.kinds.as_slice(), store, system)
    }
}

/// Returns the nodes rebuilt for what the router and those systems advertise now. None if the whole topology must be built
/// again.
pub(crate) fn patch_of(
    nodes: &[ViewNode],
    conf: &RouterConf,
    up: &[bool],
    store: &Store,
    changed: &[SystemId],
) -> M<Option<Vec<NewNode>>>
    requires order { AreInOrder (node_claims nodes.now) }
    requires few { length nodes.now ≤ 65536 }
    requires one_each { length up.now ≡ length conf.now.ends }
    ensures { IfOk result (λ found. IfSome found (λ anew. IsPatch (said_now conf.now up.now store.now.entries) nodes.now (conf.now.system ∷ changed.now) anew.items)) }
{
    match changed_places(nodes, conf, up, store, changed)? {
        Some(places) => nodes_now(nodes, conf, up, store, places.as_slice()),
        None => Ok(None),
    }
}
