//! A topology that is computed once for all routers whose LSDBs advertise the same.
ghost use Rattle.std.specs.Prelude.{◌≡◌, ◌≤◌, map, length, true, Some, IfOk};
ghost use Rattle.wire_base.specs.model.Configuration.{IsSound};
ghost use Rattle.wire_base.specs.model.Control.{IsDatabase};
ghost use Rattle.wire_base.specs.model.View.{claims_of, nodes_of, own_claim, with_known};
ghost use Rattle.view_graph.specs.Edges.{AreInOrder};
ghost use Rattle.view_graph.specs.Keep.{AreNodesOf, IsKept, heard, said_in};

use crate::claims::{Claim, claims_of, own_claim, with_known};
use crate::heard::said_in;
use crate::kept_view::KeptView;
use crate::nodes::nodes_of;
use crate::same::is_same_claim;
use lsp_store::Store;
use std::alloc::Global;
use std::rc::Rc;
use wire_base::{M, RouterConf, View};

/// Returns what all systems advertise.
#[tactic(auto, using(crate::proofs::GraphLaws::claims_in_order, crate::proofs::GraphLaws::few_claims))]
fn all_claims(alloc: Global, conf: &RouterConf, up: &[bool], store: &Store) -> M<Vec<Claim>>
    requires one_each { length up.now ≡ length conf.now.ends }
    requires database { IsDatabase store.now.entries }
    ensures claims { IfOk result (λ claims. claims.items ≡ map (with_known conf.now.kinds) (claims_of conf.now up.now store.now.entries)) }
    ensures order { IfOk result (λ claims. AreInOrder claims.items) }
    ensures few { IfOk result (λ claims. length claims.items ≤ 65536) }
{
    claims_of(alloc, conf, up, store)
}

/// Builds the topology from what all systems advertise. Also returns whether no node lacks a membership because another system has
/// its prefix.
#[tactic(auto, using(crate::proofs::ViewLaws::made_graph))]
fn built(alloc: Global, conf: &RouterConf, up: &[bool], store: &Store) -> M<(View, bool)>
    requires one_each { length up.now ≡ length conf.now.ends }
    requires sound { IsSound conf.now }
    requires database { IsDatabase store.now.entries }
    ensures { IfOk result (λ built. AreNodesOf (map (with_known conf.now.kinds) (claims_of conf.now up.now store.now.entries)) built.0.nodes built.1) }
{
    let claims = all_claims(alloc, conf, up, store)?;
    let (nodes, is_whole) = nodes_of(alloc, claims)?;
    Ok((View { nodes }, is_whole))
}

/// Returns whether an LSDB contains of the router itself what the router advertises now.
fn says_own(alloc: Global, conf: &RouterConf, up: &[bool], store: &Store) -> M<bool>
    requires one_each { length up.now ≡ length conf.now.ends }
    ensures { IfOk result (λ says. says ≡ true → said_in conf.now.kinds store.now.entries conf.now.system ≡ Some (with_known conf.now.kinds (own_claim conf.now up.now))) }
{
    let Some(said) = said_in(alloc, conf.kinds.as_slice(), store, &conf.system)? else {
        return Ok(false);
    };
    let own = own_claim(alloc, conf, up)?;
    let own = with_known(conf.kinds.as_slice(), own)?;
    Ok(is_same_claim(&said, &own))
}

/// Returns whether the topology follows from the LSDB alone, and is shared with other routers.
fn is_shared(alloc: Global, conf: &RouterConf, up: &[bool], store: &Store) -> M<bool>
    requires one_each { length up.now ≡ length conf.now.ends }
    ensures { IfOk result (λ is_shared. is_shared ≡ true → said_in conf.now.kinds store.now.entries conf.now.system ≡ Some (with_known conf.now.kinds (own_claim conf.now up.now))) }
{
    if !store.shares_views() {
        return Ok(false);
    }
    says_own(alloc, conf, up, store)
}

/// Returns the topology of the LSDB that was noted last, or builds and notes it.
fn shared_view(alloc: Global, conf: &RouterConf, up: &[bool], store: &Store) -> M<Rc<View>>
    requires one_each { length up.now ≡ length conf.now.ends }
    requires sound { IsSound conf.now }
    requires own { said_in conf.now.kinds store.now.entries conf.now.system ≡ Some (with_known conf.now.kinds (own_claim conf.now up.now)) }
    ensures { IfOk result (λ shared. shared.value.nodes ≡ nodes_of (map (with_known conf.now.kinds) (claims_of conf.now up.now store.now.entries))) }
{
    let _entries = store.len();
    if let Some(known) = store.known_view(conf.kinds.as_slice())? {
        return Ok(known);
    }
    let (view, _is_whole) = built(alloc, conf, up, store)?;
    let shared = Rc::new(alloc, view)?;
    store.note_view(&conf.kinds, &shared)?;
    Ok(shared)
}

/// Returns the topology, shared with other routers where it can be. Also returns true, for a topology that is not shared alone, if no
/// node lacks a membership because another system has its prefix.
pub(crate) fn kept_view(
    alloc: Global,
    conf: &RouterConf,
    up: &[bool],
    store: &Store,
) -> M<(KeptView, bool)>
    requires one_each { length up.now ≡ length conf.now.ends }
    requires sound { IsSound conf.now }
    ensures made { IfOk result (λ kept. AreNodesOf (map (with_known conf.now.kinds) (claims_of conf.now up.now store.now.entries)) kept.0.nodes kept.1) }
    ensures kept { IfOk result (λ kept. IsKept conf.now.system (heard conf.now.system conf.now.kinds store.now.entries) kept.1 kept.0.nodes) }
{
    let _entries = store.len();
    if is_shared(alloc, conf, up, store)? {
        let shared = shared_view(alloc, conf, up, store)?;
        return Ok((KeptView::shared(shared), false));
    }
    let (view, is_whole) = built(alloc, conf, up, store)?;
    Ok((KeptView::own(view), is_whole))
}
