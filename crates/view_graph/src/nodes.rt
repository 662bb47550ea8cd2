//! The topology: a node for each system.
ghost use Rattle.std.specs.Prelude.{◌≡◌, ◌≤◌, ◌++◌, ◌∷◌, [], map, length, true, false, IfOk, OnOk};
ghost use Rattle.wire_base.specs.model.View.{nodes_of, view_of};
ghost use Rattle.wire_base.specs.model.Configuration.{IsSound};
ghost use Rattle.wire_base.specs.model.Control.{IsDatabase};
ghost use Rattle.wire_base.specs.model.Graph.{IsGraph, covers};
ghost use Rattle.view_graph.specs.Edges.{AreInOrder, AreWhole, half_edges_of};
ghost use Rattle.view_graph.specs.Owners.{AreAlone, AreTold, alone_node, whole_node};

use crate::claims::{Claim, claims_of};
use crate::edges::{all_half_edges, all_whole_edges};
use crate::known::keep_alone;
use crate::owners::owners_of;
use lsp_store::Store;
use std::alloc::Global;
use std::collections::BTreeMap;
use std::mem;
use wire_base::{EdgeList, Ipv4, M, RouterConf, Rows, SystemId, Triple, View, ViewNode};

/// Returns the node of a system with all memberships of sub-domains that it advertises.
fn whole_node(edges: EdgeList, claim: Claim) -> ViewNode
    ensures { result ≡ whole_node edges claim }
{
    ViewNode {
        system: claim.system,
        overload: claim.overload,
        edges,
        subs: claim.subs,
    }
}

/// Appends the node of a system, by its edges and its claim.
fn push_node(
    nodes: &mut Vec<ViewNode>,
    edges: EdgeList,
    owners: &BTreeMap<Ipv4, Option<SystemId>>,
    is_any: bool,
    claim: Claim,
) -> M<()>
    requires alone { is_any ≡ false → AreAlone owners.now }
    ensures { OnOk result (nodes.new.items ≡ nodes.old.items ++ alone_node owners.now (whole_node edges claim) ∷ []) }
{
    let last = nodes.len();
    nodes.push(whole_node(edges, claim))?;
    if is_any {
        keep_alone(owners, &mut nodes[last])?;
    }
    Ok(())
}

/// Returns the nodes, given the edges of each system, the owners of the prefixes and whether a prefix has several owners.
fn all_nodes(
    alloc: Global,
    mut edges: Vec<EdgeList>,
    owners: &BTreeMap<Ipv4, Option<SystemId>>,
    is_any: bool,
    claims: Vec<Claim>,
) -> M<Rows<ViewNode>>
    requires edges { AreWhole (map (half_edges_of claims.items) claims.items) edges.items }
    requires told { AreTold claims.items owners.now }
    requires alone { is_any ≡ false → AreAlone owners.now }
    ensures { IfOk result (λ nodes. nodes ≡ nodes_of claims.items) }
{
    let mut nodes = Vec::with_capacity(alloc, claims.len())?;
    'systems: for claim in claims {
        let own = mem::replace(&mut edges[nodes.len()], EdgeList::new(alloc));
        push_node(&mut nodes, own, owners, is_any, claim)?;
    }
    Ok(Rows::from_vec(nodes))
}

/// Returns the nodes, and whether each has all memberships of sub-domains that its system advertises.
pub(crate) fn nodes_of(alloc: Global, claims: Vec<Claim>) -> M<(Rows<ViewNode>, bool)>
    requires order { AreInOrder claims.items }
    requires few { length claims.items ≤ 65536 }
    ensures nodes { IfOk result (λ made. made.0 ≡ nodes_of claims.items) }
    ensures whole { IfOk result (λ made. made.1 ≡ true → map (λ n. n.subs) (nodes_of claims.items) ≡ map (λ c. c.subs) claims.items) }
{
    let halves = all_half_edges(alloc, claims.as_slice())?;
    let (owners, is_any) = owners_of(alloc, claims.as_slice())?;
    let edges = all_whole_edges(alloc, halves)?;
    let nodes = all_nodes(alloc, edges, &owners, is_any, claims)?;
    Ok((nodes, !is_any))
}

#[tactic(auto, unfolding(wire_base::specs::model::View::view_of), using(crate::proofs::GraphLaws::claims_in_order, crate::proofs::GraphLaws::few_claims))]
fn viewed(alloc: Global, conf: &RouterConf, up: &[bool], store: &Store) -> M<Rows<ViewNode>>
    requires one_each { length up.now ≡ length conf.now.ends }
    requires database { IsDatabase store.now.entries }
    ensures { IfOk result (λ nodes. nodes ≡ view_of conf.now up.now store.now.entries) }
{
    let claims = claims_of(alloc, conf, up, store)?;
    let (nodes, _is_whole) = nodes_of(alloc, claims)?;
    Ok(nodes)
}

/// Returns the topology of a router: from its configuration, a truth value for each interface (whether it is up), and its LSDB
/// (ISO/IEC 10589, 7.2.5 and 7.2.8; RFC 5305, 3 and 4; RFC 8401, 4 and 5).
///
/// It has a node for the router itself and one for each other system whose fragment 0 is live. All live fragments of a system
/// count, in order. A link is one to a router with a metric below 16,777,215, where 0 counts as 1. It counts if both systems
/// list each other, with the least metric of several. If two label ranges of a system share a label, none of its memberships of
/// sub-domains counts. Otherwise the first in each sub-domain that `conf` knows counts, unless another system has such a
/// membership with the same prefix.
#[tactic(auto, using(crate::proofs::ViewLaws::view_is_graph))]
pub fn view(alloc: Global, conf: &RouterConf, up: &[bool], store: &Store) -> M<View>
    requires one_each { length up.now ≡ length conf.now.ends }
    requires sound { IsSound conf.now }
    ensures exact { IfOk result (λ v. v.nodes ≡ view_of conf.now up.now store.now.entries) }
    ensures graph { IfOk result (λ v. IsGraph v.nodes) }
{
    let _entries = store.len();
    let nodes = viewed(alloc, conf, up, store)?;
    Ok(View { nodes })
}

/// Returns whether a node supports a triple. In an MPLS sub-domain it needs a label range of that BSL that includes the set
/// identifier. In a non-MPLS sub-domain it must be in the sub-domain, and the configured table must have an entry for the
/// triple (RFC 8279, 6.9; RFC 8401, 6.2).
pub fn supports(conf: &RouterConf, node: &ViewNode, t: Triple) -> bool
    ensures { result ≡ covers conf.now.kinds conf.now.table t node.now }
{
    node.covers(&conf.kinds, &conf.table, t)
}
