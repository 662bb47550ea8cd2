//! Equality of topologies, and of what systems advertise.
ghost use Rattle.std.specs.Prelude.{◌≡◌, true, false, length, Decides};

use crate::claims::Claim;
use crate::links::Link;
use wire_base::{LabelRange, ViewEdge, ViewNode, ViewSub};

#[tactic(auto, using(crate::proofs::SameLaws::range_decided))]
fn is_same_range(a: LabelRange, b: LabelRange) -> bool
    ensures { Decides result (a ≡ b) }
{
    a.bsl.code() == b.bsl.code() && a.max_si == b.max_si && a.label == b.label
}

fn are_same_ranges(a: &[LabelRange], b: &[LabelRange]) -> bool
    ensures { Decides result (a.now ≡ b.now) }
{
    if a.len() != b.len() {
        return false;
    }
    'spans: for place in 0..a.len() {
        if !is_same_range(a[place], b[place]) {
            return false;
        }
    }
    true
}

fn is_same_place(a: &ViewSub, b: &ViewSub) -> bool
    ensures { Decides result ((a.now.sd ≡ b.now.sd) × ((a.now.id ≡ b.now.id) × (a.now.prefix ≡ b.now.prefix))) }
{
    a.sd == b.sd && a.id == b.id && a.prefix == b.prefix
}

#[tactic(auto, using(crate::proofs::SameLaws::sub_decided))]
fn is_same_sub(a: &ViewSub, b: &ViewSub) -> bool
    ensures { Decides result (a.now ≡ b.now) }
{
    let is_same_place = is_same_place(a, b);
    let are_same_ranges = are_same_ranges(a.ranges.as_slice(), b.ranges.as_slice());
    is_same_place && are_same_ranges
}

pub(crate) fn are_same_subs(a: &[ViewSub], b: &[ViewSub]) -> bool
    ensures { Decides result (a.now ≡ b.now) }
{
    if a.len() != b.len() {
        return false;
    }
    'subs: for place in 0..a.len() {
        if !is_same_sub(&a[place], &b[place]) {
            return false;
        }
    }
    true
}

#[tactic(auto, using(crate::proofs::SameLaws::edge_decided))]
fn is_same_edge(a: ViewEdge, b: ViewEdge) -> bool
    ensures { Decides result (a ≡ b) }
{
    a.to == b.to && a.metric == b.metric
}

pub(crate) fn are_same_edges(a: &[ViewEdge], b: &[ViewEdge]) -> bool
    ensures { Decides result (a.now ≡ b.now) }
{
    if a.len() != b.len() {
        return false;
    }
    'edges: for place in 0..a.len() {
        if !is_same_edge(a[place], b[place]) {
            return false;
        }
    }
    true
}

fn is_same_router(a: &ViewNode, b: &ViewNode) -> bool
    ensures { Decides result ((a.now.system ≡ b.now.system) × (a.now.overload ≡ b.now.overload)) }
{
    a.system == b.system && a.overload == b.overload
}

#[tactic(auto, using(crate::proofs::SameLaws::node_decided))]
pub(crate) fn is_same_node(a: &ViewNode, b: &ViewNode) -> bool
    ensures { Decides result (a.now ≡ b.now) }
{
    let is_same_router = is_same_router(a, b);
    let are_same_edges = are_same_edges(a.edges.as_slice(), b.edges.as_slice());
    let are_same_subs = are_same_subs(a.subs.as_slice(), b.subs.as_slice());
    is_same_router && are_same_edges && are_same_subs
}

/// Returns whether the edges of all nodes are equal.
fn have_same_edges(a: &[ViewNode], b: &[ViewNode]) -> bool
    requires { length a.now ≡ length b.now }
    ensures { result ≡ false → a.now ≡ b.now → ⊥ }
{
    'nodes: for place in 0..a.len() {
        if !are_same_edges(a[place].edges.as_slice(), b[place].edges.as_slice()) {
            return false;
        }
    }
    true
}

pub(crate) fn are_same_nodes(a: &[ViewNode], b: &[ViewNode]) -> bool
    ensures { Decides result (a.now ≡ b.now) }
{
    if a.len() != b.len() {
        return false;
    }
    // Topologies that differ mostly differ in edges, which are compared in fewer steps than whole nodes.
    if !have_same_edges(a, b) {
        return false;
    }
    'nodes: for place in 0..a.len() {
        if !is_same_node(&a[place], &b[place]) {
            return false;
        }
    }
    true
}

fn is_same_link(a: &Link, b: &Link) -> bool
    ensures { result ≡ true → a.now ≡ b.now }
{
    a.neighbour == b.neighbour && a.metric == b.metric
}

fn are_same_links(a: &[Link], b: &[Link]) -> bool
    ensures { result ≡ true → a.now ≡ b.now }
{
    if a.len() != b.len() {
        return false;
    }
    'links: for place in 0..a.len() {
        if !is_same_link(&a[place], &b[place]) {
            return false;
        }
    }
    true
}

/// Returns whether two systems advertise the same.
pub(crate) fn is_same_claim(a: &Claim, b: &Claim) -> bool
    ensures { result ≡ true → a.now ≡ b.now }
{
    let are_same_links = are_same_links(a.links.as_slice(), b.links.as_slice());
    let are_same_subs = are_same_subs(a.subs.as_slice(), b.subs.as_slice());
    a.system == b.system && a.overload == b.overload && are_same_links && are_same_subs
}
