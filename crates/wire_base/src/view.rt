//! The topology that one router's LSDB describes: its routers, the links between them and the BIER information that each
//! router advertises. Also the BFR-NBRs of a BIFT.
ghost use Rattle.std.specs.Prelude.{◌≡◌, is_some, option_map};
ghost use Rattle.wire_base.specs.model.Place.{bift_by, label_in, row_in, same_triple};
ghost use Rattle.wire_base.specs.model.Graph.{IsGraph, covers, place_in};

use crate::addresses::{Ipv4, SystemId};
use crate::conf::{Kind, LabelRange, SubKind, TableRow};
use crate::few::Few;
use crate::first_lists::PositionRows;
use crate::lists::Rows;
use crate::router_conf::kind_of;
use crate::triple::Triple;
use std::alloc::Global;
use std::default::MadeWith;
use std::marker::Model;

/// An edge of a topology: the index of the node that it leads to, and its metric (RFC 5305, 3).
#[derive(Clone, Copy, Debug, Default, PartialEq, Eq)]
pub struct ViewEdge {
    pub to: u16,
    pub metric: u32,
}

/// The edges of a node; most routers have two or three.
pub type EdgeList = Few<ViewEdge, 4>;

/// The label ranges of a router in a sub-domain; most routers support a single BSL.
pub type RangeList = Few<LabelRange, 1>;

/// A router's membership of a sub-domain, as it advertises it: its BFR-id (0 for none), its BFR-prefix and its label ranges
/// (RFC 8401, 6.1 and 6.2).
#[derive(Drop)]
pub struct ViewSub {
    pub sd: u8,
    pub id: u16,
    pub prefix: Ipv4,
    pub ranges: RangeList,
}

impl MadeWith<Global> for ViewSub {
    fn made_with(alloc: Global) -> ViewSub {
        ViewSub {
            sd: 0,
            id: 0,
            prefix: Ipv4::default(),
            ranges: Few::new(alloc),
        }
    }
}

/// The sub-domains of a router; most domains have one sub-domain.
pub type SubList = Few<ViewSub, 1>;

/// A router of a topology.
#[derive(Drop)]
pub struct ViewNode {
    pub system: SystemId,
    pub overload: bool,
    pub edges: EdgeList,
    pub subs: SubList,
}

/// The topology that a router knows: its nodes in ascending order of their system IDs. The type guarantees that
/// no system ID occurs twice; that the edges of a node are in ascending order of the nodes that they lead to, at most one for
/// each; that each edge leads to a node and has a metric above 0; that the sub-domains of a node differ, and so do the BSLs of
/// the label ranges of one sub-domain; that no two nodes share a BFR-prefix; and that there are at most 65,536 nodes.
#[derive(Drop)]
pub struct View {
    pub nodes: Rows<ViewNode>,
}

impl Model for View {
    ghost use Rattle.wire_base.specs.model.Graph.{Graph, IsGraph};

    ghost Value = { Graph };

    ghost view = { λ v. record { nodes = v.nodes } };

    ghost invariant = { λ v. IsGraph v.nodes };
}

impl View {
    /// Returns the nodes in ascending order of their system IDs.
    pub fn as_slice(&self) -> &[ViewNode]
        ensures nodes { result.now ≡ self.now.nodes }
        ensures graph { IsGraph result.now }
    {
        self.nodes.as_slice()
    }
}

/// A BFR-NBR: a router to which a bit may be sent. It has its system ID, and the index of the interface to it,
/// or None if it is reached by a tunnel.
#[derive(Clone, Copy, Debug, Default, PartialEq, Eq)]
pub struct First {
    pub system: SystemId,
    pub direct: Option<u16>,
}

/// The BFR-NBRs of each bit position: the list at index i of `bits` belongs to position i + 1.
#[derive(Drop)]
pub struct RowSet {
    pub bits: PositionRows,
}

impl ViewNode {
    /// Returns whether the node supports a triple. In an MPLS sub-domain it needs a label range of that BSL that includes the
    /// set identifier. In a non-MPLS sub-domain it must be in the sub-domain, and the configured table must have an entry for
    /// the triple (RFC 8279, 6.9; RFC 8401, 6.2).
    #[tactic(auto, unfolding(crate::specs::model::Graph::covers))]
    pub fn covers(&self, kinds: &Rows<SubKind>, table: &Rows<TableRow>, t: Triple) -> bool
        ensures { result ≡ covers kinds.now table.now t self.now }
    {
        let kind = kind_of(kinds.as_slice(), t.sd);
        match self.place_in(t.sd) {
            Some(sub) => has_bift(kind, table.as_slice(), sub, t),
            None => false,
        }
    }

    /// Returns the node's membership of a sub-domain: its BFR-id, its BFR-prefix and its label ranges there. None if it is
    /// not a member.
    pub fn place_in(&self, sd: u8) -> Option<&ViewSub>
        ensures { option_map (λ s. s.now) result ≡ place_in self.now.subs sd }
    {
        place_in(self.subs.as_slice(), sd)
    }
}

fn place_in(subs: &[ViewSub], sd: u8) -> Option<&ViewSub>
    ensures { option_map (λ s. s.now) result ≡ place_in subs.now sd }
{
    for sub in subs {
        if sub.sd == sd {
            return Some(sub);
        }
    }
    None
}

fn has_bift(kind: Option<Kind>, table: &[TableRow], sub: &ViewSub, t: Triple) -> bool
    ensures { result ≡ is_some (bift_by kind table.now sub.now.ranges t) }
{
    match kind {
        None => false,
        Some(Kind::Mpls) => has_label(sub.ranges.as_slice(), t),
        Some(Kind::Configured) => has_row(table, t),
    }
}

fn has_label(ranges: &[LabelRange], t: Triple) -> bool
    ensures { result ≡ is_some (label_in ranges.now t) }
{
    for range in ranges {
        if range.bsl.code() == t.bsl.code() {
            return t.si <= range.max_si;
        }
    }
    false
}

fn has_row(table: &[TableRow], t: Triple) -> bool
    ensures { result ≡ is_some (row_in table.now t) }
{
    for row in table {
        if is_row_for(row.triple, t) {
            return true;
        }
    }
    false
}

fn is_row_for(triple: Triple, t: Triple) -> bool
    ensures { result ≡ same_triple triple t }
{
    triple.sd == t.sd && triple.bsl.code() == t.bsl.code() && triple.si == t.si
}
