//! The rows of a packet's table: the routers to which each of its bits may be sent.
ghost use Rattle.std.specs.Prelude.{◌≡◌, ◌<◌, ◌≤◌, [], IfOk, MatchOption, length, replicate};
ghost use Rattle.wire_base.specs.model.OnFrame.{node_place};
ghost use Rattle.wire_base.specs.model.Place.{bits_of};
ghost use Rattle.bier_forward.specs.Hops.{AreRows};

use birt_rows::rows;
use std::alloc::Global;
use wire_base::{
    FirstLists, M, PositionRows, RouterConf, RowSet, SystemId, Triple, View, ViewNode,
};

/// Returns for each bit position of the triple the routers to which its bit may be sent. If the topology has no node for the
/// router, there are none.
pub(crate) fn table_rows(alloc: Global, conf: &RouterConf, view: &View, triple: Triple) -> M<RowSet>
    requires ends { length conf.now.ends ≤ 65536 }
    ensures bits { IfOk result (λ set. length set.bits ≡ bits_of triple.bsl) }
    ensures rows { IfOk result (λ set. AreRows conf.now view.now.nodes triple set.bits) }
{
    match own_place(view.as_slice(), conf.system) {
        Some(u) => rows(alloc, view, conf, u, triple),
        None => Ok(no_rows(alloc, triple.bsl.bits())),
    }
}

/// Returns the index of a system's node, if it has one.
pub fn own_place(nodes: &[ViewNode], system: SystemId) -> Option<u16>
    requires { length nodes.now ≤ 65536 }
    ensures { MatchOption result (node_place nodes.now system ≡ length nodes.now) (λ u. (node_place nodes.now system ≡ u) × (u < length nodes.now)) }
{
    for place in 0..nodes.len() {
        if nodes[place].system == system {
            return Some(place as u16);
        }
    }
    None
}

fn no_rows(alloc: Global, count: u16) -> RowSet
    ensures { result.bits ≡ replicate count [] }
{
    RowSet {
        bits: PositionRows::new(FirstLists::new(alloc), count),
    }
}
