//! Rebuilt nodes that replace the present ones.
ghost use Rattle.std.specs.Prelude.{◌≡◌, ◌<◌, Decides, length};
ghost use Rattle.std.specs.List.{AllByRecursion};
ghost use Rattle.view_graph.specs.Renewal.{IsAt, put_all};

use crate::same::is_same_node;
use wire_base::{Rows, ViewNode};

/// A rebuilt node, and its index.
#[derive(Drop)]
pub(crate) struct NewNode {
    pub(crate) place: usize,
    pub(crate) node: ViewNode,
}

fn is_present(nodes: &[ViewNode], new: &NewNode) -> bool
    ensures { Decides result (IsAt nodes.now new.now) }
{
    match nodes.get(new.place) {
        Some(node) => is_same_node(node, &new.node),
        None => false,
    }
}

/// Returns whether all are equal to the present ones.
pub(crate) fn are_present(nodes: &[ViewNode], anew: &[NewNode]) -> bool
    ensures { Decides result (AllByRecursion (IsAt nodes.now) anew.now) }
{
    'anew: for at in 0..anew.len() {
        if !is_present(nodes, &anew[at]) {
            return false;
        }
    }
    true
}

/// Replaces the nodes at their indices. Does not allocate.
pub(crate) fn put_all(nodes: &mut Rows<ViewNode>, anew: Vec<NewNode>)
    requires { AllByRecursion (λ n. n.place < length nodes.old) anew.items }
    ensures { nodes.new ≡ put_all anew.items nodes.old }
{
    'anew: for new in anew {
        nodes.put(new.place, new.node);
    }
}
