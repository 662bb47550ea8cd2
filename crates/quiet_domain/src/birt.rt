//! The BIRT of a node, and the costs of the paths from it.
ghost use Rattle.std.specs.Prelude.{◌≡◌, ◌<◌, ◌≤◌, None, IfOk, length, replicate};
ghost use Rattle.quiet_domain.specs.Paths.{IsBirt};

use birt_rows::rows;
use path_tree::distances_from;
use std::alloc::Global;
use wire_base::{M, RouterConf, RowSet, Rows, Triple, View};

/// The BIRT of a node for a triple, and the costs of the shortest paths from the node.
#[derive(Drop)]
pub(crate) struct Birt {
    pub(crate) set: RowSet,
    pub(crate) costs: Rows<Option<u64>>,
}

/// Computes the BIRT of the node `u`, and the costs of the shortest paths from it.
pub(crate) fn birt_of(alloc: Global, v: &View, conf: &RouterConf, t: Triple, u: u16) -> M<Birt>
    requires ends { length conf.now.ends ≤ 65536 }
    requires node { u < length v.now.nodes }
    ensures { IfOk result (IsBirt conf.now v.now.nodes t u) }
{
    let set = rows(alloc, v, conf, u, t)?;
    let costs = distances_from(alloc, v, u)?;
    Ok(Birt { set, costs })
}

/// Returns nothing for each of so many nodes.
pub(crate) fn no_birts(alloc: Global, count: usize) -> M<Vec<Option<Birt>>>
    ensures { IfOk result (λ birts. birts.items ≡ replicate count None) }
{
    let mut birts: Vec<Option<Birt>> = Vec::with_capacity(alloc, count)?;
    'nodes: for _node in 0..count {
        birts.push(None)?;
    }
    Ok(birts)
}
