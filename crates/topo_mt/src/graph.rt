//! One topology of an LSDB.
ghost use Rattle.std.specs.Prelude.{◌≡◌, [], IfOk};
ghost use Rattle.wire_base.specs.model.Graph.{IsGraph};
ghost use Rattle.wire_base.specs.model.View.{view_of};
ghost use Rattle.topo_mt.specs.MultiTopology.{projected};
ghost use Rattle.topo_mt.specs.Observer.{observer};
ghost use Rattle.topo_mt.specs.Topology.{topology_of, without_system};

use crate::observer::{OBSERVER, observer};
use crate::projected::projected;
use crate::without::{nodes_without, place_of};
use lsp_store::Store;
use std::alloc::Global;
use view_graph::view;
use wire_base::{M, Rows, SystemId, View};

/// Returns an LSDB as the observer sees it.
fn observed(alloc: Global, store: &Store) -> M<View>
    ensures { IfOk result (λ v. v.nodes ≡ view_of observer [] store.now.entries) }
{
    let conf = observer(alloc)?;
    view(alloc, &conf, &[], store)
}

/// Returns a view without the node of a system.
#[tactic(auto, unfolding(crate::specs::Topology::without_system))]
fn without_system(alloc: Global, view: View, system: SystemId) -> M<View>
    ensures { IfOk result (λ v. v.nodes ≡ without_system system view.nodes) }
{
    let Some(place) = place_of(view.as_slice(), system) else {
        return Ok(view);
    };
    let nodes = nodes_without(alloc, place, view.nodes.into_vec())?;
    Ok(View {
        nodes: Rows::from_vec(nodes),
    })
}

/// Returns the view of the observer in a topology.
#[tactic(auto, unfolding(crate::specs::MultiTopology::projected))]
fn seen(alloc: Global, store: &Store, mt: u16) -> M<View>
    ensures { IfOk result (λ v. v.nodes ≡ view_of observer [] (projected mt store.now.entries)) }
{
    if mt == 0 {
        return observed(alloc, store);
    }
    observed(alloc, &projected(alloc, store, mt)?)
}

/// Returns one topology of an LSDB: topology 0 is the standard one, of the TLVs 22 and 135; the others have the routers that list
/// them in a TLV 229, with the links and prefixes of the TLVs 222 and 235 of the topology (RFC 5120, 3 and 7).
///
/// A node stands for each router that has a live fragment 0, in ascending order of the system IDs. As in `view_graph::view`, a
/// link counts if both routers list each other, and of the memberships of BIER sub-domains count those that are valid and whose
/// prefix no other router has. In a topology other than 0, the overload bit is the O bit of the first listing in fragment 0.
#[tactic(auto, unfolding(crate::specs::Topology::topology_of))]
pub fn topology(alloc: Global, store: &Store, mt: u16) -> M<View>
    ensures exact { IfOk result (λ v. v.nodes ≡ topology_of mt store.now.entries) }
    ensures graph { IfOk result (λ v. IsGraph v.nodes) }
{
    let view = seen(alloc, store, mt)?;
    without_system(alloc, view, OBSERVER)
}
