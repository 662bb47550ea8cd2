//! Where a router's topology is stored.
ghost use Rattle.std.specs.Prelude.{◌≡◌, ◌<◌, true, false, length};
ghost use Rattle.std.specs.List.{AllByRecursion};
ghost use Rattle.wire_base.specs.model.Graph.{IsGraph};
ghost use Rattle.view_graph.specs.Held.{nodes_in};
ghost use Rattle.view_graph.specs.Renewal.{put_all};

use crate::patch::{NewNode, put_all};
use std::marker::Model;
use std::rc::Rc;
use wire_base::{View, ViewNode};

/// Where a topology is stored.
enum Held {
    /// At this router alone.
    Own(View),
    /// Once for several routers.
    Shared(Rc<View>),
}

// Written out, so that a proof about a value that holds a topology doesn't see where it is stored.
impl Drop for Held {
    fn drop(self) {
        match self {
            Held::Own(view) => drop(view),
            Held::Shared(view) => drop(view),
        }
    }
}

/// A topology, which may be stored once for several routers. It is changed in place only where it is not.
#[derive(Drop)]
pub(crate) struct KeptView {
    held: Held,
}

impl Model for KeptView {
    ghost use Rattle.wire_base.specs.model.Graph.{Graph};
    ghost use Rattle.view_graph.specs.Held.{nodes_in};

    ghost Value = { Graph };

    ghost view = { λ k. record { nodes = nodes_in k.held } };
}

/// Replaces nodes by rebuilt ones. Does not allocate.
fn turn(view: &mut View, anew: Vec<NewNode>)
    requires within { AllByRecursion (λ n. n.place < length view.old.nodes) anew.items }
    requires graph { IsGraph (put_all anew.items view.old.nodes) }
    ensures { view.new.nodes ≡ put_all anew.items view.old.nodes }
{
    put_all(&mut view.nodes, anew);
}

impl KeptView {
    /// A topology of the router's own.
    pub(crate) fn own(view: View) -> KeptView
        ensures { result.nodes ≡ view.nodes }
    {
        KeptView {
            held: Held::Own(view),
        }
    }

    /// A topology that other routers may have too.
    pub(crate) fn shared(view: Rc<View>) -> KeptView
        ensures { result.nodes ≡ view.value.nodes }
    {
        KeptView {
            held: Held::Shared(view),
        }
    }

    /// Returns the topology.
    pub(crate) fn view(&self) -> &View
        ensures { result.now.nodes ≡ self.now.nodes }
    {
        match &self.held {
            Held::Own(view) => view,
            Held::Shared(view) => view.as_ref(),
        }
    }

    /// Returns the nodes.
    pub(crate) fn as_slice(&self) -> &[ViewNode]
        ensures nodes { result.now ≡ self.now.nodes }
        ensures graph { IsGraph result.now }
    {
        self.view().as_slice()
    }

    /// Replaces nodes by rebuilt ones. Returns false, and changes nothing, if the topology is shared. Does not allocate.
    pub(crate) fn turn(&mut self, anew: Vec<NewNode>) -> bool
        requires within { AllByRecursion (λ n. n.place < length self.old.nodes) anew.items }
        requires graph { IsGraph (put_all anew.items self.old.nodes) }
        ensures turned { result ≡ true → self.new.nodes ≡ put_all anew.items self.old.nodes }
        ensures shared { result ≡ false → self.new ≡ self.old }
    {
        match &mut self.held {
            Held::Own(view) => {
                turn(view, anew);
                true
            }
            Held::Shared(_) => false,
        }
    }
}
