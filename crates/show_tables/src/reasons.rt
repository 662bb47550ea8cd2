//! Why a packet does not reach a BFR-id.
ghost use Rattle.std.specs.Prelude.{◌≤◌, length};
ghost use Rattle.wire_base.specs.declared.limits.TheConstants.{MOST_NODES};

use crate::planes::Ground;
use view_graph::supports;
use wire_base::{Triple, ViewNode};

/// Why a router does not forward a packet to a BFR-id.
#[derive(Clone, Copy, PartialEq)]
pub(crate) enum Reason {
    /// No router of the topology has the BFR-id.
    Nobody,
    /// Several routers have it (RFC 8401, 4).
    Several,
    /// Its router supports no BIER packets of that length and set.
    Unsupported,
    /// No path leads to its router.
    NoPath,
    /// The packet's TTL is 1, so that it has no copies.
    Expired,
    /// The router itself has no BIFT-id for that length and set, so that no such packet can be addressed to it.
    Unknown,
}

impl Reason {
    /// Returns the reason in words.
    pub fn words(self) -> &'static str {
        match self {
            Reason::Nobody => "no router has this BFR-id",
            Reason::Several => "several routers have this BFR-id",
            Reason::Unsupported => "its router supports no such length or set",
            Reason::NoPath => "no path",
            Reason::Expired => "TTL expired",
            Reason::Unknown => "no BIFT-id here for this length and set",
        }
    }
}

/// The routers of a topology that have a BFR-id.
#[derive(Clone, Copy)]
pub(crate) enum Owner {
    Nobody,
    One(u16),
    Several,
}

/// Returns which node of a topology has a BFR-id in a sub-domain: the memberships are those of `Router::current_view`.
pub(crate) fn owner_of(nodes: &[ViewNode], sd: u8, id: u16) -> Owner
    requires { length nodes.now ≤ MOST_NODES }
{
    let mut owner = Owner::Nobody;
    for place in 0..nodes.len() {
        if has_id(&nodes[place], sd, id) {
            if let Owner::One(_) = owner {
                return Owner::Several;
            }
            owner = Owner::One(place as u16);
        }
    }
    owner
}

fn has_id(node: &ViewNode, sd: u8, id: u16) -> bool {
    matches!(node.place_in(sd), Some(sub) if sub.id == id)
}

/// Returns why the router has no BFR-NBR for a BFR-id of another router: nobody has the id, or several have it, by the memberships
/// of the topology; or its router does not support the triple, by `supports`. Otherwise no path leads there.
pub(crate) fn reason_for(ground: Ground<'_>, triple: Triple, id: u16) -> Reason {
    let nodes = ground.view.as_slice();
    let place = match owner_of(nodes, triple.sd, id) {
        Owner::Nobody => return Reason::Nobody,
        Owner::Several => return Reason::Several,
        Owner::One(place) => usize::from(place),
    };
    match nodes.get(place) {
        Some(node) if !supports(ground.conf, node, triple) => Reason::Unsupported,
        _ => Reason::NoPath,
    }
}
