//! The router to which a router sends the bit of a BFR-id.
ghost use Rattle.std.specs.Prelude.{◌≡◌, ℕ, ◌<◌, ◌≤◌, ◌%◌, true, IfSome, length, is_some, slice_get};
ghost use Rattle.wire_base.specs.model.Choice.{choose};
ghost use Rattle.wire_base.specs.model.Place.{bits_of, id_at, position_in};
ghost use Rattle.wire_base.specs.declared.conf.RouterConf.{RouterConf};
ghost use Rattle.quiet_domain.specs.Paths.{IsBirt};
ghost use Rattle.quiet_domain.specs.Way.{node_of};

use crate::birt::Birt;
use wire_base::{First, SystemId, Triple, View, ViewNode};

/// Returns the node to which the node `u` sends the bit of a BFR-id of the triple's set, given its BIRT: of the BFR-NBRs toward the
/// id's owner the one that the entropy class selects (RFC 8279, 6.7 and 6.9). None exactly where there is no BFR-NBR.
pub(crate) fn choice(v: &View, birt: &Birt, t: Triple, class: u8, k: u16) -> Option<u16>
    requires place { is_some (position_in t k) ≡ true }
    requires bits { length birt.now.set.bits ≡ bits_of t.bsl }
    ensures within { IfSome result (λ x. x < length v.now.nodes) }
    ensures choice { (r : RouterConf) (u : ℕ) → u < length v.now.nodes → IsBirt r v.now.nodes t u birt.now → result ≡ choose v.now.nodes r.kinds r.table t class u k }
{
    let nodes = v.as_slice();
    let Some(position) = position_in(t, k) else {
        return None;
    };
    let row = birt.set.bits.at(usize::from(position - 1));
    match selected(row, class) {
        Some(first) => node_of(nodes, first.system),
        None => None,
    }
}

/// Returns the bit position of a BFR-id.
fn position_in(t: Triple, k: u16) -> Option<u16>
    ensures value { result ≡ position_in t k }
    ensures low { IfSome result (λ p. 1 ≤ p) }
    ensures high { IfSome result (λ p. p ≤ bits_of t.bsl) }
    ensures id { IfSome result (λ p. id_at t p ≡ k) }
{
    t.place(k)
}

/// Returns the router at index `class` modulo the size.
fn selected(row: &[First], class: u8) -> Option<First>
    ensures { result ≡ slice_get row.now (class % length row.now) }
{
    if row.is_empty() {
        return None;
    }
    Some(row[usize::from(class) % row.len()])
}

/// Returns the index of the node of a system.
fn node_of(nodes: &[ViewNode], system: SystemId) -> Option<u16>
    requires { length nodes.now ≤ 65536 }
    ensures node { result ≡ node_of nodes.now system }
    ensures within { IfSome result (λ x. x < length nodes.now) }
{
    for place in 0..nodes.len() {
        if nodes[place].system == system {
            return Some(place as u16);
        }
    }
    None
}
