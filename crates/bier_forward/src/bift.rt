//! The BIFT-id of a triple at a router (RFC 8279, 6.9; RFC 8401, 6.2).
ghost use Rattle.std.specs.Prelude.{◌≡◌, ◌<◌, ◌≤◌, ◌+◌, ◌%◌, ◌^◌, length, nat_le, Some, None, if◌then◌else◌, IfSome, option_map};
ghost use Rattle.wire_base.specs.model.Graph.{node_bift};
ghost use Rattle.wire_base.specs.model.Place.{label_in, row_in, same_triple};
ghost use Rattle.bier_forward.specs.Hops.{AreInOrder, IsFirstFrom, bift_toward, node_in};

use lsp_store::system_key;
use wire_base::{Kind, LabelRange, RouterConf, SystemId, TableRow, Triple, ViewNode, kind_of};

/// Returns the BIFT-id of the triple at a system's node: its lowest 20 bits, which fit a header.
pub(crate) fn bift_at(
    conf: &RouterConf,
    nodes: &[ViewNode],
    triple: Triple,
    system: SystemId,
) -> Option<u32>
    requires { AreInOrder nodes.now }
    ensures value { result ≡ option_map (λ bift. bift % 2 ^ 20) (bift_toward conf.now nodes.now triple system) }
    ensures small { IfSome result (λ bift. bift < 2 ^ 20) }
{
    let node = node_of(nodes, system)?;
    node_bift(conf, triple, node)
}

/// Returns the node of a system. The nodes are in the order of their system IDs, so that each step rules out half of those that are
/// left.
fn node_of(nodes: &[ViewNode], system: SystemId) -> Option<&ViewNode>
    requires { AreInOrder nodes.now }
    ensures { option_map (λ n. n.now) result ≡ node_in nodes.now system }
{
    let node = nodes.get(place_from(nodes, system))?;
    if node.system == system {
        Some(node)
    } else {
        None
    }
}

/// Returns how many nodes are those of lower systems, which come first.
fn place_from(nodes: &[ViewNode], system: SystemId) -> usize
    requires { AreInOrder nodes.now }
    ensures within { result ≤ length nodes.now }
    ensures first { IsFirstFrom nodes.now system result }
{
    let key = system_key(system);
    let mut from = 0;
    let mut to = nodes.len();
    'halves: while from < to {
        let middle = from + (to - from) / 2;
        if system_key(nodes[middle].system) < key {
            from = middle + 1;
        } else {
            to = middle;
        }
    }
    from
}

#[tactic(auto, unfolding(wire_base::specs::model::Graph::node_bift))]
fn node_bift(conf: &RouterConf, triple: Triple, node: &ViewNode) -> Option<u32>
    ensures { result ≡ option_map (λ bift. bift % 2 ^ 20) (node_bift conf.now.kinds conf.now.table triple node.now) }
{
    let sub = node.place_in(triple.sd)?;
    match kind_of(conf.kinds.as_slice(), triple.sd)? {
        Kind::Mpls => label_in(sub.ranges.as_slice(), triple),
        Kind::Configured => row_in(conf.table.as_slice(), triple),
    }
}

/// Returns the label of the triple's set in the range of its BSL.
fn label_in(ranges: &[LabelRange], triple: Triple) -> Option<u32>
    ensures { result ≡ option_map (λ bift. bift % 2 ^ 20) (label_in ranges.now triple) }
{
    for range in ranges {
        if range.bsl.code() == triple.bsl.code() {
            return label_of(*range, triple.si);
        }
    }
    None
}

fn label_of(range: LabelRange, si: u8) -> Option<u32>
    ensures { result ≡ (if nat_le si range.max_si then Some ((range.label + si) % 2 ^ 20) else None) }
{
    if si <= range.max_si {
        Some(((u64::from(range.label) + u64::from(si)) % 0x10_0000) as u32)
    } else {
        None
    }
}

/// Returns the BIFT-id of the triple in the configured table.
fn row_in(table: &[TableRow], triple: Triple) -> Option<u32>
    ensures { result ≡ option_map (λ bift. bift % 2 ^ 20) (row_in table.now triple) }
{
    for row in table {
        if is_row_for(row, triple) {
            return Some(row.bift % 0x10_0000);
        }
    }
    None
}

fn is_row_for(row: &TableRow, triple: Triple) -> bool
    ensures { result ≡ same_triple row.now.triple triple }
{
    row.triple.sd == triple.sd
        && row.triple.bsl.code() == triple.bsl.code()
        && row.triple.si == triple.si
}
