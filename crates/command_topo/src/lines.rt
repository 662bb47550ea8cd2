//! The lines of a topology.
ghost use Rattle.std.specs.Prelude.{◌≡◌, ◌++◌, OnOk};
ghost use Rattle.std.specs.Fmt.{decimal};
ghost use Rattle.command_topo.specs.Lines as line;

use run_texts::{push_prefix, push_system};
use wire_base::{M, Octets, SystemId, ViewEdge, ViewNode, ViewSub};

/// Appends the line of a node: whether paths may go through it.
pub(crate) fn push_node(out: &mut Octets, node: &ViewNode) -> M<()>
    ensures { OnOk result (out.new ≡ out.old ++ line.node_text node.now) }
{
    out.append(b"node ")?;
    push_system(out, node.system)?;
    if node.overload {
        out.append(b" overload\n")
    } else {
        out.append(b" transit\n")
    }
}

/// Appends the system ID of the node at an index.
fn push_system_at(out: &mut Octets, nodes: &[ViewNode], place: usize) -> M<()>
    ensures { OnOk result (out.new ≡ out.old ++ line.system_at nodes.now place) }
{
    match nodes.get(place) {
        None => Ok(()),
        Some(node) => push_system(out, node.system),
    }
}

/// Appends the line of an edge.
pub(crate) fn push_edge(
    out: &mut Octets,
    nodes: &[ViewNode],
    from: SystemId,
    edge: ViewEdge,
) -> M<()>
    ensures { OnOk result (out.new ≡ out.old ++ line.edge_text nodes.now from edge) }
{
    out.append(b"edge ")?;
    push_system(out, from)?;
    out.push(b' ')?;
    push_system_at(out, nodes, edge.to as usize)?;
    out.push(b' ')?;
    out.append_number(u64::from(edge.metric))?;
    out.push(b'\n')
}

/// Appends the line of a membership of a BIER sub-domain: the sub-domain, the BFR-id and the BFR-prefix.
pub(crate) fn push_sub(out: &mut Octets, system: SystemId, sub: &ViewSub) -> M<()>
    ensures { OnOk result (out.new ≡ out.old ++ line.sub_text system sub.now) }
{
    out.append(b"bier ")?;
    push_system(out, system)?;
    out.push(b' ')?;
    out.append_number(u64::from(sub.sd))?;
    out.push(b' ')?;
    out.append_number(u64::from(sub.id))?;
    out.push(b' ')?;
    push_prefix(out, sub.prefix)?;
    out.push(b'\n')
}

fn push_cost(out: &mut Octets, cost: Option<u64>) -> M<()>
    ensures { OnOk result (out.new ≡ out.old ++ line.cost_text cost) }
{
    match cost {
        None => out.append(b"none"),
        Some(cost) => out.append_number(cost),
    }
}

/// Appends the line of the path to a router.
pub(crate) fn push_path(out: &mut Octets, to: SystemId, cost: Option<u64>) -> M<()>
    ensures { OnOk result (out.new ≡ out.old ++ line.path_text to cost) }
{
    out.append(b"path ")?;
    push_system(out, to)?;
    out.push(b' ')?;
    push_cost(out, cost)?;
    out.push(b'\n')
}

/// Appends a word and a number.
fn push_count(out: &mut Octets, word: &[u8], count: u64) -> M<()>
    ensures { OnOk result (out.new ≡ out.old ++ (word.now ++ decimal count)) }
{
    out.append(word)?;
    out.append_number(count)
}

/// Appends the last line: how many records were read, how many LSPs were kept and how many nodes there are.
pub(crate) fn push_done(out: &mut Octets, records: u64, lsps: usize, nodes: usize) -> M<()>
    ensures { OnOk result (out.new ≡ out.old ++ line.done_text records lsps nodes) }
{
    push_count(out, b"done records ", records)?;
    push_count(out, b" lsps ", lsps as u64)?;
    push_count(out, b" nodes ", nodes as u64)?;
    out.push(b'\n')
}
