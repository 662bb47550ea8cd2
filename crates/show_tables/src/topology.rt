//! The topology of a router, and its shortest paths: `show isis topology`.
ghost use Rattle.std.specs.Prelude.{◌<◌, length};

use crate::cells::{Cell, Column, Row, Table};
use crate::systems::Names;
use bier_forward::own_place;
use path_tree::{distances_from, distances_to, tight_steps};
use router_core::Router;
use std::alloc::Global;
use std::fmt::Write;
use wire_base::{M, Rows, View, ViewNode};

static COLUMNS: [Column; 6] = [
    Column("Vertex", "vertex"),
    Column("System", "system"),
    Column("Overload", "overload"),
    Column("Links", "links"),
    Column("Metric", "cost"),
    Column("Next-Hop", "next_hops"),
];

/// Returns a row for each node of a router's topology, in the order of the system IDs: those of `Router::current_view`, with their
/// links and the metrics of these; the cost of the shortest path from the router, by `distances_from`; and the neighbors at which
/// such paths begin, by `tight_steps`.
pub fn topology_table(alloc: Global, router: &Router, names: Names<'_>) -> M<Table> {
    let conf = router.conf();
    let mut table = Table::new(alloc, "IS-IS paths from", conf.system, names, &COLUMNS)?;
    let view = router.current_view()?;
    if let Some(own) = own_place(view.as_slice(), conf.system) {
        push_nodes(alloc, &mut table, &view, names, own)?;
    }
    Ok(table)
}

fn push_nodes(alloc: Global, table: &mut Table, view: &View, names: Names<'_>, own: u16) -> M<()>
    requires { own < length view.now.nodes }
{
    let nodes = view.as_slice();
    let costs = distances_from(alloc, view, own)?;
    for place in 0..nodes.len() {
        let cost = cost_at(&costs, place);
        let steps = next_steps(alloc, view, own, place)?;
        table.push(node_row(alloc, nodes, names, &nodes[place], cost, &steps)?)?;
    }
    Ok(())
}

/// Returns the cost of the path to a node; None where there is no path.
pub(crate) fn cost_at(costs: &Rows<Option<u64>>, place: usize) -> Option<u64> {
    match costs.as_slice().get(place) {
        Some(cost) => *cost,
        None => None,
    }
}

/// Returns the neighbors at which the shortest paths to a node begin.
fn next_steps(alloc: Global, view: &View, own: u16, place: usize) -> M<Rows<u16>>
    requires { place < length view.now.nodes }
{
    let _graph = view.as_slice();
    let costs = distances_to(alloc, view, place as u16)?;
    tight_steps(alloc, view, &costs, own, place as u16)
}

fn node_row(
    alloc: Global,
    nodes: &[ViewNode],
    names: Names<'_>,
    node: &ViewNode,
    cost: Option<u64>,
    steps: &Rows<u16>,
) -> M<Row> {
    let system = node.system;
    let mut row = Row::new(alloc);
    row.text(names.of(alloc, system)?)?;
    row.text(format!(in alloc; "{system}")?)?;
    row.put(Cell::Answer(node.overload))?;
    row.put(Cell::Texts(link_texts(alloc, nodes, names, node)?))?;
    row.put(cost_cell(cost))?;
    row.put(Cell::Texts(step_texts(alloc, nodes, names, steps.as_slice())?))?;
    Ok(row)
}

fn cost_cell(cost: Option<u64>) -> Cell {
    match cost {
        Some(cost) => Cell::Number(cost),
        None => Cell::Nothing,
    }
}

/// Returns the links of a node, each with its metric away from the node, as in `B:10`.
fn link_texts(
    alloc: Global,
    nodes: &[ViewNode],
    names: Names<'_>,
    node: &ViewNode,
) -> M<Vec<String>> {
    let mut texts = Vec::new(alloc);
    for edge in node.edges.as_slice() {
        let mut text = name_at(alloc, nodes, names, edge.to)?;
        let metric = edge.metric;
        write!(text, ":{metric}")?;
        texts.push(text)?;
    }
    Ok(texts)
}

fn step_texts(
    alloc: Global,
    nodes: &[ViewNode],
    names: Names<'_>,
    steps: &[u16],
) -> M<Vec<String>> {
    let mut texts = Vec::new(alloc);
    for step in steps {
        texts.push(name_at(alloc, nodes, names, *step)?)?;
    }
    Ok(texts)
}

/// Returns the name of the node at an index.
fn name_at(alloc: Global, nodes: &[ViewNode], names: Names<'_>, place: u16) -> M<String> {
    match nodes.get(usize::from(place)) {
        Some(node) => names.of(alloc, node.system),
        None => Ok(String::new(alloc)),
    }
}
