//! The route from a router to each node of its topology.
ghost use Rattle.std.specs.Prelude.{◌≡◌, ◌≤◌, ◌==◌, ℕ, Option, None, IfOk, length, map, option_and_then, slice_get, slice_index_or};
ghost use Rattle.std.specs.Str.{bytes_eq};
ghost use Rattle.bier_tunnel.specs.Ways.{end_of, has_prefix, own_prefix, prefix_in, ways_from};

use std::alloc::Global;
use wire_base::{End, Ipv4, M, Rows, SystemId, ViewNode, ViewSub, end_toward};

/// A BFR-prefix, and the sub-domain in which a router advertises it.
#[derive(Clone, Copy, Debug, PartialEq, Eq)]
pub struct SubPrefix {
    pub sd: u8,
    pub prefix: Ipv4,
}

/// A router of the topology, the interface of the route to it, and its BFR-prefixes.
#[derive(Drop)]
pub struct Way {
    pub system: SystemId,
    pub link: Option<u16>,
    pub prefixes: Rows<SubPrefix>,
}

/// Returns the route to each node, given its first step at the same index.
pub(crate) fn ways_from(
    alloc: Global,
    ends: &[End],
    nodes: &[ViewNode],
    steps: &[Option<u16>],
) -> M<Rows<Way>>
    requires ends { length ends.now ≤ 65536 }
    requires rows { length steps.now ≡ length nodes.now }
    ensures { IfOk result (λ ways. ways ≡ ways_from ends.now nodes.now (λ x. slice_index_or steps.now x None) 0 nodes.now) }
{
    let mut ways = Rows::new(alloc);
    for place in 0..nodes.len() {
        ways.push(Way {
            system: nodes[place].system,
            link: end_of(ends, nodes, steps[place]),
            prefixes: prefixes_of(alloc, nodes[place].subs.as_slice())?,
        })?;
    }
    Ok(ways)
}

/// Returns the interface toward a node.
fn end_of(ends: &[End], nodes: &[ViewNode], step: Option<u16>) -> Option<u16>
    requires ends { length ends.now ≤ 65536 }
    ensures { result ≡ option_and_then (end_of ends.now nodes.now) step }
{
    let node = nodes.get(usize::from(step?))?;
    end_toward(ends, node.system)
}

fn prefixes_of(alloc: Global, subs: &[ViewSub]) -> M<Rows<SubPrefix>>
    ensures { IfOk result (λ prefixes. prefixes ≡ map own_prefix subs.now) }
{
    let mut prefixes = Rows::new(alloc);
    for sub in subs {
        prefixes.push(SubPrefix {
            sd: sub.sd,
            prefix: sub.prefix,
        })?;
    }
    Ok(prefixes)
}

/// Returns the prefix in a sub-domain.
pub(crate) fn prefix_in(prefixes: &[SubPrefix], sd: u8) -> Option<Ipv4>
    ensures { result ≡ prefix_in prefixes.now sd }
{
    for own in prefixes {
        if own.sd == sd {
            return Some(own.prefix);
        }
    }
    None
}

/// Returns whether that prefix is one of these.
pub(crate) fn has_prefix(prefixes: &[SubPrefix], prefix: Ipv4) -> bool
    ensures { result ≡ has_prefix prefixes.now prefix }
{
    prefixes.iter().any(|own| is_prefix(own.prefix, prefix))
}

fn is_prefix(a: Ipv4, b: Ipv4) -> bool
    ensures { result ≡ bytes_eq a.0 b.0 }
{
    a == b
}
