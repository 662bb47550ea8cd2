//! What follows from a topology: distances, and the entries of a BIFT.
ghost use Rattle.std.specs.Prelude.{◌≤◌, length};

use birt_rows::rows;
use path_tree::distances_to;
use std::alloc::Global;
use std::fmt::Write;
use wire_base::{Bsl, First, M, RouterConf, Triple, View};

/// Returns a line for each router, with the distance of each router from it, `-` if it is unreachable.
pub fn show_distances(alloc: Global, text: &mut String, seen: &View) -> M<()> {
    let nodes = seen.as_slice();
    for d in 0..nodes.len() {
        let found = distances_to(alloc, seen, d as u16)?;
        write!(text, "to {}:", nodes[d].system)?;
        for distance in found.as_slice() {
            match distance {
                Some(sum) => write!(text, " {sum}")?,
                None => text.push_str(" -")?,
            }
        }
        text.push('\n')?;
    }
    Ok(())
}

/// Returns a line for each bit position of SI 0 with a BSL of 64 bits in sub-domain 0 that has a BIFT entry at the first
/// router of the topology: its possible BFR-NBRs, and the link to each that is directly connected.
pub fn show_rows(alloc: Global, text: &mut String, seen: &View, conf: &RouterConf) -> M<()>
    requires { length conf.now.ends ≤ 65536 }
{
    let triple = Triple {
        sd: 0,
        bsl: Bsl::B64,
        si: 0,
    };
    if seen.as_slice().is_empty() {
        return Ok(());
    }
    let set = rows(alloc, seen, conf, 0, triple)?;
    let lists = set.bits.stored();
    for place in 0..lists.len() {
        let row = lists.at(place);
        if !row.is_empty() {
            show_row(text, place, row)?;
        }
    }
    Ok(())
}

/// The bit position in the set, from 1.
fn show_row(text: &mut String, place: usize, row: &[First]) -> M<()> {
    let position = place.saturating_add(1);
    write!(text, "bit {position}:")?;
    for first in row {
        match first.direct {
            Some(end) => write!(text, " {} over end {end}", first.system)?,
            None => write!(text, " {} by a tunnel", first.system)?,
        }
    }
    text.push('\n')?;
    Ok(())
}
