ghost use Rattle.std.specs.Prelude.{◌≡◌, ◌*◌, ◌≤◌, ◌++◌, length, IfOk, OnOk};
ghost use Rattle.std.specs.List.{flat_map, AllByRecursion};
ghost use Rattle.wire_base.specs.model.Configuration.{IsEnd};
ghost use Rattle.wire_base.specs.model.OwnLsp.{picked, reach_of, reach_tlv, reach_tlvs};
ghost use Rattle.wire_base.specs.model.Tlv.{tlv, reach};

use isis_tlv::{Reach, push_reach};
use std::alloc::Global;
use wire_base::codepoints::TLV_EXTENDED_IS_REACH;
use wire_base::{End, M, Octets, Rows};

/// The maximum number of links in a TLV.
const MOST_IN_TLV: usize = 23;

/// Returns the interfaces that are up, in order.
fn up_ends(alloc: Global, ends: &[End], up: &[bool]) -> M<Rows<End>>
    requires { length up.now ≡ length ends.now }
    ensures { IfOk result (λ rows. rows ≡ picked up.now ends.now) }
{
    let mut rows = Rows::new(alloc);
    'ends: for i in 0..ends.len() {
        if up[i] {
            rows.push(ends[i])?;
        }
    }
    Ok(rows)
}

/// Appends an entry for each of those interfaces.
fn append_ends(out: &mut Octets, ends: &[End]) -> M<()>
    requires { AllByRecursion IsEnd ends.now }
    ensures { OnOk result (out.new ≡ out.old ++ flat_map (λ e. reach (reach_of e)) ends.now) }
{
    for end in ends {
        let link = Reach {
            neighbour: end.peer,
            pseudonode: 0,
            metric: end.metric,
            subs: &[],
        };
        push_reach(out, &link)?;
    }
    Ok(())
}

/// Appends a TLV 22 with those interfaces.
fn append_block(out: &mut Octets, ends: &[End]) -> M<()>
    requires few { length ends.now ≤ 23 }
    requires ends { AllByRecursion IsEnd ends.now }
    ensures { OnOk result (out.new ≡ out.old ++ tlv (reach_tlv ends.now)) }
{
    out.append(&[TLV_EXTENDED_IS_REACH, 11 * ends.len() as u8])?;
    append_ends(out, ends)
}

/// Appends those interfaces in TLVs 22, full ones first.
fn append_blocks(out: &mut Octets, ends: &[End]) -> M<()>
    requires { AllByRecursion IsEnd ends.now }
    ensures { OnOk result (out.new ≡ out.old ++ flat_map tlv (reach_tlvs ends.now)) }
{
    let mut rest = ends;
    'cuts: while !rest.is_empty() {
        let (front, after) = rest.split_at(rest.len().min(MOST_IN_TLV));
        append_block(out, front)?;
        rest = after;
    }
    Ok(())
}

/// Appends the links that are up (RFC 5305, 3).
pub(crate) fn append_links(alloc: Global, out: &mut Octets, ends: &[End], up: &[bool]) -> M<()>
    requires up { length up.now ≡ length ends.now }
    requires ends { AllByRecursion IsEnd ends.now }
    ensures { OnOk result (out.new ≡ out.old ++ flat_map tlv (reach_tlvs (picked up.now ends.now))) }
{
    let rows = up_ends(alloc, ends, up)?;
    append_blocks(out, rows.as_slice())
}
