//! The TLVs of a fragment that belong to a topology, as TLVs 22 and 135.
ghost use Rattle.std.specs.Prelude.{◌≡◌, ◌≤◌, ◌++◌, IfOk, OnOk, length};
ghost use Rattle.std.specs.List.{flat_map};
ghost use Rattle.wire_base.specs.model.Tlv.{tlv};
ghost use Rattle.isis_tlv.specs.Views.{item};
ghost use Rattle.topo_mt.specs.MultiTopology.{part_of, mt_part_at, projected_content, projected_tlv};

use crate::parts::{TLV_MT_IP_REACH, TLV_MT_IS_REACH, mt_part};
use isis_tlv::{Tlv, TlvWalk, push_tlv};
use std::alloc::Global;
use wire_base::codepoints::{TLV_EXTENDED_IP_REACH, TLV_EXTENDED_IS_REACH};
use wire_base::{M, Octets};

/// Appends the entries of a TLV 222 or 235 of the topology as a TLV with that code. Others, and ones that are too short, are
/// skipped.
fn push_part(out: &mut Octets, code: u8, value: &[u8], mt: u16) -> M<()>
    requires { length value.now ≤ 255 }
    ensures { OnOk result (out.new ≡ out.old ++ flat_map tlv (part_of mt code (mt_part_at value.now))) }
{
    let Ok((topology, entries)) = mt_part(value) else {
        return Ok(());
    };
    if topology == mt {
        push_tlv(out, code, entries)
    } else {
        Ok(())
    }
}

/// Appends what a TLV says of the topology.
fn push_projected(out: &mut Octets, given: Tlv<'_>, mt: u16) -> M<()>
    requires { length given.value.now ≤ 255 }
    ensures { OnOk result (out.new ≡ out.old ++ flat_map tlv (projected_tlv mt (item given.entry))) }
{
    match given.code {
        TLV_MT_IS_REACH => push_part(out, TLV_EXTENDED_IS_REACH, given.value, mt),
        TLV_MT_IP_REACH => push_part(out, TLV_EXTENDED_IP_REACH, given.value, mt),
        _ => Ok(()),
    }
}

/// Returns what the TLVs of a fragment say of the topology, to their end or to an overrun.
pub(crate) fn projected_content(alloc: Global, content: &[u8], mt: u16) -> M<Octets>
    ensures { IfOk result (λ octets. octets ≡ projected_content mt content.now) }
{
    let mut out = Octets::new(alloc);
    let mut walk = TlvWalk::new(content);
    'tlvs: loop {
        match walk.next() {
            Err(_) => return Ok(out),
            Ok(None) => return Ok(out),
            Ok(Some(tlv)) => push_projected(&mut out, tlv, mt)?,
        }
    }
}
