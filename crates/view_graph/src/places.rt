//! The memberships of sub-domains that a system advertises in its TLVs 135.
ghost use Rattle.std.specs.Prelude.{◌≡◌, ◌++◌, ◌∷◌, [], OnOk, IfOk, option_to_list};
ghost use Rattle.std.specs.List.{filter_map, flat_map};
ghost use Rattle.wire_base.specs.model.Tlv.{entries_of, prefix_at, prefix_bits, tlvs_before};
ghost use Rattle.wire_base.specs.model.View.{sub_of, sub_at, subs_of};
ghost use Rattle.isis_tlv.specs.Views.{item, prefix_of};
ghost use Rattle.bier_subtlv.specs.Views.{info_of};

use bier_subtlv::{Info, read_info};
use isis_tlv::{PrefixEntry, PrefixWalk, Tlv, TlvWalk};
use std::alloc::Global;
use wire_base::codepoints::SUB_TLV_BIER_INFO;
use wire_base::{Ipv4, M, RangeList, SubList, ViewSub};

fn sub_of(alloc: Global, prefix: [u8; 4], info: &Info) -> M<ViewSub>
    ensures { IfOk result (λ s. s ≡ sub_of prefix (info_of info.now)) }
{
    Ok(ViewSub {
        sd: info.sd,
        id: info.id,
        prefix: Ipv4(prefix),
        ranges: RangeList::from_slice(alloc, info.ranges.as_slice())?,
    })
}

/// Appends the membership in a sub-TLV 32, if it is valid.
fn append_sub(subs: &mut SubList, prefix: [u8; 4], tlv: Tlv<'_>) -> M<()>
    ensures { OnOk result (subs.new ≡ subs.old ++ option_to_list (sub_at prefix (item tlv.entry))) }
{
    if tlv.code != SUB_TLV_BIER_INFO {
        return Ok(());
    }
    match read_info(tlv.value) {
        Ok(info) => {
            let sub = sub_of(subs.allocator(), prefix, &info)?;
            subs.push(sub)
        }
        Err(_) => Ok(()),
    }
}

/// Appends the memberships in the sub-TLVs of a prefix, up to an overrun.
fn append_infos(subs: &mut SubList, prefix: [u8; 4], octets: &[u8]) -> M<()>
    ensures { OnOk result (subs.new ≡ subs.old ++ filter_map (sub_at prefix) (tlvs_before octets.now)) }
{
    for part in TlvWalk::new(octets) {
        if let Ok(tlv) = part {
            append_sub(subs, prefix, tlv)?;
        }
    }
    Ok(())
}

/// Appends the memberships in an entry of TLV 135, if its prefix has 32 bits.
fn append_prefix(subs: &mut SubList, entry: &PrefixEntry<'_>) -> M<()>
    requires { entry.now.length ≡ prefix_bits entry.now.control }
    ensures { OnOk result (subs.new ≡ subs.old ++ subs_of (prefix_of entry.now)) }
{
    if entry.length == 32 {
        append_infos(subs, entry.octets, entry.subs)
    } else {
        Ok(())
    }
}

/// Appends the memberships in a TLV 135, up to the first invalid entry.
pub(crate) fn append_places(subs: &mut SubList, value: &[u8]) -> M<()>
    ensures { OnOk result (subs.new ≡ subs.old ++ flat_map subs_of (entries_of prefix_at value.now)) }
{
    for entry in PrefixWalk::new(value) {
        if let Ok(prefix) = entry {
            append_prefix(subs, &prefix)?;
        }
    }
    Ok(())
}
