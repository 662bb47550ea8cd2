ghost use Rattle.std.specs.Prelude.{◌≡◌, ◌≤◌, ◌++◌, length, [], IfOk, OnOk};
ghost use Rattle.wire_base.specs.model.BierInfo.{info_tlv};
ghost use Rattle.wire_base.specs.model.Configuration.{IsOwnSub, IsSound, sub_octets};
ghost use Rattle.wire_base.specs.model.OwnLsp.{info_of, infos_of, control_for, prefix_tlv};
ghost use Rattle.wire_base.specs.model.Tlv.{tlv};
ghost use Rattle.std.specs.List.{AllByRecursion};

use bier_subtlv::push_info;
use isis_tlv::{PrefixEntry, push_prefix, push_tlv};
use std::alloc::Global;
use wire_base::codepoints::TLV_EXTENDED_IP_REACH;
use wire_base::{Kind, M, Octets, OwnSub, RouterConf, Rows, SubKind, kind_of};

/// Returns the same sub-domain without label ranges.
fn bare(sub: &OwnSub) -> OwnSub
    ensures { (result.sd ≡ sub.now.sd) × (result.id ≡ sub.now.id) × (result.ranges ≡ []) }
{
    OwnSub {
        sd: sub.sd,
        id: sub.id,
        ranges: Rows::new(sub.ranges.allocator()),
    }
}

/// Appends the BIER Info of a sub-domain, with label ranges in an MPLS sub-domain (RFC 8401, 6.1 and 6.2).
fn append_sub(out: &mut Octets, kinds: &[SubKind], sub: &OwnSub) -> M<()>
    requires { IsOwnSub sub.now }
    ensures { OnOk result (out.new ≡ out.old ++ tlv (info_tlv (info_of kinds.now sub.now))) }
{
    if kind_of(kinds, sub.sd) == Some(Kind::Mpls) {
        push_info(out, sub)
    } else {
        push_info(out, &bare(sub))
    }
}

/// Returns the BIER Infos of the router's sub-domains, in order.
fn sub_infos(alloc: Global, kinds: &[SubKind], subs: &[OwnSub]) -> M<Octets>
    requires { AllByRecursion IsOwnSub subs.now }
    ensures { IfOk result (λ o. o ≡ infos_of kinds.now subs.now) }
{
    let mut infos = Octets::new(alloc);
    for sub in subs {
        append_sub(&mut infos, kinds, sub)?;
    }
    Ok(infos)
}

/// Returns the control octet of the router's prefix: 32 bits, and whether sub-TLVs follow (RFC 5305, 4).
fn control_for(subs: &[OwnSub]) -> u8
    ensures { result ≡ control_for subs.now }
{
    if subs.is_empty() { 32 } else { 96 }
}

/// Appends the router's prefix with its BIER Infos (RFC 5305, 4; RFC 8401, 6.1).
pub(crate) fn append_prefix(alloc: Global, out: &mut Octets, conf: &RouterConf) -> M<()>
    requires { IsSound conf.now }
    ensures ok { OnOk result (out.new ≡ out.old ++ tlv (prefix_tlv conf.now)) }
{
    let subs = conf.subs.as_slice();
    let infos = sub_infos(alloc, conf.kinds.as_slice(), subs)?;
    let entry = PrefixEntry {
        metric: 0,
        control: control_for(subs),
        length: 32,
        octets: conf.prefix.0,
        subs: infos.as_slice(),
    };
    let mut value = Octets::new(alloc);
    push_prefix(&mut value, &entry)?;
    push_tlv(out, TLV_EXTENDED_IP_REACH, value.as_slice())
}
