ghost use Rattle.std.specs.Prelude.{◌≡◌, ◌≤◌, ◌++◌, length, IfOk, OnOk};
ghost use Rattle.wire_base.specs.model.Configuration.{IsSound};
ghost use Rattle.wire_base.specs.model.OwnLsp.{area_tlv, protocols_tlv, name_tlv, own_content};
ghost use Rattle.wire_base.specs.model.Tlv.{tlv};

use crate::links::append_links;
use crate::subdomains::append_prefix;
use isis_tlv::push_tlv;
use std::alloc::Global;
use wire_base::codepoints::{
    NLPID_IPV4, TLV_AREA_ADDRESSES, TLV_DYNAMIC_HOSTNAME, TLV_PROTOCOLS_SUPPORTED,
};
use wire_base::{M, Octets, RouterConf};

/// Appends a TLV 1 with one area address (ISO/IEC 10589, 9.8).
fn append_area(out: &mut Octets, area: &[u8]) -> M<()>
    requires { length area.now ≤ 13 }
    ensures { OnOk result (out.new ≡ out.old ++ tlv (area_tlv area.now)) }
{
    let size = area.len() as u8;
    out.append_two(&[TLV_AREA_ADDRESSES, size + 1, size], area)
}

/// Appends the router's area, protocols and name (RFC 1195, 5.3; RFC 5301, 3).
fn append_identity(out: &mut Octets, conf: &RouterConf) -> M<()>
    requires { IsSound conf.now }
    ensures { OnOk result (out.new ≡ out.old ++ (tlv (area_tlv conf.now.area) ++ (tlv protocols_tlv ++ tlv (name_tlv conf.now.name)))) }
{
    append_area(out, conf.area.as_slice())?;
    push_tlv(out, TLV_PROTOCOLS_SUPPORTED, &[NLPID_IPV4])?;
    push_tlv(out, TLV_DYNAMIC_HOSTNAME, conf.name.as_slice())
}

/// Returns the TLVs of the router's own LSP, for those interfaces that are up.
pub(crate) fn own_content(alloc: Global, conf: &RouterConf, up: &[bool]) -> M<Octets>
    requires sound { IsSound conf.now }
    requires up { length up.now ≡ length conf.now.ends }
    ensures content { IfOk result (λ o. o ≡ own_content conf.now up.now) }
    ensures short { IfOk result (λ o. length o ≤ 1200) }
{
    let mut out = Octets::new(alloc);
    append_identity(&mut out, conf)?;
    append_links(alloc, &mut out, conf.ends.as_slice(), up)?;
    append_prefix(alloc, &mut out, conf)?;
    Ok(out)
}
