ghost use Rattle.std.specs.Prelude.{◌≡◌, ◌≤◌, length, IfOk};
ghost use Rattle.wire_base.specs.model.Configuration.{IsSound};
ghost use Rattle.wire_base.specs.model.OwnLsp.{own_flags, own_head, own_lsp};
ghost use Rattle.wire_base.specs.model.Pdu.{lsp_covered, lsp_sum};

use crate::content::own_content;
use isis_pdu::checksum_at;
use std::alloc::Global;
use wire_base::limits::FULL_LIFE;
use wire_base::{Content, Entry, Level, LspId, M, Octets, RouterConf};

/// The index of the checksum in the octets that it covers.
const SUM_AT: usize = 12;

/// Returns the flags octet: the IS type, and the overload bit if it is set (ISO/IEC 10589, 9.8).
fn own_flags(conf: &RouterConf) -> u8
    ensures { result ≡ own_flags conf.now }
{
    let level = match conf.level {
        Level::One => 1,
        Level::Two => 3,
    };
    if conf.overload { level + 4 } else { level }
}

/// Returns the octets that the checksum covers, from the LSP ID on, with 0 as the checksum (ISO/IEC 10589, 7.3.11).
fn covered(alloc: Global, conf: &RouterConf, seq: u32, content: &[u8]) -> M<Octets>
    ensures { IfOk result (λ o. o ≡ lsp_covered (own_head conf.now seq) content.now) }
{
    let mut octets = Octets::new(alloc);
    octets.append_two(&conf.system.0, &[0, 0])?;
    octets.append(&seq.to_be_bytes())?;
    octets.append_two(&[0, 0, own_flags(conf)], content)?;
    Ok(octets)
}

/// Returns the checksum of the router's own LSP.
fn own_sum(alloc: Global, conf: &RouterConf, seq: u32, content: &[u8]) -> M<u16>
    requires sound { IsSound conf.now }
    requires short { length content.now ≤ 1200 }
    ensures { IfOk result (λ sum. sum ≡ lsp_sum (own_head conf.now seq) content.now) }
{
    let octets = covered(alloc, conf, seq, content)?;
    Ok(checksum_at(octets.as_slice(), SUM_AT))
}

/// Returns the router's own LSP with a sequence number, for those interfaces that are up: fragment 0, with a Remaining Lifetime
/// of 1,200 seconds. It has one TLV 1 with the area, one TLV 129 for IPv4, one TLV 137 with the name, TLVs 22 with the links
/// that are up, and one TLV 135 with the router's prefix and a BIER Info for each of its sub-domains
/// (ISO/IEC 10589, 7.3.7 and 9.8; RFC 5301, 3; RFC 5305, 3 and 4; RFC 8401, 6.1).
#[tactic(auto, unfolding(wire_base::specs::model::OwnLsp::own_lsp))]
pub fn originate(alloc: Global, conf: &RouterConf, up: &[bool], seq: u32) -> M<Entry>
    requires sound { IsSound conf.now }
    requires up { length up.now ≡ length conf.now.ends }
    ensures { IfOk result (λ e. e ≡ own_lsp conf.now up.now seq) }
{
    let content = own_content(alloc, conf, up)?;
    let sum = own_sum(alloc, conf, seq, content.as_slice())?;
    let id = LspId {
        system: conf.system,
        pseudonode: 0,
        fragment: 0,
    };
    Ok(Entry {
        id,
        seq,
        life: FULL_LIFE,
        hold: 0,
        sum,
        flags: own_flags(conf),
        content: Content::from_octets(alloc, content)?,
    })
}
