//! The TLVs of a PDU, a line each or a line an entry (ISO/IEC 10589, 9.8 to 9.13; RFC 1195, 5.3; RFC 5301, 3; RFC 5305).
use crate::octets::{show_area, show_hex, show_name, show_refused};
use crate::prefixes::show_prefixes;
use isis_tlv::{Reach, ReachWalk, SummaryWalk, Tlv, TlvFault, TlvWalk};
use std::fmt::Write;
use wire_base::codepoints::{
    TLV_AREA_ADDRESSES, TLV_DYNAMIC_HOSTNAME, TLV_EXTENDED_IP_REACH, TLV_EXTENDED_IS_REACH,
    TLV_LSP_ENTRIES, TLV_PROTOCOLS_SUPPORTED,
};
use wire_base::fields::read_counted;
use wire_base::{M, Summary};

/// Appends the lines of all TLVs.
pub fn show_tlvs(text: &mut String, tlvs: &[u8]) -> M<()> {
    for tlv in TlvWalk::new(tlvs) {
        match tlv {
            Ok(tlv) => show_tlv(text, tlv)?,
            Err(fault) => show_fault(text, "  ", "tlv", fault)?,
        }
    }
    Ok(())
}

/// Appends the line of a rule of TLVs that is violated.
pub fn show_fault(text: &mut String, indent: &str, what: &str, fault: TlvFault) -> M<()> {
    show_refused(text, indent, what, fault.number(), fault.name())
}

fn show_tlv(text: &mut String, tlv: Tlv<'_>) -> M<()> {
    match tlv.code {
        TLV_AREA_ADDRESSES => show_areas(text, tlv.value),
        TLV_LSP_ENTRIES => show_summaries(text, tlv.value),
        TLV_EXTENDED_IS_REACH => show_reaches(text, tlv.value),
        TLV_PROTOCOLS_SUPPORTED => show_protocols(text, tlv.value),
        TLV_EXTENDED_IP_REACH => show_prefixes(text, tlv.value),
        TLV_DYNAMIC_HOSTNAME => show_host_name(text, tlv.value),
        code => show_unknown(text, "  ", "tlv", code, tlv.value),
    }
}

/// Appends the line of a TLV or sub-TLV that is not decoded further.
pub fn show_unknown(text: &mut String, indent: &str, what: &str, code: u8, value: &[u8]) -> M<()> {
    write!(text, "{indent}{what} {code} ")?;
    show_hex(text, value)?;
    text.push('\n')?;
    Ok(())
}

/// Appends the area addresses of TLV 1, up to its end or to one that exceeds it.
fn show_areas(text: &mut String, value: &[u8]) -> M<()> {
    let mut rest = value;
    'areas: while !rest.is_empty() {
        match read_counted(TlvFault::EntryShort, rest) {
            Ok((area, after)) => {
                text.push_str("  area ")?;
                show_area(text, area)?;
                text.push('\n')?;
                rest = after;
            }
            Err(fault) => return show_fault(text, "  ", "area", fault),
        }
    }
    Ok(())
}

/// Appends the network layer protocols of TLV 129, one octet each.
fn show_protocols(text: &mut String, value: &[u8]) -> M<()> {
    text.push_str("  protocols")?;
    for protocol in value {
        write!(text, " {protocol:02x}")?;
    }
    text.push('\n')?;
    Ok(())
}

fn show_host_name(text: &mut String, value: &[u8]) -> M<()> {
    text.push_str("  name ")?;
    show_name(text, value)?;
    text.push('\n')?;
    Ok(())
}

fn show_summaries(text: &mut String, value: &[u8]) -> M<()> {
    for entry in SummaryWalk::new(value) {
        match entry {
            Ok(summary) => show_summary(text, &summary)?,
            Err(fault) => show_fault(text, "  ", "entry", fault)?,
        }
    }
    Ok(())
}

fn show_summary(text: &mut String, summary: &Summary) -> M<()> {
    let Summary { life, id, seq, sum } = *summary;
    writeln!(text, "  entry {id} seq {seq} life {life} sum {sum:04x}")?;
    Ok(())
}

fn show_reaches(text: &mut String, value: &[u8]) -> M<()> {
    for entry in ReachWalk::new(value) {
        match entry {
            Ok(reach) => show_reach(text, &reach)?,
            Err(fault) => show_fault(text, "  ", "reach", fault)?,
        }
    }
    Ok(())
}

fn show_reach(text: &mut String, reach: &Reach<'_>) -> M<()> {
    let (neighbour, pseudonode, metric) = (reach.neighbour, reach.pseudonode, reach.metric);
    writeln!(text, "  reach {neighbour}.{pseudonode:02x} metric {metric}")?;
    for sub in TlvWalk::new(reach.subs) {
        match sub {
            Ok(sub) => show_unknown(text, "    ", "sub", sub.code, sub.value)?,
            Err(fault) => show_fault(text, "    ", "sub", fault)?,
        }
    }
    Ok(())
}
