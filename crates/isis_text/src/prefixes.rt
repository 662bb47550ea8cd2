//! The prefixes of a TLV 135 with their sub-TLVs (RFC 5305, 4), BIER Info among them (RFC 8401, 6.1 and 6.2).
use crate::octets::show_refused;
use crate::tlvs::{show_fault, show_unknown};
use bier_subtlv::{Info, read_info};
use isis_tlv::{PrefixEntry, PrefixWalk, Tlv, TlvWalk};
use std::fmt::Write;
use wire_base::codepoints::SUB_TLV_BIER_INFO;
use wire_base::{Ipv4, LabelRange, M};

/// Appends the entries of a TLV 135, to its end or to the first invalid one.
pub fn show_prefixes(text: &mut String, value: &[u8]) -> M<()> {
    for entry in PrefixWalk::new(value) {
        match entry {
            Ok(prefix) => show_prefix(text, &prefix)?,
            Err(fault) => show_fault(text, "  ", "prefix", fault)?,
        }
    }
    Ok(())
}

/// Appends the octets as received, including the host bits.
fn show_prefix(text: &mut String, prefix: &PrefixEntry<'_>) -> M<()> {
    let (address, length, metric) = (Ipv4(prefix.octets), prefix.length, prefix.metric);
    let down = if prefix.control >= 0x80 { " down" } else { "" };
    writeln!(text, "  prefix {address}/{length} metric {metric}{down}")?;
    for sub in TlvWalk::new(prefix.subs) {
        match sub {
            Ok(sub) => show_sub(text, sub)?,
            Err(fault) => show_fault(text, "    ", "sub", fault)?,
        }
    }
    Ok(())
}

fn show_sub(text: &mut String, sub: Tlv<'_>) -> M<()> {
    if sub.code != SUB_TLV_BIER_INFO {
        return show_unknown(text, "    ", "sub", sub.code, sub.value);
    }
    match read_info(sub.value) {
        Ok(info) => show_info(text, &info),
        Err(fault) => show_refused(text, "    ", "bier", fault.number(), fault.name()),
    }
}

fn show_info(text: &mut String, info: &Info) -> M<()> {
    let (sd, id) = (info.sd, info.id);
    writeln!(text, "    bier sd {sd} id {id}")?;
    for range in info.ranges.as_slice() {
        show_range(text, range)?;
    }
    Ok(())
}

fn show_range(text: &mut String, range: &LabelRange) -> M<()> {
    let (bits, max_si, label) = (range.bsl.bits(), range.max_si, range.label);
    writeln!(
        text,
        "      labels bsl {bits} max_si {max_si} label {label}"
    )?;
    Ok(())
}
