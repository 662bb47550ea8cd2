//! A PDU: its line, and the lines of its TLVs (ISO/IEC 10589, 9.5 to 9.13).
ghost use Rattle.std.specs.Prelude.{◌≡◌};
ghost use Rattle.isis_text.specs.Levels.{type_in, level_in};

use crate::hellos::show_hello;
use crate::octets::show_refused;
use crate::tlvs::show_tlvs;
use isis_hello::codepoints::HELLO_TYPE;
use isis_pdu::{LspHead, Pdu, read_pdu};
use std::fmt::Write;
use wire_base::{Level, LspId, M, SystemId};

/// The result for a frame.
#[derive(Clone, Copy, Debug, PartialEq, Eq)]
pub enum Shown {
    /// The frame is valid.
    Whole,
    /// The frame breaks a rule.
    Refused,
}

/// Returns the type of a PDU: the low five bits of its fifth octet; 0 if there is none.
fn type_of(pdu: &[u8]) -> u8
    ensures { result ≡ type_in pdu.now }
{
    match pdu {
        [_, _, _, _, number, ..] => *number % 32,
        _ => 0,
    }
}

/// Returns the level of a PDU by its type, or level 2 if the type has none.
fn level_of(pdu: &[u8]) -> Level
    ensures { result ≡ level_in pdu.now }
{
    match type_of(pdu) {
        18 | 24 | 26 => Level::One,
        _ => Level::Two,
    }
}

fn level_number(level: Level) -> u8 {
    match level {
        Level::One => 1,
        Level::Two => 2,
    }
}

/// Appends the text after the record's number and time, and the lines of the TLVs; or the first rule that is broken.
pub fn show_pdu(text: &mut String, pdu: &[u8]) -> M<Shown> {
    let level = level_of(pdu);
    let number = level_number(level);
    match read_pdu(level, pdu) {
        Ok(Pdu::Lsp { head, tlvs }) => {
            show_lsp(text, number, &head)?;
            show_tlvs(text, tlvs)?;
        }
        Ok(
            Pdu::Csnp {
                source,
                start,
                last,
                tlvs,
            },
        ) => {
            show_csnp(text, number, source, start, last)?;
            show_tlvs(text, tlvs)?;
        }
        Ok(Pdu::Psnp { source, tlvs }) => {
            writeln!(text, "psnp {number} source {source}")?;
            show_tlvs(text, tlvs)?;
        }
        Ok(Pdu::Hello) => return show_any_hello(text, pdu),
        Ok(Pdu::Other(kind)) => writeln!(text, "other type {kind}")?,
        Err(fault) => {
            show_refused(text, "", "pdu", fault.number(), fault.name())?;
            return Ok(Shown::Refused);
        }
    }
    Ok(Shown::Whole)
}

/// Appends the lines of a hello. One that is sent on a LAN (type 15 or 16) has its type alone.
fn show_any_hello(text: &mut String, pdu: &[u8]) -> M<Shown> {
    let kind = type_of(pdu);
    if kind != HELLO_TYPE {
        writeln!(text, "hello type {kind}")?;
        return Ok(Shown::Whole);
    }
    if show_hello(text, pdu)? {
        Ok(Shown::Whole)
    } else {
        Ok(Shown::Refused)
    }
}

/// Appends the line of an LSP. A parsed live LSP has a right checksum; that of an expired LSP is not used.
fn show_lsp(text: &mut String, level: u8, head: &LspHead) -> M<()> {
    let LspHead {
        life,
        id,
        seq,
        sum,
        flags,
    } = *head;
    let right = if life > 0 { "right" } else { "unused" };
    writeln!(
        text,
        "lsp {level} {id} seq {seq} life {life} sum {sum:04x} {right} flags {flags:02x}"
    )?;
    Ok(())
}

fn show_csnp(text: &mut String, level: u8, source: SystemId, start: LspId, last: LspId) -> M<()> {
    writeln!(
        text,
        "csnp {level} source {source} first {start} last {last}"
    )?;
    Ok(())
}
