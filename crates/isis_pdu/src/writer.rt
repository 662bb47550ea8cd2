ghost use Rattle.std.specs.Prelude.{◌≡◌, ◌<◌, ◌≤◌, ◌+◌, ◌*◌, ◌/◌, ◌++◌, ◌∷◌, [], ℕ, List, false, length, take, Ok, IfOk, OnOk, OnErr};
ghost use Rattle.std.specs.List.{AllByRecursion};
ghost use Rattle.byteorder.specs.Endian.{big_bytes};
ghost use Rattle.wire_base.specs.model.Tlv.{tlv, lsp_id, LspIdFits, SummaryFits};
ghost use Rattle.wire_base.specs.model.Checksum.{IsRight};
ghost use Rattle.wire_base.specs.model.Pdu.{LspPdu, CsnpPdu, PsnpPdu, HeadFits, AreTlvs, lsp_type, csnp_type, psnp_type, common, lsp_covered, lsp, csnp, psnp, row_tlv, row_tlvs, pdu_at};
ghost use Rattle.isis_pdu.specs.Views.{head_of};

use crate::kinds::LspHead;
use crate::reader::{csnp_number, lsp_number, psnp_number};
use arrayvec::ArrayVec;
use isis_tlv::fixed::put;
use isis_tlv::push_summary;
use std::alloc::Global;
use wire_base::codepoints::TLV_LSP_ENTRIES;
use wire_base::limits::{MOST_CONTENT, MOST_LISTED};
use wire_base::{Level, LspId, M, Octets, Summary, SystemId};

/// The number of octets before the TLVs of an LSP.
pub const LSP_FRONT: usize = 27;

/// The number of octets before the TLVs of a CSNP.
pub const CSNP_FRONT: usize = 33;

/// The number of octets before the TLVs of a PSNP.
pub const PSNP_FRONT: usize = 17;

/// The maximum size in octets of the TLVs that list LSP entries: 90 entries of 16 octets, in six TLVs.
pub const MOST_LISTED_OCTETS: usize = 1_452;

/// Returns the first eight octets of a PDU with that header length and that type.
fn common(size: u8, number: u8) -> [u8; 8]
    ensures { result ≡ common size number }
{
    [0x83, size, 1, 0, number, 1, 0, 0]
}

/// Returns the octets of an LSP ID.
fn id_octets(id: LspId) -> [u8; 8]
    ensures spelled { result ≡ lsp_id id }
    ensures fits { LspIdFits id }
{
    let [a, b, c, d, e, f] = id.system.0;
    [a, b, c, d, e, f, id.pseudonode, id.fragment]
}

/// Proves that the numbers of an LSP fit their fields. This code computes nothing.
fn numbers_fit(head: &LspHead)
    ensures { HeadFits (head_of head.now) }
{
    let LspHead {
        life: _life,
        id,
        seq: _seq,
        sum: _sum,
        flags: _flags,
    } = *head;
    let _id = id_octets(id);
}

/// Returns the octets before the TLVs of an LSP of that length. They are written at once: each LSP that is sent begins with them.
fn front_octets(level: Level, head: &LspHead, size: u16) -> [u8; LSP_FRONT]
    ensures spelled { result ≡ common 27 (lsp_type level) ++ (big_bytes 2 size ++ (big_bytes 2 head.now.life ++ (lsp_id head.now.id ++ (big_bytes 4 head.now.seq ++ (big_bytes 2 head.now.sum ++ (head.now.flags ∷ [])))))) }
    ensures fits { HeadFits (head_of head.now) }
{
    numbers_fit(head);
    let LspHead {
        life,
        id,
        seq,
        sum,
        flags,
    } = *head;
    let [size_high, size_low] = size.to_be_bytes();
    let [life_high, life_low] = life.to_be_bytes();
    let [a, b, c, d, e, f, g, h] = id_octets(id);
    let [seq_1, seq_2, seq_3, seq_4] = seq.to_be_bytes();
    let [sum_high, sum_low] = sum.to_be_bytes();
    [
        0x83,
        27,
        1,
        0,
        lsp_number(level),
        1,
        0,
        0,
        size_high,
        size_low,
        life_high,
        life_low,
        a,
        b,
        c,
        d,
        e,
        f,
        g,
        h,
        seq_1,
        seq_2,
        seq_3,
        seq_4,
        sum_high,
        sum_low,
        flags,
    ]
}

/// Returns the octets before the TLVs of an LSP of that length, with the checksum in `head` (ISO/IEC 10589, 9.8 and 9.9). With
/// TLVs that make it that long, they are the LSP.
pub fn lsp_front(level: Level, head: &LspHead, size: u16) -> [u8; LSP_FRONT]
    ensures spelled { result ≡ common 27 (lsp_type level) ++ (big_bytes 2 size ++ (big_bytes 2 head.now.life ++ (lsp_id head.now.id ++ (big_bytes 4 head.now.seq ++ (big_bytes 2 head.now.sum ++ (head.now.flags ∷ [])))))) }
    ensures whole { (tlvs : List ℕ) → LSP_FRONT + length tlvs ≡ size → result ++ tlvs ≡ lsp level (head_of head.now) tlvs }
    ensures long { (tlvs : List ℕ) → length (lsp level (head_of head.now) tlvs) ≡ LSP_FRONT + length tlvs }
    ensures fits { HeadFits (head_of head.now) }
{
    front_octets(level, head, size)
}

/// Appends an LSP with the checksum in `head` (ISO/IEC 10589, 9.8 and 9.9). Precondition: at most 1,470 octets of
/// TLVs.
pub fn append_lsp(out: &mut Octets, level: Level, head: &LspHead, tlvs: &[u8]) -> M<()>
    requires { length tlvs.now ≤ MOST_CONTENT }
    ensures ok { OnOk result (out.new ≡ out.old ++ lsp level (head_of head.now) tlvs.now) }
    ensures err { OnErr result (out.new ≡ out.old) }
    ensures long { length (lsp level (head_of head.now) tlvs.now) ≡ LSP_FRONT + length tlvs.now }
    ensures fits { HeadFits (head_of head.now) }
{
    let front = lsp_front(level, head, (LSP_FRONT + tlvs.len()) as u16);
    out.append_two(front.as_slice(), tlvs)
}

fn lsp_octets(alloc: Global, level: Level, head: &LspHead, tlvs: &[u8]) -> M<Octets>
    requires { length tlvs.now ≤ MOST_CONTENT }
    ensures spelled { IfOk result (λ o. o ≡ lsp level (head_of head.now) tlvs.now) }
    ensures fits { HeadFits (head_of head.now) }
{
    let front = lsp_front(level, head, (LSP_FRONT + tlvs.len()) as u16);
    let mut out = Octets::with_room(alloc, LSP_FRONT + tlvs.len())?;
    out.append_two(front.as_slice(), tlvs)?;
    Ok(out)
}

/// Returns an LSP with the checksum in `head` (ISO/IEC 10589, 9.8 and 9.9). Precondition: at most 1,470 octets of TLVs.
pub fn write_lsp(alloc: Global, level: Level, head: &LspHead, tlvs: &[u8]) -> M<Octets>
    requires { length tlvs.now ≤ MOST_CONTENT }
    // The only encoding.
    ensures spelled { IfOk result (λ o. o ≡ lsp level (head_of head.now) tlvs.now) }
    // If a live one has a right checksum and its TLVs are complete, it is parsed again, whatever follows it.
    ensures again { (0 < head.now.life → IsRight (lsp_covered (head_of head.now) tlvs.now)) → AreTlvs false tlvs.now
        → IfOk result (λ o. (rest : List ℕ) → pdu_at level (o ++ rest) ≡ Ok (LspPdu (head_of head.now) tlvs.now)) }
    ensures fits { HeadFits (head_of head.now) }
{
    lsp_octets(alloc, level, head, tlvs)
}

/// Appends a TLV 9 of at most 15 entries. If an allocation fails, part of it may have been appended.
fn append_block(out: &mut Octets, entries: &[Summary]) -> M<()>
    requires { length entries.now ≤ 15 }
    ensures ok { OnOk result (out.new ≡ out.old ++ tlv (row_tlv entries.now)) }
    ensures err { OnErr result (take (length out.old) out.new ≡ out.old) }
    ensures fits { OnOk result (AllByRecursion SummaryFits entries.now) }
{
    out.append(&[TLV_LSP_ENTRIES, 16 * entries.len() as u8])?;
    for s in entries {
        push_summary(out, s)?;
    }
    Ok(())
}

/// Appends the entries in TLVs 9 of at most 15, full ones first. If an allocation fails, part of them may have been
/// appended.
fn append_rows(out: &mut Octets, rows: &[Summary]) -> M<()>
    ensures ok { OnOk result (out.new ≡ out.old ++ row_tlvs rows.now) }
    ensures err { OnErr result (take (length out.old) out.new ≡ out.old) }
    ensures fits { OnOk result (AllByRecursion SummaryFits rows.now) }
{
    let mut rest = rows;
    'cuts: while !rest.is_empty() {
        let (entries, after) = rest.split_at(rest.len().min(15));
        append_block(out, entries)?;
        rest = after;
    }
    Ok(())
}

/// Returns the size in octets of the TLVs that list that many entries: 16 for each entry, and two for each TLV.
pub fn listed_octets(entries: usize) -> usize
    requires { entries ≤ MOST_LISTED }
    ensures long { result ≡ 16 * entries + 2 * ((entries + 14) / 15) }
    ensures short { result ≤ MOST_LISTED_OCTETS }
{
    16 * entries + 2 * ((entries + 14) / 15)
}

/// Returns the TLVs 9 that list those entries, at most 15 each, full ones first (ISO/IEC 10589, 9.10). Precondition: at most
/// 90 entries.
pub fn write_rows(alloc: Global, rows: &[Summary]) -> M<Octets>
    requires { length rows.now ≤ MOST_LISTED }
    ensures ok { IfOk result (λ o. o ≡ row_tlvs rows.now) }
    ensures short { IfOk result (λ o. length o ≤ MOST_LISTED_OCTETS) }
    ensures fits { OnOk result (AllByRecursion SummaryFits rows.now) }
{
    let mut out = Octets::with_room(alloc, listed_octets(rows.len()))?;
    append_rows(&mut out, rows)?;
    Ok(out)
}

/// Returns the octets before the TLVs of a CSNP of that length.
fn csnp_front(
    level: Level,
    source: SystemId,
    start: LspId,
    last: LspId,
    size: u16,
) -> ArrayVec<u8, CSNP_FRONT>
    ensures spelled { result.items ≡ common 33 (csnp_type level) ++ (big_bytes 2 size ++ (source.0 ++ (0 ∷ (lsp_id start ++ lsp_id last)))) }
    ensures long { length result.items ≡ 33 }
    ensures source { length source.0 ≡ 6 }
    ensures fits { LspIdFits start × LspIdFits last }
{
    let mut front = ArrayVec::new();
    put(&mut front, &common(33, csnp_number(level)));
    put(&mut front, &size.to_be_bytes());
    put(&mut front, &source.0);
    front.push(0);
    put(&mut front, &id_octets(start));
    put(&mut front, &id_octets(last));
    front
}

/// Appends a CSNP with those TLVs (ISO/IEC 10589, 9.10 and 9.11).
pub fn append_csnp(
    out: &mut Octets,
    level: Level,
    source: SystemId,
    start: LspId,
    last: LspId,
    tlvs: &[u8],
) -> M<()>
    requires { length tlvs.now ≤ MOST_LISTED_OCTETS }
    ensures ok { OnOk result (out.new ≡ out.old ++ csnp level source start last tlvs.now) }
    ensures err { OnErr result (out.new ≡ out.old) }
    ensures long { length (csnp level source start last tlvs.now) ≡ CSNP_FRONT + length tlvs.now }
    ensures source { length source.0 ≡ 6 }
    ensures fits { LspIdFits start × LspIdFits last }
{
    let front = csnp_front(level, source, start, last, (CSNP_FRONT + tlvs.len()) as u16);
    out.append_two(front.as_slice(), tlvs)
}

fn csnp_whole(
    alloc: Global,
    level: Level,
    source: SystemId,
    start: LspId,
    last: LspId,
    rows: &[Summary],
) -> M<Octets>
    requires { length rows.now ≤ MOST_LISTED }
    ensures spelled { IfOk result (λ o. o ≡ csnp level source start last (row_tlvs rows.now)) }
    ensures source { OnOk result (length source.0 ≡ 6) }
    ensures fits { OnOk result (LspIdFits start × LspIdFits last) }
    ensures rows { OnOk result (AllByRecursion SummaryFits rows.now) }
{
    let tlvs = write_rows(alloc, rows)?;
    let mut out = Octets::with_room(alloc, CSNP_FRONT + tlvs.len())?;
    append_csnp(&mut out, level, source, start, last, tlvs.as_slice())?;
    Ok(out)
}

/// Returns a CSNP with its entries in TLVs 9 of at most 15 (ISO/IEC 10589, 9.10 and 9.11). Precondition: at most 90
/// entries.
pub fn write_csnp(
    alloc: Global,
    level: Level,
    source: SystemId,
    start: LspId,
    last: LspId,
    rows: &[Summary],
) -> M<Octets>
    requires { length rows.now ≤ MOST_LISTED }
    // The only encoding.
    ensures spelled { IfOk result (λ o. o ≡ csnp level source start last (row_tlvs rows.now)) }
    // It is parsed again, whatever follows it.
    ensures again { IfOk result (λ o. (rest : List ℕ) → pdu_at level (o ++ rest) ≡ Ok (CsnpPdu source start last (row_tlvs rows.now))) }
    ensures rows { OnOk result (AllByRecursion SummaryFits rows.now) }
{
    csnp_whole(alloc, level, source, start, last, rows)
}

/// Returns the octets before the TLVs of a PSNP of that length.
fn psnp_front(level: Level, source: SystemId, size: u16) -> ArrayVec<u8, PSNP_FRONT>
    ensures spelled { result.items ≡ common 17 (psnp_type level) ++ (big_bytes 2 size ++ (source.0 ++ (0 ∷ []))) }
    ensures long { length result.items ≡ 17 }
    ensures source { length source.0 ≡ 6 }
{
    let mut front = ArrayVec::new();
    put(&mut front, &common(17, psnp_number(level)));
    put(&mut front, &size.to_be_bytes());
    put(&mut front, &source.0);
    front.push(0);
    front
}

/// Appends a PSNP with those TLVs (ISO/IEC 10589, 9.12 and 9.13).
pub fn append_psnp(out: &mut Octets, level: Level, source: SystemId, tlvs: &[u8]) -> M<()>
    requires { length tlvs.now ≤ MOST_LISTED_OCTETS }
    ensures ok { OnOk result (out.new ≡ out.old ++ psnp level source tlvs.now) }
    ensures err { OnErr result (out.new ≡ out.old) }
    ensures long { length (psnp level source tlvs.now) ≡ PSNP_FRONT + length tlvs.now }
    ensures source { length source.0 ≡ 6 }
{
    let front = psnp_front(level, source, (PSNP_FRONT + tlvs.len()) as u16);
    out.append_two(front.as_slice(), tlvs)
}

fn psnp_whole(alloc: Global, level: Level, source: SystemId, rows: &[Summary]) -> M<Octets>
    requires { length rows.now ≤ MOST_LISTED }
    ensures spelled { IfOk result (λ o. o ≡ psnp level source (row_tlvs rows.now)) }
    ensures source { OnOk result (length source.0 ≡ 6) }
    ensures rows { OnOk result (AllByRecursion SummaryFits rows.now) }
{
    let tlvs = write_rows(alloc, rows)?;
    let mut out = Octets::with_room(alloc, PSNP_FRONT + tlvs.len())?;
    append_psnp(&mut out, level, source, tlvs.as_slice())?;
    Ok(out)
}

/// Returns a PSNP with its entries in TLVs 9 of at most 15 (ISO/IEC 10589, 9.12 and 9.13). Precondition: at most 90
/// entries.
pub fn write_psnp(alloc: Global, level: Level, source: SystemId, rows: &[Summary]) -> M<Octets>
    requires { length rows.now ≤ MOST_LISTED }
    // The only encoding.
    ensures spelled { IfOk result (λ o. o ≡ psnp level source (row_tlvs rows.now)) }
    // It is parsed again, whatever follows it.
    ensures again { IfOk result (λ o. (rest : List ℕ) → pdu_at level (o ++ rest) ≡ Ok (PsnpPdu source (row_tlvs rows.now))) }
    ensures rows { OnOk result (AllByRecursion SummaryFits rows.now) }
{
    psnp_whole(alloc, level, source, rows)
}
