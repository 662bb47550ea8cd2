ghost use Rattle.std.specs.Prelude.{◌≡◌, ◌<◌, true, Ok, IfOk, length, slice_index, drop};
ghost use Rattle.wire_base.specs.model.Fields.{Gives};
ghost use Rattle.wire_base.specs.model.Pdu.{lsp_type, csnp_type, psnp_type, passes, tlvs_pass, sized_at, lsp_at, csnp_at, psnp_at, body_at, pdu_at, IsPdu};
ghost use Rattle.wire_base.specs.model.Pdu.{Pdu as PduItem};
ghost use Rattle.isis_tlv.specs.Views.{item};
ghost use Rattle.isis_pdu.specs.Known.{IsVerified};
ghost use Rattle.isis_pdu.specs.Views.{covered_at, verified_at, pdu_of};

use crate::checksum::right_sum;
use crate::kinds::{LspHead, Pdu};
use crate::known::KnownLsps;
use isis_tlv::{Tlv, TlvWalk, lsp_id_of};
use wire_base::codepoints::TLV_LSP_ENTRIES;
use wire_base::fields::{read_octets, read_six, read_u8, read_u16, read_u32};
use wire_base::{Level, PduFault, SystemId};

/// Returns the PDU type of LSPs of a level (ISO/IEC 10589, 9.8 and 9.9).
pub fn lsp_number(level: Level) -> u8
    ensures { result ≡ lsp_type level }
{
    match level {
        Level::One => 18,
        Level::Two => 20,
    }
}

/// Returns the PDU type of CSNPs of a level (ISO/IEC 10589, 9.10 and 9.11).
pub fn csnp_number(level: Level) -> u8
    ensures { result ≡ csnp_type level }
{
    match level {
        Level::One => 24,
        Level::Two => 25,
    }
}

/// Returns the PDU type of PSNPs of a level (ISO/IEC 10589, 9.12 and 9.13).
pub fn psnp_number(level: Level) -> u8
    ensures { result ≡ psnp_type level }
{
    match level {
        Level::One => 26,
        Level::Two => 27,
    }
}

fn tlv_passes(rows: bool, tlv: Tlv<'_>) -> bool
    ensures { result ≡ passes rows (item tlv.entry) }
{
    !rows || tlv.code != TLV_LSP_ENTRIES || tlv.value.len() % 16 == 0
}

/// Returns whether the TLVs end where the octets end and, in a CSNP or PSNP, each TLV 9 contains only complete entries.
fn tlvs_are_whole(rows: bool, bytes: &[u8]) -> bool
    ensures { result ≡ tlvs_pass rows bytes.now }
{
    let mut walk = TlvWalk::new(bytes);
    'tlvs: loop {
        match walk.next() {
            Err(_) => return false,
            Ok(None) => return true,
            Ok(Some(tlv)) => {
                if !tlv_passes(rows, tlv) {
                    return false;
                }
            }
        }
    }
}

/// Returns the octets of a PDU after its length field. The length counts from the first octet of the PDU.
#[tactic(auto, unfolding(wire_base::specs::model::Pdu::sized_at))]
fn sized(size: u16, bytes: &[u8]) -> Result<(&[u8], &[u8]), PduFault>
    requires { 10 < size }
    ensures { Gives (λ x. (x.0.now, x.1.now)) result (sized_at size bytes.now) }
{
    let (n, rest) = read_u16(PduFault::PduLength, bytes)?;
    if n < size {
        return Err(PduFault::PduLength);
    }
    read_octets(PduFault::PduLength, usize::from(n - 10), rest)
}

/// Returns whether an LSP, from its LSP ID on, is known to be verified.
fn is_known(known: Option<&KnownLsps>, covered: &[u8]) -> bool
    ensures { result ≡ true → IsVerified covered.now }
{
    match known {
        None => false,
        Some(lsps) => lsps.has(covered),
    }
}

/// Remembers an LSP that was verified.
fn note(known: Option<&KnownLsps>, covered: &[u8])
    requires { IsVerified covered.now }
{
    if let Some(lsps) = known {
        lsps.note(covered);
    }
}

/// Tests the checksum of an LSP, from its LSP ID on, unless its Remaining Lifetime is 0, and then its TLVs.
fn verify(life: u16, covered: &[u8], tlvs: &[u8], known: Option<&KnownLsps>) -> Result<(), PduFault>
    requires { tlvs.now ≡ drop 15 covered.now }
    ensures { Gives (λ done. tt) result (verified_at life covered.now tlvs.now) }
{
    if life > 0 && !right_sum(covered) {
        return Err(PduFault::Checksum);
    }
    if !tlvs_are_whole(false, tlvs) {
        return Err(PduFault::Tlv);
    }
    if life > 0 {
        note(known, covered);
    }
    Ok(())
}

/// The same, at once where the LSP is known to be verified.
fn test_lsp(
    life: u16,
    covered: &[u8],
    tlvs: &[u8],
    known: Option<&KnownLsps>,
) -> Result<(), PduFault>
    requires { tlvs.now ≡ drop 15 covered.now }
    ensures { Gives (λ done. tt) result (verified_at life covered.now tlvs.now) }
{
    if is_known(known, covered) {
        return Ok(());
    }
    verify(life, covered, tlvs, known)
}

/// Parses an LSP from its LSP ID on, the part that its checksum covers.
fn read_covered<'a>(
    life: u16,
    covered: &'a [u8],
    known: Option<&KnownLsps>,
) -> Result<Pdu<'a>, PduFault>
    ensures { Gives pdu_of result (covered_at life covered.now) }
{
    let (id, rest) = lsp_id_of(PduFault::PduLength, covered)?;
    let (seq, rest) = read_u32(PduFault::PduLength, rest)?;
    let (sum, rest) = read_u16(PduFault::PduLength, rest)?;
    let (flags, tlvs) = read_u8(PduFault::PduLength, rest)?;
    test_lsp(life, covered, tlvs, known)?;
    Ok(Pdu::Lsp {
        head: LspHead {
            life,
            id,
            seq,
            sum,
            flags,
        },
        tlvs,
    })
}

#[tactic(auto, unfolding(wire_base::specs::model::Pdu::lsp_at))]
fn read_lsp<'a>(bytes: &'a [u8], known: Option<&KnownLsps>) -> Result<Pdu<'a>, PduFault>
    ensures { Gives pdu_of result (lsp_at bytes.now) }
{
    let (body, _) = sized(27, bytes)?;
    let (life, covered) = read_u16(PduFault::PduLength, body)?;
    read_covered(life, covered, known)
}

#[tactic(auto, unfolding(wire_base::specs::model::Pdu::csnp_at))]
fn read_csnp(bytes: &[u8]) -> Result<Pdu<'_>, PduFault>
    ensures { Gives pdu_of result (csnp_at bytes.now) }
{
    let (body, _) = sized(33, bytes)?;
    let (source, rest) = read_six(PduFault::PduLength, body)?;
    let (_circuit, rest) = read_u8(PduFault::PduLength, rest)?;
    let (start, rest) = lsp_id_of(PduFault::PduLength, rest)?;
    let (last, tlvs) = lsp_id_of(PduFault::PduLength, rest)?;
    if !tlvs_are_whole(true, tlvs) {
        return Err(PduFault::Tlv);
    }
    Ok(Pdu::Csnp {
        source: SystemId(source),
        start,
        last,
        tlvs,
    })
}

#[tactic(auto, unfolding(wire_base::specs::model::Pdu::psnp_at))]
fn read_psnp(bytes: &[u8]) -> Result<Pdu<'_>, PduFault>
    ensures { Gives pdu_of result (psnp_at bytes.now) }
{
    let (body, _) = sized(17, bytes)?;
    let (source, rest) = read_six(PduFault::PduLength, body)?;
    let (_circuit, tlvs) = read_u8(PduFault::PduLength, rest)?;
    if !tlvs_are_whole(true, tlvs) {
        return Err(PduFault::Tlv);
    }
    Ok(Pdu::Psnp {
        source: SystemId(source),
        tlvs,
    })
}

/// Parses the PDU with that header length and that type, from its ninth octet on.
#[tactic(auto, unfolding(wire_base::specs::model::Pdu::body_at))]
fn read_body<'a>(
    level: Level,
    size: u8,
    number: u8,
    bytes: &'a [u8],
    known: Option<&KnownLsps>,
) -> Result<Pdu<'a>, PduFault>
    ensures { Gives pdu_of result (body_at level size number bytes.now) }
{
    if number == lsp_number(level) {
        if size != 27 {
            return Err(PduFault::HeaderLength);
        }
        return read_lsp(bytes, known);
    }
    if number == csnp_number(level) {
        if size != 33 {
            return Err(PduFault::HeaderLength);
        }
        return read_csnp(bytes);
    }
    if number == psnp_number(level) {
        if size != 17 {
            return Err(PduFault::HeaderLength);
        }
        return read_psnp(bytes);
    }
    if 15 <= number && number <= 17 {
        return Ok(Pdu::Hello);
    }
    Ok(Pdu::Other(number))
}

#[tactic(auto, unfolding(wire_base::specs::model::Pdu::pdu_at))]
fn read_front<'a>(
    level: Level,
    bytes: &'a [u8],
    known: Option<&KnownLsps>,
) -> Result<Pdu<'a>, PduFault>
    ensures { Gives pdu_of result (pdu_at level bytes.now) }
{
    if bytes.len() < 8 {
        return Err(PduFault::Short);
    }
    if bytes[0] != 0x83 {
        return Err(PduFault::Discriminator);
    }
    if bytes[2] != 1 || bytes[5] != 1 {
        return Err(PduFault::Version);
    }
    if bytes[3] != 0 && bytes[3] != 6 {
        return Err(PduFault::IdLength);
    }
    read_body(level, bytes[1], bytes[4] % 32, &bytes[8..], known)
}

/// Parses the PDU at the start of the octets. Returns the first rule that they break, in the order of [`PduFault`]
/// (ISO/IEC 10589, 9.5 to 9.13).
///
/// Hellos and PDUs that are not an LSP, CSNP or PSNP of the level are returned after the fourth rule. Octets past the PDU
/// length are ignored. Octets 6 and 7, the high three bits of the type and the last octet of a source are not tested.
pub fn read_pdu(level: Level, bytes: &[u8]) -> Result<Pdu<'_>, PduFault>
    // The result is a PDU of the grammar.
    ensures found { IfOk result (λ p. IsPdu level bytes.now (pdu_of p)) }
    // What is in the grammar is parsed, whatever follows it.
    ensures only { (p : PduItem) → IsPdu level bytes.now p → Gives pdu_of result (Ok p) }
    // The exact result.
    ensures exact { Gives pdu_of result (pdu_at level bytes.now) }
{
    read_front(level, bytes, None)
}

/// Like [`read_pdu`]. Of an LSP that is known to be verified, neither the checksum nor the TLVs are tested again, and one that is verified is
/// remembered.
pub fn read_pdu_with<'a>(
    level: Level,
    bytes: &'a [u8],
    known: &KnownLsps,
) -> Result<Pdu<'a>, PduFault>
    // The result is a PDU of the grammar.
    ensures found { IfOk result (λ p. IsPdu level bytes.now (pdu_of p)) }
    // What is in the grammar is parsed, whatever follows it.
    ensures only { (p : PduItem) → IsPdu level bytes.now p → Gives pdu_of result (Ok p) }
    // The exact result.
    ensures exact { Gives pdu_of result (pdu_at level bytes.now) }
{
    read_front(level, bytes, Some(known))
}
