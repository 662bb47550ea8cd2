ghost use Rattle.std.specs.Prelude.{◌≡◌, ◌<◌, ◌≤◌, ◌-◌, ℕ, Ok, IfOk, length, count_by};
ghost use Rattle.byteorder.specs.Endian.{big_number};
ghost use Rattle.wire_base.specs.model.Fields.{Gives};
ghost use Rattle.wire_base.specs.model.Place.{code_of};
ghost use Rattle.wire_base.specs.model.BierInfo.{InfoFits, IsInfo, word_bsl, take_known, take_if, take_part, parts_of, no_parts, info_at};
ghost use Rattle.wire_base.specs.model.BierInfo.{Info as InfoItem};
ghost use Rattle.isis_tlv.specs.Views.{item};
ghost use Rattle.bier_subtlv.specs.Views.{Becomes, info_of, parts_view};

use arrayvec::ArrayVec;
use byteorder::{BigEndian, ByteOrder};
use isis_tlv::{Tlv, TlvWalk};
use wire_base::codepoints::SUB_SUB_TLV_BIER_MPLS;
use wire_base::limits::LAST_LABEL;
use wire_base::{Bsl, InfoFault, LabelRange};

/// A BIER Info: a sub-domain, the advertising router's BFR-id there, and its label ranges, at most one
/// for each BSL (RFC 8401, 6.1 and 6.2).
#[derive(Drop)]
pub struct Info {
    pub sd: u8,
    pub id: u16,
    pub ranges: ArrayVec<LabelRange, 7>,
}

/// The state of the parser: which of the seven BSLs have occurred, and the ranges.
#[derive(Drop)]
struct PartsSoFar {
    seen: [bool; 7],
    ranges: ArrayVec<LabelRange, 7>,
}

/// Returns the BSL in the word of a range.
fn bsl_of(word: u32) -> Option<Bsl>
    ensures { result ≡ word_bsl word }
{
    Bsl::from_code((word / 0x10_0000 % 16) as u8)
}

fn place_of(bsl: Bsl) -> usize
    ensures place { result ≡ code_of bsl - 1 }
    ensures within { result < 7 }
{
    usize::from(bsl.code() - 1)
}

/// Adds a range of a known BSL.
fn known(parts: &mut PartsSoFar, bsl: Bsl, word: u32) -> Result<(), InfoFault>
    requires { length parts.old.ranges.items ≤ count_by (λ b. b) parts.old.seen }
    ensures next { Becomes result (parts_view parts.new) (take_known (parts_view parts.old) bsl word) }
    ensures room { length parts.new.ranges.items ≤ count_by (λ b. b) parts.new.seen }
{
    let place = place_of(bsl);
    if parts.seen[place] {
        return Err(InfoFault::RepeatedLength);
    }
    parts.seen[place] = true;
    let label = word % 0x10_0000;
    let max_si = (word / 0x100_0000) as u8;
    if label + u32::from(max_si) <= LAST_LABEL {
        parts.ranges.push(LabelRange { bsl, max_si, label });
    }
    Ok(())
}

/// Adds one sub-sub-TLV.
#[tactic(auto, unfolding(wire_base::specs::model::BierInfo::take_part))]
fn part(parts: &mut PartsSoFar, tlv: Tlv<'_>) -> Result<(), InfoFault>
    requires { length parts.old.ranges.items ≤ count_by (λ b. b) parts.old.seen }
    ensures next { Becomes result (parts_view parts.new) (take_part (parts_view parts.old) (item tlv.entry)) }
    ensures room { length parts.new.ranges.items ≤ count_by (λ b. b) parts.new.seen }
{
    if tlv.code != SUB_SUB_TLV_BIER_MPLS {
        return Ok(());
    }
    if tlv.value.len() != 4 {
        return Err(InfoFault::Short);
    }
    let word = BigEndian::read_u32(tlv.value);
    match bsl_of(word) {
        None => Ok(()),
        Some(bsl) => known(parts, bsl, word),
    }
}

/// Parses the sub-sub-TLVs to their end.
fn all_parts(bytes: &[u8]) -> Result<PartsSoFar, InfoFault>
    ensures { Gives parts_view result (parts_of no_parts bytes.now) }
{
    let mut parts = PartsSoFar {
        seen: [false; 7],
        ranges: ArrayVec::new(),
    };
    let mut walk = TlvWalk::new(bytes);
    'parts: loop {
        match walk.next() {
            Err(_) => return Err(InfoFault::Short),
            Ok(None) => return Ok(parts),
            Ok(Some(tlv)) => part(&mut parts, tlv)?,
        }
    }
}

#[tactic(auto, unfolding(wire_base::specs::model::BierInfo::info_at))]
fn whole_info(value: &[u8]) -> Result<Info, InfoFault>
    ensures exact { Gives info_of result (info_at value.now) }
    ensures few { IfOk result (λ i. length i.ranges.items ≤ 7) }
{
    if value.len() < 5 {
        return Err(InfoFault::Short);
    }
    if value[0] != 0 || value[1] != 0 {
        return Err(InfoFault::Algorithm);
    }
    let parts = all_parts(&value[5..])?;
    Ok(Info {
        sd: value[2],
        id: BigEndian::read_u16(&value[3..]),
        ranges: parts.ranges,
    })
}

/// Parses the value of a sub-TLV 32 (RFC 8401, 6.1 and 6.2). Errors, in this order: Short if there are fewer than five
/// octets; Algorithm if BAR or IPA is not 0; then, in octet order, Short if a sub-sub-TLV exceeds the value or a label range
/// is not four octets long, and RepeatedLength if a BSL occurs a second time.
///
/// A range whose last label has more than 20 bits is skipped, but its BSL counts as seen. Ranges of an unknown BSL and
/// sub-sub-TLVs of other types are skipped too.
pub fn read_info(value: &[u8]) -> Result<Info, InfoFault>
    // The result is a BIER Info of the grammar.
    ensures found { IfOk result (λ i. IsInfo value.now (info_of i)) }
    // What is in the grammar is parsed.
    ensures only { (i : InfoItem) → IsInfo value.now i → Gives info_of result (Ok i) }
    ensures fits { IfOk result (λ i. InfoFits (info_of i)) }
    // The exact result.
    ensures exact { Gives info_of result (info_at value.now) }
{
    whole_info(value)
}
