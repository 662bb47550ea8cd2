//! The checksum of LSPs.
ghost use Rattle.std.specs.Prelude.{◌≡◌, ◌≤◌, ◌<◌, ◌+◌, ◌*◌, ◌^◌, ℕ, List, length, slice_index, true, false};
ghost use Rattle.wire_base.specs.model.Tlv.{LspIdFits};
ghost use Rattle.wire_base.specs.model.Checksum.{IsRight, is_right, IsCheck, check_first, check_second, check_sum};
ghost use Rattle.wire_base.specs.model.Pdu.{Head, HeadFits, LspFits, AreTlvs, lsp_covered, lsp_sum};

/// At any index of octets that has 0 and 0 there, exactly one pair of octets from 1 to 255 makes both sums 0
/// (ISO/IEC 10589, 7.3.11).
pub fn checksum_law()
    ensures there_is { (octets : List ℕ) (at : ℕ) → at + 2 ≤ length octets → slice_index octets at ≡ 0 → slice_index octets (at + 1) ≡ 0 → IsCheck octets at (check_first octets at, check_second octets at) }
    ensures one { (octets : List ℕ) (at : ℕ) (pair : ℕ × ℕ) → at + 2 ≤ length octets → slice_index octets at ≡ 0 → slice_index octets (at + 1) ≡ 0 → IsCheck octets at pair → check_sum octets at ≡ pair.0 * 256 + pair.1 }
    ensures test { (octets : List ℕ) → is_right octets ≡ true → IsRight octets }
    ensures tested { (octets : List ℕ) → IsRight octets → is_right octets ≡ true }
{}

/// The checksum computed for an LSP has two nonzero octets and makes the LSP right.
pub fn lsp_sum_law()
    ensures right { (head : Head) (tlvs : List ℕ) → LspIdFits head.id → IsRight (lsp_covered (record head { sum = lsp_sum head tlvs }) tlvs) }
    ensures fits { (head : Head) (tlvs : List ℕ) → lsp_sum head tlvs < 256 ^ 2 }
    ensures some { (head : Head) (tlvs : List ℕ) → 257 ≤ lsp_sum head tlvs }
    // A reader returns an LSP with that checksum.
    ensures whole { (head : Head) (tlvs : List ℕ) → HeadFits head → 27 + length tlvs < 256 ^ 2 → AreTlvs false tlvs → LspFits (record head { sum = lsp_sum head tlvs }) tlvs }
{}
