//! Laws of TLVs and of the entries of the TLVs 22, 135 and 9.
ghost use Rattle.std.specs.Prelude.{◌≡◌, ◌≤◌, ◌*◌, ◌++◌, ℕ, Bool, true, false, List, length, Ok, Some};
ghost use Rattle.std.specs.List.{flat_map, AllByRecursion};
ghost use Rattle.wire_base.specs.model.Fields.{AreOctets};
ghost use Rattle.wire_base.specs.model.Tlv.{Tlv, tlv, tlv_at, tlvs_of, tlvs_before, entries_of, rows_of, Reach, ReachFits, reach, reach_at, Prefix, PrefixFits, prefix, prefix_at, SummaryFits, row, row_at};
ghost use Rattle.wire_base.specs.model.Pdu.{AreTlvs, tlvs_pass, row_tlvs};
ghost use Rattle.wire_base.specs.declared.triple.Summary.{Summary};

/// Encoding and parsing of TLVs (ISO/IEC 10589, 9.8).
pub fn tlv_law()
    // An encoded TLV is parsed again, whatever follows it.
    ensures again { (t : Tlv) (rest : List ℕ) → tlv_at (tlv t ++ rest) ≡ Ok (Some (t, rest)) }
    // The encoding of a parsed TLV is the octets that it was parsed from.
    ensures read { (octets : List ℕ) (t : Tlv) (rest : List ℕ) → tlv_at octets ≡ Ok (Some (t, rest)) → octets ≡ tlv t ++ rest }
    // TLVs with the same encoding are equal.
    ensures one { (a b : Tlv) → tlv a ≡ tlv b → a ≡ b }
{}

/// Encoding and parsing of TLV 22 entries (RFC 5305, 3).
pub fn reach_law()
    ensures again { (r : Reach) (rest : List ℕ) → ReachFits r → reach_at (reach r ++ rest) ≡ Ok (r, rest) }
    ensures read { (octets : List ℕ) (r : Reach) (rest : List ℕ) → AreOctets octets → reach_at octets ≡ Ok (r, rest) → ReachFits r × (octets ≡ reach r ++ rest) }
    ensures one { (a b : Reach) → ReachFits a → ReachFits b → reach a ≡ reach b → a ≡ b }
{}

/// Encoding and parsing of TLV 135 entries (RFC 5305, 4).
pub fn prefix_law()
    ensures again { (p : Prefix) (rest : List ℕ) → PrefixFits p → prefix_at (prefix p ++ rest) ≡ Ok (p, rest) }
    ensures read { (octets : List ℕ) (p : Prefix) (rest : List ℕ) → AreOctets octets → prefix_at octets ≡ Ok (p, rest) → PrefixFits p × (octets ≡ prefix p ++ rest) }
    ensures one { (a b : Prefix) → PrefixFits a → PrefixFits b → prefix a ≡ prefix b → a ≡ b }
{}

/// Encoding and parsing of TLV 9 entries (ISO/IEC 10589, 9.10).
pub fn row_law()
    ensures again { (s : Summary) (rest : List ℕ) → SummaryFits s → row_at (row s ++ rest) ≡ Ok (s, rest) }
    ensures read { (octets : List ℕ) (s : Summary) (rest : List ℕ) → AreOctets octets → row_at octets ≡ Ok (s, rest) → SummaryFits s × (octets ≡ row s ++ rest) }
    ensures one { (a b : Summary) → SummaryFits a → SummaryFits b → row a ≡ row b → a ≡ b }
{}

/// Encoding and parsing of lists of TLVs.
pub fn tlvs_law()
    // TLVs that are written one after the other are parsed as those TLVs.
    ensures again { (ts : List Tlv) → tlvs_of (flat_map tlv ts) ≡ Ok ts }
    // Octets that are parsed to their end are the encoding of the resulting TLVs.
    ensures read { (octets : List ℕ) (ts : List Tlv) → tlvs_of octets ≡ Ok ts → octets ≡ flat_map tlv ts }
    // Without an overrun, the TLVs before an overrun are all of them.
    ensures before { (octets : List ℕ) (ts : List Tlv) → tlvs_of octets ≡ Ok ts → tlvs_before octets ≡ ts }
    // The test of a whole list accepts these lists only.
    ensures pass { (rows : Bool) (octets : List ℕ) → tlvs_pass rows octets ≡ true → AreTlvs rows octets }
    ensures all { (rows : Bool) (octets : List ℕ) → AreTlvs rows octets → tlvs_pass rows octets ≡ true }
    // TLVs that are written one after the other are such a list.
    ensures spelled { (ts : List Tlv) → AreTlvs false (flat_map tlv ts) }
{}

/// Entries that are written one after the other are parsed as those entries.
pub fn entries_law()
    ensures reaches { (rs : List Reach) → AllByRecursion ReachFits rs → entries_of reach_at (flat_map reach rs) ≡ rs }
    ensures prefixes { (ps : List Prefix) → AllByRecursion PrefixFits ps → entries_of prefix_at (flat_map prefix ps) ≡ ps }
    ensures rows { (rows : List Summary) → AllByRecursion SummaryFits rows → entries_of row_at (flat_map row rows) ≡ rows }
{}

/// LSP entries in TLVs 9 of at most 15 each.
pub fn rows_law()
    // They are parsed as those entries.
    ensures again { (rows : List Summary) → AllByRecursion SummaryFits rows → rows_of (row_tlvs rows) ≡ rows }
    // They are TLVs, and each TLV 9 contains only complete entries.
    ensures pass { (rows : List Summary) → AllByRecursion SummaryFits rows → tlvs_pass true (row_tlvs rows) ≡ true }
    ensures short { (rows : List Summary) → AllByRecursion SummaryFits rows → length (row_tlvs rows) ≤ 18 * length rows }
{}
