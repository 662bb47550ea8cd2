//! Laws of BIER Info.
ghost use Rattle.std.specs.Prelude.{◌≡◌, ◌≤◌, ℕ, List, length, true, Ok};
ghost use Rattle.wire_base.specs.model.Fields.{AreOctets};
ghost use Rattle.wire_base.specs.model.BierInfo.{Info, InfoFits, IsInfo, info, info_at, Overlap, any_overlap};
ghost use Rattle.wire_base.specs.declared.conf.LabelRange.{LabelRange};

/// Encoding and parsing of BIER Info (RFC 8401, 6.1 and 6.2).
pub fn info_law()
    // The encoding is in the grammar, and is parsed again.
    ensures spelled { (i : Info) → InfoFits i → IsInfo (info i) i }
    ensures again { (i : Info) → InfoFits i → info_at (info i) ≡ Ok i }
    // What is parsed is in the grammar, and what is in the grammar is parsed.
    ensures read { (value : List ℕ) (i : Info) → AreOctets value → info_at value ≡ Ok i → IsInfo value i }
    ensures only { (value : List ℕ) (i : Info) → IsInfo value i → info_at value ≡ Ok i }
    // The fields of a BIER Info of the grammar fit those of a written one; its number of ranges is not considered.
    ensures fits { (value : List ℕ) (i : Info) → AreOctets value → length i.ranges ≤ 7 → IsInfo value i → InfoFits i }
    // BIER Infos with the same encoding are equal.
    ensures one { (a b : Info) → InfoFits a → InfoFits b → info a ≡ info b → a ≡ b }
{}

/// The test finds the lists in which ranges at two indices share a label, and no others.
pub fn overlap_law()
    ensures found { (ranges : List LabelRange) → any_overlap ranges ≡ true → Overlap ranges }
    ensures only { (ranges : List LabelRange) → Overlap ranges → any_overlap ranges ≡ true }
{}
