//! Laws of IS-IS PDUs.
ghost use Rattle.std.specs.Prelude.{◌≡◌, ◌++◌, ℕ, List, Ok};
ghost use Rattle.wire_base.specs.model.Fields.{AreOctets};
ghost use Rattle.wire_base.specs.model.Pdu.{Head, Pdu, LspPdu, CsnpPdu, PsnpPdu, LspFits, CsnpFits, PsnpFits, lsp, csnp, psnp, IsPdu, pdu_at};
ghost use Rattle.wire_base.specs.declared.conf.Level.{Level};
ghost use Rattle.wire_base.specs.declared.addresses.SystemId.{SystemId};
ghost use Rattle.wire_base.specs.declared.addresses.LspId.{LspId};

/// Parsing of PDUs at the front of octets (ISO/IEC 10589, 9.5 to 9.13).
pub fn pdu_law()
    // What is parsed is in the grammar, and what is in the grammar is parsed.
    ensures read { (level : Level) (octets : List ℕ) (p : Pdu) → AreOctets octets → pdu_at level octets ≡ Ok p → IsPdu level octets p }
    ensures only { (level : Level) (octets : List ℕ) (p : Pdu) → IsPdu level octets p → pdu_at level octets ≡ Ok p }
    // Octets begin with at most one PDU.
    ensures one { (level : Level) (octets : List ℕ) (p q : Pdu) → IsPdu level octets p → IsPdu level octets q → p ≡ q }
{}

/// Encoding and parsing of LSPs (ISO/IEC 10589, 9.8 and 9.9).
pub fn lsp_law()
    // The encoding is in the grammar, and is parsed again, whatever follows it.
    ensures spelled { (level : Level) (head : Head) (tlvs rest : List ℕ) → LspFits head tlvs → IsPdu level (lsp level head tlvs ++ rest) (LspPdu head tlvs) }
    ensures again { (level : Level) (head : Head) (tlvs rest : List ℕ) → LspFits head tlvs → pdu_at level (lsp level head tlvs ++ rest) ≡ Ok (LspPdu head tlvs) }
    // LSPs with the same encoding are equal.
    ensures one { (level : Level) (a b : Head) (s t : List ℕ) → LspFits a s → LspFits b t → lsp level a s ≡ lsp level b t → LspPdu a s ≡ LspPdu b t }
{}

/// Encoding and parsing of CSNPs (ISO/IEC 10589, 9.10 and 9.11).
pub fn csnp_law()
    ensures spelled { (level : Level) (source : SystemId) (start last : LspId) (tlvs rest : List ℕ) → CsnpFits source start last tlvs → IsPdu level (csnp level source start last tlvs ++ rest) (CsnpPdu source start last tlvs) }
    ensures again { (level : Level) (source : SystemId) (start last : LspId) (tlvs rest : List ℕ) → CsnpFits source start last tlvs → pdu_at level (csnp level source start last tlvs ++ rest) ≡ Ok (CsnpPdu source start last tlvs) }
    ensures one { (level : Level) (sa sb : SystemId) (fa fb la lb : LspId) (ta tb : List ℕ) → CsnpFits sa fa la ta → CsnpFits sb fb lb tb → csnp level sa fa la ta ≡ csnp level sb fb lb tb → CsnpPdu sa fa la ta ≡ CsnpPdu sb fb lb tb }
{}

/// Encoding and parsing of PSNPs (ISO/IEC 10589, 9.12 and 9.13).
pub fn psnp_law()
    ensures spelled { (level : Level) (source : SystemId) (tlvs rest : List ℕ) → PsnpFits source tlvs → IsPdu level (psnp level source tlvs ++ rest) (PsnpPdu source tlvs) }
    ensures again { (level : Level) (source : SystemId) (tlvs rest : List ℕ) → PsnpFits source tlvs → pdu_at level (psnp level source tlvs ++ rest) ≡ Ok (PsnpPdu source tlvs) }
    ensures one { (level : Level) (sa sb : SystemId) (ta tb : List ℕ) → PsnpFits sa ta → PsnpFits sb tb → psnp level sa ta ≡ psnp level sb tb → PsnpPdu sa ta ≡ PsnpPdu sb tb }
{}
