//! The definitions, computed for PDUs that were encoded by hand.
ghost use Rattle.std.specs.Prelude.{◌≡◌, ◌∷◌, [], Ok, Err};
ghost use Rattle.std.specs.List.{flat_map};
ghost use Rattle.wire_base.specs.declared.conf.Level.TheVariants.{Two};
ghost use Rattle.wire_base.specs.declared.faults.InfoFault.TheVariants.{RepeatedLength};
ghost use Rattle.wire_base.specs.model.BierInfo.{info_at};
ghost use Rattle.wire_base.specs.model.Pdu.{LspPdu, CsnpPdu, lsp, csnp, lsp_sum, row_tlvs, pdu_at};
ghost use Rattle.wire_base.specs.model.Tlv.{tlv, tlvs_of, rows_of};
ghost use Rattle.laws_format.specs.Examples.{system_of, a_tlvs, a_head, a_lsp_tlvs, a_lsp, a_summary, first_id, last_id, a_csnp, info_with, first_range, second_range};

/// An LSP of 77 octets: its TLVs, its checksum 554E, its encoding, and the result of parsing it.
pub fn example_lsp()
    ensures tlvs { flat_map tlv a_tlvs ≡ a_lsp_tlvs }
    ensures walked { tlvs_of a_lsp_tlvs ≡ Ok a_tlvs }
    ensures sum { lsp_sum a_head a_lsp_tlvs ≡ 21838 }
    ensures spelled { lsp Two a_head a_lsp_tlvs ≡ a_lsp }
    ensures read { pdu_at Two a_lsp ≡ Ok (LspPdu a_head a_lsp_tlvs) }
{}

/// A CSNP with the entry of that LSP.
pub fn example_csnp()
    ensures spelled { csnp Two (system_of 1) first_id last_id (row_tlvs (a_summary ∷ [])) ≡ a_csnp }
    ensures read { pdu_at Two a_csnp ≡ Ok (CsnpPdu (system_of 1) first_id last_id (row_tlvs (a_summary ∷ []))) }
    ensures rows { rows_of (row_tlvs (a_summary ∷ [])) ≡ a_summary ∷ [] }
{}

/// A second label range: of the same BSL, of another BSL, and of the same BSL with a last label of more
/// than 20 bits after one of another BSL.
pub fn example_info()
    ensures repeated { info_at (info_with (1 ∷ 4 ∷ 1 ∷ 48 ∷ 1 ∷ 0 ∷ [])) ≡ Err RepeatedLength }
    ensures both { info_at (info_with (1 ∷ 4 ∷ 1 ∷ 64 ∷ 1 ∷ 0 ∷ [])) ≡ Ok (record { sd = 0; id = 1; ranges = first_range ∷ second_range ∷ [] }) }
    ensures skipped { info_at (info_with (1 ∷ 4 ∷ 1 ∷ 79 ∷ 255 ∷ 255 ∷ [])) ≡ Ok (record { sd = 0; id = 1; ranges = first_range ∷ [] }) }
{}
