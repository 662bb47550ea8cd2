ghost use Rattle.std.specs.Prelude.{◌≡◌, true, false, [], ◌∷◌, map};
ghost use Rattle.wire_base.specs.declared.conf.Level.TheVariants.{Two};
ghost use Rattle.wire_base.specs.model.Pdu.{pdu};
ghost use Rattle.wire_base.specs.model.OwnLsp.{own_content, own_lsp, own_prefix};
ghost use Rattle.wire_base.specs.model.Flooding.{lsp_of, first_control, send_of};
ghost use Rattle.examples_model.specs.Domains.{pair_a, fork_p};
ghost use Rattle.examples_model.specs.Vectors.{pair_a_content, pair_a_lsp, pair_a_csnp};

/// A's LSP in the pair has its area, protocols, name, link and prefix with BIER Info, in this order. If the
/// link is down, the LSP has no TLV of links.
#[tactic(auto, unfolding(wire_base::specs::model::OwnLsp::own_content))]
pub fn pair_first_lsp_content()
    ensures up { own_content pair_a (true ∷ []) ≡ pair_a_content }
{}

/// The octets of A's first LSP, including its checksum.
#[tactic(auto, unfolding(wire_base::specs::model::OwnLsp::own_content, wire_base::specs::model::OwnLsp::own_lsp, wire_base::specs::model::Checksum::check_sum))]
pub fn pair_first_lsp()
    ensures { pdu Two (lsp_of (own_lsp pair_a (true ∷ []) 1)) ≡ pair_a_lsp }
{}

/// A in the pair first sends its CSNP and then its LSP.
#[tactic(auto, unfolding(wire_base::specs::model::OwnLsp::own_content, wire_base::specs::model::OwnLsp::own_lsp, wire_base::specs::model::Checksum::check_sum, wire_base::specs::model::Flooding::first_control, wire_base::specs::model::Flooding::started, wire_base::specs::model::Flooding::new_flood, wire_base::specs::model::Flooding::mark_all, wire_base::specs::model::Flooding::send_of, wire_base::specs::model::Pdu::row_tlvs, wire_base::specs::model::Pdu::blocks_within))]
pub fn pair_first_csnp()
    ensures { map (pdu Two) (send_of (first_control pair_a) 0) ≡ pair_a_csnp ∷ pair_a_lsp ∷ [] }
{}

/// A router in no sub-domain advertises its prefix without sub-TLVs.
pub fn plain_router_lsp()
    ensures control { (own_prefix fork_p).control ≡ 32 }
    ensures subs { (own_prefix fork_p).subs ≡ [] }
{}
