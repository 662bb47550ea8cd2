ghost use Rattle.std.specs.Prelude.{◌≡◌, [], ◌∷◌};
ghost use Rattle.replay_text.specs.declared.event.Event.TheVariants.{Take};
ghost use Rattle.examples_domain.specs.Worked.{twins_agree, twins_disagree, enters_at, doing, parts};

/// Two routers have the BFR-id 2, and all LSDBs are complete: at A it has no owner, and is dropped; at B, which has it
/// as its own, it is delivered.
#[tactic(auto, unfolding(domain_model::specs::Step::happens, domain_model::specs::Run::goes_on, domain_model::specs::Moves::outcomes_at, domain_model::specs::Moves::hop_made_at, domain_model::specs::Moves::inject_made, laws_ledger::specs::Ledger::over_all, wire_base::specs::model::View::view_of, wire_base::specs::model::View::claims_of, wire_base::specs::model::OwnLsp::own_lsp, wire_base::specs::model::OwnLsp::own_content, wire_base::specs::model::Tlv::entries_of, wire_base::specs::model::Tlv::entries_within, wire_base::specs::model::Tlv::reach_at, wire_base::specs::model::Tlv::prefix_at, wire_base::specs::model::BierInfo::info_at, wire_base::specs::model::BierInfo::parts_within, wire_base::specs::model::BierInfo::take_part, wire_base::specs::model::BierInfo::any_overlap, wire_base::specs::model::Hop::hop, wire_base::specs::model::Walk::dist, wire_base::specs::model::Graph::owner, wire_base::specs::model::Graph::covers, wire_base::specs::model::Graph::node_bift, wire_base::specs::model::Tight::tight_from, wire_base::specs::model::Tight::next_step, wire_base::specs::model::Supporting::firsts, wire_base::specs::model::Choice::candidates, wire_base::specs::model::Choice::choice, wire_base::specs::model::Choice::is_direct, wire_base::specs::model::Item::ingress_header, wire_base::specs::model::Ingress::packets_for))]
pub fn routers_with_one_id_that_agree()
    ensures at_a { parts 2 (doing twins_agree (enters_at 0 (2 ∷ []) 8 ∷ [])) ≡ 0 ∷ 0 ∷ 1 ∷ [] }
    ensures at_b { parts 2 (doing twins_agree (enters_at 1 (2 ∷ 1 ∷ 2 ∷ []) 8 ∷ [])) ≡ 0 ∷ 1 ∷ 0 ∷ [] }
    ensures other { parts 1 (doing twins_agree (enters_at 1 (2 ∷ 1 ∷ 2 ∷ []) 8 ∷ [])) ≡ 1 ∷ 0 ∷ 0 ∷ [] }
{}

/// A, which has no LSP of C, sends it to B: B delivers it, and C never receives it.
#[tactic(auto, unfolding(domain_model::specs::Step::happens, domain_model::specs::Run::goes_on, domain_model::specs::Moves::outcomes_at, domain_model::specs::Moves::hop_made_at, domain_model::specs::Moves::inject_made, laws_ledger::specs::Ledger::over_all, wire_base::specs::model::View::view_of, wire_base::specs::model::View::claims_of, wire_base::specs::model::OwnLsp::own_lsp, wire_base::specs::model::OwnLsp::own_content, wire_base::specs::model::Tlv::entries_of, wire_base::specs::model::Tlv::entries_within, wire_base::specs::model::Tlv::reach_at, wire_base::specs::model::Tlv::prefix_at, wire_base::specs::model::BierInfo::info_at, wire_base::specs::model::BierInfo::parts_within, wire_base::specs::model::BierInfo::take_part, wire_base::specs::model::BierInfo::any_overlap, wire_base::specs::model::Hop::hop, wire_base::specs::model::Walk::dist, wire_base::specs::model::Graph::owner, wire_base::specs::model::Graph::covers, wire_base::specs::model::Graph::node_bift, wire_base::specs::model::Tight::tight_from, wire_base::specs::model::Tight::next_step, wire_base::specs::model::Supporting::firsts, wire_base::specs::model::Choice::candidates, wire_base::specs::model::Choice::choice, wire_base::specs::model::Choice::is_direct, wire_base::specs::model::Item::ingress_header, wire_base::specs::model::Ingress::packets_for))]
pub fn routers_with_one_id_that_disagree()
    ensures sent { parts 2 (doing twins_disagree (enters_at 0 (2 ∷ []) 8 ∷ [])) ≡ 1 ∷ 0 ∷ 0 ∷ [] }
    ensures delivered { parts 2 (doing twins_disagree (enters_at 0 (2 ∷ []) 8 ∷ Take 0 1 0 ∷ [])) ≡ 0 ∷ 1 ∷ 0 ∷ [] }
{}
