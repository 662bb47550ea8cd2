ghost use Rattle.std.specs.Prelude.{◌≡◌, [], ◌∷◌};
ghost use Rattle.replay_text.specs.declared.event.Event.TheVariants.{Take};
ghost use Rattle.examples_domain.specs.Worked.{ring_loops, enters_at, doing, parts};

/// A sends a copy for C to B, and B sends it back: one copy loops, until its TTL expires at A.
#[tactic(auto, unfolding(domain_model::specs::Step::happens, domain_model::specs::Run::goes_on, domain_model::specs::Moves::outcomes_at, domain_model::specs::Moves::hop_made_at, domain_model::specs::Moves::inject_made, laws_ledger::specs::Ledger::over_all, wire_base::specs::model::View::view_of, wire_base::specs::model::View::claims_of, wire_base::specs::model::OwnLsp::own_lsp, wire_base::specs::model::OwnLsp::own_content, wire_base::specs::model::Tlv::entries_of, wire_base::specs::model::Tlv::entries_within, wire_base::specs::model::Tlv::reach_at, wire_base::specs::model::Tlv::prefix_at, wire_base::specs::model::BierInfo::info_at, wire_base::specs::model::BierInfo::parts_within, wire_base::specs::model::BierInfo::take_part, wire_base::specs::model::BierInfo::any_overlap, wire_base::specs::model::Hop::hop, wire_base::specs::model::Walk::dist, wire_base::specs::model::Graph::owner, wire_base::specs::model::Graph::covers, wire_base::specs::model::Graph::node_bift, wire_base::specs::model::Tight::tight_from, wire_base::specs::model::Tight::next_step, wire_base::specs::model::Supporting::firsts, wire_base::specs::model::Choice::candidates, wire_base::specs::model::Choice::choice, wire_base::specs::model::Choice::is_direct, wire_base::specs::model::Item::ingress_header, wire_base::specs::model::Ingress::packets_for))]
pub fn views_loop_until_the_ttl_ends()
    ensures sent { parts 3 (doing ring_loops (enters_at 0 (3 ∷ []) 2 ∷ [])) ≡ 1 ∷ 0 ∷ 0 ∷ [] }
    ensures back { parts 3 (doing ring_loops (enters_at 0 (3 ∷ []) 2 ∷ Take 0 1 0 ∷ [])) ≡ 1 ∷ 0 ∷ 0 ∷ [] }
    ensures ended { parts 3 (doing ring_loops (enters_at 0 (3 ∷ []) 2 ∷ Take 0 1 0 ∷ Take 1 0 0 ∷ [])) ≡ 0 ∷ 0 ∷ 1 ∷ [] }
{}
