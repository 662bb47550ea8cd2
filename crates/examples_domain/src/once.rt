ghost use Rattle.std.specs.Prelude.{◌≡◌, [], ◌∷◌, map};
ghost use Rattle.laws_ledger.specs.Ledger.{deliveries, drops};
ghost use Rattle.laws_ledger.specs.Weights.{copies_in};
ghost use Rattle.laws_course.specs.Course.{IsCarried, carried_on};
ghost use Rattle.examples_domain.specs.Branch.{branch_a, rest, begun, enters, taken, the_injection};

/// All premises of a packet's arrival are met by a run: A injects for itself, for B, and for C, which is behind a
/// non-BFR, and all topologies agree.
pub fn premises_can_be_met()
    ensures own { IsCarried begun enters taken (rest branch_a) 1 1 the_injection }
    ensures b { IsCarried begun enters taken (rest branch_a) 1 2 the_injection }
    ensures c { IsCarried begun enters taken (rest branch_a) 1 4 the_injection }
{}

/// In that run A, B and C deliver it, C from a tunnel; nothing is dropped, and nothing remains in flight.
#[tactic(auto, unfolding(domain_model::specs::Step::happens, domain_model::specs::Run::goes_on, domain_model::specs::Faults::event_fault, domain_model::specs::World::in_flight, domain_model::specs::World::ids_in_flight, domain_model::specs::Moves::outcomes_at, domain_model::specs::Moves::hop_made_at, domain_model::specs::Moves::inject_made, laws_ledger::specs::Ledger::over_all, wire_base::specs::model::View::view_of, wire_base::specs::model::View::claims_of, wire_base::specs::model::OwnLsp::own_lsp, wire_base::specs::model::OwnLsp::own_content, wire_base::specs::model::Tlv::entries_of, wire_base::specs::model::Tlv::entries_within, wire_base::specs::model::Tlv::reach_at, wire_base::specs::model::Tlv::prefix_at, wire_base::specs::model::BierInfo::info_at, wire_base::specs::model::BierInfo::parts_within, wire_base::specs::model::BierInfo::take_part, wire_base::specs::model::BierInfo::any_overlap, wire_base::specs::model::Hop::hop, wire_base::specs::model::Walk::dist, wire_base::specs::model::Graph::owner, wire_base::specs::model::Graph::covers, wire_base::specs::model::Graph::node_bift, wire_base::specs::model::Tight::tight_from, wire_base::specs::model::Tight::next_step, wire_base::specs::model::Supporting::firsts, wire_base::specs::model::Choice::candidates, wire_base::specs::model::Choice::choice, wire_base::specs::model::Choice::is_direct, wire_base::specs::model::HopCount::hops, wire_base::specs::model::HopCount::tunnel_links, wire_base::specs::model::Item::ingress_header, wire_base::specs::model::Ingress::packets_for, wire_base::specs::model::Ingress::edge_fault))]
pub fn three_egresses_deliver()
    ensures routers { map (λ g. g.1.router) (carried_on begun enters taken).got ≡ 0 ∷ 1 ∷ 3 ∷ [] }
    ensures ids { map (λ g. g.1.id) (carried_on begun enters taken).got ≡ 1 ∷ 2 ∷ 4 ∷ [] }
    ensures once { deliveries 1 4 (carried_on begun enters taken) ≡ 1 }
    ensures drops { (carried_on begun enters taken).drops ≡ [] }
    ensures left { copies_in 1 (carried_on begun enters taken).world.flights ≡ 0 }
{}
