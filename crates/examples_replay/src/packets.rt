ghost use Rattle.std.specs.Prelude.{◌≡◌, ◌++◌, ◌∷◌, [], codes};
ghost use Rattle.replay_text.specs.declared.event.Event.TheVariants.{Take, Lose};
ghost use Rattle.examples_domain.specs.Worlds.{ring_at_rest, fork_at_rest, enters, for_b_and_c, for_c};
ghost use Rattle.domain_replay.specs.Texts.{events_text};
ghost use Rattle.domain_model.specs.World.{ids_in_flight};
ghost use Rattle.examples_replay.specs.Schedules.{said};

/// A packet that A injects for B and C in the ring. B delivers its own copy. If the TTL expires there, B drops the
/// other; otherwise C delivers it.
#[tactic(auto, unfolding(domain_model::specs::World::first_world, domain_model::specs::Step::happens, domain_model::specs::Moves::outcomes_at, domain_model::specs::Moves::hop_made_at, domain_model::specs::Moves::inject_made, wire_base::specs::model::View::view_of, wire_base::specs::model::View::claims_of, wire_base::specs::model::OwnLsp::own_lsp, wire_base::specs::model::OwnLsp::own_content, wire_base::specs::model::Tlv::entries_of, wire_base::specs::model::Tlv::entries_within, wire_base::specs::model::Tlv::reach_at, wire_base::specs::model::Tlv::prefix_at, wire_base::specs::model::BierInfo::info_at, wire_base::specs::model::BierInfo::parts_within, wire_base::specs::model::BierInfo::take_part, wire_base::specs::model::BierInfo::any_overlap, wire_base::specs::model::Hop::hop, wire_base::specs::model::Walk::dist, wire_base::specs::model::Graph::owner, wire_base::specs::model::Graph::covers, wire_base::specs::model::Graph::node_bift, wire_base::specs::model::Tight::tight_from, wire_base::specs::model::Tight::next_step, wire_base::specs::model::Supporting::firsts, wire_base::specs::model::Choice::candidates, wire_base::specs::model::Choice::choice, wire_base::specs::model::Choice::is_direct, wire_base::specs::model::Item::ingress_header, wire_base::specs::model::Ingress::packets_for, wire_base::specs::model::Ingress::edge_fault, domain_replay::specs::Texts::events_text, domain_model::specs::World::ids_in_flight))]
pub fn packets_in_the_ring()
    ensures delivered { events_text ring_at_rest ((2, enters (3 ∷ []) 8 0) ∷ (4, Take 0 1 0) ∷ (4, Take 1 2 0) ∷ []) ≡ said (codes "4 got C 1 3 00ff") }
    ensures ended { events_text ring_at_rest ((2, enters (2 ∷ 3 ∷ []) 1 0) ∷ (3, Take 0 1 0) ∷ []) ≡ said (codes "3 got B 1 2 00ff") ++ said (codes "3 drop B 1 ttl 3") }
    ensures unknown { events_text ring_at_rest ((2, enters (9 ∷ []) 8 0) ∷ []) ≡ said (codes "2 drop A 1 none 9") }
    ensures flight { ids_in_flight for_b_and_c.flights ≡ 2 }
    ensures sent_on { ids_in_flight for_c.flights ≡ 1 }
{}

/// A packet that A injects in the fork is sent in tunnels through P, which is a non-BFR. Each copy is delivered once,
/// and one that is lost on the way to P is dropped there with its BFR-ids.
#[tactic(auto, unfolding(domain_model::specs::World::first_world, domain_model::specs::Step::happens, domain_model::specs::Moves::outcomes_at, domain_model::specs::Moves::hop_made_at, domain_model::specs::Moves::inject_made, wire_base::specs::model::View::view_of, wire_base::specs::model::View::claims_of, wire_base::specs::model::OwnLsp::own_lsp, wire_base::specs::model::OwnLsp::own_content, wire_base::specs::model::Tlv::entries_of, wire_base::specs::model::Tlv::entries_within, wire_base::specs::model::Tlv::reach_at, wire_base::specs::model::Tlv::prefix_at, wire_base::specs::model::BierInfo::info_at, wire_base::specs::model::BierInfo::parts_within, wire_base::specs::model::BierInfo::take_part, wire_base::specs::model::BierInfo::any_overlap, wire_base::specs::model::Hop::hop, wire_base::specs::model::Walk::dist, wire_base::specs::model::Graph::owner, wire_base::specs::model::Graph::covers, wire_base::specs::model::Graph::node_bift, wire_base::specs::model::Tight::tight_from, wire_base::specs::model::Tight::next_step, wire_base::specs::model::Supporting::firsts, wire_base::specs::model::Choice::candidates, wire_base::specs::model::Choice::choice, wire_base::specs::model::Choice::is_direct, wire_base::specs::model::Item::ingress_header, wire_base::specs::model::Ingress::packets_for, wire_base::specs::model::Ingress::edge_fault, domain_replay::specs::Texts::events_text, domain_model::specs::World::ids_in_flight))]
pub fn packets_in_the_fork()
    ensures delivered { events_text fork_at_rest ((2, enters (3 ∷ []) 8 0) ∷ (3, Take 0 1 0) ∷ (3, Take 1 2 0) ∷ []) ≡ said (codes "3 got C 1 3 00ff") }
    ensures both { events_text fork_at_rest ((2, enters (3 ∷ 4 ∷ []) 8 0) ∷ (3, Take 0 1 0) ∷ (3, Take 0 1 0) ∷ (3, Take 1 2 0) ∷ (3, Take 1 3 0) ∷ []) ≡ said (codes "3 got C 1 3 00ff") ++ said (codes "3 got D 1 4 00ff") }
    ensures lost { events_text fork_at_rest ((2, enters (3 ∷ []) 8 0) ∷ (3, Lose 0 1 0) ∷ []) ≡ said (codes "3 drop P 1 lost 3") }
{}
