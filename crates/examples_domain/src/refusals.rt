ghost use Rattle.std.specs.Prelude.{◌≡◌, nat_le, true, false, [], ◌∷◌, Some, None};
ghost use Rattle.wire_base.specs.declared.bsl.Bsl.TheVariants.{B64, B128};
ghost use Rattle.wire_base.specs.declared.faults.EdgeFault.TheVariants as edges;
ghost use Rattle.replay_text.specs.declared.event.Event.TheVariants.{Inject, Take, Again, Up, Down, Send, Tick};
ghost use Rattle.examples_model.specs.Domains.{pair, ring, fork};
ghost use Rattle.domain_model.specs.declared.fault.EventFault.TheVariants as faults;
ghost use Rattle.domain_model.specs.World.{WorldState, first_world, in_flight};
ghost use Rattle.domain_model.specs.Faults.{most_events, most_in_flight, event_fault};
ghost use Rattle.examples_domain.specs.Worlds.{after, enters, pair_sent, for_c};

/// Why events are rejected in the ring and the pair.
#[tactic(auto, unfolding(domain_model::specs::World::first_world, domain_model::specs::Step::happens, domain_model::specs::Faults::event_fault, domain_model::specs::World::in_flight, wire_base::specs::model::Flooding::first_control, wire_base::specs::model::Flooding::started, wire_base::specs::model::Flooding::new_flood, wire_base::specs::model::Flooding::mark_all, wire_base::specs::model::Flooding::forget, wire_base::specs::model::Flooding::send, wire_base::specs::model::Flooding::send_of, wire_base::specs::model::Flooding::sent_on, wire_base::specs::model::Flooding::on_pdu, wire_base::specs::model::Flooding::on_lsp, wire_base::specs::model::Flooding::on_csnp, wire_base::specs::model::Flooding::on_psnp, wire_base::specs::model::Flooding::on_list, wire_base::specs::model::Flooding::on_listed, wire_base::specs::model::Flooding::reissue, wire_base::specs::model::Flooding::reissue_unless_spent, wire_base::specs::model::Flooding::end_up, wire_base::specs::model::Flooding::end_down, wire_base::specs::model::Flooding::link_up, wire_base::specs::model::Flooding::link_down, wire_base::specs::model::Flooding::tick, wire_base::specs::model::Flooding::aged_all, wire_base::specs::model::Flooding::id_after, wire_base::specs::model::Flooding::restart, wire_base::specs::model::OwnLsp::own_lsp, wire_base::specs::model::OwnLsp::own_content, wire_base::specs::model::Checksum::check_sum, wire_base::specs::model::Pdu::row_tlvs, wire_base::specs::model::Pdu::blocks_within, domain_model::specs::Moves::outcomes_at, domain_model::specs::Moves::hop_made_at, domain_model::specs::Moves::inject_made, wire_base::specs::model::View::view_of, wire_base::specs::model::View::claims_of, wire_base::specs::model::Tlv::entries_of, wire_base::specs::model::Tlv::entries_within, wire_base::specs::model::Tlv::reach_at, wire_base::specs::model::Tlv::prefix_at, wire_base::specs::model::BierInfo::info_at, wire_base::specs::model::BierInfo::parts_within, wire_base::specs::model::BierInfo::take_part, wire_base::specs::model::BierInfo::any_overlap, wire_base::specs::model::Hop::hop, wire_base::specs::model::Walk::dist, wire_base::specs::model::Graph::owner, wire_base::specs::model::Graph::covers, wire_base::specs::model::Graph::node_bift, wire_base::specs::model::Tight::tight_from, wire_base::specs::model::Tight::next_step, wire_base::specs::model::Supporting::firsts, wire_base::specs::model::Choice::candidates, wire_base::specs::model::Choice::choice, wire_base::specs::model::Choice::is_direct, wire_base::specs::model::Item::ingress_header, wire_base::specs::model::Ingress::packets_for, wire_base::specs::model::Ingress::edge_fault))]
pub fn what_is_refused()
    ensures up { event_fault (first_world ring) (Up 0 1) ≡ Some faults.EndState }
    ensures down { event_fault (after (first_world ring) (Down 0 1)) (Down 0 1) ≡ Some faults.EndState }
    ensures sends { event_fault (after (first_world ring) (Down 0 1)) (Send 0 1) ≡ Some faults.EndState }
    ensures no_link { event_fault (first_world ring) (Take 0 2 0) ≡ Some faults.NoLink }
    ensures no_frame { event_fault (after pair_sent (Send 0 1)) (Take 0 1 5) ≡ Some (faults.NoFrame 5 3) }
    ensures last_frame { event_fault (after pair_sent (Send 0 1)) (Take 0 1 2) ≡ None }
    ensures packet { event_fault for_c (Again 0 1 0) ≡ Some faults.NotControl }
    ensures pdu { event_fault pair_sent (Again 0 1 0) ≡ None }
{}

/// Why an injection is rejected.
#[tactic(auto, unfolding(domain_model::specs::World::first_world, domain_model::specs::Step::happens, domain_model::specs::Faults::event_fault, domain_model::specs::World::in_flight, wire_base::specs::model::Flooding::first_control, wire_base::specs::model::Flooding::started, wire_base::specs::model::Flooding::new_flood, wire_base::specs::model::Flooding::mark_all, wire_base::specs::model::Flooding::forget, wire_base::specs::model::Flooding::send, wire_base::specs::model::Flooding::send_of, wire_base::specs::model::Flooding::sent_on, wire_base::specs::model::Flooding::on_pdu, wire_base::specs::model::Flooding::on_lsp, wire_base::specs::model::Flooding::on_csnp, wire_base::specs::model::Flooding::on_psnp, wire_base::specs::model::Flooding::on_list, wire_base::specs::model::Flooding::on_listed, wire_base::specs::model::Flooding::reissue, wire_base::specs::model::Flooding::reissue_unless_spent, wire_base::specs::model::Flooding::end_up, wire_base::specs::model::Flooding::end_down, wire_base::specs::model::Flooding::link_up, wire_base::specs::model::Flooding::link_down, wire_base::specs::model::Flooding::tick, wire_base::specs::model::Flooding::aged_all, wire_base::specs::model::Flooding::id_after, wire_base::specs::model::Flooding::restart, wire_base::specs::model::OwnLsp::own_lsp, wire_base::specs::model::OwnLsp::own_content, wire_base::specs::model::Checksum::check_sum, wire_base::specs::model::Pdu::row_tlvs, wire_base::specs::model::Pdu::blocks_within, wire_base::specs::model::Ingress::edge_fault))]
pub fn what_enters_nowhere()
    ensures large { event_fault (first_world ring) (enters (65535 ∷ []) 8 0) ≡ Some (faults.Edge (edges.SiLarge 65535)) }
    ensures nothing { event_fault (first_world ring) (enters [] 8 0) ≡ Some (faults.Edge edges.NoEgress) }
    ensures zero { event_fault (first_world ring) (enters (0 ∷ 65535 ∷ []) 8 0) ≡ Some (faults.Edge edges.IdZero) }
    ensures plain { event_fault (first_world fork) (Inject 1 0 B64 (3 ∷ []) 8 0 []) ≡ Some (faults.Edge edges.NotBfr) }
    ensures length { event_fault (first_world ring) (Inject 0 0 B128 (3 ∷ []) 8 0 []) ≡ Some (faults.Edge edges.BslUnknown) }
    ensures allowed { event_fault (first_world ring) (enters (3 ∷ []) 8 0) ≡ None }
{}

/// The reasons are reported in order.
#[tactic(auto, unfolding(domain_model::specs::Faults::event_fault, domain_model::specs::World::in_flight))]
pub fn what_is_refused_first()
    ensures events { (w : WorldState) → nat_le most_events w.events ≡ true → event_fault w (Take 0 2 0) ≡ Some faults.Events }
    ensures full { (w : WorldState) → nat_le most_events w.events ≡ false → nat_le most_in_flight (in_flight w.flights) ≡ true → event_fault w (enters [] 8 0) ≡ Some faults.InFlight }
    ensures ticks { (w : WorldState) → nat_le most_events w.events ≡ false → event_fault w (Tick 0) ≡ None }
{}
