ghost use Rattle.std.specs.Prelude.{◌≡◌, [], ◌∷◌, Some, None};
ghost use Rattle.wire_base.specs.declared.bsl.Bsl.TheVariants.{B64, B128, B256};
ghost use Rattle.wire_base.specs.declared.conf.Level.TheVariants.{Two};
ghost use Rattle.wire_base.specs.declared.faults.EdgeFault.TheVariants.{NoEgress, IdZero, SiLarge, NotBfr, BslUnknown};
ghost use Rattle.wire_base.specs.model.Ingress.{packets_for, edge_fault, inject};
ghost use Rattle.wire_base.specs.model.OnFrame.{nothing, one_sent};
ghost use Rattle.examples_model.specs.Domains.{ring_a, fork_a, fork_p};
ghost use Rattle.examples_model.specs.Views.{ring_lsps};
ghost use Rattle.examples_model.specs.Frames.{ring_a_to_b, ring_a_to_d, fork_a_to_c, fork_a_to_d, settled, fork_lsps};

/// BFR-ids of two sets result in two packets, each BFR-id once.
#[tactic(auto, unfolding(wire_base::specs::model::Ingress::packets_for))]
pub fn one_packet_for_each_set()
    ensures { packets_for 0 B256 (257 ∷ 256 ∷ 257 ∷ []) ≡ record { triple = record { sd = 0; bsl = B256; si = 0 }; ids = 256 ∷ [] } ∷ record { triple = record { sd = 0; bsl = B256; si = 1 }; ids = 257 ∷ [] } ∷ [] }
{}

/// The first reason for which no packet enters.
#[tactic(auto, unfolding(wire_base::specs::model::Ingress::edge_fault))]
pub fn why_nothing_enters()
    ensures empty { edge_fault ring_a 0 B64 [] ≡ Some NoEgress }
    ensures zero { edge_fault ring_a 0 B64 (0 ∷ 65535 ∷ []) ≡ Some IdZero }
    ensures large { edge_fault ring_a 0 B64 (16385 ∷ 65535 ∷ []) ≡ Some (SiLarge 16385) }
    ensures last { edge_fault ring_a 0 B64 (16384 ∷ []) ≡ None }
    ensures plain { edge_fault fork_p 0 B64 (3 ∷ []) ≡ Some NotBfr }
    ensures length { edge_fault ring_a 0 B128 (3 ∷ []) ≡ Some BslUnknown }
    ensures none { edge_fault ring_a 0 B64 (3 ∷ []) ≡ None }
{}

/// In the ring the entropy selects the path from A to C; in the fork both copies are sent in tunnels.
#[tactic(auto, unfolding(wire_base::specs::model::View::view_of, wire_base::specs::model::View::claims_of, wire_base::specs::model::OwnLsp::own_lsp, wire_base::specs::model::OwnLsp::own_content, wire_base::specs::model::Tlv::entries_of, wire_base::specs::model::Tlv::entries_within, wire_base::specs::model::Tlv::reach_at, wire_base::specs::model::Tlv::prefix_at, wire_base::specs::model::BierInfo::info_at, wire_base::specs::model::BierInfo::parts_within, wire_base::specs::model::BierInfo::take_part, wire_base::specs::model::BierInfo::any_overlap, wire_base::specs::model::OnFrame::on_frame, wire_base::specs::model::OnFrame::on_packet, wire_base::specs::model::OnFrame::on_tunnel, wire_base::specs::model::OnFrame::hop_at, wire_base::specs::model::OnFrame::framed, wire_base::specs::model::Ethernet::frame_at, wire_base::specs::model::BierHeader::header_at, wire_base::specs::model::BitSet::set_of, wire_base::specs::model::BitSet::octets_of, wire_base::specs::model::Place::means, wire_base::specs::model::Hop::hop, wire_base::specs::model::Tunnel::tunnel_at, wire_base::specs::model::Tunnel::tunnel_on, wire_base::specs::model::Tunnel::tunnel_head, wire_base::specs::model::Walk::dist, wire_base::specs::model::Graph::owner, wire_base::specs::model::Graph::covers, wire_base::specs::model::Graph::node_bift, wire_base::specs::model::Tight::tight_from, wire_base::specs::model::Tight::next_step, wire_base::specs::model::Supporting::firsts, wire_base::specs::model::Choice::candidates, wire_base::specs::model::Choice::choice, wire_base::specs::model::Choice::is_direct, wire_base::specs::model::Item::frame_of, wire_base::specs::model::Item::ingress_header, wire_base::specs::model::Ingress::packets_for, wire_base::specs::model::Ingress::inject))]
pub fn packets_enter()
    ensures even { inject (settled ring_a ring_lsps) 0 B64 (3 ∷ []) 8 0 (0 ∷ 255 ∷ []) ≡ one_sent 0 ring_a_to_b }
    ensures odd { inject (settled ring_a ring_lsps) 0 B64 (3 ∷ []) 8 1 (0 ∷ 255 ∷ []) ≡ one_sent 1 ring_a_to_d }
    ensures fork { inject (settled fork_a fork_lsps) 0 B64 (4 ∷ 3 ∷ []) 8 0 (0 ∷ 255 ∷ []) ≡ record nothing { sent = record { link = 0; octets = fork_a_to_c } ∷ record { link = 0; octets = fork_a_to_d } ∷ [] } }
{}
