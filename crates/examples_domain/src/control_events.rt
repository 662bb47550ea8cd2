ghost use Rattle.std.specs.Prelude.{◌≡◌, length, map, true, false, [], ◌∷◌, None};
ghost use Rattle.wire_base.specs.declared.cause.Cause.TheVariants as cause;
ghost use Rattle.wire_base.specs.declared.conf.Level.TheVariants.{Two};
ghost use Rattle.wire_base.specs.model.Item.{frame_of};
ghost use Rattle.replay_text.specs.declared.event.Event.TheVariants.{Take, Lose, Again, Down, Send};
ghost use Rattle.examples_model.specs.Domains.{end, pair};
ghost use Rattle.examples_model.specs.Frames.{pair_csnp_frame, pair_lsp_frame};
ghost use Rattle.domain_model.specs.World.{first_world, frames_between};
ghost use Rattle.domain_model.specs.Moves.{none_made};
ghost use Rattle.domain_model.specs.Step.{happens};
ghost use Rattle.examples_domain.specs.Worlds.{after, pair_sent, entries_at};

/// In the pair A sends its CSNP and its LSP toward B.
#[tactic(auto, unfolding(domain_model::specs::World::first_world, domain_model::specs::Step::happens, wire_base::specs::model::Flooding::first_control, wire_base::specs::model::Flooding::started, wire_base::specs::model::Flooding::new_flood, wire_base::specs::model::Flooding::mark_all, wire_base::specs::model::Flooding::forget, wire_base::specs::model::Flooding::send, wire_base::specs::model::Flooding::send_of, wire_base::specs::model::Flooding::sent_on, wire_base::specs::model::Flooding::on_pdu, wire_base::specs::model::Flooding::on_lsp, wire_base::specs::model::Flooding::on_csnp, wire_base::specs::model::Flooding::on_psnp, wire_base::specs::model::Flooding::on_list, wire_base::specs::model::Flooding::on_listed, wire_base::specs::model::Flooding::reissue, wire_base::specs::model::Flooding::reissue_unless_spent, wire_base::specs::model::Flooding::end_up, wire_base::specs::model::Flooding::end_down, wire_base::specs::model::Flooding::link_up, wire_base::specs::model::Flooding::link_down, wire_base::specs::model::Flooding::tick, wire_base::specs::model::Flooding::aged_all, wire_base::specs::model::Flooding::id_after, wire_base::specs::model::Flooding::restart, wire_base::specs::model::OwnLsp::own_lsp, wire_base::specs::model::OwnLsp::own_content, wire_base::specs::model::Checksum::check_sum, wire_base::specs::model::Pdu::row_tlvs, wire_base::specs::model::Pdu::blocks_within, wire_base::specs::model::Item::frame_of))]
pub fn pair_sends()
    ensures frames { map (λ s. frame_of Two (end 1 2) s.item) (happens (first_world pair) (Send 0 1)).made.sent ≡ pair_csnp_frame ∷ pair_lsp_frame ∷ [] }
    ensures from { map (λ s. s.from) (happens (first_world pair) (Send 0 1)).made.sent ≡ 0 ∷ 0 ∷ [] }
    ensures to { map (λ s. s.to) (happens (first_world pair) (Send 0 1)).made.sent ≡ 1 ∷ 1 ∷ [] }
    ensures on_the_way { length (frames_between pair_sent 0 1) ≡ 2 }
    ensures other_way { frames_between pair_sent 1 0 ≡ [] }
    ensures counted { pair_sent.events ≡ 1 }
{}

/// A frame that is lost is dropped by the router that it was for, and is removed.
#[tactic(auto, unfolding(domain_model::specs::World::first_world, domain_model::specs::Step::happens, wire_base::specs::model::Flooding::first_control, wire_base::specs::model::Flooding::started, wire_base::specs::model::Flooding::new_flood, wire_base::specs::model::Flooding::mark_all, wire_base::specs::model::Flooding::forget, wire_base::specs::model::Flooding::send, wire_base::specs::model::Flooding::send_of, wire_base::specs::model::Flooding::sent_on, wire_base::specs::model::Flooding::on_pdu, wire_base::specs::model::Flooding::on_lsp, wire_base::specs::model::Flooding::on_csnp, wire_base::specs::model::Flooding::on_psnp, wire_base::specs::model::Flooding::on_list, wire_base::specs::model::Flooding::on_listed, wire_base::specs::model::Flooding::reissue, wire_base::specs::model::Flooding::reissue_unless_spent, wire_base::specs::model::Flooding::end_up, wire_base::specs::model::Flooding::end_down, wire_base::specs::model::Flooding::link_up, wire_base::specs::model::Flooding::link_down, wire_base::specs::model::Flooding::tick, wire_base::specs::model::Flooding::aged_all, wire_base::specs::model::Flooding::id_after, wire_base::specs::model::Flooding::restart, wire_base::specs::model::OwnLsp::own_lsp, wire_base::specs::model::OwnLsp::own_content, wire_base::specs::model::Checksum::check_sum, wire_base::specs::model::Pdu::row_tlvs, wire_base::specs::model::Pdu::blocks_within))]
pub fn a_lost_pdu()
    ensures made { (happens pair_sent (Lose 0 1 0)).made ≡ record none_made { drops = record { router = 1; injection = None; cause = cause.Lost; ids = [] } ∷ [] } }
    ensures left { length (frames_between (after pair_sent (Lose 0 1 0)) 0 1) ≡ 1 }
{}

/// A PDU that is duplicated is queued after all others, and nothing counts as sent.
#[tactic(auto, unfolding(domain_model::specs::World::first_world, domain_model::specs::Step::happens, wire_base::specs::model::Flooding::first_control, wire_base::specs::model::Flooding::started, wire_base::specs::model::Flooding::new_flood, wire_base::specs::model::Flooding::mark_all, wire_base::specs::model::Flooding::forget, wire_base::specs::model::Flooding::send, wire_base::specs::model::Flooding::send_of, wire_base::specs::model::Flooding::sent_on, wire_base::specs::model::Flooding::on_pdu, wire_base::specs::model::Flooding::on_lsp, wire_base::specs::model::Flooding::on_csnp, wire_base::specs::model::Flooding::on_psnp, wire_base::specs::model::Flooding::on_list, wire_base::specs::model::Flooding::on_listed, wire_base::specs::model::Flooding::reissue, wire_base::specs::model::Flooding::reissue_unless_spent, wire_base::specs::model::Flooding::end_up, wire_base::specs::model::Flooding::end_down, wire_base::specs::model::Flooding::link_up, wire_base::specs::model::Flooding::link_down, wire_base::specs::model::Flooding::tick, wire_base::specs::model::Flooding::aged_all, wire_base::specs::model::Flooding::id_after, wire_base::specs::model::Flooding::restart, wire_base::specs::model::OwnLsp::own_lsp, wire_base::specs::model::OwnLsp::own_content, wire_base::specs::model::Checksum::check_sum, wire_base::specs::model::Pdu::row_tlvs, wire_base::specs::model::Pdu::blocks_within))]
pub fn a_pdu_comes_again()
    ensures made { (happens pair_sent (Again 0 1 0)).made ≡ none_made }
    ensures stands { length (frames_between (after pair_sent (Again 0 1 0)) 0 1) ≡ 3 }
{}

/// A frame that arrives at an interface that is down is dropped. At one that is up the router receives it, and here
/// requests A's LSP.
#[tactic(auto, unfolding(domain_model::specs::World::first_world, domain_model::specs::Step::happens, wire_base::specs::model::Flooding::first_control, wire_base::specs::model::Flooding::started, wire_base::specs::model::Flooding::new_flood, wire_base::specs::model::Flooding::mark_all, wire_base::specs::model::Flooding::forget, wire_base::specs::model::Flooding::send, wire_base::specs::model::Flooding::send_of, wire_base::specs::model::Flooding::sent_on, wire_base::specs::model::Flooding::on_pdu, wire_base::specs::model::Flooding::on_lsp, wire_base::specs::model::Flooding::on_csnp, wire_base::specs::model::Flooding::on_psnp, wire_base::specs::model::Flooding::on_list, wire_base::specs::model::Flooding::on_listed, wire_base::specs::model::Flooding::reissue, wire_base::specs::model::Flooding::reissue_unless_spent, wire_base::specs::model::Flooding::end_up, wire_base::specs::model::Flooding::end_down, wire_base::specs::model::Flooding::link_up, wire_base::specs::model::Flooding::link_down, wire_base::specs::model::Flooding::tick, wire_base::specs::model::Flooding::aged_all, wire_base::specs::model::Flooding::id_after, wire_base::specs::model::Flooding::restart, wire_base::specs::model::OwnLsp::own_lsp, wire_base::specs::model::OwnLsp::own_content, wire_base::specs::model::Checksum::check_sum, wire_base::specs::model::Pdu::row_tlvs, wire_base::specs::model::Pdu::blocks_within, wire_base::specs::model::Tlv::entries_of, wire_base::specs::model::Tlv::entries_within, wire_base::specs::model::Tlv::row_at))]
pub fn a_pdu_arrives()
    ensures down { (happens (after pair_sent (Down 1 0)) (Take 0 1 0)).made ≡ record none_made { drops = record { router = 1; injection = None; cause = cause.Link; ids = [] } ∷ [] } }
    ensures left { length (frames_between (after pair_sent (Take 0 1 0)) 0 1) ≡ 1 }
    ensures known { entries_at (after pair_sent (Take 0 1 0)) 1 ≡ 2 }
    ensures sender { entries_at (after pair_sent (Take 0 1 0)) 0 ≡ 1 }
{}
