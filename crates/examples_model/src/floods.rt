ghost use Rattle.std.specs.Prelude.{◌≡◌, ℕ, List, true, false, [], ◌∷◌, Some, None, map, drop};
ghost use Rattle.wire_base.specs.declared.cause.Cause.TheVariants as cause;
ghost use Rattle.wire_base.specs.declared.flood_out.FloodOut.TheVariants as out;
ghost use Rattle.wire_base.specs.declared.conf.RouterConf.{RouterConf};
ghost use Rattle.wire_base.specs.declared.entry.Entry.{Entry};
ghost use Rattle.wire_base.specs.model.Configuration.{IsSound};
ghost use Rattle.wire_base.specs.declared.conf.Level.TheVariants.{Two};
ghost use Rattle.wire_base.specs.model.Lists.{blocks};
ghost use Rattle.wire_base.specs.model.Pdu.{pdu};
ghost use Rattle.wire_base.specs.model.Control.{purge, is_full, entry_in, own_entry_in, seq_of, IsControl};
ghost use Rattle.wire_base.specs.model.OwnLsp.{own_lsp};
ghost use Rattle.wire_base.specs.model.Flooding.{on_lsp, on_pdu, id_after, wanted, first_control, lsp_of, reissue, restart, end_down, end_up, send_of, tick, csnps, csnp_of, zero_id, last_id};
ghost use Rattle.examples_model.specs.Domains.{lsp, system, pair_a, pair_b};
ghost use Rattle.examples_model.specs.Entries.{told};
ghost use Rattle.examples_model.specs.Floods.{no_flag, flags, head, summary, content, heard, told_by, told_whole, entry, flapped, aging, b_after_five};
ghost use Rattle.examples_model.specs.Vectors.{pair_b_psnp};

/// What an LSP received on the first of two links requests, and the LSDB after it.
#[tactic(auto, unfolding(wire_base::specs::model::Flooding::on_lsp, wire_base::specs::model::Flooding::mark_all))]
pub fn what_an_lsp_asks()
    ensures sequence_0 { (heard (entry 1 7 1200 500 ∷ []) false (head 1 0 1200 500)).answer ≡ out.Zero }
    ensures dead_unknown { (heard [] false (head 1 7 0 500)).answer ≡ out.Ack (summary 1 7 0 500) }
    ensures dead_unknown_stays { (heard [] false (head 1 7 0 500)).entries ≡ [] }
    ensures own_newer { (heard (entry 9 7 1200 500 ∷ []) false (head 9 8 1200 500)).answer ≡ out.Reissue 8 }
    ensures own_confused { (heard (entry 9 7 1200 500 ∷ []) false (head 9 7 1200 501)).answer ≡ out.Reissue 7 }
    ensures own_older { (heard (entry 9 7 1200 500 ∷ []) false (head 9 6 1200 500)).answer ≡ out.Kept }
    ensures own_when_spent { (heard (purge (lsp 9) 7 ∷ []) true (head 9 8 1200 500)).entries ≡ purge (lsp 9) 8 ∷ [] }
    ensures stray { (heard [] false (head 9 7 1200 500)).entries ≡ purge (lsp 9) 7 ∷ [] }
    ensures confused { (heard (entry 1 7 1200 500 ∷ []) false (head 1 7 900 501)).entries ≡ purge (lsp 1) 7 ∷ [] }
    ensures newer_dead { (heard (entry 1 7 1200 500 ∷ []) false (head 1 8 0 0)).entries ≡ purge (lsp 1) 8 ∷ [] }
    ensures equal_stays { (heard (entry 1 7 1200 500 ∷ []) false (head 1 7 30 500)).entries ≡ entry 1 7 1200 500 ∷ [] }
{}

/// Which flags an LSP received on the first of two links sets.
#[tactic(auto, unfolding(wire_base::specs::model::Flooding::on_lsp, wire_base::specs::model::Flooding::mark_all))]
pub fn which_flags_an_lsp_sets()
    ensures newer { (heard [] false (head 1 7 1200 500)).flood.rows ≡ flags 1 (false ∷ true ∷ []) (true ∷ false ∷ []) ∷ [] }
    ensures confused { (heard (entry 1 7 1200 500 ∷ []) false (head 1 7 900 501)).flood.rows ≡ flags 1 (true ∷ true ∷ []) (false ∷ false ∷ []) ∷ [] }
    ensures equal { (heard (entry 1 7 1200 500 ∷ []) false (head 1 7 30 500)).flood.rows ≡ flags 1 (false ∷ false ∷ []) (true ∷ false ∷ []) ∷ [] }
    ensures older { (heard (entry 1 7 1200 500 ∷ []) false (head 1 6 30 500)).flood.rows ≡ flags 1 (true ∷ false ∷ []) (false ∷ false ∷ []) ∷ [] }
{}

/// A full LSDB has no room for an unknown LSP, which is not acknowledged.
#[tactic(auto, unfolding(wire_base::specs::model::Flooding::on_lsp))]
pub fn a_full_database_takes_no_unknown_lsp()
    ensures { (entries : List Entry) → entry_in entries (lsp 1) ≡ None → is_full entries ≡ true → on_lsp no_flag entries 0 (head 1 7 1200 500) content false ≡ record { flood = no_flag; entries = entries; answer = out.Full } }
{}

/// The effects of the entries of a PSNP on the first link.
#[tactic(auto, unfolding(wire_base::specs::model::Flooding::on_psnp, wire_base::specs::model::Flooding::on_list, wire_base::specs::model::Flooding::on_listed, wire_base::specs::model::Flooding::mark_all, wire_base::specs::model::Pdu::row_tlvs, wire_base::specs::model::Pdu::blocks_within, wire_base::specs::model::Tlv::entries_of, wire_base::specs::model::Tlv::entries_within, wire_base::specs::model::Tlv::row_at))]
pub fn what_listed_entries_do()
    ensures asked { (told_by (entry 1 7 1200 500 ∷ []) (summary 1 0 0 0 ∷ [])).flood.rows ≡ flags 1 (true ∷ false ∷ []) (false ∷ false ∷ []) ∷ [] }
    ensures nothing_to_ask { (told_by [] (summary 1 0 0 0 ∷ [])).entries ≡ [] }
    ensures unknown { (told_by [] (summary 1 7 1200 500 ∷ [])).entries ≡ wanted (summary 1 7 1200 500) ∷ [] }
    ensures asks { (told_by [] (summary 1 7 1200 500 ∷ [])).flood.rows ≡ flags 1 (false ∷ false ∷ []) (true ∷ false ∷ []) ∷ [] }
    ensures unknown_dead { (told_by [] (summary 1 7 0 500 ∷ [])).entries ≡ [] }
    ensures own_confused { (told_by (entry 9 7 1200 500 ∷ []) (summary 9 7 1200 501 ∷ [])).answer.reissue ≡ Some 7 }
    ensures own_stays { (told_by (entry 9 7 1200 500 ∷ []) (summary 9 7 1200 501 ∷ [])).entries ≡ entry 9 7 1200 500 ∷ [] }
{}

/// A CSNP requests the LSPs that it lacks within its bounds, and an entry outside of them is treated like any other.
#[tactic(auto, unfolding(wire_base::specs::model::Flooding::on_csnp, wire_base::specs::model::Flooding::on_list, wire_base::specs::model::Flooding::on_listed, wire_base::specs::model::Pdu::row_tlvs, wire_base::specs::model::Pdu::blocks_within, wire_base::specs::model::Tlv::entries_of, wire_base::specs::model::Tlv::entries_within, wire_base::specs::model::Tlv::row_at))]
pub fn a_csnp_is_bounded()
    ensures lacking { (told_whole (entry 1 7 9 5 ∷ entry 2 7 9 5 ∷ entry 3 7 9 5 ∷ []) 2 2 []).flood.rows ≡ flags 2 (true ∷ false ∷ []) (false ∷ false ∷ []) ∷ [] }
    ensures outside { (told_whole (entry 1 7 9 5 ∷ []) 2 2 (summary 1 8 9 5 ∷ [])).flood.rows ≡ flags 1 (false ∷ false ∷ []) (true ∷ false ∷ []) ∷ [] }
    ensures dead { (told_whole (purge (lsp 2) 7 ∷ []) 2 2 []).flood.rows ≡ [] }
{}

/// LSP IDs are counted over all eight octets.
#[tactic(auto, unfolding(wire_base::specs::model::Flooding::id_after))]
pub fn the_identifier_after()
    ensures fragment { id_after (lsp 1) ≡ record (lsp 1) { fragment = 1 } }
    ensures carry { id_after (record { system = system 1; pseudonode = 255; fragment = 255 }) ≡ lsp 2 }
{}

/// Past the last sequence number the own LSP is purged, and the sequence number space is exhausted: the router originates
/// nothing until it restarts.
#[tactic(auto, unfolding(wire_base::specs::model::Flooding::reissue, wire_base::specs::model::Flooding::mark_all, wire_base::specs::model::Flooding::first_control, wire_base::specs::model::Flooding::started, wire_base::specs::model::Flooding::new_flood, wire_base::specs::model::Flooding::end_down, wire_base::specs::model::Flooding::reissue_unless_spent, wire_base::specs::model::Flooding::link_down, wire_base::specs::model::Flooding::restart, wire_base::specs::model::OwnLsp::own_lsp))]
pub fn the_last_sequence_number_is_purged()
    ensures entries { (reissue (first_control pair_a) 4294967295).entries ≡ purge (lsp 1) 4294967295 ∷ [] }
    ensures spent { (reissue (first_control pair_a) 4294967295).spent ≡ true }
    ensures stays { (end_down (reissue (first_control pair_a) 4294967295) 0).control.entries ≡ purge (lsp 1) 4294967295 ∷ [] }
    ensures restarts { (restart (reissue (first_control pair_a) 4294967295)).control ≡ first_control pair_a }
    ensures before { (reissue (first_control pair_a) 4294967294).entries ≡ own_lsp pair_a (true ∷ []) 4294967295 ∷ [] }
{}

/// A router that restarted receives its own LSP with sequence number 7, and originates it with 8.
#[tactic(auto, unfolding(wire_base::specs::model::Flooding::reissue, wire_base::specs::model::Flooding::on_pdu, wire_base::specs::model::Flooding::on_lsp, wire_base::specs::model::Flooding::mark_all, wire_base::specs::model::Flooding::first_control, wire_base::specs::model::Flooding::started, wire_base::specs::model::Flooding::new_flood, wire_base::specs::model::OwnLsp::own_lsp))]
pub fn a_restarted_router_passes_its_old_lsp()
    ensures { own_entry_in (on_pdu (first_control pair_a) 0 (lsp_of (own_lsp pair_a (true ∷ []) 7))).control ≡ Some (own_lsp pair_a (true ∷ []) 8) }
{}

/// B of the pair receives A's LSP. Five seconds later it sends its CSNP, its own LSP and the acknowledgement, in this order.
#[tactic(auto, unfolding(wire_base::specs::model::Flooding::first_control, wire_base::specs::model::Flooding::started, wire_base::specs::model::Flooding::new_flood, wire_base::specs::model::Flooding::mark_all, wire_base::specs::model::Flooding::forget, wire_base::specs::model::Flooding::send, wire_base::specs::model::Flooding::send_of, wire_base::specs::model::Flooding::sent_on, wire_base::specs::model::Flooding::on_pdu, wire_base::specs::model::Flooding::on_lsp, wire_base::specs::model::Flooding::reissue, wire_base::specs::model::Flooding::reissue_unless_spent, wire_base::specs::model::Flooding::end_up, wire_base::specs::model::Flooding::end_down, wire_base::specs::model::Flooding::link_up, wire_base::specs::model::Flooding::link_down, wire_base::specs::model::Flooding::tick, wire_base::specs::model::Flooding::aged_all, wire_base::specs::model::Flooding::id_after, wire_base::specs::model::OwnLsp::own_lsp, wire_base::specs::model::OwnLsp::own_content, wire_base::specs::model::Checksum::check_sum, wire_base::specs::model::Pdu::row_tlvs, wire_base::specs::model::Pdu::blocks_within))]
pub fn pair_acknowledges_an_lsp()
    ensures sent { drop 2 (map (pdu Two) (send_of b_after_five 0)) ≡ pair_b_psnp ∷ [] }
{}

/// Each change of an interface originates the own LSP again; three times down and up make the sequence number 7.
#[tactic(auto, unfolding(wire_base::specs::model::Flooding::first_control, wire_base::specs::model::Flooding::started, wire_base::specs::model::Flooding::new_flood, wire_base::specs::model::Flooding::mark_all, wire_base::specs::model::Flooding::forget, wire_base::specs::model::Flooding::send, wire_base::specs::model::Flooding::send_of, wire_base::specs::model::Flooding::sent_on, wire_base::specs::model::Flooding::on_pdu, wire_base::specs::model::Flooding::on_lsp, wire_base::specs::model::Flooding::reissue, wire_base::specs::model::Flooding::reissue_unless_spent, wire_base::specs::model::Flooding::end_up, wire_base::specs::model::Flooding::end_down, wire_base::specs::model::Flooding::link_up, wire_base::specs::model::Flooding::link_down, wire_base::specs::model::Flooding::tick, wire_base::specs::model::Flooding::aged_all, wire_base::specs::model::Flooding::id_after, wire_base::specs::model::OwnLsp::own_lsp))]
pub fn ends_issue_the_own_lsp()
    ensures sequence { seq_of (own_entry_in (flapped (flapped (flapped (first_control pair_a))))) ≡ 7 }
    ensures due { (flapped (first_control pair_a)).flood.due ≡ true ∷ [] }
    ensures down { (end_down (first_control pair_a) 0).control.flood ≡ record { own = system 1; up = false ∷ []; due = false ∷ []; rows = flags 1 (false ∷ []) (false ∷ []) ∷ [] } }
    ensures content { own_entry_in (flapped (first_control pair_a)) ≡ Some (own_lsp pair_a (true ∷ []) 3) }
{}

/// The own LSP is refreshed at 300 seconds. Another LSP that expires is marked on all links. A purge that ends loses its flags.
#[tactic(auto, unfolding(wire_base::specs::model::Flooding::first_control, wire_base::specs::model::Flooding::started, wire_base::specs::model::Flooding::new_flood, wire_base::specs::model::Flooding::mark_all, wire_base::specs::model::Flooding::forget, wire_base::specs::model::Flooding::send, wire_base::specs::model::Flooding::send_of, wire_base::specs::model::Flooding::sent_on, wire_base::specs::model::Flooding::on_pdu, wire_base::specs::model::Flooding::on_lsp, wire_base::specs::model::Flooding::reissue, wire_base::specs::model::Flooding::reissue_unless_spent, wire_base::specs::model::Flooding::end_up, wire_base::specs::model::Flooding::end_down, wire_base::specs::model::Flooding::link_up, wire_base::specs::model::Flooding::link_down, wire_base::specs::model::Flooding::tick, wire_base::specs::model::Flooding::aged_all, wire_base::specs::model::Flooding::id_after, wire_base::specs::model::OwnLsp::own_lsp))]
pub fn a_second_passes()
    ensures refreshes { (tick (aging (own_lsp pair_a (true ∷ []) 1) 301)).control.entries ≡ own_lsp pair_a (true ∷ []) 2 ∷ [] }
    ensures waits { (tick (aging (own_lsp pair_a (true ∷ []) 1) 302)).control.entries ≡ record (own_lsp pair_a (true ∷ []) 1) { life = 301 } ∷ [] }
    ensures expires { (tick (aging (entry 2 7 9 5) 1)).control.entries ≡ purge (lsp 2) 7 ∷ [] }
    ensures marked { (tick (aging (entry 2 7 9 5) 1)).control.flood.rows ≡ flags 2 (true ∷ []) (false ∷ []) ∷ [] }
    ensures goes { (tick (aging (record (purge (lsp 2) 7) { hold = 1 }) 0)).control ≡ record (aging (purge (lsp 2) 7) 0) { entries = []; flood = record no_flag { own = system 1; up = true ∷ []; due = false ∷ []; rows = [] } } }
{}

/// CSNPs of several blocks cover all LSP IDs: each begins directly after the last entry of the one before.
#[tactic(auto, unfolding(wire_base::specs::model::Flooding::id_after))]
pub fn csnps_cover_all_identifiers()
    ensures two { csnps (first_control pair_a) zero_id ((summary 1 7 9 5 ∷ summary 2 7 9 5 ∷ []) ∷ (summary 4 7 9 5 ∷ []) ∷ [])
        ≡ csnp_of (first_control pair_a) zero_id (lsp 2) (summary 1 7 9 5 ∷ summary 2 7 9 5 ∷ [])
        ∷ csnp_of (first_control pair_a) (record (lsp 2) { fragment = 1 }) last_id (summary 4 7 9 5 ∷ []) ∷ [] }
    ensures none { csnps (first_control pair_a) zero_id [] ≡ csnp_of (first_control pair_a) zero_id last_id [] ∷ [] }
    ensures blocks { blocks {X = ℕ} 2 (1 ∷ 2 ∷ 3 ∷ 4 ∷ 5 ∷ []) ≡ (1 ∷ 2 ∷ []) ∷ (3 ∷ 4 ∷ []) ∷ (5 ∷ []) ∷ [] }
{}

/// The first state of a router satisfies the invariant of control states.
pub fn first_state_is_a_control_state()
    ensures { (r : RouterConf) → IsSound r → IsControl (first_control r) }
{}
