ghost use Rattle.std.specs.Prelude.{◌≡◌, true, false, [], ◌∷◌};
ghost use Rattle.wire_base.specs.model.Control.{purge};
ghost use Rattle.wire_base.specs.model.OwnLsp.{own_lsp};
ghost use Rattle.wire_base.specs.model.View.{view_of};
ghost use Rattle.examples_model.specs.Domains.{lsp, pair_a, pair_b, ring_a, ring_c, line_a, line_b, line_c};
ghost use Rattle.examples_model.specs.Floods.{a_heard, b_settled};
ghost use Rattle.examples_model.specs.Views.{edge, sub, node, all_up, first_lsp, ring_lsps, ring_view, line_view, lsp_with, seen, reach_to, links, prefix_with, prefixes, info, two_labels, a_alone};

/// In the settled ring every router has the topology of four nodes, each with its two neighbors.
#[tactic(auto, unfolding(wire_base::specs::model::View::view_of, wire_base::specs::model::View::claims_of, wire_base::specs::model::OwnLsp::own_lsp, wire_base::specs::model::OwnLsp::own_content, wire_base::specs::model::Tlv::entries_of, wire_base::specs::model::Tlv::entries_within, wire_base::specs::model::Tlv::reach_at, wire_base::specs::model::Tlv::prefix_at, wire_base::specs::model::BierInfo::info_at, wire_base::specs::model::BierInfo::parts_within, wire_base::specs::model::BierInfo::take_part, wire_base::specs::model::BierInfo::any_overlap))]
pub fn ring_settled_view()
    ensures a { view_of ring_a all_up ring_lsps ≡ ring_view }
    ensures c { view_of ring_c all_up ring_lsps ≡ ring_view }
{}

/// In the line the router in the middle has its overload bit set, but is still a node with its edges.
#[tactic(auto, unfolding(wire_base::specs::model::View::view_of, wire_base::specs::model::View::claims_of, wire_base::specs::model::OwnLsp::own_lsp, wire_base::specs::model::OwnLsp::own_content, wire_base::specs::model::Tlv::entries_of, wire_base::specs::model::Tlv::entries_within, wire_base::specs::model::Tlv::reach_at, wire_base::specs::model::Tlv::prefix_at, wire_base::specs::model::BierInfo::info_at, wire_base::specs::model::BierInfo::parts_within, wire_base::specs::model::BierInfo::take_part, wire_base::specs::model::BierInfo::any_overlap))]
pub fn line_settled_view()
    ensures { view_of line_a all_up (first_lsp line_a ∷ first_lsp line_b ∷ first_lsp line_c ∷ []) ≡ line_view }
{}

/// A link counts if both sides list it; an interface that is down lists nothing; an expired LSP makes no node.
#[tactic(auto, unfolding(wire_base::specs::model::View::view_of, wire_base::specs::model::View::claims_of, wire_base::specs::model::OwnLsp::own_lsp, wire_base::specs::model::OwnLsp::own_content, wire_base::specs::model::Tlv::entries_of, wire_base::specs::model::Tlv::entries_within, wire_base::specs::model::Tlv::reach_at, wire_base::specs::model::Tlv::prefix_at, wire_base::specs::model::BierInfo::info_at, wire_base::specs::model::BierInfo::parts_within, wire_base::specs::model::BierInfo::take_part, wire_base::specs::model::BierInfo::any_overlap))]
pub fn links_count_where_both_list_them()
    ensures both { seen (links (reach_to 1 7 ∷ []) ∷ []) ≡ node 1 false (edge 1 ∷ []) (sub 1 100 ∷ []) ∷ node 2 false (record { to = 0; metric = 7 } ∷ []) [] ∷ [] }
    ensures one { seen [] ≡ a_alone ∷ node 2 false [] [] ∷ [] }
    ensures down { view_of pair_a (false ∷ []) (lsp_with (links (reach_to 1 7 ∷ []) ∷ []) ∷ []) ≡ a_alone ∷ node 2 false [] [] ∷ [] }
    ensures dead { view_of pair_a (true ∷ []) (purge (lsp 2) 7 ∷ []) ≡ a_alone ∷ [] }
{}

/// A metric of 0 counts as 1; of several links the least metric counts; a link of the greatest metric is ignored, and so is a link
/// to a pseudonode; a system that lists itself has an edge to itself; and an invalid entry ends its TLV.
#[tactic(auto, unfolding(wire_base::specs::model::View::view_of, wire_base::specs::model::View::claims_of, wire_base::specs::model::OwnLsp::own_lsp, wire_base::specs::model::OwnLsp::own_content, wire_base::specs::model::Tlv::entries_of, wire_base::specs::model::Tlv::entries_within, wire_base::specs::model::Tlv::reach_at, wire_base::specs::model::Tlv::prefix_at, wire_base::specs::model::BierInfo::info_at, wire_base::specs::model::BierInfo::parts_within, wire_base::specs::model::BierInfo::take_part, wire_base::specs::model::BierInfo::any_overlap))]
pub fn which_links_are_read()
    ensures zero { seen (links (reach_to 1 0 ∷ []) ∷ []) ≡ node 1 false (edge 1 ∷ []) (sub 1 100 ∷ []) ∷ node 2 false (record { to = 0; metric = 1 } ∷ []) [] ∷ [] }
    ensures least { seen (links (reach_to 1 9 ∷ reach_to 1 4 ∷ []) ∷ links (reach_to 1 6 ∷ []) ∷ []) ≡ node 1 false (edge 1 ∷ []) (sub 1 100 ∷ []) ∷ node 2 false (record { to = 0; metric = 4 } ∷ []) [] ∷ [] }
    ensures greatest { seen (links (reach_to 1 16777215 ∷ []) ∷ []) ≡ a_alone ∷ node 2 false [] [] ∷ [] }
    ensures pseudonode { seen (links (record (reach_to 1 7) { pseudonode = 1 } ∷ []) ∷ []) ≡ a_alone ∷ node 2 false [] [] ∷ [] }
    ensures itself { seen (links (reach_to 2 7 ∷ []) ∷ []) ≡ a_alone ∷ node 2 false (record { to = 1; metric = 7 } ∷ []) [] ∷ [] }
    ensures cut { seen (record { code = 22; value = 0 ∷ 0 ∷ 0 ∷ 0 ∷ 0 ∷ 1 ∷ 0 ∷ 0 ∷ 0 ∷ 7 ∷ 1 ∷ [] } ∷ []) ≡ a_alone ∷ node 2 false [] [] ∷ [] }
{}

/// Which memberships of sub-domains count: none of a system whose labels overlap, those of known sub-domains, the first of each,
/// and no prefix of two systems.
#[tactic(auto, unfolding(wire_base::specs::model::View::view_of, wire_base::specs::model::View::claims_of, wire_base::specs::model::OwnLsp::own_lsp, wire_base::specs::model::OwnLsp::own_content, wire_base::specs::model::Tlv::entries_of, wire_base::specs::model::Tlv::entries_within, wire_base::specs::model::Tlv::reach_at, wire_base::specs::model::Tlv::prefix_at, wire_base::specs::model::BierInfo::info_at, wire_base::specs::model::BierInfo::parts_within, wire_base::specs::model::BierInfo::take_part, wire_base::specs::model::BierInfo::any_overlap))]
pub fn which_places_count()
    ensures counts { seen (prefixes (prefix_with 2 (info 0 2 [] ∷ []) ∷ []) ∷ []) ≡ a_alone ∷ node 2 false [] (record (sub 2 0) { ranges = [] } ∷ []) ∷ [] }
    ensures first { seen (prefixes (prefix_with 2 (info 0 2 [] ∷ []) ∷ prefix_with 3 (info 0 3 [] ∷ []) ∷ []) ∷ []) ≡ a_alone ∷ node 2 false [] (record (sub 2 0) { ranges = [] } ∷ []) ∷ [] }
    ensures unknown { seen (prefixes (prefix_with 2 (info 1 2 [] ∷ []) ∷ []) ∷ []) ≡ a_alone ∷ node 2 false [] [] ∷ [] }
    ensures overlap { seen (prefixes (prefix_with 2 (info 0 2 (two_labels 100 ∷ []) ∷ info 1 2 (two_labels 101 ∷ []) ∷ []) ∷ []) ∷ []) ≡ a_alone ∷ node 2 false [] [] ∷ [] }
    ensures shared { seen (prefixes (prefix_with 1 (info 0 2 [] ∷ []) ∷ []) ∷ []) ≡ node 1 false [] [] ∷ node 2 false [] [] ∷ [] }
    ensures bits { seen (prefixes (record (prefix_with 2 (info 0 2 [] ∷ [])) { control = 88; octets = 10 ∷ 0 ∷ 0 ∷ 0 ∷ [] } ∷ []) ∷ []) ≡ a_alone ∷ node 2 false [] [] ∷ [] }
{}

/// In the pair both have both LSPs once A, B and A have sent, and then have the same topology.
#[tactic(auto, unfolding(wire_base::specs::model::Flooding::first_control, wire_base::specs::model::Flooding::started, wire_base::specs::model::Flooding::new_flood, wire_base::specs::model::Flooding::mark_all, wire_base::specs::model::Flooding::send, wire_base::specs::model::Flooding::send_of, wire_base::specs::model::Flooding::sent_on, wire_base::specs::model::Flooding::on_pdu, wire_base::specs::model::Flooding::on_lsp, wire_base::specs::model::Flooding::on_csnp, wire_base::specs::model::Flooding::on_psnp, wire_base::specs::model::Flooding::on_list, wire_base::specs::model::Flooding::on_listed, wire_base::specs::model::Flooding::reissue, wire_base::specs::model::OwnLsp::own_lsp, wire_base::specs::model::OwnLsp::own_content, wire_base::specs::model::Checksum::check_sum, wire_base::specs::model::Pdu::row_tlvs, wire_base::specs::model::Pdu::blocks_within, wire_base::specs::model::Tlv::entries_of, wire_base::specs::model::Tlv::entries_within, wire_base::specs::model::Tlv::row_at))]
pub fn pair_settles()
    ensures a { a_heard.entries ≡ own_lsp pair_a (true ∷ []) 1 ∷ own_lsp pair_b (true ∷ []) 1 ∷ [] }
    ensures b { b_settled.entries ≡ own_lsp pair_a (true ∷ []) 1 ∷ own_lsp pair_b (true ∷ []) 1 ∷ [] }
{}
