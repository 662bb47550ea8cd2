//! Tests of the shared definitions on small domains: functions that compute nothing, and whose clauses are proved by
//! computing the definition. `routers` has router A of two of the domains as a value.
#![tactic(auto)]

mod configurations;
mod databases;
mod floods;
mod frames;
mod ingresses;
mod own_lsps;
mod packets;
mod routers;
mod tunnels;
mod views;

pub use configurations::{
    labels_that_touch, metric_0_is_unsound, pair_is_valid, ring_is_valid,
    what_a_router_that_left_means, what_earlier_labels_mean, what_labels_mean,
};
pub use databases::{
    ages, entries_age_by_seconds, equal_sequence_unequal_sums_is_confused, rows_of_flags,
};
pub use floods::{
    a_csnp_is_bounded, a_full_database_takes_no_unknown_lsp, a_restarted_router_passes_its_old_lsp,
    a_second_passes, csnps_cover_all_identifiers, ends_issue_the_own_lsp,
    first_state_is_a_control_state, pair_acknowledges_an_lsp, the_identifier_after,
    the_last_sequence_number_is_purged, what_an_lsp_asks, what_listed_entries_do,
    which_flags_an_lsp_sets,
};
pub use frames::{
    fork_sends_a_tunnel_on, frames_of_items, pair_takes_an_lsp, ring_delivers, the_ttl_ends,
    what_is_dropped,
};
pub use ingresses::{one_packet_for_each_set, packets_enter, why_nothing_enters};
pub use own_lsps::{pair_first_csnp, pair_first_lsp, pair_first_lsp_content, plain_router_lsp};
pub use packets::{
    a_bit_has_two_hops, a_capture_of_one_frame, a_packet_behind_a_label, an_empty_tlv_fits,
    octets_of_positions, places_of_bfr_ids,
};
pub use routers::{end_of_a, ring_router_a, router_a};
pub use tunnels::{ones_complement_sums, tunnels_are_read, what_is_no_tunnel, what_items_are_for};
pub use views::{
    line_settled_view, links_count_where_both_list_them, pair_settles, ring_settled_view,
    which_links_are_read, which_places_count,
};
