//! Worked examples of the definitions. The bodies are empty: the contracts are proved by computation.
ghost use Rattle.std.specs.Prelude.{◌≡◌, true, false, [], ◌∷◌, Some, None};
ghost use Rattle.laws_route.specs.Examples.{ring, fork, line, kinds, triple};
ghost use Rattle.quiet_domain.specs.Examples.{alone, both, confused, id, later, lsp, purged};
ghost use Rattle.quiet_domain.specs.Live.{first_difference, is_same_at};
ghost use Rattle.quiet_domain.specs.Way.{way_to};

/// Lifetimes do not count, nor does a purge. An LSP that one LSDB lacks counts, and so do other contents or another sequence number.
pub fn live_lsps_are_compared()
    ensures lifetimes { is_same_at both later (id 2) ≡ true }
    ensures contents { is_same_at both confused (id 2) ≡ false }
    ensures below { is_same_at both confused (id 1) ≡ true }
    ensures purge { is_same_at both purged (id 2) ≡ false }
    ensures lacking { is_same_at alone both (id 2) ≡ false }
    ensures expired { is_same_at alone purged (id 2) ≡ true }
    ensures number { is_same_at (lsp 2 5 9 [] ∷ []) (lsp 2 6 9 [] ∷ []) (id 2) ≡ false }
{}

/// The least LSP ID of a difference is found, whichever LSDB has it. Where only lifetimes differ there is none.
#[tactic(auto, unfolding(crate::specs::Live::first_difference))]
pub fn differences_are_found()
    ensures none { first_difference both later ≡ None }
    ensures contents { first_difference both confused ≡ Some (id 2) }
    ensures lacking { first_difference alone both ≡ Some (id 2) }
    ensures least { first_difference (lsp 2 1 9 [] ∷ []) both ≡ Some (id 1) }
{}

/// Across the ring there are two hops; in the fork one hop has a tunnel of two links; in the line no path goes through the router
/// with its overload bit set, and a router's own BFR-id is no hop away.
#[tactic(auto, unfolding(crate::specs::Way::way_to, crate::specs::Way::links_over, wire_base::specs::model::Walk::dist, wire_base::specs::model::Graph::owner, wire_base::specs::model::Graph::covers, wire_base::specs::model::Tight::tight_from, wire_base::specs::model::Tight::next_step, wire_base::specs::model::Supporting::firsts, wire_base::specs::model::Choice::candidates, wire_base::specs::model::Choice::choice, wire_base::specs::model::Choice::is_direct, wire_base::specs::model::HopCount::tunnel_links))]
pub fn paths_are_followed()
    ensures ring { way_to ring kinds [] triple 1 3 0 ≡ Some (record { hops = 2; longest = 0 }) }
    ensures fork { way_to fork kinds [] triple 5 3 0 ≡ Some (record { hops = 1; longest = 2 }) }
    ensures line { way_to line kinds [] triple 0 3 0 ≡ None }
    ensures own { way_to line kinds [] triple 0 1 0 ≡ Some (record { hops = 0; longest = 0 }) }
{}
