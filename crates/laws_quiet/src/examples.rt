//! Worked examples of the definitions. The bodies are empty: the contracts are proved by computation.
ghost use Rattle.std.specs.Prelude.{◌≡◌, true, false, [], None, Some};
ghost use Rattle.laws_route.specs.Examples.{ring, fork, line, kinds, triple};
ghost use Rattle.quiet_domain.specs.Way.{way_to};
ghost use Rattle.laws_quiet.specs.Cover.{is_covered, is_own};

/// Two hops across the ring take a TTL of 2; a tunnel counts as one hop, and its links must be no more than an outer TTL of 255. A
/// missing path is not covered, nor is one of no hop, as a router's own BFR-id is told by its configuration.
#[tactic(auto, unfolding(quiet_domain::specs::Way::way_to, quiet_domain::specs::Way::links_over, wire_base::specs::model::Walk::dist, wire_base::specs::model::Graph::owner, wire_base::specs::model::Graph::covers, wire_base::specs::model::Tight::tight_from, wire_base::specs::model::Tight::next_step, wire_base::specs::model::Supporting::firsts, wire_base::specs::model::Choice::candidates, wire_base::specs::model::Choice::choice, wire_base::specs::model::Choice::is_direct, wire_base::specs::model::HopCount::tunnel_links))]
pub fn ttls_cover_paths()
    ensures enough { is_covered 2 (way_to ring kinds [] triple 1 3 0) ≡ true }
    ensures short { is_covered 1 (way_to ring kinds [] triple 1 3 0) ≡ false }
    ensures tunnel { is_covered 1 (way_to fork kinds [] triple 5 3 0) ≡ true }
    ensures longest { is_covered 9 (Some (record { hops = 1; longest = 255 })) ≡ true }
    ensures long { is_covered 9 (Some (record { hops = 1; longest = 256 })) ≡ false }
    ensures line { is_covered 9 (way_to line kinds [] triple 0 3 0) ≡ false }
    ensures here { is_covered 9 (way_to line kinds [] triple 0 1 0) ≡ false }
    ensures own { is_own (Some 3) 3 ≡ true }
    ensures other { is_own (Some 3) 4 ≡ false }
    ensures nothing { is_own None 0 ≡ false }
{}
