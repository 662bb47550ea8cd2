ghost use Rattle.std.specs.Prelude.{◌≡◌, ℕ, true, false, [], ◌∷◌, Some, None};
ghost use Rattle.wire_base.specs.model.Graph.{IsGraph, owner};
ghost use Rattle.wire_base.specs.model.Walk.{dist};
ghost use Rattle.wire_base.specs.model.Tight.{tight_from, next_step};
ghost use Rattle.wire_base.specs.model.Supporting.{firsts};
ghost use Rattle.wire_base.specs.model.Choice.{candidates, choose, is_direct};
ghost use Rattle.wire_base.specs.model.HopCount.{hops, tunnel_links};
ghost use Rattle.wire_base.specs.model.Hop.{hop, Local, Copy, Expired, NoRow};
ghost use Rattle.laws_route.specs.Examples.{ring, fork, line, tie, one_way, to_two, supports, kinds, triple};

/// In the ring A reaches C over B and over D at cost 20. Both are BFR-NBRs; the entropy selects one of them.
#[tactic(auto, unfolding(wire_base::specs::model::Walk::dist, wire_base::specs::model::Graph::owner, wire_base::specs::model::Graph::covers, wire_base::specs::model::Tight::tight_from, wire_base::specs::model::Supporting::firsts, wire_base::specs::model::Choice::candidates, wire_base::specs::model::Choice::choice, wire_base::specs::model::Choice::is_direct, wire_base::specs::model::HopCount::hops))]
pub fn ring_has_two_ways()
    ensures distance { dist ring 0 2 ≡ Some 20 }
    ensures tight { tight_from ring 2 0 ≡ 1 ∷ 3 ∷ [] }
    ensures firsts { firsts ring (supports ring) 2 0 ≡ 1 ∷ 3 ∷ [] }
    ensures owner { owner ring 0 3 ≡ Some 2 }
    ensures even { choose ring kinds [] triple 0 0 3 ≡ Some 1 }
    ensures odd { choose ring kinds [] triple 1 0 3 ≡ Some 3 }
    ensures direct { is_direct ring 0 3 ≡ true }
    ensures hops { hops ring kinds [] triple 1 3 0 ≡ Some 2 }
{}

/// In the fork the BFR-NBR toward C is beyond a non-BFR, so a tunnel leads to it.
#[tactic(auto, unfolding(wire_base::specs::model::Walk::dist, wire_base::specs::model::Graph::owner, wire_base::specs::model::Graph::covers, wire_base::specs::model::Tight::tight_from, wire_base::specs::model::Tight::next_step, wire_base::specs::model::Supporting::firsts, wire_base::specs::model::Choice::candidates, wire_base::specs::model::Choice::choice, wire_base::specs::model::Choice::is_direct, wire_base::specs::model::HopCount::hops, wire_base::specs::model::HopCount::tunnel_links))]
pub fn fork_needs_a_tunnel()
    ensures firsts { firsts fork (supports fork) 2 0 ≡ 2 ∷ [] }
    ensures direct { is_direct fork 0 2 ≡ false }
    ensures choice { choose fork kinds [] triple 5 0 3 ≡ Some 2 }
    ensures next { next_step fork 2 0 ≡ Some 1 }
    ensures links { tunnel_links fork 2 0 ≡ Some 2 }
    ensures hops { hops fork kinds [] triple 5 3 0 ≡ Some 1 }
{}

/// In the line no path goes through the router with its overload bit set, but paths may end and begin there.
#[tactic(auto, unfolding(wire_base::specs::model::Walk::dist, wire_base::specs::model::Graph::owner, wire_base::specs::model::Graph::covers, wire_base::specs::model::Tight::tight_from, wire_base::specs::model::Supporting::firsts, wire_base::specs::model::Choice::candidates, wire_base::specs::model::Choice::choice, wire_base::specs::model::HopCount::hops))]
pub fn line_is_not_passed()
    ensures over { dist line 0 2 ≡ None }
    ensures to { dist line 0 1 ≡ Some 10 }
    ensures from { dist line 1 2 ≡ Some 10 }
    ensures firsts { firsts line (supports line) 2 0 ≡ [] }
    ensures choice { choose line kinds [] triple 0 0 3 ≡ None }
    ensures other { choose line kinds [] triple 0 0 2 ≡ Some 1 }
    ensures own { hops line kinds [] triple 0 1 0 ≡ Some 0 }
{}

/// Paths of equal cost tie whatever their number of edges, and an edge from a router to itself has no effect.
#[tactic(auto, unfolding(wire_base::specs::model::Walk::dist, wire_base::specs::model::Graph::owner, wire_base::specs::model::Graph::covers, wire_base::specs::model::Tight::tight_from, wire_base::specs::model::Supporting::firsts, wire_base::specs::model::Choice::candidates))]
pub fn equal_lengths_tie()
    ensures distance { dist tie 0 1 ≡ Some 10 }
    ensures firsts { firsts tie (supports tie) 1 0 ≡ 1 ∷ 2 ∷ [] }
    ensures itself { candidates tie (supports tie) 0 0 ≡ [] }
{}

/// An edge leads in one direction only, and a BFR-id that two routers have has no owner.
#[tactic(auto, unfolding(wire_base::specs::model::Walk::dist, wire_base::specs::model::Graph::owner))]
pub fn edges_lead_one_way()
    ensures there { dist one_way 0 1 ≡ Some 10 }
    ensures back { dist one_way 1 0 ≡ None }
    ensures doubled { owner one_way 0 1 ≡ None }
{}

/// A hop of a packet for 1, 2, 3, 4 and 9 at the router whose own BFR-id is 1, with each kind of outcome.
#[tactic(auto, unfolding(wire_base::specs::model::Hop::hop))]
pub fn outcomes_in_order()
    ensures onward { hop (Some 1) to_two (1 ∷ 2 ∷ 3 ∷ 4 ∷ 9 ∷ []) 3 ≡ Local 1 ∷ Copy 7 (2 ∷ 3 ∷ []) 2 ∷ Copy 8 (4 ∷ []) 2 ∷ NoRow (9 ∷ []) ∷ [] }
    ensures last { hop (Some 1) to_two (1 ∷ 2 ∷ 3 ∷ 4 ∷ 9 ∷ []) 1 ≡ Local 1 ∷ Expired (2 ∷ 3 ∷ 4 ∷ []) ∷ NoRow (9 ∷ []) ∷ [] }
    ensures ended { hop (Some 1) to_two (1 ∷ 2 ∷ 9 ∷ []) 0 ≡ Expired (1 ∷ 2 ∷ 9 ∷ []) ∷ [] }
{}

/// The examples satisfy the invariant of views.
pub fn examples_are_views()
    ensures ring { IsGraph ring }
    ensures fork { IsGraph fork }
    ensures line { IsGraph line }
    ensures tie { IsGraph tie }
{}
