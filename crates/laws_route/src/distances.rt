ghost use Rattle.std.specs.Prelude.{◌≡◌, ℕ, ◌+◌, ◌<◌, ◌⊎◌, false, List, length, Contains, Option, Some};
ghost use Rattle.wire_base.specs.declared.view.ViewEdge.{ViewEdge};
ghost use Rattle.wire_base.specs.declared.view.ViewNode.{ViewNode};
ghost use Rattle.wire_base.specs.model.Graph.{IsGraph, edges_of, is_overloaded};
ghost use Rattle.wire_base.specs.model.Walk.{IsDist, Leads, cost, dist};
ghost use Rattle.wire_base.specs.model.Tight.{IsTight};
ghost use Rattle.laws_route.specs.Bounds.{IsAtMost};

/// There is exactly one cost between two nodes, and `dist` computes it.
pub fn distance_is_least()
    ensures exists { (g : List ViewNode) (u d : ℕ) → u < length g → IsDist g u d (dist g u d) }
    ensures unique { (g : List ViewNode) (u d : ℕ) (a b : Option ℕ) → IsDist g u d a → IsDist g u d b → a ≡ b }
{}

/// The cost is a lower bound for paths of any length, and for an edge plus the cost from its end.
pub fn walks_bound()
    ensures walk { (g : List ViewNode) (u d : ℕ) (es : List ViewEdge) → IsGraph g → u < length g → Leads g u d es → IsAtMost (dist g u d) (cost es) }
    ensures edge { (g : List ViewNode) (u d m : ℕ) (e : ViewEdge) → IsGraph g → u < length g → Contains (edges_of g u) e → (e.to ≡ d) ⊎ (is_overloaded g e.to ≡ false) → dist g e.to d ≡ Some m → IsAtMost (dist g u d) (e.metric + m) }
{}

/// Each node with a finite cost, except the target itself, has a tight step.
pub fn tight_steps_exist()
    ensures { (g : List ViewNode) (u d n : ℕ) → IsGraph g → u < length g → (u ≡ d → ⊥) → dist g u d ≡ Some n → (v : ℕ) × (v < length g) × IsTight g d u v }
{}

/// A shortest path of nonzero cost ends with an edge from the start, or from a node that paths may go through.
pub fn last_edges_exist()
    ensures { (g : List ViewNode) (u d n : ℕ) → IsGraph g → u < length g → (d ≡ u → ⊥) → dist g u d ≡ Some n → (x : ℕ) × (e : ViewEdge) × (r : ℕ) × Contains (edges_of g x) e × (e.to ≡ d) × (dist g u x ≡ Some r) × (r + e.metric ≡ n) }
{}
