ghost use Rattle.std.specs.Prelude.{◌≡◌, ℕ, List, Option, if◌then◌else◌};
ghost use Rattle.wire_base.specs.model.Hop.{about, hop, has};

/// In a hop each id of the packet has exactly one outcome, and no other id has any.
pub fn each_id_once()
    ensures { (own : Option ℕ) (choose : ℕ → Option ℕ) (ids : List ℕ) (ttl k : ℕ) → about k (hop own choose ids ttl) ≡ (if has ids k then 1 else 0) }
{}
