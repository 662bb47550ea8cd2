ghost use Rattle.std.specs.Prelude.{◌≡◌, ℕ, ◌<◌, ◌↔◌, Bool, List, length, Contains, Some};
ghost use Rattle.wire_base.specs.declared.conf.SubKind.{SubKind};
ghost use Rattle.wire_base.specs.declared.conf.TableRow.{TableRow};
ghost use Rattle.wire_base.specs.declared.triple.Triple.{Triple};
ghost use Rattle.wire_base.specs.declared.view.ViewNode.{ViewNode};
ghost use Rattle.wire_base.specs.model.Graph.{IsGraph};
ghost use Rattle.wire_base.specs.model.Supporting.{IsFirst, firsts};
ghost use Rattle.wire_base.specs.model.Walk.{dist};
ghost use Rattle.wire_base.specs.model.Choice.{choose};
ghost use Rattle.wire_base.specs.model.HopCount.{tunnel_links};
ghost use Rattle.laws_route.specs.Descends.{Descends};

/// The list of the BFR-NBRs has exactly these elements.
pub fn firsts_are_listed()
    ensures { (g : List ViewNode) (c : ℕ → Bool) (d u x : ℕ) → IsGraph g → u < length g → (Contains (firsts g c d u) x ↔ IsFirst g c d u x) }
{}

/// The router to which a bit is sent is nearer to the bit's owner, and forwards it unless it is the owner.
pub fn descent()
    ensures { (g : List ViewNode) (kinds : List SubKind) (table : List TableRow) (t : Triple) (class k u x : ℕ) → IsGraph g → u < length g → choose g kinds table t class u k ≡ Some x → Descends g kinds table t class k u x }
{}

/// If there is a path from u to x, then the tight steps with the least system ID lead there too, over fewer links than there
/// are nodes.
pub fn tunnels_arrive()
    ensures { (g : List ViewNode) (u x n : ℕ) → IsGraph g → u < length g → dist g u x ≡ Some n → (h : ℕ) × (tunnel_links g x u ≡ Some h) × (h < length g) }
{}
