ghost use Rattle.std.specs.Prelude.{◌≡◌, ℕ, true, false, [], ◌∷◌, Some, None};
ghost use Rattle.wire_base.specs.declared.bsl.Bsl.TheVariants.{B64, B128};
ghost use Rattle.wire_base.specs.declared.conf.Kind.TheVariants.{Mpls, Configured};
ghost use Rattle.wire_base.specs.declared.conf.LabelRange.{LabelRange};
ghost use Rattle.wire_base.specs.declared.conf.End.{End};
ghost use Rattle.wire_base.specs.model.Membership.{relabelled, left, rejoined};
ghost use Rattle.wire_base.specs.model.Place.{means, own_bift, own_id};
ghost use Rattle.wire_base.specs.model.Configuration.{IsValid, IsSound, IsEnd, share_label};
ghost use Rattle.examples_model.specs.Domains.{pair, ring, pair_a, pair_b, end};

/// The pair is a valid domain.
#[tactic(auto, unfolding(wire_base::specs::model::Configuration::sub_octets))]
pub fn pair_is_valid()
    ensures { IsValid pair }
{}

/// The ring is a valid domain.
#[tactic(auto, unfolding(wire_base::specs::model::Configuration::sub_octets))]
pub fn ring_is_valid()
    ensures { IsValid ring }
{}

/// A link of metric 0 is invalid.
pub fn metric_0_is_unsound()
    ensures { IsEnd (record (end 1 2) { metric = 0 }) → ⊥ }
{}

/// Adjacent label ranges share no label; ranges with a common label do.
pub fn labels_that_touch()
    ensures apart { share_label (record { bsl = B64; max_si = 9; label = 100 }) (record { bsl = B128; max_si = 0; label = 110 }) ≡ false }
    ensures shared { share_label (record { bsl = B64; max_si = 10; label = 100 }) (record { bsl = B128; max_si = 0; label = 110 }) ≡ true }
{}

/// A's only label means the first set of its only sub-domain, and no other number has a meaning.
#[tactic(auto, unfolding(wire_base::specs::model::Place::means))]
pub fn what_labels_mean()
    ensures label { means pair_a Mpls 100 ≡ Some (record { sd = 0; bsl = B64; si = 0 }) }
    ensures next { means pair_a Mpls 101 ≡ None }
    ensures kind { means pair_a Configured 100 ≡ None }
    ensures back { own_bift pair_a (record { sd = 0; bsl = B64; si = 0 }) ≡ Some 100 }
    ensures set_1 { own_bift pair_a (record { sd = 0; bsl = B64; si = 1 }) ≡ None }
{}

/// Once B's label 200 is 900, both mean B's set: packets with the earlier label may still arrive. The number between them means
/// nothing.
#[tactic(auto, unfolding(wire_base::specs::model::Place::means, wire_base::specs::model::Membership::relabelled))]
pub fn what_earlier_labels_mean()
    ensures now { own_bift (relabelled pair_b 0 B64 900) (record { sd = 0; bsl = B64; si = 0 }) ≡ Some 900 }
    ensures label { means (relabelled pair_b 0 B64 900) Mpls 900 ≡ Some (record { sd = 0; bsl = B64; si = 0 }) }
    ensures earlier { means (relabelled pair_b 0 B64 900) Mpls 200 ≡ Some (record { sd = 0; bsl = B64; si = 0 }) }
    ensures between { means (relabelled pair_b 0 B64 900) Mpls 201 ≡ None }
{}

/// A router that left its sub-domain has no BFR-id and no label there to give to others, but packets with its label still have their
/// meaning. When it joins again, it is as before.
#[tactic(auto, unfolding(wire_base::specs::model::Place::means, wire_base::specs::model::Membership::left, wire_base::specs::model::Membership::rejoined))]
pub fn what_a_router_that_left_means()
    ensures id { own_id (left pair_b 0) 0 ≡ None }
    ensures gone { own_bift (left pair_b 0) (record { sd = 0; bsl = B64; si = 0 }) ≡ None }
    ensures label { means (left pair_b 0) Mpls 200 ≡ Some (record { sd = 0; bsl = B64; si = 0 }) }
    ensures again { rejoined (left pair_b 0) 0 ≡ pair_b }
{}
