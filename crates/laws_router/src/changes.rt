//! The three changes of a configuration.
ghost use Rattle.std.specs.Prelude.{◌≡◌, ℕ, true, is_some};
ghost use Rattle.wire_base.specs.declared.bsl.Bsl.{Bsl};
ghost use Rattle.wire_base.specs.declared.conf.RouterConf.{RouterConf};
ghost use Rattle.wire_base.specs.model.Configuration.{IsSound, KeepsKinds};
ghost use Rattle.wire_base.specs.model.Membership.{CanRelabel, relabelled, left, rejoined};
ghost use Rattle.wire_base.specs.model.Place.{sub_in};
ghost use Rattle.laws_router.specs.Becoming.{IsLater};

/// A router that is given other labels, or leaves or joins a sub-domain, keeps its BFR-ids and the label ranges that it had, and its
/// configuration stays sound.
pub fn changes_keep_members()
    ensures relabel { (r : RouterConf) (sd : ℕ) (bsl : Bsl) (label : ℕ) → IsSound r → KeepsKinds r → CanRelabel r sd bsl label → IsLater r (relabelled r sd bsl label) }
    ensures leave { (r : RouterConf) (sd : ℕ) → IsSound r → KeepsKinds r → is_some (sub_in r.subs sd) ≡ true → IsLater r (left r sd) }
    ensures join { (r : RouterConf) (sd : ℕ) → IsSound r → KeepsKinds r → is_some (sub_in r.away sd) ≡ true → IsLater r (rejoined r sd) }
{}
