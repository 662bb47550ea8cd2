//! Labels and their meanings.
ghost use Rattle.std.specs.Prelude.{◌≡◌, ℕ, Some};
ghost use Rattle.wire_base.specs.declared.conf.Kind.{Kind};
ghost use Rattle.wire_base.specs.declared.conf.RouterConf.{RouterConf};
ghost use Rattle.wire_base.specs.declared.triple.Triple.{Triple};
ghost use Rattle.wire_base.specs.model.Configuration.{IsSound, KeepsKinds};
ghost use Rattle.wire_base.specs.model.Place.{kind_of, own_bift, means};
ghost use Rattle.laws_router.specs.Becoming.{IsEarlier, IsLater};

/// A BIFT-id that a router advertised for a triple, in its configuration of now or in an earlier one, means that triple there. What a
/// BIFT-id means stays when the configuration changes.
pub fn labels_keep_their_meaning()
    ensures advertised { (was now : RouterConf) (kind : Kind) (t : Triple) (bift : ℕ) → IsEarlier was now → IsSound now → kind_of now.kinds t.sd ≡ Some kind → own_bift was t ≡ Some bift → means now kind bift ≡ Some t }
    ensures kept { (now next : RouterConf) (kind : Kind) (bift : ℕ) (t : Triple) → IsSound now → IsLater now next → means now kind bift ≡ Some t → means next kind bift ≡ Some t }
    ensures own { (r : RouterConf) → IsSound r → KeepsKinds r → IsEarlier r r }
    ensures earlier { (was now next : RouterConf) → IsEarlier was now → IsLater now next → IsEarlier was next }
{}
