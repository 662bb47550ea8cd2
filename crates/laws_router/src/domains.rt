//! A domain one of whose routers changes.
ghost use Rattle.std.specs.Prelude.{◌≡◌, ℕ, Some, slice_get, slice_set};
ghost use Rattle.wire_base.specs.declared.conf.RouterConf.{RouterConf};
ghost use Rattle.wire_base.specs.model.Configuration.{DomainConf, IsConsistent};
ghost use Rattle.laws_router.specs.Becoming.{IsLater};

/// A domain stays consistent when one of its routers is given other labels, or leaves or joins a sub-domain.
pub fn a_domain_stays_consistent()
    ensures { (d : DomainConf) (a : ℕ) (r next : RouterConf) → IsConsistent d → slice_get d.routers a ≡ Some r → IsLater r next → IsConsistent (record d { routers = slice_set d.routers a next }) }
{}
