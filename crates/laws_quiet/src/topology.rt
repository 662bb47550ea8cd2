//! When two routers have the same topology. The bodies are empty: the contracts are the laws.
ghost use Rattle.std.specs.Prelude.{◌≡◌, false};
ghost use Rattle.wire_base.specs.model.Control.{Control};
ghost use Rattle.wire_base.specs.model.View.{control_view};
ghost use Rattle.laws_router.specs.State.{IsRouter, IssuesAlone};
ghost use Rattle.quiet_domain.specs.Live.{AreSameLive};

/// Two routers with the same sub-domains, whose LSDBs have the same live LSPs, have the same topology, where each of them originates
/// its own LSP, and has it in its LSDB (ISO/IEC 10589, 7.2.5 and 7.3.6).
pub fn same_live_lsps_give_one_topology()
    ensures { (c d : Control) → IsRouter c → IsRouter d → IssuesAlone c → IssuesAlone d → c.spent ≡ false → d.spent ≡ false → c.conf.kinds ≡ d.conf.kinds → AreSameLive c.entries d.entries → control_view c ≡ control_view d }
{}
