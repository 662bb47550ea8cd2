//! Runs of gentle events. The body is empty: the contract is the law.
ghost use Rattle.std.specs.Prelude.{◌≡◌, List};
ghost use Rattle.wire_base.specs.model.Configuration.{DomainConf, IsValid};
ghost use Rattle.replay_text.specs.declared.event.Event.{Event};
ghost use Rattle.domain_model.specs.Run.{world_after};
ghost use Rattle.domain_model.specs.World.{WorldState, first_world};
ghost use Rattle.laws_ledger.specs.Runs.{AreAllowed};
ghost use Rattle.laws_settle.specs.Fresh.{IsFresh};
ghost use Rattle.laws_settle.specs.Gentle.{AreGentle};

/// In a valid domain no router has restarted and no LSP's Remaining Lifetime has ended since it started; whatever was lost, repeated or
/// overtaken, and however interfaces, labels and sub-domains changed. Then each LSP that a router has or that is in flight is live, and is
/// one that its router originated, so that an LSP ID and a sequence number name one LSP; a CSNP or PSNP lists only such LSPs. Each router
/// has its own LSP, and none has a newer one. No PDU is ahead of its sender. What a router has and its neighbor lacks has SRM on an
/// interface that is up (ISO/IEC 10589, 7.3.15 and 7.3.16).
pub fn gentle_events_keep_lsps()
    ensures { (d : DomainConf) (es : List Event) (w : WorldState) → IsValid d → AreAllowed (first_world d) es → AreGentle (first_world d) es → w ≡ world_after (first_world d) es → IsFresh w }
{}
