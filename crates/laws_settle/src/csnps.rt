//! When two LSDBs have become the same. The bodies are empty: the contracts are the laws.
ghost use Rattle.std.specs.Prelude.{ℕ};
ghost use Rattle.wire_base.specs.model.Control.{Control};
ghost use Rattle.domain_model.specs.World.{WorldState};
ghost use Rattle.quiet_domain.specs.Live.{AreSameLive};
ghost use Rattle.laws_quiet.specs.Quiet.{lsdb_at};
ghost use Rattle.laws_settle.specs.Csnps.{IsAnswered, IsExchange};

/// A router receives, on an interface that is up, all CSNPs that another sends when CSNPs are due, and has room for each LSP that they
/// list. If no LSP has SRM or SSN on that interface afterwards, so that there is nothing to send, to acknowledge or to request, then
/// the two LSDBs have the same live LSPs (ISO/IEC 10589, 7.3.15.2 and 7.3.17). A CSNP lists of an LSP only its LSP ID, sequence
/// number, checksum and Remaining Lifetime: live LSPs for which the first three are equal must have the same flags and content.
/// In a valid domain there is always room.
pub fn csnps_make_databases_same()
    ensures routers { (a b : Control) (link : ℕ) (after : Control) → IsAnswered a b link after → AreSameLive a.entries after.entries }
    ensures domain { (w : WorldState) (a b : ℕ) (c d : Control) (link back : ℕ) (v : WorldState) → IsExchange w a b c d link back v → AreSameLive (lsdb_at v a) (lsdb_at v b) }
{}
