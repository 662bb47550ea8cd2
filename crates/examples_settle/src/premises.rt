//! The premises of the law that flooding settles. The bodies are empty but for calls: the contracts are proved by computation.
ghost use Rattle.std.specs.Prelude.{◌≡◌, ◌∷◌, false};
ghost use Rattle.examples_model.specs.Domains.{lsp, pair};
ghost use Rattle.quiet_domain.specs.Live.{is_same_at};
ghost use Rattle.laws_quiet.specs.Cover.{deliveries_by};
ghost use Rattle.laws_quiet.specs.Quiet.{IsQuiet, lsdb_at};
ghost use Rattle.laws_settle.specs.Fresh.{HasWholeLinks};
ghost use Rattle.laws_settle.specs.Gentle.{AreGentle};
ghost use Rattle.laws_settle.specs.Settled.{IsAtRest, IsInjectedAt, IsSettled};
ghost use Rattle.domain_model.specs.World.{first_world};
ghost use Rattle.domain_model.specs.Run.{world_after};
ghost use Rattle.examples_settle.specs.Runs.{IsStuck, after, disturbed, ended, enters, four_rounds, half, ingress, restarted, taken, the_injection, with_rounds};

use examples_model::pair_is_valid;
use laws_settle::{flooding_at_rest_is_quiet, flooding_settles};

/// A's CSNP is lost and its LSP is repeated, a second passes, and the link goes down and comes up again, with a frame in flight. Then
/// two rounds meet all premises of the law, and one, since one link joins the routers: the domain is quiet, and a packet that A injects
/// for B is delivered once.
pub fn premises_can_be_met()
    ensures settled { IsSettled pair disturbed (after disturbed) 2 (with_rounds (after disturbed) 2) }
    ensures wide { IsSettled pair disturbed (after disturbed) 1 (with_rounds (after disturbed) 1) }
    ensures quiet { IsQuiet (with_rounds (after disturbed) 1) }
    ensures injected { IsInjectedAt (with_rounds (after disturbed) 2) enters taken ingress 1 2 the_injection }
    ensures once { deliveries_by 1 2 (with_rounds (after disturbed) 2) (enters ∷ taken) ≡ 1 }
{
    pair_is_valid();
    flooding_settles();
}

/// After four rounds from the start no router has an LSP to send, so that the domain is quiet.
pub fn rest_can_be_met()
    ensures rest { IsAtRest pair four_rounds (after four_rounds) }
    ensures quiet { IsQuiet (after four_rounds) }
{
    pair_is_valid();
    flooding_at_rest_is_quiet();
}

/// Without one of the premises the two LSDBs still differ after three rounds: where the link is up at one end alone; where a router
/// restarted, and the CSNP that it sent is lost; and where a Remaining Lifetime ended, and nothing was sent for a minute. They differ
/// before the first round.
pub fn premises_are_needed()
    ensures half_up { IsStuck half (lsp 1) }
    ensures half_up_gentle { AreGentle (first_world pair) half }
    ensures restart { IsStuck restarted (lsp 1) }
    ensures restart_whole { HasWholeLinks (after restarted) }
    ensures end { IsStuck ended (lsp 2) }
    ensures end_whole { HasWholeLinks (after ended) }
    ensures rounds { is_same_at (lsdb_at (first_world pair) 0) (lsdb_at (first_world pair) 1) (lsp 1) ≡ false }
{}
