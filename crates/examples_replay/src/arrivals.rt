ghost use Rattle.std.specs.Prelude.{◌≡◌, None};
ghost use Rattle.domain_model.specs.World.{first_world};
ghost use Rattle.domain_model.specs.Run.{run_of};
ghost use Rattle.domain_replay.specs.Texts.{schedule_reaches};
ghost use Rattle.laws_ledger.specs.Runs.{AreAllowed, unlined};
ghost use Rattle.examples_model.specs.Domains.{pair};
ghost use Rattle.laws_replay.specs.Once.{IsUndisturbed};
ghost use Rattle.examples_replay.specs.Arrival.{settled_by, enters, taken, whole, lines, ingress, the_injection};

use examples_model::pair_is_valid;

/// All premises of a packet's arrival are met by a run of the pair from its start: both routers learn of each other,
/// and A injects for itself and for B, which receives its copy. The lines of a schedule lead to that run, and each of
/// its events is allowed.
pub fn premises_hold_of_a_whole_run()
    ensures read { (schedule_reaches pair lines).run ≡ run_of pair whole }
    ensures accepted { (schedule_reaches pair lines).refused ≡ None }
    ensures allowed { AreAllowed (first_world pair) (unlined whole) }
    ensures own { IsUndisturbed pair settled_by enters taken ingress 1 1 the_injection }
    ensures b { IsUndisturbed pair settled_by enters taken ingress 1 2 the_injection }
{
    pair_is_valid();
}
