//! That the premises of exactly-once delivery in a quiet domain can be met together. The bodies are empty: the contracts are proved
//! by computation.
ghost use Rattle.laws_ledger.specs.Runs.{unlined};
ghost use Rattle.laws_quiet.specs.Cover.{IsCoveredAt};
ghost use Rattle.examples_domain.specs.Branch.{at_rest, branch_a, enters, rest, taken, the_injection};

/// In a quiet domain a router injects for itself, for its neighbor, and for a router behind a non-BFR; the routers receive the copies,
/// and packets reach all three BFR-ids.
pub fn quiet_premises_can_be_met()
    ensures own { IsCoveredAt at_rest enters.1 (unlined taken) (rest branch_a) 1 1 the_injection }
    ensures neighbor { IsCoveredAt at_rest enters.1 (unlined taken) (rest branch_a) 1 2 the_injection }
    ensures tunnel { IsCoveredAt at_rest enters.1 (unlined taken) (rest branch_a) 1 4 the_injection }
{}
