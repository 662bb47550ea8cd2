//! Two routers that compare their LSDBs. The bodies are empty: the contracts are proved by computation.
ghost use Rattle.std.specs.Prelude.{◌≡◌, true, false, [], ◌∷◌};
ghost use Rattle.wire_base.specs.model.Control.{srm, ssn};
ghost use Rattle.examples_model.specs.Domains.{lsp};
ghost use Rattle.examples_domain.specs.Branch.{branch_a, branch_b, lsp_of, lsps, rest};
ghost use Rattle.laws_settle.specs.Csnps.{IsAnswered};
ghost use Rattle.examples_settle.specs.Compared.{compared, knows};

/// A router receives the CSNP of a neighbor that has the same LSPs, and has nothing to send or to request afterwards: the premises of
/// the law on CSNPs can be met together.
pub fn csnp_premises_can_be_met()
    ensures { IsAnswered (rest branch_a) (rest branch_b) 0 (compared lsps lsps) }
{}

/// It requests an LSP that the CSNP lists and that it does not have, and is to send one that the CSNP lacks.
pub fn differences_are_marked()
    ensures requested { ssn (compared lsps (lsp_of branch_b ∷ [])).flood (lsp 1) 0 ≡ true }
    ensures sent { srm (compared (lsp_of branch_a ∷ []) lsps).flood (lsp 2) 0 ≡ true }
    ensures same { ssn (compared lsps lsps).flood (lsp 1) 0 ≡ false }
{}
