ghost use Rattle.std.specs.Prelude.{◌≡◌, ℕ, true, false, [], ◌∷◌, Some, None};
ghost use Rattle.wire_base.specs.declared.entry.Age.TheVariants.{Unknown, Newer, Equal, Older, Confused};
ghost use Rattle.wire_base.specs.declared.entry.Aged.TheVariants.{Live, Expired, Held, Removed};
ghost use Rattle.wire_base.specs.model.Control.{age_of, aged, after_second, purge, at_row, no_flags, srm_in};
ghost use Rattle.examples_model.specs.Domains.{lsp};
ghost use Rattle.examples_model.specs.Entries.{live, dead, told, holding};

/// An LSP with another sequence number is newer or older, whatever its checksum.
pub fn ages()
    ensures unknown { age_of None (told 7 1200 500) ≡ Unknown }
    ensures newer { age_of (Some (live 7 1200 500)) (told 8 0 0) ≡ Newer }
    ensures older { age_of (Some (live 7 1200 500)) (told 6 1200 500) ≡ Older }
    ensures same { age_of (Some (live 7 1200 500)) (told 7 30 500) ≡ Equal }
    ensures purged { age_of (Some (live 7 1200 500)) (told 7 0 0) ≡ Newer }
    ensures purged_here { age_of (Some (dead 7)) (told 7 1200 500) ≡ Older }
    ensures both_dead { age_of (Some (dead 7)) (told 7 0 9) ≡ Equal }
    ensures zero { age_of (Some (dead 0)) (told 0 1200 500) ≡ Equal }
    ensures last { age_of (Some (live 4294967295 1200 500)) (told 4294967294 1200 500) ≡ Older }
{}

/// Two live LSPs with one sequence number and different checksums are LSP confusion.
pub fn equal_sequence_unequal_sums_is_confused()
    ensures { age_of (Some (live 7 1200 500)) (told 7 1200 501) ≡ Confused }
{}

/// One second: a live entry becomes a purge at 0, and a purge is removed at 0.
pub fn entries_age_by_seconds()
    ensures live { after_second (live 7 2 500) ≡ Some (live 7 1 500) }
    ensures expires { after_second (live 7 1 500) ≡ Some (purge (lsp 1) 7) }
    ensures held { after_second (holding 2) ≡ Some (holding 1) }
    ensures goes { after_second (holding 1) ≡ None }
    ensures gone { after_second (holding 0) ≡ None }
    ensures expired { aged (live 7 1 500) ≡ Expired }
{}

/// A row of flags is inserted in order.
pub fn rows_of_flags()
    ensures first { at_row 1 (lsp 1) (λ r. r) (no_flags 1 (lsp 2) ∷ []) ≡ no_flags 1 (lsp 1) ∷ no_flags 1 (lsp 2) ∷ [] }
    ensures last { at_row 1 (lsp 3) (λ r. r) (no_flags 1 (lsp 2) ∷ []) ≡ no_flags 1 (lsp 2) ∷ no_flags 1 (lsp 3) ∷ [] }
    ensures there { at_row 1 (lsp 2) (λ r. record r { srm = true ∷ [] }) (no_flags 1 (lsp 2) ∷ []) ≡ record { id = lsp 2; srm = true ∷ []; ssn = false ∷ [] } ∷ [] }
    ensures none { srm_in [] (lsp 2) 0 ≡ false }
{}
