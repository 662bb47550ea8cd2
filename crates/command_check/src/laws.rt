//! What is true of the run of a schedule that is checked. The bodies are empty: the contracts are the laws.
ghost use Rattle.std.specs.Prelude.{◌≡◌, ℕ, ◌++◌, ◌∷◌, [], List, Ok};
ghost use Rattle.wire_base.specs.declared.bsl.Bsl.{Bsl};
ghost use Rattle.wire_base.specs.model.Configuration.{DomainConf, IsValid};
ghost use Rattle.replay_text.specs.Check.{check_line};
ghost use Rattle.replay_text.specs.declared.check.CheckLine.TheVariants as check;
ghost use Rattle.replay_text.specs.declared.event.Line.TheVariants.{Settle};
ghost use Rattle.domain_core.specs.Cover.{cover_of};
ghost use Rattle.domain_replay.specs.Texts.{names_of};
ghost use Rattle.laws_settle.specs.Idle.{IsIdle};
ghost use Rattle.laws_replay.specs.Settling.{HasMore, HasSettled, IsSettling};
ghost use Rattle.command_replay.specs.Course.{reach_of};
ghost use Rattle.command_check.specs.Checked.{checked};
ghost use Rattle.command_check.specs.Verdicts.{KeepsChecks, world_at, Follows, IsAnsweredQuiet, IsAnsweredCover};

/// In a valid domain the run of a schedule that is checked keeps all that is promised of the run of a replay, for any
/// lines and wherever one is rejected. Its report and its capture are those of the run, event by event, and between the events
/// stand the answers alone.
pub fn checks_keep_promises()
    ensures { (d : DomainConf) (lines : List (List ℕ)) → IsValid d → KeepsChecks d lines }
{}

/// In a valid domain a `quiet` line is answered with `yes` exactly where the world of the run is quiet at that moment:
/// no router's sequence number space is exhausted, and across each link both interfaces are down, or both are up and the
/// LSDBs have the same live LSPs. Where the answer is yes, each router to which a path of a router's topology leads has the
/// same topology.
pub fn quiet_answers_hold()
    ensures { (d : DomainConf) (before : List (List ℕ)) (text : List ℕ) → IsValid d → Follows d before text check.Quiet → IsAnsweredQuiet d before text }
{}

/// In a valid domain a line `settle` of a schedule that is checked makes it quiet with enough rounds, and leaves it at rest with three
/// more, as it does in a replay: so `quiet` answers yes after it. No router has restarted and no LSP's Remaining Lifetime has ended
/// before it, and the two interfaces of each link are both up or both down.
pub fn settle_lines_make_checks_quiet()
    ensures quiet { (d : DomainConf) (before : List (List ℕ)) (text : List ℕ) (rounds : ℕ) → IsValid d → check_line text (names_of d) ≡ Ok (check.Base (Settle rounds)) →
        IsSettling d (reach_of (checked d)) before text rounds → HasSettled (checked d (before ++ text ∷ [])).run.world }
    ensures idle { (d : DomainConf) (before : List (List ℕ)) (text : List ℕ) (rounds : ℕ) → IsValid d → check_line text (names_of d) ≡ Ok (check.Base (Settle rounds)) →
        IsSettling d (reach_of (checked d)) before text rounds → HasMore d (checked d before).run.world rounds → IsIdle (checked d (before ++ text ∷ [])).run.world }
{}

/// In a valid domain a `cover` line that is not rejected is answered with BFR-ids that are reached: let the world of the
/// run be quiet there, let that injection occur, and let routers receive copies of it alone. None of these events drops
/// such a BFR-id, and if no copy is in flight any more, it was delivered exactly once.
pub fn cover_answers_hold()
    ensures { (d : DomainConf) (before : List (List ℕ)) (text : List ℕ) (router sd : ℕ) (bsl : Bsl) (ids : List ℕ) (ttl entropy : ℕ) (ks : List ℕ) → IsValid d →
        Follows d before text (check.Cover router sd bsl ids ttl entropy) → cover_of (world_at d before) router sd bsl ids ttl entropy ≡ Ok ks → IsAnsweredCover d before text router sd bsl ids ttl entropy ks }
{}
