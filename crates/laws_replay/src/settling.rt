//! The lines of a schedule that make a domain quiet. The body is empty: the contract is the law.
ghost use Rattle.std.specs.Prelude.{◌≡◌, ℕ, ◌++◌, ◌∷◌, [], List, Ok};
ghost use Rattle.wire_base.specs.model.Configuration.{DomainConf, IsValid};
ghost use Rattle.replay_text.specs.declared.event.Line.TheVariants.{Settle};
ghost use Rattle.replay_text.specs.Schedule.{schedule_line};
ghost use Rattle.domain_replay.specs.Texts.{names_of, schedule_reaches};
ghost use Rattle.laws_settle.specs.Idle.{IsIdle};
ghost use Rattle.laws_replay.specs.Settling.{HasMore, HasSettled, IsSettling};

/// In a valid domain a line `settle` with one round less than the domain has routers, or with as many as it is wide in links that are
/// up, or with more, makes it quiet, whatever the lines before it lost, repeated or let overtake, and however interfaces, labels and
/// sub-domains changed; provided that no router has restarted, no LSP's Remaining Lifetime has ended, and the two interfaces of each link
/// are both up or both down. Then LSDBs across each link that is up have the same live LSPs (ISO/IEC 10589, 7.3.15 to 7.3.17), and each
/// router to which a path of a router's topology leads has the same topology (ISO/IEC 10589, 7.2.5). With three rounds more it leaves
/// the domain at rest: no router has an LSP to send, to acknowledge or to request, no CSNP is due, and no PDU is in flight.
pub fn settle_lines_make_quiet()
    ensures quiet { (d : DomainConf) (before : List (List ℕ)) (text : List ℕ) (rounds : ℕ) → IsValid d → schedule_line text (names_of d) ≡ Ok (Settle rounds) →
        IsSettling d (schedule_reaches d) before text rounds → HasSettled (schedule_reaches d (before ++ text ∷ [])).run.world }
    ensures idle { (d : DomainConf) (before : List (List ℕ)) (text : List ℕ) (rounds : ℕ) → IsValid d → schedule_line text (names_of d) ≡ Ok (Settle rounds) →
        IsSettling d (schedule_reaches d) before text rounds → HasMore d (schedule_reaches d before).run.world rounds → IsIdle (schedule_reaches d (before ++ text ∷ [])).run.world }
{}
