//! What is reported of a run. The bodies are empty: the contracts are the laws.
ghost use Rattle.std.specs.Prelude.{◌≡◌, ℕ, None, length};
ghost use Rattle.wire_base.specs.model.Configuration.{DomainConf};
ghost use Rattle.replay_text.specs.declared.event.Line.{Line};
ghost use Rattle.domain_model.specs.Run.{Run, first_run, line_done};
ghost use Rattle.replay_report.specs.declared.recording.Recording.{Recording};
ghost use Rattle.domain_replay.specs.Telling.{Telling, first_telling, tells_line, telling_of, IsRunOf, LineEnters, IsToldSo};

/// Before the first event the capture is its front, and the report is empty.
pub fn a_start_is_told()
    ensures run { (d : DomainConf) → IsRunOf d (first_run d) }
    ensures told { (recording : Recording) (d : DomainConf) → first_telling recording d ≡ telling_of recording d (first_run d) }
{}

/// A line that is reported event by event is the line as the run executes it: the world, the counts and both texts are
/// those of the run, and it is rejected if the run is, for the same reason.
#[tactic(auto, using(crate::proofs::TellingLaws::line_told))]
pub fn each_line_is_told()
    ensures { (recording : Recording) (d : DomainConf) (line : ℕ) (r : Run) (said : Line) → IsRunOf d r → LineEnters (length d.routers) said →
        IsToldSo recording d line (line_done line (record { run = r; refused = None }) said) (tells_line line (telling_of recording d r) said) }
{}
