//! What the lines of a schedule come to. The bodies are empty: the contracts are the laws.
ghost use Rattle.std.specs.Prelude.{ℕ, List};
ghost use Rattle.wire_base.specs.model.Configuration.{DomainConf};
ghost use Rattle.domain_replay.specs.Telling.{ReplayState};
ghost use Rattle.domain_replay.specs.Parts.{Past};
ghost use Rattle.command_replay.specs.Course.{Turns, lines_course, played, plays_mean, ShowsFronts, AreCounted, lines_mean, Agree};

/// For any way to execute a line that depends on no more of it than a reader returns, and under which counts stay those
/// of the run: what must be produced for the lines of a text, and for what comes before them, is what they come to, with the
/// end of the report.
pub fn schedules_are_answered<S>()
    ensures { (view : S → ReplayState) (turns : Turns S) (d : DomainConf) (o : Past) (start : S) → ShowsFronts turns → AreCounted view turns d o.events start →
        Agree (lines_mean view turns o start) (plays_mean (λ (lines : List (List ℕ)). played d o (lines_course turns 0 start lines))) }
{}
