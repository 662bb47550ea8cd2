//! The effects of an event, in both outputs.
ghost use Rattle.std.specs.Prelude.{◌≡◌, ◌≤◌, ◌++◌, length, OnOk, OnErr};
ghost use Rattle.std.specs.List.{AllByRecursion};
ghost use Rattle.wire_base.specs.declared.limits.TheConstants.{MOST_ROUTERS};
ghost use Rattle.wire_base.specs.model.Configuration.{IsSound};
ghost use Rattle.replay_report.specs.Captures.{wire_records, AreShort};
ghost use Rattle.replay_report.specs.Lines.{event_text};

use crate::capture::push_frames;
use crate::lines::push_event;
use crate::recording::Recording;
use domain_model::StepOut;
use run_texts::Texts;
use wire_base::{M, RouterConf};

/// Appends the effects of an event of a line. If the run has a capture, the frames gain a record of each frame that was
/// sent. The report gains the lines of its deliveries and drops. If an allocation fails, nothing is appended.
#[tactic(auto, using(replay_text::proofs::Appended::front))]
pub fn push_made(
    texts: &mut Texts,
    recording: Recording,
    routers: &[RouterConf],
    line: u32,
    made: &StepOut,
) -> M<()>
    requires few { length routers.now ≤ MOST_ROUTERS }
    requires sound { AllByRecursion IsSound routers.now }
    requires short { AreShort made.now.sent }
    ensures frames { OnOk result (texts.new.frames ≡ texts.old.frames ++ wire_records recording routers.now line made.now.sent) }
    ensures report { OnOk result (texts.new.report ≡ texts.old.report ++ event_text routers.now line made.now.got made.now.drops) }
    ensures err { OnErr result (texts.new ≡ texts.old) }
{
    let len = texts.frames.len();
    push_frames(&mut texts.frames, recording, routers, line, &made.sent)?;
    let pushed = push_event(&mut texts.report, routers, line, made);
    if pushed.is_err() {
        // The capture must not have an event that the report lacks.
        texts.frames.truncate(len);
    }
    pushed
}
