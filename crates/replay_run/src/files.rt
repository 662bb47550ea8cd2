//! A run on files that are named by path.
ghost use Rattle.std.specs.Prelude.{◌≡◌, IfSome};
ghost use Rattle.command_line.specs.Words.{command_line_in, form_in, router_in};
ghost use Rattle.command_drive.specs.Answer.{IsDecided};
ghost use Rattle.command_drive.specs.Outside.{Meets};
ghost use Rattle.replay_run.specs.Endings.{ComesOn, LeavesAlone};
ghost use Rattle.replay_run.specs.Faults.{CountsFaults};
ghost use Rattle.replay_run.specs.Verdict.{verdict};
ghost use Rattle.tool_host.specs.Fresh.{AreFresh, IsFresh};
ghost use Rattle.tool_host.specs.Named.{AreNamed};

use crate::top::run;
use std::alloc::Global;
use std::io::Write;
use tool_host::{FileSink, FileSource, FileSystem, Objects, StdoutSink};
use wire_base::{Sink, Source, Status};

/// Runs a command line on the files that it names, none of which was opened yet.
pub(crate) fn run_over<'a, F: FileSystem, W: Write>(
    alloc: Global,
    words: &[&str],
    objects: &mut Objects<'a, F>,
    report: &mut StdoutSink<W>,
) -> Status
    requires named { AreNamed (command_line_in words.now) objects.old }
    requires fresh { AreFresh objects.old }
    requires unused { IsFresh report.old }
    ensures verdict { IsDecided result → IfSome (verdict (form_in words.now) (router_in words.now)
        (F.at objects.old.conf.files.now objects.old.conf.path.now) (F.at objects.old.input.files.now objects.old.input.path.now))
        (λ owed. Meets owed result (W.contents report.old.out) (W.contents report.new.out)
        (⟦<FileSink<'a, F> as Sink>⟧.written objects.old.frames) (⟦<FileSink<'a, F> as Sink>⟧.written objects.new.frames)) }
    ensures statuses { ComesOn (form_in words.now) result }
    ensures faults { CountsFaults ⟦<FileSource<'a, F> as Source>⟧ ⟦<FileSource<'a, F> as Source>⟧ ⟦<FileSink<'a, F> as Sink>⟧ ⟦<StdoutSink<W> as Sink>⟧ result
        objects.old.conf objects.new.conf objects.old.input objects.new.input objects.old.frames objects.new.frames report.old report.new }
    ensures alone { LeavesAlone (form_in words.now) result objects.old.conf objects.new.conf objects.old.input objects.new.input objects.old.frames objects.new.frames }
{
    let Objects {
        conf,
        input,
        frames,
    } = objects;
    run(alloc, words, conf, input, frames, report)
}
