//! Runs of the program on real files, whose status and report are those of its commands.
use crate::disk::{Call, OpenCalls};
use replay_run::run_arguments;
use std::fs;
use std::io::ErrorKind;
use std::test::Fail;
use tool_host::{StdoutSink, SystemFiles};
use wire_base::Status;

/// A domain file and an input, the arguments of a run on them, how it ends, and the results of the writer of its
/// report.
struct Run {
    conf: &'static str,
    input: &'static str,
    arguments: &'static [&'static str],
    status: Status,
    report: &'static [Call],
}

const ALONE: &str =
    "[[subdomain]]\nsd = 0\nkind = \"mpls\"\n[[router]]\nname = \"A\"\nsystem = \"0000.0000.0001\"\nprefix = \"10.0.0.1\"\n[[bier]]\nrouter = \"A\"\nsd = 0\nid = 1\n[[labels]]\nrouter = \"A\"\nsd = 0\nbsl = 64\nmax_si = 0\nlabel = 100\n";

const RUNS: &[Run] = &[
    Run {
        conf: "",
        input: "",
        arguments: &["program", "hop"],
        status: Status::Usage,
        report: &[
            Call::Moves(
                b"usage: bier_domain replay CONF SCHEDULE FRAMES | node CONF ROUTER CAPTURE FRAMES | hop INPUT | headers CAPTURE | grow N | handshake CONF SCHEDULE FRAMES | topo CAPTURE LEVEL MT FROM | replay-ng CONF SCHEDULE FRAMES | check CONF SCHEDULE FRAMES\n",
            ),
            Call::Flushes,
        ],
    },
    Run {
        conf: "# only\n",
        input: "",
        arguments: &["program", "replay", "run.conf", "run.input", "run.frames"],
        status: Status::ConfRefused,
        report: &[Call::Moves(b"refused conf 7 Limit router\n"), Call::Flushes],
    },
    Run {
        conf: ALONE,
        input: "bsl 64\nself 1\nrow 0 A\n",
        arguments: &["program", "hop", "run.input"],
        status: Status::InputRefused,
        report: &[Call::Moves(b"refused 3 text 2 Number\n"), Call::Flushes],
    },
    Run {
        conf: ALONE,
        input: "A",
        arguments: &["program", "headers", "run.input"],
        status: Status::CaptureRefused,
        report: &[
            Call::Moves(b"refused record 0 4 CutHeader\n"),
            Call::Flushes,
        ],
    },
    Run {
        conf: ALONE,
        input: "",
        arguments: &["program", "replay", "run.conf", "run.missing", "run.frames"],
        status: Status::ReadFault,
        report: &[Call::Flushes],
    },
    Run {
        conf: ALONE,
        input: "settle 1\n",
        arguments: &[
            "program",
            "replay",
            "run.conf",
            "run.input",
            "missing/run.frames",
        ],
        status: Status::WriteFault,
        report: &[
            Call::Moves(b"done lines 1 injected 0 named 0 got 0 dropped 0 flight 0\n"),
            Call::Flushes,
        ],
    },
    Run {
        conf: ALONE,
        input: "",
        arguments: &["program", "hop", "run.input"],
        status: Status::WriteFault,
        report: &[Call::Fails(ErrorKind::BrokenPipe)],
    },
];

/// Returns how a run ends on files that are written for it. The report's writer receives exactly the report, and a
/// finish.
fn ended(rt: &HostRuntime, run: &Run) -> Result<Status, Fail> {
    fs::write(rt, "run.conf", run.conf)?;
    fs::write(rt, "run.input", run.input)?;
    let mut args = Vec::new(rt.alloc());
    for argument in run.arguments {
        args.push(String::from_str(rt.alloc(), argument)?)?;
    }
    let files = SystemFiles::new(rt);
    let mut report = StdoutSink::new(OpenCalls::new(run.report));
    Ok(run_arguments(rt.alloc(), &args, &files, &mut report)?)
}

/// Each run reads the files at the paths in its arguments, ends as expected, and reports only that.
#[test]
fn runs_on_real_files(rt: HostRuntime) -> Result<(), Fail> {
    for run in RUNS {
        assert_eq!(rt; ended(&rt, run)?, run.status);
    }
    fs::remove_file(&rt, "run.conf")?;
    fs::remove_file(&rt, "run.input")?;
    fs::remove_file(&rt, "run.frames")?;
    Ok(())
}
