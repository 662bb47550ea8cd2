//! The top call.
ghost use Rattle.command_line.specs.Words.{form_in, router_in};
ghost use Rattle.replay_run.specs.Faults.{MayRise};
ghost use Rattle.replay_run.specs.Run.{Answers, Completes, Leaves, Promises};

use crate::node::node;
use crate::schedule::replay;
use command_check::{
    checks_keep_promises, cover_answers_hold, quiet_answers_hold, settle_lines_make_checks_quiet,
};
use command_drive::deliver;
use command_grow::grow;
use command_handshake::{handshakes_keep_promises, interfaces_follow_adjacencies};
use command_headers::run_headers;
use command_hop::{packets_are_parted, run_hop};
use command_line::{Arguments, USAGE, parse};
use command_topo::run_topo;
use laws_replay::{replays_keep_promises, settle_lines_make_quiet};
use std::alloc::Global;
use wire_base::{Sink, Source, Status};

/// All that the program does. It takes the arguments, which name a command, and the objects that the program reads and writes: the
/// domain file, the input (a schedule, a capture or lines), the frames that it sends, and its report. Returns the exit status.
///
/// The arguments are `replay CONF SCHEDULE FRAMES`, `replay-ng CONF SCHEDULE FRAMES`, `handshake CONF SCHEDULE FRAMES`, `check CONF
/// SCHEDULE FRAMES`, `node CONF ROUTER CAPTURE FRAMES`, `hop INPUT`, `headers CAPTURE`, `grow N` or `topo CAPTURE LEVEL MT FROM`; for
/// any others the report is the usage line. ROUTER is the name of a router of the domain; if there is none of that name, the domain file
/// is rejected as one that refers to an unknown name. N is the number of routers of a domain that is made with its schedule, from 3 to `MOST_ROUTERS`.
/// LEVEL is 1 or 2, MT a topology from 0 to 4095 (RFC 5120), and FROM the system ID at which paths begin.
pub fn run<D: Source, S: Source, C: Sink, R: Sink>(
    alloc: Global,
    words: &[&str],
    conf: &mut D,
    input: &mut S,
    frames: &mut C,
    report: &mut R,
) -> Status
    requires counters { MayRise D.Source S.Source C.Sink R.Sink conf.old input.old frames.old report.old }

    // Exit status, report and frames are the verdict on the arguments and on what the sources held, unless the run stopped on an I/O
    // error or out of memory. Each status has its cause.
    ensures answers { Answers D.Source S.Source C.Sink R.Sink (form_in words.now) (router_in words.now) result
        conf.old conf.new input.old input.new frames.old frames.new report.old report.new }

    // With valid arguments, valid input and no I/O error, the run ends with Done or out of memory.
    ensures completes { Completes D.Source S.Source C.Sink R.Sink (form_in words.now) (router_in words.now) result
        conf.old conf.new input.old input.new frames.old frames.new report.old report.new }

    // A run that stopped leaves defined output: what is complete after a read error, a prefix after a write error or out of memory.
    ensures leaves { Leaves D.Source S.Source C.Sink R.Sink (form_in words.now) (router_in words.now) result
        conf.old conf.new input.old input.new frames.old frames.new report.old report.new }

    // Status and outputs of the commands that execute a schedule, and of `grow`, are those of one run of the model. In it, each
    // BFR-id that an injection names is at every moment in one copy, one delivery or one drop; the report's numbers add up; nothing
    // is delivered twice; and while topologies agree, no copy is lost and the TTL covers its path, a reachable BFR-id is never
    // dropped and arrives exactly once. In the run of `handshake` an interface is up exactly where its adjacency is. The
    // answers of `check` are true of the run at that moment. A line `settle` with enough rounds makes the domain quiet.
    // `hop` reports each BFR-id of a packet in exactly one line.
    ensures promises { Promises D.Source S.Source C.Sink R.Sink (form_in words.now) (router_in words.now) result
        conf.old conf.new input.old input.new frames.old frames.new report.old report.new }
{
    packets_are_parted();
    replays_keep_promises();
    checks_keep_promises();
    quiet_answers_hold();
    cover_answers_hold();
    settle_lines_make_quiet();
    settle_lines_make_checks_quiet();
    handshakes_keep_promises();
    interfaces_follow_adjacencies();
    match parse(words) {
        Arguments::Replay { kind, .. } => replay(alloc, kind, conf, input, frames, report),
        Arguments::Node { router, .. } => {
            node(alloc, router.as_bytes(), conf, input, frames, report)
        }
        Arguments::Hop { .. } => run_hop(alloc, input, report),
        Arguments::Headers { .. } => run_headers(alloc, input, report),
        Arguments::Grow { routers } => grow(alloc, routers, report),
        Arguments::Topo {
            level,
            mt,
            from,
            ..
        } => run_topo(alloc, level, mt, from, input, report),
        Arguments::Unknown => deliver(report, Status::Usage, USAGE),
    }
}
