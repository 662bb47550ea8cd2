//! The command-line arguments of the program.
ghost use Rattle.std.specs.Prelude.{◌≡◌, ◌≤◌, ◌<◌, ◌-◌, ℕ, IfSome};
ghost use Rattle.command_line.specs.CommandLine as line;
ghost use Rattle.command_line.specs.Words.{command_line_in, command_of_four, command_of_one, command_of_three, grow_of, kind_of, level_of, meaning, number_from, routers_of, topo_at, IsTopology};
ghost use Rattle.command_line.specs.declared.arguments.Arguments.TheVariants as arguments;

use domain_conf::system_octets;
use itoa::Buffer;
use wire_base::limits::MOST_ROUTERS;
use wire_base::{Level, SystemId};

/// The commands that execute a schedule in a domain.
#[derive(Clone, Copy, Debug, PartialEq, Eq)]
pub enum ScheduleKind {
    /// `replay`, which writes a capture in the pcap format, with microseconds.
    Replay,
    /// `replay-ng`, which writes pcapng, with an interface for each interface of the domain.
    ReplayNg,
    /// `handshake`, in whose schedule interfaces come up and go down by hellos (RFC 5303).
    Handshake,
    /// `check`, whose schedule also asks whether the domain is quiet and which BFR-ids are covered.
    Check,
}

/// The command that the arguments name. Paths are as given.
#[derive(Clone, Copy, Debug, PartialEq, Eq)]
pub enum Arguments<'a> {
    /// `replay CONF SCHEDULE FRAMES`, and the other commands that execute a schedule.
    Replay {
        kind: ScheduleKind,
        conf: &'a str,
        schedule: &'a str,
        frames: &'a str,
    },
    /// `node CONF ROUTER CAPTURE FRAMES`
    Node {
        conf: &'a str,
        router: &'a str,
        capture: &'a str,
        frames: &'a str,
    },
    /// `hop INPUT`
    Hop {
        input: &'a str,
    },
    /// `headers CAPTURE`
    Headers {
        capture: &'a str,
    },
    /// `grow N`: the number of routers, 3 to `MOST_ROUTERS`.
    Grow {
        routers: u16,
    },
    /// `topo CAPTURE LEVEL MT FROM`: the topology, 0 to 4,095 (RFC 5120, 7), and the system that paths start at.
    Topo {
        capture: &'a str,
        level: Level,
        mt: u16,
        from: SystemId,
    },
    /// An unknown command line.
    Unknown,
}

/// The line that is reported for an unknown command line.
pub const USAGE: &[u8] =
    b"usage: bier_domain replay CONF SCHEDULE FRAMES | node CONF ROUTER CAPTURE FRAMES | hop INPUT | headers CAPTURE | grow N | handshake CONF SCHEDULE FRAMES | topo CAPTURE LEVEL MT FROM | replay-ng CONF SCHEDULE FRAMES | check CONF SCHEDULE FRAMES\n";

/// Parses a number from `low` to `end - 1`, in decimal digits without a leading zero.
#[tactic(auto, unfolding(crate::specs::Words::number_from))]
fn number_in(word: &[u8], low: u16, end: u16) -> Option<u16>
    requires { low ≤ end }
    ensures value { result ≡ number_from low (end - low) word.now }
    ensures some { IfSome result (λ n. low ≤ n) }
    ensures few { IfSome result (λ n. n < end) }
{
    for n in low..end {
        let mut digits = Buffer::new();
        if digits.format(n).as_bytes() == word {
            return Some(n);
        }
    }
    None
}

/// Returns the arguments `grow N`.
fn grow_by<'a>(word: &[u8]) -> Arguments<'a>
    ensures value { meaning result ≡ grow_of (routers_of word.now) }
    ensures some { (n : ℕ) → result ≡ arguments.Grow n → 3 ≤ n }
    ensures few { (n : ℕ) → result ≡ arguments.Grow n → n ≤ MOST_ROUTERS }
{
    match number_in(word, 3, MOST_ROUTERS as u16 + 1) {
        Some(routers) => Arguments::Grow { routers },
        None => Arguments::Unknown,
    }
}

/// Parses a level, `1` or `2`.
#[tactic(auto, unfolding(crate::specs::Words::level_of))]
fn level_in(word: &str) -> Option<Level>
    ensures { result ≡ level_of word.now }
{
    match word {
        "1" => Some(Level::One),
        "2" => Some(Level::Two),
        _ => None,
    }
}

/// Returns the arguments `topo CAPTURE LEVEL MT FROM`.
fn topo_by<'a>(capture: &'a str, level: &str, mt: &str, from: &str) -> Arguments<'a>
    ensures value { meaning result ≡ topo_at capture.now (level_of level.now) mt.now from.now }
    ensures topology { IsTopology result }
    ensures not_grow { (n : ℕ) → result ≡ arguments.Grow n → ⊥ }
{
    let Some(level) = level_in(level) else {
        return Arguments::Unknown;
    };
    let Some(mt) = number_in(mt.as_bytes(), 0, 4096) else {
        return Arguments::Unknown;
    };
    let Some(octets) = system_octets(from.as_bytes()) else {
        return Arguments::Unknown;
    };
    let from = SystemId(octets);
    Arguments::Topo {
        capture,
        level,
        mt,
        from,
    }
}

/// Returns the command with one argument that the first word selects.
fn with_one<'a>(command: &str, argument: &'a str) -> Arguments<'a>
    ensures value { meaning result ≡ command_of_one command.now argument.now }
    ensures some { (n : ℕ) → result ≡ arguments.Grow n → 3 ≤ n }
    ensures few { (n : ℕ) → result ≡ arguments.Grow n → n ≤ MOST_ROUTERS }
    ensures topology { IsTopology result }
{
    match command {
        "hop" => Arguments::Hop { input: argument },
        "headers" => Arguments::Headers { capture: argument },
        "grow" => grow_by(argument.as_bytes()),
        _ => Arguments::Unknown,
    }
}

/// Returns the command of that name that executes a schedule.
#[tactic(auto, unfolding(crate::specs::Words::kind_of))]
fn kind_in(command: &str) -> Option<ScheduleKind>
    ensures { result ≡ kind_of command.now }
{
    match command {
        "replay" => Some(ScheduleKind::Replay),
        "replay-ng" => Some(ScheduleKind::ReplayNg),
        "handshake" => Some(ScheduleKind::Handshake),
        "check" => Some(ScheduleKind::Check),
        _ => None,
    }
}

/// Returns the command with a domain file, a schedule and a capture that the first word selects.
fn with_three<'a>(command: &str, conf: &'a str, schedule: &'a str, frames: &'a str) -> Arguments<'a>
    ensures value { meaning result ≡ command_of_three command.now conf.now schedule.now frames.now }
    ensures topology { IsTopology result }
    ensures not_grow { (n : ℕ) → result ≡ arguments.Grow n → ⊥ }
{
    match kind_in(command) {
        Some(kind) => Arguments::Replay {
            kind,
            conf,
            schedule,
            frames,
        },
        None => Arguments::Unknown,
    }
}

/// Returns the command with four arguments that the first word selects.
fn with_four<'a>(
    command: &str,
    first: &'a str,
    second: &'a str,
    third: &'a str,
    fourth: &'a str,
) -> Arguments<'a>
    ensures value { meaning result ≡ command_of_four command.now first.now second.now third.now fourth.now }
    ensures topology { IsTopology result }
    ensures not_grow { (n : ℕ) → result ≡ arguments.Grow n → ⊥ }
{
    match command {
        "node" => Arguments::Node {
            conf: first,
            router: second,
            capture: third,
            frames: fourth,
        },
        "topo" => topo_by(first, second, third, fourth),
        _ => Arguments::Unknown,
    }
}

/// Parses the arguments that follow the program's name. Each is compared exactly; there are no options.
#[tactic(auto, unfolding(crate::specs::Words::command_line))]
pub fn parse<'a>(words: &[&'a str]) -> Arguments<'a>
    ensures value { meaning result ≡ command_line_in words.now }
    ensures some { (n : ℕ) → result ≡ arguments.Grow n → 3 ≤ n }
    ensures few { (n : ℕ) → result ≡ arguments.Grow n → n ≤ MOST_ROUTERS }
    ensures topology { IsTopology result }
{
    match words {
        [command, argument] => with_one(*command, *argument),
        [command, conf, schedule, frames] => with_three(*command, *conf, *schedule, *frames),
        [command, first, second, third, fourth] => {
            with_four(*command, *first, *second, *third, *fourth)
        }
        _ => Arguments::Unknown,
    }
}
