//! The words of the command line.
use show_tables::Detail;

/// The line that answers an unknown command line.
pub const USAGE: &str =
    "usage: show_router replay CONF SCHEDULE LINE ROUTER WHAT [--json] | show_router node CONF ROUTER CAPTURE RECORD WHAT [--json] | show_router follow CONF SCHEDULE; WHAT is database [detail], interfaces, topology, birt, bift, or packet SD BSL IDS TTL ENTROPY\n";

/// The form of the answer.
#[derive(Clone, Copy)]
pub enum Form {
    /// Columns for people.
    Columns,
    /// A JSON object for each row, by the last word `--json`.
    Json,
}

/// When the router is looked at.
#[derive(Clone, Copy)]
pub enum Moment<'a> {
    /// After a line of a schedule, from 1; 0 is before the first one.
    Line { schedule: &'a str, line: u32 },
    /// After a record of a capture of what the router received, from 1; 0 is before the first one.
    Record { capture: &'a str, record: u32 },
}

/// The words of a packet: those of an `inject` line without its router and its payload.
#[derive(Clone, Copy)]
pub struct PacketWords<'a> {
    pub sd: &'a str,
    pub bsl: &'a str,
    pub ids: &'a str,
    pub ttl: &'a str,
    pub entropy: &'a str,
}

/// What is asked of the router.
#[derive(Clone, Copy)]
pub enum What<'a> {
    Database(Detail),
    Interfaces,
    Topology,
    Birt,
    Bift,
    Packet(PacketWords<'a>),
}

/// A question: the domain file, the router's name, when it is looked at, what is asked, and the form of the answer.
#[derive(Clone, Copy)]
pub struct Look<'a> {
    pub conf: &'a str,
    pub router: &'a str,
    pub moment: Moment<'a>,
    pub what: What<'a>,
    pub form: Form,
}

impl<'a> Look<'a> {
    /// Returns the number of the word that is the router's name, from 0.
    pub fn router_word(&self) -> u8 {
        match self.moment {
            Moment::Line { .. } => 4,
            Moment::Record { .. } => 2,
        }
    }
}

/// What the command line asks for.
#[derive(Clone, Copy)]
pub enum Request<'a> {
    /// A table of a router.
    Look(Look<'a>),
    /// All tables of all routers before the first line of a schedule, and after each line those that changed.
    Follow { conf: &'a str, schedule: &'a str },
}

/// Parses the words after the program's name. None for an unknown command line.
pub fn parse<'a>(words: &[&'a str]) -> Option<Request<'a>> {
    match words {
        [command, conf, schedule] if *command == "follow" => Some(Request::Follow {
            conf: *conf,
            schedule: *schedule,
        }),
        _ => Some(Request::Look(look_with(words)?)),
    }
}

fn look_with<'a>(words: &[&'a str]) -> Option<Look<'a>> {
    match words.split_last() {
        Some((last, rest)) if *last == "--json" => look_in(rest, Form::Json),
        _ => look_in(words, Form::Columns),
    }
}

fn look_in<'a>(words: &[&'a str], form: Form) -> Option<Look<'a>> {
    match words {
        [command, conf, second, third, fourth, what @ ..] => {
            let (router, moment) = moment_in(*command, *second, *third, *fourth)?;
            Some(Look {
                conf: *conf,
                router,
                moment,
                what: what_in(what)?,
                form,
            })
        }
        _ => None,
    }
}

/// Returns the router's name and the moment.
fn moment_in<'a>(
    command: &str,
    second: &'a str,
    third: &'a str,
    fourth: &'a str,
) -> Option<(&'a str, Moment<'a>)> {
    match command {
        "replay" => {
            let line = number_in(third)?;
            let schedule = second;
            Some((fourth, Moment::Line { schedule, line }))
        }
        "node" => {
            let record = number_in(fourth)?;
            let capture = third;
            Some((second, Moment::Record { capture, record }))
        }
        _ => None,
    }
}

fn number_in(word: &str) -> Option<u32> {
    word.parse::<u32>().ok()
}

fn what_in<'a>(words: &[&'a str]) -> Option<What<'a>> {
    match words {
        [what] => plain_what(*what),
        [what, detail] if *what == "database" && *detail == "detail" => {
            Some(What::Database(Detail::Tlvs))
        }
        [what, sd, bsl, ids, ttl, entropy] if *what == "packet" => {
            Some(What::Packet(PacketWords {
                sd: *sd,
                bsl: *bsl,
                ids: *ids,
                ttl: *ttl,
                entropy: *entropy,
            }))
        }
        _ => None,
    }
}

fn plain_what<'a>(what: &str) -> Option<What<'a>> {
    match what {
        "database" => Some(What::Database(Detail::Heads)),
        "interfaces" => Some(What::Interfaces),
        "topology" => Some(What::Topology),
        "birt" => Some(What::Birt),
        "bift" => Some(What::Bift),
        _ => None,
    }
}
