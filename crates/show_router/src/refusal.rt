//! Why there is no answer, in one line, and the status of each reason.
ghost use Rattle.wire_base.specs.declared.status.Status.TheVariants as status;
ghost use Rattle.show_router.specs.Endings.{Ends};

use crate::ending::NoAnswer;
use command_drive::{RecordFault, refuse_by};
use domain_model::EventFault;
use replay_report::{push_event_refused, push_text_refused};
use replay_text::TextFault;
use std::alloc::{AllocError, Global};
use wire_base::{EdgeFault, M, Memory, Octets, Status};

/// Returns the refusal with a line that was made, or that memory ran out.
fn refused(status: Status, line: M<Octets>) -> NoAnswer
    ensures { Ends status result }
{
    match line {
        Ok(line) => NoAnswer::Refused(status, line),
        Err(Memory) => NoAnswer::Stopped(Status::Memory),
    }
}

/// Returns the same of a line as text.
fn refused_by(status: Status, line: Result<String, AllocError>) -> NoAnswer
    ensures { Ends status result }
{
    match line {
        Ok(line) => NoAnswer::Refused(status, Octets::from_vec(line.into_bytes())),
        Err(_) => NoAnswer::Stopped(Status::Memory),
    }
}

/// Returns the name of a rule as text.
fn text(name: &[u8]) -> &str {
    std::str::from_utf8(name).unwrap_or("?")
}

/// The refusal of a name that no router has, by the number of its word: `refused conf 6 Reference words[N]`.
pub fn no_router(alloc: Global, word: u8) -> NoAnswer
    ensures { Ends status.ConfRefused result }
{
    let line = format!(in alloc; "refused conf 6 Reference words[{word}]\n");
    refused_by(Status::ConfRefused, line)
}

/// The refusal of a line that is not in the grammar: `refused LINE text N NAME`.
pub fn text_refused(alloc: Global, number: u32, why: TextFault) -> NoAnswer
    ensures { Ends status.InputRefused result }
{
    let mut line = Octets::new(alloc);
    let made = push_text_refused(alloc, &mut line, u64::from(number), why);
    refused(Status::InputRefused, made.map(|()| line))
}

/// The refusal of an event that is not allowed: `refused LINE event N NAME`.
pub fn event_refused(alloc: Global, number: u32, why: EventFault) -> NoAnswer
    ensures { Ends status.InputRefused result }
{
    let mut line = Octets::new(alloc);
    let made = push_event_refused(alloc, &mut line, u64::from(number), why);
    refused(Status::InputRefused, made.map(|()| line))
}

/// The refusal of a LINE or RECORD that does not exist: how many there are.
pub fn too_few(alloc: Global, what: &str, count: u32) -> NoAnswer
    ensures { Ends status.Usage result }
{
    refused_by(
        Status::Usage,
        format!(in alloc; "refused words {what} {count}\n"),
    )
}

/// The refusal of a capture at its next record, after that many: `refused record RECORD N NAME`.
pub fn capture_refused(alloc: Global, records: u32, why: RecordFault) -> NoAnswer
    ensures { Ends status.CaptureRefused result }
{
    let mut line = Octets::new(alloc);
    let made = refuse_by(&mut line, u64::from(records), why);
    refused(Status::CaptureRefused, made.map(|_| line))
}

/// The refusal of a record that is too long after the one before it: `refused record RECORD 7 Gap A B`, with both seconds.
pub fn gap_refused(alloc: Global, record: u32, from: u32, to: u32) -> NoAnswer
    ensures { Ends status.CaptureRefused result }
{
    let line = format!(in alloc; "refused record {record} 7 Gap {from} {to}\n");
    refused_by(Status::CaptureRefused, line)
}

/// The refusal of the words of a packet: `refused packet N NAME`.
pub fn packet_refused(alloc: Global, why: TextFault) -> NoAnswer
    ensures { Ends status.Usage result }
{
    if why == TextFault::Memory {
        return NoAnswer::Stopped(Status::Memory);
    }
    let (number, name) = (why.number(), text(why.name()));
    refused_by(
        Status::Usage,
        format!(in alloc; "refused packet {number} {name}\n"),
    )
}

/// The refusal of the BFR-ids of a packet: `refused packet edge N NAME`.
pub fn ids_refused(alloc: Global, why: EdgeFault) -> NoAnswer
    ensures { Ends status.Usage result }
{
    let (number, name) = (why.number(), text(why.name()));
    refused_by(
        Status::Usage,
        format!(in alloc; "refused packet edge {number} {name}\n"),
    )
}
