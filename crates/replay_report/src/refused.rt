//! The line that ends a report when a line of a schedule is rejected.
ghost use Rattle.std.specs.Prelude.{◌≡◌, ◌≢◌, ◌++◌, ◌∷◌, [], IfOk, OnOk, OnErr, codes};
ghost use Rattle.std.specs.Fmt.{decimal};
ghost use Rattle.wire_base.specs.declared.faults.EdgeFault.TheVariants as edges;
ghost use Rattle.replay_text.specs.declared.fault.TextFault.TheVariants as texts;
ghost use Rattle.domain_model.specs.declared.fault.EventFault.TheVariants as events;
ghost use Rattle.replay_text.specs.Fault.{rule_text, fault_text};
ghost use Rattle.replay_report.specs.Lines as spec;

use domain_model::EventFault;
use replay_text::{TextFault, push_rule};
use std::alloc::Global;
use wire_base::{EdgeFault, M, Memory, Octets};

/// Returns the line for a text that breaks a rule, as a text of its own.
fn text_line(alloc: Global, line: u64, number: u8, name: &[u8]) -> M<Octets>
    ensures { IfOk result (λ text. text ≡ spec.text_refused_text line (rule_text number name.now)) }
{
    let mut text = Octets::new(alloc);
    text.append(b"refused ")?;
    text.append_number(line)?;
    text.append(b" text ")?;
    push_rule(&mut text, number, name)?;
    text.push(b'\n')?;
    Ok(text)
}

/// Appends the line for a schedule line that is not in the grammar: `refused LINE text N NAME`. If `why` is out of
/// memory, that is returned. In this case, and if an allocation fails, nothing is appended.
pub fn push_text_refused(alloc: Global, out: &mut Octets, line: u64, why: TextFault) -> M<()>
    ensures known { OnOk result (why ≢ texts.Memory) }
    ensures ok { OnOk result (out.new ≡ out.old ++ spec.text_refused_text line (fault_text why)) }
    ensures err { OnErr result (out.new ≡ out.old) }
{
    if why == TextFault::Memory {
        return Err(Memory);
    }
    let text = text_line(alloc, line, why.number(), why.name())?;
    out.append(text.as_slice())
}

/// Appends the line for the schedule line with which the schedule becomes too long: `refused LINE text 6 TooLong`. If
/// an allocation fails, nothing is appended.
pub fn push_too_long(alloc: Global, out: &mut Octets, line: u64) -> M<()>
    ensures ok { OnOk result (out.new ≡ out.old ++ spec.text_refused_text line spec.too_long) }
    ensures err { OnErr result (out.new ≡ out.old) }
{
    let text = text_line(alloc, line, 6, b"TooLong")?;
    out.append(text.as_slice())
}

/// Appends the BFR-id for which a router creates no packets, if the reason has one.
fn push_edge_values(out: &mut Octets, why: EdgeFault) -> M<()>
    ensures { OnOk result (out.new ≡ out.old ++ spec.edge_values why) }
{
    match why {
        EdgeFault::SiLarge(id) => {
            out.push(b' ')?;
            out.append_number(u64::from(id))
        }
        EdgeFault::NoEgress
        | EdgeFault::IdZero
        | EdgeFault::NotBfr
        | EdgeFault::BslUnknown
        | EdgeFault::Memory => Ok(()),
    }
}

/// Appends why a router creates no packets.
fn push_edge(out: &mut Octets, why: EdgeFault) -> M<()>
    ensures { OnOk result (out.new ≡ out.old ++ spec.edge_fault why) }
{
    push_rule(out, why.number(), why.name())?;
    push_edge_values(out, why)
}

/// Appends why an index has no frame.
fn push_no_frame(out: &mut Octets, place: u32, count: usize) -> M<()>
    ensures { OnOk result (out.new ≡ out.old ++ spec.event_fault (events.NoFrame place count)) }
{
    push_rule(out, 5, b"NoFrame")?;
    out.push(b' ')?;
    out.append_number(u64::from(place))?;
    out.push(b' ')?;
    out.append_number(count as u64)
}

/// Appends why an event is not allowed.
fn push_reason(out: &mut Octets, why: EventFault) -> M<()>
    ensures { OnOk result (out.new ≡ out.old ++ spec.event_fault why) }
{
    match why {
        EventFault::Events => push_rule(out, 1, b"Events"),
        EventFault::NoLink => push_rule(out, 2, b"NoLink"),
        EventFault::EndState => push_rule(out, 3, b"EndState"),
        EventFault::InFlight => push_rule(out, 4, b"InFlight"),
        EventFault::NoFrame(place, count) => push_no_frame(out, place, count),
        EventFault::NotControl => push_rule(out, 6, b"NotControl"),
        EventFault::Edge(edge) => {
            push_rule(out, 7, b"Edge")?;
            out.push(b' ')?;
            push_edge(out, edge)
        }
        EventFault::NoSub => push_rule(out, 8, b"NoSub"),
        EventFault::SubState => push_rule(out, 9, b"SubState"),
        EventFault::LabelHigh => push_rule(out, 10, b"LabelHigh"),
        EventFault::LabelUsed(label) => {
            push_rule(out, 11, b"LabelUsed")?;
            out.push(b' ')?;
            out.append_number(u64::from(label))
        }
        EventFault::Relabels => push_rule(out, 12, b"Relabels"),
        EventFault::Memory => Ok(()),
    }
}

/// Returns the line for an event that is not allowed, as a text of its own.
fn event_line(alloc: Global, line: u64, why: EventFault) -> M<Octets>
    ensures { IfOk result (λ text. text ≡ spec.event_refused_text line why) }
{
    let mut text = Octets::new(alloc);
    text.append(b"refused ")?;
    text.append_number(line)?;
    text.append(b" event ")?;
    push_reason(&mut text, why)?;
    text.push(b'\n')?;
    Ok(text)
}

/// Appends the line for an event that is not allowed: `refused LINE event N NAME`, with the reason's values, such as
/// `5 NoFrame 5 3` or `7 Edge 3 SiLarge 65535`. If `why` is out of memory, that is returned. In this case, and if an
/// allocation fails, nothing is appended.
pub fn push_event_refused(alloc: Global, out: &mut Octets, line: u64, why: EventFault) -> M<()>
    ensures known { OnOk result (why ≢ events.Memory) }
    ensures ok { OnOk result (out.new ≡ out.old ++ spec.event_refused_text line why) }
    ensures err { OnErr result (out.new ≡ out.old) }
{
    if why == EventFault::Memory {
        return Err(Memory);
    }
    let text = event_line(alloc, line, why)?;
    out.append(text.as_slice())
}
