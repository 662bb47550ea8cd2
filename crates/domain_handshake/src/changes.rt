//! What is reported of hellos, and the events of the domain that follow.
ghost use Rattle.std.specs.Prelude.{◌≡◌, ◌++◌, ◌≤◌, ◌<◌, length, IfSome, OnOk};
ghost use Rattle.std.specs.List.{AllByRecursion};
ghost use Rattle.wire_base.specs.declared.limits.TheConstants.{MOST_ROUTERS};
ghost use Rattle.wire_base.specs.model.Configuration.{IsSound};
ghost use Rattle.domain_handshake.specs.Lines as spec;

use domain_model::{EventFault, WireFrame};
use isis_hello::{CircuitFault, EndChange};
use replay_report::{Recording, push_name, push_record};
use replay_text::Event;
use wire_base::{HelloEvent, M, Octets, RouterConf};

/// Returns the event of the interface that goes with a change of its adjacency.
pub(crate) fn event_of(change: EndChange) -> Event
    ensures { result ≡ spec.change_event change }
{
    let EndChange {
        router: from,
        peer: to,
        up,
    } = change;
    if up {
        Event::Up { from, to }
    } else {
        Event::Down { from, to }
    }
}

/// Returns the reason why a hello event is not allowed as reports print it.
pub(crate) fn fault_of(why: CircuitFault) -> EventFault
    ensures { result ≡ spec.fault_of why }
{
    match why {
        CircuitFault::Events => EventFault::Events,
        CircuitFault::NoLink => EventFault::NoLink,
        CircuitFault::EndState => EventFault::EndState,
        CircuitFault::InFlight => EventFault::InFlight,
        CircuitFault::NoFrame(i, count) => EventFault::NoFrame(i, count),
        CircuitFault::Memory => EventFault::Memory,
    }
}

/// Appends the line of a change: `LINE up ROUTER PEER` or `LINE down ROUTER PEER`.
fn push_change(out: &mut Octets, routers: &[RouterConf], line: u32, change: EndChange) -> M<()>
    ensures { OnOk result (out.new ≡ out.old ++ spec.change_text routers.now line change) }
{
    out.append_number(u64::from(line))?;
    out.append(if change.up { b" up " } else { b" down " })?;
    push_name(out, routers, change.router)?;
    out.push(b' ')?;
    push_name(out, routers, change.peer)?;
    out.push(b'\n')
}

/// Appends the lines of some changes, in order.
pub(crate) fn push_changes(
    out: &mut Octets,
    routers: &[RouterConf],
    line: u32,
    changes: &[EndChange],
) -> M<()>
    ensures { OnOk result (out.new ≡ out.old ++ spec.changes_text routers.now line changes.now) }
{
    for change in changes {
        push_change(out, routers, line, *change)?;
    }
    Ok(())
}

/// Appends the record of the frame of an event, if it sent one.
pub(crate) fn push_sent(
    out: &mut Octets,
    recording: Recording,
    routers: &[RouterConf],
    line: u32,
    event: &HelloEvent,
    sent: Option<Octets>,
) -> M<()>
    requires few { length routers.now ≤ MOST_ROUTERS }
    requires sound { AllByRecursion IsSound routers.now }
    requires short { IfSome sent (λ frame. length frame < 65536) }
    ensures { OnOk result (out.new ≡ out.old ++ spec.sent_record recording routers.now line event.now sent) }
{
    if let HelloEvent::Hello { from, to } = event {
        if let Some(octets) = sent {
            let frame = WireFrame {
                from: *from,
                to: *to,
                octets,
            };
            return push_record(out, recording, routers, line, &frame);
        }
    }
    Ok(())
}
