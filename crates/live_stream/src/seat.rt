//! The place of a router in its domain, by which the names in events are understood.
ghost use Rattle.std.specs.Prelude.{◌≡◌, ◌≢◌, ◌≤◌, ◌<◌, length, slice_get, Err, IfOk, IfSome, OnOk};
ghost use Rattle.replay_text.specs.Hand.{hand_line};
ghost use Rattle.replay_text.specs.Schedule.{schedule_line};
ghost use Rattle.replay_text.specs.declared.fault.TextFault.TheVariants as texts;
ghost use Rattle.replay_text.specs.Events.{EventFits};
ghost use Rattle.live_stream.specs.Events as events;
ghost use Rattle.live_stream.specs.Events.{names_of};
ghost use Rattle.live_stream.specs.HelloRun as hello;

use crate::event::EVENT_VERSION;
use crate::fault::LiveFault;
use crate::greeting::{Greeting, one_greeting};
use replay_text::{Event, Line, TextFault, read_hand_line, read_line};
use std::alloc::Global;
use std::marker::Model;
use wire_base::limits::MOST_ROUTERS;
use wire_base::{Domain, End, M, Memory, Name, RouterConf, Rows, SystemId, end_toward};

/// The domain, the names of its routers, and the index of the router that runs.
#[derive(Drop)]
pub struct Seat {
    domain: Domain,
    names: Rows<Name>,
    place: u16,
}

impl Model for Seat {
    ghost use Rattle.live_stream.specs.Events.{Seat, IsSeat};

    ghost Value = { Seat };

    ghost view = { λ s. record { domain = s.domain; place = s.place } };

    ghost invariant = { λ s. IsSeat s.domain s.names };
}

/// Returns the names of a domain's routers, by index.
fn names_in(alloc: Global, domain: &Domain) -> M<Rows<Name>>
    ensures names { IfOk result (λ names. names ≡ names_of domain.now) }
    ensures few { IfOk result (λ names. length names ≤ MOST_ROUTERS) }
{
    let mut names = Rows::new(alloc);
    for router in domain.routers.as_slice() {
        names.push(router.name.copy()?)?;
    }
    Ok(names)
}

/// Returns the name of the first router with a system ID; empty if there is none.
fn name_in(routers: &[RouterConf], system: SystemId) -> &[u8]
    ensures { result.now ≡ hello.name_in routers.now system }
{
    match routers {
        [] => &[],
        [router, _rest @ ..] if router.system == system => router.name.as_slice(),
        [_router, rest @ ..] => name_in(rest, system),
    }
}

/// Returns the event of a line. Out of memory is no reason against one.
fn one_event(line: Result<Line, TextFault>) -> M<Result<Event, LiveFault>>
    ensures value { IfOk result (λ found. found ≡ events.one_event line) }
    ensures known { OnOk result (line ≢ Err texts.Memory) }
{
    match line {
        Ok(Line::One(event)) => Ok(Ok(event)),
        Ok(Line::Empty) | Ok(Line::Settle(_)) => Ok(Err(LiveFault::Kind)),
        Err(TextFault::Memory) => Err(Memory),
        Err(why) => Ok(Err(LiveFault::Line(why))),
    }
}

/// Returns the event that a text spells in a domain whose routers have those names.
fn event_of(alloc: Global, text: &[u8], names: &Rows<Name>) -> M<Result<Event, LiveFault>>
    requires few { length names.now ≤ 65536 }
    ensures read { IfOk result (λ found. found ≡ events.one_event (schedule_line text.now names.now)) }
    ensures fits { IfOk result (λ found. IfOk found (EventFits (length names.now))) }
{
    one_event(read_line(alloc, text, names))
}

/// Returns the event of hellos that a text spells in a domain whose routers have those names.
fn greeting_of(alloc: Global, text: &[u8], names: &Rows<Name>) -> M<Result<Greeting, LiveFault>>
    requires few { length names.now ≤ 65536 }
    ensures { IfOk result (λ found. found ≡ hello.one_greeting (hand_line text.now names.now)) }
{
    one_greeting(read_hand_line(alloc, text, names))
}

impl Seat {
    /// Returns the place of the router at that index of a domain.
    pub fn new(alloc: Global, domain: Domain, place: u16) -> M<Self>
        ensures { IfOk result (λ seat. seat ≡ record { domain = domain; place = place }) }
    {
        let names = names_in(alloc, &domain)?;
        Ok(Seat {
            domain,
            names,
            place,
        })
    }

    /// Returns the event that the content of an event's frame spells: a version octet, and a line of a schedule in the domain.
    pub fn read(&self, alloc: Global, octets: &[u8]) -> M<Result<Event, LiveFault>>
        ensures read { IfOk result (λ found. found ≡ events.event_at (names_of self.now.domain) octets.now) }
        ensures fits { IfOk result (λ found. IfOk found (EventFits (length self.now.domain.routers))) }
    {
        match octets {
            [EVENT_VERSION, text @ ..] => event_of(alloc, text, &self.names),
            _ => Ok(Err(LiveFault::Version)),
        }
    }

    /// Returns the event of hellos that the content of an event's frame spells: a version octet, and a line of a schedule of hellos.
    pub fn read_greeting(&self, alloc: Global, octets: &[u8]) -> M<Result<Greeting, LiveFault>>
        ensures { IfOk result (λ found. found ≡ hello.greeting_at (names_of self.now.domain) octets.now) }
    {
        match octets {
            [EVENT_VERSION, text @ ..] => greeting_of(alloc, text, &self.names),
            _ => Ok(Err(LiveFault::Version)),
        }
    }

    /// Returns the name of the router with a system ID.
    pub fn name_of(&self, system: SystemId) -> &[u8]
        ensures { result.now ≡ hello.name_in self.now.domain.routers system }
    {
        name_in(self.domain.routers.as_slice(), system)
    }

    /// Returns whether that router is the one that runs.
    pub fn is_own(&self, router: u16) -> bool
        ensures { result ≡ events.is_own self.now router }
    {
        router == self.place
    }

    /// Returns the interface among those of the router that leads to the router at an index.
    pub fn link_to(&self, ends: &[End], to: u16) -> Option<u16>
        requires { length ends.now ≤ 65535 }
        ensures link { result ≡ events.toward ends.now (slice_get self.now.domain.routers to) }
        ensures there { IfSome result (λ link. link < length ends.now) }
    {
        let routers = self.domain.routers.as_slice();
        if usize::from(to) >= routers.len() {
            return None;
        }
        end_toward(ends, routers[usize::from(to)].system)
    }
}
