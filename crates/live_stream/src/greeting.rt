//! The events of hellos in a live stream.
ghost use Rattle.std.specs.Prelude.{◌≡◌, ◌≢◌, Err, IfOk, OnOk};
ghost use Rattle.replay_text.specs.declared.fault.TextFault.TheVariants as texts;
ghost use Rattle.live_stream.specs.HelloRun as hello;

use crate::fault::LiveFault;
use replay_text::{Event, HandLine, Line, TextFault};
use wire_base::{HelloEvent, M, Memory};

/// An event of hellos. Routers are named by their indices in the domain.
#[derive(Clone, Copy, Debug, PartialEq, Eq)]
pub enum Greeting {
    /// The first router sends a hello to the second.
    Hello { from: u16, to: u16 },
    /// The first router's circuit toward the second fails.
    Break { from: u16, to: u16 },
    /// The first router's circuit toward the second works again.
    Mend { from: u16, to: u16 },
    /// A second passes at a router.
    Second { router: u16 },
}

impl Greeting {
    /// Returns the router at which the event happens.
    pub fn router(self) -> u16
        ensures { result ≡ hello.router_at self }
    {
        match self {
            Greeting::Hello { from, .. }
            | Greeting::Break { from, .. }
            | Greeting::Mend { from, .. } => { from }
            Greeting::Second { router } => router,
        }
    }
}

fn greeting_of(event: HelloEvent) -> Result<Greeting, LiveFault>
    ensures { result ≡ hello.greeting_of event }
{
    match event {
        HelloEvent::Hello { from, to } => Ok(Greeting::Hello { from, to }),
        HelloEvent::Break { from, to } => Ok(Greeting::Break { from, to }),
        HelloEvent::Mend { from, to } => Ok(Greeting::Mend { from, to }),
        HelloEvent::Greet { .. }
        | HelloEvent::Forget { .. }
        | HelloEvent::Tick { .. }
        | HelloEvent::Restart { .. } => Err(LiveFault::Kind),
    }
}

fn second_of(event: &Event) -> Result<Greeting, LiveFault>
    ensures { result ≡ hello.second_of event.now }
{
    match event {
        Event::Tick { router } => Ok(Greeting::Second { router: *router }),
        Event::Inject { .. }
        | Event::Take { .. }
        | Event::Lose { .. }
        | Event::Again { .. }
        | Event::Down { .. }
        | Event::Up { .. }
        | Event::Send { .. }
        | Event::Restart { .. }
        | Event::Relabel { .. }
        | Event::Leave { .. }
        | Event::Join { .. } => Err(LiveFault::Kind),
    }
}

fn said(line: &HandLine) -> Result<Greeting, LiveFault>
    ensures { result ≡ hello.said line.now }
{
    match line {
        HandLine::Hello(event) => greeting_of(*event),
        HandLine::Base(Line::One(event)) => second_of(event),
        HandLine::Base(Line::Empty) | HandLine::Base(Line::Settle(_)) => Err(LiveFault::Kind),
    }
}

/// Returns the event of a line. Out of memory is no reason against one.
pub fn one_greeting(line: Result<HandLine, TextFault>) -> M<Result<Greeting, LiveFault>>
    ensures value { IfOk result (λ found. found ≡ hello.one_greeting line) }
    ensures known { OnOk result (line ≢ Err texts.Memory) }
{
    match line {
        Ok(line) => Ok(said(&line)),
        Err(TextFault::Memory) => Err(Memory),
        Err(why) => Ok(Err(LiveFault::Line(why))),
    }
}
