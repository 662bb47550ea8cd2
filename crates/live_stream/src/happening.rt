//! What an event does at a router.
ghost use Rattle.std.specs.Prelude.{◌≡◌, ◌≤◌, ◌<◌, ◌^◌, length, IfOk, IfSome};
ghost use Rattle.replay_text.specs.Events.{EventFits};
ghost use Rattle.router_core.specs.Bounds.{FitRecords};
ghost use Rattle.live_stream.specs.Events as events;
ghost use Rattle.live_stream.specs.Events.{Happened, Entered};

use crate::fault::LiveFault;
use crate::seat::Seat;
use replay_text::Event;
use router_core::{Effects, Router};
use std::alloc::Global;
use wire_base::limits::MOST_PAYLOAD;
use wire_base::{Bsl, EdgeFault, M, Memory};

/// What an event did: the effects, whose frames fit records of a capture, or why it was not done.
type Outcome = Result<Effects, LiveFault>;

/// An interface comes up.
fn come_up(alloc: Global, router: &mut Router, link: Option<u16>) -> M<Outcome>
    requires { IfSome link (λ l. l < length router.old.control.conf.ends) }
    ensures done { IfOk result (λ done. Happened done (events.over link (events.comes_up router.old.control)) router.old.control router.new.control) }
    ensures sizes { IfOk result (λ done. IfOk done (λ e. FitRecords e.sent)) }
{
    let Some(link) = link else {
        return Ok(Err(LiveFault::NoLink));
    };
    if router.is_up(link) {
        return Ok(Err(LiveFault::EndState));
    }
    router.end_up(link)?;
    Ok(Ok(Effects::nothing(alloc)))
}

/// An interface goes down.
fn go_down(alloc: Global, router: &mut Router, link: Option<u16>) -> M<Outcome>
    ensures done { IfOk result (λ done. Happened done (events.over link (events.goes_down router.old.control)) router.old.control router.new.control) }
    ensures sizes { IfOk result (λ done. IfOk done (λ e. FitRecords e.sent)) }
{
    let Some(link) = link else {
        return Ok(Err(LiveFault::NoLink));
    };
    if !router.is_up(link) {
        return Ok(Err(LiveFault::EndState));
    }
    router.end_down(link)?;
    Ok(Ok(Effects::nothing(alloc)))
}

/// The router sends what is due on an interface.
fn send(router: &mut Router, link: Option<u16>) -> M<Outcome>
    ensures done { IfOk result (λ done. Happened done (events.over link (events.sends router.old.control)) router.old.control router.new.control) }
    ensures sizes { IfOk result (λ done. IfOk done (λ e. FitRecords e.sent)) }
{
    let Some(link) = link else {
        return Ok(Err(LiveFault::NoLink));
    };
    if !router.is_up(link) {
        return Ok(Err(LiveFault::EndState));
    }
    Ok(Ok(router.send(link)?))
}

/// Returns the interface that leads to a router of the domain.
fn link_to(router: &Router, seat: &Seat, to: u16) -> Option<u16>
    ensures link { result ≡ events.link_to seat.now router.now.control to }
    ensures there { IfSome result (λ link. link < length router.now.control.conf.ends) }
{
    seat.link_to(router.conf().ends.as_slice(), to)
}

/// Returns the outcome of an injection. Out of memory is no reason.
fn entered(done: Result<Effects, EdgeFault>) -> M<Outcome>
    requires { IfOk done (λ e. FitRecords e.sent) }
    ensures done { IfOk result (λ outcome. Entered done outcome) }
    ensures sizes { IfOk result (λ done. IfOk done (λ e. FitRecords e.sent)) }
{
    match done {
        Ok(effects) => Ok(Ok(effects)),
        Err(EdgeFault::Memory) => Err(Memory),
        Err(EdgeFault::NoEgress) => Ok(Err(LiveFault::Edge(EdgeFault::NoEgress))),
        Err(EdgeFault::IdZero) => Ok(Err(LiveFault::Edge(EdgeFault::IdZero))),
        Err(EdgeFault::SiLarge(id)) => Ok(Err(LiveFault::Edge(EdgeFault::SiLarge(id)))),
        Err(EdgeFault::NotBfr) => Ok(Err(LiveFault::Edge(EdgeFault::NotBfr))),
        Err(EdgeFault::BslUnknown) => Ok(Err(LiveFault::Edge(EdgeFault::BslUnknown))),
    }
}

/// A payload enters.
fn enter(
    router: &mut Router,
    sd: u8,
    bsl: Bsl,
    ids: &[u16],
    header: (u8, u32),
    payload: &[u8],
) -> M<Outcome>
    requires ttl { 0 < header.0 }
    requires entropy { header.1 < 2 ^ 20 }
    requires payload { length payload.now ≤ MOST_PAYLOAD }
    ensures done { IfOk result (λ done. Happened done (events.enters router.old.control sd bsl ids.now header.0 header.1 payload.now) router.old.control router.new.control) }
    ensures sizes { IfOk result (λ done. IfOk done (λ e. FitRecords e.sent)) }
{
    let (ttl, entropy) = header;
    let done = router.inject(sd, bsl, ids, ttl, entropy, payload);
    entered(done)
}

/// Returns the router at which an event happens; none if it is not an event of one running router.
fn router_of(event: &Event) -> Option<u16>
    ensures { result ≡ events.router_of event.now }
{
    match event {
        Event::Inject { router, .. } | Event::Tick { router } | Event::Restart { router } => {
            Some(*router)
        }
        Event::Down { from, .. } | Event::Up { from, .. } | Event::Send { from, .. } => Some(*from),
        Event::Take { .. }
        | Event::Lose { .. }
        | Event::Again { .. }
        | Event::Relabel { .. }
        | Event::Leave { .. }
        | Event::Join { .. } => None,
    }
}

/// Lets an event happen at the router.
fn do_event(alloc: Global, router: &mut Router, seat: &Seat, event: &Event) -> M<Outcome>
    requires fits { EventFits (length seat.now.domain.routers) event.now }
    ensures done { IfOk result (λ done. Happened done (events.done_at seat.now router.old.control event.now) router.old.control router.new.control) }
    ensures sizes { IfOk result (λ done. IfOk done (λ e. FitRecords e.sent)) }
{
    match event {
        Event::Inject {
            sd,
            bsl,
            ids,
            ttl,
            entropy,
            payload,
            ..
        } => enter(
            router,
            *sd,
            *bsl,
            ids.as_slice(),
            (*ttl, *entropy),
            payload.as_slice(),
        ),
        Event::Down { to, .. } => {
            let link = link_to(router, seat, *to);
            go_down(alloc, router, link)
        }
        Event::Up { to, .. } => {
            let link = link_to(router, seat, *to);
            come_up(alloc, router, link)
        }
        Event::Send { to, .. } => {
            let link = link_to(router, seat, *to);
            send(router, link)
        }
        Event::Tick { .. } => Ok(Ok(router.tick()?)),
        Event::Restart { .. } => {
            router.restart()?;
            Ok(Ok(Effects::nothing(alloc)))
        }
        Event::Take { .. }
        | Event::Lose { .. }
        | Event::Again { .. }
        | Event::Relabel { .. }
        | Event::Leave { .. }
        | Event::Join { .. } => Ok(Err(LiveFault::Kind)),
    }
}

/// Lets an event happen at the router with that place in the domain. One that is not done has changed nothing.
#[tactic(auto, unfolding(crate::specs::Events::event_next))]
pub fn happen(alloc: Global, router: &mut Router, seat: &Seat, event: &Event) -> M<Outcome>
    requires fits { EventFits (length seat.now.domain.routers) event.now }
    ensures done { IfOk result (λ done. Happened done (events.event_next seat.now router.old.control event.now) router.old.control router.new.control) }
    ensures sizes { IfOk result (λ done. IfOk done (λ e. FitRecords e.sent)) }
{
    let Some(at) = router_of(event) else {
        return Ok(Err(LiveFault::Kind));
    };
    if !seat.is_own(at) {
        return Ok(Err(LiveFault::Router));
    }
    do_event(alloc, router, seat, event)
}
