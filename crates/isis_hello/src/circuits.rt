//! The circuits of a domain.
ghost use Rattle.std.specs.Prelude.{◌≡◌, ◌∷◌, [], List, None, length, IfOk, OnOk, OnErr, MatchResult, ◌<◌, IfSome};
ghost use Rattle.isis_hello.specs.Circuits.{circuit_between, circuit_over, first_circuits, hellos_between, link_between};
ghost use Rattle.isis_hello.specs.Events.{IsSent, Refuses, circuit_fault, happens, rule_fault, taken_fault};
ghost use Rattle.isis_hello.specs.History.{AllHeld, circuits_after};
ghost use Rattle.wire_base.specs.declared.hello_event.HelloEvent.{HelloEvent as HelloEventItem};
ghost use Rattle.wire_base.specs.declared.hello_event.HelloEvent.TheVariants as events;
ghost use Rattle.wire_base.specs.model.Configuration.{DomainConf, IsValid};

use crate::adjacency::Circuit;
use crate::ends::Ends;
use crate::event::HelloOut;
use crate::fault::CircuitFault;
use crate::hellos::Hellos;
use crate::limits::{MOST_HELLO_EVENTS, MOST_HELLOS};
use crate::links::{confs_of, link_between};
use std::alloc::Global;
use std::marker::Model;
use wire_base::{Domain, HelloEvent, M};

/// The circuits of a domain: whether each works, the state of its adjacency, and the hellos in flight (ISO/IEC 10589, 8.2;
/// RFC 5303, 3).
#[derive(Drop)]
pub struct Circuits {
    pub(crate) domain: Domain,
    pub(crate) ends: Ends,
    pub(crate) hellos: Hellos,
    pub(crate) events: u32,
}

impl Model for Circuits {
    ghost use Rattle.isis_hello.specs.Circuits.{CircuitsState};

    ghost Value = { CircuitsState };

    ghost view = { λ c. record { domain = c.domain; circuits = c.ends; hellos = c.hellos; events = c.events } };
}

impl Circuits {
    /// Returns circuits that all work, with adjacencies that are down and no hello in flight.
    #[tactic(auto, unfolding(crate::specs::Circuits::first_circuits, crate::specs::History::circuits_after))]
    pub fn new(alloc: Global, domain: &Domain) -> M<Circuits>
        ensures start { IfOk result (λ c. c ≡ first_circuits domain.now) }
        ensures history { IfOk result (λ c. c ≡ circuits_after domain.now []) }
    {
        Ok(Circuits {
            domain: domain.copy()?,
            ends: Ends::new(alloc, confs_of(domain))?,
            hellos: Hellos::new(alloc, confs_of(domain))?,
            events: 0,
        })
    }

    /// Executes one event.
    ///
    /// The result has the Ethernet frame of the hello that was sent, and the changes of adjacencies, by interface in order. An
    /// event that is not allowed returns the first reason that applies. Out of memory may be returned instead of any result.
    /// After an error the circuits are unchanged.
    pub fn step(&mut self, event: &HelloEvent) -> Result<HelloOut, CircuitFault>
        ensures refused { MatchResult result (λ _. circuit_fault self.old event.now ≡ None) (λ e. Refuses (circuit_fault self.old event.now) e) }
        ensures state { OnOk result (self.new ≡ (happens self.old event.now).state) }
        ensures reported { IfOk result (λ out. out ≡ (happens self.old event.now).out) }
        // What is sent is what arrives: a receiver parses the hello that is now in flight from the frame.
        ensures sent { IfOk result (λ out. IsSent self.old self.new event.now out.sent) }
        // A record of a capture has room for the frame.
        ensures short { IfOk result (λ out. IfSome out.sent (λ frame. length frame < 65536)) }
        // After any history, an adjacency is up only if its router received, less than the holding time ago and since it last
        // restarted or its circuit failed, a hello of its neighbor that lists it, and the neighbor had received one of its
        // hellos before it sent that one.
        ensures held { (d : DomainConf) (history : List HelloEventItem) → IsValid d → self.old ≡ circuits_after d history
            → OnOk result ((self.new ≡ circuits_after d (event.now ∷ history)) × AllHeld d (event.now ∷ history)) }
        ensures stays { OnErr result (self.new ≡ self.old) }
    {
        self.advance(event)
    }

    #[tactic(auto, unfolding(crate::specs::Events::happens), using(crate::proofs::StepLemmas::few_events))]
    fn advance(&mut self, event: &HelloEvent) -> Result<HelloOut, CircuitFault>
        ensures refused { MatchResult result (λ _. circuit_fault self.old event.now ≡ None) (λ e. Refuses (circuit_fault self.old event.now) e) }
        ensures state { OnOk result (self.new ≡ (happens self.old event.now).state) }
        ensures reported { IfOk result (λ out. out ≡ (happens self.old event.now).out) }
        ensures sent { IfOk result (λ out. IsSent self.old self.new event.now out.sent) }
        ensures short { IfOk result (λ out. IfSome out.sent (λ frame. length frame < 65536)) }
        ensures stays { OnErr result (self.new ≡ self.old) }
    {
        if let Some(fault) = self.fault(event) {
            return Err(fault);
        }
        let out = self.execute(event)?;
        self.events += 1;
        Ok(out)
    }

    /// Returns how many hellos are in flight from one router to another; 0 if no link joins them.
    pub fn hellos(&self, from: u16, to: u16) -> usize
        ensures { result ≡ length (hellos_between self.now from to) }
    {
        match self.link(from, to) {
            Some(link) => self.hellos.len(from, link),
            None => 0,
        }
    }

    /// Returns whether the circuit of a router toward another works; false if no link joins them.
    pub fn works(&self, from: u16, to: u16) -> bool
        ensures { result ≡ (circuit_between self.now from to).works }
    {
        self.circuit_over(from, self.link(from, to)).works
    }

    /// Returns the circuit of a router toward another; a broken one if no link joins them.
    pub fn circuit(&self, from: u16, to: u16) -> Circuit
        ensures { result ≡ circuit_between self.now from to }
    {
        self.circuit_over(from, self.link(from, to))
    }

    fn circuit_over(&self, from: u16, link: Option<u16>) -> Circuit
        ensures { result ≡ circuit_over self.now.circuits from link }
    {
        match link {
            Some(link) => self.ends.get(from, link),
            None => Circuit::broken(),
        }
    }

    /// Returns the interface of a router that leads to another, if a link joins the two.
    pub(crate) fn link(&self, from: u16, to: u16) -> Option<u16>
        ensures { result ≡ link_between self.now.domain.routers from to }
    {
        link_between(confs_of(&self.domain), from, to)
    }

    pub(crate) fn allocator(&self) -> Global {
        self.domain.routers.allocator()
    }

    // ---- which events are allowed

    /// Returns the first reason why the event is not allowed.
    #[tactic(auto, unfolding(crate::specs::Events::circuit_fault))]
    fn fault(&self, event: &HelloEvent) -> Option<CircuitFault>
        ensures { result ≡ circuit_fault self.now event.now }
    {
        if self.events >= MOST_HELLO_EVENTS {
            return Some(CircuitFault::Events);
        }
        self.rule_fault(event)
    }

    fn rule_fault(&self, event: &HelloEvent) -> Option<CircuitFault>
        ensures { result ≡ rule_fault self.now event.now }
    {
        match event {
            HelloEvent::Hello { from, to } => self.hello_fault(*from, *to),
            HelloEvent::Greet { from, to, i } => self.taken_fault(*from, *to, *i),
            HelloEvent::Forget { from, to, i } => self.taken_fault(*from, *to, *i),
            HelloEvent::Break { from, to } => self.break_fault(*from, *to),
            HelloEvent::Mend { from, to } => self.mend_fault(*from, *to),
            HelloEvent::Tick { .. } | HelloEvent::Restart { .. } => None,
        }
    }

    fn hello_fault(&self, from: u16, to: u16) -> Option<CircuitFault>
        ensures { result ≡ rule_fault self.now (events.Hello from to) }
    {
        let fault = self.break_fault(from, to);
        if fault.is_none() && self.hellos.count() >= MOST_HELLOS {
            return Some(CircuitFault::InFlight);
        }
        fault
    }

    fn taken_fault(&self, from: u16, to: u16, i: u32) -> Option<CircuitFault>
        ensures { result ≡ taken_fault self.now from to i }
    {
        let Some(link) = self.link(from, to) else {
            return Some(CircuitFault::NoLink);
        };
        match self.hellos.get(from, link, i) {
            Some(_) => None,
            None => Some(CircuitFault::NoFrame(i, self.hellos.len(from, link))),
        }
    }

    fn break_fault(&self, from: u16, to: u16) -> Option<CircuitFault>
        ensures { result ≡ rule_fault self.now (events.Break from to) }
    {
        let Some(link) = self.link(from, to) else {
            return Some(CircuitFault::NoLink);
        };
        if !self.ends.get(from, link).works {
            return Some(CircuitFault::EndState);
        }
        None
    }

    fn mend_fault(&self, from: u16, to: u16) -> Option<CircuitFault>
        ensures { result ≡ rule_fault self.now (events.Mend from to) }
    {
        let Some(link) = self.link(from, to) else {
            return Some(CircuitFault::NoLink);
        };
        if self.ends.get(from, link).works {
            return Some(CircuitFault::EndState);
        }
        None
    }
}
