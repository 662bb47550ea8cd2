//! The state of the hellos of a live router.
ghost use Rattle.std.specs.Prelude.{◌≡◌, ◌≤◌, ◌<◌, ◌^◌, ◌+◌, ◌++◌, length, slice_get, Some, IfOk, IfSome, OnOk};
ghost use Rattle.wire_base.specs.model.Configuration.{IsSound};
ghost use Rattle.command_drive.specs.Answer.{behind};
ghost use Rattle.command_drive.specs.Reading.{Closed};
ghost use Rattle.command_node.specs.NodeRun.{link_of};
ghost use Rattle.isis_hello.specs.Adjacency.{is_up};
ghost use Rattle.live_stream.specs.HelloRun as hello;

use crate::adjacencies::{
    Adjacencies, BROKEN, FRESH, after_second, circuit_id, hello_in, hello_of,
};
use crate::event::{content_of, is_event};
use crate::fault::LiveFault;
use crate::greeting::Greeting;
use crate::hello_frames::{push_change, push_record};
use crate::hello_pdu::frame_of;
use crate::seat::Seat;
use crate::texts::push_refusal;
use command_drive::{Close, refuse_by, refuse_length};
use command_node::{countable, link_of};
use isis_hello::{Adjacency, Circuit, Hello};
use pcap_frames::write_cap_header;
use pcapng_frames::NgRecord;
use run_texts::Texts;
use std::alloc::Global;
use std::marker::Model;
use std::mem;
use wire_base::ethernet::FRAME_HEAD;
use wire_base::{End, M, Octets, RouterConf, Status, SystemId};

/// A router's configuration, the circuits of its interfaces, the number of records, and the output that it appends to, which is
/// lent to it for each record.
#[derive(Drop)]
pub struct Greeter {
    conf: RouterConf,
    circuits: Adjacencies,
    pub records: u64,
    pub frames: Octets,
    pub report: Octets,
}

impl Model for Greeter {
    ghost use Rattle.wire_base.specs.model.Configuration.{IsSound};
    ghost use Rattle.live_stream.specs.HelloRun as hello;

    ghost Value = { hello.Greeter };

    ghost view = { λ g. record { conf = g.conf; circuits = g.circuits; records = g.records; frames = g.frames; report = g.report } };

    ghost invariant = { λ g. IsSound g.conf };
}

/// Appends what an adjacency that moved lets the router know.
fn push_moved(
    out: &mut Octets,
    seat: &Seat,
    captured: &NgRecord,
    conf: &RouterConf,
    end: &End,
    moved: (Adjacency, Adjacency),
) -> M<()>
    ensures { OnOk result (out.new ≡ out.old ++ hello.changed seat.now captured.now conf.now end.now moved.0 moved.1) }
{
    let (old, new) = moved;
    if old.is_up() == new.is_up() {
        return Ok(());
    }
    push_change(out, seat, captured, conf, end, new.is_up())
}

/// Appends the same for all interfaces, after a second.
fn push_seconds(
    out: &mut Octets,
    seat: &Seat,
    captured: &NgRecord,
    conf: &RouterConf,
    ends: &[End],
    circuits: &[Circuit],
) -> M<()>
    ensures { OnOk result (out.new ≡ out.old ++ hello.changes seat.now captured.now conf.now ends.now circuits.now) }
{
    match ends {
        [] => Ok(()),
        [end, ends @ ..] => match circuits {
            [] => Ok(()),
            [circuit, circuits @ ..] => {
                let old = circuit.adjacency;
                push_moved(out, seat, captured, conf, end, (old, after_second(old)))?;
                push_seconds(out, seat, captured, conf, ends, circuits)
            }
        },
    }
}

/// Appends the same for a router with that configuration.
fn push_second(
    out: &mut Octets,
    seat: &Seat,
    captured: &NgRecord,
    conf: &RouterConf,
    circuits: &[Circuit],
) -> M<()>
    ensures { OnOk result (out.new ≡ out.old ++ hello.changes seat.now captured.now conf.now conf.now.ends circuits.now) }
{
    push_seconds(out, seat, captured, conf, conf.ends.as_slice(), circuits)
}

/// Returns the interface's address that the event of a hello has: the last four octets of its source address, unless they are 0.
fn address_in(octets: &[u8]) -> Option<[u8; 4]>
    requires { FRAME_HEAD ≤ length octets.now }
    ensures { result ≡ hello.address_in octets.now }
{
    let mut address = [0; 4];
    address.copy_from_slice(&octets[8..12]);
    if address == [0; 4] {
        None
    } else {
        Some(address)
    }
}

/// Returns the interface at an index.
fn end_at(ends: &[End], link: u16) -> Option<End>
    ensures { result ≡ slice_get ends.now link }
{
    if usize::from(link) < ends.len() {
        Some(ends[usize::from(link)])
    } else {
        None
    }
}

/// Returns a circuit after a hello.
fn after_frame(own: SystemId, link: u16, circuit: Circuit, h: &Hello, end: Option<End>) -> Circuit
    ensures { result ≡ hello.after_frame own link circuit h.now end }
{
    match end {
        Some(end) if circuit.works => Circuit {
            works: true,
            adjacency: circuit
                .adjacency
                .after_hello(own, circuit_id(link), end.peer, h),
        },
        _ => circuit,
    }
}

/// Returns the frame of a router's hello on an interface with that circuit, for an event.
fn greeting_frame(
    alloc: Global,
    conf: &RouterConf,
    link: u16,
    end: &End,
    circuit: Circuit,
    event: &[u8],
) -> M<Octets>
    requires area { length conf.now.area ≤ 13 }
    requires event { FRAME_HEAD ≤ length event.now }
    ensures { IfOk result (λ frame. frame ≡ hello.greeting_frame conf.now link end.now circuit event.now) }
{
    let h = hello_of(conf.system, link, end.peer, circuit.adjacency);
    let address = address_in(event);
    frame_of(alloc, conf, end, &h, address)
}

/// Ends the report after the last record.
fn conclude(out: &mut Octets, close: Close, records: u64) -> M<Status>
    requires { records < 2 ^ 63 }
    ensures { IfOk result (λ ended. (ended, out.new) ≡ behind out.old (hello.end_by (Closed close) records)) }
{
    match close {
        Close::Ended => {
            out.append(b"done records ")?;
            out.append_number(records)?;
            out.push(b'\n')?;
            Ok(Status::Done)
        }
        Close::TooLong => refuse_length(out, records),
        Close::Broken(why) => refuse_by(out, records, why),
    }
}

impl Greeter {
    /// Returns a router whose circuits all work and whose adjacencies are down; no record was read.
    pub fn new(alloc: Global, conf: RouterConf) -> M<Self>
        requires { IsSound conf }
        ensures { IfOk result (λ greeter. greeter ≡ hello.first_greeter conf) }
    {
        let mut frames = Octets::new(alloc);
        write_cap_header(&mut frames)?;
        Ok(Greeter {
            circuits: Adjacencies::new(alloc, conf.ends.as_slice())?,
            conf,
            records: 0,
            frames,
            report: Octets::new(alloc),
        })
    }

    /// Swaps the output that it appends to for another.
    pub fn trade(&mut self, texts: &mut Texts)
        ensures greeter { self.new ≡ record self.old { frames = texts.old.frames; report = texts.old.report } }
        ensures frames { texts.new.frames ≡ self.old.frames }
        ensures report { texts.new.report ≡ self.old.report }
    {
        mem::swap(&mut self.frames, &mut texts.frames);
        mem::swap(&mut self.report, &mut texts.report);
    }

    /// Gives an interface another circuit, and lets the router know if its adjacency came up, or was up and no longer is.
    fn replace(&mut self, seat: &Seat, captured: &NgRecord, link: u16, circuit: Circuit) -> M<()>
        ensures { OnOk result (self.new ≡ hello.turned self.old (hello.replaces seat.now captured.now self.old.conf self.old.circuits link circuit)) }
    {
        let Some(end) = end_at(self.conf.ends.as_slice(), link) else {
            return Ok(());
        };
        let moved = (self.circuits.get(link).adjacency, circuit.adjacency);
        push_moved(&mut self.frames, seat, captured, &self.conf, &end, moved)?;
        self.circuits.set(link, circuit);
        Ok(())
    }

    /// Receives the hello of a frame that arrived on a link.
    fn hear(&mut self, seat: &Seat, captured: &NgRecord, link: u16) -> M<()>
        ensures { OnOk result (self.new ≡ hello.turned self.old (hello.receives seat.now captured.now self.old.conf self.old.circuits (Some link))) }
    {
        let Some(h) = hello_in(captured.cap.octets.as_slice()) else {
            return Ok(());
        };
        let end = end_at(self.conf.ends.as_slice(), link);
        let circuit = after_frame(self.conf.system, link, self.circuits.get(link), &h, end);
        self.replace(seat, captured, link, circuit)
    }

    /// Receives the hello of a record, if it has one of a neighbor.
    fn receive(&mut self, seat: &Seat, captured: &NgRecord) -> M<()>
        ensures { OnOk result (self.new ≡ hello.received seat.now captured.now self.old) }
    {
        match link_of(&self.conf, captured) {
            Some(link) => self.hear(seat, captured, link),
            None => Ok(()),
        }
    }

    /// Sends a hello on an interface.
    fn send(&mut self, alloc: Global, captured: &NgRecord, link: u16) -> M<()>
        requires { FRAME_HEAD ≤ length captured.now.cap.octets }
        ensures { OnOk result (self.new ≡ hello.turned self.old (hello.sends captured.now self.old.conf self.old.circuits link)) }
    {
        let Some(end) = end_at(self.conf.ends.as_slice(), link) else {
            return Ok(());
        };
        let circuit = self.circuits.get(link);
        let event = captured.cap.octets.as_slice();
        let frame = greeting_frame(alloc, &self.conf, link, &end, circuit, event)?;
        push_record(&mut self.frames, captured, frame.as_slice())
    }

    /// A second passes on all circuits.
    fn pass_second(&mut self, seat: &Seat, captured: &NgRecord) -> M<()>
        ensures { OnOk result (self.new ≡ hello.turned self.old (hello.second seat.now captured.now self.old.conf self.old.circuits)) }
    {
        let circuits = self.circuits.as_slice();
        push_second(&mut self.frames, seat, captured, &self.conf, circuits)?;
        self.circuits.pass_second();
        Ok(())
    }

    /// Returns the interface that leads to a router of the domain.
    fn link_toward(&self, seat: &Seat, to: u16) -> Option<u16>
        ensures { result ≡ hello.link_toward seat.now self.now.conf to }
    {
        seat.link_to(self.conf.ends.as_slice(), to)
    }

    /// Returns why an event at an interface is not done that needs a circuit which works, or a broken one.
    fn fault_on(&self, works: bool, link: Option<u16>) -> Option<LiveFault>
        ensures { result ≡ hello.fault_on self.now.circuits works link }
    {
        let Some(link) = link else {
            return Some(LiveFault::NoLink);
        };
        if self.circuits.get(link).works == works {
            None
        } else {
            Some(LiveFault::EndState)
        }
    }

    /// Returns why an event is not done, if there is a reason.
    fn fault(&self, seat: &Seat, event: Greeting) -> Option<LiveFault>
        ensures { result ≡ hello.greeting_fault seat.now self.now.conf self.now.circuits event }
    {
        if !seat.is_own(event.router()) {
            return Some(LiveFault::Router);
        }
        match event {
            Greeting::Hello { to, .. } | Greeting::Break { to, .. } => {
                self.fault_on(true, self.link_toward(seat, to))
            }
            Greeting::Mend { to, .. } => self.fault_on(false, self.link_toward(seat, to)),
            Greeting::Second { .. } => None,
        }
    }

    fn send_to(&mut self, alloc: Global, captured: &NgRecord, link: Option<u16>) -> M<()>
        requires { FRAME_HEAD ≤ length captured.now.cap.octets }
        ensures { OnOk result (self.new ≡ hello.turned self.old (hello.sends_to captured.now self.old.conf self.old.circuits link)) }
    {
        match link {
            Some(link) => self.send(alloc, captured, link),
            None => Ok(()),
        }
    }

    fn replace_to(
        &mut self,
        seat: &Seat,
        captured: &NgRecord,
        link: Option<u16>,
        circuit: Circuit,
    ) -> M<()>
        ensures { OnOk result (self.new ≡ hello.turned self.old (hello.replaces_to seat.now captured.now self.old.conf self.old.circuits circuit link)) }
    {
        match link {
            Some(link) => self.replace(seat, captured, link, circuit),
            None => Ok(()),
        }
    }

    /// Lets an event happen.
    fn do_event(
        &mut self,
        alloc: Global,
        seat: &Seat,
        captured: &NgRecord,
        event: Greeting,
    ) -> M<()>
        requires { FRAME_HEAD ≤ length captured.now.cap.octets }
        ensures { OnOk result (self.new ≡ hello.turned self.old (hello.greets seat.now captured.now self.old.conf self.old.circuits event)) }
    {
        match event {
            Greeting::Hello { to, .. } => {
                let link = self.link_toward(seat, to);
                self.send_to(alloc, captured, link)
            }
            Greeting::Break { to, .. } => {
                let link = self.link_toward(seat, to);
                self.replace_to(seat, captured, link, BROKEN)
            }
            Greeting::Mend { to, .. } => {
                let link = self.link_toward(seat, to);
                self.replace_to(seat, captured, link, FRESH)
            }
            Greeting::Second { .. } => self.pass_second(seat, captured),
        }
    }

    /// Reports an event that is not done.
    fn refuse(&mut self, why: LiveFault) -> M<()>
        ensures { OnOk result (self.new ≡ hello.refuses self.old why) }
    {
        push_refusal(&mut self.report, self.records, why)
    }

    /// Lets an event happen, or reports why it is not done.
    fn greet(&mut self, alloc: Global, seat: &Seat, captured: &NgRecord, event: Greeting) -> M<()>
        requires { FRAME_HEAD ≤ length captured.now.cap.octets }
        ensures { OnOk result (self.new ≡ hello.greeted seat.now captured.now self.old event) }
    {
        match self.fault(seat, event) {
            None => self.do_event(alloc, seat, captured, event),
            Some(why) => self.refuse(why),
        }
    }

    /// Lets the event happen that a record spells.
    fn read_event(&mut self, alloc: Global, seat: &Seat, captured: &NgRecord) -> M<()>
        requires { FRAME_HEAD ≤ length captured.now.cap.octets }
        ensures { OnOk result (self.new ≡ hello.evented seat.now captured.now self.old) }
    {
        let found = seat.read_greeting(alloc, content_of(captured.cap.octets.as_slice()))?;
        match found {
            Ok(event) => self.greet(alloc, seat, captured, event),
            Err(why) => self.refuse(why),
        }
    }

    /// Does what a record says.
    fn follow(&mut self, alloc: Global, seat: &Seat, captured: &NgRecord) -> M<()>
        ensures { OnOk result (self.new ≡ hello.streamed seat.now captured.now self.old) }
    {
        if is_event(captured) {
            self.read_event(alloc, seat, captured)
        } else {
            self.receive(seat, captured)
        }
    }

    /// Processes a record: it is counted, and then its event happens or its hello is received.
    #[tactic(auto, unfolding(crate::specs::HelloRun::hello_done))]
    pub fn take(&mut self, alloc: Global, seat: &Seat, captured: &NgRecord) -> M<()>
        requires { self.old.records < 2 ^ 63 }
        ensures { OnOk result (self.new ≡ hello.hello_done seat.now self.old captured.now) }
    {
        self.records += 1;
        self.follow(alloc, seat, captured)
    }
    /// Ends the report after the last record.
    pub fn close(&self, out: &mut Octets, close: Close) -> M<Status>
        ensures { IfOk result (λ ended. (ended, out.new) ≡ behind out.old (hello.end_by (Closed close) self.now.records)) }
    {
        countable(self.records)?;
        conclude(out, close, self.records)
    }
}
