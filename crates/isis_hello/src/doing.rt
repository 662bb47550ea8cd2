//! What an event of hellos does.
ghost use Rattle.std.specs.Prelude.{◌≡◌, ◌<◌, length, IfSome, None, Some, slice_get, IfOk, OnOk, OnErr};
ghost use Rattle.isis_hello.specs.Circuits.{circuit_id, hello_of, hellos_at, link_between};
ghost use Rattle.isis_hello.specs.Events.{Did, IsSent, IsSentOn, arrives, arrives_over, circuit_fault, doing, forgets, heard, replaces, replaces_over, sends, sends_from, turns_at};

use crate::adjacency::{Circuit, Turn};
use crate::changes::{changed, changes_at};
use crate::circuits::Circuits;
use crate::event::HelloOut;
use crate::hello::Hello;
use crate::limits::HOLDING_TIME;
use crate::links::{conf_at, confs_of, end_at};
use crate::writer::hello_frame;
use wire_base::{HelloEvent, M, RouterConf, Rows, SystemId};

/// One direction of a link: from the interface `link` of a router to the interface `back` of another.
#[derive(Clone, Copy)]
struct Direction {
    from: u16,
    link: u16,
    to: u16,
    back: u16,
}

/// Returns the hello of a router on an interface, by the state of its adjacency there.
fn hello_of(own: SystemId, link: u16, peer: SystemId, circuit: Circuit) -> Hello
    ensures { result ≡ hello_of own link peer circuit.adjacency }
{
    Hello {
        source: own,
        hold: HOLDING_TIME,
        circuit: circuit_id(link),
        state: circuit.adjacency.state(),
        named: circuit.adjacency.neighbor(peer),
    }
}

/// Returns the circuit ID of an interface.
fn circuit_id(link: u16) -> u32
    ensures { result ≡ circuit_id link }
{
    u32::from(link) + 1
}

/// Returns the circuit of an interface after a hello has arrived there. On a broken circuit it changes nothing.
fn heard(confs: &[RouterConf], place: u16, link: u16, circuit: Circuit, h: &Hello) -> Circuit
    ensures { result ≡ heard (slice_get confs.now place) link circuit h.now }
{
    let Some(conf) = conf_at(confs, place) else {
        return circuit;
    };
    let Some(end) = end_at(conf.ends.as_slice(), link) else {
        return circuit;
    };
    if !circuit.works {
        return circuit;
    }
    let own = conf.system;
    Circuit {
        works: true,
        adjacency: circuit
            .adjacency
            .after_hello(own, circuit_id(link), end.peer, h),
    }
}

impl Circuits {
    /// Executes an event. If an allocation fails, the circuits are unchanged.
    pub(crate) fn execute(&mut self, event: &HelloEvent) -> M<HelloOut>
        ensures done { IfOk result (λ out. Did (doing self.old event.now) out self.new) }
        ensures sent { circuit_fault self.old event.now ≡ None → IfOk result (λ out. IsSent self.old self.new event.now out.sent) }
        ensures short { IfOk result (λ out. IfSome out.sent (λ frame. length frame < 65536)) }
        ensures stays { OnErr result (self.new ≡ self.old) }
    {
        match event {
            HelloEvent::Hello { from, to } => self.send(*from, *to),
            HelloEvent::Greet { from, to, i } => self.greet(*from, *to, *i),
            HelloEvent::Forget { from, to, i } => Ok(self.forget(*from, *to, *i)),
            HelloEvent::Break { from, to } => self.replace_over(*from, *to, Circuit::broken()),
            HelloEvent::Mend { from, to } => self.replace_over(*from, *to, Circuit::fresh()),
            HelloEvent::Tick { router } => self.turn(*router, Turn::Second),
            HelloEvent::Restart { router } => self.turn(*router, Turn::Restart),
        }
    }

    /// Sends a hello to another router.
    fn send(&mut self, from: u16, to: u16) -> M<HelloOut>
        ensures done { IfOk result (λ out. Did (sends self.old from (link_between self.old.domain.routers from to)) out self.new) }
        ensures sent { IfOk result (λ out. IsSentOn self.old self.new from (link_between self.old.domain.routers from to) out.sent) }
        ensures short { IfOk result (λ out. IfSome out.sent (λ frame. length frame < 65536)) }
        ensures stays { OnErr result (self.new ≡ self.old) }
    {
        match self.link(from, to) {
            Some(link) => self.send_from(from, link),
            None => Ok(HelloOut::nothing(self.allocator())),
        }
    }

    /// Sends a hello on an interface.
    fn send_from(&mut self, from: u16, link: u16) -> M<HelloOut>
        ensures done { IfOk result (λ out. Did (sends_from self.old from link (slice_get self.old.domain.routers from)) out self.new) }
        ensures sent { IfOk result (λ out. IsSentOn self.old self.new from (Some link) out.sent) }
        ensures short { IfOk result (λ out. IfSome out.sent (λ frame. length frame < 65536)) }
        ensures stays { OnErr result (self.new ≡ self.old) }
    {
        let alloc = self.allocator();
        let Some(conf) = conf_at(confs_of(&self.domain), from) else {
            return Ok(HelloOut::nothing(alloc));
        };
        let Some(end) = end_at(conf.ends.as_slice(), link) else {
            return Ok(HelloOut::nothing(alloc));
        };
        let h = hello_of(conf.system, link, end.peer, self.ends.get(from, link));
        let frame = hello_frame(alloc, conf, &end, &h)?;
        self.hellos.push(from, link, h)?;
        Ok(HelloOut {
            sent: Some(frame),
            changes: Rows::new(alloc),
        })
    }

    /// A hello arrives.
    fn greet(&mut self, from: u16, to: u16, i: u32) -> M<HelloOut>
        ensures done { IfOk result (λ out. Did (arrives_over self.old from to i (link_between self.old.domain.routers from to) (link_between self.old.domain.routers to from)) out self.new) }
        ensures quiet { IfOk result (λ out. out.sent ≡ None) }
        ensures stays { OnErr result (self.new ≡ self.old) }
    {
        let alloc = self.allocator();
        let Some(link) = self.link(from, to) else {
            return Ok(HelloOut::nothing(alloc));
        };
        let Some(back) = self.link(to, from) else {
            return Ok(HelloOut::nothing(alloc));
        };
        self.arrive(
            Direction {
                from,
                link,
                to,
                back,
            },
            i,
        )
    }

    fn arrive(&mut self, way: Direction, i: u32) -> M<HelloOut>
        ensures done { IfOk result (λ out. Did (arrives self.old way.from way.link way.to way.back i (slice_get (hellos_at self.old.hellos way.from way.link) i)) out self.new) }
        ensures quiet { IfOk result (λ out. out.sent ≡ None) }
        ensures stays { OnErr result (self.new ≡ self.old) }
    {
        let alloc = self.allocator();
        let Direction {
            from,
            link,
            to,
            back,
        } = way;
        let Some(h) = self.hellos.get(from, link, i) else {
            return Ok(HelloOut::nothing(alloc));
        };
        let old = self.ends.get(to, back);
        let new = heard(confs_of(&self.domain), to, back, old, &h);
        let changes = changed(alloc, to, from, old.adjacency, new.adjacency)?;
        self.hellos.remove(from, link, i);
        self.ends.set(to, back, new);
        Ok(HelloOut {
            sent: None,
            changes,
        })
    }

    /// A hello is lost.
    fn forget(&mut self, from: u16, to: u16, i: u32) -> HelloOut
        ensures done { Did (forgets self.old from i (link_between self.old.domain.routers from to)) result self.new }
        ensures quiet { result.sent ≡ None }
    {
        if let Some(link) = self.link(from, to) {
            self.hellos.remove(from, link, i);
        }
        HelloOut::nothing(self.allocator())
    }

    /// The circuit of a router toward another fails, or works again.
    fn replace_over(&mut self, from: u16, to: u16, circuit: Circuit) -> M<HelloOut>
        ensures done { IfOk result (λ out. Did (replaces_over self.old from to circuit (link_between self.old.domain.routers from to)) out self.new) }
        ensures quiet { IfOk result (λ out. out.sent ≡ None) }
        ensures stays { OnErr result (self.new ≡ self.old) }
    {
        let alloc = self.allocator();
        let Some(link) = self.link(from, to) else {
            return Ok(HelloOut::nothing(alloc));
        };
        let old = self.ends.get(from, link);
        let changes = changed(alloc, from, to, old.adjacency, circuit.adjacency)?;
        self.ends.set(from, link, circuit);
        Ok(HelloOut {
            sent: None,
            changes,
        })
    }

    /// A second passes at a router, or it restarts.
    fn turn(&mut self, router: u16, turn: Turn) -> M<HelloOut>
        ensures done { IfOk result (λ out. Did (turns_at self.old router turn (slice_get self.old.domain.routers router)) out self.new) }
        ensures quiet { IfOk result (λ out. out.sent ≡ None) }
        ensures stays { OnErr result (self.new ≡ self.old) }
    {
        let alloc = self.allocator();
        let confs = confs_of(&self.domain);
        let Some(conf) = conf_at(confs, router) else {
            return Ok(HelloOut::nothing(alloc));
        };
        let circuits = self.ends.of_router(router);
        let changes = changes_at(alloc, confs, router, turn, conf.ends.as_slice(), circuits)?;
        self.ends.turn(router, turn);
        Ok(HelloOut {
            sent: None,
            changes,
        })
    }
}
