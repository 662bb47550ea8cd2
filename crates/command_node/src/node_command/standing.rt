//! The state of a node: one router and the clock that the records of a capture set.
ghost use Rattle.std.specs.Prelude.{◌≡◌, ◌<◌, ◌≤◌, ◌-◌, ◌^◌, length, Some, IfOk, IfSome, OnOk};
ghost use Rattle.router_core.specs.Bounds.{FitRecords};
ghost use Rattle.command_node.specs.NodeRun as run;
ghost use Rattle.wire_base.specs.model.Configuration.{IsSound};

use super::links::link_of;
use super::tally::{Tally, sum};
use super::texts::{push_effects, push_frames};
use pcap_frames::write_cap_header;
use pcapng_frames::NgRecord;
use router_core::{Effects, Router, SentFrames};
use run_texts::Texts;
use std::alloc::Global;
use std::marker::Model;
use std::mem;
use wire_base::limits::MOST_FRAME;
use wire_base::{M, Octets, RouterConf};

/// The number of seconds after which the router sends.
const SENDS_EVERY: u64 = 5;

/// The greatest number of seconds between two records.
const MOST_GAP: u64 = 65_535;

/// A router, the second of its clock, once a record has set it, the number of seconds that have passed, its counts, and
/// the output that it appends to, which is lent to it for each record.
#[derive(Drop)]
pub struct RunningNode {
    pub router: Router,
    clock: Option<u32>,
    ticks: u64,
    pub tally: Tally,
    pub frames: Octets,
    pub report: Octets,
}

impl Model for RunningNode {
    ghost use Rattle.command_node.specs.NodeRun as run;

    ghost Value = { run.Node };

    ghost view = { λ n. record { control = n.router.control; clock = n.clock; ticks = n.ticks; tally = n.tally; frames = n.frames; report = n.report } };
}

impl RunningNode {
    /// Returns a node whose router has that configuration and has just started; no record was read.
    pub fn new(alloc: Global, conf: RouterConf) -> M<Self>
        requires { IsSound conf }
        ensures { IfOk result (λ node. node ≡ run.first_node conf) }
    {
        let mut frames = Octets::new(alloc);
        write_cap_header(&mut frames)?;
        Ok(RunningNode {
            router: Router::new(alloc, conf)?,
            clock: None,
            ticks: 0,
            tally: Tally::none(),
            frames,
            report: Octets::new(alloc),
        })
    }

    /// Swaps the output that it appends to for another.
    pub fn trade(&mut self, texts: &mut Texts)
        ensures node { self.new ≡ record self.old { frames = texts.old.frames; report = texts.old.report } }
        ensures frames { texts.new.frames ≡ self.old.frames }
        ensures report { texts.new.report ≡ self.old.report }
    {
        mem::swap(&mut self.frames, &mut texts.frames);
        mem::swap(&mut self.report, &mut texts.report);
    }

    /// Returns the two seconds of a gap that is too long, if a record with that timestamp makes one.
    pub fn gap_at(&self, sec: u32) -> Option<(u32, u32)>
        ensures { result ≡ run.gap_at self.now.clock sec }
    {
        match self.clock {
            Some(clock) if u64::from(clock) + MOST_GAP < u64::from(sec) => Some((clock, sec)),
            _ => None,
        }
    }

    /// Adds frames to the capture, as sent at a given time.
    #[tactic(auto, unfolding(crate::specs::NodeRun::goes_out))]
    fn go_out(&mut self, sec: u32, usec: u32, sent: &SentFrames) -> M<()>
        requires { FitRecords sent.now }
        ensures { OnOk result (self.new ≡ run.goes_out sec usec sent.now self.old) }
    {
        push_frames(&mut self.frames, sec, usec, sent)?;
        self.tally.sent = sum(self.tally.sent, sent.len())?;
        Ok(())
    }

    /// Sends what is due on a link, if the link is up.
    #[tactic(auto, unfolding(crate::specs::NodeRun::sends_on))]
    fn send_on(&mut self, sec: u32, link: u16) -> M<()>
        ensures { OnOk result (self.new ≡ run.sends_on sec self.old link) }
    {
        if !self.router.is_up(link) {
            return Ok(());
        }
        let effects = self.router.send(link)?;
        self.go_out(sec, 0, &effects.sent)?;
        Ok(())
    }

    /// Sends what is due on each link that is up, in order.
    #[tactic(auto, unfolding(crate::specs::NodeRun::sends_all))]
    fn send_all(&mut self, sec: u32) -> M<()>
        ensures { OnOk result (self.new ≡ run.sends_all sec self.old) }
    {
        let ends = self.router.conf().ends.len() as u16;
        for link in 0..ends {
            self.send_on(sec, link)?;
        }
        Ok(())
    }

    /// Lets one second pass: the router's LSDB ages, and after every fifth second the router sends.
    #[tactic(auto, unfolding(crate::specs::NodeRun::second_passes))]
    fn pass_second(&mut self, sec: u32) -> M<()>
        ensures { OnOk result (self.new ≡ run.second_passes sec self.old) }
    {
        self.router.tick()?;
        self.clock = Some(sec);
        self.ticks = sum(self.ticks, 1)?;
        if self.ticks % SENDS_EVERY == 0 {
            self.send_all(sec)?;
        }
        Ok(())
    }

    /// Lets the seconds that follow a given one pass, up to another.
    #[tactic(auto, unfolding(crate::specs::NodeRun::seconds_pass))]
    fn pass_seconds(&mut self, from: u32, to: u32) -> M<()>
        ensures { OnOk result (self.new ≡ run.seconds_pass (to - from) from self.old) }
    {
        let mut sec = from;
        'seconds: while sec < to {
            sec += 1;
            self.pass_second(sec)?;
        }
        Ok(())
    }

    /// Advances the clock to a record's second.
    fn move_to(&mut self, sec: u32) -> M<()>
        ensures { OnOk result (self.new ≡ run.moved_to sec self.old) }
    {
        match self.clock {
            None => self.clock = Some(sec),
            Some(clock) => self.pass_seconds(clock, sec)?,
        }
        Ok(())
    }

    /// Returns the link that a record arrived on; none if the record is ignored.
    fn link_of(&self, captured: &NgRecord) -> Option<u16>
        ensures link { result ≡ run.link_of self.now.control.conf captured.now }
        ensures there { IfSome result (λ link. link < length self.now.control.conf.ends) }
        ensures short { IfSome result (λ link. length captured.now.cap.octets ≤ MOST_FRAME) }
    {
        link_of(self.router.conf(), captured)
    }

    /// Counts a record as ignored.
    pub fn pass_over(&mut self) -> M<()>
        ensures { OnOk result (self.new ≡ run.passes self.old) }
    {
        self.tally.passed = sum(self.tally.passed, 1)?;
        Ok(())
    }

    /// Reports what the router did with a frame or an event.
    pub fn tell(&mut self, alloc: Global, captured: &NgRecord, effects: &Effects) -> M<()>
        requires { FitRecords effects.now.sent }
        ensures { OnOk result (self.new ≡ run.tells captured.now effects.now self.old) }
    {
        self.tally.used = sum(self.tally.used, 1)?;
        self.tally.got = sum(self.tally.got, effects.got.len())?;
        self.tally.dropped = sum(self.tally.dropped, effects.drops.len())?;
        push_effects(alloc, &mut self.report, self.tally.records, effects)?;
        self.go_out(captured.cap.sec, captured.cap.usec, &effects.sent)
    }

    /// Passes the frame of a record, which arrived on a link, to the router.
    fn give(&mut self, alloc: Global, captured: &NgRecord, link: u16) -> M<()>
        requires link { link < length self.old.control.conf.ends }
        requires short { length captured.now.cap.octets ≤ MOST_FRAME }
        ensures { OnOk result (self.new ≡ run.given_on captured.now self.old (Some link)) }
    {
        let effects = self.router.frame(link, captured.cap.octets.as_slice())?;
        if effects.passed {
            self.pass_over()
        } else {
            self.tell(alloc, captured, &effects)
        }
    }

    /// Passes the frame of a record to the router, on the link whose peer it came from.
    pub fn receive(&mut self, alloc: Global, captured: &NgRecord) -> M<()>
        ensures { OnOk result (self.new ≡ run.given_to captured.now self.old) }
    {
        match self.link_of(captured) {
            None => self.pass_over(),
            Some(link) => self.give(alloc, captured, link),
        }
    }

    /// Processes a record: it is counted, the clock advances to its second, and then the router receives its frame.
    #[tactic(auto, unfolding(crate::specs::NodeRun::record_done))]
    pub fn take(&mut self, alloc: Global, captured: &NgRecord) -> M<()>
        requires { self.old.tally.records < 2 ^ 63 }
        ensures { OnOk result (self.new ≡ run.record_done self.old captured.now) }
    {
        self.tally.records += 1;
        self.move_to(captured.cap.sec)?;
        self.receive(alloc, captured)
    }
}
