ghost use Rattle.std.specs.Prelude.{◌≡◌, [], ◌<◌, ◌≤◌, ◌^◌, length, true, false, is_some, None, IfOk, OnOk, OnErr, MatchResult};
ghost use Rattle.std.specs.List.{list_any};
ghost use Rattle.wire_base.specs.model.Configuration.{IsSound};
ghost use Rattle.wire_base.specs.model.Flooding.{first_control, tick, send, send_of, end_up, end_down, relabel, leave, join, restart};
ghost use Rattle.wire_base.specs.model.Ingress.{edge_fault, inject};
ghost use Rattle.wire_base.specs.model.Membership.{CanRelabel};
ghost use Rattle.wire_base.specs.model.OnFrame.{nothing, framed, on_frame};
ghost use Rattle.wire_base.specs.model.Place.{sub_in};
ghost use Rattle.wire_base.specs.model.View.{control_view};
ghost use Rattle.bfr_edge.specs.Entry.{Refuses};
ghost use Rattle.router_core.specs.Bounds.{leaves_state, packet_hopped, most_sent, FitRecords};
ghost use Rattle.laws_router.specs.State.{IsRouter, IssuesAlone, is_up, counted};

use crate::control::Control;
use crate::kept::Kept;
use crate::send_memory::SendMemory;
use crate::staleness::note_own;
use bier_forward::{Effects, SentFrames};
use isis_flood::Flood;
use isis_pdu::KnownLsps;
use lsp_store::{Contents, Store};
use std::alloc::Global;
use std::marker::Model;
use wire_base::limits::{MOST_ENTRIES, MOST_FRAME, MOST_PAYLOAD};
use wire_base::{Bsl, EdgeFault, M, Memory, RouterConf, View};

/// One router: its configuration, its LSDB, its flooding flags, and how many frames it has received. Contracts see its
/// control state and that count.
///
/// It also caches the topology by which it forwarded the last packet, with the rows, tables and tunnel routes of that
/// topology, and the systems that may advertise something else since then. The invariant of the type is that all other
/// systems advertise what they did, and that rows, tables and routes belong to the cached topology. The next packet
/// renews the topology. If the topology is unchanged, everything cached is kept.
#[derive(Drop)]
pub struct Router {
    control: Control,
    kept: Option<Kept>,
    heard: u64,
}

impl Model for Router {
    ghost use Rattle.router_core.specs.Keeping.{MayKeep};
    ghost use Rattle.laws_router.specs.State.{RouterState};

    ghost Value = { RouterState };

    ghost view = { λ r. record { control = r.control; heard = r.heard } };

    ghost invariant = { λ r. MayKeep r.control r.kept };
}

impl Router {
    /// Returns a router that has just started, with all its interfaces up. Its LSDB has only its own LSP, with sequence
    /// number 1. That LSP and a CSNP are to be sent on every link (ISO/IEC 10589, 7.3.17).
    pub fn new(alloc: Global, conf: RouterConf) -> M<Router>
        requires { IsSound conf }
        ensures control { IfOk result (λ r. r.control ≡ first_control conf) }
        ensures heard { IfOk result (λ r. r.heard ≡ 0) }
    {
        Ok(Router {
            control: Control::new(alloc, conf)?,
            kept: None,
            heard: 0,
        })
    }

    /// Has the contents of LSPs that it receives from now on, and topologies that it computes from now on, stored once for all
    /// routers with these `Contents`. Its state stays the same.
    pub fn share_contents(&mut self, contents: Contents)
        ensures { self.new ≡ self.old }
    {
        self.control.share_contents(contents);
    }

    /// Has LSPs that it receives from now on verified once for all routers with these `KnownLsps`. Its state stays the same, and what it
    /// does with a frame.
    pub fn share_known(&mut self, known: KnownLsps)
        ensures { self.new ≡ self.old }
    {
        self.control.share_known(known);
    }

    /// Returns its configuration. The only live entry of its LSDB with its own system ID is its fragment 0, with the
    /// content and the flags that it originates from this configuration and its interfaces that are up. Once its
    /// sequence number space is exhausted, it has no such entry; until then it has one.
    pub fn conf(&self) -> &RouterConf
        ensures conf { result.now ≡ self.now.control.conf }
        ensures keeps { IsRouter self.now.control }
        ensures issued { IssuesAlone self.now.control }
    {
        self.control.conf()
    }

    /// Returns how many frames it has received. The count stops at 2^64 - 1.
    pub fn heard(&self) -> u64
        ensures { result ≡ self.now.heard }
    {
        self.heard
    }

    /// Returns whether the interface at an index is up; false if there is no such interface.
    pub fn is_up(&self, link: u16) -> bool
        ensures { result ≡ is_up self.now.control link }
    {
        self.control.is_up(link)
    }

    /// Returns its LSDB. Does not allocate.
    pub fn store(&self) -> &Store
        ensures { result.now.entries ≡ self.now.control.entries }
    {
        self.control.store()
    }

    /// Returns its flooding flags: on which interfaces an LSP is to be sent (SRM) or acknowledged (SSN), and where a CSNP is
    /// due (ISO/IEC 10589, 7.3.15). Does not allocate.
    pub fn flood(&self) -> &Flood
        ensures { result.now.flood ≡ self.now.control.flood }
    {
        self.control.flood()
    }

    /// Returns whether its sequence number space is exhausted; it then originates no LSP until it restarts (ISO/IEC 10589,
    /// 7.3.16.1). Does not allocate.
    pub fn spent(&self) -> bool
        ensures spent { result ≡ self.now.control.spent }
        ensures issued { IssuesAlone self.now.control }
    {
        self.control.spent()
    }

    /// Returns its current topology (ISO/IEC 10589, 7.2.5; RFC 8401, 4).
    pub fn current_view(&self) -> M<View>
        ensures { IfOk result (λ v. v.nodes ≡ control_view self.now.control) }
    {
        self.control.view()
    }

    /// Receives a frame of at most 65,000 octets on a link. Invalid input is not an error: it is reported as a drop
    /// with its cause. An IS-IS PDU is flooded. A BIER packet is delivered and forwarded by the router's current
    /// topology. A tunnel packet to the router's own prefix contains such a packet; any other tunnel packet is
    /// forwarded toward its destination. A frame of another class, a hello and a PDU of another type are ignored
    /// (ISO/IEC 10589, 7.3.15; RFC 8279, 6; RFC 2784). If an allocation fails, nothing has changed.
    ///
    /// For arbitrary octets, a drop leaves the control state unchanged, unless its cause is a full LSDB. A packet that
    /// is forwarded here makes the router send at most one frame per bit position, and any other frame makes it send at
    /// most one. Each frame that it sends has at most 65,535 octets. The LSDB has at most `MOST_ENTRIES` entries.
    pub fn frame(&mut self, link: u16, bytes: &[u8]) -> M<Effects>
        requires link { link < length self.old.control.conf.ends }
        requires short { length bytes.now ≤ MOST_FRAME }
        ensures next { IfOk result (λ e. record { control = self.new.control; effects = e } ≡ on_frame self.old.control link bytes.now) }
        ensures untaken { IfOk result (λ e. list_any leaves_state e.drops ≡ true → self.new.control ≡ self.old.control) }
        ensures few { IfOk result (λ e. length e.sent ≤ most_sent (packet_hopped self.old.control.conf bytes.now)) }
        ensures sizes { IfOk result (λ e. FitRecords e.sent) }
        ensures entries { length self.new.control.entries ≤ MOST_ENTRIES }
        ensures heard { OnOk result (self.new.heard ≡ counted self.old.heard) }
        ensures err { OnErr result (self.new ≡ self.old) }
    {
        let mut effects = Effects::nothing(self.control.allocator());
        self.frame_into(link, bytes, &mut effects)?;
        Ok(effects)
    }

    /// Does the same, and writes the effects where there are none yet. So effects are not moved, most of which are empty. If an
    /// allocation fails, there are none afterwards either.
    pub fn frame_into(&mut self, link: u16, bytes: &[u8], effects: &mut Effects) -> M<()>
        requires link { link < length self.old.control.conf.ends }
        requires short { length bytes.now ≤ MOST_FRAME }
        requires empty { effects.old ≡ nothing }
        ensures next { OnOk result (record { control = self.new.control; effects = effects.new } ≡ on_frame self.old.control link bytes.now) }
        ensures untaken { OnOk result (list_any leaves_state effects.new.drops ≡ true → self.new.control ≡ self.old.control) }
        ensures few { OnOk result (length effects.new.sent ≤ most_sent (packet_hopped self.old.control.conf bytes.now)) }
        ensures sizes { OnOk result (FitRecords effects.new.sent) }
        ensures entries { length self.new.control.entries ≤ MOST_ENTRIES }
        ensures heard { OnOk result (self.new.heard ≡ counted self.old.heard) }
        ensures err { OnErr result (self.new ≡ self.old) }
        ensures none { OnErr result (effects.new ≡ nothing) }
    {
        let _few = self.control.conf();
        self.control.frame(&mut self.kept, link, bytes, effects)?;
        let _still_few = self.control.conf();
        self.heard = self.heard.saturating_add(1);
        Ok(())
    }

    /// Lets one second pass: each entry of the LSDB ages, and the router's own LSP is refreshed when its Remaining
    /// Lifetime is 300 seconds (ISO/IEC 10589, 7.3.16.3 and 7.3.16.4).
    pub fn tick(&mut self) -> M<Effects>
        ensures control { OnOk result (self.new.control ≡ (tick self.old.control).control) }
        ensures effects { IfOk result (λ e. e ≡ nothing) }
        ensures err { OnErr result (self.new ≡ self.old) }
        ensures heard { self.new.heard ≡ self.old.heard }
    {
        self.control.note_second(&mut self.kept);
        self.control.tick()?;
        Ok(Effects::nothing(self.control.allocator()))
    }

    /// Sends what is due on a link that is up: CSNPs, LSPs, and PSNPs with the entries that are acknowledged or
    /// requested. An LSP remains due until it is acknowledged (ISO/IEC 10589, 7.3.15.4 and 7.3.17). Each frame has at
    /// most 65,535 octets.
    pub fn send(&mut self, link: u16) -> M<Effects>
        requires { is_up self.old.control link ≡ true }
        ensures next { IfOk result (λ e. record { control = self.new.control; effects = e } ≡ framed link (send self.old.control link)) }
        ensures sizes { IfOk result (λ e. FitRecords e.sent) }
        ensures err { OnErr result (self.new ≡ self.old) }
        ensures heard { self.new.heard ≡ self.old.heard }
    {
        self.control.send(link)
    }

    /// Returns whether [`Router::send`] may have anything to send on a link. If it returns false, `send` would send
    /// nothing and leave the router unchanged. It reads no LSDB entry and no row of flags, so that an idle router, the
    /// usual case, can be skipped at once.
    pub fn may_owe(&self, link: u16) -> bool
        ensures { result ≡ false → send self.now.control link ≡ record { control = self.now.control; sent = []; drops = [] } }
    {
        self.control.may_owe(link)
    }

    /// Returns the frames that [`Router::send`] would send now on a link that is up, without changing the router; a send has no
    /// other effects. A caller that has queued these frames reports by [`Router::sent`] that they were sent. If there is no
    /// memory to queue them, nothing needs to be undone. The frames are built in the memory of `list`, whose frames are
    /// removed, and in that of earlier sends, so that a send needs few allocations.
    pub fn due_in(&self, link: u16, memory: &mut SendMemory, list: SentFrames) -> M<SentFrames>
        requires { is_up self.now.control link ≡ true }
        ensures due { IfOk result (λ sent. record nothing { sent = sent } ≡ (framed link (send self.now.control link)).effects) }
        ensures sizes { IfOk result (λ sent. FitRecords sent) }
    {
        self.control.due_in(link, memory, list)
    }

    /// Records that the frames that are due on a link that is up, as [`Router::due_in`] returns them, were sent. Does not
    /// allocate.
    pub fn sent(&mut self, link: u16)
        requires { is_up self.old.control link ≡ true }
        ensures control { self.new.control ≡ (send self.old.control link).control }
        ensures heard { self.new.heard ≡ self.old.heard }
    {
        self.control.sent(link);
    }

    /// Returns how many frames [`Router::send`] would send now on a link that is up.
    pub fn pending(&self, link: u16) -> usize
        requires { is_up self.now.control link ≡ true }
        ensures { result ≡ length (send_of self.now.control link) }
    {
        self.control.pending(link)
    }

    /// Brings up the interface at an index, which is down. A CSNP and all known LSPs are to be sent there, and the
    /// router originates its own LSP again (ISO/IEC 10589, 7.3.6 and 7.3.17).
    pub fn end_up(&mut self, link: u16) -> M<()>
        requires link { link < length self.old.control.conf.ends }
        requires down { is_up self.old.control link ≡ false }
        ensures control { OnOk result (self.new.control ≡ (end_up self.old.control link).control) }
        ensures err { OnErr result (self.new ≡ self.old) }
        ensures heard { self.new.heard ≡ self.old.heard }
    {
        note_own(&mut self.kept);
        self.control.end_up(link)
    }

    /// Takes down the interface at an index, which is up. Nothing is to be sent there any more, and the router
    /// originates its own LSP again (ISO/IEC 10589, 7.3.6).
    pub fn end_down(&mut self, link: u16) -> M<()>
        requires { is_up self.old.control link ≡ true }
        ensures control { OnOk result (self.new.control ≡ (end_down self.old.control link).control) }
        ensures err { OnErr result (self.new ≡ self.old) }
        ensures heard { self.new.heard ≡ self.old.heard }
    {
        note_own(&mut self.kept);
        self.control.end_down(link)
    }

    /// Gives the router other labels: its label range of a BSL in a sub-domain, which it is in or left, begins at `label`, and has as
    /// many labels as before. The router originates its own LSP again, so that the other routers learn the labels. The earlier labels
    /// keep their meaning, and packets that arrive with them are forwarded as before (RFC 8401, 6.2; ISO/IEC 10589, 7.3.6). If an
    /// allocation fails, nothing has changed.
    ///
    /// Precondition: the router has that range, the new one has no reserved label and none above 1,048,575 and shares no label with
    /// a range that the router has or had, and fewer than 1,000 ranges were replaced. [`own_range`](crate::own_range),
    /// [`used_label`](crate::used_label) and [`is_worn`](crate::is_worn) tell.
    pub fn relabel(&mut self, sd: u8, bsl: Bsl, label: u32) -> M<()>
        requires { CanRelabel self.old.control.conf sd bsl label }
        ensures control { OnOk result (self.new.control ≡ (relabel self.old.control sd bsl label).control) }
        ensures err { OnErr result (self.new ≡ self.old) }
        ensures heard { self.new.heard ≡ self.old.heard }
    {
        note_own(&mut self.kept);
        self.control.relabel(sd, bsl, label)
    }

    /// Leaves a sub-domain that the router is in, and originates its own LSP again, without the sub-domain. No packet is delivered to
    /// its BFR-id there any more; packets that arrive with its labels are still forwarded (RFC 8401, 6.1; ISO/IEC 10589, 7.3.6). If
    /// an allocation fails, nothing has changed.
    pub fn leave(&mut self, sd: u8) -> M<()>
        requires { is_some (sub_in self.old.control.conf.subs sd) ≡ true }
        ensures control { OnOk result (self.new.control ≡ (leave self.old.control sd).control) }
        ensures err { OnErr result (self.new ≡ self.old) }
        ensures heard { self.new.heard ≡ self.old.heard }
    {
        note_own(&mut self.kept);
        self.control.leave(sd)
    }

    /// Joins a sub-domain that the router left, with the BFR-id that it had there and its label ranges there, and originates its own
    /// LSP again (RFC 8401, 6.1; ISO/IEC 10589, 7.3.6). If an allocation fails, nothing has changed.
    pub fn join(&mut self, sd: u8) -> M<()>
        requires { is_some (sub_in self.old.control.conf.away sd) ≡ true }
        ensures control { OnOk result (self.new.control ≡ (join self.old.control sd).control) }
        ensures err { OnErr result (self.new ≡ self.old) }
        ensures heard { self.new.heard ≡ self.old.heard }
    {
        note_own(&mut self.kept);
        self.control.join(sd)
    }

    /// Restarts the router: it loses all state except its configuration and which interfaces are up (ISO/IEC 10589,
    /// 7.3.17).
    pub fn restart(&mut self) -> M<()>
        ensures control { OnOk result (self.new.control ≡ (restart self.old.control).control) }
        ensures err { OnErr result (self.new ≡ self.old) }
        ensures heard { self.new.heard ≡ self.old.heard }
    {
        self.kept = None;
        self.control.restart()
    }

    /// Injects a payload at this router, which is the BFIR, for the routers with the listed BFR-ids in a sub-domain,
    /// with bit strings of that length. The copies carry that TTL (RFC 8279, 3; RFC 8296, 3). Each frame that it sends
    /// has at most 65,535 octets.
    ///
    /// The errors, in order of precedence: a list without ids, the id 0 in it, an id whose set identifier is above 255,
    /// a router without a BFR-id in the sub-domain, and a router that supports no triple of the sub-domain and the
    /// length. Out of memory may be returned instead of any result.
    pub fn inject(
        &mut self,
        sd: u8,
        bsl: Bsl,
        ids: &[u16],
        ttl: u8,
        entropy: u32,
        payload: &[u8],
    ) -> Result<Effects, EdgeFault>
        requires ttl { 0 < ttl }
        requires entropy { entropy < 2 ^ 20 }
        requires payload { length payload.now ≤ MOST_PAYLOAD }
        ensures refused { MatchResult result (λ _. edge_fault self.old.control.conf sd bsl ids.now ≡ None) (λ e. Refuses (edge_fault self.old.control.conf sd bsl ids.now) e) }
        ensures effects { IfOk result (λ e. e ≡ inject self.old.control sd bsl ids.now ttl entropy payload.now) }
        ensures sizes { IfOk result (λ e. FitRecords e.sent) }
        ensures state { self.new ≡ self.old }
    {
        let _sound = self.control.conf();
        self.control
            .inject(&mut self.kept, sd, bsl, ids, ttl, entropy, payload)
    }
}
