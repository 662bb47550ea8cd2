//! The externally visible actions of a router.
ghost use Rattle.std.specs.Prelude.{◌≡◌, [], ◌∷◌, ◌++◌, OnOk, OnErr, IfOk};
ghost use Rattle.wire_base.specs.model.OnFrame as on_frame;
ghost use Rattle.bier_forward.specs.SentFrames.{sent_as};

use crate::sent_frames::SentFrames;
use bfr_edge::Packet;
use std::alloc::Global;
use std::marker::Model;
use wire_base::{Cause, Got, M, Rows};

/// A drop of a frame, or of some bit positions of a packet, which are then given.
#[derive(Drop)]
pub struct DropNote {
    pub cause: Cause,
    pub sets: Option<Packet>,
}

impl Model for DropNote {
    ghost use Rattle.wire_base.specs.model.OnFrame.{Drop};
    ghost use Rattle.bier_forward.specs.Sets.{set_in, HaveLength};

    ghost Value = { Drop };

    ghost view = { λ d. record { cause = d.cause; set = set_in d.sets } };

    ghost invariant = { λ d. HaveLength d.sets };
}

/// What a router sends, delivers and drops, in order, and whether it ignored a frame.
#[derive(Drop)]
pub struct Effects {
    pub sent: SentFrames,
    pub got: Rows<Got>,
    pub drops: Rows<DropNote>,
    pub passed: bool,
}

impl Model for Effects {
    ghost use Rattle.wire_base.specs.model.OnFrame as on_frame;

    ghost Value = { on_frame.Effects };

    ghost view = { λ e. record { sent = e.sent; got = e.got; drops = e.drops; passed = e.passed } };
}

impl Effects {
    /// Returns no effects.
    pub fn nothing(alloc: Global) -> Self
        ensures { result ≡ on_frame.nothing }
    {
        Effects {
            sent: SentFrames::new(alloc),
            got: Rows::new(alloc),
            drops: Rows::new(alloc),
            passed: false,
        }
    }

    /// Returns the effects of a dropped frame.
    pub fn dropped(alloc: Global, cause: Cause) -> M<Self>
        ensures { IfOk result (λ e. e ≡ on_frame.dropped cause) }
    {
        let mut effects = Effects::nothing(alloc);
        effects.note(DropNote { cause, sets: None })?;
        Ok(effects)
    }

    /// Removes all effects. The memory of the frames serves for the next ones.
    pub fn clear(&mut self)
        ensures { self.new ≡ on_frame.nothing }
    {
        let alloc = self.allocator();
        self.sent.clear();
        self.got = Rows::new(alloc);
        self.drops = Rows::new(alloc);
        self.passed = false;
    }

    /// Returns the allocator of the lists.
    pub fn allocator(&self) -> Global {
        self.sent.allocator()
    }

    /// Appends a frame that is sent on a link. If an allocation fails, nothing changes.
    pub fn send(&mut self, link: u16, octets: &[u8]) -> M<()>
        ensures ok { OnOk result (self.new ≡ record self.old { sent = self.old.sent ++ sent_as link octets.now ∷ [] }) }
        ensures err { OnErr result (self.new ≡ self.old) }
    {
        self.sent.push(link, octets)
    }

    /// Appends a frame that is sent on a link, whose octets are those of two slices, one after the other. If an allocation fails,
    /// nothing changes.
    pub(crate) fn send_parts(&mut self, link: u16, first: &[u8], second: &[u8]) -> M<()>
        ensures ok { OnOk result (self.new ≡ record self.old { sent = self.old.sent ++ sent_as link (first.now ++ second.now) ∷ [] }) }
        ensures err { OnErr result (self.new ≡ self.old) }
    {
        self.sent.push_parts(link, first, second)
    }

    /// Appends a delivered packet. If an allocation fails, nothing changes.
    pub fn deliver(&mut self, got: Got) -> M<()>
        ensures ok { OnOk result (self.new ≡ record self.old { got = self.old.got ++ got ∷ [] }) }
        ensures err { OnErr result (self.new ≡ self.old) }
    {
        self.got.push(got)
    }

    /// Appends a drop. If an allocation fails, nothing changes.
    pub fn note(&mut self, drop: DropNote) -> M<()>
        ensures ok { OnOk result (self.new ≡ record self.old { drops = self.old.drops ++ drop ∷ [] }) }
        ensures err { OnErr result (self.new ≡ self.old) }
    {
        self.drops.push(drop)
    }
}
