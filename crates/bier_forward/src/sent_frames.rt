//! Frames that a router sends.
ghost use Rattle.std.specs.Prelude.{◌≡◌, ◌<◌, ◌++◌, ◌∷◌, [], length, slice_get, option_map, Some, OnOk, OnErr};
ghost use Rattle.bier_forward.specs.SentFrames.{sent_as, sent_in};

use frame_list::FrameList;
use std::alloc::Global;
use std::marker::Model;
use wire_base::M;

/// Frames, each with the link that it is sent on; contracts model it as the list of both. The octets are stored in one buffer, so
/// that a frame needs no allocation of its own.
#[derive(Drop)]
pub struct SentFrames {
    list: FrameList<u16>,
}

impl Model for SentFrames {
    ghost use Rattle.std.specs.Prelude.{List};
    ghost use Rattle.wire_base.specs.declared.effects.Sent.{Sent};
    ghost use Rattle.bier_forward.specs.SentFrames.{sent_in};

    ghost Value = { List Sent };

    ghost view = { λ s. sent_in s.list };
}

impl SentFrames {
    /// Creates an empty list. Does not allocate.
    pub fn new(alloc: Global) -> Self
        ensures { result ≡ [] }
    {
        SentFrames {
            list: FrameList::new(alloc),
        }
    }

    /// Returns the frames of a list, each of which has its link as a note.
    pub fn from_frames(list: FrameList<u16>) -> Self
        ensures { result ≡ sent_in list }
    {
        SentFrames { list }
    }

    /// Returns the allocator of the list.
    pub fn allocator(&self) -> Global {
        self.list.allocator()
    }

    /// Returns the number of frames.
    pub fn len(&self) -> usize
        ensures { result ≡ length self.now }
    {
        self.list.len()
    }

    /// Returns the link that the frame at an index is sent on.
    #[tactic(auto, using(crate::proofs::SentLaws::links_are))]
    pub fn link_at(&self, i: usize) -> u16
        requires { i < length self.now }
        ensures { option_map (λ s. s.link) (slice_get self.now i) ≡ Some result }
    {
        self.list.note_at(i)
    }

    /// Returns the octets of the frame at an index.
    #[tactic(auto, using(crate::proofs::SentLaws::octets_are))]
    pub fn octets_at(&self, i: usize) -> &[u8]
        requires { i < length self.now }
        ensures { option_map (λ s. s.octets) (slice_get self.now i) ≡ Some result.now }
    {
        self.list.octets_at(i)
    }

    /// Returns the frames, each with its link as a note.
    pub fn frames(&self) -> &FrameList<u16>
        ensures { sent_in result.now ≡ self.now }
    {
        &self.list
    }

    /// The same by value: the octets are moved, not copied.
    pub fn into_frames(self) -> FrameList<u16>
        ensures { sent_in result ≡ self }
    {
        self.list
    }

    /// Removes all frames. Their memory serves for the next ones.
    pub fn clear(&mut self)
        ensures { self.new ≡ [] }
    {
        self.list.clear();
    }

    /// Appends a frame that is sent on a link. If an allocation fails, nothing changes.
    #[tactic(auto, using(crate::proofs::SentLaws::sent_more))]
    pub fn push(&mut self, link: u16, octets: &[u8]) -> M<()>
        ensures ok { OnOk result (self.new ≡ self.old ++ sent_as link octets.now ∷ []) }
        ensures err { OnErr result (self.new ≡ self.old) }
    {
        self.list.push(link, octets)
    }

    /// Appends a frame whose octets are those of two slices, one after the other. If an allocation fails, nothing changes.
    #[tactic(auto, using(crate::proofs::SentLaws::sent_more))]
    #[inline(always)]
    pub fn push_parts(&mut self, link: u16, first: &[u8], second: &[u8]) -> M<()>
        ensures ok { OnOk result (self.new ≡ self.old ++ sent_as link (first.now ++ second.now) ∷ []) }
        ensures err { OnErr result (self.new ≡ self.old) }
    {
        self.list.push_parts(link, first, second)
    }
}
