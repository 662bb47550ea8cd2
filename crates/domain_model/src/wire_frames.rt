//! The frames that an event sends, stored in one list of octets.
ghost use Rattle.std.specs.Prelude.{◌≡◌, ◌<◌, [], length, slice_get, Some, option_map};
ghost use Rattle.std.specs.List.{AllByRecursion};
ghost use Rattle.domain_model.specs.Wires.{wires_in, wires_to};

use frame_list::FrameList;
use std::alloc::Global;
use std::marker::Model;
use std::mem;

/// Frames that a router sends to others. Contracts see a list of frames. The octets are stored in one list, so that a
/// frame needs no allocation of its own. If all frames go to one router, it is stored once; otherwise the note of each frame
/// is the router that it goes to.
#[derive(Drop)]
pub struct WireFrames {
    from: u16,
    to: Option<u16>,
    list: FrameList<u16>,
}

impl Model for WireFrames {
    ghost use Rattle.std.specs.Prelude.{List};
    ghost use Rattle.domain_model.specs.declared.step_out.WireFrame.{WireFrame};
    ghost use Rattle.domain_model.specs.Wires.{wires_of};

    ghost Value = { List WireFrame };

    ghost view = { λ f. wires_of f.from f.to f.list };
}

impl WireFrames {
    /// Returns an empty list. Does not allocate.
    pub fn new(alloc: Global) -> Self
        ensures { result ≡ [] }
    {
        WireFrames {
            from: 0,
            to: None,
            list: FrameList::new(alloc),
        }
    }

    /// Returns the frames that a router sends, each to the router in its note.
    pub fn sent_by(from: u16, list: FrameList<u16>) -> Self
        ensures { result ≡ wires_in from list }
    {
        WireFrames {
            from,
            to: None,
            list,
        }
    }

    /// Returns the frames that a router sends to another, whatever their notes are.
    pub fn sent_to(from: u16, to: u16, list: FrameList<u16>) -> Self
        ensures { result ≡ wires_to from to list }
    {
        WireFrames {
            from,
            to: Some(to),
            list,
        }
    }

    /// Removes all frames, and returns an empty list in their memory.
    pub fn take_memory(&mut self) -> FrameList<u16>
        ensures empty { result ≡ [] }
        ensures rest { self.new ≡ [] }
    {
        let alloc = self.list.allocator();
        let mut list = mem::replace(&mut self.list, FrameList::new(alloc));
        list.clear();
        list
    }

    /// Returns the number of frames.
    pub fn len(&self) -> usize
        ensures { result ≡ length self.now }
    {
        self.list.len()
    }

    /// Returns the router that sends all of them.
    pub fn sender(&self) -> u16
        ensures { AllByRecursion (λ f. f.from ≡ result) self.now }
    {
        self.from
    }

    /// Returns the router that the frame at an index goes to.
    #[tactic(auto, using(crate::proofs::WireLaws::receivers_are, crate::proofs::WireLaws::receivers_same))]
    pub fn receiver_at(&self, i: usize) -> u16
        requires { i < length self.now }
        ensures { option_map (λ f. f.to) (slice_get self.now i) ≡ Some result }
    {
        match self.to {
            Some(to) => to,
            None => self.list.note_at(i),
        }
    }

    /// Returns the octets of the frame at an index.
    #[tactic(auto, using(crate::proofs::WireLaws::octets_are))]
    pub fn octets_at(&self, i: usize) -> &[u8]
        requires { i < length self.now }
        ensures { option_map (λ f. f.octets) (slice_get self.now i) ≡ Some result.now }
    {
        self.list.octets_at(i)
    }
}
