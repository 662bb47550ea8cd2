//! The outside effects of an event. Routers are named by their indices in the domain.
ghost use Rattle.std.specs.Prelude.{◌≡◌, []};

use crate::lines::{DropLine, GotLine};
use crate::wire_frames::WireFrames;
use std::alloc::Global;
use wire_base::{Octets, Rows};

/// A frame that a router sends to another, as contracts see it. `WireFrames` stores the octets of several.
#[derive(Drop)]
pub struct WireFrame {
    pub from: u16,
    pub to: u16,
    pub octets: Octets,
}

/// What one event sends, delivers and drops, each in order.
#[derive(Drop)]
pub struct StepOut {
    pub sent: WireFrames,
    pub got: Rows<GotLine>,
    pub drops: Rows<DropLine>,
}

impl StepOut {
    /// Returns the empty result: nothing was sent, delivered or dropped.
    pub fn nothing(alloc: Global) -> Self
        ensures { result ≡ record { sent = []; got = []; drops = [] } }
    {
        StepOut {
            sent: WireFrames::new(alloc),
            got: Rows::new(alloc),
            drops: Rows::new(alloc),
        }
    }
}
