ghost use Rattle.std.specs.Prelude.{◌≡◌};

use wire_base::{EdgeFault, Memory};

/// Why an event is not allowed in a domain. The reasons are numbered in this order, from 1. If several apply, the first
/// is reported.
#[derive(Clone, Copy, Debug, PartialEq, Eq)]
pub enum EventFault {
    /// `MOST_EVENTS` events have occurred.
    Events,
    /// No link joins the two routers.
    NoLink,
    /// An interface that is to come up is up, or one that is to go down or to send is down.
    EndState,
    /// 500,000 frames or more are in flight, and the event may send more.
    InFlight,
    /// The index is not below the number of frames in flight there, which is the second number.
    NoFrame(u32, usize),
    /// A frame that is to be duplicated carries a BIER packet.
    NotControl,
    /// The router creates no packets for those BFR-ids, for this reason, which is never out of memory.
    Edge(EdgeFault),
    /// The router neither is in the sub-domain nor left it, or has no label range of the BSL that is to be relabeled there.
    NoSub,
    /// The sub-domain that is to be left was left, or the one that is to be joined is joined.
    SubState,
    /// The label range would end above the last label.
    LabelHigh,
    /// A label of the new range is in a range that the router has or had. It is the least such label.
    LabelUsed(u32),
    /// 1,000 label ranges of the router were given other labels.
    Relabels,
    /// An allocation failed.
    Memory,
}

impl From<Memory> for EventFault {
    ghost use Rattle.domain_model.specs.declared.fault.EventFault.TheVariants as faults;

    ghost from_gives = { λ _ e. e ≡ faults.Memory };

    fn from(_: Memory) -> Self {
        EventFault::Memory
    }
}
