//! Whether the frames of a run are recorded, and in which format.

/// What becomes of the frames that routers send.
#[derive(Clone, Copy, Debug, PartialEq, Eq, Drop)]
pub enum Recording {
    /// No frame is recorded.
    Discarded,
    /// The frames are recorded in a capture in the pcap format.
    Pcap,
    /// The frames are recorded in a capture in the pcapng format (draft-ietf-opsawg-pcapng), which has an interface for
    /// each interface of the domain.
    Pcapng,
}
