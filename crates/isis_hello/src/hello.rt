use wire_base::SystemId;

/// The state of a three-way adjacency (RFC 5303, 3.1).
#[derive(Clone, Copy, Debug, PartialEq, Eq)]
pub enum Tri {
    /// Each of the two routers receives the other's hellos.
    Up,
    /// The neighbor's hellos arrive; whether it receives this router's is not known yet.
    Initializing,
    /// No hello of the neighbor arrives.
    Down,
}

/// A point-to-point hello: the system ID of its sender, the holding time in seconds, the sender's circuit (its extended
/// local circuit ID), the state of the adjacency at the sender, and the system ID and the circuit of the neighbor that
/// it lists, if it lists one (ISO/IEC 10589, 9.7; RFC 5303, 3).
#[derive(Clone, Copy, Debug, PartialEq, Eq)]
pub struct Hello {
    pub source: SystemId,
    pub hold: u16,
    pub circuit: u32,
    pub state: Tri,
    pub named: Option<(SystemId, u32)>,
}
