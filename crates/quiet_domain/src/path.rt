//! What is known of the path of a BFR-id.

/// The path of a BFR-id from a router to the id's owner: how many hops it has, and how many links its longest tunnel has, 0 without
/// a tunnel.
#[derive(Clone, Copy, Debug, PartialEq, Eq)]
pub struct Way {
    pub hops: u16,
    pub longest: u16,
}

/// One hop of a path: the node that it leads to, and how many links its tunnel has, 0 without a tunnel.
#[derive(Clone, Copy)]
pub(crate) struct Hop {
    pub(crate) next: u16,
    pub(crate) links: u16,
}
