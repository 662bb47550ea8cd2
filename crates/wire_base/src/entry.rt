//! An entry of a router's LSDB, and the comparison of a received LSP with it.
use crate::addresses::LspId;
use crate::content::Content;

/// An entry of the LSDB. A live LSP has a Remaining Lifetime of `life` seconds and a `hold` of 0. An expired LSP, a purge,
/// has a `life` of 0 and no content. It is kept for `hold` more seconds (ISO/IEC 10589, 7.3.16).
#[derive(Drop)]
pub struct Entry {
    pub id: LspId,
    pub seq: u32,
    pub life: u16,
    pub hold: u16,
    pub sum: u16,
    pub flags: u8,
    /// The octets of the LSP's TLVs.
    pub content: Content,
}

/// The result of comparing an LSP with the LSDB entry of the same LSP ID (ISO/IEC 10589, 7.3.16.2).
#[derive(Clone, Copy, Debug, PartialEq, Eq)]
pub enum Age {
    /// The LSDB has no entry with this LSP ID.
    Unknown,
    /// The LSP is newer than the entry.
    Newer,
    /// The LSP and the entry are the same.
    Equal,
    /// The LSP is older than the entry.
    Older,
    /// LSP confusion: both are live and have the same sequence number, but their checksums differ.
    Confused,
}

/// The effect of one second on an entry (ISO/IEC 10589, 7.3.16.3 and 7.3.16.4).
#[derive(Clone, Copy, Debug, PartialEq, Eq)]
pub enum Aged {
    /// The entry is live; its Remaining Lifetime is one second less.
    Live,
    /// The Remaining Lifetime has reached 0; the entry is now a purge.
    Expired,
    /// The entry is a purge; its hold time is one second less.
    Held,
    /// The entry has been removed.
    Removed,
}
