//! The limits of a domain, of its inputs and of a run, and the timers of flooding. Code and definitions share these
//! constants.
//!
//! Some limits are built into the code that uses them and cannot be changed here alone: 64 interfaces of a router (flags are
//! bits of a `u64`), eight sub-domains (their BIER Infos fit one TLV, and `Few` holds them in place), 90 entries of a sequence
//! numbers PDU (six TLVs of 15, which fit a frame of 1,492 octets), and the 255 of a tunnel's outer TTL. `docs/changing.md` lists
//! what else to change for each.

/// The maximum number of routers in a domain.
pub const MOST_ROUTERS: usize = 1_000;
/// The maximum number of interfaces of a router.
pub const MOST_ENDS: usize = 64;
/// The maximum number of sub-domains in a domain.
pub const MOST_SUBDOMAINS: usize = 8;
/// The maximum number of entries in the configured BIFT-id table of the non-MPLS sub-domains.
pub const MOST_TABLE_ROWS: usize = 2_048;
/// The maximum number of label ranges that a router was given others for, in one run.
pub const MOST_RELABELS: usize = 1_000;
/// The maximum size in octets of a router's sub-domains in its own LSP, beside its prefix: what fits in one TLV.
pub const MOST_SUB_OCTETS: usize = 245;
/// The maximum number of entries in the arrays `bier`, `labels` and `link` of a domain file.
pub const MOST_BIER_ENTRIES: usize = 4_000;

pub const MOST_LABEL_ENTRIES: usize = 16_000;

pub const MOST_LINK_ENTRIES: usize = 8_000;
/// The maximum number of nodes in a topology.
pub const MOST_NODES: usize = 65_536;

/// The maximum size in octets of a domain file, of a schedule or a hop text, and of a capture.
pub const DOMAIN_FILE_LIMIT: usize = 8_388_608;

pub const TEXT_LIMIT: usize = 67_108_864;

pub const CAPTURE_LIMIT: usize = 268_435_456;
/// The maximum length of an input line in octets, without its line end.
pub const LINE_LIMIT: usize = 16_384;
/// The maximum size in octets of a record in a capture.
pub const MOST_CAPTURED: u32 = 262_144;
/// The maximum size in octets of an injected payload.
pub const MOST_PAYLOAD: usize = 2_000;
/// The maximum number of rounds of a `settle` line.
pub const MOST_ROUNDS: u32 = 1_000;

/// The maximum number of events in a run.
pub const MOST_EVENTS: u32 = 16_000_000;
/// The maximum number of frames in flight before an event that may send one.
pub const MOST_IN_FLIGHT: usize = 500_000;
/// The maximum size in octets of a frame that a router receives. Each frame that it sends then fits a tunnel and a capture
/// record.
pub const MOST_FRAME: usize = 65_000;

/// The largest MPLS label, of 20 bits (RFC 3032, 2.1).
pub const LAST_LABEL: u32 = 1_048_575;
/// The maximum number of entries in a router's LSDB.
pub const MOST_ENTRIES: usize = 16_384;
/// The maximum size in octets of the TLVs of an LSP.
pub const MOST_CONTENT: usize = 1_470;
/// The maximum number of entries in a sequence numbers PDU.
pub const MOST_LISTED: usize = 90;
/// The initial Remaining Lifetime of an LSP in seconds, and the Remaining Lifetime at which its router refreshes it.
pub const FULL_LIFE: u16 = 1_200;

pub const REFRESH_LIFE: u16 = 300;
/// ZeroAgeLifetime: the seconds for which a purge is kept.
pub const PURGE_HOLD: u16 = 60;
