//! The configuration of a router, as a domain file describes it.
ghost use Rattle.std.specs.Prelude.{◌≡◌, ◌≤◌, length};
ghost use Rattle.wire_base.specs.model.Choice.{end_toward};

use crate::addresses::{Ipv4, Mac, SystemId};
use crate::bsl::Bsl;
use crate::lists::{Name, Octets, Rows};
use crate::triple::Triple;

/// The IS-IS level of the domain (ISO/IEC 10589, 6.3).
#[derive(Clone, Copy, Debug, PartialEq, Eq)]
pub enum Level {
    One,
    Two,
}

/// The encapsulation of a sub-domain. With MPLS, BIFT-ids are labels that each router advertises. Without MPLS, all routers
/// share one configured table of BIFT-ids (RFC 8296, 2.1.1 and 2.2.1).
#[derive(Clone, Copy, Debug, PartialEq, Eq)]
pub enum Kind {
    Mpls,
    Configured,
}

/// A label range for BitStrings of one length. Set identifier s, from 0 to `max_si`, has the label `label` + s
/// (RFC 8401, 6.2).
#[derive(Clone, Copy, Debug, Default, PartialEq, Eq)]
pub struct LabelRange {
    pub bsl: Bsl,
    pub max_si: u8,
    pub label: u32,
}

/// A router's membership of a sub-domain: its BFR-id and its label ranges. The BFR-id is 0 for a router that only
/// forwards packets (RFC 8401, 6.1).
#[derive(Drop)]
pub struct OwnSub {
    pub sd: u8,
    pub id: u16,
    pub ranges: Rows<LabelRange>,
}

/// A label range that a router had in a sub-domain before it was given another one there. Packets that were sent with its labels may
/// still arrive.
#[derive(Clone, Copy, Debug, Default, PartialEq, Eq)]
pub struct PastRange {
    pub sd: u8,
    pub range: LabelRange,
}

/// An entry of the configured BIFT-id table: the BIFT-id of a triple in a non-MPLS sub-domain.
#[derive(Clone, Copy, Debug, PartialEq, Eq)]
pub struct TableRow {
    pub triple: Triple,
    pub bift: u32,
}

/// A sub-domain and its encapsulation.
#[derive(Clone, Copy, Debug, PartialEq, Eq)]
pub struct SubKind {
    pub sd: u8,
    pub kind: Kind,
}

/// An interface of a router: the router at the other end of the link, the Ethernet addresses of both interfaces,
/// and the metric in the direction away from this router.
#[derive(Clone, Copy, Debug, PartialEq, Eq)]
pub struct End {
    pub peer: SystemId,
    pub peer_mac: Mac,
    pub own_mac: Mac,
    pub metric: u32,
}

/// Returns the index of the first interface whose peer has that system ID. Precondition: at most 65,536 interfaces,
/// so that the index fits.
pub fn end_toward(ends: &[End], system: SystemId) -> Option<u16>
    requires { length ends.now ≤ 65536 }
    ensures { result ≡ end_toward ends.now system }
{
    for place in 0..ends.len() {
        if ends[place].peer == system {
            return Some(place as u16);
        }
    }
    None
}

/// A link, given by the indices in the domain of the two routers that it connects.
#[derive(Clone, Copy, Debug, PartialEq, Eq)]
pub struct LinkConf {
    pub a: u16,
    pub b: u16,
}

/// The configuration of a router. A router that leaves a sub-domain keeps its BFR-id and label ranges there in `away`, and one that
/// is given other labels keeps the earlier ranges in `past`: it still forwards packets that arrive with these labels. Both lists are
/// empty at first.
#[derive(Drop)]
pub struct RouterConf {
    pub level: Level,
    pub area: Octets,
    pub name: Name,
    pub system: SystemId,
    pub prefix: Ipv4,
    pub overload: bool,
    pub subs: Rows<OwnSub>,
    pub away: Rows<OwnSub>,
    pub past: Rows<PastRange>,
    pub kinds: Rows<SubKind>,
    pub table: Rows<TableRow>,
    pub ends: Rows<End>,
}
