//! The copies of a packet that a router sends.
use crate::cells::{Cell, Row};
use crate::planes::Ground;
use crate::sets::ids_of_bits;
use bier_forward::SentFrames;
use bier_head::read_by_field;
use gre_ip::read_tunnel;
use link_frame::{Class, classify};
use std::alloc::Global;
use wire_base::{Ipv4, Kind, M, SystemId, Triple};

/// A copy, as its frame has it: the interface that it leaves by, the BFR-prefix of the BFR-NBR if it is in a tunnel, its BIFT-id and
/// its TTL, and its BFR-ids.
#[derive(Drop)]
pub(crate) struct Copied {
    pub link: u16,
    pub tunnel: Option<Ipv4>,
    pub bift: u32,
    pub ttl: u8,
    pub ids: Vec<u16>,
}

impl Copied {
    /// Returns whether two copies are equal, whatever their TTLs.
    pub fn is_same(&self, other: &Copied) -> bool {
        self.link == other.link
            && self.tunnel == other.tunnel
            && self.bift == other.bift
            && self.ids.as_slice() == other.ids.as_slice()
    }
}

/// Returns the copies in the frames that a router sends for a packet of a triple.
pub(crate) fn copies_of(alloc: Global, triple: Triple, sent: &SentFrames) -> M<Vec<Copied>> {
    let mut copies = Vec::new(alloc);
    for place in 0..sent.len() {
        let copy = copy_in(alloc, triple, sent.link_at(place), sent.octets_at(place))?;
        if let Some(copy) = copy {
            copies.push(copy)?;
        }
    }
    Ok(copies)
}

/// Returns the copy in a frame, by `classify`, `read_tunnel` and `read_by_field`.
fn copy_in(alloc: Global, triple: Triple, link: u16, frame: &[u8]) -> M<Option<Copied>> {
    match classify(frame) {
        Ok(Class::Mpls { from }) => {
            packet_in(alloc, triple, link, None, Kind::Mpls, &frame[from..])
        }
        Ok(Class::Bier { from }) => {
            packet_in(alloc, triple, link, None, Kind::Configured, &frame[from..])
        }
        Ok(Class::Ip { from }) => tunneled(alloc, triple, link, &frame[from..]),
        _ => Ok(None),
    }
}

fn tunneled(alloc: Global, triple: Triple, link: u16, octets: &[u8]) -> M<Option<Copied>> {
    match read_tunnel(octets) {
        Ok(tunnel) => {
            let inside = &octets[tunnel.from..tunnel.to];
            packet_in(alloc, triple, link, Some(tunnel.dst), tunnel.inner, inside)
        }
        Err(_) => Ok(None),
    }
}

fn packet_in(
    alloc: Global,
    triple: Triple,
    link: u16,
    tunnel: Option<Ipv4>,
    kind: Kind,
    octets: &[u8],
) -> M<Option<Copied>> {
    match read_by_field(kind, octets) {
        Ok(header) => Ok(Some(Copied {
            link,
            tunnel,
            bift: header.bift,
            ttl: header.ttl,
            ids: ids_of_bits(alloc, triple, &header.bits)?,
        })),
        Err(_) => Ok(None),
    }
}

/// Returns the system at the other end of an interface of the router.
fn peer_at(ground: Ground<'_>, link: u16) -> Option<SystemId> {
    match ground.conf.ends.as_slice().get(usize::from(link)) {
        Some(end) => Some(end.peer),
        None => None,
    }
}

/// Appends where a copy goes: the BFR-NBR, whether directly or in a tunnel, the peer of the interface, and the BIFT-id there.
pub(crate) fn push_way(row: &mut Row, ground: Ground<'_>, copy: &Copied) -> M<()> {
    let alloc = ground.alloc;
    let peer = match peer_at(ground, copy.link) {
        Some(system) => ground.names.of(alloc, system)?,
        None => String::new(alloc),
    };
    match copy.tunnel {
        Some(prefix) => {
            row.text(ground.names.at(alloc, prefix)?)?;
            row.put(Cell::Word("tunnel"))?;
        }
        None => {
            row.text(peer.clone()?)?;
            row.put(Cell::Word("direct"))?;
        }
    }
    row.text(peer)?;
    row.number(u64::from(copy.bift))
}
