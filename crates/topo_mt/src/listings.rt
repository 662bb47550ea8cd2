//! The topologies in which a router takes part (RFC 5120, 7.1).
ghost use Rattle.std.specs.Prelude.{◌≡◌};
ghost use Rattle.wire_base.specs.model.Control.{same_system};
ghost use Rattle.isis_tlv.specs.Views.{item};
ghost use Rattle.topo_mt.specs.MultiTopology.{is_member, listing_in, listing_of, lists_part, member_in};

use crate::parts::TLV_MULTI_TOPOLOGY;
use isis_tlv::{Tlv, TlvWalk};
use lsp_store::Store;
use wire_base::{Entry, SystemId};

/// Returns the O bit (overload) of the first whole entry of a topology in the value of a TLV 229. None exactly where it has no
/// such entry (RFC 5120, 7.1).
pub fn member(value: &[u8], mt: u16) -> Option<bool>
    ensures { result ≡ member_in mt value.now }
{
    let mut rest = value;
    'entries: while let [high, low, more @ ..] = rest {
        if u16::from(*high % 16) * 256 + u16::from(*low) == mt {
            return Some(*high / 128 == 1);
        }
        rest = more;
    }
    None
}

/// Returns that bit where the TLV is one that lists the topology.
fn listing_of(tlv: Tlv<'_>, mt: u16) -> Option<bool>
    ensures { result ≡ listing_of mt (item tlv.entry) }
{
    if tlv.code == TLV_MULTI_TOPOLOGY {
        member(tlv.value, mt)
    } else {
        None
    }
}

/// Returns that bit in the first of a fragment's TLVs that lists the topology. None if none does.
#[tactic(auto, unfolding(crate::specs::MultiTopology::listing_in))]
pub(crate) fn listing_in(content: &[u8], mt: u16) -> Option<bool>
    ensures { result ≡ listing_in mt content.now }
{
    for part in TlvWalk::new(content) {
        if let Ok(tlv) = part {
            let listing = listing_of(tlv, mt);
            if listing.is_some() {
                return listing;
            }
        }
    }
    None
}

/// Returns whether an entry is a live fragment of that system itself, not of one of its pseudonodes, and lists the topology.
fn lists_part(entry: &Entry, system: SystemId, mt: u16) -> bool
    ensures { result ≡ lists_part mt system entry.now }
{
    entry.id.system == system
        && entry.id.pseudonode == 0
        && entry.life > 0
        && listing_in(entry.content.as_slice(), mt).is_some()
}

/// Returns whether a system takes part in a topology: whether one of its live fragments lists it.
#[tactic(auto, unfolding(crate::specs::MultiTopology::is_member))]
pub(crate) fn is_member(store: &Store, system: SystemId, mt: u16) -> bool
    ensures { result ≡ is_member mt store.now.entries system }
{
    'entries: for place in 0..store.len() {
        if lists_part(store.at(place), system, mt) {
            return true;
        }
    }
    false
}
