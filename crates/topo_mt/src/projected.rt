//! An LSDB with only the TLVs of one topology.
ghost use Rattle.std.specs.Prelude.{◌≡◌, false, IfOk, OnOk};
ghost use Rattle.wire_base.specs.model.Control.{is_full, put_entry};
ghost use Rattle.topo_mt.specs.MultiTopology.{is_member, is_overloaded_in, is_projected, projected_entries, projected_entry, with_overload};

use crate::contents::projected_content;
use crate::listings::{is_member, listing_in};
use crate::observer::OBSERVER;
use lsp_store::Store;
use std::alloc::Global;
use wire_base::{Content, Entry, LspId, M, Memory, SystemId};

/// Returns a flags octet with the overload bit set or cleared (ISO/IEC 10589, 9.8).
fn with_overload(flags: u8, is_overloaded: bool) -> u8
    ensures { result ≡ with_overload is_overloaded flags }
{
    let bit = if is_overloaded { 4 } else { 0 };
    flags / 8 * 8 + bit + flags % 4
}

/// Returns whether a system's fragment 0 says that the system is overloaded in a topology.
#[tactic(auto, unfolding(crate::specs::MultiTopology::is_overloaded_in))]
fn is_overloaded_in(store: &Store, system: SystemId, mt: u16) -> bool
    ensures { result ≡ is_overloaded_in mt store.now.entries system }
{
    match store.get(&LspId::fragment_0(system)) {
        None => false,
        Some(first) => listing_in(first.content.as_slice(), mt) == Some(true),
    }
}

/// Returns an entry with only the TLVs of the topology, and the system's overload bit there.
fn projected_entry(alloc: Global, store: &Store, entry: &Entry, mt: u16) -> M<Entry>
    ensures { IfOk result (λ e. e ≡ projected_entry mt store.now.entries entry.now) }
{
    let is_overloaded = is_overloaded_in(store, entry.id.system, mt);
    Ok(Entry {
        id: entry.id,
        seq: entry.seq,
        life: entry.life,
        hold: entry.hold,
        sum: entry.sum,
        flags: with_overload(entry.flags, is_overloaded),
        content: Content::from_octets(
            alloc,
            projected_content(alloc, entry.content.as_slice(), mt)?,
        )?,
    })
}

/// Whether a system takes part in the topology. It is kept for the system's further fragments, which follow one another.
#[derive(Clone, Copy)]
struct Known {
    system: SystemId,
    is_member: bool,
}

/// Finds out whether a system takes part in the topology, unless that is known.
#[tactic(auto, using(view_graph::proofs::FragmentLaws::same_is))]
fn known_of(known: Known, store: &Store, system: SystemId, mt: u16) -> Known
    requires { known.is_member ≡ is_member mt store.now.entries known.system }
    ensures system { result.system ≡ system }
    ensures member { result.is_member ≡ is_member mt store.now.entries result.system }
{
    if known.system == system {
        return known;
    }
    Known {
        system,
        is_member: is_member(store, system, mt),
    }
}

/// Returns whether an entry is a live fragment of a router that takes part in the topology.
fn is_projected(store: &Store, entry: &Entry, mt: u16, known: &mut Known) -> bool
    requires { known.old.is_member ≡ is_member mt store.now.entries known.old.system }
    ensures known { known.new.is_member ≡ is_member mt store.now.entries known.new.system }
    ensures answer { result ≡ is_projected mt store.now.entries entry.now }
{
    if entry.id.pseudonode != 0 || entry.life == 0 {
        return false;
    }
    *known = known_of(*known, store, entry.id.system, mt);
    known.is_member
}

/// Stores an entry that the LSDB has room for.
fn put_into(store: &mut Store, e: Entry) -> M<()>
    requires { is_full store.old.entries ≡ false }
    ensures { OnOk result (store.new.entries ≡ put_entry e store.old.entries) }
{
    match store.put(e) {
        Ok(()) => Ok(()),
        Err(_) => Err(Memory),
    }
}

/// Returns the LSDB with only the TLVs of a topology other than the standard one (RFC 5120, 3).
#[tactic(auto, unfolding(crate::specs::MultiTopology::projected_entries))]
pub(crate) fn projected(alloc: Global, store: &Store, mt: u16) -> M<Store>
    ensures { IfOk result (λ made. made.entries ≡ projected_entries mt store.now.entries) }
{
    let mut made = Store::new(alloc);
    let mut known = Known {
        system: OBSERVER,
        is_member: is_member(store, OBSERVER, mt),
    };
    'entries: for place in 0..store.len() {
        let entry = store.at(place);
        if is_projected(store, entry, mt, &mut known) {
            put_into(&mut made, projected_entry(alloc, store, entry, mt)?)?;
        }
    }
    Ok(made)
}
