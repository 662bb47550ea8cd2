//! The newest LSPs of a capture.
ghost use Rattle.std.specs.Prelude.{◌≡◌, false, OnOk, OnErr, IfErr};
ghost use Rattle.wire_base.specs.declared.faults.PutFault.TheVariants as puts;
ghost use Rattle.wire_base.specs.model.Control.{put_entry};
ghost use Rattle.wire_base.specs.model.Flooding.{kept};
ghost use Rattle.isis_pdu.specs.Views.{head_of};
ghost use Rattle.lsp_store.specs.Places.{is_refused};
ghost use Rattle.topo_mt.specs.Gather.{GatherAnswers, gathered, is_taken, is_wanted};

use crate::observer::OBSERVER;
use isis_pdu::LspHead;
use lsp_store::{Store, received};
use wire_base::limits::MOST_ENTRIES;
use wire_base::{Age, LspId, PutFault};

/// Returns whether an LSP with that result of the comparison is put.
fn is_wanted(age: Age) -> bool
    ensures { result ≡ is_wanted age }
{
    match age {
        Age::Unknown | Age::Newer => true,
        Age::Equal | Age::Older | Age::Confused => false,
    }
}

/// Returns whether an LSP is put.
#[tactic(auto, unfolding(crate::specs::Gather::is_taken))]
fn is_taken(store: &Store, head: &LspHead) -> bool
    ensures { result ≡ is_taken store.now.entries (head_of head.now) }
{
    head.seq != 0 && head.id.system != OBSERVER && is_wanted(store.compare(&head.summary()))
}

/// Returns whether the LSDB has no room for an LSP ID.
fn is_refused(store: &Store, id: &LspId) -> bool
    ensures { result ≡ is_refused store.now.entries id.now }
{
    store.get(id).is_none() && store.len() >= MOST_ENTRIES
}

/// Puts the entry of an LSP that the LSDB has room for.
fn put_kept(store: &mut Store, head: &LspHead, tlvs: &[u8]) -> Result<(), PutFault>
    requires { is_refused store.old.entries head.now.id ≡ false }
    ensures ok { OnOk result (store.new.entries ≡ put_entry (kept (head_of head.now) tlvs.now) store.old.entries) }
    ensures err { OnErr result (store.new.entries ≡ store.old.entries) }
    ensures fault { IfErr result (λ fault. fault ≡ puts.Memory) }
{
    let entry = received(store.allocator(), &head.summary(), head.flags, tlvs)?;
    store.put(entry)
}

/// Adds an LSP to an LSDB: it is put where it is unknown or newer than the entry of its LSP ID; otherwise the LSDB is unchanged.
/// In particular, of two live LSPs of one sequence number and different checksums the first stays. LSPs of the sequence number 0
/// and those of the system ID of six zeros are left out. An expired LSP is kept as a purge (ISO/IEC 10589, 7.3.16).
///
/// Errors, on which the LSDB is unchanged: Full exactly where the LSP is to be put, its LSP ID is new and the LSDB is full; Memory
/// if an allocation fails.
#[tactic(auto, unfolding(crate::specs::Gather::gathered))]
pub fn gather(store: &mut Store, head: &LspHead, tlvs: &[u8]) -> Result<(), PutFault>
    ensures ok { OnOk result (store.new.entries ≡ gathered store.old.entries (head_of head.now) tlvs.now) }
    ensures err { OnErr result (store.new.entries ≡ store.old.entries) }
    ensures answers { GatherAnswers store.old.entries (head_of head.now) result }
{
    if !is_taken(store, head) {
        return Ok(());
    }
    if is_refused(store, &head.id) {
        return Err(PutFault::Full(store.len()));
    }
    put_kept(store, head, tlvs)
}
