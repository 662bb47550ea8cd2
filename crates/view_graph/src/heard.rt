//! What a system advertises in an LSDB.
ghost use Rattle.std.specs.Prelude.{◌≡◌, IfOk};
ghost use Rattle.view_graph.specs.Keep.{is_first_of, said_in};

use crate::claims::{Claim, claim_of, with_known};
use lsp_store::{Store, place_of};
use std::alloc::Global;
use wire_base::{Entry, LspId, M, SubKind, SystemId};

/// Returns whether an entry is a live fragment 0 of a system.
fn is_first_of(system: &SystemId, entry: &Entry) -> bool
    ensures { result ≡ is_first_of system.now entry.now }
{
    entry.id.system == *system
        && entry.id.pseudonode == 0
        && entry.id.fragment == 0
        && entry.life > 0
}

/// Returns what a system advertises in an LSDB. None if it has no live fragment 0.
pub(crate) fn said_in(
    alloc: Global,
    kinds: &[SubKind],
    store: &Store,
    system: &SystemId,
) -> M<Option<Claim>>
    ensures { IfOk result (λ said. said ≡ said_in kinds.now store.now.entries system.now) }
{
    let count = store.len();
    let place = place_of(store, &LspId::fragment_0(*system));
    if place >= count {
        return Ok(None);
    }
    let entry = store.at(place);
    if !is_first_of(system, entry) {
        return Ok(None);
    }
    let claim = claim_of(alloc, store, place, entry)?;
    let known = with_known(kinds, claim)?;
    Ok(Some(known))
}
