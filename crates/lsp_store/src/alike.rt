//! LSDBs of which the same topology follows.
ghost use Rattle.std.specs.Prelude.{◌≡◌, true, map};
ghost use Rattle.lsp_store.specs.Topologies.{as_read};

use crate::entry_list::EntryList;
use crate::keys::is_same_id;
use same_octets::are_same_octets;
use wire_base::{Entry, SubKind};

fn is_same_kind(a: SubKind, b: SubKind) -> bool
    ensures { result ≡ true → a ≡ b }
{
    a.sd == b.sd && a.kind == b.kind
}

/// Returns whether two lists of kinds are equal.
pub(crate) fn are_same_kinds(a: &[SubKind], b: &[SubKind]) -> bool
    ensures { result ≡ true → a.now ≡ b.now }
{
    if a.len() != b.len() {
        return false;
    }
    'kinds: for place in 0..a.len() {
        if !is_same_kind(a[place], b[place]) {
            return false;
        }
    }
    true
}

/// Returns whether two entries differ at most in their sequence numbers, checksums and lifetimes, and both or neither is live.
fn is_alike(a: &Entry, b: &Entry) -> bool
    ensures { result ≡ true → as_read a.now ≡ as_read b.now }
{
    let are_same_contents = are_same_octets(a.content.as_slice(), b.content.as_slice());
    let is_alive = a.life > 0;
    is_same_id(a.id, b.id) && a.flags == b.flags && is_alive == (b.life > 0) && are_same_contents
}

/// Returns whether each two entries of two LSDBs are so alike.
pub(crate) fn are_alike(a: &[Entry], b: &EntryList) -> bool
    ensures { result ≡ true → map as_read a.now ≡ map as_read b.now.entries }
{
    if a.len() != b.len() {
        return false;
    }
    'entries: for place in 0..a.len() {
        if !is_alike(&a[place], b.at(place)) {
            return false;
        }
    }
    true
}
