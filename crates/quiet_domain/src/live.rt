//! The comparison of two LSDBs.
ghost use Rattle.std.specs.Prelude.{◌≡◌, ◌&&◌, [], ◌==◌, drop, find, nat_lt, option_map};
ghost use Rattle.std.specs.Str.{bytes_eq};
ghost use Rattle.wire_base.specs.model.Control.{id_order};
ghost use Rattle.quiet_domain.specs.Live.{IsLeastDifference, are_alike, first_difference, is_live};

use lsp_store::Store;
use std::cmp::Ordering;
use wire_base::{Entry, LspId};

fn is_live(entry: &Entry) -> bool
    ensures { result ≡ is_live entry.now }
{
    entry.life > 0
}

/// Returns whether two entries are the same, except for their lifetimes and checksums.
fn are_alike(a: &Entry, b: &Entry) -> bool
    ensures { result ≡ are_alike a.now b.now }
{
    match (is_live(a), is_live(b)) {
        (true, true) => {
            a.seq == b.seq && a.flags == b.flags && a.content.as_slice() == b.content.as_slice()
        }
        (false, false) => true,
        _ => false,
    }
}

fn order_of(a: &Entry, b: &Entry) -> Ordering
    ensures { result ≡ id_order a.now.id b.now.id }
{
    a.id.cmp(&b.id)
}

/// Returns the least LSP ID that has a live entry, among the entries from an index on.
fn first_live(store: &Store, first: usize) -> Option<LspId>
    ensures { result ≡ option_map (λ e. e.id) (find is_live (drop first store.now.entries)) }
{
    'entries: for place in first..store.len() {
        let entry = store.at(place);
        if is_live(entry) {
            return Some(entry.id);
        }
    }
    None
}

/// Returns the least LSP ID at which two LSDBs differ: one of them has a live entry and the other has none, or both have one and
/// the sequence numbers, the flags or the contents differ. None exactly where there is no such LSP ID. Remaining Lifetimes, and
/// entries that are not live, do not count. Does not allocate (ISO/IEC 10589, 7.3.15 and 7.3.16).
pub fn same_live(a: &Store, b: &Store) -> Option<LspId>
    ensures least { IsLeastDifference a.now.entries b.now.entries result }
    ensures value { result ≡ first_difference a.now.entries b.now.entries }
{
    let left_count = a.len();
    let right_count = b.len();
    let mut left = 0;
    let mut right = 0;
    'merge: loop {
        if left >= left_count {
            return first_live(b, right);
        }
        if right >= right_count {
            return first_live(a, left);
        }
        let x = a.at(left);
        let y = b.at(right);
        match order_of(x, y) {
            Ordering::Less => {
                if is_live(x) {
                    return Some(x.id);
                }
                left += 1;
            }
            Ordering::Greater => {
                if is_live(y) {
                    return Some(y.id);
                }
                right += 1;
            }
            Ordering::Equal => {
                if !are_alike(x, y) {
                    return Some(x.id);
                }
                left += 1;
                right += 1;
            }
        }
    }
}
