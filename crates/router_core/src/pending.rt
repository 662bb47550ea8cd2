//! How many frames are due on a link (ISO/IEC 10589, 7.3.15.4 and 7.3.17).
ghost use Rattle.std.specs.Prelude.{◌≡◌, [], ◌+◌, ◌/◌, ◌<◌, ◌≤◌, Bool, true, false, length, max, filter, slice_index_or, if◌then◌else◌};
ghost use Rattle.wire_base.specs.model.Control.{srm_in, ssn_in};
ghost use Rattle.wire_base.specs.model.Flooding.{send, send_of, is_known};
ghost use Rattle.wire_base.specs.declared.conf.RouterConf.{RouterConf};
ghost use Rattle.isis_flood.specs.Flags.{has_srm, has_ssn};
ghost use Rattle.laws_router.specs.State.{is_up, control_of};

use crate::control::Control;
use isis_flood::Flood;
use lsp_store::Store;
use wire_base::Entry;
use wire_base::limits::{MOST_ENTRIES, MOST_LISTED};

pub(crate) fn is_known(e: &Entry) -> bool
    ensures { result ≡ is_known e.now }
{
    e.seq > 0
}

/// Returns how many entries a CSNP lists.
fn known(store: &Store) -> usize
    ensures known { result ≡ length (filter is_known store.now.entries) }
    ensures few { result ≤ length store.now.entries }
{
    let mut count = 0;
    'entries: for place in 0..store.len() {
        if is_known(store.at(place)) {
            count += 1;
        }
    }
    count
}

/// Returns how many entries are to be sent on a link.
fn marked(store: &Store, flood: &Flood, link: u16) -> usize
    requires { link < length flood.now.flood.up }
    ensures marked { result ≡ length (filter (λ e. srm_in flood.now.flood.rows e.id link) store.now.entries) }
    ensures few { result ≤ length store.now.entries }
{
    if !flood.may_send(link) {
        return 0;
    }
    let mut count = 0;
    'entries: for place in 0..store.len() {
        if flood.srm(store.at(place).id, link) {
            count += 1;
        }
    }
    count
}

/// Returns how many entries are to be acknowledged or requested on a link.
fn asked(store: &Store, flood: &Flood, link: u16) -> usize
    requires { link < length flood.now.flood.up }
    ensures asked { result ≡ length (filter (λ e. ssn_in flood.now.flood.rows e.id link) store.now.entries) }
    ensures few { result ≤ length store.now.entries }
{
    if !flood.may_ask(link) {
        return 0;
    }
    let mut count = 0;
    'entries: for place in 0..store.len() {
        if flood.ssn(store.at(place).id, link) {
            count += 1;
        }
    }
    count
}

/// Returns how many sequence numbers PDUs are needed to list that many entries.
fn lists(entries: usize) -> usize
    requires { entries ≤ MOST_ENTRIES }
    ensures lists { result ≡ (entries + 89) / MOST_LISTED }
    ensures few { result ≤ MOST_ENTRIES }
{
    (entries + (MOST_LISTED - 1)) / MOST_LISTED
}

/// Returns how many CSNPs list those entries, if CSNPs are due.
fn csnps(store: &Store, due: bool) -> usize
    requires { length store.now.entries ≤ MOST_ENTRIES }
    ensures csnps { result ≡ (if due then max ((length (filter is_known store.now.entries) + 89) / MOST_LISTED) 1 else 0) }
    ensures few { result ≤ MOST_ENTRIES }
{
    if due {
        return lists(known(store)).max(1);
    }
    0
}

/// Returns how many frames are due on a link that is up.
#[tactic(auto, using(crate::proofs::CountLaws::up_within))]
pub(crate) fn pending(store: &Store, flood: &Flood, link: u16) -> usize
    requires { slice_index_or flood.now.flood.up link false ≡ true }
    ensures { (conf : RouterConf) (spent : Bool) → result ≡ length (send_of (control_of conf flood.now.flood store.now.entries spent) link) }
{
    let _few = store.len();
    csnps(store, flood.due(link)) + marked(store, flood, link) + lists(asked(store, flood, link))
}

/// Returns whether anything may be due on a link.
fn may_owe(flood: &Flood, link: u16) -> bool
    ensures due { result ≡ false → slice_index_or flood.now.flood.due link false ≡ false }
    ensures sends { result ≡ false → has_srm flood.now.flood.rows link ≡ false }
    ensures asks { result ≡ false → has_ssn flood.now.flood.rows link ≡ false }
{
    flood.due(link) || flood.may_send(link) || flood.may_ask(link)
}

impl Control {
    /// Returns whether anything may be due on a link. If it returns false, nothing is due.
    #[tactic(auto, using(crate::proofs::IdleLaws::idle_send))]
    pub(crate) fn may_owe(&self, link: u16) -> bool
        ensures { result ≡ false → send self.now link ≡ record { control = self.now; sent = []; drops = [] } }
    {
        may_owe(&self.flood, link)
    }

    /// Returns how many frames are due on a link that is up.
    pub(crate) fn pending(&self, link: u16) -> usize
        requires { is_up self.now link ≡ true }
        ensures { result ≡ length (send_of self.now link) }
    {
        pending(&self.store, &self.flood, link)
    }
}
