//! What may change the cached topology. The systems that may advertise something else are noted before the change
//! happens. The topology is renewed when it is next needed, and if it is the same then, nothing cached is lost.
ghost use Rattle.std.specs.Prelude.{◌≡◌, ℕ, true, false};
ghost use Rattle.std.specs.List.{list_any};
ghost use Rattle.wire_base.specs.model.Control.{Control as ControlState};
ghost use Rattle.wire_base.specs.model.Flooding.{tick};
ghost use Rattle.wire_base.specs.model.OnFrame.{pdu_taken};
ghost use Rattle.wire_base.specs.model.Tlv.{rows_of};
ghost use Rattle.view_graph.specs.Keep.{is_named};
ghost use Rattle.isis_pdu.specs.Views.{pdu_of};
ghost use Rattle.router_core.specs.SnpNeeds.{is_confusing};
ghost use Rattle.router_core.specs.Keeping.{IsKept, MayKeep, SaysSame, StaysKept, StaysOwn, is_last};

use crate::control::Control;
use crate::kept::{Kept, keep_if};
use crate::snp_needs::any_confusing;
use isis_flood::listed;
use isis_pdu::Pdu;
use lsp_store::Store;
use wire_base::SystemId;

/// The greatest number of systems that are noted. If more systems change, the topology is computed anew.
const MOST_CHANGED: usize = 64;

fn is_named(systems: &[SystemId], system: &SystemId) -> bool
    ensures { result ≡ is_named systems.now system.now }
{
    systems.iter().any(|s| s == system)
}

/// Returns whether an entry expires within the second.
fn any_last(store: &Store) -> bool
    ensures { result ≡ list_any is_last store.now.entries }
{
    'entries: for place in 0..store.len() {
        if store.at(place).life == 1 {
            return true;
        }
    }
    false
}

/// Notes that the router itself may advertise something else.
pub(crate) fn note_own(kept: &mut Option<Kept>)
    ensures { StaysOwn kept.old kept.new }
{
    if let Some(kept) = kept {
        kept.is_current = false;
    }
}

/// Notes that a system may advertise something else, if there is room to note it.
fn noted(kept: &mut Kept, system: SystemId) -> bool
    ensures { result ≡ true → (c next : ControlState) → IsKept c kept.old → SaysSame system c next → IsKept next kept.new }
{
    kept.is_current = false;
    if is_named(kept.changed.as_slice(), &system) {
        return true;
    }
    if kept.changed.len() >= MOST_CHANGED {
        return false;
    }
    kept.changed.push(system).is_ok()
}

/// Does the same if anything is cached.
fn may_go_stale(kept: &mut Option<Kept>, system: SystemId) -> bool
    ensures { result ≡ true → StaysKept system kept.old kept.new }
{
    match kept {
        None => true,
        Some(kept) => noted(kept, system),
    }
}

/// Notes that a system, and the router itself, may advertise something else. If there is no room to note that system,
/// the cache is dropped.
fn note(kept: &mut Option<Kept>, system: SystemId)
    ensures { StaysKept system kept.old kept.new }
{
    let stays = may_go_stale(kept, system);
    keep_if(kept, stays);
}

impl Control {
    /// Returns whether one of the entries that those TLVs list may be in LSP confusion with the LSDB's.
    fn may_confuse(&self, tlvs: &[u8]) -> bool
        ensures { result ≡ false → list_any (is_confusing self.now.entries) (rows_of tlvs.now) ≡ false }
    {
        match listed(self.allocator(), tlvs) {
            Ok(rows) => any_confusing(&self.store, rows.as_slice()),
            Err(_) => true,
        }
    }

    /// Notes that a sequence numbers PDU with those TLVs arrives. An entry in LSP confusion with the LSDB's becomes a
    /// purge, so its system advertises something else. Otherwise the PDU changes at most what the LSDB waits for.
    fn note_list(&self, kept: &mut Option<Kept>, tlvs: &[u8])
        requires { MayKeep self.now kept.old }
        ensures { (next : ControlState) → (list_any (is_confusing self.now.entries) (rows_of tlvs.now) ≡ false → SaysSame self.now.conf.system self.now next) → MayKeep next kept.new }
    {
        if kept.is_none() {
            return;
        }
        if self.may_confuse(tlvs) {
            *kept = None;
        } else {
            note_own(kept);
        }
    }

    /// Notes that a PDU arrives, whether or not it is accepted.
    pub(crate) fn note_pdu(&self, kept: &mut Option<Kept>, pdu: Pdu<'_>)
        requires { MayKeep self.now kept.old }
        ensures now { MayKeep self.now kept.new }
        ensures next { (link : ℕ) → MayKeep (pdu_taken self.now link (pdu_of pdu.entry)).control kept.new }
    {
        match pdu {
            Pdu::Lsp { head, tlvs: _ } => note(kept, head.id.system),
            Pdu::Csnp {
                source: _,
                start: _,
                last: _,
                tlvs,
            } => self.note_list(kept, tlvs),
            Pdu::Psnp { source: _, tlvs } => self.note_list(kept, tlvs),
            Pdu::Hello | Pdu::Other(_) => (),
        }
    }

    /// Notes that a second may pass. A system stops advertising what an entry contains when that entry expires.
    pub(crate) fn note_second(&self, kept: &mut Option<Kept>)
        requires { MayKeep self.now kept.old }
        ensures now { MayKeep self.now kept.new }
        ensures next { MayKeep (tick self.now).control kept.new }
    {
        if any_last(&self.store) {
            *kept = None;
        } else {
            note_own(kept);
        }
    }
}
