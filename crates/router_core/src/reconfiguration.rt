//! Other labels, and sub-domains that are left and joined (RFC 8401, 6.1 and 6.2; ISO/IEC 10589, 7.3.6).
ghost use Rattle.std.specs.Prelude.{◌≡◌, true, false, length, is_some, IfOk, OnOk, OnErr};
ghost use Rattle.wire_base.specs.model.Configuration.{IsSound};
ghost use Rattle.wire_base.specs.model.Control.{IsDatabase, fragment_0, put_entry};
ghost use Rattle.wire_base.specs.model.Flooding.{mark_all, reissue_unless_spent, relabel, leave, join};
ghost use Rattle.wire_base.specs.model.Membership.{CanRelabel};
ghost use Rattle.wire_base.specs.model.Place.{sub_in};
ghost use Rattle.lsp_store.specs.Places.{is_refused};
ghost use Rattle.laws_router.specs.Becoming.{AreOfOne};
ghost use Rattle.router_core.specs.Own.{own_next, own_seq, spent_past};

use crate::control::Control;
use crate::membership::{left, rejoined, relabelled};
use crate::own::{issue, own_now, spent_past};
use isis_flood::Flood;
use lsp_store::Store;
use wire_base::{Bsl, LspId, M, RouterConf};

/// Originates the own LSP from a configuration, unless the sequence number space is exhausted. Returns whether it is exhausted
/// then. If an allocation fails, nothing has changed.
fn issue_from(conf: &RouterConf, store: &mut Store, flood: &mut Flood, spent: bool) -> M<bool>
    requires sound { IsSound conf.now }
    requires ends { length flood.old.flood.up ≡ length conf.now.ends }
    requires own { spent ≡ false → is_refused store.old.entries (fragment_0 conf.now.system) ≡ false }
    ensures exhausted { spent ≡ true → IfOk result (λ now. (now ≡ true) × (flood.new.flood ≡ flood.old.flood) × (store.new.entries ≡ store.old.entries)) }
    ensures flood { spent ≡ false → OnOk result (flood.new.flood ≡ mark_all flood.old.flood (own_next conf.now flood.old.flood store.old.entries).id) }
    ensures entries { spent ≡ false → OnOk result (store.new.entries ≡ put_entry (own_next conf.now flood.old.flood store.old.entries) store.old.entries) }
    ensures database { spent ≡ false → OnOk result (IsDatabase store.new.entries) }
    ensures spent { spent ≡ false → IfOk result (λ now. now ≡ spent_past spent (own_seq conf.now store.old.entries)) }
    ensures err { OnErr result ((flood.new.flood ≡ flood.old.flood) × (store.new.entries ≡ store.old.entries)) }
{
    if spent {
        return Ok(true);
    }
    let seq = store.seq_of(&LspId::fragment_0(conf.system));
    let own = own_now(store.allocator(), conf, flood, seq)?;
    issue(store, flood, own)?;
    Ok(spent_past(spent, seq))
}

impl Control {
    /// Replaces the configuration by one that differs in sub-domains and label ranges only, and originates the own LSP from it. If
    /// an allocation fails, nothing has changed.
    fn reconfigure(&mut self, next: RouterConf) -> M<()>
        requires one { AreOfOne next self.old.conf }
        requires sound { IsSound next }
        ensures ok { OnOk result (self.new ≡ reissue_unless_spent (record self.old { conf = next })) }
        ensures err { OnErr result (self.new ≡ self.old) }
    {
        self.spent = issue_from(&next, &mut self.store, &mut self.flood, self.spent)?;
        self.conf = next;
        Ok(())
    }

    /// Lets the label range of a BSL in a sub-domain begin at another label. If an allocation fails, nothing has changed.
    #[tactic(auto, using(laws_router::proofs::ChangeLaws::relabel_sound, crate::proofs::ReconfigurationLaws::relabelled_is_one, crate::proofs::ReconfigurationLaws::relabel_is))]
    pub(crate) fn relabel(&mut self, sd: u8, bsl: Bsl, label: u32) -> M<()>
        requires { CanRelabel self.old.conf sd bsl label }
        ensures ok { OnOk result (self.new ≡ (relabel self.old sd bsl label).control) }
        ensures err { OnErr result (self.new ≡ self.old) }
    {
        let next = relabelled(&self.conf, sd, bsl, label)?;
        self.reconfigure(next)
    }

    /// Leaves a sub-domain. If an allocation fails, nothing has changed.
    #[tactic(auto, using(laws_router::proofs::ChangeLaws::leave_sound, crate::proofs::ReconfigurationLaws::left_is_one, crate::proofs::ReconfigurationLaws::leave_is))]
    pub(crate) fn leave(&mut self, sd: u8) -> M<()>
        requires { is_some (sub_in self.old.conf.subs sd) ≡ true }
        ensures ok { OnOk result (self.new ≡ (leave self.old sd).control) }
        ensures err { OnErr result (self.new ≡ self.old) }
    {
        let next = left(&self.conf, sd)?;
        self.reconfigure(next)
    }

    /// Joins a sub-domain that it left. If an allocation fails, nothing has changed.
    #[tactic(auto, using(laws_router::proofs::ChangeLaws::join_sound, crate::proofs::ReconfigurationLaws::rejoined_is_one, crate::proofs::ReconfigurationLaws::join_is))]
    pub(crate) fn join(&mut self, sd: u8) -> M<()>
        requires { is_some (sub_in self.old.conf.away sd) ≡ true }
        ensures ok { OnOk result (self.new ≡ (join self.old sd).control) }
        ensures err { OnErr result (self.new ≡ self.old) }
    {
        let next = rejoined(&self.conf, sd)?;
        self.reconfigure(next)
    }
}
