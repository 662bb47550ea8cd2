//! IS-IS PDUs that are received (ISO/IEC 10589, 7.3.15 and 7.3.16).
ghost use Rattle.std.specs.Prelude.{◌≡◌, ◌<◌, ◌≤◌, ◌+◌, ◌^◌, ◌∷◌, [], ℕ, true, false, length, IfOk, OnOk, OnErr};
ghost use Rattle.wire_base.specs.declared.addresses.SystemId.{SystemId};
ghost use Rattle.wire_base.specs.declared.flood_out.FloodOut.TheVariants as out;
ghost use Rattle.wire_base.specs.model.Flooding.{on_pdu, psnp_of, answer_lsp, snp_done};
ghost use Rattle.wire_base.specs.model.OnFrame.{nothing, dropped, passed_over, framed, frames_of, pdu_taken, pdu_read};
ghost use Rattle.wire_base.specs.model.Fields.{Gives};
ghost use Rattle.wire_base.specs.model.Tlv.{rows_of};
ghost use Rattle.wire_base.specs.model.Pdu.{LspPdu, CsnpPdu, PsnpPdu, pdu_at, IsPdu};
ghost use Rattle.isis_pdu.specs.Views.{head_of, pdu_of};
ghost use Rattle.router_core.specs.Keeping.{MayKeep};
ghost use Rattle.router_core.specs.Received.{HasRoom, is_kept, list_room, list_taken};
ghost use Rattle.isis_flood.specs.Answers.{requested, SnpDone};
ghost use Rattle.laws_router.specs.State.{is_up};

use crate::control::Control;
use crate::framing::{FramesOut, push_ack};
use crate::kept::Kept;
use crate::snp_needs::issue_ready;
use bier_forward::{DropNote, Effects};
use isis_flood::{Flood, LspAction, append_listed, listed};
use isis_pdu::{LspHead, Pdu, read_pdu, read_pdu_with};
use lsp_store::Store;
use std::mem::replace;
use wire_base::limits::MOST_CONTENT;
use wire_base::{Cause, LspId, M, PduFault, Rows, SnpOut, Summary};

/// Reports that a whole frame was dropped, with no other effect.
pub(crate) fn drop_frame(effects: &mut Effects, cause: Cause) -> M<()>
    requires { effects.old ≡ nothing }
    ensures ok { OnOk result (effects.new ≡ dropped cause) }
    ensures none { OnErr result (effects.new ≡ nothing) }
{
    effects.note(DropNote { cause, sets: None })
}

/// Reports that a frame was ignored.
pub(crate) fn pass_over(effects: &mut Effects)
    requires { effects.old ≡ nothing }
    ensures { effects.new ≡ passed_over }
{
    effects.passed = true;
}

/// Reports the drops of those entries as the only effects of a list.
fn drop_each(effects: &mut Effects, drops: Rows<DropNote>)
    requires { effects.old ≡ nothing }
    ensures { effects.new ≡ record nothing { drops = drops } }
{
    effects.drops = drops;
}

/// Returns the greatest number of flag rows that a list of entries may need.
fn list_room(range: Option<(LspId, LspId)>, rows: usize, entries: usize) -> usize
    requires { rows + entries < 2 ^ 64 }
    ensures { result ≡ list_room range rows entries }
{
    match range {
        None => rows,
        Some(_) => rows + entries,
    }
}

/// Applies the entries of a CSNP, which has a range, or of a PSNP.
fn apply_list(
    flood: &mut Flood,
    store: &mut Store,
    link: u16,
    range: Option<(LspId, LspId)>,
    rows: &[Summary],
    spent: bool,
) -> M<SnpOut>
    requires link { link < length flood.old.flood.up }
    requires few { length rows.now ≤ 65535 }
    ensures done { SnpDone result flood.old.flood store.old.entries flood.new.flood store.new.entries (list_taken flood.old.flood store.old.entries link range rows.now spent) }
    ensures spare { flood.old.spare ≤ flood.new.spare + list_room range (length rows.now) (length store.old.entries) }
{
    match range {
        None => flood.on_psnp_listed(store, link, rows, spent),
        Some((start, last)) => flood.on_csnp_listed(store, link, &start, &last, rows, spent),
    }
}

impl Control {
    /// Sends the PSNP that acknowledges an entry at once.
    fn acknowledge(&self, link: u16, entry: Summary, effects: &mut Effects) -> M<()>
        requires link { link < length self.now.conf.ends }
        requires empty { effects.old ≡ nothing }
        ensures ok { OnOk result (effects.new ≡ record nothing { sent = frames_of self.now.conf link (psnp_of self.now (entry ∷ []) ∷ []) }) }
        ensures none { OnErr result (effects.new ≡ nothing) }
    {
        let mut out = FramesOut::new(self.allocator());
        push_ack(&mut out, &self.conf, link, &entry)?;
        effects.sent = out.into_sent();
        Ok(())
    }

    /// Does what an LSP requires besides the changes of flooding. If an allocation fails, nothing has changed, and
    /// flooding has changed nothing.
    #[tactic(auto, unfolding(wire_base::specs::model::OnFrame::framed))]
    fn answer_lsp(
        &mut self,
        link: u16,
        head: &LspHead,
        action: LspAction,
        effects: &mut Effects,
    ) -> M<()>
        requires link { link < length self.old.conf.ends }
        requires unspent { (s : ℕ) → requested (head_of head.now) action ≡ out.Reissue s → self.old.spent ≡ false }
        requires empty { effects.old ≡ nothing }
        ensures next { OnOk result (record { control = self.new; effects = effects.new } ≡ framed link (answer_lsp self.old (requested (head_of head.now) action))) }
        ensures err { OnErr result ((is_kept (requested (head_of head.now) action) ≡ false) × (self.new ≡ self.old)) }
        ensures none { OnErr result (effects.new ≡ nothing) }
    {
        match action {
            LspAction::Kept => Ok(()),
            LspAction::Reissue => self.reissue(head.seq),
            LspAction::Ack => self.acknowledge(link, head.summary(), effects),
            LspAction::Full => drop_frame(effects, Cause::Full),
            LspAction::Zero => drop_frame(effects, Cause::Sequence),
        }
    }

    /// Handles an LSP. If an allocation fails, nothing has changed. Once flooding has changed something, no further
    /// step allocates.
    #[tactic(auto, unfolding(wire_base::specs::model::Flooding::on_pdu))]
    fn on_lsp(&mut self, link: u16, head: &LspHead, tlvs: &[u8], effects: &mut Effects) -> M<()>
        requires up { is_up self.old link ≡ true }
        requires short { length tlvs.now ≤ MOST_CONTENT }
        requires empty { effects.old ≡ nothing }
        ensures next { OnOk result (record { control = self.new; effects = effects.new } ≡ framed link (on_pdu self.old link (LspPdu (head_of head.now) tlvs.now))) }
        ensures err { OnErr result (self.new ≡ self.old) }
        ensures none { OnErr result (effects.new ≡ nothing) }
    {
        let action = self
            .flood
            .on_lsp(&mut self.store, link, head, tlvs, self.spent)?;
        let _entries = self.store.len();
        self.answer_lsp(link, head, action, effects)
    }

    /// Handles the entries that a CSNP or PSNP lists. If an allocation fails, nothing has changed: all that they
    /// require is prepared before anything changes.
    fn take_list(
        &mut self,
        link: u16,
        range: Option<(LspId, LspId)>,
        rows: &[Summary],
        effects: &mut Effects,
    ) -> M<()>
        requires up { is_up self.old link ≡ true }
        requires few { length rows.now ≤ 1497 }
        requires empty { effects.old ≡ nothing }
        ensures next { OnOk result (record { control = self.new; effects = effects.new } ≡ framed link (snp_done self.old (list_taken self.old.flood self.old.entries link range rows.now self.old.spent))) }
        ensures err { OnErr result (self.new ≡ self.old) }
        ensures none { OnErr result (effects.new ≡ nothing) }
    {
        let ready = self.ready(rows)?;
        self.flood
            .reserve(list_room(range, rows.len(), self.store.len()) + 1)?;
        apply_list(
            &mut self.flood,
            &mut self.store,
            link,
            range,
            rows,
            self.spent,
        )?;
        issue_ready(&mut self.store, &mut self.flood, ready.own);
        self.spent = ready.spent;
        drop_each(effects, ready.drops);
        Ok(())
    }

    /// Handles a CSNP. If an allocation fails, nothing has changed.
    #[tactic(auto, unfolding(wire_base::specs::model::Flooding::on_pdu, wire_base::specs::model::Flooding::on_csnp))]
    fn on_csnp(
        &mut self,
        link: u16,
        start: LspId,
        last: LspId,
        tlvs: &[u8],
        effects: &mut Effects,
    ) -> M<()>
        requires up { is_up self.old link ≡ true }
        requires short { length tlvs.now ≤ 1497 }
        requires empty { effects.old ≡ nothing }
        ensures next { OnOk result ((source : SystemId) → record { control = self.new; effects = effects.new } ≡ framed link (on_pdu self.old link (CsnpPdu source start last tlvs.now))) }
        ensures err { OnErr result (self.new ≡ self.old) }
        ensures none { OnErr result (effects.new ≡ nothing) }
    {
        let rows = listed(self.allocator(), tlvs)?;
        self.take_list(link, Some((start, last)), rows.as_slice(), effects)
    }

    /// Takes the buffer of the last list, which is empty then.
    fn take_room(&mut self) -> Rows<Summary>
        ensures rows { result ≡ [] }
        ensures control { self.new ≡ self.old }
    {
        let alloc = self.allocator();
        let mut room = replace(&mut self.room, Vec::new(alloc));
        room.clear();
        Rows::from_vec(room)
    }

    /// Handles a PSNP. If an allocation fails, nothing has changed.
    #[tactic(auto, unfolding(wire_base::specs::model::Flooding::on_pdu, wire_base::specs::model::Flooding::on_psnp))]
    fn on_psnp(&mut self, link: u16, tlvs: &[u8], effects: &mut Effects) -> M<()>
        requires up { is_up self.old link ≡ true }
        requires short { length tlvs.now ≤ 1497 }
        requires empty { effects.old ≡ nothing }
        ensures next { OnOk result ((source : SystemId) → record { control = self.new; effects = effects.new } ≡ framed link (on_pdu self.old link (PsnpPdu source tlvs.now))) }
        ensures err { OnErr result (self.new ≡ self.old) }
        ensures none { OnErr result (effects.new ≡ nothing) }
    {
        let mut rows = self.take_room();
        append_listed(&mut rows, tlvs)?;
        let done = self.take_list(link, None, rows.as_slice(), effects);
        self.room = rows.into_vec();
        done
    }

    /// Handles a PDU that floods. Hellos and PDUs of other types are ignored. If an allocation fails, nothing has
    /// changed.
    fn flood_pdu(&mut self, link: u16, pdu: Pdu<'_>, effects: &mut Effects) -> M<()>
        requires up { is_up self.old link ≡ true }
        requires short { HasRoom (pdu_of pdu) }
        requires empty { effects.old ≡ nothing }
        ensures next { OnOk result (record { control = self.new; effects = effects.new } ≡ pdu_taken self.old link (pdu_of pdu.entry)) }
        ensures err { OnErr result (self.new ≡ self.old) }
        ensures none { OnErr result (effects.new ≡ nothing) }
    {
        match pdu {
            Pdu::Lsp { head, tlvs } => self.on_lsp(link, &head, tlvs, effects),
            Pdu::Csnp {
                source: _,
                start,
                last,
                tlvs,
            } => self.on_csnp(link, start, last, tlvs, effects),
            Pdu::Psnp { source: _, tlvs } => self.on_psnp(link, tlvs, effects),
            Pdu::Hello | Pdu::Other(_) => {
                pass_over(effects);
                Ok(())
            }
        }
    }

    /// Handles a PDU. It may change what systems advertise, which is noted first. If an allocation fails, everything
    /// else is unchanged.
    fn take_pdu(
        &mut self,
        kept: &mut Option<Kept>,
        link: u16,
        pdu: Pdu<'_>,
        effects: &mut Effects,
    ) -> M<()>
        requires up { is_up self.old link ≡ true }
        requires short { HasRoom (pdu_of pdu) }
        requires kept { MayKeep self.old kept.old }
        requires empty { effects.old ≡ nothing }
        ensures next { OnOk result (record { control = self.new; effects = effects.new } ≡ pdu_taken self.old link (pdu_of pdu.entry)) }
        ensures err { OnErr result (self.new ≡ self.old) }
        ensures none { OnErr result (effects.new ≡ nothing) }
        ensures kept { MayKeep self.new kept.new }
    {
        self.note_pdu(kept, pdu);
        self.flood_pdu(link, pdu, effects)
    }

    /// Parses the octets of a PDU.
    fn read<'a>(&self, octets: &'a [u8]) -> Result<Pdu<'a>, PduFault>
        ensures found { IfOk result (λ p. IsPdu self.now.conf.level octets.now (pdu_of p)) }
        ensures exact { Gives pdu_of result (pdu_at self.now.conf.level octets.now) }
    {
        match &self.known {
            None => read_pdu(self.conf.level, octets),
            Some(known) => read_pdu_with(self.conf.level, octets, known),
        }
    }

    /// Handles the octets of a PDU, as an IS-IS frame carries them. If an allocation fails, nothing has changed.
    pub(crate) fn on_pdu(
        &mut self,
        kept: &mut Option<Kept>,
        link: u16,
        octets: &[u8],
        effects: &mut Effects,
    ) -> M<()>
        requires up { is_up self.old link ≡ true }
        requires short { length octets.now ≤ 1497 }
        requires kept { MayKeep self.old kept.old }
        requires empty { effects.old ≡ nothing }
        ensures next { OnOk result (record { control = self.new; effects = effects.new } ≡ pdu_read self.old link (pdu_at self.old.conf.level octets.now)) }
        ensures err { OnErr result (self.new ≡ self.old) }
        ensures none { OnErr result (effects.new ≡ nothing) }
        ensures kept { MayKeep self.new kept.new }
    {
        let read = self.read(octets);
        match read {
            Err(fault) => drop_frame(effects, Cause::Pdu(fault)),
            Ok(pdu) => self.take_pdu(kept, link, pdu, effects),
        }
    }
}
