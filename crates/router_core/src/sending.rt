//! Sending on a link: the CSNPs that are due, LSPs, and PSNPs (ISO/IEC 10589, 7.3.15.4 and 7.3.17).
ghost use Rattle.std.specs.Prelude.{◌≡◌, ◌<◌, ◌≤◌, ◌++◌, [], Bool, true, false, length, map, filter, slice_index_or, option_map, IfOk, IfSome, OnOk, OnErr};
ghost use Rattle.std.specs.List.{AllByRecursion, flat_map};
ghost use Rattle.wire_base.specs.model.Control.{AreAscending, HasEntry, entry_in, ssn_in, summary_of};
ghost use Rattle.wire_base.specs.model.Flooding.{csnps, id_after, zero_id, last_id, is_known, due_csnps, send_of, send};
ghost use Rattle.wire_base.specs.model.Lists.{blocks};
ghost use Rattle.wire_base.specs.model.OnFrame.{frames_of, framed, nothing};
ghost use Rattle.router_core.specs.Bounds.{FitRecords};
ghost use Rattle.wire_base.specs.model.Tlv.{row};
ghost use Rattle.router_core.specs.Sending.{conf_alone, entry_frames, entry_row, found, lsp_frames, psnp_listing, row_ids};
ghost use Rattle.laws_router.specs.State.{IsShort, is_up, control_of};

use crate::control::Control;
use crate::framing::{FramesOut, ROW, push_csnp, push_lsp, push_psnp, row_octets};
use crate::pending::is_known;
use crate::send_memory::SendMemory;
use bier_forward::{Effects, SentFrames};
use byteorder::{BigEndian, ByteOrder};
use isis_flood::Flood;
use lsp_store::Store;
use std::alloc::Global;
use wire_base::limits::{MOST_CONTENT, MOST_LISTED};
use wire_base::{Entry, LspId, M, RouterConf, Rows, Summary, SystemId};

/// The least LSP ID.
const ZERO_ID: LspId = LspId {
    system: SystemId([0; 6]),
    pseudonode: 0,
    fragment: 0,
};

/// The greatest LSP ID.
const LAST_ID: LspId = LspId {
    system: SystemId([255; 6]),
    pseudonode: 255,
    fragment: 255,
};

/// Returns what a sequence numbers PDU lists of an entry.
fn summary_of(e: &Entry) -> Summary
    ensures { result ≡ summary_of e.now }
{
    Summary {
        life: e.life,
        id: e.id,
        seq: e.seq,
        sum: e.sum,
    }
}

/// Returns the entries that a CSNP lists.
fn known_rows(alloc: Global, store: &Store) -> M<Vec<Summary>>
    ensures { IfOk result (λ rows. rows.items ≡ map summary_of (filter is_known store.now.entries)) }
{
    let mut rows = Vec::new(alloc);
    'entries: for place in 0..store.len() {
        let e = store.at(place);
        if is_known(e) {
            rows.push(summary_of(e))?;
        }
    }
    Ok(rows)
}

/// Appends what a sequence numbers PDU lists of the entry with an LSP ID, which is usually at the given index.
fn push_row(rows: &mut Vec<[u8; ROW]>, store: &Store, id: LspId, place: usize) -> M<()>
    ensures { OnOk result (rows.new.items ≡ rows.old.items ++ found entry_row (entry_in store.now.entries id)) }
{
    push_known(rows, store.get_near(&id, place))
}

fn push_known(rows: &mut Vec<[u8; ROW]>, entry: Option<&Entry>) -> M<()>
    ensures { OnOk result (rows.new.items ≡ rows.old.items ++ found entry_row (option_map (λ e. e.now) entry.entry)) }
{
    match entry {
        None => Ok(()),
        Some(e) => {
            rows.push(row_octets(&summary_of(e)))?;
            Ok(())
        }
    }
}

/// Returns the entries to be acknowledged or requested on a link, as a PSNP lists them. The memory of the list of the send before,
/// which is empty now, is reused. If there are none, usually no row of flags is read.
fn asked_rows(store: &Store, flood: &Flood, link: u16, memory: Vec<[u8; ROW]>) -> M<Vec<[u8; ROW]>>
    requires empty { memory.items ≡ [] }
    requires link { link < length flood.now.flood.up }
    requires order { AreAscending (row_ids flood.now.flood.rows) }
    requires flagged { AllByRecursion (HasEntry store.now.entries) flood.now.flood.rows }
    ensures { IfOk result (λ rows. rows.items ≡ map row (map summary_of (filter (λ e. ssn_in flood.now.flood.rows e.id link) store.now.entries))) }
{
    let _order = store.len();
    let mut rows = memory;
    if !flood.may_ask(link) {
        return Ok(rows);
    }
    let count = flood.rows();
    let mut place = flood.next_asked(0, link);
    'rows: while place < count {
        push_row(&mut rows, store, flood.id_at(place), place)?;
        place = flood.next_asked(place + 1, link);
    }
    Ok(rows)
}

/// Returns the LSP ID that follows; after the greatest one comes the least.
#[tactic(auto, unfolding(wire_base::specs::model::Flooding::id_after))]
fn id_after(id: LspId) -> LspId
    ensures { result ≡ id_after id }
{
    let [a, b, c, d, e, f] = id.system.0;
    let number = BigEndian::read_u64(&[a, b, c, d, e, f, id.pseudonode, id.fragment]);
    let [a, b, c, d, e, f, pseudonode, fragment] = number.wrapping_add(1).to_be_bytes();
    LspId {
        system: SystemId([a, b, c, d, e, f]),
        pseudonode,
        fragment,
    }
}

/// Appends the CSNPs that list those entries, in blocks of 90. Together they cover all LSP IDs. The first starts at the
/// least, each further one starts right after the end of the one before, and the last ends at the greatest.
fn push_csnps(out: &mut FramesOut, conf: &RouterConf, link: u16, rows: &[Summary]) -> M<()>
    requires { link < length conf.now.ends }
    ensures { OnOk result (out.new ≡ out.old ++ frames_of conf.now link (csnps (conf_alone conf.now) zero_id (blocks MOST_LISTED rows.now))) }
{
    let mut start = ZERO_ID;
    let mut rest = rows;
    'cuts: while rest.len() > MOST_LISTED {
        let (block, after) = rest.split_at(MOST_LISTED);
        let last = block[MOST_LISTED - 1].id;
        push_csnp(out, conf, link, start, last, block)?;
        start = id_after(last);
        rest = after;
    }
    push_csnp(out, conf, link, start, LAST_ID, rest)?;
    Ok(())
}

/// Appends the frame of an entry, if there is one.
fn push_entry(out: &mut FramesOut, conf: &RouterConf, link: u16, entry: Option<&Entry>) -> M<()>
    requires end { link < length conf.now.ends }
    requires short { IfSome entry (λ e. length e.now.content ≤ MOST_CONTENT) }
    ensures { OnOk result (out.new ≡ out.old ++ found (entry_frames conf.now link) (option_map (λ e. e.now) entry.entry)) }
{
    match entry {
        None => Ok(()),
        Some(e) => push_lsp(out, conf, link, e),
    }
}

/// Appends the frame of the entry with an LSP ID, which is usually at the given index.
fn push_found(
    out: &mut FramesOut,
    conf: &RouterConf,
    link: u16,
    store: &Store,
    id: LspId,
    place: usize,
) -> M<()>
    requires end { link < length conf.now.ends }
    requires short { AllByRecursion IsShort store.now.entries }
    ensures { OnOk result (out.new ≡ out.old ++ found (entry_frames conf.now link) (entry_in store.now.entries id)) }
{
    push_entry(out, conf, link, store.get_near(&id, place))
}

/// Appends the frames of the entries that are to be sent on a link. If there are none, usually no row of flags is read.
/// No entry is read but those that are sent.
fn push_lsps(
    out: &mut FramesOut,
    conf: &RouterConf,
    link: u16,
    flood: &Flood,
    store: &Store,
) -> M<()>
    requires end { link < length conf.now.ends }
    requires link { link < length flood.now.flood.up }
    requires short { AllByRecursion IsShort store.now.entries }
    requires order { AreAscending (row_ids flood.now.flood.rows) }
    requires flagged { AllByRecursion (HasEntry store.now.entries) flood.now.flood.rows }
    ensures { OnOk result (out.new ≡ out.old ++ flat_map (lsp_frames conf.now flood.now.flood.rows link) store.now.entries) }
{
    let _order = store.len();
    if !flood.may_send(link) {
        return Ok(());
    }
    let count = flood.rows();
    let mut place = flood.next_sent(0, link);
    'rows: while place < count {
        push_found(out, conf, link, store, flood.id_at(place), place)?;
        place = flood.next_sent(place + 1, link);
    }
    Ok(())
}

/// Appends the PSNPs that list those entries, each of which is given by its octets, in blocks of 90.
fn push_psnps(out: &mut FramesOut, conf: &RouterConf, link: u16, rows: &[[u8; ROW]]) -> M<()>
    requires { link < length conf.now.ends }
    ensures { OnOk result (out.new ≡ out.old ++ frames_of conf.now link (map (psnp_listing conf.now.system) (blocks MOST_LISTED rows.now))) }
{
    let mut rest = rows;
    'cuts: while !rest.is_empty() {
        let (block, after) = rest.split_at(rest.len().min(MOST_LISTED));
        push_psnp(out, conf, link, block)?;
        rest = after;
    }
    Ok(())
}

/// Appends the CSNPs, if they are due.
fn push_due(
    out: &mut FramesOut,
    conf: &RouterConf,
    link: u16,
    flood: &Flood,
    store: &Store,
) -> M<()>
    requires end { link < length conf.now.ends }
    requires link { link < length flood.now.flood.up }
    ensures { OnOk result (out.new ≡ out.old ++ frames_of conf.now link (due_csnps (control_of conf.now flood.now.flood store.now.entries false) (slice_index_or flood.now.flood.due link false))) }
{
    if flood.due(link) {
        let rows = known_rows(out.allocator(), store)?;
        return push_csnps(out, conf, link, rows.as_slice());
    }
    Ok(())
}

/// Returns the frames to be sent on a link that is up, in the memory of `list`.
fn due_frames(
    conf: &RouterConf,
    store: &Store,
    flood: &Flood,
    link: u16,
    memory: &mut SendMemory,
    list: SentFrames,
) -> M<SentFrames>
    requires end { link < length conf.now.ends }
    requires link { link < length flood.now.flood.up }
    requires short { AllByRecursion IsShort store.now.entries }
    requires order { AreAscending (row_ids flood.now.flood.rows) }
    requires flagged { AllByRecursion (HasEntry store.now.entries) flood.now.flood.rows }
    ensures due { (spent : Bool) → IfOk result (λ sent. sent ≡ frames_of conf.now link (send_of (control_of conf.now flood.now.flood store.now.entries spent) link)) }
    ensures sizes { IfOk result (λ sent. FitRecords sent) }
{
    let mut out = FramesOut::in_memory(list);
    push_due(&mut out, conf, link, flood, store)?;
    push_lsps(&mut out, conf, link, flood, store)?;
    let rows = asked_rows(store, flood, link, memory.take_rows())?;
    push_psnps(&mut out, conf, link, rows.as_slice())?;
    memory.keep(rows);
    Ok(out.into_sent())
}

impl Control {
    /// Returns what is due on a link that is up.
    pub(crate) fn due(&self, link: u16) -> M<Effects>
        requires { is_up self.now link ≡ true }
        ensures due { IfOk result (λ e. e ≡ (framed link (send self.now link)).effects) }
        ensures sizes { IfOk result (λ e. FitRecords e.sent) }
    {
        let alloc = self.allocator();
        let mut memory = SendMemory::new(alloc);
        Ok(Effects {
            sent: self.due_in(link, &mut memory, SentFrames::new(alloc))?,
            got: Rows::new(alloc),
            drops: Rows::new(alloc),
            passed: false,
        })
    }

    /// Returns the frames that are due on a link that is up, in the memory of `list` and of earlier sends. Nothing is delivered or
    /// dropped.
    pub(crate) fn due_in(
        &self,
        link: u16,
        memory: &mut SendMemory,
        list: SentFrames,
    ) -> M<SentFrames>
        requires { is_up self.now link ≡ true }
        ensures due { IfOk result (λ sent. record nothing { sent = sent } ≡ (framed link (send self.now link)).effects) }
        ensures sizes { IfOk result (λ sent. FitRecords sent) }
    {
        due_frames(&self.conf, &self.store, &self.flood, link, memory, list)
    }

    /// Records that what is due on a link that is up was sent.
    #[tactic(auto, unfolding(wire_base::specs::model::Flooding::send))]
    pub(crate) fn sent(&mut self, link: u16)
        requires { is_up self.old link ≡ true }
        ensures { self.new ≡ (send self.old link).control }
    {
        self.flood.sent(link);
    }

    /// Sends what is due on a link that is up. If an allocation fails, nothing has changed.
    #[tactic(auto, unfolding(wire_base::specs::model::OnFrame::framed))]
    pub(crate) fn send(&mut self, link: u16) -> M<Effects>
        requires { is_up self.old link ≡ true }
        ensures next { IfOk result (λ e. record { control = self.new; effects = e } ≡ framed link (send self.old link)) }
        ensures sizes { IfOk result (λ e. FitRecords e.sent) }
        ensures err { OnErr result (self.new ≡ self.old) }
    {
        let effects = self.due(link)?;
        self.sent(link);
        Ok(effects)
    }
}
