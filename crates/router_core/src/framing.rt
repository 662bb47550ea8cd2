//! IS-IS frames (IEEE 802.3, 3.1.1; ISO/IEC 10589, 8.4).
ghost use Rattle.std.specs.Prelude.{◌≡◌, ◌<◌, ◌≤◌, ◌+◌, ◌*◌, ◌/◌, ◌++◌, ◌∷◌, [], ℕ, List, length, slice_get, IfOk, OnOk};
ghost use Rattle.byteorder.specs.Endian.{big_bytes};
ghost use Rattle.wire_base.specs.model.Flooding.{csnp_of, psnp_of, lsp_of};
ghost use Rattle.wire_base.specs.model.Item as item;
ghost use Rattle.wire_base.specs.model.OnFrame.{frames_of};
ghost use Rattle.wire_base.specs.model.Pdu.{common, lsp, psnp, psnp_type};
ghost use Rattle.isis_pdu.specs.Views.{head_of};
ghost use Rattle.wire_base.specs.model.Tlv.{lsp_id, row, tlv};
ghost use Rattle.router_core.specs.Bounds.{FitRecords};
ghost use Rattle.router_core.specs.Sending.{conf_alone, listing, octets_on, psnp_listing, rows_tlv};

use bier_forward::SentFrames;
use isis_pdu::{
    CSNP_FRONT, LSP_FRONT, LspHead, PSNP_FRONT, append_csnp, append_psnp, listed_octets, lsp_front,
    write_rows,
};
use link_frame::write_eth;
use std::alloc::Global;
use std::marker::Model;
use wire_base::codepoints::TLV_LSP_ENTRIES;
use wire_base::limits::{MOST_CONTENT, MOST_LISTED};
use wire_base::{Entry, Level, LspId, M, Mac, Octets, RouterConf, Summary, SystemId};

/// The multicast address of all intermediate systems on a link (ISO/IEC 10589, 8.4.8).
const ALL_ROUTERS: Mac = Mac([0x09, 0x00, 0x2b, 0x00, 0x00, 0x05]);

/// The number of octets before the PDU: the Ethernet header and the LLC header, FE FE 03.
const HEAD: usize = 17;

/// The number of octets with which a CSNP or PSNP lists an entry.
pub(crate) const ROW: usize = 16;

/// The maximum number of entries in one TLV.
const MOST_ROWS: usize = 15;

/// Frames to be sent. The parts of most frames are copied behind the frames before, so that no buffer is needed.
#[derive(Drop)]
pub(crate) struct FramesOut {
    sent: SentFrames,
}

impl Model for FramesOut {
    ghost use Rattle.std.specs.Prelude.{List};
    ghost use Rattle.wire_base.specs.declared.effects.Sent.{Sent};
    ghost use Rattle.router_core.specs.Bounds.{FitRecords};

    ghost Value = { List Sent };

    ghost view = { λ f. f.sent };

    ghost invariant = { λ f. FitRecords f.sent };
}

impl FramesOut {
    /// Returns an empty list of frames. Does not allocate.
    pub(crate) fn new(alloc: Global) -> Self
        ensures { result ≡ [] }
    {
        FramesOut {
            sent: SentFrames::new(alloc),
        }
    }

    /// Returns an empty list of frames, in the memory of a list that is no longer needed.
    pub(crate) fn in_memory(list: SentFrames) -> Self
        ensures { result ≡ [] }
    {
        let mut sent = list;
        sent.clear();
        FramesOut { sent }
    }

    /// Returns the allocator of the frames.
    pub(crate) fn allocator(&self) -> Global {
        self.sent.allocator()
    }

    /// Returns the frames.
    pub(crate) fn into_sent(self) -> SentFrames
        ensures sent { result ≡ self }
        ensures sizes { FitRecords result }
    {
        self.sent
    }
}

/// Returns the octets of a frame before a PDU of that length: the Ethernet header and the LLC header, FE FE 03.
fn head_of(own: Mac, size: usize) -> [u8; HEAD]
    requires { size ≤ 1497 }
    ensures { (pdu : List ℕ) → length pdu ≡ size → result ++ pdu ≡ item.isis_frame own pdu }
{
    let mut head = [0, 0, 0, 0, 0, 0, 0, 0, 0, 0, 0, 0, 0, 0, 0xfe, 0xfe, 3];
    write_eth(&mut head, ALL_ROUTERS, own, 3 + size as u16);
    head
}

/// The same for a frame on the interface at an index.
fn head_on(conf: &RouterConf, link: u16, size: usize) -> [u8; HEAD]
    requires link { link < length conf.now.ends }
    requires short { size ≤ 1497 }
    ensures { (pdu : List ℕ) → length pdu ≡ size → result ++ pdu ≡ octets_on (slice_get conf.now.ends link) pdu }
{
    head_of(conf.ends.as_slice()[usize::from(link)].own_mac, size)
}

/// Returns the beginning of a frame on the interface at an index, with room for a PDU of that length.
fn begun_on(alloc: Global, conf: &RouterConf, link: u16, size: usize) -> M<Octets>
    requires link { link < length conf.now.ends }
    requires short { size ≤ 1497 }
    ensures front { IfOk result (λ frame. (pdu : List ℕ) → length pdu ≡ size → frame ++ pdu ≡ octets_on (slice_get conf.now.ends link) pdu) }
    ensures long { IfOk result (λ frame. length frame ≡ HEAD) }
{
    let mut frame = Octets::with_room(alloc, HEAD + size)?;
    frame.append(&head_on(conf, link, size))?;
    Ok(frame)
}

/// Returns the octets before the TLVs in the frame of an LSP of that length.
fn lsp_begun(conf: &RouterConf, link: u16, head: &LspHead, size: usize) -> [u8; HEAD + LSP_FRONT]
    requires link { link < length conf.now.ends }
    requires short { size ≤ 1497 }
    ensures { (tlvs : List ℕ) → LSP_FRONT + length tlvs ≡ size → result ++ tlvs ≡ octets_on (slice_get conf.now.ends link) (lsp conf.now.level (head_of head.now) tlvs) }
{
    let mut begun = [0; HEAD + LSP_FRONT];
    let (before, front) = begun.split_at_mut(HEAD);
    before.copy_from_slice(&head_on(conf, link, size));
    front.copy_from_slice(&lsp_front(conf.level, head, size as u16));
    begun
}

/// Appends the frame of an entry's LSP, whose parts are copied to the other frames at once: most frames are of this kind.
pub(crate) fn push_lsp(out: &mut FramesOut, conf: &RouterConf, link: u16, e: &Entry) -> M<()>
    requires link { link < length conf.now.ends }
    requires short { length e.now.content ≤ MOST_CONTENT }
    ensures { OnOk result (out.new ≡ out.old ++ frames_of conf.now link (lsp_of e.now ∷ [])) }
{
    let head = LspHead {
        life: e.life,
        id: e.id,
        seq: e.seq,
        sum: e.sum,
        flags: e.flags,
    };
    let tlvs = e.content.as_slice();
    let front = lsp_begun(conf, link, &head, LSP_FRONT + tlvs.len());
    out.sent.push_parts(link, &front, tlvs)
}

/// Appends the frame of a CSNP.
pub(crate) fn push_csnp(
    out: &mut FramesOut,
    conf: &RouterConf,
    link: u16,
    start: LspId,
    last: LspId,
    rows: &[Summary],
) -> M<()>
    requires link { link < length conf.now.ends }
    requires few { length rows.now ≤ MOST_LISTED }
    ensures { OnOk result (out.new ≡ out.old ++ frames_of conf.now link (csnp_of (conf_alone conf.now) start last rows.now ∷ [])) }
{
    let tlvs = write_rows(out.allocator(), rows)?;
    let mut frame = begun_on(out.allocator(), conf, link, CSNP_FRONT + tlvs.len())?;
    append_csnp(
        &mut frame,
        conf.level,
        conf.system,
        start,
        last,
        tlvs.as_slice(),
    )?;
    out.sent.push(link, frame.as_slice())
}

/// Returns the octets of an LSP ID.
fn id_octets(id: LspId) -> [u8; 8]
    ensures spelled { result ≡ lsp_id id }
    ensures long { length result ≡ 8 }
{
    let [a, b, c, d, e, f] = id.system.0;
    [a, b, c, d, e, f, id.pseudonode, id.fragment]
}

/// Returns the octets with which a CSNP or PSNP lists an entry (ISO/IEC 10589, 9.10).
pub(crate) fn row_octets(s: &Summary) -> [u8; ROW]
    ensures { result ≡ row s.now }
{
    let [life_high, life_low] = s.life.to_be_bytes();
    let [a, b, c, d, e, f, g, h] = id_octets(s.id);
    let [seq_1, seq_2, seq_3, seq_4] = s.seq.to_be_bytes();
    let [sum_high, sum_low] = s.sum.to_be_bytes();
    [
        life_high, life_low, a, b, c, d, e, f, g, h, seq_1, seq_2, seq_3, seq_4, sum_high, sum_low,
    ]
}

/// Returns the type of a PSNP (ISO/IEC 10589, 9.12 and 9.13).
fn psnp_number(level: Level) -> u8
    ensures { result ≡ psnp_type level }
{
    match level {
        Level::One => 26,
        Level::Two => 27,
    }
}

/// Returns the octets of a PSNP from its source on, before the entries that it lists in its only TLV, which have that many octets.
fn source_octets(source: SystemId, listed: u8) -> [u8; 9]
    ensures spelled { result ≡ source.0 ++ (0 ∷ 9 ∷ listed ∷ []) }
    ensures long { length result ≡ 9 }
{
    let [a, b, c, d, e, f] = source.0;
    [a, b, c, d, e, f, 0, TLV_LSP_ENTRIES, listed]
}

/// Returns all octets of a PSNP of that length before these entries.
fn front_octets(level: Level, source: SystemId, size: u16, listed: u8) -> [u8; PSNP_FRONT + 2]
    ensures spelled { result ≡ common 17 (psnp_type level) ++ (big_bytes 2 size ++ (source.0 ++ (0 ∷ 9 ∷ listed ∷ []))) }
    ensures long { length result ≡ PSNP_FRONT + 2 }
{
    let number = psnp_number(level);
    let [high, low] = size.to_be_bytes();
    let [a, b, c, d, e, f, g, h, i] = source_octets(source, listed);
    [
        0x83,
        PSNP_FRONT as u8,
        1,
        0,
        number,
        1,
        0,
        0,
        high,
        low,
        a,
        b,
        c,
        d,
        e,
        f,
        g,
        h,
        i,
    ]
}

/// Returns these octets. With the entries they are the PSNP.
fn psnp_front(level: Level, source: SystemId, listed: u8) -> [u8; PSNP_FRONT + 2]
    ensures whole { (rows : List ℕ) → length rows ≡ listed → result ++ rows ≡ psnp level source (tlv (rows_tlv rows)) }
    ensures long { length result ≡ PSNP_FRONT + 2 }
{
    let size = PSNP_FRONT as u16 + 2 + u16::from(listed);
    front_octets(level, source, size, listed)
}

/// Returns the octets before the entries in the frame of a PSNP that lists them in one TLV of that length.
fn psnp_begun(conf: &RouterConf, link: u16, listed: u8) -> [u8; HEAD + PSNP_FRONT + 2]
    requires { link < length conf.now.ends }
    ensures { (rows : List ℕ) → length rows ≡ listed → result ++ rows ≡ octets_on (slice_get conf.now.ends link) (psnp conf.now.level conf.now.system (tlv (rows_tlv rows))) }
{
    let mut begun = [0; HEAD + PSNP_FRONT + 2];
    let size = PSNP_FRONT + 2 + usize::from(listed);
    let (before, front) = begun.split_at_mut(HEAD);
    before.copy_from_slice(&head_on(conf, link, size));
    front.copy_from_slice(&psnp_front(conf.level, conf.system, listed));
    begun
}

/// Appends the frame of a PSNP that lists its entries in one TLV. Its parts are copied to the other frames at once.
fn push_short(out: &mut FramesOut, conf: &RouterConf, link: u16, rows: &[[u8; ROW]]) -> M<()>
    requires link { link < length conf.now.ends }
    requires some { 1 ≤ length rows.now }
    requires few { length rows.now ≤ MOST_ROWS }
    ensures { OnOk result (out.new ≡ out.old ++ frames_of conf.now link (psnp_listing conf.now.system rows.now ∷ [])) }
{
    let listed = rows.as_flattened();
    let front = psnp_begun(conf, link, listed.len() as u8);
    out.sent.push_parts(link, &front, listed)
}

/// Appends the TLVs that list entries, at most 15 each, full ones first (ISO/IEC 10589, 9.10).
fn append_rows(tlvs: &mut Octets, rows: &[[u8; ROW]]) -> M<()>
    ensures ok { OnOk result (tlvs.new ≡ tlvs.old ++ listing rows.now) }
    ensures long { OnOk result (length tlvs.new ≡ length tlvs.old + (16 * length rows.now + 2 * ((length rows.now + 14) / 15))) }
{
    let mut rest = rows;
    'cuts: while !rest.is_empty() {
        let (block, after) = rest.split_at(rest.len().min(MOST_ROWS));
        let listed = block.as_flattened();
        tlvs.append(&[TLV_LSP_ENTRIES, listed.len() as u8])?;
        tlvs.append(listed)?;
        rest = after;
    }
    Ok(())
}

/// Returns those TLVs for at most 90 entries.
fn rows_octets(alloc: Global, rows: &[[u8; ROW]]) -> M<Octets>
    requires { length rows.now ≤ MOST_LISTED }
    ensures ok { IfOk result (λ o. o ≡ listing rows.now) }
    ensures long { IfOk result (λ o. length o ≡ 16 * length rows.now + 2 * ((length rows.now + 14) / 15)) }
{
    let mut tlvs = Octets::with_room(alloc, listed_octets(rows.len()))?;
    append_rows(&mut tlvs, rows)?;
    Ok(tlvs)
}

/// Appends the frame of a PSNP with any number of TLVs.
fn push_long(out: &mut FramesOut, conf: &RouterConf, link: u16, rows: &[[u8; ROW]]) -> M<()>
    requires link { link < length conf.now.ends }
    requires few { length rows.now ≤ MOST_LISTED }
    ensures { OnOk result (out.new ≡ out.old ++ frames_of conf.now link (psnp_listing conf.now.system rows.now ∷ [])) }
{
    let tlvs = rows_octets(out.allocator(), rows)?;
    let mut frame = begun_on(out.allocator(), conf, link, PSNP_FRONT + tlvs.len())?;
    append_psnp(&mut frame, conf.level, conf.system, tlvs.as_slice())?;
    out.sent.push(link, frame.as_slice())
}

/// Appends the frame of a PSNP that lists those entries, each of which is given by its octets.
pub(crate) fn push_psnp(
    out: &mut FramesOut,
    conf: &RouterConf,
    link: u16,
    rows: &[[u8; ROW]],
) -> M<()>
    requires link { link < length conf.now.ends }
    requires few { length rows.now ≤ MOST_LISTED }
    ensures { OnOk result (out.new ≡ out.old ++ frames_of conf.now link (psnp_listing conf.now.system rows.now ∷ [])) }
{
    if !rows.is_empty() && rows.len() <= MOST_ROWS {
        return push_short(out, conf, link, rows);
    }
    push_long(out, conf, link, rows)
}

/// Appends the frame of a PSNP that acknowledges an entry.
pub(crate) fn push_ack(out: &mut FramesOut, conf: &RouterConf, link: u16, s: &Summary) -> M<()>
    requires link { link < length conf.now.ends }
    ensures { OnOk result (out.new ≡ out.old ++ frames_of conf.now link (psnp_of (conf_alone conf.now) (s.now ∷ []) ∷ [])) }
{
    push_psnp(out, conf, link, &[row_octets(s)])
}
