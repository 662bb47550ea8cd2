ghost use Rattle.std.specs.Prelude.{◌≡◌, IfOk};
ghost use Rattle.wire_base.specs.model.Control.{purge};
ghost use Rattle.wire_base.specs.model.Flooding.{kept};

use std::alloc::Global;
use wire_base::limits::PURGE_HOLD;
use wire_base::{Content, Entry, LspId, M, Summary};

/// Returns the purge of an LSP: an expired entry that keeps its sequence number for a minute, without checksum, flags
/// and content (ISO/IEC 10589, 7.3.16.4).
pub fn purge(id: LspId, seq: u32) -> Entry
    ensures { result ≡ purge id seq }
{
    Entry {
        id,
        seq,
        life: 0,
        hold: PURGE_HOLD,
        sum: 0,
        flags: 0,
        content: Content::new(),
    }
}

/// Returns the LSDB entry of a received LSP, from its summary, flags octet and TLVs: a purge for an expired one
/// (ISO/IEC 10589, 7.3.16).
pub fn received(alloc: Global, s: &Summary, flags: u8, tlvs: &[u8]) -> M<Entry>
    ensures entry { IfOk result (λ e. e ≡ kept (record { life = s.now.life; id = s.now.id; seq = s.now.seq; sum = s.now.sum; flags = flags }) tlvs.now) }
    ensures id { IfOk result (λ e. e.id ≡ s.now.id) }
{
    if s.life == 0 {
        return Ok(purge(s.id, s.seq));
    }
    Ok(live(s, flags, Content::from_slice(alloc, tlvs)?))
}

/// Returns the entry of a live LSP with this content.
pub(crate) fn live(s: &Summary, flags: u8, content: Content) -> Entry
    ensures { result ≡ record { id = s.now.id; seq = s.now.seq; life = s.now.life; hold = 0; sum = s.now.sum; flags = flags; content = content } }
{
    Entry {
        id: s.id,
        seq: s.seq,
        life: s.life,
        hold: 0,
        sum: s.sum,
        flags,
        content,
    }
}
