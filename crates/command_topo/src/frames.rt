//! The LSPs in the frames of a capture.
ghost use Rattle.std.specs.Prelude.{◌≡◌, IfOk};
ghost use Rattle.wire_base.specs.model.Ethernet.{frame_at};
ghost use Rattle.wire_base.specs.model.Pdu.{pdu_at};
ghost use Rattle.isis_pdu.specs.Views.{head_of};
ghost use Rattle.command_topo.specs.Frames.{HasAdded, after_frame, after_lsp, after_read, after_record};

use isis_pdu::{LspHead, Pdu, read_pdu};
use link_frame::{Class, classify};
use lsp_store::Store;
use pcapng_frames::NgRecord;
use topo_mt::gather;
use wire_base::{Level, M, Memory, PutFault};

/// Adds an LSP, if it is the newest. Returns whether there was room for it.
fn add_lsp(store: &mut Store, head: &LspHead, tlvs: &[u8]) -> M<bool>
    ensures { IfOk result (λ added. HasAdded added (after_lsp store.old.entries (head_of head.now) tlvs.now) store.new.entries) }
{
    match gather(store, head, tlvs) {
        Ok(()) => Ok(true),
        Err(PutFault::Full(_)) => Ok(false),
        Err(PutFault::Memory) => Err(Memory),
    }
}

/// Adds the LSP that octets contain, if they are one of that level.
fn add_pdu(level: Level, store: &mut Store, octets: &[u8]) -> M<bool>
    ensures { IfOk result (λ added. HasAdded added (after_read store.old.entries (pdu_at level octets.now)) store.new.entries) }
{
    match read_pdu(level, octets) {
        Ok(Pdu::Lsp { head, tlvs }) => add_lsp(store, &head, tlvs),
        _ => Ok(true),
    }
}

/// Adds the LSP that a frame carries. Other frames, and invalid LSPs, are ignored. Returns whether there was room for it.
#[tactic(auto, unfolding(crate::specs::Frames::after_frame))]
fn add_frame(level: Level, store: &mut Store, frame: &[u8]) -> M<bool>
    ensures { IfOk result (λ added. HasAdded added (after_frame level store.old.entries frame.now) store.new.entries) }
{
    match classify(frame) {
        Ok(Class::Isis { from, to }) => add_pdu(level, store, &frame[from..to]),
        _ => Ok(true),
    }
}

/// The same of a record. One of another link type than Ethernet is ignored.
pub(crate) fn add_record(level: Level, store: &mut Store, captured: &NgRecord) -> M<bool>
    ensures { IfOk result (λ added. HasAdded added (after_record level store.old.entries captured.now) store.new.entries) }
{
    if captured.ethernet {
        add_frame(level, store, captured.cap.octets.as_slice())
    } else {
        Ok(true)
    }
}
