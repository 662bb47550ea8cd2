//! The LSDB built from a capture.

use isis_pdu::{LspHead, Pdu, read_pdu};
use link_frame::{Class, classify};
use lsp_store::{Store, received};
use pcap_frames::{CapRecord, Reader};
use std::alloc::Global;
use wire_base::{Age, CaptureFault, Level, M, Memory, PutFault, Status};

/// Returns the exit status of a capture that could not be read.
fn status_of(why: CaptureFault) -> Status {
    match why {
        CaptureFault::Memory => Status::Memory,
        _ => Status::CaptureRefused,
    }
}

/// Returns the LSDB with the newest LSP of each LSP ID in a capture.
pub fn database(alloc: Global, level: Level, capture: &[u8]) -> Result<Store, Status> {
    let mut store = Store::new(alloc);
    let mut reader = Reader::new(alloc);
    reader.feed(capture)?; // in any pieces, each with the loop below
    'records: loop {
        match reader.next() {
            Ok(Some(record)) => put_record(alloc, &mut store, level, record)?,
            Ok(None) => break,
            Err(why) => return Err(status_of(why)),
        }
    }
    match reader.finish() {
        Ok(()) => Ok(store),
        Err(why) => Err(status_of(why)),
    }
}

/// Adds the LSP in the frame of a record.
fn put_record(alloc: Global, store: &mut Store, level: Level, record: CapRecord) -> M<()> {
    put_frame(alloc, store, level, record.octets.as_slice())
}

/// Adds the LSP in a frame. Other frames, and malformed ones, are ignored.
fn put_frame(alloc: Global, store: &mut Store, level: Level, frame: &[u8]) -> M<()> {
    let Ok(Class::Isis { from, to }) = classify(frame) else {
        return Ok(());
    };
    match read_pdu(level, &frame[from..to]) {
        Ok(Pdu::Lsp { head, tlvs }) => put_lsp(alloc, store, &head, tlvs),
        _ => Ok(()),
    }
}

/// Adds an LSP that is newer than the entry of its LSP ID (ISO/IEC 10589, 7.3.16.2). A new LSP ID is not added to a full
/// LSDB.
fn put_lsp(alloc: Global, store: &mut Store, head: &LspHead, tlvs: &[u8]) -> M<()> {
    let summary = head.summary();
    match store.compare(&summary) {
        Age::Unknown | Age::Newer => match store.put(received(alloc, &summary, head.flags, tlvs)?) {
            Ok(()) | Err(PutFault::Full(_)) => Ok(()),
            Err(PutFault::Memory) => Err(Memory),
        },
        Age::Equal | Age::Older | Age::Confused => Ok(()),
    }
}
