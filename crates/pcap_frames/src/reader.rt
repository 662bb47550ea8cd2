//! A reader of a capture file whose octets arrive in chunks.
ghost use Rattle.std.specs.Prelude.{◌≡◌, ◌≤◌, ◌↔◌, ℕ, List, length, drop, OnOk, OnErr, Ok, None, false, option_map};
ghost use Rattle.std.specs.List.{concat};
ghost use Rattle.wire_base.specs.model.Capture.{CaptureRecord, IsCapture, Reading, unread, fed, drained, read_pieces, capture_at, next_of, by_header, by_record, header_at, record_at, end_of, HeaderToCome};
ghost use Rattle.wire_base.specs.model.Fields.{AreOctets};
ghost use Rattle.pcap_frames.specs.Seen.{form_seen, record_seen, found, Answers, HoldsFound, after_answer, fault_in, opened_end, cut_end};

use crate::header::{Form, HEADER, read_header};
use crate::record::{CapRecord, read_record};
use std::alloc::Global;
use std::marker::Model;
use wire_base::{CaptureFault, M};

/// The state of a reader: before the header, at a record, or at an error, which is permanent.
#[derive(Clone, Copy, Debug, PartialEq, Eq)]
enum Step {
    Header,
    Records(Form),
    Refused(CaptureFault),
}

/// A reader of a capture file. It is fed the file in chunks of any size, and returns each record as soon as it is complete. It
/// stores what it was fed and has not yet returned, and at most as many octets more.
#[derive(Drop)]
pub struct Reader {
    step: Step,
    bytes: Vec<u8>,
    at: usize,
}

impl Model for Reader {
    ghost use Rattle.std.specs.Prelude.{◌≤◌, length, drop};
    ghost use Rattle.wire_base.specs.model.Capture.{Reading};
    ghost use Rattle.pcap_frames.specs.Seen.{stage_seen, IsSound};

    ghost Value = { Reading };

    ghost view = { λ r. record { stage = stage_seen r.step; octets = drop r.at r.bytes.items } };

    ghost invariant = { λ r. IsSound r.step r.at r.bytes.items };
}

impl Reader {
    /// Creates a reader that was fed nothing. Its records are those of all octets that it is fed, however they are split.
    pub fn new(alloc: Global) -> Reader
        ensures empty { result ≡ unread }
        ensures captures { (octets : List ℕ) (records : List CaptureRecord) → AreOctets octets → (capture_at octets ≡ (records, None)) ↔ IsCapture octets records }
        ensures pieces { (pieces : List (List ℕ)) → read_pieces result pieces ≡ drained (fed result (concat pieces)) }
    {
        Reader {
            step: Step::Header,
            bytes: Vec::new(alloc),
            at: 0,
        }
    }

    /// Appends the next octets of the file.
    pub fn feed(&mut self, piece: &[u8]) -> M<()>
        ensures ok { OnOk result (self.new ≡ fed self.old piece.now) }
        ensures err { OnErr result (self.new ≡ self.old) }
    {
        if self.bytes.len() - self.at <= self.at {
            self.shift();
        }
        self.bytes.extend_from_slice(piece)?;
        Ok(())
    }

    /// Moves the remaining octets to the front. The returned part is at least as long, so that all moves together take no more
    /// time than all octets that were fed.
    fn shift(&mut self)
        ensures { self.new ≡ self.old }
    {
        let left = self.bytes.len() - self.at;
        self.bytes.copy_within(self.at.., 0);
        self.bytes.truncate(left);
        self.at = 0;
    }

    /// Returns the next record. None exactly where the octets fed so far have neither a further complete record nor one of these
    /// errors.
    ///
    /// Errors: 1 Magic, the first four octets are not A1B2C3D4 or A1B23C4D in either byte order; 2 Version, it is not 2.4;
    /// 3 LinkType, the low 16 bits are not 1, for Ethernet; 6 LongRecord, a frame of more than 262,144 octets; or
    /// Memory. After Memory the same record is still available; any other error is returned from then on.
    pub fn next(&mut self) -> Result<Option<CapRecord>, CaptureFault>
        ensures exact { Answers (option_map record_seen) result (next_of self.old).0 }
        ensures after { self.new ≡ after_answer result self.old (next_of self.old).1 }
        ensures none { result ≡ Ok None → (next_of self.new).0 ≡ Ok None }
    {
        let mut cap = CapRecord::empty(*self.bytes.allocator());
        match self.next_into(&mut cap) {
            Ok(true) => Ok(Some(cap)),
            Ok(false) => Ok(None),
            Err(fault) => Err(fault),
        }
    }

    /// Reads the next record into `cap`, whose memory is used again for the frame, and returns whether there was one. False
    /// exactly where [`Reader::next`] returns None, and the errors are the same. The record is unchanged if none was read; after
    /// Memory its frame is empty.
    #[tactic(auto, unfolding(wire_base::specs::model::Capture::next_of))]
    pub fn next_into(&mut self, cap: &mut CapRecord) -> Result<bool, CaptureFault>
        ensures exact { Answers (found cap.new) result (next_of self.old).0 }
        ensures after { self.new ≡ after_answer result self.old (next_of self.old).1 }
        ensures none { result ≡ Ok false → (next_of self.new).0 ≡ Ok None }
        ensures holds { HoldsFound cap.old result cap.new }
    {
        match self.step {
            Step::Header => self.open(cap),
            Step::Records(form) => self.take_record(form, 0, cap),
            Step::Refused(fault) => Err(fault),
        }
    }

    /// Reads the header, and then a record.
    fn open(&mut self, cap: &mut CapRecord) -> Result<bool, CaptureFault>
        requires { self.old.stage ≡ HeaderToCome }
        ensures exact { Answers (found cap.new) result (by_header self.old.octets (header_at self.old.octets)).0 }
        ensures after { self.new ≡ after_answer result self.old (by_header self.old.octets (header_at self.old.octets)).1 }
        ensures holds { HoldsFound cap.old result cap.new }
    {
        let read = read_header(&self.bytes.as_slice()[self.at..]);
        match read {
            Ok(Some(form)) => self.take_record(form, HEADER, cap),
            Ok(None) => Ok(false),
            Err(fault) => {
                self.step = Step::Refused(fault);
                Err(fault)
            }
        }
    }

    /// Reads a record, after `skip` octets that are removed first.
    fn take_record(
        &mut self,
        form: Form,
        skip: usize,
        cap: &mut CapRecord,
    ) -> Result<bool, CaptureFault>
        requires { skip ≤ length self.old.octets }
        ensures exact { Answers (found cap.new) result (by_record (form_seen form) (drop skip self.old.octets) (record_at (form_seen form) (drop skip self.old.octets))).0 }
        ensures after { self.new ≡ after_answer result self.old (by_record (form_seen form) (drop skip self.old.octets) (record_at (form_seen form) (drop skip self.old.octets))).1 }
        ensures holds { HoldsFound cap.old result cap.new }
    {
        let at = self.at + skip;
        let read = read_record(form, &self.bytes.as_slice()[at..], cap);
        match read {
            Ok(Some(size)) => {
                self.step = Step::Records(form);
                self.at = at + size;
                Ok(true)
            }
            Ok(None) => {
                self.step = Step::Records(form);
                self.at = at;
                Ok(false)
            }
            Err(CaptureFault::Memory) => Err(CaptureFault::Memory),
            Err(fault) => {
                self.step = Step::Refused(fault);
                self.at = at;
                Err(fault)
            }
        }
    }

    /// Ends the file, for a reader that has no further record.
    ///
    /// Errors: 4 CutHeader, fewer than 24 octets were fed; 5 CutRecord, octets of an incomplete record are left.
    pub fn finish(self) -> Result<(), CaptureFault>
        requires { (next_of self).0 ≡ Ok None }
        ensures { fault_in result ≡ end_of (next_of self).1 }
    {
        let held = self.bytes.len() - self.at;
        match self.step {
            Step::Header => end_of_header(held),
            Step::Records(_) => end_of_records(held),
            Step::Refused(fault) => Err(fault),
        }
    }
}

/// Returns the result at the end of the file, if only that many octets of the header were fed.
fn end_of_header(held: usize) -> Result<(), CaptureFault>
    ensures { fault_in result ≡ opened_end held }
{
    if held < HEADER {
        return Err(CaptureFault::CutHeader);
    }
    end_of_records(held - HEADER)
}

/// Returns the result at the end of the file, with that many octets after the last record.
fn end_of_records(held: usize) -> Result<(), CaptureFault>
    ensures { fault_in result ≡ cut_end held }
{
    if held > 0 {
        return Err(CaptureFault::CutRecord);
    }
    Ok(())
}
