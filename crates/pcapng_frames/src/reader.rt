//! A reader of a pcapng capture whose octets arrive in chunks.
ghost use Rattle.std.specs.Prelude.{◌≡◌, ◌≤◌, ◌+◌, ◌++◌, ◌∷◌, ℕ, List, [], length, take, drop, OnOk, OnErr, Ok, None, Some, IfOk};
ghost use Rattle.std.specs.List.{concat};
ghost use Rattle.pcapng_frames.specs.declared.reader.Taken.TheVariants as taken;
ghost use Rattle.pcapng_frames.specs.Blocks.{least, block_at};
ghost use Rattle.pcapng_frames.specs.Packets.{content_at, record_of};
ghost use Rattle.pcapng_frames.specs.Reading.{NgReading, ng_unread, ng_fed, by_block, by_content, take_of, ng_next, ng_drained, ng_pieces, ng_left, ng_end, ng_records};
ghost use Rattle.pcapng_frames.specs.Written.{AreWritable, written_head, written_all};
ghost use Rattle.pcapng_frames.specs.Seen.{Answers, IsInside, after_answer, fault_in};
ghost use Rattle.pcapng_frames.specs.After.{HasRead};

use crate::block::{Block, read_block};
use crate::content::{Content, read_content};
use crate::faults::NgFault;
use crate::interface::Interface;
use crate::moment::Moment;
use crate::order::Order;
use crate::packet::{NgRecord, Packet, copy_record};
use std::alloc::Global;
use std::marker::Model;
use wire_base::M;

/// The state of a reader: before the first block, in a section, or at an error, which is permanent.
#[derive(Clone, Copy)]
enum Step {
    Opening,
    Section(Order),
    Refused(NgFault),
}

/// What taking a block gave: nothing if it is not whole yet, a packet, or a block that has none.
#[derive(Drop)]
enum Taken {
    Nothing,
    Skipped,
    Packet(NgRecord),
}

/// A reader of a pcapng capture. It is fed the capture in chunks of any size, and returns each packet as soon as its block is
/// complete. It stores the interfaces of the section, what it was fed and has not yet taken, and at most as many octets more.
#[derive(Drop)]
pub struct NgReader {
    step: Step,
    interfaces: Vec<Interface>,
    before: Moment,
    bytes: Vec<u8>,
    at: usize,
}

impl Model for NgReader {
    ghost use Rattle.std.specs.Prelude.{◌≤◌, length, drop};
    ghost use Rattle.pcapng_frames.specs.Reading.{NgReading};
    ghost use Rattle.pcapng_frames.specs.After.{IsSound};

    ghost Value = { NgReading };

    ghost view = { λ r. record { step = r.step; interfaces = r.interfaces.items; before = r.before; octets = drop r.at r.bytes.items } };

    ghost invariant = { λ r. IsSound r.step r.at r.bytes.items };
}

impl NgReader {
    /// Creates a reader that was fed nothing. Its packets are those of all octets that it is fed, however they are split.
    pub fn new(alloc: Global) -> NgReader
        ensures empty { result ≡ ng_unread }
        ensures written { (interfaces : ℕ) (records : List NgRecord) → interfaces ≤ 64000 → AreWritable interfaces records → ng_records (written_head interfaces ++ written_all records) ≡ (records, None) }
        ensures pieces { (pieces : List (List ℕ)) → ng_pieces result pieces ≡ ng_drained (ng_fed result (concat pieces)) }
    {
        NgReader {
            step: Step::Opening,
            interfaces: Vec::new(alloc),
            before: Moment { sec: 0, usec: 0 },
            bytes: Vec::new(alloc),
            at: 0,
        }
    }

    /// Appends the next octets of the capture.
    pub fn feed(&mut self, piece: &[u8]) -> M<()>
        ensures ok { OnOk result (self.new ≡ ng_fed self.old piece.now) }
        ensures err { OnErr result (self.new ≡ self.old) }
    {
        if self.bytes.len() - self.at <= self.at {
            self.shift();
        }
        self.bytes.extend_from_slice(piece)?;
        Ok(())
    }

    /// Moves the remaining octets to the front. The taken part is at least as long, so that all moves together take no more
    /// time than all octets that were fed.
    fn shift(&mut self)
        ensures { self.new ≡ self.old }
    {
        let left = self.bytes.len() - self.at;
        self.bytes.copy_within(self.at.., 0);
        self.bytes.truncate(left);
        self.at = 0;
    }

    /// Returns the next packet. None exactly where the octets fed so far have neither a further whole packet block nor one of
    /// these errors.
    ///
    /// Errors: 11 NgMagic, the first block is not a section header; 12 NgOrder, a byte-order magic is neither way round;
    /// 13 NgVersion, a section's major version is not 1; 14 NgLength, a block's total length is below the least of its type, not
    /// a multiple of 4, above 16,777,216, or not the same at its end; 15 NgInterface, a packet is on an interface that its section
    /// does not have; 16 NgPacket, its data exceed the block or 262,144 octets; 17 NgTime, a resolution is none, or the seconds of
    /// a packet's time exceed 32 bits; or Memory. After Memory the same packet is still available; any other error is returned
    /// from then on.
    pub fn next(&mut self) -> Result<Option<NgRecord>, NgFault>
        ensures exact { Answers result (ng_next self.old).0 }
        ensures after { HasRead result self.old self.new }
        ensures none { result ≡ Ok None → ng_next self.new ≡ (Ok None, self.new) }
    {
        'walk: loop {
            let took = self.take_block();
            match took {
                Ok(Taken::Skipped) => {}
                Ok(Taken::Nothing) => return Ok(None),
                Ok(Taken::Packet(read)) => return Ok(Some(read)),
                Err(fault) => return Err(fault),
            }
        }
    }

    /// Takes the block at the front, if it is whole.
    #[tactic(auto, unfolding(crate::specs::Reading::take_of))]
    fn take_block(&mut self) -> Result<Taken, NgFault>
        ensures exact { Answers result (take_of self.old).0 }
        ensures after { self.new ≡ after_answer result self.old (take_of self.old).1 }
    {
        match self.step {
            Step::Opening => self.take_in(None),
            Step::Section(order) => self.take_in(Some(order)),
            Step::Refused(fault) => Err(fault),
        }
    }

    /// The same in a section of that byte order, or before the first one.
    fn take_in(&mut self, within: Option<Order>) -> Result<Taken, NgFault>
        ensures exact { Answers result (by_block self.old (block_at within self.old.octets)).0 }
        ensures after { self.new ≡ after_answer result self.old (by_block self.old (block_at within self.old.octets)).1 }
    {
        let read = read_block(within, &self.bytes.as_slice()[self.at..]);
        match read {
            Ok(Some(block)) => self.take_whole(block),
            Ok(None) => Ok(Taken::Nothing),
            Err(fault) => {
                self.step = Step::Refused(fault);
                Err(fault)
            }
        }
    }

    /// Takes a whole block.
    fn take_whole(&mut self, block: Block) -> Result<Taken, NgFault>
        requires least { least block.kind ≤ block.size }
        requires whole { block.size ≤ length self.old.octets }
        ensures exact { Answers result (by_content block self.old (content_at block self.old.interfaces self.old.before (take block.size self.old.octets))).0 }
        ensures after { self.new ≡ after_answer result self.old (by_content block self.old (content_at block self.old.interfaces self.old.before (take block.size self.old.octets))).1 }
    {
        let octets = &self.bytes.as_slice()[self.at..self.at + block.size];
        let read = read_content(block, self.interfaces.as_slice(), self.before, octets);
        match read {
            Ok(content) => self.apply(block, content),
            Err(fault) => {
                self.step = Step::Refused(fault);
                Err(fault)
            }
        }
    }

    /// Takes a whole block that says that.
    fn apply(&mut self, block: Block, content: Content) -> Result<Taken, NgFault>
        requires whole { block.size ≤ length self.old.octets }
        requires inside { IsInside block.size content }
        ensures exact { Answers result (by_content block self.old (Ok content)).0 }
        ensures after { self.new ≡ after_answer result self.old (by_content block self.old (Ok content)).1 }
    {
        match content {
            Content::Section => {
                self.interfaces.clear();
                self.step = Step::Section(block.order);
                self.at += block.size;
                Ok(Taken::Skipped)
            }
            Content::Interface(interface) => {
                add(&mut self.interfaces, interface)?;
                self.at += block.size;
                Ok(Taken::Skipped)
            }
            Content::Packet(packet) => self.give(block.size, packet),
            Content::Other => {
                self.at += block.size;
                Ok(Taken::Skipped)
            }
        }
    }

    /// Takes a whole block of that size that has that packet.
    fn give(&mut self, size: usize, packet: Packet) -> Result<Taken, NgFault>
        requires whole { size ≤ length self.old.octets }
        requires inside { packet.start + packet.captured ≤ size }
        ensures exact { Answers result (Ok (taken.Packet (record_of packet (take size self.old.octets)))) }
        ensures after { self.new ≡ after_answer result self.old (record { step = self.old.step; interfaces = self.old.interfaces; before = packet.moment; octets = drop size self.old.octets }) }
    {
        let alloc = *self.bytes.allocator();
        let octets = &self.bytes.as_slice()[self.at..self.at + size];
        let read = copy_record(alloc, packet, octets)?;
        self.before = packet.moment;
        self.at += size;
        Ok(Taken::Packet(read))
    }

    /// Ends the capture, for a reader that has no further packet and has taken each whole block.
    ///
    /// Errors: 18 NgCut, octets of an incomplete block are left.
    pub fn finish(self) -> Result<(), NgFault>
        requires { ng_next self ≡ (Ok None, self) }
        ensures cut { fault_in result ≡ ng_left self.octets }
        ensures exact { fault_in result ≡ ng_end self }
    {
        if self.bytes.len() > self.at {
            return Err(NgFault::NgCut);
        }
        Ok(())
    }
}

/// Adds an interface to those of its section.
fn add(interfaces: &mut Vec<Interface>, interface: Interface) -> M<()>
    ensures ok { OnOk result (interfaces.new.items ≡ interfaces.old.items ++ interface ∷ []) }
    ensures err { OnErr result (interfaces.new.items ≡ interfaces.old.items) }
{
    interfaces.push(interface)?;
    Ok(())
}
