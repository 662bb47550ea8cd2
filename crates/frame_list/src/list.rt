//! Frames in order.
ghost use Rattle.std.specs.Prelude.{◌≡◌, ◌<◌, ◌≤◌, ◌^◌, ◌++◌, ◌∷◌, [], nat_lt, length, map, slice_get, option_map, Some, OnOk, OnErr};
ghost use Rattle.std.specs.List.{remove};
ghost use Rattle.frame_list.specs.Spans.{noted_anew, noted_as};

use crate::spans::{Span, Spans};
use std::alloc::Global;
use std::marker::Model;
use wire_base::{M, Memory};

/// The capacity in octets allocated with the first frame: enough for a few LSPs.
const FIRST_OCTETS: usize = 1024;

const FIRST_FRAMES: usize = 8;

/// The capacity in octets that an empty list keeps.
const KEPT: usize = 1024;

/// The capacity in frames that an empty list keeps.
const KEPT_FRAMES: usize = 32;

/// The maximum number of octets of removed frames that are left in the buffer.
const LEFT: usize = 4096;

/// The maximum number of octets in the buffer, those of removed frames included, so that the ends of a span fit `u32`.
const MOST_OCTETS: usize = u32::MAX as usize;

/// Frames in order, each with a note; contracts model it as the list of both. The octets are stored in one buffer, so that a
/// frame needs no allocation of its own. The buffer has at most `u32::MAX` octets, and a call that would append more returns
/// `Memory`.
#[derive(Drop)]
pub struct FrameList<N> {
    octets: Vec<u8>,
    spans: Spans<N>,
    gone: usize,
}

impl<N> Model for FrameList<N> {
    ghost use Rattle.std.specs.Prelude.{List};
    ghost use Rattle.frame_list.specs.Spans.{Noted, frames_in, AreWithin};

    ghost Value = { List (Noted N) };

    ghost view = { λ f. frames_in f.octets.items f.spans };

    ghost invariant = { λ f. AreWithin f.octets.items f.spans };
}

impl<N: Copy + Drop> FrameList<N> {
    /// Creates an empty list. Does not allocate.
    pub fn new(alloc: Global) -> Self
        ensures { result ≡ [] }
    {
        FrameList {
            octets: Vec::new(alloc),
            spans: Spans::new(alloc),
            gone: 0,
        }
    }

    /// Returns the allocator of the list.
    pub fn allocator(&self) -> Global {
        *self.octets.allocator()
    }

    /// Returns the number of frames.
    pub fn len(&self) -> usize
        ensures { result ≡ length self.now }
    {
        self.spans.len()
    }

    /// Returns the octets of the frame at index `i`.
    pub fn octets_at(&self, i: usize) -> &[u8]
        requires { i < length self.now }
        ensures { option_map (λ f. f.octets) (slice_get self.now i) ≡ Some result.now }
    {
        let span = self.spans.at(i);
        &self.octets[span.start as usize..span.end as usize]
    }

    /// Returns the note of the frame at index `i`.
    pub fn note_at(&self, i: usize) -> N
        requires { i < length self.now }
        ensures { option_map (λ f. f.note) (slice_get self.now i) ≡ Some result }
    {
        self.spans.at(i).note
    }

    /// Appends a frame. If an allocation fails or the buffer would exceed `u32::MAX` octets, nothing changes.
    pub fn push(&mut self, note: N, octets: &[u8]) -> M<()>
        ensures ok { OnOk result (self.new ≡ self.old ++ record { note = note; octets = octets.now } ∷ []) }
        ensures err { OnErr result (self.new ≡ self.old) }
    {
        if self.is_mostly_gone() {
            self.gather()?;
        }
        self.append(note, octets)
    }

    /// Appends a frame whose octets are those of two slices, one after the other, so that its parts need not be joined before.
    /// If an allocation fails or the buffer would exceed `u32::MAX` octets, nothing changes.
    ///
    /// It is inlined with all that it calls: where the length of the first part is known, it is copied without a call.
    #[inline(always)]
    pub fn push_parts(&mut self, note: N, first: &[u8], second: &[u8]) -> M<()>
        ensures ok { OnOk result (self.new ≡ self.old ++ record { note = note; octets = first.now ++ second.now } ∷ []) }
        ensures err { OnErr result (self.new ≡ self.old) }
    {
        if self.is_mostly_gone() {
            self.gather()?;
        }
        self.append_parts(note, first, second)
    }

    /// Appends the frames of another list, all with that note, by one copy of their octets. If an allocation fails or the buffer
    /// would exceed `u32::MAX` octets, nothing changes.
    #[tactic(auto, using(crate::proofs::SpanLaws::frames_joined, crate::proofs::SpanLaws::within_joined, crate::proofs::SpanLaws::frames_kept, crate::proofs::SpanLaws::within_kept))]
    pub fn append_all<O: Copy + Drop>(&mut self, note: N, others: &FrameList<O>) -> M<()>
        ensures ok { OnOk result (self.new ≡ self.old ++ map (noted_as note) others.now) }
        ensures err { OnErr result (self.new ≡ self.old) }
    {
        if self.is_mostly_gone() {
            self.gather()?;
        }
        self.make_room(others.octets.len())?;
        let start = self.octets.len();
        let octets = others.octets.as_slice();
        extend(&mut self.octets, octets)?;
        self.spans
            .push_all(note, start as u32, octets, others.spans.as_slice())
    }

    /// Replaces the note of the frame at index `i`.
    pub fn set_note(&mut self, i: usize, note: N)
        requires { i < length self.old }
        ensures { self.new ≡ noted_anew self.old i note }
    {
        let span = self.spans.at(i);
        self.spans.put(i, Span { note, ..span });
    }

    /// Reserves room for the first frames, one of which has that many octets, if the list has no memory yet. It is inlined, since
    /// mostly the list has memory.
    #[inline(always)]
    fn make_room(&mut self, octets: usize) -> M<()>
        ensures { self.new ≡ self.old }
    {
        if self.octets.capacity() > 0 {
            return Ok(());
        }
        self.reserve_first(octets)
    }

    /// Reserves room for several frames at once, so that the list does not grow step by step.
    #[inline(never)]
    fn reserve_first(&mut self, octets: usize) -> M<()>
        ensures { self.new ≡ self.old }
    {
        self.spans.reserve(FIRST_FRAMES)?;
        self.octets.reserve(octets.max(FIRST_OCTETS))?;
        Ok(())
    }

    /// Appends a frame, however many octets of removed frames there are. If the allocation for the span fails, octets that
    /// belong to no frame are left.
    #[tactic(auto, using(crate::proofs::SpanLaws::frames_added, crate::proofs::SpanLaws::within_added, crate::proofs::SpanLaws::frames_kept, crate::proofs::SpanLaws::within_kept))]
    fn append(&mut self, note: N, octets: &[u8]) -> M<()>
        ensures ok { OnOk result (self.new ≡ self.old ++ record { note = note; octets = octets.now } ∷ []) }
        ensures err { OnErr result (self.new ≡ self.old) }
    {
        self.make_room(octets.len())?;
        let start = self.octets.len();
        extend(&mut self.octets, octets)?;
        self.spans.push(Span {
            note,
            start: start as u32,
            end: self.octets.len() as u32,
        })
    }

    /// The same for a frame in two parts. If an allocation fails, octets that belong to no frame may be left.
    #[tactic(auto, using(crate::proofs::SpanLaws::frames_added, crate::proofs::SpanLaws::within_added, crate::proofs::SpanLaws::frames_kept, crate::proofs::SpanLaws::within_kept))]
    #[inline(always)]
    fn append_parts(&mut self, note: N, first: &[u8], second: &[u8]) -> M<()>
        ensures ok { OnOk result (self.new ≡ self.old ++ record { note = note; octets = first.now ++ second.now } ∷ []) }
        ensures err { OnErr result (self.new ≡ self.old) }
    {
        self.make_room(FIRST_OCTETS)?;
        let start = self.octets.len();
        extend_two(&mut self.octets, first, second)?;
        self.spans.push(Span {
            note,
            start: start as u32,
            end: self.octets.len() as u32,
        })
    }

    /// Removes the frame at an index. Returns whether there was one.
    #[tactic(auto, using(crate::proofs::SpanLaws::frames_removed, crate::proofs::SpanLaws::within_removed))]
    pub fn remove(&mut self, i: usize) -> bool
        ensures rest { self.new ≡ remove self.old i }
        ensures gone { result ≡ nat_lt i (length self.old) }
    {
        if i >= self.spans.len() {
            return false;
        }
        let span = self.spans.remove(i);
        // A frame without octets counts, too, so that the list of spans does not grow without bound.
        self.gone = self
            .gone
            .saturating_add((span.end - span.start) as usize)
            .saturating_add(1);
        if self.spans.len() == 0 {
            self.let_go();
        }
        true
    }

    /// Removes all frames. Their memory serves for the next ones.
    pub fn clear(&mut self)
        ensures { self.new ≡ [] }
    {
        self.gone = 0;
        self.spans.clear(usize::MAX);
        self.octets.truncate(0);
    }

    /// Discards the octets of a list that has no frame left, and large capacity. It is not inlined, so that the removal of a frame,
    /// after which mostly others are left, stays short.
    #[inline(never)]
    fn let_go(&mut self)
        requires { self.old ≡ [] }
        ensures { self.new ≡ [] }
    {
        self.gone = 0;
        self.spans.clear(KEPT_FRAMES);
        if self.octets.capacity() > KEPT {
            self.octets = Vec::new(self.allocator());
        } else {
            self.octets.truncate(0);
        }
    }

    /// Returns whether most octets belong to removed frames.
    fn is_mostly_gone(&self) -> bool {
        self.gone > LEFT && self.gone > self.octets.len() / 2
    }

    /// Discards the octets of removed frames.
    #[tactic(auto, using(crate::proofs::SpanLaws::taken_more))]
    fn gather(&mut self) -> M<()>
        ensures { self.new ≡ self.old }
    {
        let mut left = FrameList::new(self.allocator());
        'frames: for i in 0..self.len() {
            left.append(self.note_at(i), self.octets_at(i))?;
        }
        *self = left;
        Ok(())
    }
}

/// Appends the octets, or none if an allocation fails or there would be more than `MOST_OCTETS`.
#[inline(always)]
fn extend(octets: &mut Vec<u8>, more: &[u8]) -> M<()>
    ensures ok { OnOk result (octets.new.items ≡ octets.old.items ++ more.now) }
    ensures fits { OnOk result (length octets.new.items < 2 ^ 32) }
    ensures err { OnErr result (octets.new.items ≡ octets.old.items) }
{
    let before = octets.len();
    octets.extend_from_slice(more)?;
    if octets.len() > MOST_OCTETS {
        octets.truncate(before);
        return Err(Memory);
    }
    Ok(())
}

/// Appends the octets of both slices, or none if an allocation fails or there would be more than `MOST_OCTETS`.
#[inline(always)]
fn extend_two(octets: &mut Vec<u8>, first: &[u8], second: &[u8]) -> M<()>
    ensures ok { OnOk result (octets.new.items ≡ octets.old.items ++ (first.now ++ second.now)) }
    ensures fits { OnOk result (length octets.new.items < 2 ^ 32) }
    ensures err { OnErr result (octets.new.items ≡ octets.old.items) }
{
    let before = octets.len();
    octets.extend_from_slice(first)?;
    if octets.extend_from_slice(second).is_err() || octets.len() > MOST_OCTETS {
        octets.truncate(before);
        return Err(Memory);
    }
    Ok(())
}
