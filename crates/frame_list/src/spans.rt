//! Ranges of octets, in the order of the frames that they are.
ghost use Rattle.std.specs.Prelude.{◌≡◌, ◌<◌, ◌≤◌, ◌+◌, ◌^◌, ◌++◌, ◌∷◌, [], length, map, take, drop, slice_get, slice_set, Some, OnOk, OnErr, vec_len, vec_capacity};
ghost use Rattle.std.specs.List.{remove};
ghost use Rattle.frame_list.specs.Spans.{moved, AreWithin};

use std::alloc::Global;
use std::marker::Model;
use wire_base::M;

/// The range of a frame's octets in the buffer, and the frame's note. The ends of the range are `u32`, so that a list has more spans
/// in a cache line: one with a note of 12 octets takes 20.
#[derive(Clone, Copy)]
pub(crate) struct Span<N> {
    pub(crate) note: N,
    pub(crate) start: u32,
    pub(crate) end: u32,
}

/// Spans in order; contracts model it as their list. The first one is removed without moving the others: those before `first` are
/// removed ones.
#[derive(Drop)]
pub(crate) struct Spans<N> {
    list: Vec<Span<N>>,
    first: usize,
}

impl<N> Model for Spans<N> {
    ghost use Rattle.std.specs.Prelude.{◌≤◌, List, drop, length};
    ghost use Rattle.frame_list.specs.declared.spans.Span.{Span};

    ghost Value = { List (Span N) };

    ghost view = { λ s. drop s.first s.list.items };

    ghost invariant = { λ s. s.first ≤ length s.list.items };
}

impl<N: Copy + Drop> Spans<N> {
    /// Creates an empty list. Does not allocate.
    pub(crate) fn new(alloc: Global) -> Self
        ensures { result ≡ [] }
    {
        Spans {
            list: Vec::new(alloc),
            first: 0,
        }
    }

    /// Returns the number of spans.
    pub(crate) fn len(&self) -> usize
        ensures { result ≡ length self.now }
    {
        self.list.len() - self.first
    }

    /// Returns the spans.
    pub(crate) fn as_slice(&self) -> &[Span<N>]
        ensures { result.now ≡ self.now }
    {
        &self.list[self.first..]
    }

    /// Returns the span at an index.
    pub(crate) fn at(&self, i: usize) -> Span<N>
        requires { i < length self.now }
        ensures { slice_get self.now i ≡ Some result }
    {
        self.list[self.first + i]
    }

    /// Replaces the span at an index.
    #[tactic(auto, using(crate::proofs::SpanLaws::put_there))]
    pub(crate) fn put(&mut self, i: usize, span: Span<N>)
        requires { i < length self.old }
        ensures { self.new ≡ slice_set self.old i span }
    {
        self.list[self.first + i] = span;
    }

    /// Reserves room for that many more spans.
    pub(crate) fn reserve(&mut self, count: usize) -> M<()>
        ensures { self.new ≡ self.old }
    {
        self.list.reserve(count)?;
        Ok(())
    }

    /// Appends a span. If an allocation fails, nothing changes.
    pub(crate) fn push(&mut self, span: Span<N>) -> M<()>
        ensures ok { OnOk result (self.new ≡ self.old ++ span ∷ []) }
        ensures err { OnErr result (self.new ≡ self.old) }
    {
        self.list.push(span)?;
        Ok(())
    }

    /// Appends the spans of frames whose octets were appended to others, all with that note. `octets` are those of the other frames,
    /// behind that many octets. If an allocation fails, nothing changes.
    pub(crate) fn push_all<O: Copy + Drop>(
        &mut self,
        note: N,
        start: u32,
        octets: &[u8],
        others: &[Span<O>],
    ) -> M<()>
        requires within { AreWithin octets.now others.now }
        requires fits { start + length octets.now < 2 ^ 32 }
        ensures ok { OnOk result (self.new ≡ self.old ++ map (moved note start) others.now) }
        ensures err { OnErr result (self.new ≡ self.old) }
    {
        self.list.reserve(others.len())?;
        put_behind(&mut self.list, note, start, octets, others);
        Ok(())
    }

    /// Removes and returns the span at an index, which is mostly 0.
    #[tactic(auto, using(crate::proofs::SpanLaws::first_gone, crate::proofs::SpanLaws::later_gone))]
    pub(crate) fn remove(&mut self, i: usize) -> Span<N>
        requires { i < length self.old }
        ensures rest { self.new ≡ remove self.old i }
        ensures span { slice_get self.old i ≡ Some result }
    {
        if i == 0 {
            let span = self.list[self.first];
            self.first += 1;
            return span;
        }
        self.list.remove(self.first + i)
    }

    /// Removes all spans. A capacity of more than that many is not kept.
    pub(crate) fn clear(&mut self, kept: usize)
        ensures { self.new ≡ [] }
    {
        self.first = 0;
        if self.list.capacity() > kept {
            self.list = Vec::new(*self.list.allocator());
        } else {
            self.list.truncate(0);
        }
    }
}

/// Appends the spans of frames whose octets were appended to others, all with that note.
fn put_behind<N: Copy + Drop, O: Copy + Drop>(
    list: &mut Vec<Span<N>>,
    note: N,
    start: u32,
    octets: &[u8],
    others: &[Span<O>],
)
    requires room { vec_len list.old + length others.now ≤ vec_capacity list.old }
    requires within { AreWithin octets.now others.now }
    requires fits { start + length octets.now < 2 ^ 32 }
    ensures { list.new.items ≡ list.old.items ++ map (moved note start) others.now }
{
    'spans: for i in 0..others.len() {
        let span = others[i];
        list.push_reserved(Span {
            note,
            start: start + span.start,
            end: start + span.end,
        });
    }
}
