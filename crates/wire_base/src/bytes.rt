//! Sources and sinks in memory.
ghost use Rattle.std.specs.Prelude.{◌≡◌, ◌<◌, ◌≤◌, ◌+◌, ◌-◌, ◌^◌, ◌++◌, ℕ, [], false, min, length, take, drop, Some, IfOk, vec_len, vec_capacity};
ghost use Rattle.std.specs.Io.{ReadsAtMost, WritesAtMost};
ghost use Rattle.std.specs.Io.KnownBytes.{ReadConsumes, WriteAppends, Keeps};
ghost use Rattle.std.specs.Prelude.{is_err, Ok};
ghost use Rattle.wire_base.specs.Causes.{HasCause, CountsZeros, after_write, after_finish};
ghost use Rattle.wire_base.specs.InMemory.{next_call, is_to_fail};

use crate::lists::{Octets, Rows};
use crate::memory::M;
use crate::outside::{Failed, Sink, Source};
use std::alloc::Global;

/// Copies as many octets as both slices have, and returns that number.
fn copy_front(from: &[u8], into: &mut [u8]) -> usize
    ensures count { result ≡ min (length from.now) (length into.old) }
    ensures copied { into.new ≡ take result from.now ++ drop result into.old }
{
    let count = from.len().min(into.len());
    into[..count].copy_from_slice(&from[..count]);
    count
}

/// The unread octets of a source in memory.
#[derive(Drop)]
struct Unread {
    octets: Octets,
    at: usize,
    ghost within: { at ≤ length octets },
}

impl Unread {
    /// Copies as many octets as the buffer has room for, and returns their number.
    #[tactic(auto, using(crate::proofs::Unread::gives_all))]
    fn give(&mut self, into: &mut [u8]) -> usize
        ensures count { result ≡ min (length self.old.octets - self.old.at) (length into.old) }
        ensures bound { result ≤ length into.new }
        ensures front { drop self.old.at self.old.octets ≡ take result into.new ++ drop self.new.at self.new.octets }
        ensures end { result ≡ 0 → 0 < length into.new → drop self.new.at self.new.octets ≡ [] }
    {
        let count = copy_front(&self.octets.as_slice()[self.at..], into);
        self.at += count;
        count
    }
}

/// A source in memory that fails at the given calls and at no other.
#[derive(Drop)]
pub struct BytesSource {
    unread: Unread,
    fails: Rows<u32>,
    calls: u32,
    faults: u64,
}

impl BytesSource {
    /// Creates a source of those octets. The calls with the numbers in `fails`, counted from 1, fail.
    pub fn new(octets: Octets, fails: Rows<u32>) -> BytesSource
        ensures left { ⟦<BytesSource as Source>⟧.left result ≡ Some octets }
        ensures faults { ⟦<BytesSource as Source>⟧.faults result ≡ 0 }
        ensures calls { (result.calls ≡ 0) × (result.fails ≡ fails) }
    {
        BytesSource {
            unread: Unread { octets, at: 0 },
            fails,
            calls: 0,
            faults: 0,
        }
    }
}

impl Source for BytesSource {
    ghost left = { λ s. Some (drop s.unread.at s.unread.octets) };

    ghost faults = { λ s. s.faults };

    /// Fails exactly at the given calls. Otherwise reads as many octets as are left and the buffer holds.
    fn read(&mut self, into: &mut [u8]) -> Result<usize, Failed>
        ensures bound { ReadsAtMost result into.new }
        ensures bytes { ReadConsumes (Some (drop self.old.unread.at self.old.unread.octets)) (Some (drop self.new.unread.at self.new.unread.octets)) result into.new }
        ensures cause { HasCause self.old.faults self.new.faults result }
        ensures fails { is_err result ≡ is_to_fail self.old.fails self.old.calls }
        ensures calls { (self.new.calls ≡ next_call self.old.calls) × (self.new.fails ≡ self.old.fails) }
        ensures count { IfOk result (λ n. n ≡ min (length self.old.unread.octets - self.old.unread.at) (length into.old)) }
    {
        self.calls = self.calls.saturating_add(1);
        if self.fails.as_slice().contains(&self.calls) {
            self.faults = self.faults.saturating_add(1);
            return Err(Failed);
        }
        Ok(self.unread.give(into))
    }
}

/// A source in memory that never fails.
#[derive(Drop)]
pub struct QuietSource {
    unread: Unread,
}

impl QuietSource {
    /// Creates a source of those octets.
    pub fn new(octets: Octets) -> QuietSource
        ensures left { ⟦<QuietSource as Source>⟧.left result ≡ Some octets }
        ensures faults { ⟦<QuietSource as Source>⟧.faults result ≡ 0 }
    {
        QuietSource {
            unread: Unread { octets, at: 0 },
        }
    }
}

impl Source for QuietSource {
    ghost left = { λ s. Some (drop s.unread.at s.unread.octets) };

    ghost faults = { λ _. 0 };

    /// Reads as many octets as are left and the buffer holds.
    fn read(&mut self, into: &mut [u8]) -> Result<usize, Failed>
        ensures bound { ReadsAtMost result into.new }
        ensures bytes { ReadConsumes (Some (drop self.old.unread.at self.old.unread.octets)) (Some (drop self.new.unread.at self.new.unread.octets)) result into.new }
        ensures cause { HasCause 0 0 result }
        ensures count { result ≡ Ok (min (length self.old.unread.octets - self.old.unread.at) (length into.old)) }
    {
        Ok(self.unread.give(into))
    }
}

/// The octets that a sink in memory holds, and its free room.
#[derive(Drop)]
struct Room {
    bytes: Vec<u8>,
    room: usize,
    ghost reserved: { room ≤ vec_capacity bytes },
    ghost within: { vec_len bytes ≤ room },
}

impl Room {
    fn new(alloc: Global, room: usize) -> M<Room>
        ensures { IfOk result (λ r. (r.bytes.items ≡ []) × (r.room ≡ room)) }
    {
        Ok(Room {
            bytes: Vec::with_capacity(alloc, room)?,
            room,
        })
    }

    /// Appends as many octets of the slice as still fit, and returns their number.
    fn take(&mut self, piece: &[u8]) -> usize
        ensures count { result ≡ min (length piece.now) (self.old.room - vec_len self.old.bytes) }
        ensures bytes { self.new.bytes.items ≡ self.old.bytes.items ++ take result piece.now }
        ensures room { self.new.room ≡ self.old.room }
    {
        let count = piece.len().min(self.room - self.bytes.len());
        self.bytes.extend_from_slice(&piece[..count]).unwrap();
        count
    }
}

/// A sink in memory that fails at the given calls and at no other; `write` and `finish` are counted together.
/// It allocates its room when it is created.
#[derive(Drop)]
pub struct BytesSink {
    taken: Room,
    fails: Rows<u32>,
    calls: u32,
    faults: u64,
    zeros: u64,
    unfinished: bool,
}

impl BytesSink {
    /// Creates an empty sink with room for `room` octets. The calls with the numbers in `fails`, counted from 1, fail.
    pub fn new(alloc: Global, room: usize, fails: Rows<u32>) -> M<BytesSink>
        ensures written { IfOk result (λ s. ⟦<BytesSink as Sink>⟧.written s ≡ Some []) }
        ensures faults { IfOk result (λ s. ⟦<BytesSink as Sink>⟧.faults s ≡ 0) }
        ensures zeros { IfOk result (λ s. ⟦<BytesSink as Sink>⟧.zeros s ≡ 0) }
        ensures unfinished { IfOk result (λ s. ⟦<BytesSink as Sink>⟧.unfinished s ≡ false) }
        ensures calls { IfOk result (λ s. (s.calls ≡ 0) × (s.fails ≡ fails)) }
        ensures room { IfOk result (λ s. s.taken.room ≡ room) }
    {
        Ok(BytesSink {
            taken: Room::new(alloc, room)?,
            fails,
            calls: 0,
            faults: 0,
            zeros: 0,
            unfinished: false,
        })
    }

    /// Returns the octets written so far.
    pub fn as_slice(&self) -> &[u8]
        ensures { ⟦<BytesSink as Sink>⟧.written self.now ≡ Some result.now }
    {
        self.taken.bytes.as_slice()
    }

    /// Counts a call, and returns whether it has to fail.
    fn fails_now(&mut self) -> bool
        ensures counted { self.new ≡ record self.old { calls = next_call self.old.calls } }
        ensures fails { result ≡ is_to_fail self.old.fails self.old.calls }
    {
        self.calls = self.calls.saturating_add(1);
        self.fails.as_slice().contains(&self.calls)
    }
}

impl Sink for BytesSink {
    ghost written = { λ s. Some s.taken.bytes.items };

    ghost faults = { λ s. s.faults };

    ghost zeros = { λ s. s.zeros };

    ghost unfinished = { λ s. s.unfinished };

    /// Fails exactly at the given calls. Otherwise appends as many octets as still fit.
    fn write(&mut self, piece: &[u8]) -> Result<usize, Failed>
        ensures bound { WritesAtMost result piece.now }
        ensures bytes { WriteAppends (Some self.old.taken.bytes.items) (Some self.new.taken.bytes.items) result piece.now }
        ensures cause { HasCause self.old.faults self.new.faults result }
        ensures nothing { CountsZeros self.old.zeros self.new.zeros result piece.now }
        ensures open { after_write self.old.unfinished result self.new.unfinished }
        ensures fails { is_err result ≡ is_to_fail self.old.fails self.old.calls }
        ensures calls { (self.new.calls ≡ next_call self.old.calls) × (self.new.fails ≡ self.old.fails) }
        ensures count { IfOk result (λ n. n ≡ min (length piece.now) (self.old.taken.room - vec_len self.old.taken.bytes)) }
        ensures room { self.new.taken.room ≡ self.old.taken.room }
    {
        if self.fails_now() {
            self.faults = self.faults.saturating_add(1);
            return Err(Failed);
        }
        let count = self.taken.take(piece);
        if count > 0 {
            self.unfinished = true;
        } else if !piece.is_empty() {
            self.zeros = self.zeros.saturating_add(1);
        }
        Ok(count)
    }

    /// Fails exactly at the given calls.
    fn finish(&mut self) -> Result<(), Failed>
        ensures bytes { Keeps (Some self.old.taken.bytes.items) (Some self.new.taken.bytes.items) }
        ensures cause { HasCause self.old.faults self.new.faults result }
        ensures nothing { self.new.zeros ≡ self.old.zeros }
        ensures open { after_finish self.old.unfinished result self.new.unfinished }
        ensures fails { is_err result ≡ is_to_fail self.old.fails self.old.calls }
        ensures calls { (self.new.calls ≡ next_call self.old.calls) × (self.new.fails ≡ self.old.fails) }
        ensures room { self.new.taken.room ≡ self.old.taken.room }
    {
        if self.fails_now() {
            self.faults = self.faults.saturating_add(1);
            return Err(Failed);
        }
        self.unfinished = false;
        Ok(())
    }
}

/// A sink in memory that never fails. It allocates its room when it is created.
#[derive(Drop)]
pub struct QuietSink {
    taken: Room,
    zeros: u64,
    unfinished: bool,
}

impl QuietSink {
    /// Creates an empty sink with room for `room` octets.
    pub fn new(alloc: Global, room: usize) -> M<QuietSink>
        ensures written { IfOk result (λ s. ⟦<QuietSink as Sink>⟧.written s ≡ Some []) }
        ensures faults { IfOk result (λ s. ⟦<QuietSink as Sink>⟧.faults s ≡ 0) }
        ensures zeros { IfOk result (λ s. ⟦<QuietSink as Sink>⟧.zeros s ≡ 0) }
        ensures unfinished { IfOk result (λ s. ⟦<QuietSink as Sink>⟧.unfinished s ≡ false) }
        ensures room { IfOk result (λ s. s.taken.room ≡ room) }
    {
        Ok(QuietSink {
            taken: Room::new(alloc, room)?,
            zeros: 0,
            unfinished: false,
        })
    }

    /// Returns the octets written so far.
    pub fn as_slice(&self) -> &[u8]
        ensures { ⟦<QuietSink as Sink>⟧.written self.now ≡ Some result.now }
    {
        self.taken.bytes.as_slice()
    }
}

impl Sink for QuietSink {
    ghost written = { λ s. Some s.taken.bytes.items };

    ghost faults = { λ _. 0 };

    ghost zeros = { λ s. s.zeros };

    ghost unfinished = { λ s. s.unfinished };

    /// Appends as many octets as still fit.
    fn write(&mut self, piece: &[u8]) -> Result<usize, Failed>
        ensures bound { WritesAtMost result piece.now }
        ensures bytes { WriteAppends (Some self.old.taken.bytes.items) (Some self.new.taken.bytes.items) result piece.now }
        ensures cause { HasCause 0 0 result }
        ensures nothing { CountsZeros self.old.zeros self.new.zeros result piece.now }
        ensures open { after_write self.old.unfinished result self.new.unfinished }
        ensures count { result ≡ Ok (min (length piece.now) (self.old.taken.room - vec_len self.old.taken.bytes)) }
        ensures room { self.new.taken.room ≡ self.old.taken.room }
    {
        let count = self.taken.take(piece);
        if count > 0 {
            self.unfinished = true;
        } else if !piece.is_empty() {
            self.zeros = self.zeros.saturating_add(1);
        }
        Ok(count)
    }

    /// Always succeeds. The free room is unchanged.
    fn finish(&mut self) -> Result<(), Failed>
        ensures bytes { Keeps (Some self.old.taken.bytes.items) (Some self.new.taken.bytes.items) }
        ensures cause { HasCause 0 0 result }
        ensures nothing { self.new.zeros ≡ self.old.zeros }
        ensures open { after_finish self.old.unfinished result self.new.unfinished }
        ensures succeeds { result ≡ Ok tt }
        ensures room { self.new.taken.room ≡ self.old.taken.room }
    {
        self.unfinished = false;
        Ok(())
    }
}
