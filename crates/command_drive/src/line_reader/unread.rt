//! Octets that were read from a source and are not processed yet.
ghost use Rattle.std.specs.Prelude.{◌≡◌, ◌<◌, ◌≤◌, ◌++◌, ◌∷◌, ℕ, List, [], ◌+◌, IfOk, OnOk, OnErr, MatchOption, length, take, drop, slice_index};
ghost use Rattle.std.specs.Io.KnownBytes.{Consumes, IsAtEnd, Keeps};
ghost use Rattle.wire_base.specs.Causes.{last_count};
ghost use Rattle.wire_base.specs.declared.limits.TheConstants.{LINE_LIMIT};
ghost use Rattle.command_drive.specs.Lines.{HasNoEnd, kept, TakesPart};

use crate::line_reader::KEPT;
use crate::whole::buffer;
use memchr::memchr;
use std::alloc::Global;
use std::marker::Model;
use wire_base::{Failed, M, Octets, Source};

/// A chunk of a text, with a prefix that is already processed.
#[derive(Drop)]
pub struct Unread {
    octets: Vec<u8>,
    at: usize,
    end: usize,
}

impl Model for Unread {
    ghost use Rattle.std.specs.Prelude.{List, ℕ, ◌≤◌, ◌<◌, take, drop, length};

    ghost Value = { List ℕ };

    ghost view = { λ u. drop u.at (take u.end u.octets.items) };

    ghost invariant = { λ u. (u.at ≤ u.end) × (u.end ≤ length u.octets.items) × (0 < length u.octets.items) };
}

impl Unread {
    /// Returns an empty chunk with room for one read.
    pub fn new(alloc: Global) -> M<Self>
        ensures { IfOk result (λ unread. unread ≡ []) }
    {
        Ok(Unread {
            octets: buffer(alloc)?,
            at: 0,
            end: 0,
        })
    }

    /// Returns what is not processed yet.
    fn as_slice(&self) -> &[u8]
        ensures { result.now ≡ self.now }
    {
        &self.octets[self.at..self.end]
    }

    /// Skips octets at the front.
    fn skip(&mut self, count: usize)
        requires { count ≤ length self.old }
        ensures { self.new ≡ drop count self.old }
    {
        self.at += count;
    }

    /// Reads a chunk that replaces the current one, keeps at most `room` octets of it, and returns how many were read.
    pub fn fill<S: Source>(&mut self, input: &mut S, room: usize) -> Result<usize, Failed>
        requires { S.faults input.old < last_count }
        ensures octets { IfOk result (λ count. (octets : List ℕ) × Consumes (S.left input.old) (S.left input.new) octets × (length octets ≡ count) × (self.new ≡ take room octets)) }
        ensures end { IfOk result (λ count. count ≡ 0 → IsAtEnd (S.left input.new)) }
        ensures quiet { OnOk result (S.faults input.new ≡ S.faults input.old) }
        ensures kept { OnErr result (Keeps (S.left input.old) (S.left input.new)) }
        ensures failed { OnErr result (S.faults input.old < S.faults input.new) }
        ensures nothing { OnErr result (self.new ≡ []) }
    {
        self.at = 0;
        self.end = 0;
        let count = input.read(&mut self.octets)?;
        self.end = count.min(room);
        Ok(count)
    }
}

/// Returns the index of the first LF.
fn line_end(octets: &[u8]) -> Option<usize>
    ensures { MatchOption result (HasNoEnd octets.now) (λ i. (i < length octets.now) × HasNoEnd (take i octets.now) × (slice_index octets.now i ≡ 10)) }
{
    memchr(b'\n', octets)
}

/// Appends a part to a line, up to the number of octets that are kept of a line.
fn keep(line: &mut Octets, part: &[u8]) -> M<()>
    requires { length line.old ≤ LINE_LIMIT + 2 }
    ensures ok { OnOk result (line.new ≡ kept (line.old ++ part.now)) }
    ensures err { OnErr result (line.new ≡ line.old) }
    ensures short { length line.new ≤ LINE_LIMIT + 2 }
    ensures plain { HasNoEnd line.old → HasNoEnd part.now → HasNoEnd line.new }
{
    let room = KEPT - line.len();
    if part.len() <= room {
        line.append(part)
    } else {
        line.append(&part[..room])
    }
}

/// Moves the octets before the first LF to a line and drops the LF, or moves all if there is none. Returns whether
/// there was one.
pub fn take_part(unread: &mut Unread, line: &mut Octets) -> M<bool>
    requires { length line.old ≤ LINE_LIMIT + 2 }
    ensures short { length line.new ≤ LINE_LIMIT + 2 }
    ensures plain { HasNoEnd line.old → HasNoEnd line.new }
    ensures part { IfOk result (λ ended. TakesPart ended unread.old line.old unread.new line.new) }
    ensures shorter { length unread.new ≤ length unread.old }
{
    let octets = unread.as_slice();
    match line_end(octets) {
        None => {
            keep(line, octets)?;
            let count = octets.len();
            unread.skip(count);
            Ok(false)
        }
        Some(i) => {
            keep(line, &octets[..i])?;
            unread.skip(i + 1);
            Ok(true)
        }
    }
}
