//! Text that is read from a source in chunks and returned line by line.
ghost use Rattle.std.specs.Prelude.{◌≡◌, ◌<◌, ◌≤◌, ◌-◌, ◌+◌, ◌++◌, ◌*◌, ◌^◌, ℕ, List, [], true, false, IfOk, OnOk, OnErr, length, take, min, nat_lt};
ghost use Rattle.std.specs.Io.KnownBytes.{Consumes, IsAtEnd, Keeps};
ghost use Rattle.std.specs.Str.Lines.{strip_carriage_return};
ghost use Rattle.wire_base.specs.Causes.{last_count};
ghost use Rattle.wire_base.specs.declared.limits.TheConstants.{LINE_LIMIT, TEXT_LIMIT};
ghost use Rattle.command_drive.specs.Reading.{End};
ghost use Rattle.command_drive.specs.Lines.{HasNoEnd, shown};

mod unread;

use crate::items::{Close, Found, Items};
use crate::whole::READ_SIZE;
use std::alloc::Global;
use std::mem;
use unread::{Unread, take_part};
use wire_base::limits::{LINE_LIMIT, TEXT_LIMIT};
use wire_base::{Failed, M, Octets, Source};

/// How many octets of a line are kept: one more than the line limit, and its CR.
const KEPT: usize = LINE_LIMIT + 2;

/// Drops the CR at the end of a line, if there is one.
fn drop_cr(line: &mut Octets)
    ensures { line.new ≡ strip_carriage_return line.old }
{
    let len = line.len();
    if let Some(13) = line.as_slice().last() {
        line.truncate(len - 1);
    }
}

/// Truncates a line after the first octet above the limit.
#[tactic(auto, unfolding(crate::specs::Lines::shown))]
fn cut(line: &mut Octets)
    ensures { line.new ≡ shown line.old }
{
    line.truncate(LINE_LIMIT + 1);
}

/// A text that is read line by line: at most 67,108,864 octets, each line up to LF, before which one CR is dropped. The
/// last line may lack its LF.
///
/// It holds one chunk of the text and one line. Of a line of more than 16,384 octets it returns the first 16,385.
#[derive(Drop)]
pub struct LineReader {
    unread: Unread,
    front: Octets,
    line: Octets,
    room: usize,
    over: bool,
    short: bool,
    waits: bool,
    ghost plain: { HasNoEnd front },
    ghost kept: { length front ≤ LINE_LIMIT + 2 },
    ghost within: { room ≤ TEXT_LIMIT },
}

impl LineReader {
    ghost use Rattle.command_drive.specs.Lines.{lines_read, lines_left};

    /// Returns a reader that has read nothing.
    pub fn new(alloc: Global) -> M<Self>
        ensures fresh { IfOk result (λ made. (end : End) (octets : List ℕ) → lines_read (made.front ++ made.unread) made.room made.over end octets ≡ lines_read [] TEXT_LIMIT false end octets) }
        ensures idle { IfOk result (λ made. made.waits ≡ false) }
        ensures few { IfOk result (λ made. lines_left (made.front ++ made.unread) made.room made.short < 2 ^ 30) }
    {
        Ok(LineReader {
            unread: Unread::new(alloc)?,
            front: Octets::new(alloc),
            line: Octets::new(alloc),
            room: TEXT_LIMIT,
            over: false,
            short: false,
            waits: false,
        })
    }

    /// Reads more from the source if nothing remains.
    fn refill<S: Source>(&mut self, input: &mut S) -> Result<usize, Failed>
        requires { S.faults input.old < last_count }
        ensures octets { IfOk result (λ count. (octets : List ℕ) × Consumes (S.left input.old) (S.left input.new) octets × (length octets ≡ count) × (self.new.unread ≡ take self.old.room octets)) }
        ensures room { IfOk result (λ count. self.new.room ≡ self.old.room - count) }
        ensures over { IfOk result (λ count. self.new.over ≡ nat_lt self.old.room count) }
        ensures front { self.new.front ≡ self.old.front }
        ensures waits { self.new.waits ≡ self.old.waits }
        ensures short { IfOk result (λ count. self.new.short ≡ true → count < self.old.room) }
        ensures end { IfOk result (λ count. count ≡ 0 → IsAtEnd (S.left input.new)) }
        ensures quiet { OnOk result (S.faults input.new ≡ S.faults input.old) }
        ensures kept { OnErr result (Keeps (S.left input.old) (S.left input.new)) }
        ensures failed { OnErr result (S.faults input.old < S.faults input.new) }
    {
        let room = self.room;
        let count = self.unread.fill(input, room)?;
        self.over = count > room;
        self.room -= count.min(room);
        self.short = count < room.min(READ_SIZE);
        Ok(count)
    }

    /// Makes the collected octets the current line, once the end of the line was found.
    fn give(&mut self)
        ensures line { self.new.line ≡ self.old.front }
        ensures front { self.new.front ≡ [] }
        ensures unread { self.new.unread ≡ self.old.unread }
        ensures room { self.new.room ≡ self.old.room }
        ensures over { self.new.over ≡ self.old.over }
        ensures short { self.new.short ≡ self.old.short }
        ensures waits { self.new.waits ≡ self.old.waits }
    {
        self.line.truncate(0);
        mem::swap(&mut self.front, &mut self.line);
    }
}

impl<S: Source> Items<Octets, S> for LineReader {
    ghost use Rattle.std.specs.Prelude.{◌++◌};
    ghost use Rattle.command_drive.specs.Lines.{lines_read, lines_left};

    ghost reads = { λ s end octets. lines_read (s.front ++ s.unread) s.room s.over end octets };

    ghost last = { λ s. s.line };

    ghost most = { λ s. lines_left (s.front ++ s.unread) s.room s.short };

    ghost waits = { λ s. s.waits };

    fn next(&mut self, _alloc: Global, input: &mut S) -> M<Found> {
        self.waits = false;
        'parts: loop {
            if take_part(&mut self.unread, &mut self.front)? {
                self.give();
                drop_cr(&mut self.line);
                cut(&mut self.line);
                return Ok(Found::Item);
            }
            if self.over {
                return Ok(Found::Closed(Close::TooLong));
            }
            if self.short {
                self.short = false;
                self.waits = true;
                return Ok(Found::Waits);
            }
            let Ok(count) = self.refill(input) else {
                return Ok(Found::Failed);
            };
            if count == 0 {
                if self.front.len() == 0 {
                    return Ok(Found::Closed(Close::Ended));
                }
                self.give();
                cut(&mut self.line);
                return Ok(Found::Last);
            }
        }
    }

    fn item(&self) -> &Octets {
        &self.line
    }
}
