//! Counts of I/O errors for files and sinks, and for sinks also of writes that accepted no octet.
ghost use Rattle.std.specs.Prelude.{◌≡◌, false};
ghost use Rattle.std.specs.Io.{ReadsAtMost, WritesAtMost};
ghost use Rattle.wire_base.specs.Causes.{HasCause, CountsZeros, after_write, after_finish};
ghost use Rattle.tool_host.specs.Opened.{IsPassedOn};

use std::io;
use wire_base::Failed;

/// Returns the result of a read. It is an error exactly where the file's read failed, interrupted reads included. It is
/// the end of the file exactly where the file returned no octets.
pub fn count_read(faults: &mut u64, answer: io::Result<usize>) -> Result<usize, Failed>
    ensures same { IsPassedOn answer result }
    ensures cause { HasCause faults.old faults.new result }
{
    let Ok(count) = answer else {
        *faults = faults.saturating_add(1);
        return Err(Failed);
    };
    Ok(count)
}

/// What a sink has counted, and whether it is unfinished.
#[derive(Drop)]
pub struct Tally {
    pub faults: u64,
    pub zeros: u64,
    pub unfinished: bool,
}

impl Tally {
    /// Returns counters that have counted nothing.
    pub fn new() -> Self
        ensures { result ≡ record { faults = 0; zeros = 0; unfinished = false } }
    {
        Tally {
            faults: 0,
            zeros: 0,
            unfinished: false,
        }
    }

    /// Counts the result of a write of that chunk, and returns it. It is an error exactly where the file's write
    /// failed.
    pub fn count_write(&mut self, piece: &[u8], answer: io::Result<usize>) -> Result<usize, Failed>
        requires { WritesAtMost answer piece.now }
        ensures same { IsPassedOn answer result }
        ensures bound { WritesAtMost result piece.now }
        ensures cause { HasCause self.old.faults self.new.faults result }
        ensures nothing { CountsZeros self.old.zeros self.new.zeros result piece.now }
        ensures open { after_write self.old.unfinished result self.new.unfinished }
    {
        let Ok(count) = answer else {
            self.faults = self.faults.saturating_add(1);
            return Err(Failed);
        };
        if count > 0 {
            self.unfinished = true;
        } else if !piece.is_empty() {
            self.zeros = self.zeros.saturating_add(1);
        }
        Ok(count)
    }

    /// Counts the result of a flush, and returns it.
    pub fn count_flush(&mut self, answer: io::Result<()>) -> Result<(), Failed>
        ensures same { IsPassedOn answer result }
        ensures cause { HasCause self.old.faults self.new.faults result }
        ensures nothing { self.new.zeros ≡ self.old.zeros }
        ensures open { after_finish self.old.unfinished result self.new.unfinished }
    {
        if answer.is_err() {
            self.faults = self.faults.saturating_add(1);
            return Err(Failed);
        }
        self.unfinished = false;
        Ok(())
    }
}
