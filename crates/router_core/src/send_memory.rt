ghost use Rattle.std.specs.Prelude.{◌≡◌, []};

use crate::framing::ROW;
use std::alloc::Global;
use std::mem;

/// A buffer for sending. A caller that keeps it from one send to the next saves the allocations of each send.
#[derive(Drop)]
pub struct SendMemory {
    rows: Vec<[u8; ROW]>,
}

impl SendMemory {
    /// Creates a buffer without capacity. Does not allocate.
    pub fn new(alloc: Global) -> Self {
        SendMemory {
            rows: Vec::new(alloc),
        }
    }

    /// Returns an empty list of entries as a PSNP lists them.
    pub(crate) fn take_rows(&mut self) -> Vec<[u8; ROW]>
        ensures { result.items ≡ [] }
    {
        let alloc = *self.rows.allocator();
        let mut rows = mem::replace(&mut self.rows, Vec::new(alloc));
        rows.clear();
        rows
    }

    /// Takes back the list of entries.
    pub(crate) fn keep(&mut self, rows: Vec<[u8; ROW]>) {
        self.rows = rows;
    }
}
