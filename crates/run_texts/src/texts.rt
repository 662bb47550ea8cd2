//! Both outputs of a run, as far as they are produced and not yet written.
ghost use Rattle.std.specs.Prelude.{◌≡◌, [], IfOk};

use std::alloc::Global;
use wire_base::{M, Octets};

/// The octets of the frames and of the report that are still to be written.
#[derive(Drop)]
pub struct Texts {
    pub frames: Octets,
    pub report: Octets,
}

impl Texts {
    /// Creates empty outputs.
    pub fn new(alloc: Global) -> Texts
        ensures frames { result.frames ≡ [] }
        ensures report { result.report ≡ [] }
    {
        Texts {
            frames: Octets::new(alloc),
            report: Octets::new(alloc),
        }
    }

    /// Creates empty outputs with room for that many octets of frames. Errors if the allocation fails.
    pub fn with_room(alloc: Global, room: usize) -> M<Texts>
        ensures frames { IfOk result (λ texts. texts.frames ≡ []) }
        ensures report { IfOk result (λ texts. texts.report ≡ []) }
    {
        Ok(Texts {
            frames: Octets::with_room(alloc, room)?,
            report: Octets::new(alloc),
        })
    }
}
