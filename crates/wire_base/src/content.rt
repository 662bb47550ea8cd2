//! Octets that do not change, and that several owners share.
ghost use Rattle.std.specs.Prelude.{◌≡◌, [], length, IfOk};
ghost use Rattle.wire_base.specs.Held.{octets_of};

use crate::lists::Octets;
use crate::memory::M;
use std::alloc::Global;
use std::marker::Model;
use std::rc::Rc;

/// Where the octets of a content are stored.
enum Held {
    /// Nowhere; there are none.
    Empty,
    /// In a vector that each content with these octets shares.
    Shared(Rc<Vec<u8>>),
}

// Written out, so that a proof about a value that holds a content does not see where its octets are stored.
impl Drop for Held {
    fn drop(self) {
        match self {
            Held::Empty => (),
            Held::Shared(octets) => drop(octets),
        }
    }
}

/// The octets of an LSP's TLVs, modeled in contracts as a list of numbers below 256. They do not change, and contents that `share`
/// returns are stored once.
#[derive(Drop)]
pub struct Content {
    held: Held,
}

impl Model for Content {
    ghost use Rattle.std.specs.Prelude.{List, ℕ};
    ghost use Rattle.wire_base.specs.Held.{octets_of};

    ghost Value = { List ℕ };

    ghost view = { λ c. octets_of c.held };
}

impl Content {
    /// Creates an empty content.
    pub fn new() -> Self
        ensures { result ≡ [] }
    {
        Content { held: Held::Empty }
    }

    /// Creates the content with those octets. Errors if an allocation fails.
    pub fn from_octets(alloc: Global, octets: Octets) -> M<Self>
        ensures { IfOk result (λ content. content ≡ octets) }
    {
        Ok(Content {
            held: Held::Shared(Rc::new(alloc, octets.into_vec())?),
        })
    }

    /// Creates a content of a copy of those octets. Errors if an allocation fails.
    pub fn from_slice(alloc: Global, octets: &[u8]) -> M<Self>
        ensures { IfOk result (λ content. content ≡ octets.now) }
    {
        Content::from_octets(alloc, Octets::from_slice(alloc, octets)?)
    }

    /// Returns an equal content in the same memory. Errors if there are too many of them.
    pub fn share(&self) -> M<Self>
        ensures { IfOk result (λ shared. shared ≡ self.now) }
    {
        match &self.held {
            Held::Empty => Ok(Content::new()),
            Held::Shared(octets) => Ok(Content {
                held: Held::Shared(octets.clone()?),
            }),
        }
    }

    /// Returns the octets as a slice.
    pub fn as_slice(&self) -> &[u8]
        ensures { result.now ≡ self.now }
    {
        match &self.held {
            Held::Empty => &[],
            Held::Shared(octets) => octets.as_ref().as_slice(),
        }
    }

    /// Returns the number of octets.
    pub fn len(&self) -> usize
        ensures { result ≡ length self.now }
    {
        self.as_slice().len()
    }
}
