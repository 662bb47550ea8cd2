//! Contents of LSPs, and topologies, that several LSDBs share.
ghost use Rattle.std.specs.Prelude.{◌≡◌, ◌<◌, IfOk};

use crate::keys::system_key;
use crate::topologies::Topologies;
use same_octets::are_same_octets;
use std::alloc::Global;
use std::cell::RefCell;
use std::rc::Rc;
use wire_base::{Content, LspId, M};

/// For how many LSP IDs the last content is remembered. Where two share a place, the later one takes it.
const PLACES: usize = 4_096;

/// The contents of LSPs that were stored last, and the topology that was computed last.
///
/// The routers of a domain mostly store the same LSPs. LSDBs that have the same `Contents` store equal contents of an LSP once, and
/// routers whose LSDBs advertise the same store their topology once.
#[derive(Drop)]
pub struct Contents {
    last: Rc<RefCell<Vec<Content>>>,
    topologies: Topologies,
}

/// Returns the place where the last content of an LSP ID is remembered.
fn place_of(id: &LspId) -> usize
    ensures { result < 4096 }
{
    let key = system_key(id.system);
    // Systems that are numbered in order have places of their own.
    let folded = (key ^ (key >> 12) ^ (key >> 24) ^ u64::from(id.fragment)) as usize;
    folded % PLACES
}

/// Returns the content with those octets, in the memory of the last content at that place where the two are equal.
fn content_at(alloc: Global, last: &mut Vec<Content>, place: usize, octets: &[u8]) -> M<Content>
    ensures { IfOk result (λ content. content ≡ octets.now) }
{
    'places: while last.len() <= place {
        last.push(Content::new())?;
    }
    if !are_same_octets(last[place].as_slice(), octets) {
        last[place] = Content::from_slice(alloc, octets)?;
    }
    last[place].share()
}

impl Contents {
    /// Creates contents of which none is known.
    pub fn new(alloc: Global) -> M<Self> {
        Ok(Contents {
            last: Rc::new(alloc, RefCell::new(Vec::new(alloc)))?,
            topologies: Topologies::new(alloc)?,
        })
    }

    /// Returns the same contents, for another LSDB.
    pub fn share(&self) -> M<Self> {
        Ok(Contents {
            last: self.last.clone()?,
            topologies: self.topologies.share()?,
        })
    }

    /// Returns the topologies.
    pub(crate) fn topologies(&self) -> &Topologies {
        &self.topologies
    }

    /// Returns the content of an LSP with those octets. If the last content of that LSP ID is equal, the two are stored once.
    pub(crate) fn content(&self, alloc: Global, id: &LspId, octets: &[u8]) -> M<Content>
        ensures { IfOk result (λ content. content ≡ octets.now) }
    {
        match self.last.try_borrow_mut() {
            Ok(mut last) => content_at(alloc, &mut *last, place_of(id), octets),
            Err(_) => Content::from_slice(alloc, octets),
        }
    }
}
