//! The BFR-NBRs of bit positions: a list for each position, all of them stored one after another.
ghost use Rattle.std.specs.Prelude.{◌≡◌, ◌<◌, ◌≤◌, ◌+◌, ◌++◌, ◌-◌, ◌∷◌, [], length, replicate, slice_index_or, IfOk, OnOk, OnErr};
ghost use Rattle.wire_base.specs.FirstLists.{AreStarts, extend_last};

use crate::memory::{M, Memory};
use crate::view::First;
use std::alloc::Global;
use std::marker::Model;

/// Lists of BFR-NBRs, modeled as the list of these lists. The BFR-NBRs of all lists are stored one after another, with the index
/// at which each list starts, so that a list takes four octets and ten for each BFR-NBR. There are at most 2^32 BFR-NBRs.
#[derive(Drop)]
pub struct FirstLists {
    routers: Vec<First>,
    starts: Vec<u32>,
}

impl Model for FirstLists {
    ghost use Rattle.std.specs.Prelude.{List, length};
    ghost use Rattle.wire_base.specs.declared.view.First.{First};
    ghost use Rattle.wire_base.specs.FirstLists.{AreStarts, lists_in};

    ghost Value = { List (List First) };

    ghost view = { λ l. lists_in l.starts.items l.routers.items };

    ghost invariant = { λ l. AreStarts l.starts.items (length l.routers.items) };
}

impl FirstLists {
    /// Creates no lists. Does not allocate.
    pub fn new(alloc: Global) -> Self
        ensures { result ≡ [] }
    {
        FirstLists {
            routers: Vec::new(alloc),
            starts: Vec::new(alloc),
        }
    }

    /// Creates no lists, with room for that many lists of one BFR-NBR each.
    pub fn with_room(alloc: Global, lists: usize) -> M<Self>
        ensures { IfOk result (λ made. made ≡ []) }
    {
        Ok(FirstLists {
            routers: Vec::with_capacity(alloc, lists)?,
            starts: Vec::with_capacity(alloc, lists)?,
        })
    }

    /// Returns the number of lists.
    #[tactic(auto, using(crate::proofs::FirstListLaws::lists_length))]
    pub fn len(&self) -> usize
        ensures { result ≡ length self.now }
    {
        self.starts.as_slice().len()
    }

    /// Returns the list at an index from 0; an empty one if there is no such list.
    #[tactic(auto, using(crate::proofs::FirstListLaws::list_at, crate::proofs::FirstListLaws::none_after))]
    pub fn at(&self, place: usize) -> &[First]
        ensures { result.now ≡ slice_index_or self.now place [] }
    {
        let starts = self.starts.as_slice();
        if place >= starts.len() {
            return &[];
        }
        let end = end_of(starts, place, self.routers.as_slice().len());
        &self.routers.as_slice()[starts[place] as usize..end]
    }

    /// Appends an empty list. Errors if an allocation fails, or if there are already 2^32 BFR-NBRs.
    #[tactic(auto, using(crate::proofs::FirstListLaws::begun, crate::proofs::FirstListLaws::are_begun))]
    pub fn begin(&mut self) -> M<()>
        ensures ok { OnOk result (self.new ≡ self.old ++ [] ∷ []) }
        ensures err { OnErr result (self.new ≡ self.old) }
    {
        let Ok(start) = u32::try_from(self.routers.as_slice().len()) else {
            return Err(Memory);
        };
        self.starts.push(start)?;
        Ok(())
    }

    /// Appends a BFR-NBR to the last list; if there is no list, to none.
    #[tactic(auto, using(crate::proofs::FirstListLaws::extended, crate::proofs::FirstListLaws::are_extended))]
    pub fn push(&mut self, first: First) -> M<()>
        ensures ok { OnOk result (self.new ≡ extend_last first self.old) }
        ensures err { OnErr result (self.new ≡ self.old) }
    {
        self.routers.push(first)?;
        Ok(())
    }
}

/// Returns the index before which the list at index `place` ends, of all lists with these starts; `count` is where the last ends.
fn end_of(starts: &[u32], place: usize, count: usize) -> usize
    requires starts { AreStarts starts.now count }
    requires place { place < length starts.now }
    ensures end { result ≡ slice_index_or starts.now (place + 1) count }
    ensures order { slice_index_or starts.now place 0 ≤ result }
    ensures within { result ≤ count }
{
    match starts.get(place + 1) {
        Some(next) => *next as usize,
        None => count,
    }
}

/// A list of BFR-NBRs for each bit position, modeled as the list of these lists. It stores those of the first positions and how many
/// positions there are; each position after the stored ones has no BFR-NBR. Most domains use few of the positions of a bit string.
#[derive(Drop)]
pub struct PositionRows {
    stored: FirstLists,
    count: u16,
}

impl Model for PositionRows {
    ghost use Rattle.std.specs.Prelude.{List, ◌++◌, ◌-◌, length, replicate, []};
    ghost use Rattle.wire_base.specs.declared.view.First.{First};

    ghost Value = { List (List First) };

    ghost view = { λ r. r.stored ++ replicate (r.count - length r.stored) [] };
}

impl PositionRows {
    /// Creates the lists of `count` positions from those of the first ones; all others are empty.
    pub fn new(stored: FirstLists, count: u16) -> Self
        ensures { result ≡ stored ++ replicate (count - length stored) [] }
    {
        PositionRows { stored, count }
    }

    /// Returns the lists that are stored, those of the first positions; all others are empty.
    pub fn stored(&self) -> &FirstLists
        ensures { self.now ≡ result.now ++ replicate (length self.now - length result.now) [] }
    {
        &self.stored
    }

    /// Returns the BFR-NBRs of the position at an index from 0; none if there is no such position.
    pub fn at(&self, place: usize) -> &[First]
        ensures { result.now ≡ slice_index_or self.now place [] }
    {
        self.stored.at(place)
    }
}
