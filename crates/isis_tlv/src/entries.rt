//! Iterators over TLVs, and over the entries of the TLVs 22, 135 and 9, for use in a `for` loop.
//!
//! An item is a TLV or an entry, or the error of invalid octets. An error is the last item: after an invalid entry nothing
//! determines where the next one begins, and an iterator that repeated the error would never end.
ghost use Rattle.std.specs.Prelude.{◌≡◌, List, map};
ghost use Rattle.std.specs.Result.{result_ok};
ghost use Rattle.std.specs.List.{filter_map, flat_map, AllByRecursion};
ghost use Rattle.std.specs.Iterator.{YieldsFirstBy, item_count};
ghost use Rattle.wire_base.specs.model.Tlv.{ReachFits, reach, reach_at, PrefixFits, prefix, prefix_at, SummaryFits, row, row_at, entries_of, one_tlv_at, tlvs_before};
ghost use Rattle.wire_base.specs.model.Tlv.{Reach as ReachItem};
ghost use Rattle.wire_base.specs.model.Tlv.{Prefix as PrefixItem};
ghost use Rattle.wire_base.specs.declared.triple.Summary.{Summary as Entry};
ghost use Rattle.isis_tlv.specs.Views.{item, reach_of, prefix_of};
ghost use Rattle.isis_tlv.specs.Walked.{walked, seen, good, itself, Steps, HasItsBits};

use crate::prefixes::{PrefixEntry, read_prefix};
use crate::reaches::{Reach, read_reach};
use crate::summaries::summary_front;
use crate::walk::{Tlv, TlvWalk};
use std::marker::Model;
use wire_base::{Summary, TlvFault};

/// An iterator over TLVs. It is modeled as the octets that are still to be read.
#[derive(Drop)]
pub struct TlvIter<'a> {
    walk: TlvWalk<'a>,
}

impl<'a> Model for TlvIter<'a> {
    ghost use Rattle.std.specs.Prelude.{List, ℕ};

    ghost Value = { List ℕ };

    ghost view = { λ i. i.walk };
}

impl<'a> IntoIterator for TlvWalk<'a> {
    ghost use Rattle.std.specs.Prelude.{◌≡◌};

    type Item = Result<Tlv<'a>, TlvFault>;

    type IntoIter = TlvIter<'a>;

    ghost into_iter_gives = { λ walk given. given ≡ walk };

    /// Returns an iterator over the TLVs that are still to be read.
    fn into_iter(self) -> TlvIter<'a>
        ensures start { result ≡ self.entry }
        // They are those before an overrun.
        ensures before { filter_map result_ok (walked one_tlv_at self.entry) ≡ tlvs_before self.entry }
    {
        TlvIter { walk: self }
    }
}

impl<'a> TlvIter<'a> {
    fn step(&mut self) -> Option<Result<Tlv<'a>, TlvFault>>
        ensures exact { Steps item one_tlv_at self.old result self.new }
    {
        match self.walk.next() {
            Ok(Some(tlv)) => Some(Ok(tlv)),
            Ok(None) => None,
            Err(fault) => {
                self.walk = TlvWalk::new(&[]);
                Some(Err(fault))
            }
        }
    }
}

impl<'a> Iterator for TlvIter<'a> {
    type Item = Result<Tlv<'a>, TlvFault>;

    // Returns the first of the remaining items, and leaves the others.
    ghost next_gives = { YieldsFirstBy (seen item) (walked one_tlv_at) };

    ghost remaining = { item_count (walked one_tlv_at) };

    /// Returns the next TLV; Overrun if one octet is left or a length exceeds the octets after it, after which nothing is left;
    /// None at the end.
    fn next(&mut self) -> Option<Result<Tlv<'a>, TlvFault>> {
        self.step()
    }
}

/// An iterator over the entries of a TLV 22 (RFC 5305, 3). It is modeled as the octets of the value that are still to be read.
#[derive(Drop)]
pub struct ReachWalk<'a> {
    rest: &'a [u8],
}

impl<'a> Model for ReachWalk<'a> {
    ghost use Rattle.std.specs.Prelude.{List, ℕ};

    ghost Value = { List ℕ };

    ghost view = { λ w. w.rest.now };
}

impl<'a> ReachWalk<'a> {
    /// Creates an iterator over the entries of a value.
    pub fn new(value: &'a [u8]) -> ReachWalk<'a>
        ensures start { result ≡ value.now }
        // Its entries are those before the first invalid octets.
        ensures entries { filter_map result_ok (walked reach_at value.now) ≡ entries_of reach_at value.now }
        // Entries that are encoded one after the other are its items, and there is no error.
        ensures again { (rs : List ReachItem) → AllByRecursion ReachFits rs → value.now ≡ flat_map reach rs → walked reach_at value.now ≡ map good rs }
    {
        ReachWalk { rest: value }
    }

    fn step(&mut self) -> Option<Result<Reach<'a>, TlvFault>>
        ensures exact { Steps reach_of reach_at self.old result self.new }
    {
        if self.rest.is_empty() {
            return None;
        }
        match read_reach(self.rest) {
            Ok((entry, size)) => {
                self.rest = &self.rest[size..];
                Some(Ok(entry))
            }
            Err(fault) => {
                self.rest = &[];
                Some(Err(fault))
            }
        }
    }
}

impl<'a> Iterator for ReachWalk<'a> {
    type Item = Result<Reach<'a>, TlvFault>;

    // Returns the first of the remaining items, and leaves the others.
    ghost next_gives = { YieldsFirstBy (seen reach_of) (walked reach_at) };

    ghost remaining = { item_count (walked reach_at) };

    /// Returns the next entry; the error of invalid octets, after which nothing is left; None at the end.
    fn next(&mut self) -> Option<Result<Reach<'a>, TlvFault>> {
        self.step()
    }
}

/// An iterator over the entries of a TLV 135 (RFC 5305, 4). It is modeled as the octets of the value that are still to be read.
#[derive(Drop)]
pub struct PrefixWalk<'a> {
    rest: &'a [u8],
}

impl<'a> Model for PrefixWalk<'a> {
    ghost use Rattle.std.specs.Prelude.{List, ℕ};

    ghost Value = { List ℕ };

    ghost view = { λ w. w.rest.now };
}

impl<'a> PrefixWalk<'a> {
    /// Creates an iterator over the entries of a value.
    pub fn new(value: &'a [u8]) -> PrefixWalk<'a>
        ensures start { result ≡ value.now }
        // Its entries are those before the first invalid octets.
        ensures entries { filter_map result_ok (walked prefix_at value.now) ≡ entries_of prefix_at value.now }
        // Entries that are encoded one after the other are its items, and there is no error.
        ensures again { (ps : List PrefixItem) → AllByRecursion PrefixFits ps → value.now ≡ flat_map prefix ps → walked prefix_at value.now ≡ map good ps }
    {
        PrefixWalk { rest: value }
    }

    fn step(&mut self) -> Option<Result<PrefixEntry<'a>, TlvFault>>
        ensures exact { Steps prefix_of prefix_at self.old result self.new }
        ensures bits { HasItsBits result }
    {
        if self.rest.is_empty() {
            return None;
        }
        match read_prefix(self.rest) {
            Ok((entry, size)) => {
                self.rest = &self.rest[size..];
                Some(Ok(entry))
            }
            Err(fault) => {
                self.rest = &[];
                Some(Err(fault))
            }
        }
    }
}

impl<'a> Iterator for PrefixWalk<'a> {
    type Item = Result<PrefixEntry<'a>, TlvFault>;

    // Returns the first of the remaining items, and leaves the others.
    ghost next_gives = { λ old given new. YieldsFirstBy (seen prefix_of) (walked prefix_at) old given new × HasItsBits given };

    ghost remaining = { item_count (walked prefix_at) };

    /// Returns the next entry; the error of invalid octets, after which nothing is left; None at the end.
    fn next(&mut self) -> Option<Result<PrefixEntry<'a>, TlvFault>> {
        self.step()
    }
}

/// An iterator over the LSP entries of a TLV 9 (ISO/IEC 10589, 9.10). It is modeled as the octets that are still to be read.
#[derive(Drop)]
pub struct SummaryWalk<'a> {
    rest: &'a [u8],
}

impl<'a> Model for SummaryWalk<'a> {
    ghost use Rattle.std.specs.Prelude.{List, ℕ};

    ghost Value = { List ℕ };

    ghost view = { λ w. w.rest.now };
}

impl<'a> SummaryWalk<'a> {
    /// Creates an iterator over the entries of a value.
    pub fn new(value: &'a [u8]) -> SummaryWalk<'a>
        ensures start { result ≡ value.now }
        // Its entries are those before the first invalid octets.
        ensures entries { filter_map result_ok (walked row_at value.now) ≡ entries_of row_at value.now }
        // Entries that are encoded one after the other are its items, and there is no error.
        ensures again { (rows : List Entry) → AllByRecursion SummaryFits rows → value.now ≡ flat_map row rows → walked row_at value.now ≡ map good rows }
    {
        SummaryWalk { rest: value }
    }

    fn step(&mut self) -> Option<Result<Summary, TlvFault>>
        ensures exact { Steps itself row_at self.old result self.new }
    {
        if self.rest.is_empty() {
            return None;
        }
        match summary_front(self.rest) {
            Ok((entry, rest)) => {
                self.rest = rest;
                Some(Ok(entry))
            }
            Err(fault) => {
                self.rest = &[];
                Some(Err(fault))
            }
        }
    }
}

impl<'a> Iterator for SummaryWalk<'a> {
    type Item = Result<Summary, TlvFault>;

    // Returns the first of the remaining items, and leaves the others.
    ghost next_gives = { YieldsFirstBy (seen itself) (walked row_at) };

    ghost remaining = { item_count (walked row_at) };

    /// Returns the next entry; the error of invalid octets, after which nothing is left; None at the end.
    fn next(&mut self) -> Option<Result<Summary, TlvFault>> {
        self.step()
    }
}
