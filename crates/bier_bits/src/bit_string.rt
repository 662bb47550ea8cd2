ghost use Rattle.std.specs.Prelude.{◌≡◌, ◌≢◌, ◌≤◌, ◌+◌, ◌*◌, ◌==◌, [], ◌∷◌, true, false, length, IsTrue, IfSome, MatchOption};
ghost use Rattle.wire_base.specs.model.BitSet.{has_member, with_member, first_member, IsWithin, intersection, difference, union, set_of, octets_of};
ghost use Rattle.bier_bits.specs.Sets.{is_width, AreApartBelow};

use crate::octets::{read_words, write_words};
use crate::words::{
    Both, Either, Without, clear, count, cut, first_place, first_shared, join, take_place,
};
use std::marker::Model;

/// A BitString of 64 W bits, modeled as a set of bit positions, which are counted from 1 to 64 W (RFC 8279, 3; RFC 8296,
/// 2.1.2). W is 1, 2, 4, 8, 16, 32 or 64, for the seven lengths that a BIER header can carry.
///
/// It holds W words of 64 bits: position p is bit (p - 1) mod 64 of word (p - 1) div 64. A further word marks those that may
/// be nonzero, so that the operations on sparse sets visit only these.
#[derive(Drop)]
pub struct BitString<const W: usize> {
    lanes: [u64; W],
    marks: u64,
}

impl<const W: usize> Model for BitString<W> {
    ghost use Rattle.std.specs.Prelude.{List, ℕ};
    ghost use Rattle.bier_bits.specs.Sets.{members_of, AreMarked};

    ghost Value = { List ℕ };

    ghost view = { λ b. members_of W b.lanes };

    ghost invariant = { λ b. AreMarked b.marks b.lanes };
}

impl<const W: usize> BitString<W> {
    /// Creates the empty BitString.
    pub fn zero() -> Self
        requires { IsTrue (is_width W) }
        ensures { result ≡ [] }
    {
        BitString {
            lanes: [0; W],
            marks: 0,
        }
    }

    /// Returns an equal BitString.
    pub fn copy(&self) -> Self
        ensures { result ≡ self.now }
    {
        BitString {
            lanes: self.lanes,
            marks: self.marks,
        }
    }

    /// Returns an equal BitString whose width parameter has the same value under another name.
    pub(crate) fn as_wide<const V: usize>(&self) -> BitString<V>
        requires width { IsTrue (is_width W) }
        requires same { V ≡ W }
        ensures { result ≡ self.now }
    {
        let mut lanes = [0; V];
        lanes.copy_from_slice(&self.lanes);
        BitString {
            lanes,
            marks: self.marks,
        }
    }

    /// Returns the width in bits, which is also the highest position. The set is an ascending list of positions from 1 to
    /// the width.
    #[tactic(auto, using(crate::proofs::Widths::width_le))]
    pub fn width(&self) -> u16
        requires { IsTrue (is_width W) }
        ensures value { result ≡ 64 * W }
        ensures ordered { IsWithin 0 (64 * W) self.now }
    {
        let _lanes = &self.lanes;
        (64 * W) as u16
    }

    /// Sets the bit at position `bp`, from 1 to the width.
    #[tactic(auto, using(crate::proofs::Widths::width_le))]
    pub fn set(&mut self, bp: u16)
        requires width { IsTrue (is_width W) }
        requires low { 1 ≤ bp }
        requires high { bp ≤ 64 * W }
        ensures { self.new ≡ with_member bp self.old }
    {
        let place = usize::from(bp - 1);
        self.lanes[place / 64] |= 1 << (place % 64);
        self.marks |= 1 << (place / 64);
    }

    /// Clears the bit at position `bp`, from 1 to the width.
    pub fn remove(&mut self, bp: u16)
        requires width { IsTrue (is_width W) }
        requires low { 1 ≤ bp }
        requires high { bp ≤ 64 * W }
        ensures { self.new ≡ difference self.old (bp ∷ []) }
    {
        let place = usize::from(bp - 1);
        self.lanes[place / 64] &= !(1 << (place % 64));
    }

    /// Returns whether the bit at position `bp` is set. False outside 1 to the width.
    pub fn has(&self, bp: u16) -> bool
        requires { IsTrue (is_width W) }
        ensures { result ≡ has_member bp self.now }
    {
        if bp > self.width() || bp == 0 {
            return false;
        }
        let place = usize::from(bp - 1);
        self.lanes[place / 64] >> (place % 64) & 1 == 1
    }

    /// Returns the intersection.
    pub fn and(&self, other: &Self) -> Self
        requires { IsTrue (is_width W) }
        ensures { result ≡ intersection self.now other.now }
    {
        let mut lanes = [0; W];
        join::<Both>(&self.lanes, &other.lanes, &mut lanes);
        BitString {
            lanes,
            marks: self.marks & other.marks,
        }
    }

    /// Returns the positions of `self` that are not in `other`.
    pub fn and_not(&self, other: &Self) -> Self
        requires { IsTrue (is_width W) }
        ensures { result ≡ difference self.now other.now }
    {
        let mut lanes = [0; W];
        join::<Without>(&self.lanes, &other.lanes, &mut lanes);
        BitString {
            lanes,
            marks: self.marks,
        }
    }

    /// Clears all bits.
    #[tactic(auto, using(crate::proofs::Widths::width_le))]
    pub fn clear(&mut self)
        requires { IsTrue (is_width W) }
        ensures { self.new ≡ [] }
    {
        clear(&mut self.lanes, self.marks);
        self.marks = 0;
    }

    /// Clears the positions of the mask in place, and returns those that were set.
    #[tactic(auto, using(crate::proofs::Widths::width_le))]
    pub fn cut(&mut self, mask: &Self) -> Self
        requires { IsTrue (is_width W) }
        ensures taken { result ≡ intersection self.old mask.now }
        ensures left { self.new ≡ difference self.old mask.now }
    {
        let mut lanes = [0; W];
        let shared = self.marks & mask.marks;
        let marks = cut(
            &mut self.lanes,
            &mask.lanes,
            &mut lanes,
            self.marks,
            shared,
            0,
        );
        self.marks = marks.left;
        BitString {
            lanes,
            marks: marks.taken,
        }
    }

    /// Like `cut`, if the mask has no position below `bp` that is set in `self`: those words are skipped. The positions that were
    /// set become those of `taken`, in place of its previous ones.
    #[tactic(auto, using(crate::proofs::Widths::width_le))]
    pub fn cut_from_into(&mut self, mask: &Self, bp: u16, taken: &mut Self)
        requires width { IsTrue (is_width W) }
        requires low { 1 ≤ bp }
        requires high { bp ≤ 64 * W }
        requires apart { AreApartBelow bp self.old mask.now }
        ensures taken { taken.new ≡ intersection self.old mask.now }
        ensures left { self.new ≡ difference self.old mask.now }
    {
        let from = usize::from(bp - 1) / 64;
        let shared = self.marks & mask.marks;
        clear(&mut taken.lanes, taken.marks);
        let marks = cut(
            &mut self.lanes,
            &mask.lanes,
            &mut taken.lanes,
            self.marks,
            shared,
            from,
        );
        self.marks = marks.left;
        taken.marks = marks.taken;
    }

    /// Returns the union.
    pub fn or(&self, other: &Self) -> Self
        requires { IsTrue (is_width W) }
        ensures { result ≡ union self.now other.now }
    {
        let mut lanes = [0; W];
        join::<Either>(&self.lanes, &other.lanes, &mut lanes);
        BitString {
            lanes,
            marks: self.marks | other.marks,
        }
    }

    /// Returns whether no bit is set.
    pub fn is_empty(&self) -> bool
        requires { IsTrue (is_width W) }
        ensures { result ≡ (length self.now == 0) }
    {
        self.first().is_none()
    }

    /// Returns whether both BitStrings are equal.
    pub fn is_same(&self, other: &Self) -> bool
        requires { IsTrue (is_width W) }
        ensures same { result ≡ true → self.now ≡ other.now }
        ensures differ { result ≡ false → self.now ≢ other.now }
    {
        let _widths = (self.width(), other.width());
        self.and_not(other).is_empty() && other.and_not(self).is_empty()
    }

    /// Returns the number of set bits.
    #[tactic(auto, using(crate::proofs::Widths::width_le))]
    pub fn count(&self) -> u16
        requires { IsTrue (is_width W) }
        ensures { result ≡ length self.now }
    {
        count(&self.lanes) as u16
    }

    /// Returns the least position that is set. None exactly where no bit is set.
    #[tactic(auto, using(crate::proofs::Widths::width_le))]
    pub fn first(&self) -> Option<u16>
        requires { IsTrue (is_width W) }
        ensures { result ≡ first_member self.now }
    {
        let place = first_place(&self.lanes, self.marks)?;
        Some(place as u16 + 1)
    }

    /// Removes the least position that is set, and returns it. None exactly where no bit is set.
    #[tactic(auto, using(crate::proofs::Widths::width_le))]
    pub fn take_first(&mut self) -> Option<u16>
        requires { IsTrue (is_width W) }
        ensures taken { MatchOption result ((self.old ≡ []) × (self.new ≡ [])) (λ p. self.old ≡ p ∷ self.new) }
        ensures low { IfSome result (λ p. 1 ≤ p) }
        ensures high { IfSome result (λ p. p ≤ 64 * W) }
    {
        let place = take_place(&mut self.lanes, &mut self.marks)?;
        Some(place as u16 + 1)
    }

    /// Returns the least position that is set in both. None exactly where they share none.
    #[tactic(auto, using(crate::proofs::Widths::width_le))]
    pub fn first_shared(&self, other: &Self) -> Option<u16>
        requires { IsTrue (is_width W) }
        ensures { result ≡ first_member (intersection self.now other.now) }
    {
        let place = first_shared(&self.lanes, &other.lanes, self.marks & other.marks, 0)?;
        Some(place as u16 + 1)
    }

    /// Like `first_shared`, if they share no position below `bp`: those words are skipped.
    #[tactic(auto, using(crate::proofs::Widths::width_le))]
    pub fn first_shared_from(&self, other: &Self, bp: u16) -> Option<u16>
        requires width { IsTrue (is_width W) }
        requires low { 1 ≤ bp }
        requires high { bp ≤ 64 * W + 1 }
        requires apart { AreApartBelow bp self.now other.now }
        ensures first { result ≡ first_member (intersection self.now other.now) }
        ensures apart { IfSome result (λ p. AreApartBelow p self.now other.now) }
    {
        let from = usize::from(bp - 1) / 64;
        let place = first_shared(&self.lanes, &other.lanes, self.marks & other.marks, from)?;
        Some(place as u16 + 1)
    }

    /// Writes the BitString as 8 W octets in network order: the highest position first, and position 1 as the least significant
    /// bit of the last octet (RFC 8296, 2.1.2). The octets encode the set.
    pub fn to_be_bytes(&self, out: &mut [u8])
        requires width { IsTrue (is_width W) }
        requires octets { length out.old ≡ 8 * W }
        ensures octets { out.new ≡ octets_of (8 * W) self.now }
        ensures again { set_of out.new ≡ self.now }
    {
        write_words(&self.lanes, out);
    }

    /// Reads a BitString from 8 W octets in network order. Writing the result gives the same octets.
    #[tactic(auto, using(crate::proofs::Widths::width_le))]
    pub fn read(bytes: &[u8]) -> Self
        requires width { IsTrue (is_width W) }
        requires octets { length bytes.now ≡ 8 * W }
        ensures set { result ≡ set_of bytes.now }
        ensures again { octets_of (8 * W) result ≡ bytes.now }
    {
        let mut lanes = [0; W];
        let marks = read_words(bytes, &mut lanes);
        BitString { lanes, marks }
    }
}
