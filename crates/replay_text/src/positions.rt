//! The bit positions of bit strings, written as ids without an intermediate list.
ghost use Rattle.std.specs.Prelude.{◌≡◌, ◌≤◌, ◌*◌, ◌++◌, ◌∷◌, [], List, ℕ, length, take, IsTrue, OnOk, OnErr};
ghost use Rattle.std.specs.Fmt.{decimal};
ghost use Rattle.std.specs.List.{flat_map};
ghost use Rattle.wire_base.specs.model.BitSet.{set_of};
ghost use Rattle.wire_base.specs.model.Place.{bits_of};
ghost use Rattle.bier_bits.specs.Any.{positions_of};
ghost use Rattle.bier_bits.specs.Sets.{is_width};
ghost use Rattle.replay_text.specs.Ids.{ids_text};
ghost use Rattle.replay_text.specs.Places.{IsPlace, left};
ghost use Rattle.replay_text.specs.Room.{IsFront};

use crate::block::Block;
use crate::place::{Place, next_position};
use bier_bits::{AnyBits, BitString};
use wire_base::{Bsl, M, Octets};

/// Appends the bit positions of a bit string, from 1, separated by commas, or `-` for none. If an allocation fails,
/// nothing is appended.
pub fn push_positions(out: &mut Octets, bits: &AnyBits) -> M<()>
    ensures ok { OnOk result (out.new ≡ out.old ++ ids_text (positions_of bits.now)) }
    ensures err { OnErr result (out.new ≡ out.old) }
{
    match bits {
        AnyBits::B64(set) => push_set(out, set),
        AnyBits::B128(set) => push_set(out, set),
        AnyBits::B256(set) => push_set(out, set),
        AnyBits::B512(set) => push_set(out, set),
        AnyBits::B1024(set) => push_set(out, set),
        AnyBits::B2048(set) => push_set(out, set),
        AnyBits::B4096(set) => push_set(out, set),
    }
}

/// Does the same for a bit string of one width.
fn push_set<const W: usize>(out: &mut Octets, set: &BitString<W>) -> M<()>
    requires { IsTrue (is_width W) }
    ensures ok { OnOk result (out.new ≡ out.old ++ ids_text set.now) }
    ensures err { OnErr result (out.new ≡ out.old) }
{
    let len = out.len();
    let pushed = push_members(out, set);
    if pushed.is_err() {
        out.truncate(len);
    }
    pushed
}

/// Does the same, except that text may follow the old end if an allocation fails.
#[tactic(auto, using(crate::proofs::Appended::front, crate::proofs::Appended::front_of_itself))]
fn push_members<const W: usize>(out: &mut Octets, set: &BitString<W>) -> M<()>
    requires { IsTrue (is_width W) }
    ensures ok { OnOk result (out.new ≡ out.old ++ ids_text set.now) }
    ensures err { OnErr result (take (length out.old) out.new ≡ out.old) }
{
    let mut block = Block::new();
    put_set(out, &mut block, &mut set.copy())?;
    out.append(block.as_slice())
}

/// Appends the bit positions of a BitString of that length, which is given by its octets in network order (RFC 8296, 2.1.2), to
/// the text that a block ends. The block is appended to the text each time that it is full. If an allocation fails, the old text
/// and the old block stand in full, and a front part of the positions' text may follow them.
pub fn put_bit_string(out: &mut Octets, block: &mut Block, bsl: Bsl, octets: &[u8]) -> M<()>
    requires { 8 * length octets.now ≡ bits_of bsl }
    ensures ok { OnOk result (out.new ++ block.new ≡ out.old ++ (block.old ++ ids_text (set_of octets.now))) }
    ensures err { OnErr result (IsFront (out.old ++ block.old) (ids_text (set_of octets.now)) (out.new ++ block.new)) }
    ensures front { (text : List ℕ) → take (length text) out.old ≡ text → take (length text) out.new ≡ text }
{
    let _bits = bsl.bits();
    block.make_room(out)?;
    let mut place = Place::new(octets);
    let Some(first) = next_position(octets, &mut place) else {
        block.push(b'-');
        return Ok(());
    };
    block.few(first);
    put_places(out, block, octets, place)
}

/// Appends a comma and the number of each bit position from a place on.
fn put_places(out: &mut Octets, block: &mut Block, octets: &[u8], start: Place) -> M<()>
    requires { IsPlace octets.now start.at start.from start.above }
    ensures ok { OnOk result (out.new ++ block.new ≡ out.old ++ (block.old ++ flat_map (λ next. 44 ∷ decimal next) (left octets.now start.from))) }
    ensures err { OnErr result (IsFront (out.old ++ block.old) (flat_map (λ next. 44 ∷ decimal next) (left octets.now start.from)) (out.new ++ block.new)) }
    ensures front { (text : List ℕ) → take (length text) out.old ≡ text → take (length text) out.new ≡ text }
{
    let mut place = start;
    'positions: while let Some(position) = next_position(octets, &mut place) {
        block.make_room(out)?;
        block.listed(position);
    }
    Ok(())
}

/// Appends the bit positions of a BitString, which is emptied, to the text that a block ends. The block is appended to the text each
/// time that it is full. If an allocation fails, the old text and the old block stand in full, and a front part of the positions'
/// text may follow them.
#[tactic(auto, using(bier_bits::proofs::Widths::width_le))]
pub fn put_set<const W: usize>(out: &mut Octets, block: &mut Block, set: &mut BitString<W>) -> M<()>
    requires { IsTrue (is_width W) }
    ensures ok { OnOk result (out.new ++ block.new ≡ out.old ++ (block.old ++ ids_text set.old)) }
    ensures emptied { OnOk result (set.new ≡ []) }
    ensures err { OnErr result (IsFront (out.old ++ block.old) (ids_text set.old) (out.new ++ block.new)) }
    ensures front { (text : List ℕ) → take (length text) out.old ≡ text → take (length text) out.new ≡ text }
{
    block.make_room(out)?;
    let Some(first) = set.take_first() else {
        block.push(b'-');
        return Ok(());
    };
    block.few(first);
    put_more(out, block, set)
}

/// Appends a comma and the number of each bit position of a BitString, which is emptied.
#[tactic(auto, using(bier_bits::proofs::Widths::width_le))]
fn put_more<const W: usize>(out: &mut Octets, block: &mut Block, set: &mut BitString<W>) -> M<()>
    requires { IsTrue (is_width W) }
    ensures ok { OnOk result (out.new ++ block.new ≡ out.old ++ (block.old ++ flat_map (λ next. 44 ∷ decimal next) set.old)) }
    ensures emptied { OnOk result (set.new ≡ []) }
    ensures err { OnErr result (IsFront (out.old ++ block.old) (flat_map (λ next. 44 ∷ decimal next) set.old) (out.new ++ block.new)) }
    ensures front { (text : List ℕ) → take (length text) out.old ≡ text → take (length text) out.new ≡ text }
{
    'positions: while let Some(position) = set.take_first() {
        block.make_room(out)?;
        block.listed(position);
    }
    Ok(())
}
