//! Lists of ids, and how they are read and written.
ghost use Rattle.std.specs.Prelude.{◌≡◌, ◌≤◌, ◌<◌, ◌*◌, ◌++◌, ◌∷◌, Some, None, length, take, option_map, MatchOption, IfSome, IsTrue, OnOk, OnErr};
ghost use Rattle.std.specs.Fmt.{decimal};
ghost use Rattle.std.specs.List.{flat_map};
ghost use Rattle.wire_base.specs.model.Place.{bits_of};
ghost use Rattle.bier_bits.specs.Any.{any_of, bsl_of};
ghost use Rattle.bier_bits.specs.Sets.{is_width};
ghost use Rattle.replay_text.specs.Ids.{ids_text, id_of, ids_of, ids_after, AreReadAgain};
ghost use Rattle.replay_text.specs.Pieces.{pieces, FirstIs, FirstBefore};
ghost use Rattle.replay_text.specs.Tokens.{number_of, IsShortNumber};

use crate::tokens::{front_number, number};
use bier_bits::{AnyBits, BitString};
use wire_base::{M, Octets};

/// Parses a number from 1 to the bound.
#[tactic(auto, unfolding(crate::specs::Ids::id_of))]
pub fn id(text: &[u8], bound: u16) -> Option<u16>
    ensures value { result ≡ id_of bound text.now }
    ensures low { IfSome result (λ id. 1 ≤ id) }
    ensures high { IfSome result (λ id. id ≤ bound) }
{
    let number = number(text)?;
    if number == 0 || number > u64::from(bound) {
        return None;
    }
    Some(number as u16)
}

/// Parses a list of ids into a set, in place of its previous positions: numbers from 1 to the number of bits, separated by commas,
/// in any order, or `-` for none. If it is no such list, the positions are not specified.
pub fn read_ids(text: &[u8], bits: &mut AnyBits) -> Option<()>
    ensures { MatchOption result (ids_of (bits_of (bsl_of bits.old)) text.now ≡ None) (λ _. option_map (any_of (bsl_of bits.old)) (ids_of (bits_of (bsl_of bits.old)) text.now) ≡ Some bits.new) }
{
    match bits {
        AnyBits::B64(set) => read_set(text, set),
        AnyBits::B128(set) => read_set(text, set),
        AnyBits::B256(set) => read_set(text, set),
        AnyBits::B512(set) => read_set(text, set),
        AnyBits::B1024(set) => read_set(text, set),
        AnyBits::B2048(set) => read_set(text, set),
        AnyBits::B4096(set) => read_set(text, set),
    }
}

/// Does the same with a set of one width.
#[tactic(auto, unfolding(crate::specs::Ids::ids_of))]
fn read_set<const W: usize>(text: &[u8], set: &mut BitString<W>) -> Option<()>
    requires { IsTrue (is_width W) }
    ensures { MatchOption result (ids_of (64 * W) text.now ≡ None) (λ _. ids_of (64 * W) text.now ≡ Some set.new) }
{
    set.clear();
    if text == b"-".as_slice() {
        return Some(());
    }
    read_pieces(text, set)
}

/// Adds the ids of a list that is not `-` to a set.
fn read_pieces<const W: usize>(text: &[u8], set: &mut BitString<W>) -> Option<()>
    requires { IsTrue (is_width W) }
    ensures { MatchOption result (ids_after (64 * W) set.old (pieces 44 text.now) ≡ None) (λ _. ids_after (64 * W) set.old (pieces 44 text.now) ≡ Some set.new) }
{
    let bound = set.width();
    let mut rest = text;
    'pieces: loop {
        let (id, after) = first_id(rest, bound)?;
        set.set(id);
        match after {
            None => return Some(()),
            Some(next) => rest = next,
        }
    }
}

/// Parses the id at the front of a list, a number from 1 to the bound. Returns it, and the list after its comma if it has one.
fn first_id(text: &[u8], bound: u16) -> Option<(u16, Option<&[u8]>)>
    ensures value { MatchOption result (FirstIs 44 text.now (λ piece. id_of bound piece ≡ None))
        (λ found. FirstBefore 44 text.now (option_map (λ after. after.now) found.1) (λ piece. id_of bound piece ≡ Some found.0)) }
    ensures low { IfSome result (λ found. 1 ≤ found.0) }
    ensures high { IfSome result (λ found. found.0 ≤ bound) }
    ensures shorter { IfSome result (λ found. IfSome found.1 (λ after. length after.now < length text.now)) }
{
    let (number, after) = first_number(text)?;
    if number == 0 || number > u64::from(bound) {
        return None;
    }
    Some((number as u16, after))
}

/// Parses the digits before the first comma of a text: at most ten, and 0 for none. Returns their number, and the text after the
/// comma if there is one.
#[tactic(auto, using(crate::proofs::FirstIds::first_fails, crate::proofs::FirstIds::first_whole))]
fn first_number(text: &[u8]) -> Option<(u64, Option<&[u8]>)>
    ensures value { MatchOption result (FirstIs 44 text.now (λ piece. number_of piece ≡ None))
        (λ found. FirstBefore 44 text.now (option_map (λ after. after.now) found.1) (IsShortNumber found.0)) }
    ensures shorter { IfSome result (λ found. IfSome found.1 (λ after. length after.now < length text.now)) }
{
    let (number, count) = front_number(text);
    if count == text.len() {
        return Some((number, None));
    }
    if text[count] != b',' {
        return None;
    }
    Some((number, Some(&text[count + 1..])))
}

/// Appends the ids separated by commas, or `-` for none. Parsing the text returns the same ids, if they ascend from 1
/// on. If an allocation fails, nothing is appended.
#[tactic(auto, using(crate::proofs::Again::are_read_again))]
pub fn push_ids(out: &mut Octets, ids: &[u16]) -> M<()>
    ensures ok { OnOk result (out.new ≡ out.old ++ ids_text ids.now) }
    ensures err { OnErr result (out.new ≡ out.old) }
    ensures again { AreReadAgain ids.now }
{
    let len = out.len();
    let pushed = push_each(out, ids);
    if pushed.is_err() {
        out.truncate(len);
    }
    pushed
}

/// Does the same, except that text may follow the old end if an allocation fails.
#[tactic(auto, using(crate::proofs::Appended::front, crate::proofs::Appended::front_of_front))]
fn push_each(out: &mut Octets, ids: &[u16]) -> M<()>
    ensures ok { OnOk result (out.new ≡ out.old ++ ids_text ids.now) }
    ensures err { OnErr result (take (length out.old) out.new ≡ out.old) }
{
    let Some((first, rest)) = ids.split_first() else {
        return out.push(b'-');
    };
    out.append_number(u64::from(*first))?;
    push_more(out, rest)
}

#[tactic(auto, using(crate::proofs::Appended::front, crate::proofs::Appended::front_of_front))]
fn push_more(out: &mut Octets, ids: &[u16]) -> M<()>
    ensures ok { OnOk result (out.new ≡ out.old ++ flat_map (λ next. 44 ∷ decimal next) ids.now) }
    ensures err { OnErr result (take (length out.old) out.new ≡ out.old) }
{
    for id in ids {
        out.push(b',')?;
        out.append_number(u64::from(*id))?;
    }
    Ok(())
}
