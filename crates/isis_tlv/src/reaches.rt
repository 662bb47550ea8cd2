ghost use Rattle.std.specs.Prelude.{◌≡◌, ◌<◌, ◌≤◌, ◌^◌, ◌++◌, ◌∷◌, [], ℕ, List, length, drop, Ok, IfOk, IfErr, OnOk, OnErr};
ghost use Rattle.byteorder.specs.Endian.{big_bytes};
ghost use Rattle.wire_base.specs.model.Fields.{Gives, IsReadAgain};
ghost use Rattle.wire_base.specs.model.Tlv.{ReachFits, reach, reach_at};
ghost use Rattle.wire_base.specs.model.Tlv.{Reach as ReachItem};
ghost use Rattle.isis_tlv.specs.Views.{reach_of};

use crate::fixed::put;
use arrayvec::ArrayVec;
use byteorder::{BigEndian, ByteOrder};
use wire_base::fields::{read_counted, read_six, read_u8, read_u24};
use wire_base::{M, Octets, SystemId, TlvFault};

/// An entry of TLV 22: a neighbor that the originating system reaches, its pseudonode number, the metric of the link (24 bits),
/// and the octets of the sub-TLVs (RFC 5305, 3).
#[derive(Clone, Copy, Debug)]
pub struct Reach<'a> {
    pub neighbour: SystemId,
    pub pseudonode: u8,
    pub metric: u32,
    pub subs: &'a [u8],
}

#[tactic(auto, unfolding(wire_base::specs::model::Tlv::reach_at))]
fn reach_front(bytes: &[u8]) -> Result<(Reach<'_>, &[u8]), TlvFault>
    ensures exact { Gives (λ x. (reach_of x.0, x.1.now)) result (reach_at bytes.now) }
    ensures fault { IfErr result (λ e. e ≡ TlvFault.EntryShort) }
{
    let (system, rest) = read_six(TlvFault::EntryShort, bytes)?;
    let (pseudonode, rest) = read_u8(TlvFault::EntryShort, rest)?;
    let (metric, rest) = read_u24(TlvFault::EntryShort, rest)?;
    let (subs, rest) = read_counted(TlvFault::EntryShort, rest)?;
    Ok((
        Reach {
            neighbour: SystemId(system),
            pseudonode,
            metric,
            subs,
        },
        rest,
    ))
}

fn reach_sized(bytes: &[u8]) -> Result<(Reach<'_>, usize), TlvFault>
    ensures exact { Gives (λ x. (reach_of x.0, drop x.1 bytes.now)) result (reach_at bytes.now) }
    ensures within { IfOk result (λ x. x.1 ≤ length bytes.now) }
    ensures fault { IfErr result (λ e. e ≡ TlvFault.EntryShort) }
{
    let (entry, rest) = reach_front(bytes)?;
    Ok((entry, bytes.len() - rest.len()))
}

/// Parses the entry of TLV 22 at the front, and returns it with its length in octets. Error: EntryShort if the octets end
/// before the entry does (RFC 5305, 3).
pub fn read_reach(bytes: &[u8]) -> Result<(Reach<'_>, usize), TlvFault>
    // The result is an entry with this encoding.
    ensures found { IfOk result (λ x. ReachFits (reach_of x.0) × (bytes.now ≡ reach (reach_of x.0) ++ drop x.1 bytes.now)) }
    ensures within { IfOk result (λ x. x.1 ≤ length bytes.now) }
    // An encoded entry is parsed, whatever follows it.
    ensures only { (r : ReachItem) (rest : List ℕ) → ReachFits r → bytes.now ≡ reach r ++ rest
        → Gives {Y = ReachItem × List ℕ} (λ x. (reach_of x.0, drop x.1 bytes.now)) result (Ok (r, rest)) }
    ensures fault { IfErr result (λ e. e ≡ TlvFault.EntryShort) }
    // The exact result.
    ensures exact { Gives (λ x. (reach_of x.0, drop x.1 bytes.now)) result (reach_at bytes.now) }
{
    reach_sized(bytes)
}

fn reach_head(r: &Reach<'_>) -> ArrayVec<u8, 11>
    requires metric { r.now.metric < 2 ^ 24 }
    requires subs { length r.now.subs.now ≤ 255 }
    ensures octets { result.items ≡ r.now.neighbour.0 ++ (r.now.pseudonode ∷ (big_bytes 3 r.now.metric ++ (length r.now.subs.now ∷ []))) }
    ensures fits { ReachFits (reach_of r.now) }
{
    let mut metric = [0; 3];
    BigEndian::write_u24(&mut metric, r.metric);
    let mut head = ArrayVec::new();
    put(&mut head, &r.neighbour.0);
    head.push(r.pseudonode);
    put(&mut head, &metric);
    head.push(r.subs.len() as u8);
    head
}

fn append_reach(out: &mut Octets, r: &Reach<'_>) -> M<()>
    requires metric { r.now.metric < 2 ^ 24 }
    requires subs { length r.now.subs.now ≤ 255 }
    ensures ok { OnOk result (out.new ≡ out.old ++ reach (reach_of r.now)) }
    ensures err { OnErr result (out.new ≡ out.old) }
    ensures fits { ReachFits (reach_of r.now) }
{
    out.append_two(reach_head(r).as_slice(), r.subs)
}

/// Appends an entry of TLV 22 (RFC 5305, 3).
pub fn push_reach(out: &mut Octets, r: &Reach<'_>) -> M<()>
    requires metric { r.now.metric < 2 ^ 24 }
    requires subs { length r.now.subs.now ≤ 255 }
    ensures ok { OnOk result (out.new ≡ out.old ++ reach (reach_of r.now)) }
    ensures err { OnErr result (out.new ≡ out.old) }
    // What was appended is parsed again, whatever follows it.
    ensures again { OnOk result (IsReadAgain reach_at out.old out.new (reach_of r.now)) }
    ensures fits { ReachFits (reach_of r.now) }
{
    append_reach(out, r)
}
