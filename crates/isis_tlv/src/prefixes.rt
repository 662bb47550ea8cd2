ghost use Rattle.std.specs.Prelude.{◌≡◌, ◌<◌, ◌≤◌, ◌^◌, ◌++◌, ◌∷◌, ◌⊎◌, [], ℕ, List, length, take, drop, Ok, IfOk, IfErr, OnOk, OnErr};
ghost use Rattle.byteorder.specs.Endian.{big_bytes};
ghost use Rattle.wire_base.specs.model.Fields.{Gives, IsReadAgain};
ghost use Rattle.wire_base.specs.model.Tlv.{PrefixFits, prefix, prefix_at, prefix_bits, prefix_octets, has_subs, padded, bits_at, subs_if_at, NoneUnless};
ghost use Rattle.wire_base.specs.model.Tlv.{Prefix as PrefixItem};
ghost use Rattle.isis_tlv.specs.Views.{prefix_of};

use crate::fixed::put;
use arrayvec::ArrayVec;
use wire_base::fields::{read_counted, read_octets, read_u8, read_u32};
use wire_base::{M, Octets, TlvFault};

/// An entry of TLV 135 (RFC 5305, 4): a metric, the whole control octet, the prefix length in bits (the low six bits of
/// the control octet), the prefix in four octets, of which those past the prefix are 0, and the octets of the sub-TLVs,
/// which are empty if bit 40 of the control octet is not set.
#[derive(Clone, Copy, Debug)]
pub struct PrefixEntry<'a> {
    pub metric: u32,
    pub control: u8,
    pub length: u8,
    pub octets: [u8; 4],
    pub subs: &'a [u8],
}

fn bits_of(control: u8) -> Result<usize, TlvFault>
    ensures { Gives (λ x. x) result (bits_at control) }
{
    if control % 64 > 32 {
        return Err(TlvFault::PrefixLen);
    }
    Ok(usize::from(control % 64))
}

fn subs_of(follow: bool, bytes: &[u8]) -> Result<(&[u8], &[u8]), TlvFault>
    ensures { Gives (λ x. (x.0.now, x.1.now)) result (subs_if_at follow bytes.now) }
{
    if follow {
        read_counted(TlvFault::EntryShort, bytes)
    } else {
        Ok((&[], bytes))
    }
}

fn padded_to_four(bare: &[u8]) -> [u8; 4]
    requires { length bare.now ≤ 4 }
    ensures { result ≡ padded bare.now }
{
    let mut octets = [0; 4];
    octets[..bare.len()].copy_from_slice(bare);
    octets
}

#[tactic(auto, unfolding(wire_base::specs::model::Tlv::prefix_at))]
fn prefix_front(bytes: &[u8]) -> Result<(PrefixEntry<'_>, &[u8]), TlvFault>
    ensures exact { Gives (λ x. (prefix_of x.0, x.1.now)) result (prefix_at bytes.now) }
    ensures bits { IfOk result (λ x. x.0.length ≡ prefix_bits x.0.control) }
{
    let (metric, rest) = read_u32(TlvFault::EntryShort, bytes)?;
    let (control, rest) = read_u8(TlvFault::EntryShort, rest)?;
    let bits = bits_of(control)?;
    let (bare, rest) = read_octets(TlvFault::EntryShort, (bits + 7) / 8, rest)?;
    let (subs, rest) = subs_of(control / 64 % 2 == 1, rest)?;
    let octets = padded_to_four(bare);
    Ok((
        PrefixEntry {
            metric,
            control,
            length: control % 64,
            octets,
            subs,
        },
        rest,
    ))
}

fn prefix_sized(bytes: &[u8]) -> Result<(PrefixEntry<'_>, usize), TlvFault>
    ensures exact { Gives (λ x. (prefix_of x.0, drop x.1 bytes.now)) result (prefix_at bytes.now) }
    ensures within { IfOk result (λ x. x.1 ≤ length bytes.now) }
    ensures bits { IfOk result (λ x. x.0.length ≡ prefix_bits x.0.control) }
{
    let (entry, rest) = prefix_front(bytes)?;
    Ok((entry, bytes.len() - rest.len()))
}

/// Parses the entry of TLV 135 at the front, and returns it with its length in octets. Errors: PrefixLen if five octets are
/// there and the prefix length exceeds 32; EntryShort if the octets end before the entry does (RFC 5305, 4).
pub fn read_prefix(bytes: &[u8]) -> Result<(PrefixEntry<'_>, usize), TlvFault>
    // The result is an entry with this encoding.
    ensures found { IfOk result (λ x. PrefixFits (prefix_of x.0) × (bytes.now ≡ prefix (prefix_of x.0) ++ drop x.1 bytes.now)) }
    ensures within { IfOk result (λ x. x.1 ≤ length bytes.now) }
    ensures bits { IfOk result (λ x. x.0.length ≡ prefix_bits x.0.control) }
    // An encoded entry is parsed, whatever follows it.
    ensures only { (p : PrefixItem) (rest : List ℕ) → PrefixFits p → bytes.now ≡ prefix p ++ rest
        → Gives {Y = PrefixItem × List ℕ} (λ x. (prefix_of x.0, drop x.1 bytes.now)) result (Ok (p, rest)) }
    // The exact result.
    ensures exact { Gives (λ x. (prefix_of x.0, drop x.1 bytes.now)) result (prefix_at bytes.now) }
{
    prefix_sized(bytes)
}

/// Returns all fields except the sub-TLVs.
fn prefix_head(p: &PrefixEntry<'_>) -> ArrayVec<u8, 9>
    requires { prefix_bits p.now.control ≤ 32 }
    ensures { result.items ≡ big_bytes 4 p.now.metric ++ (p.now.control ∷ take (prefix_octets (prefix_bits p.now.control)) p.now.octets) }
{
    let size = usize::from((p.control % 64 + 7) / 8);
    let mut head = ArrayVec::new();
    put(&mut head, &p.metric.to_be_bytes());
    head.push(p.control);
    put(&mut head, &p.octets[..size]);
    head
}

/// Appends the length and the octets of the sub-TLVs, if the control octet indicates that they follow.
fn append_prefix(out: &mut Octets, p: &PrefixEntry<'_>) -> M<()>
    requires bits { p.now.length ≡ prefix_bits p.now.control }
    requires most { p.now.length ≤ 32 }
    requires octets { p.now.octets ≡ padded (take (prefix_octets p.now.length) p.now.octets) }
    requires subs { NoneUnless (has_subs p.now.control) p.now.subs.now }
    ensures ok { OnOk result (out.new ≡ out.old ++ prefix (prefix_of p.now)) }
    ensures err { OnErr result (out.new ≡ out.old) }
    ensures fits { PrefixFits (prefix_of p.now) }
{
    let head = prefix_head(p);
    if p.control / 64 % 2 == 1 {
        let mut whole = ArrayVec::<u8, 10>::new();
        put(&mut whole, head.as_slice());
        whole.push(p.subs.len() as u8);
        out.append_two(whole.as_slice(), p.subs)
    } else {
        out.append(head.as_slice())
    }
}

/// Appends an entry of TLV 135 (RFC 5305, 4).
pub fn push_prefix(out: &mut Octets, p: &PrefixEntry<'_>) -> M<()>
    requires bits { p.now.length ≡ prefix_bits p.now.control }
    requires most { p.now.length ≤ 32 }
    requires octets { p.now.octets ≡ padded (take (prefix_octets p.now.length) p.now.octets) }
    requires subs { NoneUnless (has_subs p.now.control) p.now.subs.now }
    ensures ok { OnOk result (out.new ≡ out.old ++ prefix (prefix_of p.now)) }
    ensures err { OnErr result (out.new ≡ out.old) }
    // What was appended is parsed again, whatever follows it.
    ensures again { OnOk result (IsReadAgain prefix_at out.old out.new (prefix_of p.now)) }
    ensures fits { PrefixFits (prefix_of p.now) }
{
    append_prefix(out, p)
}
