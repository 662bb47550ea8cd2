ghost use Rattle.std.specs.Prelude.{◌≡◌, ◌+◌, ◌*◌, ◌<◌, ◌≤◌, ◌∷◌, ◌++◌, [], ℕ, List, Ok, Some, map, length, drop, OnOk, OnErr};
ghost use Rattle.std.specs.List.{flat_map, AllByRecursion};
ghost use Rattle.arrayvec.specs.ArrayVec.{array_vec_len};
ghost use Rattle.wire_base.specs.model.Tlv.{tlv, tlv_at};
ghost use Rattle.wire_base.specs.model.BierInfo.{range, range_word, RangeFits, AreApart, InfoFits, info, info_tlv, info_at, own_of};

use arrayvec::ArrayVec;
use isis_tlv::fixed::put;
use wire_base::codepoints::{SUB_SUB_TLV_BIER_MPLS, SUB_TLV_BIER_INFO};
use wire_base::{LabelRange, M, Octets, OwnSub};

fn word_of(r: &LabelRange) -> u32
    requires { RangeFits r.now }
    ensures { result ≡ range_word r.now }
{
    u32::from(r.max_si) * 0x100_0000 + u32::from(r.bsl.code()) * 0x10_0000 + r.label
}

fn put_range(value: &mut ArrayVec<u8, 47>, r: &LabelRange)
    requires room { array_vec_len value.old + 6 ≤ 47 }
    requires fits { RangeFits r.now }
    ensures items { value.new.items ≡ value.old.items ++ range r.now }
    ensures len { array_vec_len value.new ≡ array_vec_len value.old + 6 }
{
    put(value, &[SUB_SUB_TLV_BIER_MPLS, 4]);
    put(value, &word_of(r).to_be_bytes());
}

fn info_octets(s: &OwnSub) -> ArrayVec<u8, 47>
    requires { InfoFits (own_of s.now) }
    ensures { result.items ≡ info (own_of s.now) }
{
    let mut value = ArrayVec::new();
    put(&mut value, &[0, 0, s.sd]);
    put(&mut value, &s.id.to_be_bytes());
    for r in s.ranges.as_slice() {
        put_range(&mut value, r);
    }
    value
}

fn append_info(out: &mut Octets, s: &OwnSub) -> M<()>
    requires { InfoFits (own_of s.now) }
    ensures ok { OnOk result (out.new ≡ out.old ++ tlv (info_tlv (own_of s.now))) }
    ensures err { OnErr result (out.new ≡ out.old) }
{
    let value = info_octets(s);
    out.append_two(&[SUB_TLV_BIER_INFO, value.len() as u8], value.as_slice())
}

/// Appends a sub-TLV 32 with the BIER Info of a sub-domain (RFC 8401, 6.1 and 6.2).
pub fn push_info(out: &mut Octets, s: &OwnSub) -> M<()>
    requires { InfoFits (own_of s.now) }
    ensures ok { OnOk result (out.new ≡ out.old ++ tlv (info_tlv (own_of s.now))) }
    ensures err { OnErr result (out.new ≡ out.old) }
    // What was appended is parsed again, whatever follows it: the sub-TLV, and the BIER Info of its value.
    ensures again { OnOk result ((rest : List ℕ) → tlv_at (drop (length out.old) out.new ++ rest) ≡ Ok (Some (info_tlv (own_of s.now), rest))) }
    ensures value { info_at (info (own_of s.now)) ≡ Ok (own_of s.now) }
{
    append_info(out, s)
}
