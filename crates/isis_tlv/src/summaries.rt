ghost use Rattle.std.specs.Prelude.{◌≡◌, ◌<◌, ◌≤◌, ◌++◌, ◌∷◌, [], ℕ, List, length, Ok, OnOk, OnErr};
ghost use Rattle.byteorder.specs.Endian.{big_bytes};
ghost use Rattle.wire_base.specs.model.Fields.{Gives, IsReadAgain};
ghost use Rattle.wire_base.specs.model.Tlv.{SummaryFits, lsp_id_at, row, row_at};
ghost use Rattle.wire_base.specs.declared.triple.Summary.{Summary as Entry};

use crate::fixed::put;
use arrayvec::ArrayVec;
use wire_base::fields::{read_six, read_u8, read_u16, read_u32};
use wire_base::{LspId, M, Octets, Summary, SystemId, TlvFault};

/// Parses the LSP ID at the front, and returns it with the octets after it; returns the given error if there are fewer
/// than eight octets (ISO/IEC 10589, 9.8).
pub fn lsp_id_of<E: Copy>(fault: E, bytes: &[u8]) -> Result<(LspId, &[u8]), E>
    ensures { Gives (λ x. (x.0, x.1.now)) result (lsp_id_at fault bytes.now) }
{
    let (system, rest) = read_six(fault, bytes)?;
    let (pseudonode, rest) = read_u8(fault, rest)?;
    let (fragment, rest) = read_u8(fault, rest)?;
    Ok((
        LspId {
            system: SystemId(system),
            pseudonode,
            fragment,
        },
        rest,
    ))
}

/// Parses the entry of TLV 9 at the front, and returns it with the octets after it.
#[tactic(auto, unfolding(wire_base::specs::model::Tlv::row_at))]
pub(crate) fn summary_front(bytes: &[u8]) -> Result<(Summary, &[u8]), TlvFault>
    ensures { Gives (λ x. (x.0, x.1.now)) result (row_at bytes.now) }
{
    let (life, rest) = read_u16(TlvFault::EntryShort, bytes)?;
    let (id, rest) = lsp_id_of(TlvFault::EntryShort, rest)?;
    let (seq, rest) = read_u32(TlvFault::EntryShort, rest)?;
    let (sum, rest) = read_u16(TlvFault::EntryShort, rest)?;
    Ok((Summary { life, id, seq, sum }, rest))
}

fn summary_whole(bytes: &[u8]) -> Summary
    requires { length bytes.now ≡ 16 }
    ensures found { SummaryFits result × (bytes.now ≡ row result) }
    ensures exact { row_at bytes.now ≡ Ok (result, []) }
{
    let (summary, _) = summary_front(bytes).unwrap();
    summary
}

/// Parses the TLV 9 entry in sixteen octets (ISO/IEC 10589, 9.10).
pub fn read_summary(bytes: &[u8]) -> Summary
    requires { length bytes.now ≡ 16 }
    ensures found { SummaryFits result × (bytes.now ≡ row result) }
    ensures only { (s : Entry) → SummaryFits s → bytes.now ≡ row s → result ≡ s }
    ensures exact { row_at bytes.now ≡ Ok (result, []) }
{
    summary_whole(bytes)
}

fn summary_octets(s: &Summary) -> ArrayVec<u8, 16>
    ensures octets { result.items ≡ row s.now }
    ensures fits { SummaryFits s.now }
{
    let mut octets = ArrayVec::new();
    put(&mut octets, &s.life.to_be_bytes());
    put(&mut octets, &s.id.system.0);
    octets.push(s.id.pseudonode);
    octets.push(s.id.fragment);
    put(&mut octets, &s.seq.to_be_bytes());
    put(&mut octets, &s.sum.to_be_bytes());
    octets
}

fn append_summary(out: &mut Octets, s: &Summary) -> M<()>
    ensures ok { OnOk result (out.new ≡ out.old ++ row s.now) }
    ensures err { OnErr result (out.new ≡ out.old) }
    ensures fits { SummaryFits s.now }
{
    out.append(summary_octets(s).as_slice())
}

/// Appends an entry of TLV 9 (ISO/IEC 10589, 9.10).
pub fn push_summary(out: &mut Octets, s: &Summary) -> M<()>
    ensures ok { OnOk result (out.new ≡ out.old ++ row s.now) }
    ensures err { OnErr result (out.new ≡ out.old) }
    // What was appended is parsed again, whatever follows it.
    ensures again { OnOk result (IsReadAgain row_at out.old out.new s.now) }
    ensures fits { SummaryFits s.now }
{
    append_summary(out, s)
}
