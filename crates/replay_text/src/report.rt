//! What the reports of all commands share: numbers, the causes of drops, and the end of a drop's line.
ghost use Rattle.std.specs.Prelude.{◌≡◌, ◌++◌, ◌∷◌, [], length, take, OnOk, OnErr};
ghost use Rattle.std.specs.Fmt.{decimal};
ghost use Rattle.replay_text.specs.Ids.{ids_text};
ghost use Rattle.replay_text.specs.Report.{cause_text};

use crate::ids::push_ids;
use itoa::Buffer;
use wire_base::{Cause, M, Octets};

/// Appends the name of a parser, and the number of the rule for which it rejected octets. If an allocation fails,
/// nothing is appended.
fn push_rule_of(out: &mut Octets, reader: &[u8], rule: u8) -> M<()>
    ensures ok { OnOk result (out.new ≡ out.old ++ (reader.now ++ decimal rule)) }
    ensures err { OnErr result (out.new ≡ out.old) }
{
    let mut digits = Buffer::new();
    out.append_two(reader, digits.format(rule).as_bytes())
}

/// Appends the keyword of a cause. If a parser rejected octets, the keyword has the number of the rule, such as
/// `pdu-7`. If an allocation fails, nothing is appended.
pub fn push_cause(out: &mut Octets, cause: &Cause) -> M<()>
    ensures ok { OnOk result (out.new ≡ out.old ++ cause_text cause.now) }
    ensures err { OnErr result (out.new ≡ out.old) }
{
    match *cause {
        Cause::NoRow => out.append(b"none"),
        Cause::Ttl => out.append(b"ttl"),
        Cause::Label => out.append(b"label"),
        Cause::Head(fault) => push_rule_of(out, b"head-", fault.number()),
        Cause::Frame(fault) => push_rule_of(out, b"frame-", fault.number()),
        Cause::Ip(fault) => push_rule_of(out, b"ip-", fault.number()),
        Cause::Pdu(fault) => push_rule_of(out, b"pdu-", fault.number()),
        Cause::Outer => out.append(b"outer"),
        Cause::Route => out.append(b"route"),
        Cause::Lost => out.append(b"lost"),
        Cause::Link => out.append(b"link"),
        Cause::Sequence => out.append(b"sequence"),
        Cause::Full => out.append(b"full"),
    }
}

/// Appends a number and a space. If an allocation fails, nothing is appended.
pub fn push_number(out: &mut Octets, number: u32) -> M<()>
    ensures ok { OnOk result (out.new ≡ out.old ++ (decimal number ++ 32 ∷ [])) }
    ensures err { OnErr result (out.new ≡ out.old) }
{
    let mut digits = Buffer::new();
    out.append_two(digits.format(number).as_bytes(), b" ")
}

/// Does the same as `push_loss`, except that text may follow the old end if an allocation fails.
#[tactic(auto, using(crate::proofs::Appended::front, crate::proofs::Appended::front_of_front))]
fn push_parts(out: &mut Octets, cause: &Cause, ids: &[u16]) -> M<()>
    ensures ok { OnOk result (out.new ≡ out.old ++ (cause_text cause.now ++ 32 ∷ (ids_text ids.now ++ 10 ∷ []))) }
    ensures err { OnErr result (take (length out.old) out.new ≡ out.old) }
{
    push_cause(out, cause)?;
    out.push(b' ')?;
    push_ids(out, ids)?;
    out.push(b'\n')
}

/// Appends a cause and BFR-ids, which end a line. If an allocation fails, nothing is appended.
pub fn push_loss(out: &mut Octets, cause: &Cause, ids: &[u16]) -> M<()>
    ensures ok { OnOk result (out.new ≡ out.old ++ (cause_text cause.now ++ 32 ∷ (ids_text ids.now ++ 10 ∷ []))) }
    ensures err { OnErr result (out.new ≡ out.old) }
{
    let len = out.len();
    let pushed = push_parts(out, cause, ids);
    if pushed.is_err() {
        out.truncate(len);
    }
    pushed
}
