ghost use Rattle.std.specs.Prelude.{◌≡◌, ◌↔◌, ◌<◌, ◌≤◌, ◌++◌, ℕ, List, [], length, drop, Ok, Some, None, Err, IfOk, IfErr, IfSome, IsOkAnd, IsSomeAnd, IsErr, OnOk, OnErr};
ghost use Rattle.wire_base.specs.model.Tlv.{tlv, tlv_at, IsOverrun};
ghost use Rattle.wire_base.specs.model.Tlv.{Tlv as Item};
ghost use Rattle.isis_tlv.specs.Views.{Walks, item};

use std::marker::Model;
use wire_base::{M, Octets, TlvFault};

/// A TLV or a sub-TLV: a code and a value of at most 255 octets (ISO/IEC 10589, 9.8; RFC 5305, 2).
#[derive(Clone, Copy, Debug)]
pub struct Tlv<'a> {
    pub code: u8,
    pub value: &'a [u8],
}

/// A cursor over TLVs or sub-TLVs, modeled as the octets that are still to be read. At an overrun it does not advance, so
/// every later call returns the same error.
#[derive(Drop)]
pub struct TlvWalk<'a> {
    rest: &'a [u8],
}

impl<'a> Model for TlvWalk<'a> {
    ghost use Rattle.std.specs.Prelude.{List, ℕ};

    ghost Value = { List ℕ };

    ghost view = { λ w. w.rest.now };
}

impl<'a> TlvWalk<'a> {
    /// Creates a cursor over those octets.
    pub fn new(bytes: &'a [u8]) -> TlvWalk<'a>
        ensures { result ≡ bytes.now }
    {
        TlvWalk { rest: bytes }
    }

    /// Returns the next TLV, and None at the end of the octets. If one octet is left or the length exceeds the octets after it,
    /// this and every later call return Overrun.
    pub fn next(&mut self) -> Result<Option<Tlv<'a>>, TlvFault>
        // The result is a TLV with this encoding.
        ensures found { IfOk result (λ o. IfSome o (λ t. self.old ≡ tlv (item t) ++ self.new)) }
        ensures short { IfOk result (λ o. IfSome o (λ t. length t.value.now < 256)) }
        // An encoded TLV is parsed, whatever follows it.
        ensures only { (t : Item) (rest : List ℕ) → self.old ≡ tlv t ++ rest
            → IsOkAnd result (λ o. IsSomeAnd o (λ x. (item x ≡ t) × (self.new ≡ rest))) }
        ensures end { (result ≡ Ok None) ↔ (self.old ≡ []) }
        ensures fault { IfErr result (λ e. e ≡ TlvFault.Overrun) }
        ensures overrun { IsErr result ↔ IsOverrun self.old }
        ensures stays { OnErr result (self.new ≡ self.old) }
        // The exact result.
        ensures exact { Walks self.old result self.new }
    {
        self.step()
    }

    fn step(&mut self) -> Result<Option<Tlv<'a>>, TlvFault>
        ensures exact { Walks self.old result self.new }
        ensures short { IfOk result (λ o. IfSome o (λ t. length t.value.now < 256)) }
    {
        match self.rest {
            [] => Ok(None),
            [_] => Err(TlvFault::Overrun),
            [code, len, rest @ ..] => {
                let code = *code;
                let len = usize::from(*len);
                if rest.len() < len {
                    return Err(TlvFault::Overrun);
                }
                let (value, rest) = rest.split_at(len);
                self.rest = rest;
                Ok(Some(Tlv { code, value }))
            }
        }
    }
}

fn append_tlv(out: &mut Octets, code: u8, value: &[u8]) -> M<()>
    requires { length value.now ≤ 255 }
    ensures ok { OnOk result (out.new ≡ out.old ++ tlv (record { code = code; value = value.now })) }
    ensures err { OnErr result (out.new ≡ out.old) }
{
    out.append_two(&[code, value.len() as u8], value)
}

/// Appends a TLV with that code and value.
pub fn push_tlv(out: &mut Octets, code: u8, value: &[u8]) -> M<()>
    requires { length value.now ≤ 255 }
    ensures ok { OnOk result (out.new ≡ out.old ++ tlv (record { code = code; value = value.now })) }
    ensures err { OnErr result (out.new ≡ out.old) }
    // What was appended is parsed again, whatever follows it.
    ensures again { OnOk result ((rest : List ℕ) → tlv_at (drop (length out.old) out.new ++ rest) ≡ Ok (Some (record { code = code; value = value.now }, rest))) }
{
    append_tlv(out, code, value)
}
