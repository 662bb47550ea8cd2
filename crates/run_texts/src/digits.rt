//! Hexadecimal digits.
ghost use Rattle.std.specs.Prelude.{◌≡◌, ◌<◌, ◌++◌, OnOk};
ghost use Rattle.run_texts.specs.Addresses.{hex_digit, hex_octet, hex_pair};

use wire_base::{M, Octets};

/// Returns a hexadecimal digit, in lower case.
fn hex_digit(n: u8) -> u8
    requires { n < 16 }
    ensures { result ≡ hex_digit n }
{
    if n < 10 { b'0' + n } else { b'a' + (n - 10) }
}

/// Appends the two hexadecimal digits of an octet.
pub(crate) fn push_hex(out: &mut Octets, octet: u8) -> M<()>
    ensures { OnOk result (out.new ≡ out.old ++ hex_octet octet) }
{
    out.append(&[hex_digit(octet / 16), hex_digit(octet % 16)])
}

/// Appends the digits of two octets.
#[tactic(auto, unfolding(crate::specs::Addresses::hex_pair))]
pub(crate) fn push_pair(out: &mut Octets, high: u8, low: u8) -> M<()>
    ensures { OnOk result (out.new ≡ out.old ++ hex_pair high low) }
{
    push_hex(out, high)?;
    push_hex(out, low)
}
