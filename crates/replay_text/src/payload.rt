//! Payloads, and how they are read and written.
ghost use Rattle.std.specs.Prelude.{◌≡◌, ◌≤◌, ◌*◌, ◌++◌, length, take, OnOk, OnErr, IfOk};
ghost use Rattle.std.specs.List.{flat_map};
ghost use Rattle.replay_text.specs.declared.fault.TextFault.TheVariants as fault;
ghost use Rattle.replay_text.specs.Reading.{Gives, or_fault};
ghost use Rattle.replay_text.specs.Arguments.{payload_of, octets_of_digits};
ghost use Rattle.replay_text.specs.Payload.{digits_of, payload_text, IsPayloadReadAgain};

use crate::fault::TextFault;
use hex::FromHexError;
use std::alloc::Global;
use wire_base::limits::MOST_PAYLOAD;
use wire_base::{M, Octets};

/// The greatest number of digits of a payload.
const DIGITS_LIMIT: usize = 2 * MOST_PAYLOAD;

const DIGITS: &[u8; 16] = b"0123456789abcdef";

/// Returns the octets that pairs of hexadecimal digits encode, in upper or lower case.
#[tactic(auto, using(crate::proofs::PayloadLemmas::half_as_long))]
fn octets_of_digits(alloc: Global, text: &[u8]) -> Result<Octets, TextFault>
    ensures value { Gives (λ octets. octets) result (or_fault fault.Hex (octets_of_digits text.now)) }
    ensures half { IfOk result (λ octets. length text.now ≡ 2 * length octets) }
{
    match hex::decode(alloc, text) {
        Ok(octets) => Ok(Octets::from_slice(alloc, octets.as_slice())?),
        Err(FromHexError::OutOfMemory) => Err(TextFault::Memory),
        Err(_) => Err(TextFault::Hex),
    }
}

/// Parses a payload: an even number of hexadecimal digits, at most 4,000, or `-` for none.
#[tactic(auto, unfolding(crate::specs::Arguments::payload_of))]
pub fn read_payload(alloc: Global, text: &[u8]) -> Result<Octets, TextFault>
    ensures value { Gives (λ octets. octets) result (or_fault fault.Hex (payload_of text.now)) }
    ensures short { IfOk result (λ octets. length octets ≤ MOST_PAYLOAD) }
{
    if text == b"-".as_slice() {
        return Ok(Octets::new(alloc));
    }
    if text.len() > DIGITS_LIMIT {
        return Err(TextFault::Hex);
    }
    octets_of_digits(alloc, text)
}

/// Appends the two digits of an octet.
fn push_octet(out: &mut Octets, octet: u8) -> M<()>
    ensures ok { OnOk result (out.new ≡ out.old ++ digits_of octet) }
    ensures err { OnErr result (out.new ≡ out.old) }
{
    out.append(&[DIGITS[(octet / 16) as usize], DIGITS[(octet % 16) as usize]])
}

/// Appends the two digits of each octet. If an allocation fails, some may follow the old end.
#[tactic(auto, using(crate::proofs::Appended::front, crate::proofs::Appended::front_of_front))]
fn push_octets(out: &mut Octets, octets: &[u8]) -> M<()>
    ensures ok { OnOk result (out.new ≡ out.old ++ flat_map digits_of octets.now) }
    ensures err { OnErr result (take (length out.old) out.new ≡ out.old) }
{
    for octet in octets {
        push_octet(out, *octet)?;
    }
    Ok(())
}

/// Appends a payload as lower-case hexadecimal digits, two for each octet, or `-` for none. Parsing the text returns
/// the same payload, if it has at most 2,000 octets. If an allocation fails, nothing is appended.
#[tactic(auto, using(crate::proofs::PayloadLemmas::is_read_again))]
pub fn push_payload(out: &mut Octets, payload: &[u8]) -> M<()>
    ensures ok { OnOk result (out.new ≡ out.old ++ payload_text payload.now) }
    ensures err { OnErr result (out.new ≡ out.old) }
    ensures again { IsPayloadReadAgain payload.now }
{
    if payload.is_empty() {
        return out.push(b'-');
    }
    let len = out.len();
    let pushed = push_octets(out, payload);
    if pushed.is_err() {
        out.truncate(len);
    }
    pushed
}
