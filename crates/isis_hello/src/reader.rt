ghost use Rattle.std.specs.Prelude.{◌≡◌, ◌≤◌, Ok, IfOk, length, drop};
ghost use Rattle.wire_base.specs.model.Fields.{Gives};
ghost use Rattle.isis_hello.specs.declared.hello.Hello.{Hello as HelloItem};
ghost use Rattle.isis_hello.specs.Hello.{IsHello, tlvs_sized, body_at, hello_at};

use crate::codepoints::{HELLO_FRONT, HELLO_TYPE};
use crate::fault::HelloFault;
use crate::hello::Hello;
use crate::way::way_in;
use wire_base::fields::{read_octets, read_six, read_u8, read_u16};
use wire_base::{Level, SystemId};

/// Returns the TLVs of a hello of that length, and the octets after them.
fn sized(size: u16, bytes: &[u8]) -> Result<(&[u8], &[u8]), HelloFault>
    ensures { Gives (λ x. (x.0.now, x.1.now)) result (tlvs_sized size bytes.now) }
{
    if size < u16::from(HELLO_FRONT) {
        return Err(HelloFault::PduLength);
    }
    read_octets(
        HelloFault::PduLength,
        usize::from(size - u16::from(HELLO_FRONT)),
        bytes,
    )
}

/// Parses a hello from its ninth octet on.
#[tactic(auto, unfolding(crate::specs::Hello::body_at))]
fn read_body(bytes: &[u8]) -> Result<Hello, HelloFault>
    ensures { result ≡ body_at bytes.now }
{
    let (_circuit_type, rest) = read_u8(HelloFault::PduLength, bytes)?;
    let (source, rest) = read_six(HelloFault::PduLength, rest)?;
    let (hold, rest) = read_u16(HelloFault::PduLength, rest)?;
    let (size, rest) = read_u16(HelloFault::PduLength, rest)?;
    let (_local_circuit, rest) = read_u8(HelloFault::PduLength, rest)?;
    let (tlvs, _) = sized(size, rest)?;
    let way = way_in(tlvs)?;
    Ok(Hello {
        source: SystemId(source),
        hold,
        circuit: way.circuit,
        state: way.state,
        named: way.named,
    })
}

#[tactic(auto, unfolding(crate::specs::Hello::hello_at))]
fn read_front(bytes: &[u8]) -> Result<Hello, HelloFault>
    ensures { result ≡ hello_at bytes.now }
{
    if bytes.len() < usize::from(HELLO_FRONT) {
        return Err(HelloFault::Short);
    }
    if bytes[0] != 0x83 {
        return Err(HelloFault::Discriminator);
    }
    if bytes[2] != 1 || bytes[5] != 1 {
        return Err(HelloFault::Version);
    }
    if bytes[3] != 0 && bytes[3] != 6 {
        return Err(HelloFault::IdLength);
    }
    if bytes[4] % 32 != HELLO_TYPE {
        return Err(HelloFault::Type17);
    }
    if bytes[1] != HELLO_FRONT {
        return Err(HelloFault::HeaderLength);
    }
    read_body(&bytes[8..])
}

/// Parses the point-to-point hello at the start of the octets. Returns the first rule that they break, in the order of
/// [`HelloFault`] (ISO/IEC 10589, 9.7; RFC 5303, 3).
///
/// Octets past the PDU length are ignored. The circuit type, the local circuit ID, octets 6 and 7, and the high three bits of
/// the type are not tested, so the level makes no difference. Of several three-way adjacency TLVs the first counts.
pub fn read_hello(_level: Level, bytes: &[u8]) -> Result<Hello, HelloFault>
    // The result is a hello of the grammar.
    ensures found { IfOk result (λ h. IsHello bytes.now h) }
    // What is in the grammar is parsed, whatever follows it.
    ensures only { (h : HelloItem) → IsHello bytes.now h → result ≡ Ok h }
    // The exact result.
    ensures exact { result ≡ hello_at bytes.now }
{
    read_front(bytes)
}
