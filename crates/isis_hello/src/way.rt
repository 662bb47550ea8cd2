//! The three-way adjacency TLV (RFC 5303, 3).
ghost use Rattle.std.specs.Prelude.{◌≡◌};
ghost use Rattle.isis_tlv.specs.Views.{item};
ghost use Rattle.isis_hello.specs.Hello.{tri_at, neighbor_at, named_at, way_at, found_with, way_in};

use crate::codepoints::TLV_THREE_WAY;
use crate::fault::HelloFault;
use crate::hello::Tri;
use isis_tlv::{Tlv, TlvWalk};
use wire_base::SystemId;
use wire_base::fields::{read_six, read_u8, read_u32};

/// What a three-way adjacency TLV lists: the state of the adjacency, the sender's circuit, and the neighbor's system ID
/// and circuit.
#[derive(Clone, Copy, Debug, PartialEq, Eq)]
pub struct ThreeWay {
    pub state: Tri,
    pub circuit: u32,
    pub named: Option<(SystemId, u32)>,
}

fn read_state(number: u8) -> Result<Tri, HelloFault>
    ensures { result ≡ tri_at number }
{
    match number {
        0 => Ok(Tri::Up),
        1 => Ok(Tri::Initializing),
        2 => Ok(Tri::Down),
        _ => Err(HelloFault::ThreeWay),
    }
}

#[tactic(auto, unfolding(crate::specs::Hello::neighbor_at))]
fn read_neighbor(bytes: &[u8]) -> Result<Option<(SystemId, u32)>, HelloFault>
    ensures { result ≡ neighbor_at bytes.now }
{
    let (system, rest) = read_six(HelloFault::ThreeWay, bytes)?;
    let (circuit, rest) = read_u32(HelloFault::ThreeWay, rest)?;
    if !rest.is_empty() {
        return Err(HelloFault::ThreeWay);
    }
    Ok(Some((SystemId(system), circuit)))
}

#[tactic(auto, unfolding(crate::specs::Hello::named_at))]
fn read_named(bytes: &[u8]) -> Result<Option<(SystemId, u32)>, HelloFault>
    ensures { result ≡ named_at bytes.now }
{
    if bytes.is_empty() {
        return Ok(None);
    }
    read_neighbor(bytes)
}

/// Parses the value of a three-way adjacency TLV.
#[tactic(auto, unfolding(crate::specs::Hello::way_at))]
fn read_way(value: &[u8]) -> Result<ThreeWay, HelloFault>
    ensures { result ≡ way_at value.now }
{
    let (number, rest) = read_u8(HelloFault::ThreeWay, value)?;
    let state = read_state(number)?;
    let (circuit, rest) = read_u32(HelloFault::ThreeWay, rest)?;
    let named = read_named(rest)?;
    Ok(ThreeWay {
        state,
        circuit,
        named,
    })
}

/// Returns what the first three-way adjacency TLV up to this one lists, given that of the TLVs before it.
fn found_with(
    found: Option<Result<ThreeWay, HelloFault>>,
    tlv: Tlv<'_>,
) -> Option<Result<ThreeWay, HelloFault>>
    ensures { result ≡ found_with found (item tlv.entry) }
{
    if found.is_none() && tlv.code == TLV_THREE_WAY {
        return Some(read_way(tlv.value));
    }
    found
}

/// Parses the first three-way adjacency TLV among TLVs. An overrun of any TLV comes first.
pub(crate) fn way_in(tlvs: &[u8]) -> Result<ThreeWay, HelloFault>
    ensures { result ≡ way_in tlvs.now }
{
    let mut found = None;
    let mut walk = TlvWalk::new(tlvs);
    'entries: loop {
        match walk.next() {
            Err(_) => return Err(HelloFault::Tlv),
            Ok(None) => return found.unwrap_or(Err(HelloFault::ThreeWay)),
            Ok(Some(tlv)) => found = found_with(found, tlv),
        }
    }
}
