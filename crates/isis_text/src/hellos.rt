//! A point-to-point hello (ISO/IEC 10589, 9.7; RFC 5303).
use crate::octets::show_refused;
use crate::tlvs::show_tlvs;
use isis_hello::{Hello, HelloFault, Tri, read_hello};
use std::fmt::Write;
use wire_base::fields::{read_octets, read_u16};
use wire_base::{Level, M};

/// Appends the line of a hello and the lines of its TLVs, and returns true; or the first rule that it breaks, and returns
/// false. A hello without a well-formed three-way adjacency TLV has its type alone, as ISO/IEC 10589 allows such hellos.
pub fn show_hello(text: &mut String, pdu: &[u8]) -> M<bool> {
    // The level of the circuit type is not tested.
    match read_hello(Level::Two, pdu) {
        Ok(hello) => {
            show_fields(text, &hello)?;
            show_tlvs(text, tlvs_of(pdu))?;
            Ok(true)
        }
        Err(HelloFault::ThreeWay) => {
            text.push_str("hello type 17\n")?;
            Ok(true)
        }
        Err(fault) => {
            show_refused(text, "", "hello", fault.number(), fault.name())?;
            Ok(false)
        }
    }
}

fn show_fields(text: &mut String, hello: &Hello) -> M<()> {
    let Hello {
        source,
        hold,
        circuit,
        state,
        named,
    } = *hello;
    let state = state_name(state);
    write!(
        text,
        "hello source {source} hold {hold} circuit {circuit} state {state}"
    )?;
    if let Some((system, circuit)) = named {
        write!(text, " neighbor {system} circuit {circuit}")?;
    }
    text.push('\n')?;
    Ok(())
}

fn state_name(state: Tri) -> &'static str {
    match state {
        Tri::Up => "up",
        Tri::Initializing => "initializing",
        Tri::Down => "down",
    }
}

/// Returns the TLVs of a hello: from its 21st octet to its PDU length.
fn tlvs_of(pdu: &[u8]) -> &[u8] {
    match tlvs_in(pdu) {
        Ok(tlvs) => tlvs,
        Err(_) => &[],
    }
}

fn tlvs_in(pdu: &[u8]) -> Result<&[u8], HelloFault> {
    let (_front, rest) = read_octets(HelloFault::PduLength, 17, pdu)?;
    let (size, rest) = read_u16(HelloFault::PduLength, rest)?;
    let (_local_circuit, rest) = read_octets(HelloFault::PduLength, 1, rest)?;
    let (tlvs, _after) = read_octets(
        HelloFault::PduLength,
        usize::from(size.saturating_sub(20)),
        rest,
    )?;
    Ok(tlvs)
}
