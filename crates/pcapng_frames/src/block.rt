//! The block at the front of what was received so far.
ghost use Rattle.std.specs.Prelude.{◌≡◌, ◌≤◌, length, drop, Ok, None, Some, IfOk, IfErr, nat_lt, if◌then◌else◌};
ghost use Rattle.byteorder.specs.Endian.{big_number};
ghost use Rattle.pcapng_frames.specs.Blocks.{least, is_length, order_of, sized_at, section_at, inner_at, block_at};
ghost use Rattle.pcapng_frames.specs.Seen.{IsWithin, IsLasting};

use crate::faults::NgFault;
use crate::order::Order;
use byteorder::{BigEndian, ByteOrder};

/// The types of blocks that are read. That of a section header is the same in both byte orders.
pub const SECTION_HEADER: u32 = 0x0a0d_0d0a;

pub const INTERFACE: u32 = 1;

pub const SIMPLE_PACKET: u32 = 3;

pub const ENHANCED_PACKET: u32 = 6;

/// The maximum total length of a block in octets.
pub const LONGEST_BLOCK: u32 = 16_777_216;

/// A whole block: its byte order, its type, and its total length in octets.
#[derive(Clone, Copy)]
pub struct Block {
    pub order: Order,
    pub kind: u32,
    pub size: usize,
}

/// Returns the block at the front, in a section of that byte order; None if it is not whole yet.
#[tactic(auto, unfolding(crate::specs::Blocks::block_at))]
pub fn read_block(within: Option<Order>, bytes: &[u8]) -> Result<Option<Block>, NgFault>
    ensures exact { result ≡ block_at within bytes.now }
    ensures within { IfOk result (IsWithin (length bytes.now)) }
    ensures lasting { IfErr result IsLasting }
{
    if bytes.len() < 4 {
        return Ok(None);
    }
    if BigEndian::read_u32(bytes) == SECTION_HEADER {
        return read_section(bytes);
    }
    match within {
        Some(order) => read_inner(order, bytes),
        None => Err(NgFault::NgMagic),
    }
}

/// The same for a section header.
fn read_section(bytes: &[u8]) -> Result<Option<Block>, NgFault>
    requires { 4 ≤ length bytes.now }
    ensures exact { result ≡ (if nat_lt (length bytes.now) 12 then Ok None else section_at (order_of (big_number 4 (drop 8 bytes.now))) bytes.now) }
    ensures within { IfOk result (IsWithin (length bytes.now)) }
    ensures lasting { IfErr result IsLasting }
{
    if bytes.len() < 12 {
        return Ok(None);
    }
    match Order::of_magic(BigEndian::read_u32(&bytes[8..])) {
        Some(order) => read_sized(order, SECTION_HEADER, order.four_at(bytes, 4), bytes),
        None => Err(NgFault::NgOrder),
    }
}

/// The same for a block of another type.
fn read_inner(order: Order, bytes: &[u8]) -> Result<Option<Block>, NgFault>
    requires { 4 ≤ length bytes.now }
    ensures exact { result ≡ inner_at (Some order) bytes.now }
    ensures within { IfOk result (IsWithin (length bytes.now)) }
    ensures lasting { IfErr result IsLasting }
{
    if bytes.len() < 8 {
        return Ok(None);
    }
    read_sized(
        order,
        order.four_at(bytes, 0),
        order.four_at(bytes, 4),
        bytes,
    )
}

/// The same for a block whose type and total length were read.
fn read_sized(order: Order, kind: u32, total: u32, bytes: &[u8]) -> Result<Option<Block>, NgFault>
    ensures exact { result ≡ sized_at order kind total bytes.now }
    ensures within { IfOk result (IsWithin (length bytes.now)) }
    ensures lasting { IfErr result IsLasting }
{
    if !is_total(kind, total) {
        return Err(NgFault::NgLength);
    }
    let size = total as usize;
    if bytes.len() < size {
        return Ok(None);
    }
    if order.four_at(bytes, size - 4) != total {
        return Err(NgFault::NgLength);
    }
    Ok(Some(Block { order, kind, size }))
}

/// Returns whether a block of that type may have that total length.
fn is_total(kind: u32, total: u32) -> bool
    ensures { result ≡ is_length kind total }
{
    least_total(kind) <= total && total % 4 == 0 && total <= LONGEST_BLOCK
}

/// Returns the least total length of a block of that type.
fn least_total(kind: u32) -> u32
    ensures exact { result ≡ least kind }
    ensures room { 12 ≤ result }
{
    match kind {
        SECTION_HEADER => 28,
        INTERFACE => 20,
        ENHANCED_PACKET => 32,
        SIMPLE_PACKET => 16,
        _ => 12,
    }
}
