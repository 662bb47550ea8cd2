//! The byte order of a section.
ghost use Rattle.std.specs.Prelude.{◌≡◌, ◌≤◌, ◌+◌, length, drop};
ghost use Rattle.pcapng_frames.specs.Blocks.{number, order_of};

use byteorder::{BigEndian, ByteOrder, LittleEndian};

/// The byte order of all numbers of a section.
#[derive(Clone, Copy)]
pub enum Order {
    Big,
    Little,
}

impl Order {
    /// Returns the byte order of a byte-order magic, which was read with its highest octet first.
    pub fn of_magic(magic: u32) -> Option<Order>
        ensures { result ≡ order_of magic }
    {
        match magic {
            0x1a2b_3c4d => Some(Order::Big),
            0x4d3c_2b1a => Some(Order::Little),
            _ => None,
        }
    }

    /// Returns the 16-bit number at index `at`.
    pub fn two_at(self, bytes: &[u8], at: usize) -> u16
        requires { at + 2 ≤ length bytes.now }
        ensures { result ≡ number self 2 (drop at bytes.now) }
    {
        match self {
            Order::Big => BigEndian::read_u16(&bytes[at..]),
            Order::Little => LittleEndian::read_u16(&bytes[at..]),
        }
    }

    /// Returns the 32-bit number at index `at`.
    pub fn four_at(self, bytes: &[u8], at: usize) -> u32
        requires { at + 4 ≤ length bytes.now }
        ensures { result ≡ number self 4 (drop at bytes.now) }
    {
        match self {
            Order::Big => BigEndian::read_u32(&bytes[at..]),
            Order::Little => LittleEndian::read_u32(&bytes[at..]),
        }
    }
}
