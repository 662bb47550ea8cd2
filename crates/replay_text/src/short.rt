//! Texts that are stored without an allocation.
ghost use Rattle.std.specs.Prelude.{◌≡◌, ◌≤◌, ℕ, List, take, length};
ghost use Rattle.std.specs.Fmt.{decimal};

use itoa::Buffer;
use std::marker::Model;

/// The room of a short text in octets.
pub(crate) const SHORT: usize = 32;

/// At most 32 octets, modeled as their list.
///
/// It is as long as a router's name can be.
#[derive(Drop)]
pub struct ShortText {
    room: [u8; SHORT],
    len: usize,
}

impl Model for ShortText {
    ghost use Rattle.std.specs.Prelude.{List, ℕ, ◌≤◌, take};

    ghost Value = { List ℕ };

    ghost view = { λ s. take s.len s.room };

    ghost invariant = { λ s. s.len ≤ 32 };
}

impl ShortText {
    /// Creates a text of those octets.
    pub fn from_slice(text: &[u8]) -> Self
        requires { length text.now ≤ 32 }
        ensures { result ≡ text.now }
    {
        let mut room = [0; SHORT];
        room[..text.len()].copy_from_slice(text);
        ShortText {
            room,
            len: text.len(),
        }
    }

    /// Creates the decimal digits of a number.
    pub fn number(number: u64) -> Self
        ensures text { result ≡ decimal number }
        ensures few { length result ≤ 20 }
    {
        let mut digits = Buffer::new();
        ShortText::from_slice(digits.format(number).as_bytes())
    }

    /// Returns an equal text.
    pub fn copy(&self) -> Self
        ensures { result ≡ self.now }
    {
        ShortText {
            room: self.room,
            len: self.len,
        }
    }

    /// Returns the octets as a slice.
    pub fn as_slice(&self) -> &[u8]
        ensures { result.now ≡ self.now }
    {
        &self.room[..self.len]
    }

    /// Returns the number of octets.
    pub(crate) fn len(&self) -> usize
        ensures value { result ≡ length self.now }
        ensures fits { result ≤ 32 }
    {
        self.len
    }

    /// Returns the whole room, which begins with the octets.
    pub(crate) fn room(&self) -> &[u8; SHORT]
        ensures length { length result.now ≡ 32 }
        ensures text { take (length self.now) result.now ≡ self.now }
    {
        &self.room
    }
}
