ghost use Rattle.std.specs.Prelude.{◌≡◌, ◌<◌, ◌++◌, ◌∷◌, [], length, set, take, OnOk, OnErr, IfOk};
ghost use Rattle.std.specs.Fmt.{decimal};

use crate::memory::M;
use itoa::Buffer;
use std::alloc::Global;
use std::marker::Model;

/// A list of octets, modeled in contracts as a list of numbers below 256.
#[derive(Drop)]
pub struct Octets {
    octets: Vec<u8>,
}

impl Model for Octets {
    ghost use Rattle.std.specs.Prelude.{List, ℕ};

    ghost Value = { List ℕ };

    ghost view = { λ o. o.octets.items };
}

impl Octets {
    /// Creates an empty list.
    pub fn new(alloc: Global) -> Self
        ensures { result ≡ [] }
    {
        Octets::from_vec(Vec::new(alloc))
    }

    /// Creates an empty list with capacity for `room` octets. Errors if the allocation fails.
    pub fn with_room(alloc: Global, room: usize) -> M<Self>
        ensures { IfOk result (λ octets. octets ≡ []) }
    {
        Ok(Octets::from_vec(Vec::with_capacity(alloc, room)?))
    }

    /// Creates a list of those octets. Errors if an allocation fails.
    pub fn from_slice(alloc: Global, octets: &[u8]) -> M<Self>
        ensures { IfOk result (λ copied. copied ≡ octets.now) }
    {
        Ok(Octets::from_vec(Vec::from_slice(alloc, octets)?))
    }

    /// Creates a list from a vector of octets.
    pub fn from_vec(octets: Vec<u8>) -> Self
        ensures { result ≡ octets.items }
    {
        Octets { octets }
    }

    /// Converts the list to a vector of the same octets.
    pub fn into_vec(self) -> Vec<u8>
        ensures { result.items ≡ self }
    {
        self.octets
    }

    /// Returns an equal list. Errors if an allocation fails.
    pub fn copy(&self) -> M<Self>
        ensures { IfOk result (λ copied. copied ≡ self.now) }
    {
        Octets::from_slice(*self.octets.allocator(), self.as_slice())
    }

    /// Returns the octets as a slice.
    pub fn as_slice(&self) -> &[u8]
        ensures { result.now ≡ self.now }
    {
        self.octets.as_slice()
    }

    /// Returns the number of octets.
    pub fn len(&self) -> usize
        ensures { result ≡ length self.now }
    {
        self.octets.len()
    }

    /// Appends one octet. If an allocation fails, the list is unchanged.
    #[inline(always)]
    pub fn push(&mut self, octet: u8) -> M<()>
        ensures ok { OnOk result (self.new ≡ self.old ++ octet ∷ []) }
        ensures err { OnErr result (self.new ≡ self.old) }
    {
        self.octets.push(octet)?;
        Ok(())
    }

    /// Appends a slice of octets. If an allocation fails, the list is unchanged.
    #[inline(always)]
    pub fn append(&mut self, octets: &[u8]) -> M<()>
        ensures ok { OnOk result (self.new ≡ self.old ++ octets.now) }
        ensures err { OnErr result (self.new ≡ self.old) }
    {
        self.octets.extend_from_slice(octets)?;
        Ok(())
    }

    /// Appends both slices, or neither if an allocation fails.
    pub fn append_two(&mut self, first: &[u8], second: &[u8]) -> M<()>
        ensures ok { OnOk result (self.new ≡ self.old ++ (first.now ++ second.now)) }
        ensures err { OnErr result (self.new ≡ self.old) }
    {
        let before = self.len();
        self.append(first)?;
        let done = self.append(second);
        if done.is_err() {
            self.truncate(before);
        }
        done
    }

    /// Appends the decimal digits of a number.
    pub fn append_number(&mut self, number: u64) -> M<()>
        ensures ok { OnOk result (self.new ≡ self.old ++ decimal number) }
        ensures err { OnErr result (self.new ≡ self.old) }
    {
        let mut digits = Buffer::new();
        self.append(digits.format(number).as_bytes())
    }

    /// Shortens the list to its first `len` octets.
    pub fn truncate(&mut self, len: usize)
        ensures { self.new ≡ take len self.old }
    {
        self.octets.truncate(len);
    }
}

/// A name in ASCII, modeled in contracts as the list of its octets.
#[derive(Drop)]
pub struct Name {
    text: Vec<u8>,
}

impl Model for Name {
    ghost use Rattle.std.specs.Prelude.{List, ℕ};

    ghost Value = { List ℕ };

    ghost view = { λ n. n.text.items };
}

impl Name {
    /// Creates the name with those octets. Errors if an allocation fails.
    pub fn from_slice(alloc: Global, text: &[u8]) -> M<Self>
        ensures { IfOk result (λ name. name ≡ text.now) }
    {
        Ok(Name {
            text: Vec::from_slice(alloc, text)?,
        })
    }

    /// Returns an equal name. Errors if an allocation fails.
    pub fn copy(&self) -> M<Self>
        ensures { IfOk result (λ copied. copied ≡ self.now) }
    {
        Name::from_slice(*self.text.allocator(), self.as_slice())
    }

    /// Returns the octets of the name.
    pub fn as_slice(&self) -> &[u8]
        ensures { result.now ≡ self.now }
    {
        self.text.as_slice()
    }
}

/// A list of values, modeled in contracts as a list.
#[derive(Drop)]
pub struct Rows<T> {
    items: Vec<T>,
}

impl<T> Model for Rows<T> {
    ghost use Rattle.std.specs.Prelude.{List};

    ghost Value = { List T };

    ghost view = { λ r. r.items.items };
}

impl<T> Rows<T> {
    /// Creates an empty list.
    pub fn new(alloc: Global) -> Self
        ensures { result ≡ [] }
    {
        Rows {
            items: Vec::new(alloc),
        }
    }

    /// Creates a list from a vector. It keeps the vector's capacity.
    pub fn from_vec(values: Vec<T>) -> Self
        ensures { result ≡ values.items }
    {
        Rows { items: values }
    }

    /// Converts the list to a vector of the same values.
    pub fn into_vec(self) -> Vec<T>
        ensures { result.items ≡ self }
    {
        self.items
    }

    /// Returns the values as a slice.
    pub fn as_slice(&self) -> &[T]
        ensures { result.now ≡ self.now }
    {
        self.items.as_slice()
    }

    /// Returns the allocator of the list.
    pub fn allocator(&self) -> Global {
        *self.items.allocator()
    }

    /// Returns the number of values.
    pub fn len(&self) -> usize
        ensures { result ≡ length self.now }
    {
        self.items.len()
    }
}

impl<T: Copy> Rows<T> {
    /// Creates a list of those values. Errors if an allocation fails.
    pub fn from_slice(alloc: Global, values: &[T]) -> M<Self>
        ensures { IfOk result (λ copied. copied ≡ values.now) }
    {
        Ok(Rows {
            items: Vec::from_slice(alloc, values)?,
        })
    }

    /// Returns an equal list. Errors if an allocation fails.
    pub fn copy(&self) -> M<Self>
        ensures { IfOk result (λ copied. copied ≡ self.now) }
    {
        Rows::from_slice(*self.items.allocator(), self.as_slice())
    }
}

impl<T: Drop> Rows<T> {
    /// Appends a value. If an allocation fails, the value is dropped.
    pub fn push(&mut self, item: T) -> M<()>
        ensures ok { OnOk result (self.new ≡ self.old ++ item ∷ []) }
        ensures err { OnErr result (self.new ≡ self.old) }
    {
        self.items.push(item)?;
        Ok(())
    }

    /// Replaces the value at index `place`. Does not allocate.
    pub fn put(&mut self, place: usize, item: T)
        requires { place < length self.old }
        ensures { self.new ≡ set self.old place item }
    {
        self.items[place] = item;
    }
}
