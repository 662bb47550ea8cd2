ghost use Rattle.std.specs.Prelude.{◌≡◌, ◌<◌, ◌≤◌, ◌++◌, ◌∷◌, [], insert, length, set, OnOk, OnErr, IfOk};

use crate::memory::M;
use smallvec::SmallVec;
use std::alloc::Global;
use std::default::MadeWith;
use std::marker::Model;

/// A list of values, modeled in contracts as a list. It does not allocate for up to `N` values: a topology has several
/// short lists for each router, most of one or two values.
#[derive(Drop)]
pub struct Few<T, const N: usize> {
    items: SmallVec<T, N>,
}

impl<T, const N: usize> Model for Few<T, N> {
    ghost use Rattle.std.specs.Prelude.{List};

    ghost Value = { List T };

    ghost view = { λ f. f.items.items };
}

impl<T, const N: usize> Few<T, N> {
    /// Returns the values as a slice.
    pub fn as_slice(&self) -> &[T]
        ensures { result.now ≡ self.now }
    {
        self.items.as_slice()
    }

    /// Returns the number of values.
    pub fn len(&self) -> usize
        ensures { result ≡ length self.now }
    {
        self.items.len()
    }

    /// Returns the allocator of the list.
    pub fn allocator(&self) -> Global {
        *self.items.allocator()
    }
}

impl<T: MadeWith<Global> + Drop, const N: usize> Few<T, N> {
    /// Creates an empty list. Does not allocate.
    pub fn new(alloc: Global) -> Self
        ensures { result ≡ [] }
    {
        Few {
            items: SmallVec::new(alloc),
        }
    }

    /// Appends a value. If an allocation fails, the value is dropped.
    pub fn push(&mut self, item: T) -> M<()>
        ensures ok { OnOk result (self.new ≡ self.old ++ item ∷ []) }
        ensures err { OnErr result (self.new ≡ self.old) }
    {
        self.items.push(item)?;
        Ok(())
    }

    /// Inserts a value before the one at index `place`, or at the end. If an allocation fails, the value is dropped.
    pub fn insert(&mut self, place: usize, item: T) -> M<()>
        requires { place ≤ length self.old }
        ensures ok { OnOk result (self.new ≡ insert self.old place item) }
        ensures err { OnErr result (self.new ≡ self.old) }
    {
        self.items.insert(place, item)?;
        Ok(())
    }

    /// Replaces the value at index `place`. Does not allocate.
    pub fn put(&mut self, place: usize, item: T)
        requires { place < length self.old }
        ensures { self.new ≡ set self.old place item }
    {
        self.items.as_mut_slice()[place] = item;
    }
}

impl<T: MadeWith<Global> + Copy, const N: usize> Few<T, N> {
    /// Creates a list of those values. Errors if an allocation fails.
    pub fn from_slice(alloc: Global, values: &[T]) -> M<Self>
        ensures { IfOk result (λ copied. copied ≡ values.now) }
    {
        Ok(Few {
            items: SmallVec::from_slice(alloc, values)?,
        })
    }

    /// Returns an equal list. Errors if an allocation fails.
    pub fn copy(&self) -> M<Self>
        ensures { IfOk result (λ copied. copied ≡ self.now) }
    {
        Few::from_slice(self.allocator(), self.as_slice())
    }
}
