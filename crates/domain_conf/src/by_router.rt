//! Entries that belong to routers, with a look-up by router.
ghost use Rattle.std.specs.Prelude.{◌≡◌, ℕ, ◌<◌, ◌==◌, vec_len, List, [], ◌∷◌, ◌++◌, filter, slice_index_or, IfOk, OnOk, if◌then◌else◌};
ghost use Rattle.domain_conf.specs.ByRouter.{is_at};

use std::alloc::Global;
use std::marker::Model;
use wire_base::{M, Rows};

/// An entry that belongs to two routers, or twice to one.
pub trait AtRouters {
    ghost routers_of: { Self → ℕ × ℕ };

    /// Returns the indices of the two routers.
    fn routers(&self) -> (u16, u16)
        ensures { result ≡ routers_of self.now };
}

/// Entries in the order of the file, and a second time grouped by router, so that a look-up among a router's entries
/// does not scan all of them.
#[derive(Drop)]
pub struct ByRouter<T: AtRouters> {
    all: Rows<T>,
    groups: Vec<Rows<T>>,
}

impl<T: AtRouters> Model for ByRouter<T> {
    ghost use Rattle.std.specs.Prelude.{List};
    ghost use Rattle.domain_conf.specs.ByRouter.{AreGroups};

    ghost Value = { List T };

    ghost view = { λ b. b.all };

    ghost invariant = { λ b. AreGroups T.routers_of b.all b.groups.items };
}

fn put<T: Copy + Drop>(alloc: Global, groups: &mut Vec<Rows<T>>, router: usize, item: T) -> M<()>
    ensures { OnOk result ((i : ℕ) → slice_index_or groups.new.items i [] ≡ (if i == router then slice_index_or groups.old.items i [] ++ item ∷ [] else slice_index_or groups.old.items i [])) }
{
    grow(alloc, groups, router)?;
    groups[router].push(item)
}

impl<T: AtRouters + Copy + Drop> ByRouter<T> {
    /// Returns an empty collection.
    pub fn new(alloc: Global) -> Self
        ensures { result ≡ [] }
    {
        ByRouter {
            all: Rows::new(alloc),
            groups: Vec::new(alloc),
        }
    }

    /// Returns all entries.
    pub fn as_slice(&self) -> &[T]
        ensures { result.now ≡ self.now }
    {
        self.all.as_slice()
    }

    /// Returns the entries of a router.
    pub fn of(&self, router: u16) -> &[T]
        ensures { result.now ≡ filter (is_at T.routers_of router) self.now }
    {
        match self.groups.get(usize::from(router)) {
            Some(group) => group.as_slice(),
            None => &[],
        }
    }

    /// Returns the collection with one more entry.
    pub fn with(self, alloc: Global, item: T) -> M<Self>
        ensures { IfOk result (λ grown. grown ≡ self ++ item ∷ []) }
    {
        let ByRouter {
            mut all,
            mut groups,
        } = self;
        let (first, second) = item.routers();
        put(alloc, &mut groups, usize::from(first), item)?;
        if first != second {
            put(alloc, &mut groups, usize::from(second), item)?;
        }
        all.push(item)?;
        Ok(ByRouter { all, groups })
    }
}

// Appends empty groups up to that router.
fn grow<T: Drop>(alloc: Global, groups: &mut Vec<Rows<T>>, router: usize) -> M<()>
    ensures same { OnOk result ((i : ℕ) → slice_index_or groups.new.items i [] ≡ slice_index_or groups.old.items i []) }
    ensures room { OnOk result (router < vec_len groups.new) }
{
    'groups: while groups.len() <= router {
        groups.push(Rows::new(alloc))?;
    }
    Ok(())
}
