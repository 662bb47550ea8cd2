//! The topology that was computed last, which several LSDBs share.
ghost use Rattle.std.specs.Prelude.{◌≡◌, IfOk, IfSome};
ghost use Rattle.wire_base.specs.model.View.{nodes_of};
ghost use Rattle.lsp_store.specs.Topologies.{seen_claims};

use crate::alike::{are_alike, are_same_kinds};
use crate::entry_list::EntryList;
use std::alloc::Global;
use std::cell::RefCell;
use std::marker::Model;
use std::rc::Rc;
use wire_base::{Entry, M, Rows, SubKind, View};

/// A topology, and the kinds of sub-domains and the LSDB that it follows from.
#[derive(Drop)]
struct Noted {
    kinds: Rows<SubKind>,
    entries: Vec<Entry>,
    shared: Rc<View>,
}

impl Model for Noted {
    ghost use Rattle.std.specs.Prelude.{◌≡◌};
    ghost use Rattle.wire_base.specs.model.View.{nodes_of};
    ghost use Rattle.lsp_store.specs.Topologies.{NotedView, seen_claims};

    ghost Value = { NotedView };

    ghost view = { λ n. record { kinds = n.kinds; entries = n.entries.items; nodes = n.shared.value.nodes } };

    ghost invariant = { λ n. n.shared.value.nodes ≡ nodes_of (seen_claims n.kinds n.entries.items) };
}

fn copy_of(entry: &Entry) -> M<Entry>
    ensures { IfOk result (λ copied. copied ≡ entry.now) }
{
    Ok(Entry {
        id: entry.id,
        seq: entry.seq,
        life: entry.life,
        hold: entry.hold,
        sum: entry.sum,
        flags: entry.flags,
        content: entry.content.share()?,
    })
}

fn copies_of(alloc: Global, list: &EntryList) -> M<Vec<Entry>>
    ensures { IfOk result (λ copied. copied.items ≡ list.now.entries) }
{
    let mut copied = Vec::with_capacity(alloc, list.len())?;
    'entries: for place in 0..list.len() {
        copied.push(copy_of(list.at(place))?)?;
    }
    Ok(copied)
}

impl Noted {
    /// Returns the topology if it is that of an LSDB and of those kinds.
    fn known(&self, kinds: &[SubKind], list: &EntryList) -> M<Option<Rc<View>>>
        ensures { IfOk result (λ found. IfSome found (λ v. v.value.nodes ≡ nodes_of (seen_claims kinds.now list.now.entries))) }
    {
        if are_same_kinds(self.kinds.as_slice(), kinds)
            && are_alike(self.entries.as_slice(), list)
        {
            return Ok(Some(self.shared.clone()?));
        }
        Ok(None)
    }
}

/// The topology that was noted last, which several LSDBs share.
#[derive(Drop)]
pub(crate) struct Topologies {
    last: Rc<RefCell<Option<Noted>>>,
}

impl Topologies {
    /// Creates a memory of no topology.
    pub(crate) fn new(alloc: Global) -> M<Self> {
        Ok(Topologies {
            last: Rc::new(alloc, RefCell::new(None))?,
        })
    }

    /// Returns the same memory, for another LSDB.
    pub(crate) fn share(&self) -> M<Self> {
        Ok(Topologies {
            last: self.last.clone()?,
        })
    }

    /// Returns the topology that was noted last, if it is that of an LSDB and of those kinds.
    pub(crate) fn known(&self, kinds: &[SubKind], list: &EntryList) -> M<Option<Rc<View>>>
        ensures { IfOk result (λ found. IfSome found (λ v. v.value.nodes ≡ nodes_of (seen_claims kinds.now list.now.entries))) }
    {
        match self.last.try_borrow() {
            Ok(last) => known_in(&*last, kinds, list),
            Err(_) => Ok(None),
        }
    }

    /// Notes the topology of an LSDB, in place of the one before.
    pub(crate) fn note(
        &self,
        alloc: Global,
        kinds: &Rows<SubKind>,
        list: &EntryList,
        shared: &Rc<View>,
    ) -> M<()>
        requires { shared.now.value.nodes ≡ nodes_of (seen_claims kinds.now list.now.entries) }
    {
        let noted = Noted {
            kinds: kinds.copy()?,
            entries: copies_of(alloc, list)?,
            shared: shared.clone()?,
        };
        if let Ok(mut last) = self.last.try_borrow_mut() {
            *last = Some(noted);
        }
        Ok(())
    }
}

fn known_in(last: &Option<Noted>, kinds: &[SubKind], list: &EntryList) -> M<Option<Rc<View>>>
    ensures { IfOk result (λ found. IfSome found (λ v. v.value.nodes ≡ nodes_of (seen_claims kinds.now list.now.entries))) }
{
    match last {
        Some(noted) => noted.known(kinds, list),
        None => Ok(None),
    }
}
