//! LSPs that were verified before.
ghost use Rattle.std.specs.Prelude.{◌≡◌, ◌<◌, true, OnOk};
ghost use Rattle.isis_pdu.specs.Known.{IsVerified};

use byteorder::{BigEndian, ByteOrder};
use same_octets::are_same_octets;
use std::alloc::Global;
use std::cell::RefCell;
use std::marker::Model;
use std::rc::Rc;
use wire_base::{M, Octets};

/// For how many LSP IDs the last LSP is remembered. Where two share a place, the later one takes it.
const PLACES: u64 = 4_096;

/// The octets of an LSP from its LSP ID on. Its checksum is right, and its TLVs end where it ends.
#[derive(Drop)]
struct Verified {
    octets: Octets,
}

impl Model for Verified {
    ghost use Rattle.std.specs.Prelude.{ℕ, List};
    ghost use Rattle.isis_pdu.specs.Known.{IsVerified};

    ghost Value = { List ℕ };

    ghost view = { λ v. v.octets };

    ghost invariant = { λ v. IsVerified v.octets };
}

impl Verified {
    /// Creates a place for an LSP, without any.
    fn none(alloc: Global) -> Verified {
        Verified {
            octets: Octets::new(alloc),
        }
    }

    /// Returns whether an LSP is this one.
    fn is(&self, covered: &[u8]) -> bool
        ensures { result ≡ true → IsVerified covered.now }
    {
        are_same_octets(self.octets.as_slice(), covered)
    }
}

/// The LSPs that were verified last, by LSP ID: their checksums are right, and their TLVs end where they end.
///
/// The routers of a domain receive the same LSPs. Of those that share a `KnownLsps`, only the first one verifies an LSP. The other ones
/// compare its octets, which costs less. What is parsed is the same.
#[derive(Drop)]
pub struct KnownLsps {
    last: Rc<RefCell<Vec<Verified>>>,
}

/// Returns the place where the last LSP with that LSP ID, the first eight octets, is remembered.
fn place_of(covered: &[u8]) -> usize
    ensures { result < 4096 }
{
    if covered.len() < 8 {
        return 0;
    }
    let id = BigEndian::read_u64(covered);
    // Systems that are numbered in order have places of their own.
    let folded = (id >> 16) ^ (id >> 28) ^ (id >> 40) ^ id;
    (folded % PLACES) as usize
}

/// Returns whether an LSP is the one at a place.
fn is_at(last: &[Verified], place: usize, covered: &[u8]) -> bool
    ensures { result ≡ true → IsVerified covered.now }
{
    place < last.len() && last[place].is(covered)
}

/// Remembers a verified LSP at a place. If an allocation fails, it isn't remembered.
fn note_at(last: &mut Vec<Verified>, place: usize, covered: &[u8]) -> M<()>
    requires { IsVerified covered.now }
{
    let alloc = *last.allocator();
    'places: while last.len() <= place {
        last.push(Verified::none(alloc))?;
    }
    last[place] = Verified {
        octets: Octets::from_slice(alloc, covered)?,
    };
    Ok(())
}

impl KnownLsps {
    /// Creates a memory of no LSP.
    pub fn new(alloc: Global) -> M<Self> {
        Ok(KnownLsps {
            last: Rc::new(alloc, RefCell::new(Vec::new(alloc)))?,
        })
    }

    /// Returns the same memory, for another router.
    pub fn share(&self) -> M<Self> {
        Ok(KnownLsps {
            last: self.last.clone()?,
        })
    }

    /// Returns whether an LSP, from its LSP ID on, is remembered. It is verified then.
    pub(crate) fn has(&self, covered: &[u8]) -> bool
        ensures { result ≡ true → IsVerified covered.now }
    {
        match self.last.try_borrow() {
            Ok(last) => is_at(last.as_slice(), place_of(covered), covered),
            Err(_) => false,
        }
    }

    /// Remembers a verified LSP, from its LSP ID on, in place of the one before. If an allocation fails, it isn't remembered.
    pub(crate) fn note(&self, covered: &[u8])
        requires { IsVerified covered.now }
    {
        if let Ok(mut last) = self.last.try_borrow_mut() {
            let _noted = note_at(&mut *last, place_of(covered), covered);
        }
    }
}
