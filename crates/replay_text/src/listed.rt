//! The BFR-ids for which a payload is injected.
ghost use Rattle.std.specs.Prelude.{◌≡◌, ◌≤◌, ℕ, OnOk, option_map};
ghost use Rattle.std.specs.Ordering.{nat_cmp};
ghost use Rattle.std.specs.BTreeSet.{contains};
ghost use Rattle.wire_base.specs.model.Hop.{distinct, has};
ghost use Rattle.replay_text.specs.declared.fault.TextFault.TheVariants as fault;
ghost use Rattle.replay_text.specs.Reading.{Gives, or_fault};
ghost use Rattle.replay_text.specs.Pieces.{pieces};
ghost use Rattle.replay_text.specs.Arguments.{listed_ids, numbers_to, with_new};

use crate::fault::TextFault;
use crate::pieces::cut;
use crate::tokens::number_to;
use std::alloc::Global;
use std::collections::BTreeSet;
use wire_base::{M, Rows};

/// Adds an id, unless the list has it. `seen` has the same ids.
fn add_new(ids: &mut Rows<u16>, seen: &mut BTreeSet<u16>, id: u16) -> M<()>
    requires same { (k : ℕ) → contains nat_cmp seen.old k ≡ has ids.old k }
    ensures added { OnOk result (ids.new ≡ with_new ids.old id) }
    ensures same { OnOk result ((k : ℕ) → contains nat_cmp seen.new k ≡ has ids.new k) }
{
    if seen.insert(id)? {
        ids.push(id)?;
    }
    Ok(())
}

#[tactic(auto, unfolding(crate::specs::Arguments::numbers_to))]
fn read_pieces(alloc: Global, text: &[u8]) -> Result<Rows<u16>, TextFault>
    ensures { Gives (λ ids. ids) result (or_fault fault.Number (option_map distinct (numbers_to 65535 (pieces 44 text.now)))) }
{
    let mut ids = Rows::new(alloc);
    let mut seen = BTreeSet::new(alloc);
    let mut rest = text;
    'pieces: loop {
        let (piece, after) = cut(rest, b',');
        let id = number_to(piece, 65_535).ok_or(TextFault::Number)?;
        add_new(&mut ids, &mut seen, id as u16)?;
        match after {
            None => return Ok(ids),
            Some(next) => rest = next,
        }
    }
}

/// Parses a list of BFR-ids: numbers up to 65,535 separated by commas, in any order, or `-` for none. A repeated id is
/// returned once, at its first occurrence.
#[tactic(auto, unfolding(crate::specs::Arguments::listed_ids))]
pub fn read_listed(alloc: Global, text: &[u8]) -> Result<Rows<u16>, TextFault>
    ensures { Gives (λ ids. ids) result (or_fault fault.Number (listed_ids text.now)) }
{
    if text == b"-".as_slice() {
        return Ok(Rows::new(alloc));
    }
    read_pieces(alloc, text)
}
