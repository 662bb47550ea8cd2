//! The rows of 4,096 positions over 512 neighbors.
ghost use Rattle.std.specs.Prelude.{◌≡◌, ◌+◌, IfOk, OnOk, length};

use std::alloc::Global;
use wire_base::{First, FirstLists, M, PositionRows, RowSet, SystemId};

const NEIGHBOURS: u16 = 512;

/// Returns the routers to which each position leads.
pub fn rows(alloc: Global) -> M<RowSet>
    ensures { IfOk result (λ rows. length rows.bits ≡ 4096) }
{
    let mut stored = FirstLists::new(alloc);
    for place in 0..4096 {
        push_row(&mut stored, place)?;
    }
    Ok(RowSet {
        bits: PositionRows::new(stored, 4096),
    })
}

/// Appends the row of a position: every sixteenth position has none; the others lead to all neighbors in turn.
fn push_row(stored: &mut FirstLists, place: u16) -> M<()>
    ensures { OnOk result (length stored.new ≡ length stored.old + 1) }
{
    stored.begin()?;
    if place % 16 == 15 {
        return Ok(());
    }
    let neighbour = place % NEIGHBOURS;
    stored.push(First {
        system: SystemId([2, 0, 0, 0, (neighbour / 256) as u8, (neighbour % 256) as u8]),
        direct: Some(neighbour),
    })?;
    Ok(())
}
