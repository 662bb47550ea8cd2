//! The LSP entries of CSNPs and PSNPs (ISO/IEC 10589, 9.10).
ghost use Rattle.std.specs.Prelude.{◌≡◌, ◌≤◌, ◌+◌, ◌++◌, length, take, IfOk, OnOk, OnErr};
ghost use Rattle.wire_base.specs.model.Tlv.{row_at, entries_of, rows_in, rows_of};
ghost use Rattle.isis_tlv.specs.Views.{item};

use isis_tlv::{SummaryWalk, Tlv, TlvWalk};
use std::alloc::Global;
use std::mem::replace;
use wire_base::{M, Rows, Summary};

/// The code of the TLVs that list LSP entries.
const ENTRIES: u8 = 9;

/// Appends the LSP entries in the value of such a TLV, up to the first invalid one. If an allocation fails, some may have been
/// appended.
fn append_entries(rows: &mut Rows<Summary>, value: &[u8]) -> M<()>
    ensures ok { OnOk result (rows.new ≡ rows.old ++ entries_of row_at value.now) }
    ensures err { OnErr result (take (length rows.old) rows.new ≡ rows.old) }
{
    for entry in SummaryWalk::new(value) {
        if let Ok(summary) = entry {
            rows.push(summary)?;
        }
    }
    Ok(())
}

/// Appends the LSP entries of a TLV.
fn append_item(rows: &mut Rows<Summary>, tlv: Tlv<'_>) -> M<()>
    ensures ok { OnOk result (rows.new ≡ rows.old ++ rows_in (item tlv.entry)) }
    ensures err { OnErr result (take (length rows.old) rows.new ≡ rows.old) }
{
    if tlv.code == ENTRIES {
        append_entries(rows, tlv.value)
    } else {
        Ok(())
    }
}

/// Appends the LSP entries of those TLVs, in order, up to an overrun.
fn append_items(rows: &mut Rows<Summary>, tlvs: &[u8]) -> M<()>
    ensures ok { OnOk result (rows.new ≡ rows.old ++ rows_of tlvs.now) }
    ensures err { OnErr result (take (length rows.old) rows.new ≡ rows.old) }
{
    for tlv in TlvWalk::new(tlvs) {
        if let Ok(tlv) = tlv {
            append_item(rows, tlv)?;
        }
    }
    Ok(())
}

/// Keeps the first `len` rows, and the capacity. Does not allocate.
fn keep_first(rows: &mut Rows<Summary>, len: usize)
    ensures { rows.new ≡ take len rows.old }
{
    let alloc = rows.allocator();
    let mut kept = replace(rows, Rows::new(alloc)).into_vec();
    kept.truncate(len);
    *rows = Rows::from_vec(kept);
}

/// Appends the LSP entries of those TLVs, in order, up to an overrun. If an allocation fails, none is appended.
pub fn append_listed(rows: &mut Rows<Summary>, tlvs: &[u8]) -> M<()>
    ensures ok { OnOk result (rows.new ≡ rows.old ++ rows_of tlvs.now) }
    ensures few { OnOk result (length rows.new ≤ length rows.old + length tlvs.now) }
    ensures err { OnErr result (rows.new ≡ rows.old) }
{
    let before = rows.len();
    match append_items(rows, tlvs) {
        Ok(()) => Ok(()),
        Err(memory) => {
            keep_first(rows, before);
            Err(memory)
        }
    }
}

/// Returns the LSP entries of those TLVs.
pub fn listed(alloc: Global, tlvs: &[u8]) -> M<Rows<Summary>>
    ensures rows { IfOk result (λ rows. rows ≡ rows_of tlvs.now) }
    ensures few { IfOk result (λ rows. length rows ≤ length tlvs.now) }
{
    let mut rows = Rows::new(alloc);
    append_listed(&mut rows, tlvs)?;
    Ok(rows)
}
