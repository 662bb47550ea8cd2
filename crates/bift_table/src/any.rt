ghost use Rattle.std.specs.Prelude.{◌≡◌, ◌<◌, IfOk, length};
ghost use Rattle.wire_base.specs.model.Place.{bits_of};
ghost use Rattle.bift_table.specs.Bift.{table_of};
ghost use Rattle.bift_table.specs.Any.{bsl_of, any_of, positions_of};

use crate::table::Table;
use std::alloc::Global;
use wire_base::{Bsl, M, RowSet};

/// A BIFT for one of the seven BitStringLengths (RFC 8296, 2.1.2), modeled as that length and the list of the routers
/// of its positions.
///
/// Contracts use the length, `bsl_of`, and that list, `positions_of`.
#[derive(Drop)]
pub enum AnyTable {
    B64(Table<1>),
    B128(Table<2>),
    B256(Table<4>),
    B512(Table<8>),
    B1024(Table<16>),
    B2048(Table<32>),
    B4096(Table<64>),
}

impl AnyTable {
    /// Builds the table of an entropy class, below 16, over the positions of that BSL. Each position leads to the router at index
    /// `class` modulo the size of the position's list; it has no entry if the list is empty (RFC 8279, 6.7). `rows` must have
    /// a list for each bit. Errors with Memory if an allocation fails.
    pub fn build(alloc: Global, bsl: Bsl, rows: &RowSet, class: u8) -> M<AnyTable>
        requires lists { length rows.now.bits ≡ bits_of bsl }
        requires class { class < 16 }
        ensures table { IfOk result (λ table. positions_of table ≡ table_of rows.now.bits class) }
        ensures bsl { IfOk result (λ table. bsl_of table ≡ bsl) }
        ensures whole { IfOk result (λ table. table ≡ any_of bsl (table_of rows.now.bits class)) }
    {
        match bsl {
            Bsl::B64 => Ok(AnyTable::B64(Table::build(alloc, rows, class)?)),
            Bsl::B128 => Ok(AnyTable::B128(Table::build(alloc, rows, class)?)),
            Bsl::B256 => Ok(AnyTable::B256(Table::build(alloc, rows, class)?)),
            Bsl::B512 => Ok(AnyTable::B512(Table::build(alloc, rows, class)?)),
            Bsl::B1024 => Ok(AnyTable::B1024(Table::build(alloc, rows, class)?)),
            Bsl::B2048 => Ok(AnyTable::B2048(Table::build(alloc, rows, class)?)),
            Bsl::B4096 => Ok(AnyTable::B4096(Table::build(alloc, rows, class)?)),
        }
    }

    /// Returns the length. Does not allocate.
    pub fn bsl(&self) -> Bsl
        ensures { result ≡ bsl_of self.now }
    {
        match self {
            AnyTable::B64(_) => Bsl::B64,
            AnyTable::B128(_) => Bsl::B128,
            AnyTable::B256(_) => Bsl::B256,
            AnyTable::B512(_) => Bsl::B512,
            AnyTable::B1024(_) => Bsl::B1024,
            AnyTable::B2048(_) => Bsl::B2048,
            AnyTable::B4096(_) => Bsl::B4096,
        }
    }
}
