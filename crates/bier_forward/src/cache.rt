//! What a router caches for its present topology.
ghost use Rattle.std.specs.Prelude.{◌≤◌, length};
ghost use Rattle.bier_forward.specs.declared.cache.TheConstants.{MOST_ROWS, MOST_TABLES};

use crate::routes::{ClassTable, TripleRows};
use bier_tunnel::Fib;

/// The maximum number of triples whose rows are cached.
pub const MOST_ROWS: usize = 4;

/// The maximum number of cached tables.
pub const MOST_TABLES: usize = 4;

/// What a router caches for its present topology: the rows of the last few triples; their tables, each for all classes that select
/// the same routers, the newest first; and the routes of tunnels. All are built on first use, and all belong to one topology:
/// another topology starts with an empty cache.
#[derive(Drop)]
pub struct Routes {
    pub(crate) rows: Vec<TripleRows>,
    pub(crate) tables: Vec<ClassTable>,
    pub(crate) fib: Option<Fib>,
    ghost few_rows: { length rows.items ≤ MOST_ROWS },
    ghost few_tables: { length tables.items ≤ MOST_TABLES },
}
