//! The arrays of a domain file.
ghost use Rattle.std.specs.Prelude.{◌≡◌, ◌<◌, ◌≤◌, Some, length, map, is_some, option_map, IfOk};
ghost use Rattle.toml.specs.Data.{get_member};
ghost use Rattle.toml.specs.View.{view, table_view, items_view};
ghost use Rattle.domain_conf.specs.Reading.{Gives};
ghost use Rattle.domain_conf.specs.Arrays.{tables_in, tables_of};
ghost use Rattle.domain_conf.specs.Domain as spec;
ghost use Rattle.domain_conf.specs.Views.{arrays_view};

use crate::fault::ConfFault;
use std::alloc::Global;
use toml::{Table, Value};
use wire_base::Octets;
use wire_base::limits::{
    MOST_BIER_ENTRIES, MOST_LABEL_ENTRIES, MOST_LINK_ENTRIES, MOST_ROUTERS, MOST_TABLE_ROWS,
};

/// The entries of the arrays. No array has more entries than its limit.
#[derive(Clone, Copy)]
pub struct Arrays<'a> {
    pub subdomains: &'a [Value],
    pub rows: &'a [Value],
    pub routers: &'a [Value],
    pub biers: &'a [Value],
    pub labels: &'a [Value],
    pub links: &'a [Value],
}

/// Returns the value at a key of the top table.
pub fn member<'a>(top: &'a Table, key: &str) -> Option<&'a Value>
    ensures { option_map (λ v. view v.now) result ≡ get_member key.now (table_view top.now) }
{
    top.get(key)
}

fn are_tables(values: &[Value]) -> bool
    ensures { result ≡ is_some (tables_in (items_view values.now)) }
{
    for value in values {
        if !value.is_table() {
            return false;
        }
    }
    true
}

/// Returns the entries of an array of tables.
fn tables_of(value: &Value) -> Option<&[Value]>
    ensures { option_map (λ vs. map view vs.now) result ≡ tables_of (view value.now) }
{
    let values = value.as_array()?.as_slice();
    if are_tables(values) {
        Some(values)
    } else {
        None
    }
}

#[tactic(auto, unfolding(crate::specs::Arrays::array_at))]
fn array_of<'a>(
    alloc: Global,
    top: &'a Table,
    name: &str,
    most: usize,
) -> Result<&'a [Value], ConfFault>
    ensures value { Gives (λ vs. map view vs.now) result (spec.array_of name.now most (table_view top.now)) }
    ensures few { IfOk result (λ vs. length vs.now ≤ most) }
{
    let Some(value) = member(top, name) else {
        return Ok(&[]);
    };
    let Some(values) = tables_of(value) else {
        return Err(ConfFault::Field(Octets::from_slice(alloc, name.as_bytes())?));
    };
    if values.len() > most {
        return Err(ConfFault::Limit(Octets::from_slice(alloc, name.as_bytes())?));
    }
    Ok(values)
}

/// Reads the arrays of a file.
#[tactic(auto, unfolding(crate::specs::Domain::arrays_of))]
pub fn arrays_of<'a>(alloc: Global, top: &'a Table) -> Result<Arrays<'a>, ConfFault>
    ensures value { Gives arrays_view result (spec.arrays_of (table_view top.now)) }
    ensures few { IfOk result (λ arrays. length arrays.routers.now ≤ MOST_ROUTERS) }
{
    let subdomains = array_of(alloc, top, "subdomain", 8)?;
    let rows = array_of(alloc, top, "row", MOST_TABLE_ROWS)?;
    let routers = array_of(alloc, top, "router", MOST_ROUTERS)?;
    if routers.is_empty() {
        return Err(ConfFault::Limit(Octets::from_slice(alloc, b"router")?));
    }
    let biers = array_of(alloc, top, "bier", MOST_BIER_ENTRIES)?;
    let labels = array_of(alloc, top, "labels", MOST_LABEL_ENTRIES)?;
    let links = array_of(alloc, top, "link", MOST_LINK_ENTRIES)?;
    Ok(Arrays {
        subdomains,
        rows,
        routers,
        biers,
        labels,
        links,
    })
}
