//! The function that reads a domain file.
ghost use Rattle.std.specs.Prelude.{◌≡◌, ◌≤◌, codes, length, map};
ghost use Rattle.std.specs.List.{AllByRecursion};
ghost use Rattle.toml.specs.Data.{get_member};
ghost use Rattle.toml.specs.View.{table_view};
ghost use Rattle.domain_conf.specs.Assembled as assembled;
ghost use Rattle.domain_conf.specs.Domain.{document_read, domain_of, domain_of_table, known_top, level_at, area_at, entries_of};
ghost use Rattle.domain_conf.specs.Fields.{keys_of, unknown_in, refuse_key};
ghost use Rattle.domain_conf.specs.Reading.{Gives};
ghost use Rattle.domain_conf.specs.Views.{arrays_view, domain_view};
ghost use Rattle.wire_base.specs.model.Configuration.{DomainConf, IsValid};

use crate::arrays::{Arrays, arrays_of, member};
use crate::assemble::{Entries, confs_of, links_of};
use crate::bier::read_biers;
use crate::entry::unknown_in;
use crate::fault::ConfFault;
use crate::forms::{area_in, level_in};
use crate::labels::read_labels;
use crate::limits::within_limits;
use crate::links::read_links;
use crate::routers::read_routers;
use crate::rows::read_table;
use crate::subdomains::read_subdomains;
use std::alloc::Global;
use toml::Table;
use wire_base::limits::{DOMAIN_FILE_LIMIT, MOST_ROUTERS};
use wire_base::{Domain, Level, LinkConf, Octets, RouterConf, Rows};

/// The routers and links of a domain, before the domain is shown to be valid.
#[derive(Drop)]
pub struct Parts {
    pub routers: Rows<RouterConf>,
    pub links: Rows<LinkConf>,
}

/// Returns the level at the key `level`; 2 if it is missing.
#[tactic(auto, unfolding(crate::specs::Fields::field))]
fn level_at(alloc: Global, top: &Table) -> Result<Level, ConfFault>
    ensures { Gives (λ level. level) result (level_at (get_member (codes "level") (table_view top.now))) }
{
    let Some(value) = member(top, "level") else {
        return Ok(Level::Two);
    };
    let Some(n) = value.as_integer() else {
        return Err(ConfFault::Field(Octets::from_slice(alloc, b"level")?));
    };
    match level_in(n) {
        Some(level) => Ok(level),
        None => Err(ConfFault::Range(Octets::from_slice(alloc, b"level")?)),
    }
}

/// Returns the area address at the key `area`; 49.0001 if it is missing.
#[tactic(auto, unfolding(crate::specs::Fields::field))]
fn area_at(alloc: Global, top: &Table) -> Result<Octets, ConfFault>
    ensures { Gives (λ area. area) result (area_at (get_member (codes "area") (table_view top.now))) }
{
    let Some(value) = member(top, "area") else {
        return Ok(Octets::from_slice(alloc, &[0x49, 0, 1])?);
    };
    let Some(text) = value.as_str() else {
        return Err(ConfFault::Field(Octets::from_slice(alloc, b"area")?));
    };
    match area_in(alloc, text.as_bytes())? {
        Some(area) => Ok(area),
        None => Err(ConfFault::Range(Octets::from_slice(alloc, b"area")?)),
    }
}

/// Checks that the top table has no keys but these.
fn has_only(alloc: Global, top: &Table, known: &[&str]) -> Result<(), ConfFault>
    ensures { Gives (λ _. tt) result (refuse_key (λ k. k) (unknown_in (map (λ k. k.now) known.now) (keys_of (table_view top.now)))) }
{
    match unknown_in(top, known) {
        Some(key) => Err(ConfFault::Field(Octets::from_slice(alloc, key.as_bytes())?)),
        None => Ok(()),
    }
}

/// Checks that the top table has no unknown key.
fn has_known_keys(alloc: Global, top: &Table) -> Result<(), ConfFault>
    ensures { Gives (λ _. tt) result (known_top (table_view top.now)) }
{
    has_only(
        alloc,
        top,
        &[
            "level",
            "area",
            "subdomain",
            "row",
            "router",
            "bier",
            "labels",
            "link",
        ],
    )
}

/// Reads the entries, array by array.
#[tactic(auto, unfolding(crate::specs::Domain::entries_of))]
fn entries_of(alloc: Global, arrays: &Arrays) -> Result<Entries, ConfFault>
    requires few { length arrays.now.routers.now ≤ MOST_ROUTERS }
    ensures { Gives (λ e. e) result (entries_of (arrays_view arrays.now)) }
{
    let kinds = read_subdomains(alloc, arrays.subdomains)?;
    let table = read_table(alloc, kinds.as_slice(), arrays.rows)?;
    let routers = read_routers(alloc, arrays.routers)?;
    let biers = read_biers(alloc, kinds.as_slice(), &routers, arrays.biers)?;
    let labels = read_labels(alloc, kinds.as_slice(), &routers, &biers, arrays.labels)?;
    let links = read_links(alloc, &routers, arrays.links)?;
    Ok(Entries {
        kinds,
        table: table.into_rows(),
        routers,
        biers,
        labels,
        links,
    })
}

/// Builds the routers and links from the entries.
#[tactic(auto, unfolding(crate::specs::Assembled::domain_from))]
fn assemble(
    alloc: Global,
    level: Level,
    area: &Octets,
    entries: &Entries,
) -> Result<Parts, ConfFault>
    requires { AllByRecursion assembled.HasFewSubs (assembled.confs_from level area.now entries.now 0 entries.now.routers) }
    ensures { Gives domain_view result (assembled.domain_from level area.now entries.now) }
{
    let routers = confs_of(alloc, level, area, entries)?;
    within_limits(alloc, routers.as_slice())?;
    let links = links_of(alloc, entries.links.as_slice())?;
    Ok(Parts { routers, links })
}

/// Reads the domain from the top table.
#[tactic(auto, unfolding(crate::specs::Domain::domain_of_table))]
fn parts_of(alloc: Global, top: &Table) -> Result<Parts, ConfFault>
    ensures { Gives domain_view result (domain_of_table (table_view top.now)) }
{
    has_known_keys(alloc, top)?;
    let level = level_at(alloc, top)?;
    let area = area_at(alloc, top)?;
    let arrays = arrays_of(alloc, top)?;
    let entries = entries_of(alloc, &arrays)?;
    assemble(alloc, level, &area, &entries)
}

fn document(alloc: Global, bytes: &[u8]) -> Result<Table, ConfFault>
    ensures { Gives table_view result (document_read bytes.now) }
{
    let Ok(text) = std::str::from_utf8(bytes) else {
        return Err(ConfFault::Toml);
    };
    match toml::table_from_str(alloc, text) {
        Ok(table) => Ok(table),
        Err(fault) => if fault.is_memory() {
            Err(ConfFault::Memory)
        } else {
            Err(ConfFault::Toml)
        },
    }
}

#[tactic(auto, unfolding(crate::specs::Domain::domain_of))]
fn read_parts(alloc: Global, bytes: &[u8]) -> Result<Parts, ConfFault>
    ensures { Gives domain_view result (domain_of bytes.now) }
{
    if bytes.len() > DOMAIN_FILE_LIMIT {
        return Err(ConfFault::Limit(Octets::from_slice(alloc, b"-")?));
    }
    let top = document(alloc, bytes)?;
    parts_of(alloc, &top)
}

/// Reads a domain file. Returns the domain that it describes, or the first rule that it breaks. A domain that is
/// returned is valid.
pub fn read_domain(alloc: Global, bytes: &[u8]) -> Result<Domain, ConfFault>
    ensures domain { Gives (λ d. d) result (domain_of bytes.now) }
    ensures valid { (d : DomainConf) → domain_of bytes.now ≡ Ok d → IsValid d }
{
    let Parts { routers, links } = read_parts(alloc, bytes)?;
    Ok(Domain { routers, links })
}
