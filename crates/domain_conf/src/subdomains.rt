//! The entries of `subdomain`.
ghost use Rattle.std.specs.Prelude.{◌≡◌, ◌≤◌, [], map, IfOk};
ghost use Rattle.std.specs.List.{list_any};
ghost use Rattle.toml.specs.View.{view};
ghost use Rattle.wire_base.specs.model.Configuration.{same_kind};
ghost use Rattle.domain_conf.specs.Reading.{Gives};
ghost use Rattle.domain_conf.specs.Fields.{entry_path};
ghost use Rattle.domain_conf.specs.Arrays.{entries_from};
ghost use Rattle.domain_conf.specs.Subdomains as spec;

use crate::entry::Entry;
use crate::fault::ConfFault;
use crate::forms::kind_named;
use std::alloc::Global;
use toml::Value;
use wire_base::{Kind, Rows, SubKind, kind_of};

#[tactic(auto, unfolding(crate::specs::Fields::field))]
fn kind_at(entry: &Entry) -> Result<Kind, ConfFault>
    ensures { Gives (λ kind. kind) result (spec.kind_at (entry_path entry.now.array.now entry.now.place) (view entry.now.value.now)) }
{
    let Some(text) = entry.text("kind") else {
        return Err(ConfFault::Field(entry.path("kind")?));
    };
    let Some(kind) = kind_named(text.as_bytes()) else {
        return Err(ConfFault::Range(entry.path("kind")?));
    };
    Ok(kind)
}

fn has_sd(earlier: &[SubKind], subdomain: SubKind) -> bool
    ensures { result ≡ list_any (same_kind subdomain) earlier.now }
{
    earlier.iter().any(|other| subdomain.sd == other.sd)
}

fn new_subdomain(
    entry: &Entry,
    earlier: &[SubKind],
    subdomain: SubKind,
) -> Result<SubKind, ConfFault>
    ensures { Gives (λ k. k) result (spec.new_subdomain (entry_path entry.now.array.now entry.now.place) earlier.now subdomain) }
{
    if has_sd(earlier, subdomain) {
        return Err(ConfFault::Duplicate(entry.path("sd")?));
    }
    Ok(subdomain)
}

fn subdomain_in(entry: &Entry, earlier: &[SubKind]) -> Result<SubKind, ConfFault>
    ensures { Gives (λ k. k) result (spec.subdomain_in (entry_path entry.now.array.now entry.now.place) earlier.now (view entry.now.value.now)) }
{
    entry.has_only(&["sd", "kind"])?;
    let sd = entry.number("sd", 0, 255)? as u8;
    let kind = kind_at(entry)?;
    new_subdomain(entry, earlier, SubKind { sd, kind })
}

#[tactic(auto, unfolding(crate::specs::Subdomains::subdomain_at))]
fn subdomain_at(
    alloc: Global,
    earlier: &Rows<SubKind>,
    place: usize,
    value: &Value,
) -> Result<SubKind, ConfFault>
    ensures { Gives (λ k. k) result (spec.subdomain_at earlier.now place (view value.now)) }
{
    let entry = Entry {
        alloc,
        array: "subdomain",
        place,
        value,
    };
    subdomain_in(&entry, earlier.as_slice())
}

/// Reads the sub-domains of a file.
pub fn read_subdomains(alloc: Global, values: &[Value]) -> Result<Rows<SubKind>, ConfFault>
    ensures { Gives (λ ks. ks) result (entries_from spec.subdomain_at [] 0 (map view values.now)) }
{
    let mut earlier = Rows::new(alloc);
    for (place, value) in values.iter().enumerate() {
        let next = subdomain_at(alloc, &earlier, place, value)?;
        earlier.push(next)?;
    }
    Ok(earlier)
}

/// Returns the number at the key `sd` of an entry, which must be that of a sub-domain in the file.
pub fn known_sd(entry: &Entry, kinds: &[SubKind]) -> Result<u8, ConfFault>
    ensures { Gives (λ sd. sd) result (spec.known_sd kinds.now (entry_path entry.now.array.now entry.now.place) (view entry.now.value.now)) }
{
    let sd = entry.number("sd", 0, 255)? as u8;
    if kind_of(kinds, sd).is_none() {
        return Err(ConfFault::Reference(entry.path("sd")?));
    }
    Ok(sd)
}
