//! The entries of `router`.
ghost use Rattle.std.specs.Prelude.{◌≡◌, ℕ, ◌<◌, ◌≤◌, true, false, List, [], ◌∷◌, ◌++◌, length, map, Some, IfOk, IfSome, OnOk, if◌then◌else◌};
ghost use Rattle.std.specs.BTreeSet.{contains};
ghost use Rattle.std.specs.List.{list_any};
ghost use Rattle.std.specs.Str.{bytes_eq};
ghost use Rattle.toml.specs.View.{view};
ghost use Rattle.domain_conf.specs.Reading.{Gives};
ghost use Rattle.domain_conf.specs.Fields.{entry_path};
ghost use Rattle.domain_conf.specs.Arrays.{entries_from};
ghost use Rattle.domain_conf.specs.Routers as spec;
ghost use Rattle.domain_conf.specs.RouterIndex.{found_at, system_cmp, prefix_cmp};
ghost use Rattle.wire_base.specs.declared.addresses.SystemId.{SystemId};
ghost use Rattle.wire_base.specs.declared.addresses.Ipv4.{Ipv4};

use crate::entry::Entry;
use crate::fault::ConfFault;
use crate::forms::{is_name, prefix_octets, system_octets};
use std::alloc::Global;
use std::collections::{BTreeMap, BTreeSet};
use std::marker::Model;
use toml::Value;
use wire_base::limits::MOST_ROUTERS;
use wire_base::{Ipv4, M, Name, Rows, SystemId};

/// A router, as its entry describes it.
#[derive(Drop)]
pub struct RouterEntry {
    pub name: Name,
    pub system: SystemId,
    pub prefix: Ipv4,
    pub overload: bool,
}

/// Routers in the order of the file, at most `MOST_ROUTERS`, with an index of their names, and their system IDs and prefixes, so
/// that a look-up does not scan the routers.
#[derive(Drop)]
pub struct Routers {
    entries: Rows<RouterEntry>,
    places: BTreeMap<Vec<u8>, u16>,
    systems: BTreeSet<SystemId>,
    prefixes: BTreeSet<Ipv4>,
}

impl Model for Routers {
    ghost use Rattle.std.specs.Prelude.{List};
    ghost use Rattle.domain_conf.specs.declared.routers.RouterEntry.{RouterEntry as Entry};
    ghost use Rattle.domain_conf.specs.RouterIndex.{AreIndexed};

    ghost Value = { List Entry };

    ghost view = { λ r. r.entries };

    ghost invariant = { λ r. AreIndexed r.entries r.places r.systems r.prefixes };
}

fn put_place(alloc: Global, places: &mut BTreeMap<Vec<u8>, u16>, name: &[u8], place: u16) -> M<()>
    ensures { OnOk result ((octets : List ℕ) → found_at places.new octets ≡ (if bytes_eq name.now octets then Some place else found_at places.old octets)) }
{
    let key = Vec::from_slice(alloc, name)?;
    places.insert(key, place)?;
    Ok(())
}

fn put_system(systems: &mut BTreeSet<SystemId>, system: SystemId) -> M<()>
    ensures { OnOk result ((s : SystemId) → contains system_cmp systems.new s ≡ (if bytes_eq system.0 s.0 then true else contains system_cmp systems.old s)) }
{
    systems.insert(system)?;
    Ok(())
}

fn put_prefix(prefixes: &mut BTreeSet<Ipv4>, prefix: Ipv4) -> M<()>
    ensures { OnOk result ((p : Ipv4) → contains prefix_cmp prefixes.new p ≡ (if bytes_eq prefix.0 p.0 then true else contains prefix_cmp prefixes.old p)) }
{
    prefixes.insert(prefix)?;
    Ok(())
}

impl Routers {
    /// Returns an empty list.
    pub fn new(alloc: Global) -> Self
        ensures { result ≡ [] }
    {
        Routers {
            entries: Rows::new(alloc),
            places: BTreeMap::new(alloc),
            systems: BTreeSet::new(alloc),
            prefixes: BTreeSet::new(alloc),
        }
    }

    /// Returns the routers as a slice.
    pub fn as_slice(&self) -> &[RouterEntry]
        ensures value { result.now ≡ self.now }
        ensures few { length self.now ≤ MOST_ROUTERS }
    {
        self.entries.as_slice()
    }

    /// Returns the index of the router with that name.
    pub fn place_of(&self, name: &[u8]) -> Option<u16>
        ensures value { result ≡ spec.place_of self.now name.now }
    {
        self.places.get(name).copied()
    }

    fn has_name(&self, name: &[u8]) -> bool
        ensures { result ≡ list_any (spec.has_name name.now) self.now }
    {
        self.place_of(name).is_some()
    }

    fn has_system(&self, system: &SystemId) -> bool
        ensures { result ≡ list_any (spec.has_system system.now.0) self.now }
    {
        self.systems.contains(system)
    }

    fn has_prefix(&self, prefix: &Ipv4) -> bool
        ensures { result ≡ list_any (spec.has_prefix prefix.now.0) self.now }
    {
        self.prefixes.contains(prefix)
    }

    /// Returns the list with one more router, whose name no other router has.
    pub fn with(self, alloc: Global, entry: RouterEntry) -> M<Self>
        requires room { length self < MOST_ROUTERS }
        requires unused { list_any (spec.has_name entry.name) self ≡ false }
        ensures { IfOk result (λ grown. grown ≡ self ++ entry ∷ []) }
    {
        let Routers {
            mut entries,
            mut places,
            mut systems,
            mut prefixes,
        } = self;
        let place = entries.len() as u16;
        put_place(alloc, &mut places, entry.name.as_slice(), place)?;
        put_system(&mut systems, entry.system)?;
        put_prefix(&mut prefixes, entry.prefix)?;
        entries.push(entry)?;
        Ok(Routers {
            entries,
            places,
            systems,
            prefixes,
        })
    }
}

#[tactic(auto, unfolding(crate::specs::Fields::field))]
fn name_at(entry: &Entry) -> Result<Name, ConfFault>
    ensures { Gives (λ name. name) result (spec.name_at (entry_path entry.now.array.now entry.now.place) (view entry.now.value.now)) }
{
    let Some(text) = entry.text("name") else {
        return Err(ConfFault::Field(entry.path("name")?));
    };
    if !is_name(text.as_bytes()) {
        return Err(ConfFault::Range(entry.path("name")?));
    }
    Ok(Name::from_slice(entry.alloc, text.as_bytes())?)
}

#[tactic(auto, unfolding(crate::specs::Fields::field))]
fn system_at(entry: &Entry) -> Result<SystemId, ConfFault>
    ensures { Gives (λ system. system) result (spec.system_at (entry_path entry.now.array.now entry.now.place) (view entry.now.value.now)) }
{
    let Some(text) = entry.text("system") else {
        return Err(ConfFault::Field(entry.path("system")?));
    };
    let Some(octets) = system_octets(text.as_bytes()) else {
        return Err(ConfFault::Range(entry.path("system")?));
    };
    Ok(SystemId(octets))
}

#[tactic(auto, unfolding(crate::specs::Fields::field))]
fn prefix_at(entry: &Entry) -> Result<Ipv4, ConfFault>
    ensures { Gives (λ prefix. prefix) result (spec.prefix_at (entry_path entry.now.array.now entry.now.place) (view entry.now.value.now)) }
{
    let Some(text) = entry.text("prefix") else {
        return Err(ConfFault::Field(entry.path("prefix")?));
    };
    let Some(octets) = prefix_octets(text.as_bytes()) else {
        return Err(ConfFault::Range(entry.path("prefix")?));
    };
    Ok(Ipv4(octets))
}

fn new_router(
    entry: &Entry,
    earlier: &Routers,
    router: RouterEntry,
) -> Result<RouterEntry, ConfFault>
    ensures value { Gives (λ r. r) result (spec.new_router (entry_path entry.now.array.now entry.now.place) earlier.now router) }
    ensures unused { IfOk result (λ r. list_any (spec.has_name r.name) earlier.now ≡ false) }
{
    if earlier.has_name(router.name.as_slice()) {
        return Err(ConfFault::Duplicate(entry.path("name")?));
    }
    if earlier.has_system(&router.system) {
        return Err(ConfFault::Duplicate(entry.path("system")?));
    }
    if earlier.has_prefix(&router.prefix) {
        return Err(ConfFault::Duplicate(entry.path("prefix")?));
    }
    Ok(router)
}

fn router_in(entry: &Entry, earlier: &Routers) -> Result<RouterEntry, ConfFault>
    ensures value { Gives (λ r. r) result (spec.router_in (entry_path entry.now.array.now entry.now.place) earlier.now (view entry.now.value.now)) }
    ensures unused { IfOk result (λ r. list_any (spec.has_name r.name) earlier.now ≡ false) }
{
    entry.has_only(&["name", "system", "prefix", "overload"])?;
    let name = name_at(entry)?;
    let system = system_at(entry)?;
    let prefix = prefix_at(entry)?;
    let overload = entry.flag("overload")?;
    new_router(
        entry,
        earlier,
        RouterEntry {
            name,
            system,
            prefix,
            overload,
        },
    )
}

#[tactic(auto, unfolding(crate::specs::Routers::router_at))]
fn router_at(
    alloc: Global,
    earlier: &Routers,
    place: usize,
    value: &Value,
) -> Result<RouterEntry, ConfFault>
    ensures value { Gives (λ r. r) result (spec.router_at earlier.now place (view value.now)) }
    ensures unused { IfOk result (λ r. list_any (spec.has_name r.name) earlier.now ≡ false) }
{
    let entry = Entry {
        alloc,
        array: "router",
        place,
        value,
    };
    router_in(&entry, earlier)
}

/// Reads the routers of a file.
pub fn read_routers(alloc: Global, values: &[Value]) -> Result<Routers, ConfFault>
    requires few { length values.now ≤ MOST_ROUTERS }
    ensures { Gives (λ rs. rs) result (entries_from spec.router_at [] 0 (map view values.now)) }
{
    let mut earlier = Routers::new(alloc);
    for (place, value) in values.iter().enumerate() {
        let next = router_at(alloc, &earlier, place, value)?;
        earlier = earlier.with(alloc, next)?;
    }
    Ok(earlier)
}

/// Returns the index of the router that an entry names at a key.
#[tactic(auto, unfolding(crate::specs::Routers::known_router))]
pub fn known_router(entry: &Entry, routers: &Routers, key: &str) -> Result<u16, ConfFault>
    ensures { Gives (λ place. place) result (spec.known_router routers.now (entry_path entry.now.array.now entry.now.place) key.now (view entry.now.value.now)) }
{
    let Some(name) = entry.text(key) else {
        return Err(ConfFault::Field(entry.path(key)?));
    };
    let Some(place) = routers.place_of(name.as_bytes()) else {
        return Err(ConfFault::Reference(entry.path(key)?));
    };
    Ok(place)
}
