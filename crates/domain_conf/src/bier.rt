//! The entries of `bier`.
ghost use Rattle.std.specs.Prelude.{◌≡◌, ◌==◌, [], map};
ghost use Rattle.std.specs.List.{list_any};
ghost use Rattle.toml.specs.View.{view};
ghost use Rattle.domain_conf.specs.Reading.{Gives};
ghost use Rattle.domain_conf.specs.Fields.{entry_path};
ghost use Rattle.domain_conf.specs.Arrays.{entries_from};
ghost use Rattle.domain_conf.specs.Bier as spec;

use crate::by_router::{AtRouters, ByRouter};
use crate::entry::Entry;
use crate::fault::ConfFault;
use crate::routers::{Routers, known_router};
use crate::subdomains::known_sd;
use std::alloc::Global;
use toml::Value;
use wire_base::SubKind;

/// The membership of a router in a sub-domain. The router is named by its index in the file.
#[derive(Clone, Copy)]
pub struct BierEntry {
    pub router: u16,
    pub sd: u8,
    pub id: u16,
}

impl AtRouters for BierEntry {
    ghost routers_of = { λ b. (b.router, b.router) };

    fn routers(&self) -> (u16, u16) {
        (self.router, self.router)
    }
}

fn has_sd(entries: &[BierEntry], sd: u8) -> bool
    ensures { result ≡ list_any (λ b. b.sd == sd) entries.now }
{
    entries.iter().any(|entry| entry.sd == sd)
}

/// Returns whether a router is in a sub-domain.
#[tactic(auto, using(crate::proofs::GroupLemmas::member_in_group))]
pub fn has_member(biers: &ByRouter<BierEntry>, router: u16, sd: u8) -> bool
    ensures { result ≡ list_any (spec.is_member router sd) biers.now }
{
    has_sd(biers.of(router), sd)
}

fn new_bier(
    entry: &Entry,
    earlier: &ByRouter<BierEntry>,
    bier: BierEntry,
) -> Result<BierEntry, ConfFault>
    ensures { Gives (λ b. b) result (spec.new_bier (entry_path entry.now.array.now entry.now.place) earlier.now bier) }
{
    if has_member(earlier, bier.router, bier.sd) {
        return Err(ConfFault::Duplicate(entry.path("sd")?));
    }
    Ok(bier)
}

fn bier_in(
    entry: &Entry,
    kinds: &[SubKind],
    routers: &Routers,
    earlier: &ByRouter<BierEntry>,
) -> Result<BierEntry, ConfFault>
    ensures { Gives (λ b. b) result (spec.bier_in (entry_path entry.now.array.now entry.now.place) kinds.now routers.now earlier.now (view entry.now.value.now)) }
{
    entry.has_only(&["router", "sd", "id"])?;
    let router = known_router(entry, routers, "router")?;
    let sd = known_sd(entry, kinds)?;
    let id = entry.number("id", 0, 65_535)? as u16;
    new_bier(entry, earlier, BierEntry { router, sd, id })
}

#[tactic(auto, unfolding(crate::specs::Bier::bier_at))]
fn bier_at(
    alloc: Global,
    kinds: &[SubKind],
    routers: &Routers,
    earlier: &ByRouter<BierEntry>,
    place: usize,
    value: &Value,
) -> Result<BierEntry, ConfFault>
    ensures { Gives (λ b. b) result (spec.bier_at kinds.now routers.now earlier.now place (view value.now)) }
{
    let entry = Entry {
        alloc,
        array: "bier",
        place,
        value,
    };
    bier_in(&entry, kinds, routers, earlier)
}

/// Reads the memberships of routers in sub-domains.
pub fn read_biers(
    alloc: Global,
    kinds: &[SubKind],
    routers: &Routers,
    values: &[Value],
) -> Result<ByRouter<BierEntry>, ConfFault>
    ensures { Gives (λ bs. bs) result (entries_from (spec.bier_at kinds.now routers.now) [] 0 (map view values.now)) }
{
    let mut earlier = ByRouter::new(alloc);
    for (place, value) in values.iter().enumerate() {
        let next = bier_at(alloc, kinds, routers, &earlier, place, value)?;
        earlier = earlier.with(alloc, next)?;
    }
    Ok(earlier)
}
