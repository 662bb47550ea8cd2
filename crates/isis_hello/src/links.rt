//! Where the interfaces of routers lead.
ghost use Rattle.std.specs.Prelude.{◌≡◌, ◌≤◌, length, slice_get, option_map, IfSome};
ghost use Rattle.std.specs.List.{AllByRecursion};
ghost use Rattle.wire_base.specs.model.Configuration.{IsSound};
ghost use Rattle.isis_hello.specs.Circuits.{link_between, place_of};

use wire_base::limits::MOST_ROUTERS;
use wire_base::{Domain, End, RouterConf, SystemId, end_toward};

/// Returns the configurations of a domain's routers, by index.
pub(crate) fn confs_of(domain: &Domain) -> &[RouterConf]
    ensures confs { result.now ≡ domain.now.routers }
    ensures sound { AllByRecursion IsSound result.now }
    ensures few { length result.now ≤ MOST_ROUTERS }
{
    domain.routers.as_slice()
}

/// Returns the configuration of the router at an index.
pub(crate) fn conf_at(confs: &[RouterConf], place: u16) -> Option<&RouterConf>
    ensures conf { option_map (λ r. r.now) result ≡ slice_get confs.now place }
    ensures sound { AllByRecursion IsSound confs.now → IfSome result (λ r. IsSound r.now) }
{
    if usize::from(place) < confs.len() {
        Some(&confs[usize::from(place)])
    } else {
        None
    }
}

/// Returns the interface at an index.
pub(crate) fn end_at(ends: &[End], link: u16) -> Option<End>
    ensures { result ≡ slice_get ends.now link }
{
    if usize::from(link) < ends.len() {
        Some(ends[usize::from(link)])
    } else {
        None
    }
}

/// Returns the interface of a router that leads to another, if a link joins the two.
pub(crate) fn link_between(confs: &[RouterConf], from: u16, to: u16) -> Option<u16>
    requires { AllByRecursion IsSound confs.now }
    ensures { result ≡ link_between confs.now from to }
{
    let near = conf_at(confs, from)?;
    let far = conf_at(confs, to)?;
    end_toward(near.ends.as_slice(), far.system)
}

/// Returns the index of the router with a system ID; past the end if there is none.
pub(crate) fn place_of(confs: &[RouterConf], system: SystemId) -> u16
    requires { length confs.now ≤ MOST_ROUTERS }
    ensures { result ≡ place_of confs.now system }
{
    for place in 0..confs.len() {
        if confs[place].system == system {
            return place as u16;
        }
    }
    confs.len() as u16
}
