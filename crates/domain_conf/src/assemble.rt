//! The configurations of the routers, built from the entries of the arrays.
ghost use Rattle.std.specs.Prelude.{◌≡◌, ◌==◌, ◌++◌, map, filter, OnOk, IfOk};
ghost use Rattle.std.specs.List.{filter_map};
ghost use Rattle.std.specs.Option.{option_to_list};
ghost use Rattle.domain_conf.specs.Assembled as spec;
ghost use Rattle.domain_conf.specs.Links.{link_of};

use crate::bier::BierEntry;
use crate::by_router::ByRouter;
use crate::labels::LabelsEntry;
use crate::links::LinkEntry;
use crate::routers::{RouterEntry, Routers};
use std::alloc::Global;
use wire_base::{
    End, LabelRange, Level, LinkConf, M, Octets, OwnSub, RouterConf, Rows, SubKind, SystemId,
    TableRow,
};

/// What a file contains, array by array.
#[derive(Drop)]
pub struct Entries {
    pub kinds: Rows<SubKind>,
    pub table: Rows<TableRow>,
    pub routers: Routers,
    pub biers: ByRouter<BierEntry>,
    pub labels: ByRouter<LabelsEntry>,
    pub links: ByRouter<LinkEntry>,
}

fn ranges_in(alloc: Global, labels: &[LabelsEntry], sd: u8) -> M<Rows<LabelRange>>
    ensures { IfOk result (λ ranges. ranges ≡ map (λ l. l.range) (filter (λ l. l.sd == sd) labels.now)) }
{
    let mut ranges = Rows::new(alloc);
    for entry in labels {
        if entry.sd == sd {
            ranges.push(entry.range)?;
        }
    }
    Ok(ranges)
}

#[tactic(auto, using(crate::proofs::GroupLemmas::ranges_in_group))]
fn sub_of(alloc: Global, labels: &ByRouter<LabelsEntry>, bier: &BierEntry) -> M<OwnSub>
    ensures { IfOk result (λ sub. sub ≡ spec.sub_of labels.now bier.now) }
{
    Ok(OwnSub {
        sd: bier.sd,
        id: bier.id,
        ranges: ranges_in(alloc, labels.of(bier.router), bier.sd)?,
    })
}

fn subs_in(alloc: Global, biers: &[BierEntry], labels: &ByRouter<LabelsEntry>) -> M<Rows<OwnSub>>
    ensures { IfOk result (λ subs. subs ≡ map (spec.sub_of labels.now) biers.now) }
{
    let mut subs = Rows::new(alloc);
    for bier in biers {
        subs.push(sub_of(alloc, labels, bier)?)?;
    }
    Ok(subs)
}

/// Returns the sub-domains of a router, in the order of the file.
#[tactic(auto, unfolding(crate::specs::Assembled::subs_of), using(crate::proofs::GroupLemmas::biers_in_group))]
fn subs_of(
    alloc: Global,
    biers: &ByRouter<BierEntry>,
    labels: &ByRouter<LabelsEntry>,
    router: u16,
) -> M<Rows<OwnSub>>
    ensures { IfOk result (λ subs. subs ≡ spec.subs_of biers.now labels.now router) }
{
    subs_in(alloc, biers.of(router), labels)
}

fn system_at(routers: &[RouterEntry], place: u16) -> SystemId
    ensures { result ≡ spec.system_at routers.now place }
{
    match routers.get(usize::from(place)) {
        Some(router) => router.system,
        None => SystemId([0; 6]),
    }
}

/// Returns a router's interface on a link, if the link joins that router.
fn end_of(routers: &[RouterEntry], place: u16, link: &LinkEntry) -> Option<End>
    ensures { result ≡ spec.end_of routers.now place link.now }
{
    if link.a == place {
        Some(End {
            peer: system_at(routers, link.b),
            peer_mac: link.mac_b,
            own_mac: link.mac_a,
            metric: link.metric_ab,
        })
    } else if link.b == place {
        Some(End {
            peer: system_at(routers, link.a),
            peer_mac: link.mac_a,
            own_mac: link.mac_b,
            metric: link.metric_ba,
        })
    } else {
        None
    }
}

fn push_some(ends: &mut Rows<End>, end: Option<End>) -> M<()>
    ensures { OnOk result (ends.new ≡ ends.old ++ option_to_list end) }
{
    match end {
        Some(end) => ends.push(end),
        None => Ok(()),
    }
}

fn ends_in(alloc: Global, routers: &[RouterEntry], place: u16, links: &[LinkEntry]) -> M<Rows<End>>
    ensures { IfOk result (λ ends. ends ≡ filter_map (spec.end_of routers.now place) links.now) }
{
    let mut ends = Rows::new(alloc);
    for link in links {
        push_some(&mut ends, end_of(routers, place, link))?;
    }
    Ok(ends)
}

/// Returns the interfaces of a router, in the order of the links.
#[tactic(auto, unfolding(crate::specs::Assembled::ends_of), using(crate::proofs::GroupLemmas::ends_in_group))]
fn ends_of(
    alloc: Global,
    routers: &[RouterEntry],
    links: &ByRouter<LinkEntry>,
    place: u16,
) -> M<Rows<End>>
    ensures { IfOk result (λ ends. ends ≡ spec.ends_of routers.now links.now place) }
{
    ends_in(alloc, routers, place, links.of(place))
}

fn conf_of(
    alloc: Global,
    level: Level,
    area: &Octets,
    entries: &Entries,
    place: u16,
    router: &RouterEntry,
) -> M<RouterConf>
    ensures { IfOk result (λ conf. conf ≡ spec.conf_of level area.now entries.now place router.now) }
{
    Ok(RouterConf {
        level,
        area: area.copy()?,
        name: router.name.copy()?,
        system: router.system,
        prefix: router.prefix,
        overload: router.overload,
        subs: subs_of(alloc, &entries.biers, &entries.labels, place)?,
        away: Rows::new(alloc),
        past: Rows::new(alloc),
        kinds: entries.kinds.copy()?,
        table: entries.table.copy()?,
        ends: ends_of(alloc, entries.routers.as_slice(), &entries.links, place)?,
    })
}

/// Returns the configurations of all routers.
pub fn confs_of(
    alloc: Global,
    level: Level,
    area: &Octets,
    entries: &Entries,
) -> M<Rows<RouterConf>>
    ensures { IfOk result (λ confs. confs ≡ spec.confs_from level area.now entries.now 0 entries.now.routers) }
{
    let routers = entries.routers.as_slice();
    let mut confs = Rows::new(alloc);
    for (place, router) in routers.iter().enumerate() {
        confs.push(conf_of(alloc, level, area, entries, place as u16, router)?)?;
    }
    Ok(confs)
}

/// Returns which routers the links join.
pub fn links_of(alloc: Global, links: &[LinkEntry]) -> M<Rows<LinkConf>>
    ensures { IfOk result (λ confs. confs ≡ map link_of links.now) }
{
    let mut confs = Rows::new(alloc);
    for link in links {
        confs.push(LinkConf {
            a: link.a,
            b: link.b,
        })?;
    }
    Ok(confs)
}
