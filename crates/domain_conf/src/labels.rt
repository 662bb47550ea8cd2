//! The entries of `labels`.
ghost use Rattle.std.specs.Prelude.{◌≡◌, ◌+◌, ◌==◌, ◌&&◌, nat_lt, [], map};
ghost use Rattle.std.specs.List.{list_any};
ghost use Rattle.toml.specs.View.{view};
ghost use Rattle.wire_base.specs.model.Configuration as configuration;
ghost use Rattle.wire_base.specs.model.Place as place_of;
ghost use Rattle.domain_conf.specs.Reading.{Gives};
ghost use Rattle.domain_conf.specs.Fields.{entry_path};
ghost use Rattle.domain_conf.specs.Arrays.{entries_from};
ghost use Rattle.domain_conf.specs.LabelRanges as spec;

use crate::bier::{BierEntry, has_member};
use crate::by_router::{AtRouters, ByRouter};
use crate::entry::Entry;
use crate::fault::ConfFault;
use crate::routers::{Routers, known_router};
use crate::subdomains::known_sd;
use std::alloc::Global;
use toml::Value;
use wire_base::limits::LAST_LABEL;
use wire_base::{Kind, LabelRange, SubKind, kind_of};

/// A label range of a router in a sub-domain. The router is named by its index in the file.
#[derive(Clone, Copy)]
pub struct LabelsEntry {
    pub router: u16,
    pub sd: u8,
    pub range: LabelRange,
}

impl AtRouters for LabelsEntry {
    ghost routers_of = { λ l. (l.router, l.router) };

    fn routers(&self) -> (u16, u16) {
        (self.router, self.router)
    }
}

fn is_mpls(kind: Option<Kind>) -> bool
    ensures { result ≡ place_of.is_mpls kind }
{
    kind == Some(Kind::Mpls)
}

fn takes_labels(kinds: &[SubKind], biers: &ByRouter<BierEntry>, router: u16, sd: u8) -> bool
    ensures { result ≡ spec.takes_labels kinds.now biers.now router sd }
{
    has_member(biers, router, sd) && is_mpls(kind_of(kinds, sd))
}

fn has_length(entries: &[LabelsEntry], sd: u8, range: LabelRange) -> bool
    ensures { result ≡ list_any (λ m. (m.sd == sd) && configuration.same_length range m.range) entries.now }
{
    entries.iter().any(|entry| entry.sd == sd && range.bsl.code() == entry.range.bsl.code())
}

#[tactic(auto, using(crate::proofs::GroupLemmas::length_in_group))]
fn has_same(earlier: &ByRouter<LabelsEntry>, labels: LabelsEntry) -> bool
    ensures { result ≡ list_any (spec.same_labels labels) earlier.now }
{
    has_length(earlier.of(labels.router), labels.sd, labels.range)
}

fn share_label(x: LabelRange, y: LabelRange) -> bool
    ensures { result ≡ configuration.share_label x y }
{
    let (x_first, y_first) = (u64::from(x.label), u64::from(y.label));
    x_first <= y_first + u64::from(y.max_si) && y_first <= x_first + u64::from(x.max_si)
}

fn has_label_in(entries: &[LabelsEntry], range: LabelRange) -> bool
    ensures { result ≡ list_any (λ m. configuration.share_label range m.range) entries.now }
{
    entries.iter().any(|entry| share_label(range, entry.range))
}

#[tactic(auto, using(crate::proofs::GroupLemmas::label_in_group))]
fn has_label_of(earlier: &ByRouter<LabelsEntry>, labels: LabelsEntry) -> bool
    ensures { result ≡ list_any (spec.takes_label labels) earlier.now }
{
    has_label_in(earlier.of(labels.router), labels.range)
}

fn passes_the_last(range: LabelRange) -> bool
    ensures { result ≡ nat_lt LAST_LABEL (range.label + range.max_si) }
{
    u64::from(range.label) + u64::from(range.max_si) > u64::from(LAST_LABEL)
}

fn new_labels(
    entry: &Entry,
    kinds: &[SubKind],
    biers: &ByRouter<BierEntry>,
    earlier: &ByRouter<LabelsEntry>,
    labels: LabelsEntry,
) -> Result<LabelsEntry, ConfFault>
    ensures { Gives (λ l. l) result (spec.new_labels (entry_path entry.now.array.now entry.now.place) kinds.now biers.now earlier.now labels) }
{
    if !takes_labels(kinds, biers, labels.router, labels.sd) {
        return Err(ConfFault::Reference(entry.path("sd")?));
    }
    if has_same(earlier, labels) {
        return Err(ConfFault::Duplicate(entry.path("bsl")?));
    }
    if passes_the_last(labels.range) || has_label_of(earlier, labels) {
        return Err(ConfFault::Labels(entry.path("label")?));
    }
    Ok(labels)
}

fn labels_in(
    entry: &Entry,
    kinds: &[SubKind],
    routers: &Routers,
    biers: &ByRouter<BierEntry>,
    earlier: &ByRouter<LabelsEntry>,
) -> Result<LabelsEntry, ConfFault>
    ensures { Gives (λ l. l) result (spec.labels_in (entry_path entry.now.array.now entry.now.place) kinds.now routers.now biers.now earlier.now (view entry.now.value.now)) }
{
    entry.has_only(&["router", "sd", "bsl", "max_si", "label"])?;
    let router = known_router(entry, routers, "router")?;
    let sd = known_sd(entry, kinds)?;
    let bsl = entry.bsl()?;
    let max_si = entry.number("max_si", 0, 255)? as u8;
    let label = entry.number("label", 16, LAST_LABEL)?;
    let range = LabelRange { bsl, max_si, label };
    new_labels(
        entry,
        kinds,
        biers,
        earlier,
        LabelsEntry { router, sd, range },
    )
}

#[tactic(auto, unfolding(crate::specs::LabelRanges::labels_at))]
fn labels_at(
    alloc: Global,
    kinds: &[SubKind],
    routers: &Routers,
    biers: &ByRouter<BierEntry>,
    earlier: &ByRouter<LabelsEntry>,
    place: usize,
    value: &Value,
) -> Result<LabelsEntry, ConfFault>
    ensures { Gives (λ l. l) result (spec.labels_at kinds.now routers.now biers.now earlier.now place (view value.now)) }
{
    let entry = Entry {
        alloc,
        array: "labels",
        place,
        value,
    };
    labels_in(&entry, kinds, routers, biers, earlier)
}

/// Reads the label ranges of a file.
pub fn read_labels(
    alloc: Global,
    kinds: &[SubKind],
    routers: &Routers,
    biers: &ByRouter<BierEntry>,
    values: &[Value],
) -> Result<ByRouter<LabelsEntry>, ConfFault>
    ensures { Gives (λ ls. ls) result (entries_from (spec.labels_at kinds.now routers.now biers.now) [] 0 (map view values.now)) }
{
    let mut earlier = ByRouter::new(alloc);
    for (place, value) in values.iter().enumerate() {
        let next = labels_at(alloc, kinds, routers, biers, &earlier, place, value)?;
        earlier = earlier.with(alloc, next)?;
    }
    Ok(earlier)
}
