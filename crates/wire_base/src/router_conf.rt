//! Sub-domains and BIFT-ids in a router's configuration, and copies of the configuration.
ghost use Rattle.std.specs.Prelude.{◌≡◌, ◌+◌, ◌*◌, ◌<◌, ◌≤◌, ◌&&◌, ◌++◌, ℕ, length, sum_by, is_some, Some, IfOk, IfSome, if◌then◌else◌};
ghost use Rattle.std.specs.List.{AllByRecursion};
ghost use Rattle.wire_base.specs.model.Place.{kind_of, is_mpls, is_configured, sub_in, is_label_of, triple_of, labelled, placed, ranges_of, known_subs, tells, written, means, IsMeaning};
ghost use Rattle.wire_base.specs.model.Configuration.{sub_octets, IsSound};
ghost use Rattle.wire_base.specs.Searches.{sub_labelled};

use crate::conf::{Kind, LabelRange, OwnSub, PastRange, RouterConf, SubKind, TableRow};
use crate::lists::Rows;
use crate::memory::M;
use crate::triple::Triple;
use std::alloc::Global;

impl OwnSub {
    /// Returns an equal membership. Errors if an allocation fails.
    pub fn copy(&self) -> M<Self>
        ensures { IfOk result (λ copied. copied ≡ self.now) }
    {
        Ok(OwnSub {
            sd: self.sd,
            id: self.id,
            ranges: self.ranges.copy()?,
        })
    }
}

impl RouterConf {
    /// Returns the size in octets of the router's sub-domains in its own LSP: 7 for each sub-domain and 6 for each
    /// label range.
    #[tactic(auto, unfolding(crate::specs::model::Configuration::sub_octets))]
    pub fn sub_octets(&self) -> usize
        requires subs { length self.now.subs ≤ 8 }
        requires ranges { AllByRecursion (λ s. length s.ranges ≤ 7) self.now.subs }
        ensures { result ≡ sub_octets self.now.subs }
    {
        octets_of_subs(self.subs.as_slice())
    }

    /// Returns the triple that a BIFT-id of that encapsulation stands for at this router (RFC 8279, 6.4). With MPLS it is the triple
    /// whose label this is in a label range that the router has or had, also in a sub-domain that it left. Without MPLS it is the
    /// triple with this BIFT-id in the configured table, in a sub-domain that the router is in or left. There is at most one. None
    /// exactly where there is none.
    #[tactic(auto, using(crate::proofs::MeaningLemmas::means_found, crate::proofs::MeaningLemmas::means_only))]
    pub fn means(&self, kind: Kind, bift: u32) -> Option<Triple>
        requires { IsSound self.now }
        ensures value { result ≡ means self.now kind bift }
        ensures found { IfSome result (λ t. IsMeaning self.now kind bift t) }
        ensures only { (t : _) → IsMeaning self.now kind bift t → result ≡ Some t }
    {
        meaning_of(self, kind, bift)
    }

    /// Returns an equal configuration. Errors if an allocation fails.
    pub fn copy(&self) -> M<Self>
        ensures { IfOk result (λ copied. copied ≡ self.now) }
    {
        Ok(RouterConf {
            level: self.level,
            area: self.area.copy()?,
            name: self.name.copy()?,
            system: self.system,
            prefix: self.prefix,
            overload: self.overload,
            subs: copy_of_subs(self.subs.allocator(), self.subs.as_slice())?,
            away: copy_of_subs(self.away.allocator(), self.away.as_slice())?,
            past: self.past.copy()?,
            kinds: self.kinds.copy()?,
            table: self.table.copy()?,
            ends: self.ends.copy()?,
        })
    }
}

#[tactic(auto, unfolding(crate::specs::model::Place::means))]
fn meaning_of(conf: &RouterConf, kind: Kind, bift: u32) -> Option<Triple>
    ensures { result ≡ means conf.now kind bift }
{
    match kind {
        Kind::Mpls => {
            let (subs, away) = (conf.subs.as_slice(), conf.away.as_slice());
            label_meaning(
                conf.kinds.as_slice(),
                subs,
                away,
                conf.past.as_slice(),
                bift,
            )
        }
        Kind::Configured => row_meaning(conf, bift),
    }
}

fn octets_of_subs(subs: &[OwnSub]) -> usize
    requires few { length subs.now ≤ 8 }
    requires ranges { AllByRecursion (λ s. length s.ranges ≤ 7) subs.now }
    ensures value { result ≡ sum_by (λ s. 7 + 6 * length s.ranges) subs.now }
    ensures few { result ≤ 49 * length subs.now }
{
    match subs {
        [] => 0,
        [first, rest @ ..] => 7 + 6 * first.ranges.len() + octets_of_subs(rest),
    }
}

fn copy_of_subs(alloc: Global, subs: &[OwnSub]) -> M<Rows<OwnSub>>
    ensures { IfOk result (λ copied. copied ≡ subs.now) }
{
    let mut copied = Rows::new(alloc);
    for sub in subs {
        copied.push(sub.copy()?)?;
    }
    Ok(copied)
}

/// Returns the encapsulation of a sub-domain. None exactly where the sub-domain is not in the list.
pub fn kind_of(kinds: &[SubKind], sd: u8) -> Option<Kind>
    ensures { result ≡ kind_of kinds.now sd }
{
    for entry in kinds {
        if entry.sd == sd {
            return Some(entry.kind);
        }
    }
    None
}

fn is_in(subs: &[OwnSub], sd: u8) -> bool
    ensures { result ≡ is_some (sub_in subs.now sd) }
{
    for sub in subs {
        if sub.sd == sd {
            return true;
        }
    }
    false
}

/// Whether the router is in a sub-domain or left it.
fn is_known(subs: &[OwnSub], away: &[OwnSub], sd: u8) -> bool
    ensures { result ≡ is_some (sub_in (subs.now ++ away.now) sd) }
{
    is_in(subs, sd) || is_in(away, sd)
}

fn triple_of(kinds: &[SubKind], sd: u8, range: LabelRange, label: u32) -> Option<Triple>
    ensures { result ≡ triple_of kinds.now (record { sd = sd; range = range }) label }
{
    let LabelRange {
        bsl,
        max_si,
        label: first,
    } = range;
    if kind_of(kinds, sd) == Some(Kind::Mpls)
        && first <= label
        && label - first <= u32::from(max_si)
    {
        let si = (label - first) as u8;
        return Some(Triple { sd, bsl, si });
    }
    None
}

fn in_ranges(kinds: &[SubKind], sd: u8, ranges: &[LabelRange], label: u32) -> Option<Triple>
    ensures { result ≡ labelled kinds.now (placed sd ranges.now) label }
{
    for range in ranges {
        let found = triple_of(kinds, sd, *range, label);
        if found.is_some() {
            return found;
        }
    }
    None
}

fn in_subs(kinds: &[SubKind], subs: &[OwnSub], label: u32) -> Option<Triple>
    ensures { result ≡ sub_labelled kinds.now subs.now label }
{
    for sub in subs {
        let found = in_ranges(kinds, sub.sd, sub.ranges.as_slice(), label);
        if found.is_some() {
            return found;
        }
    }
    None
}

fn in_past(kinds: &[SubKind], past: &[PastRange], label: u32) -> Option<Triple>
    ensures { result ≡ labelled kinds.now past.now label }
{
    for earlier in past {
        let found = triple_of(kinds, earlier.sd, earlier.range, label);
        if found.is_some() {
            return found;
        }
    }
    None
}

/// Returns the triple of a label: labels of now first, then those of sub-domains that were left, then earlier ones.
fn label_meaning(
    kinds: &[SubKind],
    subs: &[OwnSub],
    away: &[OwnSub],
    past: &[PastRange],
    label: u32,
) -> Option<Triple>
    ensures { result ≡ labelled kinds.now (ranges_of subs.now ++ (ranges_of away.now ++ past.now)) label }
{
    let now = in_subs(kinds, subs, label);
    if now.is_some() {
        return now;
    }
    let left = in_subs(kinds, away, label);
    if left.is_some() {
        return left;
    }
    in_past(kinds, past, label)
}

fn tells(conf: &RouterConf, bift: u32, row: &TableRow) -> bool
    ensures { result ≡ tells conf.now.kinds (known_subs conf.now) bift row.now }
{
    row.bift == bift
        && kind_of(conf.kinds.as_slice(), row.triple.sd) == Some(Kind::Configured)
        && is_known(conf.subs.as_slice(), conf.away.as_slice(), row.triple.sd)
}

fn row_meaning(conf: &RouterConf, bift: u32) -> Option<Triple>
    ensures { result ≡ written conf.now.kinds (known_subs conf.now) conf.now.table bift }
{
    for row in conf.table.as_slice() {
        if tells(conf, bift, row) {
            return Some(row.triple);
        }
    }
    None
}
