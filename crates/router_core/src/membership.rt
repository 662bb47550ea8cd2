//! The sub-domains and label ranges of a configuration: what a change of them depends on, and the changed copies (RFC 8401, 6.1 and
//! 6.2; RFC 8279, 6.4).
ghost use Rattle.std.specs.Prelude.{◌≡◌, ◌+◌, ◌≤◌, ◌++◌, is_some, option_map, IfOk, OnOk};
ghost use Rattle.std.specs.List.{list_any};
ghost use Rattle.wire_base.specs.declared.limits.TheConstants.{LAST_LABEL};
ghost use Rattle.wire_base.specs.model.Membership.{is_too_high, is_used, is_worn, left, own_range, range_for, ranges_moved, rejoined, relabelled, subs_moved, subs_with, subs_without, used_label};
ghost use Rattle.wire_base.specs.model.Place.{is_label_of, known_ranges, known_subs, ranges_of, sub_in};

use bfr_edge::sub_in;
use std::alloc::Global;
use wire_base::limits::{LAST_LABEL, MOST_RELABELS};
use wire_base::{Bsl, LabelRange, M, OwnSub, PastRange, RouterConf, Rows};

// ---- reads

/// Returns whether a sub-domain is among those of a router, as those that it is in.
pub fn is_in(subs: &[OwnSub], sd: u8) -> bool
    ensures { result ≡ is_some (sub_in subs.now sd) }
{
    sub_in(subs, sd).is_some()
}

/// Returns a sub-domain that the router is in or left.
#[tactic(auto, using(crate::proofs::MembershipLaws::known_first, crate::proofs::MembershipLaws::known_second))]
fn known_sub(conf: &RouterConf, sd: u8) -> Option<&OwnSub>
    ensures { option_map (λ s. s.now) result ≡ sub_in (known_subs conf.now) sd }
{
    let now = sub_in(conf.subs.as_slice(), sd);
    if now.is_some() {
        return now;
    }
    sub_in(conf.away.as_slice(), sd)
}

/// Returns whether the router is in a sub-domain or left it.
pub fn is_known(conf: &RouterConf, sd: u8) -> bool
    ensures { result ≡ is_some (sub_in (known_subs conf.now) sd) }
{
    known_sub(conf, sd).is_some()
}

fn range_for(ranges: &[LabelRange], bsl: Bsl) -> Option<LabelRange>
    ensures { result ≡ range_for ranges.now bsl }
{
    for range in ranges {
        if range.bsl.code() == bsl.code() {
            return Some(*range);
        }
    }
    None
}

/// Returns the router's label range of a BSL in a sub-domain that it is in or left. None exactly where it has no such range.
pub fn own_range(conf: &RouterConf, sd: u8, bsl: Bsl) -> Option<LabelRange>
    ensures { result ≡ own_range conf.now sd bsl }
{
    let sub = known_sub(conf, sd)?;
    range_for(sub.ranges.as_slice(), bsl)
}

fn has_label(range: &LabelRange, label: u32) -> bool
    ensures { result ≡ is_label_of label range.now }
{
    range.label <= label && label - range.label <= u32::from(range.max_si)
}

fn are_in_ranges(ranges: &[LabelRange], label: u32) -> bool
    ensures { result ≡ list_any (is_label_of label) ranges.now }
{
    ranges.iter().any(|range| has_label(range, label))
}

fn are_in_subs(subs: &[OwnSub], label: u32) -> bool
    ensures { result ≡ list_any (λ s. list_any (is_label_of label) s.ranges) subs.now }
{
    subs.iter()
        .any(|sub| are_in_ranges(sub.ranges.as_slice(), label))
}

fn are_in_past(past: &[PastRange], label: u32) -> bool
    ensures { result ≡ is_used past.now label }
{
    past.iter().any(|earlier| has_label(&earlier.range, label))
}

#[tactic(auto, using(crate::proofs::MembershipLaws::used_first, crate::proofs::MembershipLaws::used_second))]
fn are_in_others(away: &[OwnSub], past: &[PastRange], label: u32) -> bool
    ensures { result ≡ is_used (ranges_of away.now ++ past.now) label }
{
    are_in_subs(away, label) || are_in_past(past, label)
}

/// Returns whether a label is in a range that the router has or had.
#[tactic(auto, using(crate::proofs::MembershipLaws::used_first, crate::proofs::MembershipLaws::used_second))]
fn is_used(conf: &RouterConf, label: u32) -> bool
    ensures { result ≡ is_used (known_ranges conf.now) label }
{
    are_in_subs(conf.subs.as_slice(), label)
        || are_in_others(conf.away.as_slice(), conf.past.as_slice(), label)
}

/// Returns whether a range has a label above the last one, 1,048,575 (RFC 3032, 2.1).
pub fn is_too_high(range: LabelRange) -> bool
    ensures { result ≡ is_too_high range }
{
    u64::from(range.label) + u64::from(range.max_si) > u64::from(LAST_LABEL)
}

/// Returns the least label of a range that is also in a range that the router has or had, in any sub-domain, also in one that it
/// left. None exactly where there is none. Precondition: the range has no label above the last one.
pub fn used_label(conf: &RouterConf, range: LabelRange) -> Option<u32>
    requires { range.label + range.max_si ≤ LAST_LABEL }
    ensures { result ≡ used_label conf.now range }
{
    let end = range.label + u32::from(range.max_si) + 1;
    for label in range.label..end {
        if is_used(conf, label) {
            return Some(label);
        }
    }
    None
}

/// Returns whether the router was given other labels as often as it can be: the earlier ranges are kept, and there is room for no
/// further one.
pub fn is_worn(conf: &RouterConf) -> bool
    ensures { result ≡ is_worn conf.now }
{
    conf.past.len() >= MOST_RELABELS
}

// ---- changed copies

fn move_range(ranges: &mut Rows<LabelRange>, bsl: Bsl, label: u32)
    ensures { ranges.new ≡ ranges_moved bsl label ranges.old }
{
    for place in 0..ranges.len() {
        let range = ranges.as_slice()[place];
        if range.bsl.code() == bsl.code() {
            ranges.put(place, LabelRange { label, ..range });
            return;
        }
    }
}

fn copy_moved(sub: &OwnSub, bsl: Bsl, label: u32) -> M<OwnSub>
    ensures { IfOk result (λ s. s ≡ record sub.now { ranges = ranges_moved bsl label sub.now.ranges }) }
{
    let mut copied = sub.copy()?;
    move_range(&mut copied.ranges, bsl, label);
    Ok(copied)
}

fn move_sub(subs: &mut Rows<OwnSub>, sd: u8, bsl: Bsl, label: u32) -> M<()>
    ensures { OnOk result (subs.new ≡ subs_moved sd bsl label subs.old) }
{
    for place in 0..subs.len() {
        let sub = &subs.as_slice()[place];
        if sub.sd == sd {
            let copied = copy_moved(sub, bsl, label)?;
            subs.put(place, copied);
            return Ok(());
        }
    }
    Ok(())
}

/// Lets the label range of a BSL in a sub-domain begin at another label, and appends the range that it had to the earlier ones.
#[tactic(auto, unfolding(wire_base::specs::model::Membership::relabelled))]
fn relabel(conf: &mut RouterConf, had: Option<LabelRange>, sd: u8, bsl: Bsl, label: u32) -> M<()>
    requires { had ≡ own_range conf.old sd bsl }
    ensures { OnOk result (conf.new ≡ relabelled conf.old sd bsl label) }
{
    if let Some(range) = had {
        conf.past.push(PastRange { sd, range })?;
    }
    move_sub(&mut conf.subs, sd, bsl, label)?;
    move_sub(&mut conf.away, sd, bsl, label)
}

/// Returns a copy of a configuration whose label range of a BSL in a sub-domain begins at another label. The earlier range stays
/// among the earlier ones.
#[tactic(auto, unfolding(wire_base::specs::model::Membership::relabelled))]
pub(crate) fn relabelled(conf: &RouterConf, sd: u8, bsl: Bsl, label: u32) -> M<RouterConf>
    ensures { IfOk result (λ r. r ≡ relabelled conf.now sd bsl label) }
{
    let mut next = conf.copy()?;
    relabel(&mut next, own_range(conf, sd, bsl), sd, bsl, label)?;
    Ok(next)
}

fn subs_without(alloc: Global, subs: &[OwnSub], sd: u8) -> M<Rows<OwnSub>>
    ensures { IfOk result (λ rest. rest ≡ subs_without sd subs.now) }
{
    let mut rest = Rows::new(alloc);
    for sub in subs {
        if sub.sd != sd {
            rest.push(sub.copy()?)?;
        }
    }
    Ok(rest)
}

/// Moves a sub-domain from one list to the end of another.
fn hand_over(from: &mut Rows<OwnSub>, to: &mut Rows<OwnSub>, sd: u8) -> M<()>
    ensures from { OnOk result (from.new ≡ subs_without sd from.old) }
    ensures to { OnOk result (to.new ≡ subs_with to.old (sub_in from.old sd)) }
{
    if let Some(sub) = sub_in(from.as_slice(), sd) {
        to.push(sub.copy()?)?;
    }
    *from = subs_without(from.allocator(), from.as_slice(), sd)?;
    Ok(())
}

/// Returns a copy of a configuration that has left a sub-domain.
#[tactic(auto, unfolding(wire_base::specs::model::Membership::left))]
pub(crate) fn left(conf: &RouterConf, sd: u8) -> M<RouterConf>
    ensures { IfOk result (λ r. r ≡ left conf.now sd) }
{
    let mut next = conf.copy()?;
    hand_over(&mut next.subs, &mut next.away, sd)?;
    Ok(next)
}

/// Returns a copy of a configuration that has joined a sub-domain that it left.
#[tactic(auto, unfolding(wire_base::specs::model::Membership::rejoined))]
pub(crate) fn rejoined(conf: &RouterConf, sd: u8) -> M<RouterConf>
    ensures { IfOk result (λ r. r ≡ rejoined conf.now sd) }
{
    let mut next = conf.copy()?;
    hand_over(&mut next.away, &mut next.subs, sd)?;
    Ok(next)
}
