//! Which memberships of sub-domains count.
ghost use Rattle.std.specs.Prelude.{◌≡◌, ◌&&◌, ◌++◌, ◌∷◌, [], true, false, not, is_some, filter, IfOk, OnOk, if◌then◌else◌};
ghost use Rattle.std.specs.List.{list_any};
ghost use Rattle.std.specs.Str.{bytes_eq};
ghost use Rattle.wire_base.specs.model.Control.{same_system};
ghost use Rattle.wire_base.specs.model.Place.{kind_of};
ghost use Rattle.wire_base.specs.model.BierInfo.{any_overlap};
ghost use Rattle.wire_base.specs.model.View.{all_ranges, first_each, known_subs};
ghost use Rattle.view_graph.specs.Owners.{alone_node, owner_at, is_several};
ghost use Rattle.view_graph.specs.Places.{has_sd};

use crate::owners::is_several;
use bier_subtlv::overlaps;
use std::alloc::Global;
use std::collections::BTreeMap;
use wire_base::{Ipv4, LabelRange, M, SubKind, SubList, SystemId, ViewNode, ViewSub, kind_of};

/// Returns whether two label ranges of a system share a label.
fn any_overlap(alloc: Global, subs: &[ViewSub]) -> M<bool>
    ensures { IfOk result (λ b. b ≡ any_overlap (all_ranges subs.now)) }
{
    let ranges = all_ranges(alloc, subs)?;
    Ok(overlaps(ranges.as_slice()))
}

/// Returns the label ranges of all memberships of a system.
fn all_ranges(alloc: Global, subs: &[ViewSub]) -> M<Vec<LabelRange>>
    ensures { IfOk result (λ ranges. ranges.items ≡ all_ranges subs.now) }
{
    let mut ranges = Vec::new(alloc);
    'subs: for sub in subs {
        ranges.extend_from_slice(sub.ranges.as_slice())?;
    }
    Ok(ranges)
}

fn has_sd(subs: &[ViewSub], sd: u8) -> bool
    ensures { result ≡ has_sd sd subs.now }
{
    subs.iter().any(|sub| sub.sd == sd)
}

/// Returns an equal membership.
fn copy_of(sub: &ViewSub) -> M<ViewSub>
    ensures { IfOk result (λ s. s ≡ sub.now) }
{
    Ok(ViewSub {
        sd: sub.sd,
        id: sub.id,
        prefix: sub.prefix,
        ranges: sub.ranges.copy()?,
    })
}

fn push_copy(copied: &mut SubList, sub: &ViewSub) -> M<()>
    ensures { OnOk result (copied.new ≡ copied.old ++ sub.now ∷ []) }
{
    copied.push(copy_of(sub)?)
}

/// Returns equal memberships.
pub(crate) fn copy_subs(alloc: Global, subs: &[ViewSub]) -> M<SubList>
    ensures { IfOk result (λ copied. copied ≡ subs.now) }
{
    let mut copied = SubList::new(alloc);
    'subs: for sub in subs {
        push_copy(&mut copied, sub)?;
    }
    Ok(copied)
}

/// Returns whether the membership is in a sub-domain that the router knows, and the first there.
fn is_first_known(kinds: &[SubKind], kept: &[ViewSub], sub: &ViewSub) -> bool
    ensures { result ≡ (is_some (kind_of kinds.now sub.now.sd) && not (has_sd sub.now.sd kept.now)) }
{
    kind_of(kinds, sub.sd).is_some() && !has_sd(kept, sub.sd)
}

fn keep_first(kept: &mut SubList, kinds: &[SubKind], sub: &ViewSub) -> M<()>
    ensures { OnOk result (kept.new ≡ (if is_some (kind_of kinds.now sub.now.sd) && not (has_sd sub.now.sd kept.old) then kept.old ++ sub.now ∷ [] else kept.old)) }
{
    if is_first_known(kinds, kept.as_slice(), sub) {
        kept.push(copy_of(sub)?)
    } else {
        Ok(())
    }
}

/// Returns whether each membership is the first in its sub-domain, and the router knows the sub-domain.
fn are_first_known(kinds: &[SubKind], subs: &[ViewSub]) -> bool
    ensures { result ≡ true → first_each (filter (λ s. is_some (kind_of kinds.now s.sd)) subs.now) ≡ subs.now }
{
    'subs: for place in 0..subs.len() {
        if !is_first_known(kinds, &subs[..place], &subs[place]) {
            return false;
        }
    }
    true
}

/// Returns the first membership in each sub-domain that the router knows.
fn first_known(alloc: Global, kinds: &[SubKind], subs: &[ViewSub]) -> M<SubList>
    ensures { IfOk result (λ kept. kept ≡ first_each (filter (λ s. is_some (kind_of kinds.now s.sd)) subs.now)) }
{
    let mut kept = SubList::new(alloc);
    'subs: for sub in subs {
        keep_first(&mut kept, kinds, sub)?;
    }
    Ok(kept)
}

/// Returns whether there is at most one membership and it counts, as for most systems.
fn does_one_count(kinds: &[SubKind], subs: &[ViewSub]) -> bool
    ensures { result ≡ true → known_subs kinds.now subs.now ≡ subs.now }
{
    match subs {
        [] => true,
        [only] => kind_of(kinds, only.sd).is_some() && !overlaps(only.ranges.as_slice()),
        _ => false,
    }
}

/// Keeps only the memberships that count, given the sub-domains that the router knows: none if two label ranges of the system
/// share a label, otherwise the first in each known sub-domain.
pub(crate) fn keep_known(kinds: &[SubKind], subs: &mut SubList) -> M<()>
    ensures { OnOk result (subs.new ≡ known_subs kinds.now subs.old) }
{
    if does_one_count(kinds, subs.as_slice()) {
        return Ok(());
    }
    keep_known_of_several(kinds, subs)
}

/// The same, for any number of memberships.
#[tactic(auto, using(crate::proofs::ListLaws::known_overlap, crate::proofs::ListLaws::known_apart))]
fn keep_known_of_several(kinds: &[SubKind], subs: &mut SubList) -> M<()>
    ensures { OnOk result (subs.new ≡ known_subs kinds.now subs.old) }
{
    let alloc = subs.allocator();
    if any_overlap(alloc, subs.as_slice())? {
        *subs = SubList::new(alloc);
        return Ok(());
    }
    if !are_first_known(kinds, subs.as_slice()) {
        *subs = first_known(alloc, kinds, subs.as_slice())?;
    }
    Ok(())
}

/// Keeps only the memberships of a node whose prefix no other system has, given the owners of the prefixes.
pub(crate) fn keep_alone(owners: &BTreeMap<Ipv4, Option<SystemId>>, node: &mut ViewNode) -> M<()>
    ensures { OnOk result (node.new ≡ alone_node owners.now node.old) }
{
    if one_of_several(owners, node.subs.as_slice()) {
        node.subs = alone_copies(node.subs.allocator(), owners, node.subs.as_slice())?;
    }
    Ok(())
}

/// Returns whether one of those prefixes belongs to several systems.
fn one_of_several(owners: &BTreeMap<Ipv4, Option<SystemId>>, subs: &[ViewSub]) -> bool
    ensures { result ≡ list_any (λ s. is_several (owner_at owners.now s.prefix)) subs.now }
{
    subs.iter().any(|sub| is_several(owners, &sub.prefix))
}

fn alone_copies(
    alloc: Global,
    owners: &BTreeMap<Ipv4, Option<SystemId>>,
    subs: &[ViewSub],
) -> M<SubList>
    ensures { IfOk result (λ kept. kept ≡ filter (λ s. not (is_several (owner_at owners.now s.prefix))) subs.now) }
{
    let mut kept = SubList::new(alloc);
    'subs: for sub in subs {
        if !is_several(owners, &sub.prefix) {
            push_copy(&mut kept, sub)?;
        }
    }
    Ok(kept)
}
