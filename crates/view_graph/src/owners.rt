//! The owner of each prefix, if exactly one system has it, so that prefixes of two systems are found in one pass.
ghost use Rattle.std.specs.Prelude.{◌≡◌, List, ◌++◌, Some, false, IfOk, OnOk, if◌then◌else◌};
ghost use Rattle.std.specs.Str.{bytes_eq};
ghost use Rattle.wire_base.specs.declared.addresses.Ipv4.{Ipv4};
ghost use Rattle.view_graph.specs.Owners.{AreAlone, AreOwners, AreTold, Prefix, are_above, do_ascend, owner_at, owner_with, is_several, prefix_number, prefixes_at, prefixes_of, top_of};

use crate::claims::Claim;
use std::alloc::Global;
use std::collections::BTreeMap;
use wire_base::{Ipv4, M, SystemId, ViewSub};

fn owner_at(owners: &BTreeMap<Ipv4, Option<SystemId>>, prefix: &Ipv4) -> Option<Option<SystemId>>
    ensures { result ≡ owner_at owners.now prefix.now }
{
    owners.get(prefix).copied()
}

/// Returns the owner of a prefix after one more system has it. None if several have it.
fn owner_with(system: SystemId, owner: Option<Option<SystemId>>) -> Option<SystemId>
    ensures { result ≡ owner_with system owner }
{
    let Some(owner) = owner else {
        return Some(system);
    };
    let other = owner?;
    if other == system { Some(other) } else { None }
}

/// Adds a prefix of a system. Returns whether several systems have it now.
fn add_prefix(
    owners: &mut BTreeMap<Ipv4, Option<SystemId>>,
    prefix: Ipv4,
    system: SystemId,
) -> M<bool>
    ensures owner { OnOk result ((p : Ipv4) → owner_at owners.new p ≡ (if bytes_eq prefix.0 p.0 then Some (owner_with system (owner_at owners.old prefix)) else owner_at owners.old p)) }
    ensures alone { IfOk result (λ b. b ≡ false → AreAlone owners.old → AreAlone owners.new) }
{
    let before = owners.insert(prefix, Some(system))?;
    let owner = owner_with(system, before);
    if owner.is_some() {
        return Ok(false);
    }
    owners.insert(prefix, None)?;
    Ok(true)
}

/// Adds the prefixes of a system. If it returns false, no prefix has several owners unless one had before.
fn add_prefixes(
    owners: &mut BTreeMap<Ipv4, Option<SystemId>>,
    system: SystemId,
    subs: &[ViewSub],
) -> M<bool>
    ensures owners { OnOk result ((xs : List Prefix) → AreOwners xs owners.old → AreOwners (xs ++ prefixes_at system subs.now) owners.new) }
    ensures alone { IfOk result (λ b. b ≡ false → AreAlone owners.old → AreAlone owners.new) }
{
    let mut is_any = false;
    'subs: for sub in subs {
        is_any = is_any | add_prefix(owners, sub.prefix, system)?;
    }
    Ok(is_any)
}

/// Returns for each prefix the system that has it, or None if several have it; and whether several have one.
fn all_owners(alloc: Global, claims: &[Claim]) -> M<(BTreeMap<Ipv4, Option<SystemId>>, bool)>
    ensures owners { IfOk result (λ o. AreOwners (prefixes_of claims.now) o.0) }
    ensures alone { IfOk result (λ o. o.1 ≡ false → AreAlone o.0) }
{
    let mut owners = BTreeMap::new(alloc);
    let mut is_any = false;
    'claims: for claim in claims {
        is_any = is_any | add_prefixes(&mut owners, claim.system, claim.subs.as_slice())?;
    }
    Ok((owners, is_any))
}

/// Returns the four octets of a prefix as one number.
#[tactic(auto, unfolding(crate::specs::Owners::prefix_number))]
fn prefix_number(prefix: Ipv4) -> u32
    ensures { result ≡ prefix_number prefix }
{
    u32::from_be_bytes(prefix.0)
}

/// Returns whether no prefix is below that number.
fn are_above(low: u64, subs: &[ViewSub]) -> bool
    ensures { result ≡ are_above low subs.now }
{
    subs.iter()
        .all(|sub| u64::from(prefix_number(sub.prefix)) >= low)
}

/// Returns that number, or a greater one that is above all of the prefixes.
fn top_of(low: u64, subs: &[ViewSub]) -> u64
    ensures { result ≡ top_of low subs.now }
{
    let mut top = low;
    'subs: for sub in subs {
        top = top.max(u64::from(prefix_number(sub.prefix)) + 1);
    }
    top
}

/// Returns whether the prefixes of each system are above those of all systems before it.
fn do_ascend(claims: &[Claim]) -> bool
    ensures { result ≡ do_ascend 0 claims.now }
{
    let mut low = 0;
    'claims: for claim in claims {
        let subs = claim.subs.as_slice();
        if !are_above(low, subs) {
            return false;
        }
        low = top_of(low, subs);
    }
    true
}

/// Returns the prefixes that several systems have, and whether there is one. System IDs are mostly derived from the prefixes,
/// so that these ascend too: then no two systems share one, and nothing is stored.
#[tactic(auto, using(crate::proofs::AscentLaws::ascent_told, crate::proofs::OwnerLaws::owners_told))]
pub(crate) fn owners_of(
    alloc: Global,
    claims: &[Claim],
) -> M<(BTreeMap<Ipv4, Option<SystemId>>, bool)>
    ensures told { IfOk result (λ o. AreTold claims.now o.0) }
    ensures alone { IfOk result (λ o. o.1 ≡ false → AreAlone o.0) }
{
    if do_ascend(claims) {
        return Ok((BTreeMap::new(alloc), false));
    }
    all_owners(alloc, claims)
}

/// Returns whether several systems have a prefix.
pub(crate) fn is_several(owners: &BTreeMap<Ipv4, Option<SystemId>>, prefix: &Ipv4) -> bool
    ensures { result ≡ is_several (owner_at owners.now prefix.now) }
{
    match owner_at(owners, prefix) {
        Some(owner) => owner.is_none(),
        None => false,
    }
}
