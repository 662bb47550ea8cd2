//! What each system advertises: its links, and its memberships of sub-domains.
ghost use Rattle.std.specs.Prelude.{◌≡◌, ◌++◌, ◌≤◌, ◌∷◌, [], true, map, filter, drop, length, IfOk, OnOk, if◌then◌else◌};
ghost use Rattle.std.specs.List.{flat_map};
ghost use Rattle.wire_base.specs.model.Control.{AreAscending, ids_of, same_system, system_order};
ghost use Rattle.wire_base.specs.model.Tlv.{tlvs_before};
ghost use Rattle.wire_base.specs.model.OwnLsp.{picked, info_of};
ghost use Rattle.wire_base.specs.model.View.{links_in, subs_in, is_part_of, is_overload_flag, claim_of, is_other, end_link, own_claim, claims_of, sub_of, tlvs_of, with_known};
ghost use Rattle.wire_base.specs.model.Place.{kind_of, is_mpls};
ghost use Rattle.isis_tlv.specs.Views.{item};
ghost use Rattle.view_graph.specs.Edges.{is_before};
ghost use Rattle.view_graph.specs.Places.{Begins, bare_claim, is_live_part, place_before};

use crate::known::keep_known;
use crate::links::{Link, LinkList, append_links};
use crate::places::append_places;
use isis_tlv::{Tlv, TlvWalk};
use lsp_store::{Store, is_system_above};
use std::alloc::Global;
use std::marker::Model;
use wire_base::codepoints::{TLV_EXTENDED_IP_REACH, TLV_EXTENDED_IS_REACH};
use wire_base::{
    End, Entry, Kind, M, OwnSub, RangeList, RouterConf, SubKind, SubList, SystemId, ViewSub,
    kind_of,
};

/// The advertisement of a system: whether it has its overload bit set, its links, and its memberships of sub-domains, in the
/// order of its LSPs.
#[derive(Drop)]
pub(crate) struct Claim {
    pub(crate) system: SystemId,
    pub(crate) overload: bool,
    pub(crate) links: LinkList,
    pub(crate) subs: SubList,
}

impl Model for Claim {
    ghost use Rattle.wire_base.specs.model.View.{Claim as ClaimItem};

    ghost Value = { ClaimItem };

    ghost view = { λ c. record { system = c.system; overload = c.overload; links = c.links; subs = c.subs } };
}

fn no_claim(alloc: Global, system: SystemId, overload: bool) -> Claim
    ensures { result ≡ record { system = system; overload = overload; links = []; subs = [] } }
{
    Claim {
        system,
        overload,
        links: LinkList::new(alloc),
        subs: SubList::new(alloc),
    }
}

/// Adds the content of a TLV.
fn add_tlv(claim: &mut Claim, tlv: Tlv<'_>) -> M<()>
    ensures links { OnOk result (claim.new.links ≡ claim.old.links ++ links_in (item tlv.entry)) }
    ensures subs { OnOk result (claim.new.subs ≡ claim.old.subs ++ subs_in (item tlv.entry)) }
    ensures system { claim.new.system ≡ claim.old.system }
    ensures overload { claim.new.overload ≡ claim.old.overload }
{
    match tlv.code {
        TLV_EXTENDED_IS_REACH => append_links(&mut claim.links, tlv.value),
        TLV_EXTENDED_IP_REACH => append_places(&mut claim.subs, tlv.value),
        _ => Ok(()),
    }
}

/// Adds the content of a fragment, to its end or to an overrun.
fn add_content(claim: &mut Claim, content: &[u8]) -> M<()>
    ensures links { OnOk result (claim.new.links ≡ claim.old.links ++ flat_map links_in (tlvs_before content.now)) }
    ensures subs { OnOk result (claim.new.subs ≡ claim.old.subs ++ flat_map subs_in (tlvs_before content.now)) }
    ensures system { claim.new.system ≡ claim.old.system }
    ensures overload { claim.new.overload ≡ claim.old.overload }
{
    for part in TlvWalk::new(content) {
        if let Ok(tlv) = part {
            add_tlv(claim, tlv)?;
        }
    }
    Ok(())
}

/// Returns whether an entry belongs to that system or to one of its pseudonodes.
fn is_of(system: &SystemId, entry: &Entry) -> bool
    ensures { result ≡ same_system entry.now.id.system system.now }
{
    entry.id.system == *system
}

/// Returns whether an entry is a live fragment of a router itself, not of one of its pseudonodes.
fn is_live_part(entry: &Entry) -> bool
    ensures { result ≡ is_live_part entry.now }
{
    entry.id.pseudonode == 0 && entry.life > 0
}

/// Adds the content of an entry of its system, if it is such a fragment.
#[tactic(auto, using(crate::proofs::FragmentLaws::part_is_live))]
fn add_entry(claim: &mut Claim, entry: &Entry) -> M<()>
    requires { same_system entry.now.id.system claim.old.system ≡ true }
    ensures links { OnOk result (claim.new.links ≡ claim.old.links ++ flat_map links_in (if is_part_of claim.old.system entry.now then tlvs_before entry.now.content else [])) }
    ensures subs { OnOk result (claim.new.subs ≡ claim.old.subs ++ flat_map subs_in (if is_part_of claim.old.system entry.now then tlvs_before entry.now.content else [])) }
    ensures system { claim.new.system ≡ claim.old.system }
    ensures overload { claim.new.overload ≡ claim.old.overload }
{
    if is_live_part(entry) {
        add_content(claim, entry.content.as_slice())
    } else {
        Ok(())
    }
}

/// Adds the content of the fragments of its system, by the entries from an index on. Entries ascend, and the first is one of them,
/// so the first entry of another system ends them.
fn add_fragments(claim: &mut Claim, store: &Store, first: usize) -> M<()>
    requires ascending { AreAscending (ids_of store.now.entries) }
    requires begins { Begins claim.old.system (drop first store.now.entries) }
    ensures links { OnOk result (claim.new.links ≡ claim.old.links ++ flat_map links_in (tlvs_of (drop first store.now.entries) claim.old.system)) }
    ensures subs { OnOk result (claim.new.subs ≡ claim.old.subs ++ flat_map subs_in (tlvs_of (drop first store.now.entries) claim.old.system)) }
    ensures system { claim.new.system ≡ claim.old.system }
    ensures overload { claim.new.overload ≡ claim.old.overload }
{
    'fragments: for place in first..store.len() {
        let entry = store.at(place);
        if !is_of(&claim.system, entry) {
            return Ok(());
        }
        add_entry(claim, entry)?;
    }
    Ok(())
}

/// Returns an empty claim of the system of a fragment 0; its overload bit is the one in that fragment.
fn bare_claim(alloc: Global, entry: &Entry) -> Claim
    ensures { result ≡ bare_claim entry.now }
{
    no_claim(alloc, entry.id.system, entry.flags / 4 % 2 == 1)
}

/// Returns what the system of a fragment 0 advertises, by the entries from that one on, which has that index.
pub(crate) fn claim_of(alloc: Global, store: &Store, place: usize, entry: &Entry) -> M<Claim>
    requires ascending { AreAscending (ids_of store.now.entries) }
    requires begins { Begins entry.now.id.system (drop place store.now.entries) }
    ensures { IfOk result (λ c. c ≡ claim_of (drop place store.now.entries) entry.now) }
{
    let mut claim = bare_claim(alloc, entry);
    add_fragments(&mut claim, store, place)?;
    Ok(claim)
}

/// Returns a claim with only the memberships that count, given the sub-domains that the router knows.
pub(crate) fn with_known(kinds: &[SubKind], mut claim: Claim) -> M<Claim>
    ensures { IfOk result (λ c. c ≡ with_known kinds.now claim) }
{
    keep_known(kinds, &mut claim.subs)?;
    Ok(claim)
}

/// Returns the links of the interfaces that are up.
fn own_links(alloc: Global, up: &[bool], ends: &[End]) -> M<LinkList>
    requires { length up.now ≡ length ends.now }
    ensures { IfOk result (λ links. links ≡ map end_link (picked up.now ends.now)) }
{
    let mut links = LinkList::new(alloc);
    'ends: for place in 0..ends.len() {
        let is_up = up[place];
        let end = &ends[place];
        append_end(&mut links, is_up, end)?;
    }
    Ok(links)
}

fn append_end(links: &mut LinkList, is_up: bool, end: &End) -> M<()>
    ensures { OnOk result (links.new ≡ links.old ++ (if is_up then end_link end.now ∷ [] else [])) }
{
    if is_up {
        links.push(Link {
            neighbour: end.peer,
            metric: end.metric,
        })
    } else {
        Ok(())
    }
}

/// Returns the label ranges of an MPLS sub-domain; none for another one.
fn own_ranges(kinds: &[SubKind], sub: &OwnSub) -> M<RangeList>
    ensures { IfOk result (λ ranges. ranges ≡ (info_of kinds.now sub.now).ranges) }
{
    if kind_of(kinds, sub.sd) == Some(Kind::Mpls) {
        RangeList::from_slice(sub.ranges.allocator(), sub.ranges.as_slice())
    } else {
        Ok(RangeList::new(sub.ranges.allocator()))
    }
}

/// Returns one of the router's own memberships.
fn own_sub(conf: &RouterConf, sub: &OwnSub) -> M<ViewSub>
    ensures { IfOk result (λ s. s ≡ sub_of conf.now.prefix.0 (info_of conf.now.kinds sub.now)) }
{
    Ok(ViewSub {
        sd: sub.sd,
        id: sub.id,
        prefix: conf.prefix,
        ranges: own_ranges(conf.kinds.as_slice(), sub)?,
    })
}

/// Returns the router's own memberships of sub-domains.
fn own_subs(alloc: Global, conf: &RouterConf) -> M<SubList>
    ensures { IfOk result (λ subs. subs ≡ map (λ s. sub_of conf.now.prefix.0 (info_of conf.now.kinds s)) conf.now.subs) }
{
    let mut subs = SubList::new(alloc);
    'subs: for sub in conf.subs.as_slice() {
        subs.push(own_sub(conf, sub)?)?;
    }
    Ok(subs)
}

/// Returns what the router itself contributes, by its configuration and its interfaces that are up.
pub(crate) fn own_claim(alloc: Global, conf: &RouterConf, up: &[bool]) -> M<Claim>
    requires { length up.now ≡ length conf.now.ends }
    ensures { IfOk result (λ c. c ≡ own_claim conf.now up.now) }
{
    Ok(Claim {
        system: conf.system,
        overload: conf.overload,
        links: own_links(alloc, up, conf.ends.as_slice())?,
        subs: own_subs(alloc, conf)?,
    })
}

/// Returns whether an entry is a live fragment 0 of another system.
fn is_other(own: &SystemId, entry: &Entry) -> bool
    ensures { result ≡ is_other own.now entry.now }
{
    entry.id.system != *own && entry.id.pseudonode == 0 && entry.id.fragment == 0 && entry.life > 0
}

/// Fills an empty claim, with only the memberships that count, given the sub-domains that the router knows.
fn fill(claim: &mut Claim, kinds: &[SubKind], store: &Store, place: usize, entry: &Entry) -> M<()>
    requires ascending { AreAscending (ids_of store.now.entries) }
    requires begins { Begins entry.now.id.system (drop place store.now.entries) }
    requires bare { claim.old ≡ bare_claim entry.now }
    ensures { OnOk result (claim.new ≡ with_known kinds.now (claim_of (drop place store.now.entries) entry.now)) }
{
    add_fragments(claim, store, place)?;
    keep_known(kinds, &mut claim.subs)
}

/// Appends what the system of a fragment 0 advertises, by the entries from that one on, which has that index. It is filled in
/// place, since a claim is large and each view has one for every system.
fn push_claim(
    claims: &mut Vec<Claim>,
    kinds: &[SubKind],
    store: &Store,
    place: usize,
    entry: &Entry,
) -> M<()>
    requires ascending { AreAscending (ids_of store.now.entries) }
    requires begins { Begins entry.now.id.system (drop place store.now.entries) }
    ensures { OnOk result (claims.new.items ≡ claims.old.items ++ with_known kinds.now (claim_of (drop place store.now.entries) entry.now) ∷ []) }
{
    let last = claims.len();
    claims.push(bare_claim(*claims.allocator(), entry))?;
    fill(&mut claims[last], kinds, store, place, entry)?;
    Ok(())
}

/// Returns what all other systems advertise, in the order of their entries. A system's fragments begin with its fragment 0.
fn other_claims(alloc: Global, conf: &RouterConf, store: &Store) -> M<Vec<Claim>>
    ensures { IfOk result (λ claims. claims.items ≡ map (with_known conf.now.kinds) (map (claim_of store.now.entries) (filter (is_other conf.now.system) store.now.entries))) }
{
    let mut claims = Vec::with_capacity(alloc, store.len())?;
    'systems: for place in 0..store.len() {
        let entry = store.at(place);
        if is_other(&conf.system, entry) {
            push_claim(&mut claims, conf.kinds.as_slice(), store, place, entry)?;
        }
    }
    Ok(claims)
}

#[tactic(auto, using(crate::proofs::SystemLaws::above_turned))]
fn is_before(a: &SystemId, b: &SystemId) -> bool
    ensures { result ≡ is_before a.now b.now }
{
    is_system_above(*b, *a)
}

/// Returns the number of claims before the first whose system ID is greater.
fn place_of(claims: &[Claim], system: &SystemId) -> usize
    ensures within { result ≤ length claims.now }
    ensures place { result ≡ place_before system.now claims.now }
{
    'places: for place in 0..claims.len() {
        let claim = &claims[place];
        if is_before(system, &claim.system) {
            return place;
        }
    }
    claims.len()
}

/// Returns what all systems advertise, in the order of their system IDs.
#[tactic(auto, unfolding(wire_base::specs::model::View::claims_of))]
pub(crate) fn claims_of(
    alloc: Global,
    conf: &RouterConf,
    up: &[bool],
    store: &Store,
) -> M<Vec<Claim>>
    requires one_each { length up.now ≡ length conf.now.ends }
    ensures { IfOk result (λ claims. claims.items ≡ map (with_known conf.now.kinds) (claims_of conf.now up.now store.now.entries)) }
{
    let mut claims = other_claims(alloc, conf, store)?;
    let own = own_claim(alloc, conf, up)?;
    let own = with_known(conf.kinds.as_slice(), own)?;
    let place = place_of(claims.as_slice(), &own.system);
    claims.insert(place, own)?;
    Ok(claims)
}
