ghost use Rattle.std.specs.Prelude.{◌≡◌, ◌↔◌, ℕ, true, ◌==◌, ◌&&◌, is_some, find, option_map};
ghost use Rattle.std.specs.List.{list_any};
ghost use Rattle.wire_base.specs.model.Place.{code_of, own_bift, id_of, kind_of, sub_in};
ghost use Rattle.wire_base.specs.model.Ingress.{edge_fault, is_large, supports_length, router_fault};

use wire_base::{Bsl, EdgeFault, Kind, LabelRange, OwnSub, RouterConf, TableRow, kind_of};

// Returns the first reason for which a router sends no packets to a list of BFR-ids.
#[tactic(auto, unfolding(wire_base::specs::model::Ingress::edge_fault))]
pub fn fault_of(conf: &RouterConf, sd: u8, bsl: Bsl, ids: &[u16]) -> Option<EdgeFault>
    ensures { result ≡ edge_fault conf.now sd bsl ids.now }
{
    if ids.is_empty() {
        return Some(EdgeFault::NoEgress);
    }
    if has_zero(ids) {
        return Some(EdgeFault::IdZero);
    }
    match first_large(bsl, ids) {
        Some(id) => Some(EdgeFault::SiLarge(id)),
        None => router_fault(conf, sd, bsl),
    }
}

fn has_zero(ids: &[u16]) -> bool
    ensures { result ≡ list_any (λ k. k == 0) ids.now }
{
    for id in ids {
        if *id == 0 {
            return true;
        }
    }
    false
}

// Returns the first BFR-id whose set identifier exceeds 255.
fn first_large(bsl: Bsl, ids: &[u16]) -> Option<u16>
    ensures { result ≡ find (is_large bsl) ids.now }
{
    for id in ids {
        if is_large(bsl, *id) {
            return Some(*id);
        }
    }
    None
}

fn is_large(bsl: Bsl, id: u16) -> bool
    ensures { result ≡ is_large bsl id }
{
    match bsl.place(id) {
        Some((si, _)) => si > 255,
        None => false,
    }
}

fn router_fault(conf: &RouterConf, sd: u8, bsl: Bsl) -> Option<EdgeFault>
    ensures { result ≡ router_fault conf.now sd bsl }
{
    if !has_id(conf.subs.as_slice(), sd) {
        return Some(EdgeFault::NotBfr);
    }
    if supports_length(conf, sd, bsl) {
        None
    } else {
        Some(EdgeFault::BslUnknown)
    }
}

/// Returns the membership of a sub-domain in a list, if there is one.
pub fn sub_in(subs: &[OwnSub], sd: u8) -> Option<&OwnSub>
    ensures { option_map (λ s. s.now) result ≡ sub_in subs.now sd }
{
    for sub in subs {
        if sub.sd == sd {
            return Some(sub);
        }
    }
    None
}

// Returns whether the router has a BFR-id in the sub-domain.
fn has_id(subs: &[OwnSub], sd: u8) -> bool
    ensures { result ≡ is_some (id_of (sub_in subs.now sd)) }
{
    match sub_in(subs, sd) {
        Some(sub) => sub.id != 0,
        None => false,
    }
}

/// Returns whether the router has a BIFT-id for some set of the BSL in the sub-domain.
pub fn supports_length(conf: &RouterConf, sd: u8, bsl: Bsl) -> bool
    ensures value { result ≡ supports_length conf.now sd bsl }
    ensures some { (result ≡ true) ↔ ((si : ℕ) × (is_some (own_bift conf.now (record { sd = sd; bsl = bsl; si = si })) ≡ true)) }
{
    has_length(conf, sd, bsl)
}

fn has_length(conf: &RouterConf, sd: u8, bsl: Bsl) -> bool
    ensures { result ≡ supports_length conf.now sd bsl }
{
    let Some(sub) = sub_in(conf.subs.as_slice(), sd) else {
        return false;
    };
    match kind_of(conf.kinds.as_slice(), sd) {
        None => false,
        Some(Kind::Mpls) => has_range(sub.ranges.as_slice(), bsl),
        Some(Kind::Configured) => has_row(conf.table.as_slice(), sd, bsl),
    }
}

fn has_range(ranges: &[LabelRange], bsl: Bsl) -> bool
    ensures { result ≡ list_any (λ x. code_of x.bsl == code_of bsl) ranges.now }
{
    for range in ranges {
        if range.bsl.code() == bsl.code() {
            return true;
        }
    }
    false
}

fn has_row(table: &[TableRow], sd: u8, bsl: Bsl) -> bool
    ensures { result ≡ list_any (λ row. (row.triple.sd == sd) && (code_of row.triple.bsl == code_of bsl)) table.now }
{
    for row in table {
        if is_row_for(row, sd, bsl) {
            return true;
        }
    }
    false
}

fn is_row_for(row: &TableRow, sd: u8, bsl: Bsl) -> bool
    ensures { result ≡ ((row.now.triple.sd == sd) && (code_of row.now.triple.bsl == code_of bsl)) }
{
    row.triple.sd == sd && row.triple.bsl.code() == bsl.code()
}
