//! Comparison of identifiers as numbers: one comparison instead of one for each octet.
ghost use Rattle.std.specs.Prelude.{◌≡◌, ◌<◌, ◌^◌, length};
ghost use Rattle.std.specs.List.{AllByRecursion};
ghost use Rattle.std.specs.Ordering.{is_gt};
ghost use Rattle.wire_base.specs.model.Control.{id_order, same_id, system_order};
ghost use Rattle.lsp_store.specs.Keys.{AreOctets, IsOctets, id_key, octets_from};

use wire_base::{LspId, SystemId};

/// Returns the six octets of a system ID as one number.
pub fn system_key(system: SystemId) -> u64
    ensures key { result ≡ octets_from 0 system.0 }
    ensures octets { AreOctets system.0 }
    ensures small { result < 2 ^ 48 }
{
    let [a, b, c, d, e, f] = system.0;
    let high = (u64::from(a) * 256 + u64::from(b)) * 256 + u64::from(c);
    ((high * 256 + u64::from(d)) * 256 + u64::from(e)) * 256 + u64::from(f)
}

/// Returns the eight octets of an LSP ID as one number.
fn id_key(id: LspId) -> u64
    ensures key { result ≡ id_key id }
    ensures octets { IsOctets id }
{
    (system_key(id.system) * 256 + u64::from(id.pseudonode)) * 256 + u64::from(id.fragment)
}

/// Returns whether system ID `a` is greater than `b`.
pub fn is_system_above(a: SystemId, b: SystemId) -> bool
    ensures { result ≡ is_gt (system_order a b) }
{
    system_key(a) > system_key(b)
}

/// Returns whether LSP ID `a` is greater than `b`.
pub(crate) fn is_id_above(a: LspId, b: LspId) -> bool
    ensures { result ≡ is_gt (id_order a b) }
{
    id_key(a) > id_key(b)
}

/// Returns whether two LSP IDs are equal.
pub fn is_same_id(a: LspId, b: LspId) -> bool
    ensures { result ≡ same_id a b }
{
    id_key(a) == id_key(b)
}
