//! System IDs, LSP IDs and addresses.
ghost use Rattle.std.specs.Prelude.{◌≡◌, ◌++◌, OnOk};
ghost use Rattle.run_texts.specs.Addresses.{lsp_id_text, prefix_text, system_text};

use crate::digits::{push_hex, push_pair};
use wire_base::{Ipv4, LspId, M, Octets, SystemId};

/// Appends a system ID, as `0000.0000.0001`. If an allocation fails, a prefix of it may be appended.
#[tactic(auto, unfolding(crate::specs::Addresses::system_text))]
pub fn push_system(out: &mut Octets, system: SystemId) -> M<()>
    ensures { OnOk result (out.new ≡ out.old ++ system_text system) }
{
    let [a, b, c, d, e, f] = system.0;
    push_pair(out, a, b)?;
    out.push(b'.')?;
    push_pair(out, c, d)?;
    out.push(b'.')?;
    push_pair(out, e, f)
}

/// Appends an LSP ID, as `0000.0000.0001.00-00`: the system ID, the pseudonode number and the fragment number. If an
/// allocation fails, a prefix of it may be appended.
#[tactic(auto, unfolding(crate::specs::Addresses::lsp_id_text))]
pub fn push_lsp_id(out: &mut Octets, id: LspId) -> M<()>
    ensures { OnOk result (out.new ≡ out.old ++ lsp_id_text id) }
{
    push_system(out, id.system)?;
    out.push(b'.')?;
    push_hex(out, id.pseudonode)?;
    out.push(b'-')?;
    push_hex(out, id.fragment)
}

/// Appends an IPv4 address, as `10.0.0.1`. If an allocation fails, a prefix of it may be appended.
#[tactic(auto, unfolding(crate::specs::Addresses::prefix_text))]
pub fn push_prefix(out: &mut Octets, prefix: Ipv4) -> M<()>
    ensures { OnOk result (out.new ≡ out.old ++ prefix_text prefix) }
{
    let [a, b, c, d] = prefix.0;
    out.append_number(u64::from(a))?;
    out.push(b'.')?;
    out.append_number(u64::from(b))?;
    out.push(b'.')?;
    out.append_number(u64::from(c))?;
    out.push(b'.')?;
    out.append_number(u64::from(d))
}
