//! TLVs that belong to one topology (RFC 5120, 7.2 and 7.3).
ghost use Rattle.std.specs.Prelude.{◌≡◌};
ghost use Rattle.wire_base.specs.model.Fields.{Gives};
ghost use Rattle.topo_mt.specs.MultiTopology.{mt_part_at};

use wire_base::fields::read_u16;

/// MT Intermediate Systems (RFC 5120, 7.2).
pub const TLV_MT_IS_REACH: u8 = 222;
/// Multi-Topology (RFC 5120, 7.1).
pub const TLV_MULTI_TOPOLOGY: u8 = 229;
/// Multi-Topology Reachable IPv4 Prefixes (RFC 5120, 7.3).
pub const TLV_MT_IP_REACH: u8 = 235;

/// Why octets are not the value of a TLV 222 or 235.
#[derive(Clone, Copy, Debug, PartialEq, Eq)]
pub enum MtFault {
    /// There are fewer than two octets.
    Short,
}

/// Splits the value of a TLV 222 or 235: the topology that it belongs to, the low 12 bits of its first two octets, and its
/// entries, which are those of a TLV 22 or 135. Error: Short if there are fewer than two octets (RFC 5120, 7.2 and 7.3).
pub fn mt_part(value: &[u8]) -> Result<(u16, &[u8]), MtFault>
    ensures { Gives (λ x. (x.0, x.1.now)) result (mt_part_at value.now) }
{
    let (head, entries) = read_u16(MtFault::Short, value)?;
    Ok((head % 4096, entries))
}
