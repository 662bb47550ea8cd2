ghost use Rattle.std.specs.Prelude.{◌≡◌, ◌<◌, ◌^◌};
ghost use Rattle.wire_base.specs.model.Item.{ingress_header};
ghost use Rattle.bier_bits.specs.Any.{bsl_of, positions_of};
ghost use Rattle.bier_head.specs.Views.{fields_with};

use crate::packet::Packet;
use bier_head::HeaderFields;

/// Returns the fields of the header with which a packet enters the domain (RFC 8296, 2.1 and 3): nibble 5, bottom of the label stack,
/// protocol 4 (IPv4, but the payload is not read), the given values, and 0 in all other fields. Precondition: the BIFT-id and the
/// entropy have at most 20 bits.
#[tactic(auto, unfolding(wire_base::specs::model::Item::ingress_header))]
pub fn head_of(p: &Packet, bift: u32, ttl: u8, entropy: u32, bfir: u16) -> HeaderFields
    requires bift { bift < 2 ^ 20 }
    requires entropy { entropy < 2 ^ 20 }
    requires length { bsl_of p.now.bits ≡ p.now.triple.bsl }
    ensures { fields_with result (positions_of p.now.bits) ≡ ingress_header p.now.triple (positions_of p.now.bits) bift ttl entropy bfir }
{
    HeaderFields {
        bift,
        tc: 0,
        s: true,
        ttl,
        nibble: 5,
        entropy,
        oam: 0,
        rsv: 0,
        dscp: 0,
        proto: 4,
        bfir,
        bsl_code: p.triple.bsl.code(),
        bsl: p.triple.bsl,
    }
}
