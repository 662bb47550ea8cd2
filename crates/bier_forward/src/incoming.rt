//! A received BIER packet.
ghost use Rattle.std.specs.Prelude.{◌≡◌, ◌≤◌, ◌+◌, ◌*◌, IfOk, IsTrue, length, drop};
ghost use Rattle.wire_base.specs.model.Configuration.{IsSound};
ghost use Rattle.wire_base.specs.model.Control.{Control};
ghost use Rattle.wire_base.specs.model.OnFrame.{is_not_last, on_packet};
ghost use Rattle.wire_base.specs.model.Place.{bits_of};
ghost use Rattle.bier_bits.specs.Any.{bsl_of, positions_of};
ghost use Rattle.bier_bits.specs.Sets.{is_width};
ghost use Rattle.bier_forward.specs.Packets.{packet_at, packet_done, with_header};
ghost use Rattle.wire_base.specs.model.BierHeader.{header_at, header_length};

use bier_bits::{AnyBits, BitString};
use bier_head::{HeaderFields, read_header_fields};
use std::marker::Model;
use wire_base::fields::word_at;
use wire_base::{Bsl, Cause, HeadFault, Kind, RouterConf, Triple};

/// A parsed packet: the triple that its BIFT-id means, the encapsulation, the fields of its header, the octets of its BitString,
/// which has the triple's length, and the octets after the header. The BitString stays where it was received, so that a packet
/// is not copied.
#[derive(Drop)]
pub struct Incoming<'a> {
    pub triple: Triple,
    pub kind: Kind,
    pub header: HeaderFields,
    pub set: &'a [u8],
    pub payload: &'a [u8],
}

impl<'a> Model for Incoming<'a> {
    ghost use Rattle.wire_base.specs.model.OnFrame.{Packet};
    ghost use Rattle.wire_base.specs.model.BitSet.{set_of};
    ghost use Rattle.bier_head.specs.Views.{fields_with};
    ghost use Rattle.bier_forward.specs.Packets.{IsReadable};

    ghost Value = { Packet };

    ghost view = { λ p. record { triple = p.triple; kind = p.kind; header = fields_with p.header (set_of p.set.now); payload = p.payload.now } };

    ghost invariant = { λ p. IsReadable p.triple p.header p.set.now };
}

impl<'a> Incoming<'a> {
    /// Returns the BitString.
    pub fn bits(&self) -> AnyBits
        ensures bsl { bsl_of result ≡ self.now.triple.bsl }
        ensures positions { positions_of result ≡ self.now.header.positions }
    {
        AnyBits::read(self.triple.bsl, self.set)
    }

    /// Returns the BitString, of which the width is known.
    pub(crate) fn set<const W: usize>(&self) -> BitString<W>
        requires width { IsTrue (is_width W) }
        requires bits { bits_of self.now.triple.bsl ≡ 64 * W }
        ensures { result ≡ self.now.header.positions }
    {
        BitString::read(self.set)
    }
}

/// Parses a packet whose BIFT-id is of that encapsulation (RFC 8296, 2.1 and 2.2). The length of its BitString is that of
/// the triple which the BIFT-id means; the header's own BSL code is ignored.
///
/// # Errors
///
/// The cause of the drop, the first of these that applies: `Head(Short)` if there are fewer than 4 octets; `Label` if the
/// label is not the bottom of its stack or the BIFT-id is unknown at this router; and `Head` with the error of the header.
#[tactic(auto, unfolding(crate::specs::Packets::packet_at, wire_base::specs::model::OnFrame::on_packet))]
pub fn read_packet<'a>(
    conf: &RouterConf,
    kind: Kind,
    octets: &'a [u8],
) -> Result<Incoming<'a>, Cause>
    requires sound { IsSound conf.now }
    ensures exact { result ≡ packet_at conf.now kind octets.now }
    ensures effects { (c : Control) → c.conf ≡ conf.now → on_packet c kind octets.now ≡ packet_done c result }
    ensures whole { IfOk result (λ packet. header_length packet.triple.bsl + length packet.payload ≡ length octets.now) }
{
    if octets.len() < 4 {
        return Err(Cause::Head(HeadFault::Short));
    }
    let word = word_at(octets, 0);
    if is_not_last(kind, word) {
        return Err(Cause::Label);
    }
    match conf.means(kind, word / 4096) {
        None => Err(Cause::Label),
        Some(triple) => packet_with(kind, triple, octets),
    }
}

// Returns whether a label is not the bottom of its stack.
fn is_not_last(kind: Kind, word: u32) -> bool
    ensures { result ≡ is_not_last kind word }
{
    match kind {
        Kind::Mpls => word / 256 % 2 == 0,
        Kind::Configured => false,
    }
}

// Returns the packet of a triple.
fn packet_with<'a>(kind: Kind, triple: Triple, octets: &'a [u8]) -> Result<Incoming<'a>, Cause>
    ensures value { result ≡ with_header kind triple octets.now (header_at kind triple.bsl octets.now) }
    ensures whole { IfOk result (λ packet. header_length packet.triple.bsl + length packet.payload ≡ length octets.now) }
{
    match read_header_fields(kind, triple.bsl, octets) {
        Err(fault) => Err(Cause::Head(fault)),
        Ok(header) => Ok(Incoming {
            triple,
            kind,
            header,
            set: header.bit_string(octets),
            payload: after_header(triple.bsl, octets),
        }),
    }
}

// Returns the octets after a header with a BitString of that length.
fn after_header(bsl: Bsl, octets: &[u8]) -> &[u8]
    requires { header_length bsl ≤ length octets.now }
    ensures value { result.now ≡ drop (header_length bsl) octets.now }
    ensures whole { header_length bsl + length result.now ≡ length octets.now }
{
    &octets[12 + usize::from(bsl.bits() / 8)..]
}
