ghost use Rattle.std.specs.Prelude.{◌≡◌, true, [], ◌∷◌, ◌++◌, Ok, Err, Some, None};
ghost use Rattle.wire_base.specs.declared.bsl.Bsl.TheVariants as lengths;
ghost use Rattle.wire_base.specs.declared.conf.Kind.TheVariants.{Mpls};
ghost use Rattle.wire_base.specs.declared.faults.CaptureFault.TheVariants.{Magic, CutHeader, CutRecord};
ghost use Rattle.wire_base.specs.model.BierHeader.{coded_header_at};
ghost use Rattle.wire_base.specs.model.BitSet.{set_of, octets_of};
ghost use Rattle.wire_base.specs.model.Capture.{capture_at};
ghost use Rattle.wire_base.specs.model.Ethernet.{MplsPacket, frame_at};
ghost use Rattle.wire_base.specs.model.HopCount.{hops};
ghost use Rattle.wire_base.specs.model.Labels.{stack_at};
ghost use Rattle.wire_base.specs.model.Place.{place, position_in};
ghost use Rattle.wire_base.specs.model.Tlv.{TlvFits};
ghost use Rattle.examples_model.specs.Domains.{pair_a};
ghost use Rattle.examples_model.specs.Views.{ring_view};
ghost use Rattle.examples_model.specs.Vectors.{labelled_packet, labelled_frame, capture_head, capture_of_one};

/// The last BFR-id in BitStrings of 4,096 and of 64 bits, and the BFR-ids on both sides of the border of two sets. BFR-id
/// 64 has no bit position in packets of the set after its own.
pub fn places_of_bfr_ids()
    ensures longest { place 4096 65535 ≡ Some (15, 4095) }
    ensures shortest { place 64 65535 ≡ Some (1023, 63) }
    ensures last { place 64 64 ≡ Some (0, 64) }
    ensures next { place 64 65 ≡ Some (1, 1) }
    ensures none { place 64 0 ≡ None }
    ensures other_set { position_in (record { sd = 0; bsl = lengths.B64; si = 1 }) 64 ≡ None }
{}

/// The last octet has the positions 1 to 8; its least significant bit is position 1.
#[tactic(auto, unfolding(wire_base::specs::model::BitSet::set_of, wire_base::specs::model::BitSet::octets_of))]
pub fn octets_of_positions()
    ensures read { set_of (1 ∷ 5 ∷ []) ≡ 1 ∷ 3 ∷ 9 ∷ [] }
    ensures written { octets_of 2 (1 ∷ 3 ∷ 9 ∷ []) ≡ 1 ∷ 5 ∷ [] }
{}

/// A frame with a BIER packet after one label: its content, the label stack, and the header, which begins with the label.
#[tactic(auto, unfolding(wire_base::specs::model::Ethernet::frame_at, wire_base::specs::model::Labels::stack_at, wire_base::specs::model::BierHeader::coded_header_at, wire_base::specs::model::BitSet::set_of))]
pub fn a_packet_behind_a_label()
    ensures carried { frame_at labelled_frame ≡ Ok (MplsPacket labelled_packet) }
    ensures stack { stack_at 8 (0 ∷ 6 ∷ 65 ∷ 64 ∷ 80 ∷ []) ≡ Ok (record { value = 100; tc = 0; ttl = 64 } ∷ [], 80 ∷ []) }
    ensures header { coded_header_at Mpls labelled_packet ≡ Ok (record { bift = 100; tc = 0; s = true; ttl = 64; nibble = 5; bsl_code = 1; entropy = 10; oam = 0; rsv = 0; dscp = 0; proto = 4; bfir = 1; bsl = lengths.B64; positions = 1 ∷ 3 ∷ [] }) }
{}

/// A capture of one frame; a capture that ends within its header and within a record; octets that are not a capture.
#[tactic(auto, unfolding(wire_base::specs::model::Capture::drained, wire_base::specs::model::Capture::drain, wire_base::specs::model::Capture::next_of, wire_base::specs::model::Capture::header_at, wire_base::specs::model::Capture::record_at))]
pub fn a_capture_of_one_frame()
    ensures whole { capture_at capture_of_one ≡ (record { sec = 1; usec = 0; whole = true; octets = labelled_frame } ∷ [], None) }
    ensures empty { capture_at capture_head ≡ ([], None) }
    ensures cut_header { capture_at (212 ∷ 195 ∷ 178 ∷ 161 ∷ 2 ∷ []) ≡ ([], Some CutHeader) }
    ensures cut_record { capture_at (capture_head ++ 1 ∷ 0 ∷ 0 ∷ []) ≡ ([], Some CutRecord) }
    ensures no_capture { capture_at (10 ∷ 13 ∷ 13 ∷ 10 ∷ []) ≡ ([], Some Magic) }
{}

/// In the ring a bit for C has two hops from A.
pub fn a_bit_has_two_hops()
    ensures { hops ring_view pair_a.kinds [] (record { sd = 0; bsl = lengths.B64; si = 0 }) 1 3 0 ≡ Some 2 }
{}

/// A TLV of the greatest code and of no value fits.
pub fn an_empty_tlv_fits()
    ensures { TlvFits (record { code = 255; value = [] }) }
{}
