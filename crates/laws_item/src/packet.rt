//! Laws of frames with BIER packets.
ghost use Rattle.std.specs.Prelude.{◌≡◌, ◌<◌, ℕ, true, false, length, slice_index_or, Option, Some, Ok};
ghost use Rattle.wire_base.specs.declared.conf.End.{End};
ghost use Rattle.wire_base.specs.declared.conf.Kind.{Kind};
ghost use Rattle.wire_base.specs.declared.conf.Level.{Level};
ghost use Rattle.wire_base.specs.model.BierHeader.{header_at};
ghost use Rattle.wire_base.specs.model.Control.{Control};
ghost use Rattle.wire_base.specs.model.Item.{PacketItem, DataItem, Outer, item_header, item_packet, item_tunnel, frame_of};
ghost use Rattle.wire_base.specs.model.OnFrame.{ids_in, hop_in, on_packet, on_frame, unchanged};
ghost use Rattle.wire_base.specs.model.Place.{means};
ghost use Rattle.wire_base.specs.model.Tunnel.{tunnel, tunnel_at, tunnel_on};
ghost use Rattle.laws_item.specs.Fits.{ItemFits, OuterFits, copy_taken, packet_of};

/// A frame of a copy of a packet, in a tunnel or not (RFC 8296, 2 and 3; RFC 2784, 2).
pub fn packet_frames_law()
    // The header and the BFR-ids are parsed again.
    ensures read { (kind : Kind) (x : DataItem) → ItemFits x → header_at kind x.triple.bsl (item_packet x) ≡ Ok (item_header x) }
    ensures ids { (x : DataItem) → ItemFits x → ids_in (packet_of x) ≡ x.ids }
    // So is the tunnel; forwarded, it is that of the copy with another TTL.
    ensures tunnel { (x : DataItem) (o : Outer) → OuterFits x (Some o) → tunnel_at (tunnel (item_tunnel x o)) ≡ Ok (item_tunnel x o) }
    ensures onward { (x : DataItem) (o : Outer) (ttl : ℕ) → OuterFits x (Some o) → tunnel_on (tunnel (item_tunnel x o)) ttl ≡ tunnel (item_tunnel x (record o { ttl = ttl })) }
    // On an interface that is up, the router accepts the copy's packet, or the tunnel that it is in.
    ensures taken { (c : Control) (link : ℕ) (level : Level) (e : End) (x : DataItem) → OuterFits x x.outer → length e.peer_mac.0 ≡ 6 → length e.own_mac.0 ≡ 6
        → slice_index_or c.flood.up link false ≡ true
        → on_frame c link (frame_of level e (PacketItem x)) ≡ unchanged c (copy_taken c x x.outer) }
    // If the BIFT-id means the packet's triple, the packet is processed by the forwarding procedure.
    ensures hopped { (c : Control) (x : DataItem) → ItemFits x → means c.conf x.kind x.bift ≡ Some x.triple → on_packet c x.kind (item_packet x) ≡ hop_in c (packet_of x) x.ttl }
{}
