//! What a router does on frames is what a domain does with the items that they carry. The bodies are empty: the
//! contracts are the laws.
ghost use Rattle.std.specs.Prelude.{◌≡◌, ◌+◌, ◌≤◌, ◌<◌, [], ℕ, List, Some, None, true, false, length, slice_get};
ghost use Rattle.wire_base.specs.declared.bsl.Bsl.{Bsl};
ghost use Rattle.wire_base.specs.declared.cause.Cause.TheVariants as cause;
ghost use Rattle.wire_base.specs.model.Control.{Control};
ghost use Rattle.wire_base.specs.model.Flooding.{on_pdu, send};
ghost use Rattle.wire_base.specs.model.Ingress.{edge_fault, inject};
ghost use Rattle.wire_base.specs.model.Item.{Item, ControlItem, PacketItem, DataItem};
ghost use Rattle.wire_base.specs.model.OnFrame.{Effects, Next, framed, dropped, unchanged, on_frame};
ghost use Rattle.wire_base.specs.model.Pdu.{Pdu};
ghost use Rattle.domain_model.specs.World.{WorldState, is_up, link_between, queue_at};
ghost use Rattle.domain_model.specs.Moves.{inject_made};
ghost use Rattle.domain_model.specs.Truth.{confs_now, IsTruthful, InjectFits};
ghost use Rattle.frames_in_flight.specs.Framed.{frame_over, IsFramed, IsFlooded, IsHopped};

use wire_base::limits::MOST_FRAME;

/// A router receives a frame that is in flight to it, on an interface that is up.
pub fn frames_do_what_items_do()
    // A PDU is flooded, and each PDU in reply is parsed from its frame again (ISO/IEC 10589, 7.3.15).
    ensures pdu { (w : WorldState) (a b link back i : ℕ) (c : Control) (p : Pdu) → IsTruthful w → slice_get w.routers b ≡ Some c
        → link_between w.domain.routers a b ≡ Some link → slice_get (queue_at w.flights a link) i ≡ Some (ControlItem p) → is_up c back ≡ true
        → (next : Control) (e : Effects) → ◌≡◌ {A = Next} (record { control = next; effects = e }) (on_frame c back (frame_over w.domain.routers a link (ControlItem p)))
        → IsFlooded w.domain.routers (confs_now w) b back c (on_pdu c back p) next e }
    // A copy of a packet is forwarded, or sent on in its tunnel: it is delivered, replicated and dropped, each copy is
    // parsed from its frame again, and its BIFT-id selects its triple at the router that it is for (RFC 8279, 6.5;
    // RFC 8296, 3).
    ensures packet { (w : WorldState) (a b link back i : ℕ) (c : Control) (x : DataItem) → IsTruthful w → slice_get w.routers b ≡ Some c
        → link_between w.domain.routers a b ≡ Some link → slice_get (queue_at w.flights a link) i ≡ Some (PacketItem x) → is_up c back ≡ true
        → (next : Control) (e : Effects) → ◌≡◌ {A = Next} (record { control = next; effects = e }) (on_frame c back (frame_over w.domain.routers a link (PacketItem x)))
        → IsHopped w.domain.routers (confs_now w) b c x next e }
    // A frame in flight is short enough to be received.
    ensures short { (w : WorldState) (a link i : ℕ) (x : Item) → IsTruthful w → slice_get (queue_at w.flights a link) i ≡ Some x → length (frame_over w.domain.routers a link x) ≤ MOST_FRAME }
    // At an interface that is down the frame has no other effect.
    ensures down { (c : Control) (back : ℕ) (octets : List ℕ) → is_up c back ≡ false → on_frame c back octets ≡ unchanged c (dropped cause.Link) }
{}

/// What a router sends by itself is parsed from its frames again.
pub fn sent_frames_are_items()
    // What is due on a link (ISO/IEC 10589, 7.3.15.4 and 7.3.17).
    ensures due { (w : WorldState) (a link : ℕ) (c : Control) → IsTruthful w → slice_get w.routers a ≡ Some c → link < length c.conf.ends
        → (next : Control) (e : Effects) → ◌≡◌ {A = Next} (record { control = next; effects = e }) (framed link (send c link)) → IsFlooded w.domain.routers (confs_now w) a link c (send c link) next e }
    // The copies of a payload that is injected (RFC 8279, 3; RFC 8296, 3).
    ensures entered { (w : WorldState) (a sd : ℕ) (bsl : Bsl) (ks : List ℕ) (ttl entropy : ℕ) (payload : List ℕ) (c : Control) → IsTruthful w → slice_get w.routers a ≡ Some c
        → InjectFits (length w.domain.routers) a sd ks ttl entropy payload → edge_fault c.conf sd bsl ks ≡ None
        → IsFramed w.domain.routers (confs_now w) a (Some (w.injections + 1)) [] (inject c sd bsl ks ttl entropy payload) (inject_made w.domain.routers a c (w.injections + 1) sd bsl ks ttl entropy payload) }
{}
