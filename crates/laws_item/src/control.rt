//! Laws of frames with IS-IS PDUs.
ghost use Rattle.std.specs.Prelude.{◌≡◌, ◌<◌, ◌≤◌, ◌^◌, [], ℕ, List, Bool, true, false, length, slice_index_or, Ok};
ghost use Rattle.std.specs.List.{AllByRecursion};
ghost use Rattle.wire_base.specs.declared.addresses.Mac.{Mac};
ghost use Rattle.wire_base.specs.declared.conf.End.{End};
ghost use Rattle.wire_base.specs.declared.conf.Level.{Level};
ghost use Rattle.wire_base.specs.declared.conf.RouterConf.{RouterConf};
ghost use Rattle.wire_base.specs.declared.entry.Entry.{Entry};
ghost use Rattle.wire_base.specs.model.Configuration.{IsSound};
ghost use Rattle.wire_base.specs.model.Control.{Control};
ghost use Rattle.wire_base.specs.model.Tlv.{LspIdFits};
ghost use Rattle.wire_base.specs.model.Ethernet.{IsisPdu, frame_at};
ghost use Rattle.wire_base.specs.model.Flooding.{on_pdu, send_of};
ghost use Rattle.wire_base.specs.model.Item.{ControlItem, isis_frame, frame_of};
ghost use Rattle.wire_base.specs.model.OnFrame.{framed, on_frame};
ghost use Rattle.wire_base.specs.model.Pdu.{Pdu, pdu, pdu_at};
ghost use Rattle.laws_item.specs.Fits.{IsSendable, EntryFits, IsOwn};

/// A frame of a PDU that a router sends (ISO/IEC 10589, 8.4 and 9.8 to 9.13).
pub fn control_frames_law()
    // The PDU is parsed again.
    ensures read { (level : Level) (p : Pdu) → IsSendable p → pdu_at level (pdu level p) ≡ Ok p }
    ensures carried { (own : Mac) (octets : List ℕ) → length own.0 ≡ 6 → length octets ≤ 1497 → frame_at (isis_frame own octets) ≡ Ok (IsisPdu octets) }
    // On an interface that is up, flooding processes the PDU.
    ensures taken { (c : Control) (link : ℕ) (e : End) (p : Pdu) → IsSendable p → length e.own_mac.0 ≡ 6 → slice_index_or c.flood.up link false ≡ true
        → on_frame c link (frame_of c.conf.level e (ControlItem p)) ≡ framed link (on_pdu c link p) }
{}

/// The PDUs that flooding sends can be sent and parsed again.
pub fn sent_pdus_law()
    // What is due on a link, where the entries of the LSDB can be sent.
    ensures due { (c : Control) (link : ℕ) → length c.conf.system.0 ≡ 6 → AllByRecursion EntryFits c.entries → AllByRecursion IsSendable (send_of c link) }
    // What is sent at once in response.
    ensures answered { (c : Control) (link : ℕ) (p : Pdu) → length c.conf.system.0 ≡ 6 → IsSendable p → AllByRecursion IsSendable (on_pdu c link p).sent }
{}

/// Entries of an LSDB that can be sent.
pub fn entries_law()
    // A router's own fragment 0, in any LSDB (ISO/IEC 10589, 7.3.7; RFC 8401, 6.1).
    ensures own { (r : RouterConf) (up : List Bool) (e : Entry) → IsSound r → IsOwn r up e → e.seq < 2 ^ 32 → e.life < 2 ^ 16 → EntryFits e }
    // An expired one, or one that represents a requested LSP (ISO/IEC 10589, 7.3.15.2 and 7.3.16.4).
    ensures dead { (e : Entry) → LspIdFits e.id → e.seq < 2 ^ 32 → e.life ≡ 0 → e.sum < 2 ^ 16 → e.flags < 256 → e.content ≡ [] → EntryFits e }
{}
