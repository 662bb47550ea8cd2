//! The invariants of an LSDB and its flags that every event preserves. The bodies are empty: the contracts are the
//! laws.
ghost use Rattle.std.specs.Prelude.{◌≡◌, ℕ, ◌≤◌, ◌<◌, [], Bool, List, true, false, length, set, slice_index_or};
ghost use Rattle.std.specs.List.{filter_map, fold};
ghost use Rattle.wire_base.specs.declared.addresses.SystemId.{SystemId};
ghost use Rattle.wire_base.specs.declared.addresses.LspId.{LspId};
ghost use Rattle.wire_base.specs.declared.entry.Entry.{Entry};
ghost use Rattle.wire_base.specs.declared.limits.TheConstants.{MOST_CONTENT};
ghost use Rattle.wire_base.specs.model.Control.{Flood, after_second, fragment_0, put_entry};
ghost use Rattle.wire_base.specs.model.Flooding.{flood_aged, link_down, link_up, mark_all, new_flood, on_csnp, on_lsp, on_psnp, sent_on};
ghost use Rattle.wire_base.specs.model.Pdu.{Head};
ghost use Rattle.laws_router.specs.State.{IsShort};
ghost use Rattle.laws_router.specs.Kept.{Kept};

/// The LSDB invariant holds for an empty LSDB. It is preserved when a link comes up or goes down, when the frames that
/// are due are sent, when the router originates its LSP, and when a second passes, which may exhaust the router's own
/// sequence numbers.
pub fn a_database_is_kept()
    ensures new { (own : SystemId) (up : List Bool) → length up ≤ 64 → Kept own up true (new_flood own up) [] }
    ensures up { (own : SystemId) (up : List Bool) (spent : Bool) (f : Flood) (es : List Entry) (link : ℕ) → Kept own up spent f es → link < length up → Kept own (set up link true) spent (link_up f es link) es }
    ensures down { (own : SystemId) (up : List Bool) (spent : Bool) (f : Flood) (es : List Entry) (link : ℕ) → Kept own up spent f es → Kept own (set up link false) spent (link_down f link) es }
    ensures sent { (own : SystemId) (up : List Bool) (spent : Bool) (f : Flood) (es : List Entry) (link : ℕ) → Kept own up spent f es → Kept own up spent (sent_on f link) es }
    ensures issued { (own : SystemId) (up : List Bool) (spent now : Bool) (f : Flood) (es : List Entry) (e : Entry) → Kept own up spent f es → e.id ≡ fragment_0 own → IsShort e → (now ≡ false → 300 < e.life) → Kept own up now (mark_all f e.id) (put_entry e es) }
    ensures second { (own : SystemId) (up : List Bool) (spent : Bool) (f : Flood) (es : List Entry) → Kept own up spent f es → Kept own up true (fold flood_aged f es) (filter_map after_second es) }
{}

/// The LSDB invariant is preserved when a PDU is received on a link that is up (ISO/IEC 10589, 7.3.15).
pub fn a_database_keeps_what_it_takes()
    ensures lsp { (own : SystemId) (up : List Bool) (spent : Bool) (f : Flood) (es : List Entry) → Kept own up spent f es → (link : ℕ) → slice_index_or up link false ≡ true → (h : Head) (tlvs : List ℕ) → length tlvs ≤ MOST_CONTENT → Kept own up spent (on_lsp f es link h tlvs spent).flood (on_lsp f es link h tlvs spent).entries }
    ensures csnp { (own : SystemId) (up : List Bool) (spent : Bool) (link : ℕ) → slice_index_or up link false ≡ true → (f : Flood) (es : List Entry) (start last : LspId) (tlvs : List ℕ) → Kept own up spent f es → Kept own up spent (on_csnp f es link start last tlvs spent).flood (on_csnp f es link start last tlvs spent).entries }
    ensures psnp { (own : SystemId) (up : List Bool) (spent : Bool) (link : ℕ) → slice_index_or up link false ≡ true → (f : Flood) (es : List Entry) (tlvs : List ℕ) → Kept own up spent f es → Kept own up spent (on_psnp f es link tlvs spent).flood (on_psnp f es link tlvs spent).entries }
{}
