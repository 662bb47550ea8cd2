//! Payloads that are injected into the domain (RFC 8279, 3; RFC 8296, 3).
ghost use Rattle.std.specs.Prelude.{◌≡◌, ◌<◌, ◌≤◌, ◌^◌, ℕ, List, None, IfOk, OnOk, MatchResult, length, map};
ghost use Rattle.std.specs.List.{AllByRecursion};
ghost use Rattle.wire_base.specs.declared.bsl.Bsl.{Bsl as Length};
ghost use Rattle.wire_base.specs.model.Ingress.{edge_fault, inject, packets_for};
ghost use Rattle.bfr_edge.specs.Entry.{Refuses, placed, positions_in};
ghost use Rattle.bier_forward.specs.Sets.{HasLength};
ghost use Rattle.router_core.specs.Keeping.{MayKeep};

use crate::control::Control;
use crate::kept::{Kept, keep_if};
use bfr_edge::{Packet, ingress};
use bier_forward::{Effects, enter_packets};
use wire_base::limits::MOST_PAYLOAD;
use wire_base::{Bsl, EdgeFault, M, Memory};

impl Control {
    /// Forwards injected packets by the router's current topology, which is cached for the packets that follow.
    fn enter(
        &self,
        kept: &mut Option<Kept>,
        packets: &[Packet],
        ttl: u8,
        entropy: u32,
        payload: &[u8],
    ) -> M<Effects>
        requires lengths { AllByRecursion HasLength packets.now }
        requires entropy { entropy < 2 ^ 20 }
        requires payload { length payload.now ≤ MOST_PAYLOAD }
        requires kept { MayKeep self.now kept.old }
        ensures injected { IfOk result (λ e. (sd : ℕ) (bsl : Length) (ids : List ℕ) → map positions_in packets.now ≡ map placed (packets_for sd bsl ids) → e ≡ inject self.now sd bsl ids ttl entropy payload.now) }
        ensures kept { OnOk result (MayKeep self.now kept.new) }
    {
        self.keep(kept)?;
        match kept {
            // The cache has just been filled.
            None => Err(Memory),
            Some(now) => enter_packets(
                self.allocator(),
                &self.conf,
                now.view.view(),
                &mut now.routes,
                packets,
                ttl,
                entropy,
                payload,
            ),
        }
    }

    /// Injects a payload for a list of BFR-ids.
    pub(crate) fn inject(
        &self,
        kept: &mut Option<Kept>,
        sd: u8,
        bsl: Bsl,
        ids: &[u16],
        ttl: u8,
        entropy: u32,
        payload: &[u8],
    ) -> Result<Effects, EdgeFault>
        requires entropy { entropy < 2 ^ 20 }
        requires payload { length payload.now ≤ MOST_PAYLOAD }
        requires kept { MayKeep self.now kept.old }
        ensures refused { MatchResult result (λ _. edge_fault self.now.conf sd bsl ids.now ≡ None) (λ e. Refuses (edge_fault self.now.conf sd bsl ids.now) e) }
        ensures effects { IfOk result (λ e. e ≡ inject self.now sd bsl ids.now ttl entropy payload.now) }
        ensures kept { MayKeep self.now kept.new }
    {
        let packets = ingress(self.allocator(), &self.conf, sd, bsl, ids)?;
        let effects = self.enter(kept, packets.as_slice(), ttl, entropy, payload);
        keep_if(kept, effects.is_ok());
        Ok(effects?)
    }
}
