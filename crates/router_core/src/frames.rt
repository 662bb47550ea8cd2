//! Frames that are received, class by class (ISO/IEC 10589, 7.3.15; RFC 8279, 6; RFC 8296, 2 and 3; RFC 2784).
ghost use Rattle.std.specs.Prelude.{◌≡◌, ◌≤◌, true, false, length, IfOk, OnOk, OnErr};
ghost use Rattle.std.specs.Str.{bytes_eq};
ghost use Rattle.wire_base.specs.model.Ethernet.{IsFrame};
ghost use Rattle.wire_base.specs.model.OnFrame.{nothing, on_packet, tunnel_taken, on_tunnel, carried_taken, on_frame};
ghost use Rattle.wire_base.specs.model.View.{control_view};
ghost use Rattle.bier_forward.specs.Packets.{IsShort, hopped};
ghost use Rattle.bier_forward.specs.Tunnels.{carried_on};
ghost use Rattle.gre_ip.specs.Tunnels.{HasPlaces as HasTunnel, packet_of};
ghost use Rattle.link_frame.specs.Frames.{carried, HasPlaces};
ghost use Rattle.router_core.specs.Keeping.{MayKeep};
ghost use Rattle.laws_router.specs.State.{is_up};

use crate::control::Control;
use crate::kept::{Kept, keep_if};
use crate::pdus::{drop_frame, pass_over};
use bier_forward::{Effects, Incoming, forward_tunnel, hop_packet, read_packet};
use gre_ip::{Tunnel, read_tunnel};
use link_frame::{Class, classify};
use wire_base::limits::MOST_FRAME;
use wire_base::{Cause, Kind, M, Memory};

impl Control {
    /// Forwards a parsed packet by the router's current topology, which is cached for the packet that follows.
    fn hop(&self, kept: &mut Option<Kept>, packet: &Incoming<'_>, effects: &mut Effects) -> M<()>
        requires short { IsShort packet.now }
        requires kept { MayKeep self.now kept.old }
        requires empty { effects.old ≡ nothing }
        ensures effects { OnOk result (effects.new ≡ hopped self.now.conf (control_view self.now) packet.now packet.now.header.ttl) }
        ensures kept { OnOk result (MayKeep self.now kept.new) }
    {
        self.keep(kept)?;
        match kept {
            // The cache has just been filled.
            None => Err(Memory),
            Some(now) => hop_packet(
                &self.conf,
                now.view.view(),
                &mut now.routes,
                packet,
                u16::from(packet.header.ttl),
                effects,
            ),
        }
    }

    /// Handles the octets of a BIER packet whose BIFT-id is of that kind. A packet that does not parse needs no
    /// topology. What `effects` hold after an error is not specified.
    fn on_packet(
        &self,
        kept: &mut Option<Kept>,
        kind: Kind,
        octets: &[u8],
        effects: &mut Effects,
    ) -> M<()>
        requires short { length octets.now ≤ MOST_FRAME }
        requires kept { MayKeep self.now kept.old }
        requires empty { effects.old ≡ nothing }
        ensures effects { OnOk result (effects.new ≡ on_packet self.now kind octets.now) }
        ensures kept { MayKeep self.now kept.new }
    {
        let read = read_packet(&self.conf, kind, octets);
        match &read {
            Err(cause) => drop_frame(effects, *cause),
            Ok(packet) => {
                let done = self.hop(kept, packet, effects);
                keep_if(kept, done.is_ok());
                done
            }
        }
    }

    /// Forwards a tunnel packet for another router by the router's current topology.
    fn forward_tunnel(&self, kept: &mut Option<Kept>, octets: &[u8], tunnel: &Tunnel) -> M<Effects>
        requires places { HasTunnel octets.now tunnel.now }
        requires elsewhere { bytes_eq tunnel.now.dst.0 self.now.conf.prefix.0 ≡ false }
        requires kept { MayKeep self.now kept.old }
        ensures effects { IfOk result (λ e. e ≡ carried_on self.now.conf (control_view self.now) octets.now (packet_of octets.now tunnel.now)) }
        ensures kept { OnOk result (MayKeep self.now kept.new) }
    {
        self.keep(kept)?;
        match kept {
            // The cache has just been filled.
            None => Err(Memory),
            Some(now) => forward_tunnel(
                self.allocator(),
                &self.conf,
                now.view.view(),
                &mut now.routes,
                octets,
                tunnel,
            ),
        }
    }

    /// Handles a parsed tunnel packet. If the tunnel ends here, the inner packet is handled as one that arrived without
    /// a tunnel. Otherwise the tunnel packet is forwarded.
    fn take_tunnel(&self, kept: &mut Option<Kept>, octets: &[u8], tunnel: &Tunnel) -> M<Effects>
        requires short { length octets.now ≤ MOST_FRAME }
        requires places { HasTunnel octets.now tunnel.now }
        requires kept { MayKeep self.now kept.old }
        ensures effects { IfOk result (λ e. e ≡ tunnel_taken self.now octets.now (packet_of octets.now tunnel.now)) }
        ensures kept { MayKeep self.now kept.new }
    {
        if tunnel.dst == self.conf.prefix {
            let mut effects = Effects::nothing(self.allocator());
            self.on_packet(
                kept,
                tunnel.inner,
                &octets[tunnel.from..tunnel.to],
                &mut effects,
            )?;
            return Ok(effects);
        }
        let effects = self.forward_tunnel(kept, octets, tunnel);
        keep_if(kept, effects.is_ok());
        effects
    }

    /// Handles the octets of an IPv4 packet.
    #[tactic(auto, unfolding(wire_base::specs::model::OnFrame::on_tunnel))]
    fn on_tunnel(&self, kept: &mut Option<Kept>, octets: &[u8]) -> M<Effects>
        requires short { length octets.now ≤ MOST_FRAME }
        requires kept { MayKeep self.now kept.old }
        ensures effects { IfOk result (λ e. e ≡ on_tunnel self.now octets.now) }
        ensures kept { MayKeep self.now kept.new }
    {
        let read = read_tunnel(octets);
        match read {
            Err(fault) => Effects::dropped(self.allocator(), Cause::Ip(fault)),
            Ok(tunnel) => self.take_tunnel(kept, octets, &tunnel),
        }
    }

    /// Handles a BIER packet, whose effects replace the ones in `effects`. BIER and IPv4 packets have functions of
    /// their own, so that the path of an IS-IS PDU, which most frames carry, needs no stack space for them.
    fn take_packet(
        &self,
        kept: &mut Option<Kept>,
        kind: Kind,
        octets: &[u8],
        effects: &mut Effects,
    ) -> M<()>
        requires short { length octets.now ≤ MOST_FRAME }
        requires kept { MayKeep self.now kept.old }
        requires empty { effects.old ≡ nothing }
        ensures effects { OnOk result (effects.new ≡ on_packet self.now kind octets.now) }
        ensures err { OnErr result (effects.new ≡ nothing) }
        ensures kept { MayKeep self.now kept.new }
    {
        let done = self.on_packet(kept, kind, octets, effects);
        if done.is_err() {
            effects.clear();
        }
        done
    }

    /// Handles an IPv4 packet in the same way.
    fn take_ip(&self, kept: &mut Option<Kept>, octets: &[u8], effects: &mut Effects) -> M<()>
        requires short { length octets.now ≤ MOST_FRAME }
        requires kept { MayKeep self.now kept.old }
        ensures effects { OnOk result (effects.new ≡ on_tunnel self.now octets.now) }
        ensures err { OnErr result (effects.new ≡ effects.old) }
        ensures kept { MayKeep self.now kept.new }
    {
        *effects = self.on_tunnel(kept, octets)?;
        Ok(())
    }

    /// Handles what a frame carries, by its class. If an allocation fails, nothing has changed.
    fn take_class(
        &mut self,
        kept: &mut Option<Kept>,
        link: u16,
        class: Class,
        bytes: &[u8],
        effects: &mut Effects,
    ) -> M<()>
        requires up { is_up self.old link ≡ true }
        requires short { length bytes.now ≤ MOST_FRAME }
        requires places { HasPlaces (length bytes.now) class }
        requires found { IsFrame bytes.now (carried bytes.now class) }
        requires kept { MayKeep self.old kept.old }
        requires empty { effects.old ≡ nothing }
        ensures next { OnOk result (record { control = self.new; effects = effects.new } ≡ carried_taken self.old link (carried bytes.now class)) }
        ensures err { OnErr result (self.new ≡ self.old) }
        ensures none { OnErr result (effects.new ≡ nothing) }
        ensures kept { MayKeep self.new kept.new }
    {
        match class {
            Class::Isis { from, to } => self.on_pdu(kept, link, &bytes[from..to], effects),
            Class::Mpls { from } => self.take_packet(kept, Kind::Mpls, &bytes[from..], effects),
            Class::Bier { from } => {
                self.take_packet(kept, Kind::Configured, &bytes[from..], effects)
            }
            Class::Ip { from } => self.take_ip(kept, &bytes[from..], effects),
            Class::Other => {
                pass_over(effects);
                Ok(())
            }
        }
    }

    /// Handles a frame that arrived on a link. If an allocation fails, nothing has changed. The effects are written in
    /// place, since most frames have none.
    #[tactic(auto, unfolding(wire_base::specs::model::OnFrame::on_frame))]
    pub(crate) fn frame(
        &mut self,
        kept: &mut Option<Kept>,
        link: u16,
        bytes: &[u8],
        effects: &mut Effects,
    ) -> M<()>
        requires short { length bytes.now ≤ MOST_FRAME }
        requires kept { MayKeep self.old kept.old }
        requires empty { effects.old ≡ nothing }
        ensures next { OnOk result (record { control = self.new; effects = effects.new } ≡ on_frame self.old link bytes.now) }
        ensures err { OnErr result (self.new ≡ self.old) }
        ensures none { OnErr result (effects.new ≡ nothing) }
        ensures kept { MayKeep self.new kept.new }
    {
        if !self.is_up(link) {
            return drop_frame(effects, Cause::Link);
        }
        let read = classify(bytes);
        match read {
            Err(fault) => drop_frame(effects, Cause::Frame(fault)),
            Ok(class) => self.take_class(kept, link, class, bytes, effects),
        }
    }
}
