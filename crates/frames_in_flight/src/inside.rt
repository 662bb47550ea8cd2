//! The packet in a frame in flight, and the router that it is for, by which it is parsed (RFC 8296, 2 and 3; RFC 2784, 2).
ghost use Rattle.std.specs.Prelude.{◌≡◌, ◌≤◌, Some, Ok, length};
ghost use Rattle.std.specs.List.{AllByRecursion};
ghost use Rattle.wire_base.specs.model.Configuration.{IsSound};
ghost use Rattle.wire_base.specs.model.Tunnel.{tunnel_at};
ghost use Rattle.bier_forward.specs.Packets.{packet_at};
ghost use Rattle.frames_in_flight.specs.Flights.{place_seen};
ghost use Rattle.frames_in_flight.specs.Read.{packet_or_none, tunnel_carried, packet_carried, packet_for, tunnel_end, place_carried, reader_place, packet_in};
ghost use Rattle.link_frame.specs.Frames.{carried, HasPlaces};

use crate::flight::FlightSeen;
use crate::places::{conf_at, router_with};
use bier_forward::{Incoming, read_packet};
use gre_ip::read_tunnel;
use link_frame::{Class, classify};
use wire_base::limits::MOST_ROUTERS;
use wire_base::{Kind, RouterConf};

/// Returns the index of the router that the packet in a frame in flight is for: in a tunnel the one whose prefix is the
/// tunnel's destination, otherwise the one at the far end of the link. None for a frame that carries no packet.
pub fn reader_of(confs: &[RouterConf], flight: &FlightSeen<'_>) -> Option<u16>
    requires { length confs.now ≤ MOST_ROUTERS }
    ensures { result ≡ place_seen confs.now flight.now }
{
    match flight.note {
        None => None,
        Some(note) => reader_place(confs, note.to, flight.octets),
    }
}

fn reader_place(confs: &[RouterConf], to: u16, octets: &[u8]) -> Option<u16>
    requires { length confs.now ≤ MOST_ROUTERS }
    ensures { result ≡ reader_place confs.now to octets.now }
{
    let class = classify(octets);
    match class {
        Ok(class) => place_carried(confs, to, class, octets),
        Err(_) => Some(to),
    }
}

fn place_carried(confs: &[RouterConf], to: u16, class: Class, octets: &[u8]) -> Option<u16>
    requires few { length confs.now ≤ MOST_ROUTERS }
    requires places { HasPlaces (length octets.now) class }
    ensures { result ≡ place_carried confs.now to (Ok (carried octets.now class)) }
{
    match class {
        Class::Ip { from } => tunnel_end(confs, &octets[from..]),
        Class::Mpls { .. } | Class::Bier { .. } | Class::Isis { .. } | Class::Other => Some(to),
    }
}

fn tunnel_end(confs: &[RouterConf], octets: &[u8]) -> Option<u16>
    requires { length confs.now ≤ MOST_ROUTERS }
    ensures { result ≡ tunnel_end confs.now (tunnel_at octets.now) }
{
    let Ok(tunnel) = read_tunnel(octets) else {
        return None;
    };
    router_with(confs, tunnel.dst)
}

/// Returns the packet in a frame in flight to the router at an index; none if the frame carries none.
pub(crate) fn packet_in<'a>(confs: &[RouterConf], to: u16, octets: &'a [u8]) -> Option<Incoming<'a>>
    requires few { length confs.now ≤ MOST_ROUTERS }
    requires sound { AllByRecursion IsSound confs.now }
    ensures { result ≡ packet_in confs.now to octets.now }
{
    let place = reader_place(confs, to, octets)?;
    let reader = conf_at(confs, place)?;
    packet_for(reader, octets)
}

/// Returns the packet in a frame, as a router parses it; none if the frame carries none.
pub(crate) fn packet_for<'a>(reader: &RouterConf, octets: &'a [u8]) -> Option<Incoming<'a>>
    requires { IsSound reader.now }
    ensures { result ≡ packet_for (Some reader.now) octets.now }
{
    let class = classify(octets);
    match class {
        Ok(class) => packet_carried(reader, class, octets),
        Err(_) => None,
    }
}

fn packet_carried<'a>(reader: &RouterConf, class: Class, octets: &'a [u8]) -> Option<Incoming<'a>>
    requires sound { IsSound reader.now }
    requires places { HasPlaces (length octets.now) class }
    ensures { result ≡ packet_carried reader.now (Ok (carried octets.now class)) }
{
    match class {
        Class::Mpls { from } => packet_or_none(reader, Kind::Mpls, &octets[from..]),
        Class::Bier { from } => packet_or_none(reader, Kind::Configured, &octets[from..]),
        Class::Ip { from } => packet_in_tunnel(reader, &octets[from..]),
        Class::Isis { .. } | Class::Other => None,
    }
}

fn packet_in_tunnel<'a>(reader: &RouterConf, octets: &'a [u8]) -> Option<Incoming<'a>>
    requires { IsSound reader.now }
    ensures { result ≡ tunnel_carried reader.now (tunnel_at octets.now) }
{
    let Ok(tunnel) = read_tunnel(octets) else {
        return None;
    };
    packet_or_none(reader, tunnel.inner, &octets[tunnel.from..tunnel.to])
}

fn packet_or_none<'a>(conf: &RouterConf, kind: Kind, octets: &'a [u8]) -> Option<Incoming<'a>>
    requires { IsSound conf.now }
    ensures { result ≡ packet_or_none (packet_at conf.now kind octets.now) }
{
    match read_packet(conf, kind, octets) {
        Ok(packet) => Some(packet),
        Err(_) => None,
    }
}
