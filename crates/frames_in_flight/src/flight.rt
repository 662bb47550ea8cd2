//! A frame in flight.
use std::marker::Model;
use wire_base::Octets;

/// What is noted of a frame that carries a packet, since its octets do not contain it: the injection that it belongs
/// to, and the router at the far end of the link, by its index.
#[derive(Clone, Copy, Drop)]
pub struct Note {
    pub number: u32,
    pub to: u16,
}

/// A frame in flight, as contracts see it. It carries a packet if it has a note, and otherwise an IS-IS PDU.
#[derive(Drop)]
pub struct Flight {
    pub octets: Octets,
    pub note: Option<Note>,
}

/// A frame in flight whose octets are stored among those of other frames.
#[derive(Drop)]
pub struct FlightSeen<'a> {
    pub octets: &'a [u8],
    pub note: Option<Note>,
}

impl<'a> Model for FlightSeen<'a> {
    ghost use Rattle.frames_in_flight.specs.declared.flight.Flight.{Flight};

    ghost Value = { Flight };

    ghost view = { λ f. record { octets = f.octets.now; note = f.note } };
}
