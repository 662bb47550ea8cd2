//! How many BFR-ids the frames in flight carry.
ghost use Rattle.std.specs.Prelude.{◌≡◌, ◌+◌, ◌≤◌, ℕ, length, Option, IfOk};
ghost use Rattle.std.specs.List.{AllByRecursion};
ghost use Rattle.wire_base.specs.model.Configuration.{IsSound};
ghost use Rattle.wire_base.specs.model.Item.{Outer};
ghost use Rattle.frames_in_flight.specs.Flights.{item_seen};
ghost use Rattle.frames_in_flight.specs.Read.{copy_read, packet_in};
ghost use Rattle.domain_model.specs.World.{carried};

use crate::flight::FlightSeen;
use crate::inside::packet_in;
use wire_base::limits::MOST_ROUTERS;
use wire_base::{M, Memory, RouterConf};

/// Returns the sum. An overflow is reported as out of memory.
pub(crate) fn sum(count: u64, more: u64) -> M<u64>
    ensures { IfOk result (λ sum. sum ≡ count + more) }
{
    match count.checked_add(more) {
        Some(sum) => Ok(sum),
        None => Err(Memory),
    }
}

/// Returns how many BFR-ids there are in the packet of a frame to the router at an index.
fn count_in(confs: &[RouterConf], to: u16, octets: &[u8]) -> u16
    requires few { length confs.now ≤ MOST_ROUTERS }
    requires sound { AllByRecursion IsSound confs.now }
    ensures { (number : ℕ) (outer : Option Outer) → result ≡ length (copy_read number outer (packet_in confs.now to octets.now)).ids }
{
    match packet_in(confs, to, octets) {
        Some(packet) => packet.bits().count(),
        None => 0,
    }
}

/// Returns how many BFR-ids a frame carries; a PDU carries none.
#[tactic(auto, unfolding(crate::specs::Read::item_in))]
pub(crate) fn count_of(confs: &[RouterConf], flight: &FlightSeen<'_>) -> u64
    requires few { length confs.now ≤ MOST_ROUTERS }
    requires sound { AllByRecursion IsSound confs.now }
    ensures { result ≡ carried (item_seen confs.now flight.now) }
{
    match flight.note {
        None => 0,
        Some(note) => u64::from(count_in(confs, note.to, flight.octets)),
    }
}
