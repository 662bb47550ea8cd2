//! The interfaces of a section.
ghost use Rattle.std.specs.Prelude.{◌≡◌, ◌≤◌, ◌-◌, length, take, drop, IfErr};
ghost use Rattle.pcapng_frames.specs.Times.{resolution_of};
ghost use Rattle.pcapng_frames.specs.Packets.{interface_at};
ghost use Rattle.pcapng_frames.specs.Seen.{IsLasting};

use crate::faults::NgFault;
use crate::moment::units_of;
use crate::order::Order;

/// The link type of Ethernet.
const ETHERNET: u16 = 1;

/// The code of the option that gives the resolution of times.
const RESOLUTION: u16 = 9;

/// The resolution of an interface without that option: microseconds.
const MICROSECONDS: u8 = 6;

/// What a packet needs of its interface: whether its link type is that of Ethernet, its snap length (0 for none), and the
/// resolution of its times.
#[derive(Clone, Copy)]
pub struct Interface {
    pub ethernet: bool,
    pub snap: u32,
    pub resolution: u8,
}

/// Returns the interface that a whole block describes.
pub fn read_interface(order: Order, octets: &[u8]) -> Result<Interface, NgFault>
    requires { 20 ≤ length octets.now }
    ensures exact { result ≡ interface_at order octets.now }
    ensures lasting { IfErr result IsLasting }
{
    let resolution = resolution_in(order, &octets[16..octets.len() - 4]);
    if units_of(resolution).is_none() {
        return Err(NgFault::NgTime);
    }
    Ok(Interface {
        ethernet: order.two_at(octets, 8) == ETHERNET,
        snap: order.four_at(octets, 12),
        resolution,
    })
}

/// Returns the resolution that these options give.
fn resolution_in(order: Order, options: &[u8]) -> u8
    ensures { result ≡ resolution_of order options.now }
{
    let mut rest = options;
    'options: while rest.len() >= 4 {
        let code = order.two_at(rest, 0);
        let len = order.two_at(rest, 2);
        let size = 4 + (usize::from(len) + 3) / 4 * 4;
        if code == 0 || rest.len() < size {
            return MICROSECONDS;
        }
        if code == RESOLUTION && len == 1 {
            return rest[4];
        }
        rest = rest.split_at(size).1;
    }
    MICROSECONDS
}
