//! What a whole block says.
ghost use Rattle.std.specs.Prelude.{◌≡◌, ◌≤◌, length, drop, IfOk, IfErr};
ghost use Rattle.pcapng_frames.specs.Blocks.{number, least};
ghost use Rattle.pcapng_frames.specs.Packets.{content_at, section_of};
ghost use Rattle.pcapng_frames.specs.Seen.{IsLasting, IsInside};

use crate::block::{Block, ENHANCED_PACKET, INTERFACE, SECTION_HEADER, SIMPLE_PACKET};
use crate::faults::NgFault;
use crate::interface::{Interface, read_interface};
use crate::moment::Moment;
use crate::packet::{Packet, read_enhanced, read_simple};

/// What a block says: a new section begins, an interface of the section, a packet, or nothing that is read here.
#[derive(Clone, Copy)]
pub enum Content {
    Section,
    Interface(Interface),
    Packet(Packet),
    Other,
}

/// Returns what a whole block says, in a section with these interfaces and after a packet at that time.
#[tactic(auto, unfolding(crate::specs::Packets::content_at))]
pub fn read_content(
    block: Block,
    interfaces: &[Interface],
    before: Moment,
    octets: &[u8],
) -> Result<Content, NgFault>
    requires { least block.kind ≤ length octets.now }
    ensures exact { result ≡ content_at block interfaces.now before octets.now }
    ensures within { IfOk result (IsInside (length octets.now)) }
    ensures lasting { IfErr result IsLasting }
{
    match block.kind {
        SECTION_HEADER => read_version(block.order.two_at(octets, 12)),
        INTERFACE => Ok(Content::Interface(read_interface(block.order, octets)?)),
        ENHANCED_PACKET => Ok(Content::Packet(read_enhanced(block.order, interfaces, octets)?)),
        SIMPLE_PACKET => Ok(Content::Packet(read_simple(block.order, interfaces, before, octets)?)),
        _ => Ok(Content::Other),
    }
}

/// Returns what a section header of that major version says.
fn read_version(major: u16) -> Result<Content, NgFault>
    ensures exact { result ≡ section_of major }
    ensures within { IfOk result (IsInside 0) }
    ensures lasting { IfErr result IsLasting }
{
    if major != 1 {
        return Err(NgFault::NgVersion);
    }
    Ok(Content::Section)
}
