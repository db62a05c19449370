//! What the blocks of a pcapng file say. draft-ietf-opsawg-pcapng, 4.
ghost use Rattle.std.specs.Prelude.{◌≡◌, ◌≤◌, ◌+◌, ◌%◌, length};
ghost use Rattle.cap_blocks.specs.Grammar.{enhanced_kind, least_total};
ghost use Rattle.cap_source.specs.Contents.{fitting, timed_in, simple_captured, simple_in, of_body, described};
ghost use Rattle.cap_source.specs.Contents.{content_in};
ghost use Rattle.cap_source.specs.TimeBases.{interface_in};

use crate::interfaces::{interface_of, is_named};
use cap_blocks::{ENHANCED_PACKET, INTERFACE, OBSOLETE_PACKET, SECTION, SIMPLE_PACKET};
use cap_bytes::{Order, PACKET_LIMIT, Rule, u16_at, u32_at};
use cap_time::Interface;

// Where the captured bytes begin in the body of a packet with a time, and of a simple one.
const TIMED_HEAD: u32 = 20;

const SIMPLE_HEAD: u32 = 4;

/// What a block says of a packet.
#[derive(Clone, Copy)]
pub struct BlockPacket {
    /// Its interface.
    pub interface: Interface,
    /// Its time in units of the interface's resolution; `None` if it has none.
    pub units: Option<u64>,
    /// The number of its interface in the section.
    pub number: u32,
    /// How many bytes of it were captured.
    pub captured: u32,
    /// How many bytes it had.
    pub original: u32,
    /// Where the captured bytes begin in the block's body.
    pub place: u32,
}

/// What an interface block says.
#[derive(Clone, Copy)]
pub struct InterfaceDescription {
    /// The interface.
    pub interface: Interface,
    /// Whether it has a name.
    pub is_named: bool,
}

/// What a block says.
#[derive(Clone, Copy)]
pub enum BlockContent {
    /// A section begins.
    Section,
    /// An interface of the section.
    Interface(InterfaceDescription),
    /// A packet.
    Packet(BlockPacket),
    /// Nothing that is read: the block is skipped, which is of that type.
    Other(u32),
}

// A packet whose captured bytes are within the limit and within the body.
#[tactic(auto, unfolding(crate::specs::Contents::fitting))]
#[inline(always)]
fn fit(packet: BlockPacket, size: usize) -> Result<BlockPacket, Rule>
    ensures { result ≡ fitting packet size }
{
    if packet.captured > PACKET_LIMIT {
        return Err(Rule::PacketLong);
    }
    if size < packet.place as usize + packet.captured as usize {
        return Err(Rule::Captured);
    }
    Ok(packet)
}

// The packet of an enhanced or an obsolete packet block, which names the interface of that number.
// draft-ietf-opsawg-pcapng, 4.3 and Appendix A.
#[tactic(auto, unfolding(crate::specs::Contents::timed_in))]
#[inline(always)]
fn timed_packet(
    interfaces: &[Interface],
    number: u32,
    order: Order,
    body: &[u8],
) -> Result<BlockPacket, Rule>
    requires { 20 ≤ length body.now }
    ensures { result ≡ timed_in interfaces.now number order body.now }
{
    match interfaces.get(number as usize) {
        Some(interface) => {
            let high = u64::from(u32_at(order, body, 4));
            let low = u64::from(u32_at(order, body, 8));
            let packet = BlockPacket {
                number,
                interface: *interface,
                units: Some(high * 0x1_0000_0000 + low),
                captured: u32_at(order, body, 12),
                original: u32_at(order, body, 16),
                place: TIMED_HEAD,
            };
            fit(packet, body.len())
        }
        None => Err(Rule::InterfaceUnknown),
    }
}

/// What an enhanced packet block says, or the first rule that its body breaks. Each order has a way of its own: on one
/// for both, each number is read in both. draft-ietf-opsawg-pcapng, 4.3.
#[tactic(auto, unfolding(crate::specs::Contents::content_in))]
#[inline(always)]
pub fn enhanced_packet(
    interfaces: &[Interface],
    order: Order,
    body: &[u8],
) -> Result<BlockPacket, Rule>
    requires { 20 ≤ length body.now }
    ensures { of_body BlockContent.Packet result ≡ content_in interfaces.now enhanced_kind order body.now }
{
    match order {
        Order::Little => {
            let number = u32_at(Order::Little, body, 0);
            timed_packet(interfaces, number, Order::Little, body)
        }
        Order::Big => {
            let number = u32_at(Order::Big, body, 0);
            timed_packet(interfaces, number, Order::Big, body)
        }
    }
}

// How many bytes are captured of a simple packet.
fn simple_captured(snaplen: u32, original: u32) -> u32
    ensures { result ≡ simple_captured snaplen original }
{
    if snaplen == 0 || original < snaplen {
        original
    } else {
        snaplen
    }
}

// The packet of a simple packet block, which is of the section's first interface and has no time.
// draft-ietf-opsawg-pcapng, 4.4.
#[tactic(auto, unfolding(crate::specs::Contents::simple_in))]
fn simple_packet(interfaces: &[Interface], order: Order, body: &[u8]) -> Result<BlockPacket, Rule>
    requires { 4 ≤ length body.now }
    ensures { result ≡ simple_in interfaces.now order body.now }
{
    match interfaces.get(0) {
        Some(interface) => {
            let original = u32_at(order, body, 0);
            let packet = BlockPacket {
                number: 0,
                interface: *interface,
                units: None,
                captured: simple_captured(interface.snaplen, original),
                original,
                place: SIMPLE_HEAD,
            };
            fit(packet, body.len())
        }
        None => Err(Rule::InterfaceUnknown),
    }
}

// What an interface block says, before which that many stand in its section, or the first rule that it breaks.
fn read_interface(before: usize, order: Order, body: &[u8]) -> Result<InterfaceDescription, Rule>
    requires least { 8 ≤ length body.now }
    requires padded { length body.now % 4 ≡ 0 }
    ensures { of_body BlockContent.Interface result ≡ of_body (described order body.now)
        (interface_in before order body.now) }
{
    match interface_of(before, order, body) {
        Ok(interface) => Ok(InterfaceDescription {
            interface,
            is_named: is_named(order, body),
        }),
        Err(rule) => Err(rule),
    }
}

/// What a block of a known kind says in a section with these interfaces, or the first rule that its
/// body breaks: of an interface block 13, and then for each option 10, 11 and 12; of a packet 9, 4
/// and 8.
#[tactic(auto, using(crate::proofs::Bodies::room_of_body), unfolding(crate::specs::Contents::content_in))]
pub fn content_of(
    interfaces: &[Interface],
    kind: u32,
    order: Order,
    body: &[u8],
) -> Result<BlockContent, Rule>
    requires least { least_total kind ≤ 12 + length body.now }
    requires padded { length body.now % 4 ≡ 0 }
    ensures { result ≡ content_in interfaces.now kind order body.now }
{
    match kind {
        SECTION => Ok(BlockContent::Section),
        INTERFACE => Ok(BlockContent::Interface(read_interface(interfaces.len(), order, body)?)),
        ENHANCED_PACKET => {
            let number = u32_at(order, body, 0);
            Ok(BlockContent::Packet(timed_packet(interfaces, number, order, body)?))
        }
        OBSOLETE_PACKET => {
            let number = u32::from(u16_at(order, body, 0));
            Ok(BlockContent::Packet(timed_packet(interfaces, number, order, body)?))
        }
        SIMPLE_PACKET => Ok(BlockContent::Packet(simple_packet(interfaces, order, body)?)),
        _ => Ok(BlockContent::Other(kind)),
    }
}
