//! Blocks, and what ends them (draft-ietf-opsawg-pcapng, 3.1).
ghost use Rattle.std.specs.Prelude.{◌≡◌};
ghost use Rattle.cap_blocks.specs.Grammar.{is_known_kind, least_total, is_total, is_section_version};

use cap_bytes::Order;

/// The kind of a section header, which reads the same in both orders.
pub const SECTION: u32 = 0x0A0D_0D0A;
/// The kind of an interface block.
pub const INTERFACE: u32 = 1;
/// The kind of an obsolete packet block.
pub const OBSOLETE_PACKET: u32 = 2;
/// The kind of a simple packet block.
pub const SIMPLE_PACKET: u32 = 3;
/// The kind of an enhanced packet block.
pub const ENHANCED_PACKET: u32 = 6;

/// What a section header's order magic reads as in the section's order.
pub const ORDER_MAGIC: u32 = 0x1A2B_3C4D;

/// The most bytes that a block of a known kind may take.
pub const BLOCK_LIMIT: u32 = 524_288;

/// A block of a file (draft-ietf-opsawg-pcapng, 3.1).
#[derive(Clone, Copy, Debug, PartialEq, Eq)]
pub struct Block {
    /// The block's type.
    pub kind: u32,
    /// Where the block begins, in bytes.
    pub offset: u64,
    /// How many bytes it takes, of which 12 stand round its body.
    pub total: u32,
    /// The order of the numbers in it, which is that of its section.
    pub order: Order,
}

/// Whether blocks of a kind are known: section headers, interfaces and the three kinds of packets.
pub fn is_known(kind: u32) -> bool
    ensures { result ≡ is_known_kind kind }
{
    matches!(
        kind,
        SECTION | INTERFACE | OBSOLETE_PACKET | SIMPLE_PACKET | ENHANCED_PACKET
    )
}

// The least total length of a block of a kind.
fn least_total(kind: u32) -> u32
    ensures { result ≡ least_total kind }
{
    match kind {
        SECTION => 28,
        INTERFACE => 20,
        OBSOLETE_PACKET | ENHANCED_PACKET => 32,
        SIMPLE_PACKET => 16,
        _ => 12,
    }
}

/// Whether a block of a kind may have a total length.
#[tactic(auto, unfolding(crate::specs::Grammar::is_total))]
pub fn is_total(kind: u32, total: u32) -> bool
    ensures { result ≡ is_total kind total }
{
    total % 4 == 0 && least_total(kind) <= total && (!is_known(kind) || total <= BLOCK_LIMIT)
}

/// Whether a section's version is one that is read: 1.0 or 1.2.
pub fn is_version(major: u16, minor: u16) -> bool
    ensures { result ≡ is_section_version major minor }
{
    major == 1 && (minor == 0 || minor == 2)
}
