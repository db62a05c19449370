//! The limits of what is read, which both formats share.

/// The place after the last byte that is read of a file.
pub const FILE_LIMIT: u64 = 0x100_0000_0000;

/// The most bytes that may be captured of a packet.
pub const PACKET_LIMIT: u32 = 262_144;
