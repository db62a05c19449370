//! The packets of a file of either format; below them the records of a pcap file and the blocks of a pcapng file.

pub use cap_blocks::{Block, BlockReader, Options};
pub use cap_pcap::{PcapHeader, PcapReader, Record};
pub use cap_source::{
    Capture, Ending, Fed, FedCapture, FeedHeld, FileEnd, Format, Head, Meta, NO_KINDS, PacketFeed,
    SkippedKinds, next_packet,
};
