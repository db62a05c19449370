//! One packet list, which comes packet by packet: what such a feed is, and the one of a capture file of either format.
#![tactic(auto)]

mod captures;
mod comments;
mod contents;
mod fed;
mod fed_captures;
mod feeds;
mod interfaces;
pub mod laws;
mod listed;
mod opening;
mod packets;
mod pcap;
mod pcapng;
mod peek_slots;
mod readers;
mod section_states;
mod walks;

pub use crate::captures::Capture;
pub use crate::fed_captures::{Fed, FedCapture};
pub use crate::feeds::{Ending, FeedHeld, FileEnd, Head, NO_KINDS, PacketFeed, SkippedKinds};
pub use crate::listed::Listed;
pub use crate::packets::Meta;
pub use crate::walks::next_packet;
pub use cap_bytes::Format;
