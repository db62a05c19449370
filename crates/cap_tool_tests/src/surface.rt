//! Each public name comes from its crate.

pub use cap_blocks::{Block, BlockReader, Options, put_interface, put_packet, put_section};
pub use cap_bytes::{
    Broken, Device, Fault, Order, Pieces, Refusal, Room, Rule, Sink, Source, Tail, Window, put_all,
    put_u16, put_u32, put_u64, u16_at, u32_at, u64_at,
};
pub use cap_ip::{Fragment, Header, HeaderOr, Key, Transport, header_checksum, transport};
pub use cap_join::{Datagram, JoinFault, Joiner, Put, Stamped};
pub use cap_link::{Network, network};
pub use cap_merge::Merged;
pub use cap_pcap::{PcapHeader, PcapReader, Record, put_header, put_record};
pub use cap_print::Form;
pub use cap_source::{Capture, Ending, FeedHeld, Format, Head, Meta, PacketFeed};
pub use cap_talks::{Held, Step, Table, file_lines, file_lines_in, report, report_in};
pub use cap_time::{Interface, Resolution, Stamp, Unit};
pub use cap_tool::{
    Job, LineFault, blocks_json_to, blocks_to, convert_to, join_to, join_to_pcap, list_json_to,
    list_to, merge_to, merge_to_pcap, parse,
};
pub use cap_write::{
    to_pcap, to_pcapng, write_joined, write_joined_pcap, write_merged, write_merged_pcap,
    write_merged_sharing,
};
