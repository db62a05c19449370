//! Each public name comes from libcapt.

pub use libcapt::bytes::{
    Broken, Device, Fault, Order, Pieces, Refusal, Room, Rule, Sink, Source, Tail, Window, put_all,
    put_u16, put_u32, put_u64, u16_at, u32_at, u64_at,
};
pub use libcapt::join::{
    Datagram, Fragment, Header, HeaderOr, JoinFault, Joiner, Key, Network, Put, Stamped, Transport,
    header_checksum, network, transport,
};
pub use libcapt::order::Merged;
pub use libcapt::read::{
    Block, BlockReader, Capture, Ending, FeedHeld, Format, Head, Meta, Options, PacketFeed,
    PcapHeader, PcapReader, Record,
};
pub use libcapt::report::{Form, Held, Step, Table, file_lines, file_lines_in, report, report_in};
pub use libcapt::time::{Interface, Resolution, Stamp, Unit};
pub use libcapt::tool::{
    Job, LineFault, blocks_json_to, blocks_to, convert_to, join_to, join_to_pcap, list_json_to,
    list_to, merge_to, merge_to_pcap, parse,
};
pub use libcapt::write::{
    put_header, put_interface, put_packet, put_record, put_section, to_pcap, to_pcapng,
    write_joined, write_joined_pcap, write_merged, write_merged_pcap, write_merged_sharing,
};
