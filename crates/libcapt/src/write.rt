//! Packets written as pcap or pcapng.

pub use cap_blocks::{PacketFields, put_interface, put_packet, put_section};
pub use cap_pcap::{RecordTime, put_header, put_record};
pub use cap_write::{
    LeftOut, NO_PACKETS_LEFT_OUT, asked_unit, left_out_law, to_pcap, to_pcapng, write_joined,
    write_joined_and_count, write_joined_pcap, write_joined_pcap_and_count, write_merged,
    write_merged_pcap, write_merged_sharing,
};
