//! Written files: the packets of a feed in either format, one capture file, the packets of several in one order, or the
//! datagrams of these; exactly as they were read, or a refusal.
#![tactic(auto)]

mod datagrams;
mod files;
mod forms;
mod interfaces;
mod joined;
mod laws;
mod left_out;
mod merged;
mod packets;
mod pcap;
mod pcapng;

pub use crate::files::{to_pcap, to_pcapng};
pub use crate::forms::put_headed;
pub use crate::joined::{
    write_joined, write_joined_and_count, write_joined_pcap, write_joined_pcap_and_count,
};
pub use crate::laws::{asked_unit, left_out_law};
pub use crate::left_out::{LeftOut, NO_PACKETS_LEFT_OUT};
pub use crate::merged::{write_merged, write_merged_pcap, write_merged_sharing};
