//! The blocks of a pcapng file and the options in them, read by the grammar alone, and written.
#![tactic(auto)]

mod blocks;
mod bodies;
mod buffers;
mod headers;
pub mod laws;
mod options;
mod readers;
mod writing;

pub use crate::blocks::{
    Block, ENHANCED_PACKET, INTERFACE, OBSOLETE_PACKET, SECTION, SIMPLE_PACKET, is_known,
};
pub use crate::bodies::body_rule;
pub use crate::headers::{find_block_header, is_section};
pub use crate::options::Options;
pub use crate::readers::BlockReader;
pub use crate::writing::{PacketFields, put_interface, put_packet, put_section};
