//! IPv6 packets: their headers and extension headers, read (RFC 8200).
#![tactic(auto)]

mod fields;
mod headers;
mod packets;

pub use crate::packets::{Ipv6Fragment, Ipv6Header, Ipv6Packet, chain_law, read};
