//! What a captured frame carries, by its link header and its tags: an IPv4 packet's bytes, or why there are none;
//! or an IPv6 packet's.
#![tactic(auto)]

mod links;
mod networks;
mod tags;

pub use crate::links::{ipv6_packet, network, other_network, tags_law};
pub use crate::networks::{Network, OtherNetwork};
