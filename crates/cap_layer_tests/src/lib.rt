//! Tests of what reads captures, of links, IPv4 and IPv6, and of what joins fragments; and frames for the tests above.
#![tactic(auto)]

#[cfg(test)]
mod blocks;
#[cfg(test)]
mod bytes;
#[cfg(test)]
mod checks;
#[cfg(test)]
mod fed;
pub mod frames;
#[cfg(test)]
mod holding;
#[cfg(test)]
mod ip;
#[cfg(test)]
mod ipv6;
#[cfg(test)]
mod join;
#[cfg(test)]
mod link;
#[cfg(test)]
mod looks;
pub mod packets;
#[cfg(test)]
mod pcap;
#[cfg(test)]
mod print;
#[cfg(test)]
mod runs;
#[cfg(test)]
mod source;
#[cfg(test)]
mod time;
#[cfg(test)]
mod vectors;
