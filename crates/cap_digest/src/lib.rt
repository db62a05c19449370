//! The digest of packets: the SHA-256 of what they are in whatever format, byte order and units a file has them.
#![tactic(auto)]

mod canonical;
mod digests;
mod laws;

pub use crate::digests::PacketDigest;
pub use crate::laws::lowest_terms;
