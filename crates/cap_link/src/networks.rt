//! What a frame's link header leads to.

/// What a frame carries.
#[derive(Clone, Copy, Debug, PartialEq, Eq)]
pub enum Network<'a> {
    /// An IPv4 packet: all bytes after the link header and the tags, padding among them.
    Ipv4(&'a [u8]),
    /// The link type isn't one of the five that are known.
    OtherLink,
    /// The frame's type, or its version, is another network's.
    NotIpv4,
    /// The frame was captured whole, and ends inside its link header or a tag.
    Short,
    /// The frame wasn't captured whole, and ends inside its link header or a tag.
    Cut,
}

/// The network of a frame that `network` calls `NotIpv4`.
#[derive(Clone, Copy, Debug, PartialEq, Eq)]
pub enum OtherNetwork {
    /// IPv6: the type `86DD` (RFC 2464, 3), or the version 6 (RFC 8200, 3).
    Ipv6,
    /// The Address Resolution Protocol: the type `0806` (RFC 826).
    Arp,
    /// Any other type, length or version.
    Other,
}
