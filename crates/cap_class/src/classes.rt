//! The class of a packet.

/// What a packet is to the report. Each packet has one class.
#[derive(Clone, Copy, Debug, PartialEq, Eq)]
pub enum Class {
    /// Its link type isn't looked into.
    OtherLink,
    /// It isn't an IPv4 packet.
    NotIpv4,
    /// It ends inside its link header or a tag, and was captured whole.
    Short,
    /// Not enough of it was captured.
    Cut,
    /// It isn't well-formed.
    Bad,
    /// A fragment whose datagram isn't complete.
    Unjoined,
    /// It is a datagram that counts in a conversation, or a fragment of one.
    Counted,
}
