//! What stands at the front of a datagram's data.

/// What the data of a datagram says of its ports.
#[derive(Clone, Copy, Debug, PartialEq, Eq)]
pub enum Transport {
    /// The source port and the destination port, of UDP or TCP.
    Ports(u16, u16),
    /// Another protocol.
    NoPorts,
    /// The header breaks the protocol's form, or doesn't fit in the data.
    Bad,
    /// Too little of the header was captured.
    Cut,
}
