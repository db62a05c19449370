//! Counted units: whole datagrams, with the ends between which they went.
ghost use Rattle.std.specs.Prelude.{◌≡◌};
ghost use Rattle.std.specs.Option.{option_cmp};
ghost use Rattle.std.specs.Ordering.{is_gt, nat_cmp};
ghost use Rattle.cap_talks.specs.inner.table.Ipv4Units.{ports_seen};
ghost use Rattle.cap_talks.specs.inner.table.Packed.{IsNarrowAddress};
ghost use Rattle.cap_talks.specs.table.CountedUnits.{timed_frame};
ghost use Rattle.cap_talks.specs.table.Units.{end_cmp, ends_of, number_of, version_of};

use cap_ip::Transport;
use cap_join::Stamped;
use cap_time::Stamp;

/// An address of IPv4 (RFC 791, 3.1) or of IPv6 (RFC 8200, 3), its first byte the highest. Those of IPv4 come before
/// those of IPv6, and those of one network compare as numbers.
#[derive(Clone, Copy, Debug, PartialEq, Eq)]
pub enum Address {
    /// An IPv4 address.
    Ipv4(u32),
    /// An IPv6 address.
    Ipv6(u128),
}

impl Address {
    // The version of the network that it is of: 4 or 6.
    #[inline(always)]
    pub(crate) fn version(self) -> u8
        ensures { result ≡ version_of self }
    {
        match self {
            Address::Ipv4(_) => 4,
            Address::Ipv6(_) => 6,
        }
    }

    // It as a number.
    #[inline(always)]
    pub(crate) fn number(self) -> u128
        ensures value { result ≡ number_of self }
        ensures narrow { IsNarrowAddress self }
    {
        match self {
            Address::Ipv4(address) => u128::from(address),
            Address::Ipv6(address) => address,
        }
    }
}

/// An end of a conversation: an address, and a port if the protocol has ports (RFC 768; RFC 9293, 3.1). Ends compare by
/// address and then by port.
#[derive(Clone, Copy, PartialEq, Eq)]
pub struct Endpoint {
    /// The address.
    pub address: Address,
    /// The port; `None` if the protocol has none.
    pub port: Option<u16>,
}

// Whether a port is above another, or is one where the other is none.
#[inline(always)]
fn is_above(a: Option<u16>, b: Option<u16>) -> bool
    ensures { result ≡ is_gt (option_cmp nat_cmp a b) }
{
    match (a, b) {
        (Some(a), Some(b)) => a > b,
        (Some(_), None) => true,
        (None, _) => false,
    }
}

/// Whether an end is greater than another.
#[inline(always)]
pub(crate) fn is_greater(a: &Endpoint, b: &Endpoint) -> bool
    ensures { result ≡ is_gt (end_cmp a.now b.now) }
{
    let (version, other) = (a.address.version(), b.address.version());
    if version != other {
        return version > other;
    }
    let (number, other) = (a.address.number(), b.address.number());
    if number != other {
        return number > other;
    }
    is_above(a.port, b.port)
}

/// The ports of a datagram whose transport was read, that of its source first; `None` if that is bad or cut.
#[inline(always)]
pub(crate) fn ports_seen(transport: Transport) -> Option<(Option<u16>, Option<u16>)>
    ensures { result ≡ ports_seen transport }
{
    match transport {
        Transport::Ports(source, destination) => Some((Some(source), Some(destination))),
        Transport::NoPorts => Some((None, None)),
        Transport::Bad | Transport::Cut => None,
    }
}

/// The source and the destination of a datagram between two addresses, whose transport was read; `None`
/// if that is bad or cut.
#[inline(always)]
pub fn ends_of(
    source: Address,
    destination: Address,
    transport: Transport,
) -> Option<(Endpoint, Endpoint)>
    ensures { result ≡ ends_of source destination transport }
{
    let (source_port, destination_port) = ports_seen(transport)?;
    Some((
        Endpoint {
            address: source,
            port: source_port,
        },
        Endpoint {
            address: destination,
            port: destination_port,
        },
    ))
}

/// A frame that has a time.
#[derive(Clone, Copy)]
pub struct TimedFrame {
    /// Its own time.
    pub time: Stamp,
    /// Its place in the list of packets, counted from 0.
    pub place: u64,
}

/// A datagram of IPv4 or IPv6 that counts in a conversation: one that came whole, or one that was joined.
#[derive(Clone, Copy)]
pub struct CountedUnit {
    /// The number of the protocol that its data is of: 6 TCP, 17 UDP.
    pub protocol: u8,
    /// Where it comes from.
    pub source: Endpoint,
    /// Where it goes to.
    pub destination: Endpoint,
    /// How many frames it came in: 1 if it came whole.
    pub frames: u64,
    /// The sum of their original lengths, in bytes.
    pub bytes: u128,
    /// Its frame of the least time, of equal times that of the lowest place; `None` if no frame has a
    /// time.
    pub first: Option<TimedFrame>,
    /// Its frame of the greatest time, of equal times that of the lowest place; `None` if no frame has
    /// a time.
    pub last: Option<TimedFrame>,
}

/// A frame, if it has a time.
#[inline(always)]
pub(crate) fn timed_frame(frame: Option<Stamped>) -> Option<TimedFrame>
    ensures { result ≡ timed_frame frame }
{
    let frame = frame?;
    Some(TimedFrame {
        time: frame.time?,
        place: frame.place,
    })
}
