//! IPv6 packets (RFC 8200, 3).
ghost use Rattle.std.specs.Prelude.{◌≡◌, ◌≤◌, length};
ghost use Rattle.cap_ipv6.specs.Read.{IsShort, ended_in_header, is_overstated, packet_of, payload_of, read_of};
ghost use Rattle.cap_ipv6.specs.Seen.{led_seen, packet_seen};
ghost use Rattle.cap_ipv6.specs.inner.Chained.{ChainLaw};

use crate::fields::{destination, next_header, payload_length, source, version};
use crate::headers::{Led, follow};
use cap_ip::Reason;

// The length of an IPv6 header, in bytes.
const HEADER: usize = 40;
// The version of an IPv6 packet.
const VERSION: u8 = 6;

/// What an IPv6 header says, and the extension headers after it.
#[derive(Clone, Copy, Debug, PartialEq, Eq)]
pub struct Ipv6Header {
    /// The source address, its first byte the highest.
    pub source: u128,
    /// The destination address, its first byte the highest.
    pub destination: u128,
    /// The number of the protocol that the data is of: 6 TCP, 17 UDP, 58 ICMPv6.
    pub protocol: u8,
    /// The length of the data behind the extension headers in bytes, captured or not: at most 65,535.
    pub data_length: u32,
}

/// What the header of a fragment says (RFC 8200, 4.5).
#[derive(Clone, Copy, Debug, PartialEq, Eq)]
pub struct Ipv6Fragment {
    /// What the sender gave all fragments of one datagram.
    pub identification: u32,
    /// The place of the data's first byte in its datagram's, a multiple of 8.
    pub start: u32,
    /// The number of bytes of the data, at least 1; a multiple of 8 if more follow.
    pub length: u32,
    /// Whether more fragments follow: the flag M.
    pub more: bool,
}

/// What an IPv6 packet is by itself.
#[derive(Clone, Copy, Debug, PartialEq, Eq)]
pub enum Ipv6Packet<'a> {
    /// A whole datagram, with the captured part of its data, without padding.
    Datagram(Ipv6Header, &'a [u8]),
    /// A fragment of one.
    Fragment(Ipv6Fragment),
    /// The packet breaks RFC 8200's form, for this reason.
    Bad(Reason),
    /// Too little of the packet was captured, for this reason.
    Cut(Reason),
}

// What a packet is that ends inside its header.
#[tactic(auto, unfolding(crate::specs::Read::ended_in_header))]
fn ended<'a>(whole: bool) -> Ipv6Packet<'a>
    ensures { packet_seen result ≡ ended_in_header whole }
{
    if whole {
        Ipv6Packet::Bad(Reason::HeaderShort)
    } else {
        Ipv6Packet::Cut(Reason::HeaderShort)
    }
}

// A packet that was captured whole is shorter than it says.
#[tactic(auto, unfolding(crate::specs::Read::is_overstated))]
fn is_overstated(bytes: &[u8], captured_whole: bool) -> bool
    requires { 40 ≤ length bytes.now }
    ensures { result ≡ is_overstated bytes.now captured_whole }
{
    captured_whole && bytes.len() < HEADER + usize::from(payload_length(bytes))
}

// The captured part of the payload.
#[tactic(auto, unfolding(crate::specs::Read::payload_of))]
fn payload_of(bytes: &[u8]) -> &[u8]
    requires { 40 ≤ length bytes.now }
    ensures { result.now ≡ payload_of bytes.now }
{
    let (_, rest) = bytes.split_at(HEADER);
    let (captured, _) = rest.split_at(rest.len().min(usize::from(payload_length(bytes))));
    captured
}

// What a packet is whose extension headers lead there.
#[tactic(auto, unfolding(crate::specs::Read::packet_of))]
fn packet_of<'a>(bytes: &[u8], led: Led<'a>) -> Ipv6Packet<'a>
    requires least { 40 ≤ length bytes.now }
    requires most { IsShort (led_seen led) }
    ensures { packet_seen result ≡ packet_of bytes.now (led_seen led.entry) }
{
    match led {
        Led::Data(protocol, length, captured) => Ipv6Packet::Datagram(
            Ipv6Header {
                source: source(bytes),
                destination: destination(bytes),
                protocol,
                data_length: length as u32,
            },
            captured,
        ),
        Led::Fragment(fragment) => Ipv6Packet::Fragment(fragment),
        Led::Bad(why) => Ipv6Packet::Bad(why),
        Led::Cut(why) => Ipv6Packet::Cut(why),
    }
}

/// What the bytes of a packet are. `captured_whole` says that no byte of the packet is missing after them.
///
/// The first of these that holds (RFC 8200, 3 and 4):
///
/// 1. fewer than 40 bytes: `Bad` if captured whole, else `Cut`;
/// 2. the version isn't 6: `Bad`;
/// 3. captured whole, and fewer bytes than 40 and the payload's length: `Bad`;
/// 4. else what the extension headers lead to, from the first byte of the payload on. Each of the numbers 0, 43, 44,
///    51, 60, 135, 139 and 140 announces one: one that reaches past the payload is `Bad`, one that wasn't captured
///    whole `Cut`. A fragment header with offset 0 and the flag M clear is of a whole datagram (RFC 6946, 4), and any
///    other ends them: `Bad` if the fragment has no data, or its length isn't a multiple of 8 if more follow, or it
///    ends past 65,535; else a `Fragment`. Any other number is the protocol of the data that follows.
///
/// It takes time in proportion to the bytes, however many extension headers there are.
#[inline(always)]
#[tactic(auto, unfolding(crate::specs::Read::read_of))]
pub fn read(bytes: &[u8], captured_whole: bool) -> Ipv6Packet<'_>
    ensures { packet_seen result ≡ read_of bytes.now captured_whole }
{
    if bytes.len() < HEADER {
        return ended(captured_whole);
    }
    if version(bytes) != VERSION {
        return Ipv6Packet::Bad(Reason::Version);
    }
    if is_overstated(bytes, captured_whole) {
        return Ipv6Packet::Bad(Reason::BeyondFrame);
    }
    let led = follow(
        next_header(bytes),
        usize::from(payload_length(bytes)),
        payload_of(bytes),
    );
    packet_of(bytes, led)
}

/// A law: extension headers of options, of any number and length, lead to what follows them. It does nothing when it
/// runs.
pub fn chain_law()
    ensures { ChainLaw }
{}
