//! The link headers of the five link types (LINKTYPE registry).
ghost use Rattle.std.specs.Prelude.{◌≡◌, ◌+◌, ◌≤◌, ℕ, is_some, option_map};
ghost use Rattle.std.specs.Bool.{OnTrue};
ghost use Rattle.cap_link.specs.Seen.{announced_of, announced_seen, carried_seen};
ghost use Rattle.cap_link.specs.Links.{announced_in, is_not_ipv4, network_of, other_network_of, other_raw};
ghost use Rattle.cap_link.specs.Links.{other_typed, raw, typed};
ghost use Rattle.cap_link.specs.Ipv6.{IsUnread, ipv6_behind, ipv6_of, ipv6_raw, ipv6_typed};
ghost use Rattle.cap_link.specs.inner.Tagged.{TagsLaw};

use crate::networks::{Network, OtherNetwork};
use crate::tags::{AnnouncedBytes, IPV6, announced, carried, ended, other_of_kind};
use cap_bytes::{Order, u16_at};

// LINKTYPE_ETHERNET: destination 6, source 6, type 2.
const ETHERNET: u16 = 1;
// LINKTYPE_RAW: no header, an IPv4 or an IPv6 packet.
const RAW: u16 = 101;
// LINKTYPE_LINUX_SLL: packet type 2, ARPHRD type 2, address length 2, address 8, protocol 2.
const LINUX_SLL: u16 = 113;
// LINKTYPE_IPV4: no header, an IPv4 packet.
const IPV4: u16 = 228;
// LINKTYPE_IPV6: no header, an IPv6 packet.
const LINK_IPV6: u16 = 229;
// LINKTYPE_LINUX_SLL2: protocol 2, reserved 2, interface 4, ARPHRD type 2, packet type 1, address
// length 1, address 8.
const LINUX_SLL2: u16 = 276;

/// A link header that has a type field.
#[derive(Clone, Copy)]
pub(crate) struct LinkHeader {
    /// How many bytes it has.
    pub(crate) size: usize,
    /// The place of the type field in it.
    pub(crate) place: usize,
}

const ETHERNET_HEADER: LinkHeader = LinkHeader {
    size: 14,
    place: 12,
};

const LINUX_SLL_HEADER: LinkHeader = LinkHeader {
    size: 16,
    place: 14,
};

const LINUX_SLL2_HEADER: LinkHeader = LinkHeader { size: 20, place: 0 };

// The version of an IPv4 packet, in the high four bits of its first byte (RFC 791, 3.1).
const VERSION_4: u8 = 4;
// The version of an IPv6 packet, at the same place (RFC 8200, 3).
const VERSION_6: u8 = 6;

// What a frame's link header and the tags behind it announce; `None` if the frame ends inside them.
#[tactic(auto, unfolding(crate::specs::Links::announced_in))]
#[inline(always)]
fn announced_in(header: LinkHeader, frame: &[u8]) -> Option<AnnouncedBytes<'_>>
    requires { header.place + 2 ≤ header.size }
    ensures { announced_seen result ≡ announced_in header frame.now }
{
    if frame.len() < header.size {
        return None;
    }
    let kind = u16_at(Order::Big, frame, header.place);
    let (_, rest) = frame.split_at(header.size);
    announced(kind, rest)
}

// What a frame carries that begins with such a link header.
#[tactic(auto, unfolding(crate::specs::Links::typed))]
#[inline(always)]
fn typed(whole: bool, header: LinkHeader, frame: &[u8]) -> Network<'_>
    requires { header.place + 2 ≤ header.size }
    ensures { carried_seen result ≡ typed whole header frame.now }
{
    carried(whole, announced_in(header, frame))
}

// A packet without a link header.
#[tactic(auto, unfolding(crate::specs::Links::raw))]
fn raw(whole: bool, frame: &[u8]) -> Network<'_>
    ensures { carried_seen result ≡ raw whole frame.now }
{
    if frame.is_empty() {
        return ended(whole);
    }
    if frame[0] / 16 == VERSION_4 {
        Network::Ipv4(frame)
    } else {
        Network::NotIpv4
    }
}

/// What a captured frame carries, by its link type (LINKTYPE registry): 1 ETHERNET, 101 RAW,
/// 113 LINUX_SLL, 228 IPV4, 276 LINUX_SLL2; any other is `OtherLink`.
///
/// Any number of tags of type `8100` or `88A8` is followed (IEEE 802.1Q, 9.3), after the two Linux
/// headers too. Types are big-endian. A frame that ends inside its link header or a tag is `Cut`
/// if fewer bytes were captured than its `original` length, else `Short`; a captured length above
/// the original is whole.
#[tactic(auto, unfolding(crate::specs::Links::network_of))]
#[inline(always)]
pub fn network(link: u16, frame: &[u8], original: u32) -> Network<'_>
    ensures { carried_seen result ≡ network_of link frame.now original }
{
    let whole = frame.len() >= original as usize;
    match link {
        ETHERNET => typed(whole, ETHERNET_HEADER, frame),
        RAW => raw(whole, frame),
        LINUX_SLL => typed(whole, LINUX_SLL_HEADER, frame),
        IPV4 => Network::Ipv4(frame),
        LINUX_SLL2 => typed(whole, LINUX_SLL2_HEADER, frame),
        _ => Network::OtherLink,
    }
}

// The network other than IPv4 of a frame that begins with such a link header.
#[tactic(auto, unfolding(crate::specs::Links::other_typed))]
fn other_typed(header: LinkHeader, frame: &[u8]) -> Option<OtherNetwork>
    requires { header.place + 2 ≤ header.size }
    ensures { result ≡ other_typed header frame.now }
{
    other_of_kind(announced_in(header, frame)?.kind)
}

// The network other than IPv4 of a frame without a link header.
#[tactic(auto, unfolding(crate::specs::Links::other_raw))]
fn other_raw(frame: &[u8]) -> Option<OtherNetwork>
    ensures { result ≡ other_raw frame.now }
{
    match *frame.first()? / 16 {
        VERSION_4 => None,
        VERSION_6 => Some(OtherNetwork::Ipv6),
        _ => Some(OtherNetwork::Other),
    }
}

/// The network of a captured frame that isn't IPv4, by its link type: `Some` exactly if `network` answers `NotIpv4`,
/// whatever the frame's original length. It is that of the type after the link header and the tags: IPv6 of `86DD`
/// (RFC 2464, 3), ARP of `0806` (RFC 826), and another of any other type or length. Of 101 RAW it is IPv6 if the high
/// four bits of the first byte are 6 (RFC 8200, 3).
#[tactic(auto, unfolding(crate::specs::Links::other_network_of))]
pub fn other_network(link: u16, frame: &[u8]) -> Option<OtherNetwork>
    ensures value { result ≡ other_network_of link frame.now }
    ensures some { (original : ℕ) → is_some result ≡ is_not_ipv4 (network_of link frame.now original) }
{
    match link {
        ETHERNET => other_typed(ETHERNET_HEADER, frame),
        RAW => other_raw(frame),
        LINUX_SLL => other_typed(LINUX_SLL_HEADER, frame),
        LINUX_SLL2 => other_typed(LINUX_SLL2_HEADER, frame),
        _ => None,
    }
}

// The bytes behind a type field, if it is that of IPv6.
#[tactic(auto, unfolding(crate::specs::Ipv6::ipv6_behind))]
#[inline(always)]
fn ipv6_behind(it: AnnouncedBytes<'_>) -> Option<&[u8]>
    ensures { option_map (λ bs. bs.now) result ≡ ipv6_behind (announced_of it.entry) }
{
    if it.kind == IPV6 {
        Some(it.bytes)
    } else {
        None
    }
}

// The IPv6 packet of a frame that begins with such a link header.
#[tactic(auto, unfolding(crate::specs::Ipv6::ipv6_typed))]
#[inline(always)]
fn ipv6_typed(header: LinkHeader, frame: &[u8]) -> Option<&[u8]>
    requires { header.place + 2 ≤ header.size }
    ensures { option_map (λ it. it.now) result ≡ ipv6_typed header frame.now }
{
    match announced_in(header, frame) {
        None => None,
        Some(it) => ipv6_behind(it),
    }
}

// The IPv6 packet of a frame without a link header.
#[tactic(auto, unfolding(crate::specs::Ipv6::ipv6_raw))]
fn ipv6_raw(frame: &[u8]) -> Option<&[u8]>
    ensures { option_map (λ it. it.now) result ≡ ipv6_raw frame.now }
{
    if *frame.first()? / 16 == VERSION_6 {
        Some(frame)
    } else {
        None
    }
}

/// The IPv6 packet that a captured frame carries, by its link type: all bytes after the link header and the tags,
/// padding among them. It is there if the type after the link header and the tags is `86DD` (RFC 2464, 3), if the high
/// four bits of the first byte of a frame of 101 RAW are 6 (RFC 8200, 3), and always of 229 IPV6 (LINKTYPE registry).
/// Of the other link types `network` answers `NotIpv4` wherever there is one, and of 229 `OtherLink`.
#[tactic(auto, unfolding(crate::specs::Ipv6::ipv6_of))]
#[inline(always)]
pub fn ipv6_packet(link: u16, frame: &[u8]) -> Option<&[u8]>
    ensures value { option_map (λ it. it.now) result ≡ ipv6_of link frame.now }
    ensures unread { (original : ℕ) → OnTrue (is_some (ipv6_of link frame.now))
        (IsUnread (network_of link frame.now original)) }
{
    match link {
        ETHERNET => ipv6_typed(ETHERNET_HEADER, frame),
        RAW => ipv6_raw(frame),
        LINUX_SLL => ipv6_typed(LINUX_SLL_HEADER, frame),
        LINUX_SLL2 => ipv6_typed(LINUX_SLL2_HEADER, frame),
        LINK_IPV6 => Some(frame),
        _ => None,
    }
}

/// A law: an Ethernet frame of two addresses, any number of tags of type `8100` or `88A8`, a type that
/// is neither, and some bytes, carries these bytes as IPv4 if the type is `0800`, and else no IPv4,
/// whatever its original length (IEEE 802.1Q, 9.3). It does nothing when it runs.
pub fn tags_law()
    ensures { TagsLaw }
{}
