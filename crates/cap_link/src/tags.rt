//! Type fields and the tags that may follow them (IEEE 802.3, 3.2.6; IEEE 802.1Q, 9.3).
ghost use Rattle.std.specs.Prelude.{◌≡◌};
ghost use Rattle.cap_link.specs.Seen.{announced_seen, carried_seen};
ghost use Rattle.cap_link.specs.Tags.{announced, carried, ended_in_link, is_tag, other_of_kind, payload};

use crate::networks::{Network, OtherNetwork};
use cap_bytes::{Order, u16_at};

// The type of an IPv4 packet (RFC 894).
const IPV4: u16 = 0x0800;
// The type of an ARP packet (RFC 826).
const ARP: u16 = 0x0806;
/// The type of an IPv6 packet (RFC 2464, 3).
pub(crate) const IPV6: u16 = 0x86dd;
// The type of a C-VLAN tag (IEEE 802.1Q, 9.5).
const C_TAG: u16 = 0x8100;
// The type of an S-VLAN tag (IEEE 802.1Q, 9.5).
const S_TAG: u16 = 0x88a8;

// The bytes of a tag's data and of the type after them.
const TAG: usize = 4;

/// What a link header and the tags behind it announce.
#[derive(Clone, Copy)]
pub(crate) struct AnnouncedBytes<'a> {
    /// The first type that is no tag's.
    pub(crate) kind: u16,
    /// The bytes behind it.
    pub(crate) bytes: &'a [u8],
}

#[tactic(auto, unfolding(crate::specs::Tags::is_tag))]
fn is_tag(kind: u16) -> bool
    ensures { result ≡ is_tag kind }
{
    kind == C_TAG || kind == S_TAG
}

/// What a frame carries that ends inside its link header or a tag.
#[tactic(auto, unfolding(crate::specs::Tags::ended_in_link))]
pub(crate) fn ended<'a>(whole: bool) -> Network<'a>
    ensures { carried_seen result ≡ ended_in_link whole }
{
    if whole { Network::Short } else { Network::Cut }
}

// What bytes are that come after a type which announces no tag.
#[tactic(auto, unfolding(crate::specs::Tags::payload))]
fn payload(kind: u16, bytes: &[u8]) -> Network<'_>
    ensures { carried_seen result ≡ payload kind bytes.now }
{
    if kind == IPV4 {
        Network::Ipv4(bytes)
    } else {
        Network::NotIpv4
    }
}

/// What a type field and the tags after it announce; `None` if the bytes end inside a tag.
#[inline(always)]
pub(crate) fn announced(kind: u16, bytes: &[u8]) -> Option<AnnouncedBytes<'_>>
    ensures { announced_seen result ≡ announced kind bytes.now }
{
    let mut next = kind;
    let mut rest = bytes;
    'tags: while is_tag(next) {
        if rest.len() < TAG {
            return None;
        }
        next = u16_at(Order::Big, rest, 2);
        (_, rest) = rest.split_at(TAG);
    }
    Some(AnnouncedBytes {
        kind: next,
        bytes: rest,
    })
}

/// What a frame carries whose link header and tags announce that; they announce nothing if it ends inside them.
#[tactic(auto, unfolding(crate::specs::Tags::carried))]
#[inline(always)]
pub(crate) fn carried(whole: bool, behind: Option<AnnouncedBytes<'_>>) -> Network<'_>
    ensures { carried_seen result ≡ carried whole (announced_seen behind.entry) }
{
    match behind {
        None => ended(whole),
        Some(it) => payload(it.kind, it.bytes),
    }
}

/// The network of a type field that is no tag's; `None` of that of IPv4.
#[tactic(auto, unfolding(crate::specs::Tags::other_of_kind))]
pub(crate) fn other_of_kind(kind: u16) -> Option<OtherNetwork>
    ensures { result ≡ other_of_kind kind }
{
    match kind {
        IPV4 => None,
        IPV6 => Some(OtherNetwork::Ipv6),
        ARP => Some(OtherNetwork::Arp),
        _ => Some(OtherNetwork::Other),
    }
}
