//! Frames of each link type and what they carry.
use crate::checks::{holds, same};
use crate::frames::{
    CAPTURED_FRAME, COOKED_2_FRAME, COOKED_2_TAGGED_FRAME, COOKED_FRAME, FRAGMENT, IPV6_FRAME,
    LENGTH_FRAME, PACKET, TAG_FRAME, TAGGED_FRAME,
};
use cap_link::{Network, OtherNetwork, ipv6_packet, network, other_network, tags_law};
use std::process::Abort;

// A link type, a frame, its original length, how many of its bytes come before the IPv4 packet, and the packet's
// length.
const CARRIED: [(u16, &[u8], u32, usize, usize); 10] = [
    (1, &TAGGED_FRAME, 60, 22, 38),
    (1, &CAPTURED_FRAME, 1514, 14, 40),
    (113, &COOKED_FRAME, 46, 16, 30),
    (276, &COOKED_2_FRAME, 50, 20, 30),
    (276, &COOKED_2_TAGGED_FRAME, 54, 24, 30),
    (101, &PACKET, 30, 0, 30),
    (101, &FRAGMENT, 28, 0, 28),
    (228, &PACKET, 30, 0, 30),
    (228, &[0x60], 1, 0, 1),
    (228, &[], 0, 0, 0),
];

// A link type, how many bytes of which frame, its original length, and why it carries none.
const REFUSED: [(u16, &[u8], usize, u32, Network); 13] = [
    (1, &IPV6_FRAME, 13, 13, Network::Short),
    (1, &IPV6_FRAME, 13, 60, Network::Cut),
    // captured above original
    (1, &IPV6_FRAME, 13, 5, Network::Short),
    (1, &TAG_FRAME, 14, 14, Network::Short),
    (1, &TAGGED_FRAME, 21, 60, Network::Cut),
    (1, &IPV6_FRAME, 14, 14, Network::NotIpv4),
    (1, &LENGTH_FRAME, 14, 14, Network::NotIpv4),
    (147, &PACKET, 30, 30, Network::OtherLink),
    (101, &[], 0, 0, Network::Short),
    (101, &[], 0, 1, Network::Cut),
    (101, &[0x60], 1, 1, Network::NotIpv4),
    (113, &COOKED_FRAME, 15, 46, Network::Cut),
    (276, &COOKED_2_FRAME, 19, 19, Network::Short),
];

// A frame carries the packet after its first bytes, of that length.
fn carries(rt: &impl Abort, link: u16, frame: &[u8], original: u32, before: usize, length: usize) {
    let packet = frame.get(before..);
    same!(rt; packet.map(|bytes| bytes.len()), Some(length));
    holds!(rt;
        packet.map(Network::Ipv4) == Some(network(link, frame, original)),
        link
    );
}

// The first bytes of a frame carry no packet, as that class.
fn carries_none(rt: &impl Abort, link: u16, seen: Option<&[u8]>, original: u32, class: Network) {
    let seen = seen.map(|bytes| network(link, bytes, original));
    holds!(rt; seen == Some(class), link);
}

#[test]
fn carries_ipv4_or_none(rt: HostRuntime) {
    tags_law();
    for &(link, frame, original, before, length) in &CARRIED {
        carries(&rt, link, frame, original, before, length);
    }
    for &(link, frame, captured, original, class) in &REFUSED {
        carries_none(&rt, link, frame.get(..captured), original, class);
    }
}

// An Ethernet header of the type of ARP, and the same behind a C-VLAN tag.
const ARP_FRAME: [u8; 14] = [2, 0, 0, 0, 0, 2, 2, 0, 0, 0, 0, 1, 0x08, 0x06];

const TAGGED_ARP_FRAME: [u8; 18] = [
    2, 0, 0, 0, 0, 2, 2, 0, 0, 0, 0, 1, 0x81, 0, 0, 0x64, 0x08, 0x06,
];

// A LINUX_SLL header of the type of IPv6, and a LINUX_SLL2 header of that of ARP.
const COOKED_IPV6_FRAME: [u8; 16] = [0, 0, 0, 1, 0, 6, 2, 0, 0, 0, 0, 1, 0, 0, 0x86, 0xdd];

const COOKED_2_ARP_FRAME: [u8; 20] = [
    0x08, 0x06, 0, 0, 0, 0, 0, 1, 0, 1, 0, 6, 2, 0, 0, 0, 0, 1, 0, 0,
];

// A link type, a frame, and its network if that is one other than IPv4 (RFC 2464, 3; RFC 826; RFC 8200, 3).
const NETWORKS: [(u16, &[u8], Option<OtherNetwork>); 14] = [
    (1, &IPV6_FRAME, Some(OtherNetwork::Ipv6)),
    (1, &ARP_FRAME, Some(OtherNetwork::Arp)),
    (1, &TAGGED_ARP_FRAME, Some(OtherNetwork::Arp)),
    (1, &LENGTH_FRAME, Some(OtherNetwork::Other)),
    (1, &TAGGED_FRAME, None),
    (1, &TAG_FRAME, None),
    (113, &COOKED_IPV6_FRAME, Some(OtherNetwork::Ipv6)),
    (276, &COOKED_2_ARP_FRAME, Some(OtherNetwork::Arp)),
    (101, &[0x60], Some(OtherNetwork::Ipv6)),
    (101, &[0x50], Some(OtherNetwork::Other)),
    (101, &PACKET, None),
    (101, &[], None),
    (228, &[0x60], None),
    (147, &ARP_FRAME, None),
];

#[test]
fn networks_other_than_ipv4(rt: HostRuntime) {
    for &(link, frame, wanted) in &NETWORKS {
        same!(&rt; other_network(link, frame), wanted, link);
    }
}

// A link type, a frame, and how many of its bytes come before the IPv6 packet that it carries, if it carries one.
const IPV6_CARRIED: [(u16, &[u8], Option<usize>); 8] = [
    (1, &IPV6_FRAME, Some(14)),
    (101, &[0x60, 1], Some(0)),
    (101, &[0x45, 1], None),
    (101, &[], None),
    (229, &[0x45], Some(0)),
    (228, &[0x60], None),
    (1, &LENGTH_FRAME, None),
    (113, &COOKED_FRAME, None),
];

#[test]
fn carries_ipv6_or_none(rt: HostRuntime) {
    for &(link, frame, before) in &IPV6_CARRIED {
        let wanted = before.and_then(|place| frame.get(place..));
        holds!(&rt; ipv6_packet(link, frame) == wanted, link);
    }
}
