//! IPv6 packets and their extension headers.
use crate::checks::{holds, same};
use cap_ip::Reason;
use cap_ipv6::{Ipv6Fragment, Ipv6Header, Ipv6Packet, chain_law, read};
use std::process::Abort;

// Ten bytes of UDP from 2001:db8::1 to 2001:db8::2 (RFC 8200, 3).
const PACKET: [u8; 50] = [
    0x60, 0, 0, 0, 0, 0xa, 0x11, 0x40, 0x20, 1, 0xd, 0xb8, 0, 0, 0, 0, 0, 0, 0, 0, 0, 0, 0, 1,
    0x20, 1, 0xd, 0xb8, 0, 0, 0, 0, 0, 0, 0, 0, 0, 0, 0, 2, 3, 0xe8, 7, 0xd0, 0, 0xa, 0, 0, 0x68,
    0x69,
];

// The same behind hop-by-hop options, 16 bytes of destination options, an authentication header of 24 bytes and
// the header of a fragment that is a whole datagram.
const CHAIN: [u8; 106] = [
    0x60, 0, 0, 0, 0, 0x42, 0, 0x40, 0x20, 1, 0xd, 0xb8, 0, 0, 0, 0, 0, 0, 0, 0, 0, 0, 0, 1, 0x20,
    1, 0xd, 0xb8, 0, 0, 0, 0, 0, 0, 0, 0, 0, 0, 0, 2, 0x3c, 0, 0, 0, 0, 0, 0, 0, 0x33, 1, 0, 0, 0,
    0, 0, 0, 0, 0, 0, 0, 0, 0, 0, 0, 0x2c, 4, 0, 0, 0, 0, 0, 0, 0, 0, 0, 0, 0, 0, 0, 0, 0, 0, 0, 0,
    0, 0, 0, 0, 0x11, 0, 0, 0, 0, 0, 0, 7, 3, 0xe8, 7, 0xd0, 0, 0xa, 0, 0, 0x68, 0x69,
];

// A fragment of 8 bytes at place 8, and more follow (RFC 8200, 4.5).
const FRAGMENT: [u8; 56] = [
    0x60, 0, 0, 0, 0, 0x10, 0x2c, 0x40, 0x20, 1, 0xd, 0xb8, 0, 0, 0, 0, 0, 0, 0, 0, 0, 0, 0, 1,
    0x20, 1, 0xd, 0xb8, 0, 0, 0, 0, 0, 0, 0, 0, 0, 0, 0, 2, 0x11, 0, 0, 9, 0, 0, 0, 7, 0, 0, 0, 0,
    0, 0, 0, 0,
];

// One of 7 bytes, and more follow.
const UNEVEN: [u8; 55] = [
    0x60, 0, 0, 0, 0, 0xf, 0x2c, 0x40, 0x20, 1, 0xd, 0xb8, 0, 0, 0, 0, 0, 0, 0, 0, 0, 0, 0, 1,
    0x20, 1, 0xd, 0xb8, 0, 0, 0, 0, 0, 0, 0, 0, 0, 0, 0, 2, 0x11, 0, 0, 9, 0, 0, 0, 7, 0, 0, 0, 0,
    0, 0, 0,
];

// Options of 16 bytes in a payload of 8.
const BEYOND: [u8; 48] = [
    0x60, 0, 0, 0, 0, 8, 0, 0x40, 0x20, 1, 0xd, 0xb8, 0, 0, 0, 0, 0, 0, 0, 0, 0, 0, 0, 1, 0x20, 1,
    0xd, 0xb8, 0, 0, 0, 0, 0, 0, 0, 0, 0, 0, 0, 2, 0x11, 1, 0, 0, 0, 0, 0, 0,
];

const HEADER: Ipv6Header = Ipv6Header {
    source: 0x2001_0db8_0000_0000_0000_0000_0000_0001,
    destination: 0x2001_0db8_0000_0000_0000_0000_0000_0002,
    protocol: 17,
    data_length: 10,
};

// The first bytes of a packet are what is said, captured whole or not.
fn reads(rt: &impl Abort, packet: Option<&[u8]>, whole: bool, wanted: Ipv6Packet<'_>) {
    let read = packet.map(|bytes| read(bytes, whole));
    holds!(rt; read == Some(wanted));
}

#[test]
fn datagrams_with_their_headers(rt: HostRuntime) {
    chain_law();
    let data = PACKET.split_at(40).1;
    reads(&rt, Some(&PACKET), true, Ipv6Packet::Datagram(HEADER, data));
    reads(&rt, Some(&CHAIN), true, Ipv6Packet::Datagram(HEADER, data));
    // two bytes of the data weren't captured
    let captured = data.split_at(8).0;
    reads(
        &rt,
        CHAIN.get(..104),
        false,
        Ipv6Packet::Datagram(HEADER, captured),
    );
}

#[test]
fn ipv6_fragments(rt: HostRuntime) {
    let fragment = Ipv6Fragment {
        identification: 7,
        start: 8,
        length: 8,
        more: true,
    };
    reads(&rt, Some(&FRAGMENT), true, Ipv6Packet::Fragment(fragment));
    reads(
        &rt,
        FRAGMENT.get(..48),
        false,
        Ipv6Packet::Fragment(fragment),
    );
    reads(
        &rt,
        Some(&UNEVEN),
        true,
        Ipv6Packet::Bad(Reason::FragmentBlock),
    );
}

#[test]
fn bad_and_cut(rt: HostRuntime) {
    reads(
        &rt,
        PACKET.get(..39),
        true,
        Ipv6Packet::Bad(Reason::HeaderShort),
    );
    reads(
        &rt,
        PACKET.get(..39),
        false,
        Ipv6Packet::Cut(Reason::HeaderShort),
    );
    reads(
        &rt,
        PACKET.get(..49),
        true,
        Ipv6Packet::Bad(Reason::BeyondFrame),
    );
    reads(
        &rt,
        Some(&[0x45; 40]),
        true,
        Ipv6Packet::Bad(Reason::Version),
    );
    reads(
        &rt,
        Some(&BEYOND),
        true,
        Ipv6Packet::Bad(Reason::ExtensionPast),
    );
    reads(
        &rt,
        BEYOND.get(..42),
        false,
        Ipv6Packet::Bad(Reason::ExtensionPast),
    );
    reads(
        &rt,
        CHAIN.get(..41),
        false,
        Ipv6Packet::Cut(Reason::ExtensionCut),
    );
    reads(
        &rt,
        CHAIN.get(..60),
        false,
        Ipv6Packet::Cut(Reason::ExtensionCut),
    );
}
