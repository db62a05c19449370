//! Headers field by field, ports and checksums.
mod vectors;

use crate::checks::{holds, same};
use crate::ip::vectors::{
    CHECKSUMS, FIRST_FRAGMENT, FIRST_FRAGMENT_AGAIN, JOINED_HEADER, LAST_FRAGMENT, MIDDLE_FRAGMENT,
    WHOLE_PACKET,
};
use cap_ip::{
    Fragment, Header, HeaderOr, Key, Reason, Transport, checksum_law, header_checksum,
    header_reason, transport, transport_reason,
};
use std::process::Abort;

// The header at the front of a packet that was captured whole, and its data.
fn header_of<'a>(rt: &impl Abort, bytes: &'a [u8]) -> (Header, &'a [u8]) {
    match Header::read(bytes, true) {
        HeaderOr::Header(header, held) => (header, held),
        _ => panic!(rt; "no header"),
    }
}

#[test]
fn header_fields(rt: HostRuntime) {
    let (header, held) = header_of(&rt, &WHOLE_PACKET);
    let key = Key {
        source: 0xc0a8_0102,
        destination: 0xc633_6403,
        protocol: 0x84,
        identification: 0x1234,
    };
    same!(&rt; header.key(), key);
    same!(&rt; header.service(), 0xb1);
    same!(&rt; header.time_to_live(), 0x3f);
    same!(&rt; header.data_length(), 8);
    same!(&rt; header.fragment(), None);
    holds!(&rt; held == [0xa0, 0xa1, 0xa2, 0xa3, 0xa4, 0xa5, 0xa6, 0xa7].as_slice());
}

// A packet of identification 7 is a fragment of 8 bytes.
fn is_fragment(rt: &impl Abort, packet: &[u8; 28], start: u32, more: bool) {
    let (header, held) = header_of(rt, packet);
    let piece = Fragment {
        start,
        length: 8,
        more,
    };
    same!(rt; header.fragment(), Some(piece));
    same!(rt; header.key().identification, 7);
    holds!(rt; held == packet.split_at(20).1);
}

#[test]
fn fragments(rt: HostRuntime) {
    is_fragment(&rt, &LAST_FRAGMENT, 16, false);
    is_fragment(&rt, &FIRST_FRAGMENT, 0, true);
    is_fragment(&rt, &FIRST_FRAGMENT_AGAIN, 0, true);
    is_fragment(&rt, &MIDDLE_FRAGMENT, 8, true);
}

// 10 bytes of UDP and 20 of TCP from port 1000 to port 2000, and none of ICMP.
#[test]
fn ports(rt: HostRuntime) {
    let ports = Transport::Ports(1000, 2000);
    let udp = [0x03, 0xe8, 0x07, 0xd0, 0, 10, 0, 0, 0x68, 0x69];
    let tcp = [
        0x03, 0xe8, 0x07, 0xd0, 0, 0, 0, 1, 0, 0, 0, 0, 0x50, 0x10, 0, 0, 0, 0, 0, 0,
    ];
    same!(&rt; transport(17, &udp, 10), ports);
    same!(&rt; transport(6, &tcp, 20), ports);
    same!(&rt; transport(1, &[], 0), Transport::NoPorts);
}

// The beginning of a header, up to its fragment offset, of a packet of 28 bytes; how many of them there are; whether it
// was captured whole; and why it is bad or cut.
const HEADERS: [([u8; 8], usize, bool, Reason); 13] = [
    ([0x45, 0, 0, 28, 0, 7, 0, 0], 19, true, Reason::HeaderShort),
    ([0x45, 0, 0, 28, 0, 7, 0, 0], 19, false, Reason::HeaderShort),
    ([0x55, 0, 0, 28, 0, 7, 0, 0], 28, true, Reason::Version),
    (
        [0x44, 0, 0, 28, 0, 7, 0, 0],
        28,
        false,
        Reason::HeaderLength,
    ),
    ([0x45, 0, 0, 0, 0, 7, 0, 0], 28, true, Reason::LengthZero),
    ([0x46, 0, 0, 23, 0, 7, 0, 0], 28, false, Reason::LengthShort),
    ([0x48, 0, 0, 32, 0, 7, 0, 0], 28, false, Reason::HeaderShort),
    ([0x45, 0, 0, 29, 0, 7, 0, 0], 28, true, Reason::BeyondFrame),
    (
        [0x45, 0, 0, 20, 0, 7, 0x20, 1],
        28,
        true,
        Reason::FragmentEmpty,
    ),
    (
        [0x45, 0, 0, 27, 0, 7, 0x20, 1],
        28,
        true,
        Reason::FragmentBlock,
    ),
    (
        [0x45, 0, 0, 24, 0, 7, 0x1f, 0xfd],
        28,
        true,
        Reason::FragmentBeyond,
    ),
    (
        [0x45, 0, 0, 36, 0, 7, 0x20, 1],
        28,
        true,
        Reason::BeyondFrame,
    ),
    (
        [0x45, 0, 0, 36, 0, 7, 0x20, 1],
        28,
        false,
        Reason::FragmentCut,
    ),
];

// Why a packet is bad or cut that begins so, by its first bytes.
fn has_reason(rt: &impl Abort, front: &[u8; 8], captured: usize, whole: bool, why: Reason) {
    let mut packet = LAST_FRAGMENT;
    let (head, _) = packet.split_at_mut(8);
    head.copy_from_slice(front);
    let found = packet
        .get(..captured)
        .map(|bytes| header_reason(bytes, whole));
    same!(rt; found, Some(why));
}

#[test]
fn header_reasons(rt: HostRuntime) {
    for (front, captured, whole, why) in &HEADERS {
        has_reason(&rt, front, *captured, *whole, *why);
    }
    same!(&rt; Reason::FragmentBeyond.name(), "fragment-beyond");
}

// A protocol, how much was captured of a datagram's data, how long that is, and why the datagram is bad or cut.
const TRANSPORTS: [(u8, usize, u32, Reason); 6] = [
    (17, 7, 7, Reason::UdpShort),
    (17, 7, 10, Reason::UdpShort),
    (17, 8, 10, Reason::UdpLength),
    (6, 19, 19, Reason::TcpShort),
    (6, 19, 20, Reason::TcpShort),
    (6, 20, 20, Reason::TcpOffset),
];

#[test]
fn transport_reasons(rt: HostRuntime) {
    for &(protocol, captured, length, why) in &TRANSPORTS {
        let found = WHOLE_PACKET.get(..captured);
        same!(&rt; found.map(|data| transport_reason(protocol, data, length)), Some(why));
    }
}

#[test]
fn checksums(rt: HostRuntime) {
    checksum_law();
    for (header, checksum) in &CHECKSUMS {
        same!(&rt; header_checksum(header), *checksum);
    }
}

#[test]
fn written_headers(rt: HostRuntime) {
    let (fragment, _) = header_of(&rt, &FIRST_FRAGMENT);
    same!(&rt; fragment.to_bytes(24), JOINED_HEADER);
    let (whole, _) = header_of(&rt, &WHOLE_PACKET);
    let longest = whole.to_bytes(65_515);
    same!(&rt; header_checksum(&longest), 0);
    match Header::read(&longest, false) {
        HeaderOr::Header(header, _) => {
            same!(&rt; header.key(), whole.key());
            same!(&rt; header.service(), whole.service());
            same!(&rt; header.time_to_live(), whole.time_to_live());
            same!(&rt; header.data_length(), 65_515);
            same!(&rt; header.fragment(), None);
        }
        _ => holds!(&rt; false),
    }
}
