//! Files that several modules read, worked out by hand from draft-ietf-opsawg-pcap and draft-ietf-opsawg-pcapng.

use cap_bytes::{Fault, Refusal, Rule};

// One packet of 4 bytes, at 1 second and 1,500,000 microseconds.
pub(crate) const CARRY_PCAP: [u8; 44] = [
    0xd4, 0xc3, 0xb2, 0xa1, 2, 0, 4, 0, 0, 0, 0, 0, 0, 0, 0, 0, 0, 0, 4, 0, 1, 0, 0, 0, //
    1, 0, 0, 0, 0x60, 0xe3, 0x16, 0, 4, 0, 0, 0, 4, 0, 0, 0, 1, 2, 3, 4,
];

// One packet of 4 bytes at 2 seconds and a half, as it is written: a section header of 28 bytes, an
// interface of 32 and the packet of 36.
pub(crate) const CARRY_PCAPNG: [u8; 96] = [
    0x0a, 0x0d, 0x0d, 0x0a, 0x1c, 0, 0, 0, 0x4d, 0x3c, 0x2b, 0x1a, 1, 0, 0, 0, //
    0xff, 0xff, 0xff, 0xff, 0xff, 0xff, 0xff, 0xff, 0x1c, 0, 0, 0, 1, 0, 0, 0, //
    0x20, 0, 0, 0, 1, 0, 0, 0, 0, 0, 4, 0, 9, 0, 1, 0, //
    6, 0, 0, 0, 0, 0, 0, 0, 0x20, 0, 0, 0, 6, 0, 0, 0, //
    0x24, 0, 0, 0, 0, 0, 0, 0, 0, 0, 0, 0, 0xa0, 0x25, 0x26, 0, //
    4, 0, 0, 0, 4, 0, 0, 0, 1, 2, 3, 4, 0x24, 0, 0, 0, //
];

// The same with options in each block, and a statistics block after: 44, 52, 48 and 24 bytes.
pub(crate) const OPTIONS_PCAPNG: [u8; 168] = [
    0x0a, 0x0d, 0x0d, 0x0a, 0x2c, 0, 0, 0, 0x4d, 0x3c, 0x2b, 0x1a, 1, 0, 0, 0, //
    0xff, 0xff, 0xff, 0xff, 0xff, 0xff, 0xff, 0xff, 4, 0, 7, 0, 0x44, 0x75, 0x6d, 0x70, //
    0x63, 0x61, 0x70, 0, 0, 0, 0, 0, 0x2c, 0, 0, 0, 1, 0, 0, 0, //
    0x34, 0, 0, 0, 1, 0, 0, 0, 0, 0, 4, 0, 2, 0, 4, 0, //
    0x65, 0x74, 0x68, 0x30, 9, 0, 1, 0, 6, 0, 0, 0, 0x0c, 0, 5, 0, //
    0x4c, 0x69, 0x6e, 0x75, 0x78, 0, 0, 0, 0, 0, 0, 0, 0x34, 0, 0, 0, //
    6, 0, 0, 0, 0x30, 0, 0, 0, 0, 0, 0, 0, 0, 0, 0, 0, //
    0xa0, 0x25, 0x26, 0, 4, 0, 0, 0, 4, 0, 0, 0, 1, 2, 3, 4, //
    2, 0, 4, 0, 1, 0, 0, 0, 0, 0, 0, 0, 0x30, 0, 0, 0, //
    5, 0, 0, 0, 0x18, 0, 0, 0, 0, 0, 0, 0, 0, 0, 0, 0, //
    0xa0, 0x25, 0x26, 0, 0x18, 0, 0, 0, //
];

// A section with the comments `first` and `second`, an interface with the comment `eth`, an enhanced packet of 5 bytes
// with the comment `note` and then an option whose value would run past the end of the block, and a simple packet of 4
// bytes that would spell a comment: 56, 32, 52 and 20 bytes.
pub(crate) const COMMENTS_PCAPNG: [u8; 160] = [
    0x0a, 0x0d, 0x0d, 0x0a, 0x38, 0, 0, 0, 0x4d, 0x3c, 0x2b, 0x1a, 1, 0, 0, 0, //
    0xff, 0xff, 0xff, 0xff, 0xff, 0xff, 0xff, 0xff, 1, 0, 5, 0, 0x66, 0x69, 0x72, 0x73, //
    0x74, 0, 0, 0, 1, 0, 6, 0, 0x73, 0x65, 0x63, 0x6f, 0x6e, 0x64, 0, 0, //
    0, 0, 0, 0, 0x38, 0, 0, 0, //
    1, 0, 0, 0, 0x20, 0, 0, 0, 1, 0, 0, 0, 0, 0, 4, 0, //
    1, 0, 3, 0, 0x65, 0x74, 0x68, 0, 0, 0, 0, 0, 0x20, 0, 0, 0, //
    6, 0, 0, 0, 0x34, 0, 0, 0, 0, 0, 0, 0, 0, 0, 0, 0, //
    0xa0, 0x25, 0x26, 0, 5, 0, 0, 0, 5, 0, 0, 0, 1, 2, 3, 4, //
    5, 0, 0, 0, 1, 0, 4, 0, 0x6e, 0x6f, 0x74, 0x65, 1, 0, 0x30, 0, //
    0x34, 0, 0, 0, 3, 0, 0, 0, 0x14, 0, 0, 0, 4, 0, 0, 0, //
    1, 0, 4, 0, 0x14, 0, 0, 0, //
];

// A section of version 1.0, little-endian.
pub(crate) const SECTION: [u8; 28] = [
    0x0a, 0x0d, 0x0d, 0x0a, 28, 0, 0, 0, 0x4d, 0x3c, 0x2b, 0x1a, 1, 0, 0, 0, //
    0xff, 0xff, 0xff, 0xff, 0xff, 0xff, 0xff, 0xff, 28, 0, 0, 0,
];

// An interface of link 1 without options, of snaplen 262,144.
pub(crate) const INTERFACE: [u8; 20] = [
    1, 0, 0, 0, 20, 0, 0, 0, 1, 0, 0, 0, 0, 0, 4, 0, 20, 0, 0, 0,
];

// A packet of 4 bytes on interface 0, at 2,500,000 units.
pub(crate) const PACKET: [u8; 36] = [
    6, 0, 0, 0, 36, 0, 0, 0, 0, 0, 0, 0, 0, 0, 0, 0, 0xa0, 0x25, 0x26, 0, 4, 0, 0, 0, 4, 0, 0, 0,
    1, 2, 3, 4, 36, 0, 0, 0,
];

// A refusal of file 7.
pub(crate) fn refused(offset: u64, rule: Rule) -> Fault {
    Fault::Refused(Refusal {
        file: 7,
        offset,
        rule,
    })
}
