//! Files that several modules read, in hex, worked out by hand from draft-ietf-opsawg-pcap and
//! draft-ietf-opsawg-pcapng.

/// A file: texts in hex, one after the other.
pub(crate) type File = &'static [&'static str];

// The header of a pcap file of Ethernet, and of one of IP alone.
pub(crate) const ETHERNET: &str = "d4c3b2a10200040000000000000000000000040001000000";

pub(crate) const RAW: &str = "d4c3b2a10200040000000000000000000000040065000000";

pub(crate) const HEADER_ONLY: File = &[ETHERNET];

// Records without bytes, at 1 second, at 2 and at 5.
const EMPTY_AT_1: &str = "01000000000000000000000000000000";

const EMPTY_AT_2: &str = "02000000000000000000000000000000";

const EMPTY_AT_5: &str = "05000000000000000000000000000000";

// Records at 5 seconds and then at 1 second, at 24 and 40 of 56 bytes, and at 2 and at 5 seconds.
pub(crate) const RUNS_BACK: File = &[ETHERNET, EMPTY_AT_5, EMPTY_AT_1];

pub(crate) const RUNS_ON: File = &[ETHERNET, EMPTY_AT_2, EMPTY_AT_5];

// A packet of 4 bytes, at 1 second and 1,500,000 microseconds.
pub(crate) const CARRY_PCAP: File = &[ETHERNET, "0100000060e316000400000004000000", "01020304"];

// It without its last byte.
pub(crate) const CUT_PCAP: File = &[ETHERNET, "0100000060e316000400000004000000", "010203"];

// A packet at 5 seconds, or at 1 second, and 8 bytes of the next record.
pub(crate) const LATE: File = &[ETHERNET, EMPTY_AT_5, "0000000000000000"];

pub(crate) const EARLY: File = &[ETHERNET, EMPTY_AT_1, "0000000000000000"];

// A section, and an interface of Ethernet as it is written.
pub(crate) const SECTION: &str = "0a0d0d0a1c0000004d3c2b1a01000000ffffffffffffffff1c000000";

pub(crate) const INTERFACE: &str =
    "0100000020000000010000000000040009000100060000000000000020000000";

// The packet of CARRY_PCAP on interface 0, and the file of it.
pub(crate) const PACKET: &str =
    "06000000240000000000000000000000a025260004000000040000000102030424000000";

pub(crate) const CARRY_PCAPNG: File = &[SECTION, INTERFACE, PACKET];

// A section of 44 bytes, an interface of 52 and a packet of 48, each with options, and a statistics block of 24.
pub(crate) const OPTIONS_PCAPNG: File = &[
    "0a0d0d0a2c0000004d3c2b1a01000000ffffffffffffffff0400070044756d7063617000000000002c000000",
    "010000003400000001000000000004000200040065746830\
    09000100060000000c0005004c696e75780000000000000034000000",
    "06000000300000000000000000000000a025260004000000040000000102030402000400010000000000000030000000",
    "05000000180000000000000000000000a025260018000000",
];

// A section with the comments `first` and `second`, an interface with the comment `eth`, and an enhanced packet of 5
// bytes with the comment `note`.
pub(crate) const COMMENTS_PCAPNG: File = &[
    "0a0d0d0a380000004d3c2b1a01000000ffffffffffffffff\
    010005006669727374000000010006007365636f6e6400000000000038000000",
    "0100000020000000010000000000040001000300657468000000000020000000",
    "06000000340000000000000000000000a02526000500000005000000\
    010203040500000001000400\
    6e6f74650000000034000000",
];

// A section, two Decryption Secrets Blocks of 20 bytes, of which one has a key log without lines and the other no known
// secrets, a Name Resolution Block of 16 without records, a statistics block of 24, and a block of 12 of type 11.
pub(crate) const SKIPPED_PCAPNG: File = &[
    SECTION,
    "0a000000140000004b534c540000000014000000",
    "0a00000014000000000000000000000014000000",
    "04000000100000000000000010000000",
    "05000000180000000000000000000000a025260018000000",
    "0b0000000c0000000c000000",
];

// An interface of Ethernet and snaplen 4, and a simple packet on it that had 10 bytes.
const SNAPLEN_4: &str = "0100000014000000010000000400000014000000";

const SIMPLE: &str = "03000000140000000a0000000102030414000000";

pub(crate) const SIMPLE_PACKET: File = &[SECTION, SNAPLEN_4, SIMPLE];

// Two datagrams of UDP, there and back, and one whose UDP length reaches into the padding, each of two tags.
pub(crate) const TAGGED_FRAMES: File = &[
    ETHERNET,
    "01000000000000003c0000003c000000",
    "02000000000202000000000188a800648100000a08004500001e00010000401100000a0000010a00000203e807d0000a\
    000068690000000000000000",
    "02000000000000003c0000003c000000",
    "02000000000102000000000288a800648100000a08004500001e00020000401100000a0000020a00000107d003e8000a\
    000068690000000000000000",
    "03000000000000003c0000003c000000",
    "02000000000202000000000188a800648100000a08004500001e00030000401100000a0000010a00000203e807d0000c\
    000068690000000000000000",
];

// A record of 28 bytes at 1 second, at 2, at 3, at 4 and at 31.
pub(crate) const AT_1: &str = "01000000000000001c0000001c000000";

const AT_2: &str = "02000000000000001c0000001c000000";

pub(crate) const AT_3: &str = "03000000000000001c0000001c000000";

pub(crate) const AT_4: &str = "04000000000000001c0000001c000000";

pub(crate) const AT_31: &str = "1f000000000000001c0000001c000000";

// Four fragments of one datagram, of which the third overwrites the second.
pub(crate) const FRAGMENT_FRAMES: File = &[
    RAW,
    AT_1,
    "4500001c00070002401100000a0000010a000002b0b1b2b3b4b5b6b7",
    AT_2,
    "4500001c00072000401100000a0000010a00000203e807d000180000",
    AT_3,
    "4500001c00072000401100000a0000010a00000203e907d100180000",
    AT_4,
    "4500001c00072001401100000a0000010a000002a0a1a2a3a4a5a6a7",
];

// The last 8 bytes of a datagram of 16, and its first 8.
pub(crate) const LAST: &str = "4500001c00090001401100000a0000010a000002a0a1a2a3a4a5a6a7";

pub(crate) const FIRST: &str = "4500001c00092000401100000a0000010a00000203e807d000100000";
