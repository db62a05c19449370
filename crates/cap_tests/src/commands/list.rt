//! Lines of packets, refusals and faults: values from the formats and from worked captures.
ghost use Rattle.std.specs.Prelude.{◌≤◌};

use crate::checks::same;
use crate::commands::captures::{CARRY_PCAP, CARRY_PCAPNG, OBSOLETE_PCAPNG};
use crate::files::{bytes_of, reader_of, room_of};
use cap_bytes::{Pieces, Tail};
use cap_commands::list_to;
use std::alloc::Global;
use std::process::Abort;

const CARRY_LINE: &str = "packet 1 offset 24 time 2+500000/1000000 captured 4 original 4 \
    link 1 data 01020304\n";

const NANO_LINE: &str = "packet 1 offset 24 time 2+500000000/1000000000 captured 4 original 4 \
    link 1 data 01020304\n";

const ABOVE_LINE: &str = "packet 1 offset 24 time 4294967296+500000/1000000 captured 4 \
    original 4 link 1 data 01020304\n";

// The same packet at 2 seconds and a half: a pcap file's four magics.
const SPELLINGS: [(&str, &str); 4] = [
    (
        "d4c3b2a102000400000000000000000000000400010000000200000020a10700040000000400000001020304",
        CARRY_LINE,
    ),
    (
        "a1b2c3d40002000400000000000000000004000000000001000000020007a120000000040000000401020304",
        CARRY_LINE,
    ),
    (
        "4d3cb2a10200040000000000000000000000040001000000020000000065cd1d040000000400000001020304",
        NANO_LINE,
    ),
    (
        "a1b23c4d0002000400000000000000000004000000000001000000021dcd6500000000040000000401020304",
        NANO_LINE,
    ),
];

// Seconds 4,294,967,295 and 1,500,000 millionths.
const ABOVE: &str = "d4c3b2a10200040000000000000000000000040001000000ffffffff\
    60e31600040000000400000001020304";

const CARRY_BLOCK_LINE: &str = "packet 1 offset 60 time 2+500000/1000000 captured 4 original 4 \
    link 1 data 01020304\n";

// A section with an option, an interface with three, a packet with one, and a statistics block.
const OPTIONS: &str = "0a0d0d0a2c0000004d3c2b1a01000000ffffffffffffffff\
    0400070044756d7063617000000000002c000000\
    010000003400000001000000000004000200040065746830\
    09000100060000000c0005004c696e75780000000000000034000000\
    06000000300000000000000000000000a025260004000000040000000102030402000400010000000000000030000000\
    05000000180000000000000000000000a025260018000000";

const OPTIONS_LINE: &str = "packet 1 offset 96 time 2+500000/1000000 captured 4 original 4 \
    link 1 data 01020304\n";

// Pcapng files and their lines: a second section in the other order with another link, an offset of -1
// second, and simple packets, of 10 bytes with a snaplen of 4, and of none; the finest resolutions, and
// version 1.2, without packets.
const BLOCKS: [(&str, &str); 10] = [
    (CARRY_PCAPNG, CARRY_BLOCK_LINE),
    (OBSOLETE_PCAPNG, CARRY_BLOCK_LINE),
    (OPTIONS, OPTIONS_LINE),
    (
        "0a0d0d0a1c0000004d3c2b1a01000000ffffffffffffffff1c000000\
        0100000014000000010000000000040014000000\
        06000000240000000000000000000000a025260004000000040000000102030424000000\
        0a0d0d0a0000001c1a2b3c4d00010000ffffffffffffffff0000001c\
        0000000100000014006500000004000000000014\
        00000006000000240000000000000000002625a000000004000000040102030400000024",
        "packet 1 offset 48 time 2+500000/1000000 captured 4 original 4 link 1 data 01020304\n\
        packet 2 offset 132 time 2+500000/1000000 captured 4 original 4 link 101 data 01020304\n",
    ),
    (
        "0a0d0d0a1c0000004d3c2b1a01000000ffffffffffffffff1c000000\
        01000000200000000100000000000400\
        0e000800ffffffffffffffff20000000\
        0600000024000000000000000000000020a1070004000000040000000102030424000000",
        "packet 1 offset 60 time -1+500000/1000000 captured 4 original 4 link 1 data 01020304\n",
    ),
    (
        "0a0d0d0a1c0000004d3c2b1a01000000ffffffffffffffff1c000000\
        0100000014000000010000000400000014000000\
        03000000140000000a0000000102030414000000",
        "packet 1 offset 48 time - captured 4 original 10 link 1 data 01020304\n",
    ),
    (
        "0a0d0d0a1c0000004d3c2b1a01000000ffffffffffffffff1c000000\
        0100000014000000010000000400000014000000\
        03000000100000000000000010000000",
        "packet 1 offset 48 time - captured 0 original 0 link 1 data -\n",
    ),
    (
        "0a0d0d0a1c0000004d3c2b1a01000000ffffffffffffffff1c000000\
        010000001c000000010000000000040009000100130000001c000000",
        "",
    ),
    (
        "0a0d0d0a1c0000004d3c2b1a01000000ffffffffffffffff1c000000\
        010000001c000000010000000000040009000100bf0000001c000000",
        "",
    ),
    (
        "0a0d0d0a1c0000004d3c2b1a01000200ffffffffffffffff1c000000",
        "",
    ),
];

// What is listed of a whole capture that is given by `piece` bytes at a time.
fn lists(rt: &impl Abort, alloc: Global, capture: Vec<u8>, piece: usize, lines: &str)
    requires { 1 ≤ piece }
{
    let mut writer = room_of(rt, alloc, 512);
    let source = Pieces::new(capture, piece, None);
    let answer = list_to(alloc, source, Tail::Refuse, &mut writer);
    same!(rt; (answer, writer.bytes()), (Ok(()), lines.as_bytes()));
}

// What is listed of each capture of a table.
fn lists_each(rt: &impl Abort, alloc: Global, captures: &[(&str, &str)]) {
    for (capture, lines) in captures {
        for piece in [1, 4096] {
            let bytes = bytes_of(rt, alloc, &[*capture]);
            lists(rt, alloc, bytes, piece, *lines);
        }
    }
}

#[test]
fn always_memory_a_packet_is_listed_in_every_spelling(rt: HostRuntime) {
    let others = [(CARRY_PCAP, CARRY_LINE), (ABOVE, ABOVE_LINE)];
    lists_each(&rt, rt.alloc(), &SPELLINGS);
    lists_each(&rt, rt.alloc(), &others);
    lists_each(&rt, rt.alloc(), &BLOCKS);
}
