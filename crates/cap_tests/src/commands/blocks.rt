//! Lines of blocks: values from draft-ietf-opsawg-pcapng and from worked files.
ghost use Rattle.std.specs.Prelude.{◌≤◌};

use crate::checks::same;
use crate::commands::answer_of_file;
use crate::files::{reader_of, room_of};
use cap_bytes::{Rule, Tail};
use cap_commands::blocks_to;
use std::alloc::Global;
use std::process::Abort;

// A section with an option, an interface with three, a packet with one, and a statistics block.
const OPTIONS: &str = "0a0d0d0a2c0000004d3c2b1a01000000ffffffffffffffff\
    0400070044756d7063617000000000002c000000\
    010000003400000001000000000004000200040065746830\
    09000100060000000c0005004c696e75780000000000000034000000\
    06000000300000000000000000000000a025260004000000040000000102030402000400010000000000000030000000\
    05000000180000000000000000000000a025260018000000";

const OPTIONS_LINES: &str = "block 1 offset 0 order little kind 0a0d0d0a total 44\n\
    block 2 offset 44 order little kind 00000001 total 52\n\
    block 3 offset 96 order little kind 00000006 total 48\n\
    block 4 offset 144 order little kind 00000005 total 24\n";

// A section of version 1.2, and a big-endian one with a block of kind ABCDEF01.
const SECTIONS: &str = "0a0d0d0a1c0000004d3c2b1a01000200ffffffffffffffff1c000000\
    0a0d0d0a0000001c1a2b3c4d00010000ffffffffffffffff0000001c\
    abcdef01000000100000000000000010";

const SECTIONS_LINES: &str = "block 1 offset 0 order little kind 0a0d0d0a total 28\n\
    block 2 offset 28 order big kind 0a0d0d0a total 28\n\
    block 3 offset 56 order big kind abcdef01 total 16\n";

const SECTION_LINE: &str = "block 1 offset 0 order little kind 0a0d0d0a total 28\n";

// A file, what is printed of it, and how that ends: where and why it is refused.
type Row = (&'static str, &'static str, Result<(), (u64, Rule)>);

const PRINTED: [Row; 12] = [
    (OPTIONS, OPTIONS_LINES, Ok(())),
    (SECTIONS, SECTIONS_LINES, Ok(())),
    ("", "", Err((0, Rule::Cut))),
    ("d4c3b2", "", Err((0, Rule::Cut))),
    ("d4c3b2a1", "", Err((0, Rule::Magic))),
    (
        "d4c3b2a102000400000000000000000000000400010000000100000060e31600040000000400000001020304",
        "",
        Err((0, Rule::Magic)),
    ),
    (
        "0a0d0d0a1c0000000000000001000000ffffffffffffffff1c000000",
        "",
        Err((0, Rule::OrderMagic)),
    ),
    (
        "0a0d0d0a1c0000004d3c2b1a01000100ffffffffffffffff1c000000",
        "",
        Err((0, Rule::Version)),
    ),
    // a total of 0; 524,292 bytes of a known kind; 4,294,967,292 of another, and the end of the input
    (
        "0a0d0d0a1c0000004d3c2b1a01000000ffffffffffffffff1c000000000000000000000000000000",
        SECTION_LINE,
        Err((28, Rule::BlockLength)),
    ),
    (
        "0a0d0d0a1c0000004d3c2b1a01000000ffffffffffffffff1c000000060000000400080000000000",
        SECTION_LINE,
        Err((28, Rule::BlockLength)),
    ),
    (
        "0a0d0d0a1c0000004d3c2b1a01000000ffffffffffffffff1c00000005000000fcffffff00000000",
        SECTION_LINE,
        Err((28, Rule::Cut)),
    ),
    // a trailer of 12 in a block of 16
    (
        "0a0d0d0a1c0000004d3c2b1a01000000ffffffffffffffff1c00000001000040100000000000000\
        00c000000",
        SECTION_LINE,
        Err((28, Rule::BlockTrailer)),
    ),
];

// What `blocks` writes and answers of a file that is given by `piece` bytes at a time.
fn prints(rt: &impl Abort, alloc: Global, row: &Row, piece: usize)
    requires { 1 ≤ piece }
{
    let (file, lines, ending) = *row;
    let mut writer = room_of(rt, alloc, 512);
    let source = reader_of(rt, alloc, &[file], piece);
    let answer = blocks_to(alloc, source, Tail::Refuse, &mut writer);
    let wanted = (answer_of_file(ending), lines.as_bytes());
    same!(rt; (answer, writer.bytes()), wanted, file);
}

#[test]
fn always_memory_blocks_are_printed(rt: HostRuntime) {
    for row in &PRINTED {
        for piece in [1, 4096] {
            prints(&rt, rt.alloc(), row, piece);
        }
    }
}
