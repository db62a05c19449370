//! Lines of blocks in JSON: values from draft-ietf-opsawg-pcapng and from RFC 8259.
ghost use Rattle.std.specs.Prelude.{◌≤◌};

use crate::checks::same;
use crate::commands::answer_of_file;
use crate::files::{bytes_of, reader_of, room_of};
use cap_bytes::{Fault, Pieces, Rule, Tail};
use cap_commands::blocks_json_to;
use std::alloc::Global;
use std::process::Abort;

// A section with an option, an interface with three, a packet with one, and a statistics block.
const OPTIONS: &str = "0a0d0d0a2c0000004d3c2b1a01000000ffffffffffffffff\
    0400070044756d7063617000000000002c000000\
    010000003400000001000000000004000200040065746830\
    09000100060000000c0005004c696e75780000000000000034000000\
    06000000300000000000000000000000a025260004000000040000000102030402000400010000000000000030000000\
    05000000180000000000000000000000a025260018000000";

const OPTIONS_LINES: &str =
    r#"{"type":"block","n":1,"offset":0,"order":"little","kind":"0a0d0d0a","total":44}
{"type":"block","n":2,"offset":44,"order":"little","kind":"00000001","total":52}
{"type":"block","n":3,"offset":96,"order":"little","kind":"00000006","total":48}
{"type":"block","n":4,"offset":144,"order":"little","kind":"00000005","total":24}
"#;

// A section of version 1.2, and a big-endian one with a block of kind ABCDEF01.
const SECTIONS: &str = "0a0d0d0a1c0000004d3c2b1a01000200ffffffffffffffff1c000000\
    0a0d0d0a0000001c1a2b3c4d00010000ffffffffffffffff0000001c\
    abcdef01000000100000000000000010";

const SECTIONS_LINES: &str =
    r#"{"type":"block","n":1,"offset":0,"order":"little","kind":"0a0d0d0a","total":28}
{"type":"block","n":2,"offset":28,"order":"big","kind":"0a0d0d0a","total":28}
{"type":"block","n":3,"offset":56,"order":"big","kind":"abcdef01","total":16}
"#;

const FIRST_LINE: &str =
    r#"{"type":"block","n":1,"offset":0,"order":"little","kind":"0a0d0d0a","total":44}
"#;

const SECTION_LINE: &str =
    r#"{"type":"block","n":1,"offset":0,"order":"little","kind":"0a0d0d0a","total":28}
"#;

// A file, what is printed of it, and how that ends: where and why it is refused.
type Row = (&'static str, &'static str, Result<(), (u64, Rule)>);

const PRINTED: [Row; 5] = [
    (OPTIONS, OPTIONS_LINES, Ok(())),
    (SECTIONS, SECTIONS_LINES, Ok(())),
    ("", "", Err((0, Rule::Cut))),
    ("d4c3b2a1", "", Err((0, Rule::Magic))),
    // a total of 0 after a section
    (
        "0a0d0d0a1c0000004d3c2b1a01000000ffffffffffffffff1c000000000000000000000000000000",
        SECTION_LINE,
        Err((28, Rule::BlockLength)),
    ),
];

// What is written and answered of a file that is given by `piece` bytes at a time.
fn prints(rt: &impl Abort, alloc: Global, row: &Row, piece: usize)
    requires { 1 ≤ piece }
{
    let (file, lines, ending) = *row;
    let mut writer = room_of(rt, alloc, 512);
    let source = reader_of(rt, alloc, &[file], piece);
    let answer = blocks_json_to(alloc, source, Tail::Refuse, &mut writer);
    let wanted = (answer_of_file(ending), lines.as_bytes());
    same!(rt; (answer, writer.bytes()), wanted, file);
}

#[test]
fn always_memory_blocks_are_printed_in_json(rt: HostRuntime) {
    for row in &PRINTED {
        for piece in [1, 4096] {
            prints(&rt, rt.alloc(), row, piece);
        }
    }
}

// A read of that number, by one byte a read, fails in the second block of OPTIONS: the first block's line is written.
fn fails(rt: &impl Abort, alloc: Global, number: u64) {
    let mut writer = room_of(rt, alloc, 512);
    let source = Pieces::new(bytes_of(rt, alloc, &[OPTIONS]), 1, Some(number));
    let answer = blocks_json_to(alloc, source, Tail::Refuse, &mut writer);
    let fault = Fault::Read {
        file: 1,
        offset: 44,
    };
    same!(rt; (answer, writer.bytes()), (Err(fault), FIRST_LINE.as_bytes()));
}

// A writer that fails after that many bytes holds a prefix of the lines.
fn stops(rt: &impl Abort, alloc: Global, size: usize) {
    let mut writer = room_of(rt, alloc, size);
    let source = reader_of(rt, alloc, &[OPTIONS], 4096);
    let answer = blocks_json_to(alloc, source, Tail::Refuse, &mut writer);
    let wanted = OPTIONS_LINES.as_bytes();
    let wanted_answer = if size < wanted.len() {
        Err(Fault::Write)
    } else {
        Ok(())
    };
    same!(rt; (answer, Some(writer.bytes())), (wanted_answer, wanted.get(..size)));
}

#[test]
fn always_memory_a_device_fails_between_blocks_of_json(rt: HostRuntime) {
    for number in 45..=96 {
        fails(&rt, rt.alloc(), number);
    }
    for size in 0..=OPTIONS_LINES.len() {
        stops(&rt, rt.alloc(), size);
    }
}
