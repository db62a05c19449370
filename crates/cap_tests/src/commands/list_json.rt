//! Lines of packets in JSON: values from the formats and from RFC 8259.
ghost use Rattle.std.specs.Prelude.{◌≤◌};

use crate::checks::same;
use crate::commands::answer_of_file;
use crate::files::{bytes_of, reader_of, room_of};
use crate::hex_vectors::{CARRY_PCAP, CUT_PCAP, ETHERNET, File};
use cap_bytes::{Fault, Pieces, Rule, Tail};
use cap_commands::list_json_to;
use std::alloc::Global;
use std::process::Abort;

// A file, the most bytes of a packet that are shown, the parts of its lines, and how it ends: where and why it is
// refused.
type Row = (File, u32, &'static [&'static str], Result<(), (u64, Rule)>);

// The record of a packet of 220 bytes, at 2 seconds and 500,000 millionths; and its bytes, which count up from 0: the
// first 200, and the others.
const LONG: &str = "0200000020a10700dc000000dc000000";

const FRONT: &str =
    "000102030405060708090a0b0c0d0e0f101112131415161718191a1b1c1d1e1f202122232425262728292a2b2c2d2e2f3031\
    32333435363738393a3b3c3d3e3f404142434445464748494a4b4c4d4e4f505152535455565758595a5b5c5d5e5f60616263\
    6465666768696a6b6c6d6e6f707172737475767778797a7b7c7d7e7f808182838485868788898a8b8c8d8e8f909192939495\
    969798999a9b9c9d9e9fa0a1a2a3a4a5a6a7a8a9aaabacadaeafb0b1b2b3b4b5b6b7b8b9babbbcbdbebfc0c1c2c3c4c5c6c7";

const BACK: &str = "c8c9cacbcccdcecfd0d1d2d3d4d5d6d7d8d9dadb";

// The parts of lines, up to the digits of their bytes, and what follows these.
const PACKET: &str = r#"{"type":"packet","n":1,"offset":24,"time":[2,500000,1000000],"#;

const LONG_DATA: &str = r#""captured":220,"original":220,"link":1,"data":""#;

const DATA: &str = r#""captured":4,"original":4,"link":1,"data":""#;

const END: &str = "\"}\n";

// A packet of 4 bytes, at 2 seconds and 500,000 millionths, twice: the second record is bytes 44 to 63.
const TWICE: File = &[
    ETHERNET,
    "0200000020a107000400000004000000",
    "01020304",
    "0200000020a107000400000004000000",
    "01020304",
];

// A section and its interface, of which a simple packet has 4 bytes at most.
const SNAPLEN_4: &str = "0a0d0d0a1c0000004d3c2b1a01000000ffffffffffffffff1c000000\
    0100000014000000010000000400000014000000";

// One second before 1970-01-01, and a half; and a section in the other order, of link type 101.
const BEFORE: &str = "0a0d0d0a1c0000004d3c2b1a01000000ffffffffffffffff1c000000\
    01000000200000000100000000000400\
    0e000800ffffffffffffffff20000000\
    0600000024000000000000000000000020a1070004000000040000000102030424000000";

const BIG: &str = "0a0d0d0a0000001c1a2b3c4d00010000ffffffffffffffff0000001c\
    0000000100000014006500000004000000000014\
    00000006000000240000000000000000002625a000000004000000040102030400000024";

const LISTED: [Row; 12] = [
    (&[], 16, &[], Err((0, Rule::Cut))),
    (&[ETHERNET], 16, &[], Ok(())),
    (CARRY_PCAP, 16, &[PACKET, DATA, "01020304", END], Ok(())),
    (CARRY_PCAP, 4, &[PACKET, DATA, "01020304", END], Ok(())),
    (CARRY_PCAP, 3, &[PACKET, DATA, "010203", END], Ok(())),
    (CARRY_PCAP, 0, &[PACKET, DATA, END], Ok(())),
    (CUT_PCAP, 16, &[], Err((24, Rule::Cut))),
    // simple packets, which have no time: of 10 bytes, and of none
    (
        &[
            SNAPLEN_4,
            "03000000140000000a0000000102030414000000",
            "03000000100000000000000010000000",
        ],
        262_144,
        &[
            r#"{"type":"packet","n":1,"offset":48,"time":null,"captured":4,"original":10,"#,
            r#""link":1,"data":"01020304"}"#,
            "\n",
            r#"{"type":"packet","n":2,"offset":68,"time":null,"captured":0,"original":0,"#,
            r#""link":1,"data":""}"#,
            "\n",
        ],
        Ok(()),
    ),
    (
        &[BEFORE, BIG],
        16,
        &[
            r#"{"type":"packet","n":1,"offset":60,"time":[-1,500000,1000000],"#,
            DATA,
            "01020304",
            END,
            r#"{"type":"packet","n":2,"offset":144,"time":[2,500000,1000000],"#,
            r#""captured":4,"original":4,"link":101,"data":"01020304"}"#,
            "\n",
        ],
        Ok(()),
    ),
    (
        &[ETHERNET, LONG, FRONT, BACK],
        262_144,
        &[PACKET, LONG_DATA, FRONT, BACK, END],
        Ok(()),
    ),
    (
        &[ETHERNET, LONG, FRONT, BACK],
        201,
        &[PACKET, LONG_DATA, FRONT, "c8", END],
        Ok(()),
    ),
    (
        &[ETHERNET, LONG, FRONT, BACK],
        200,
        &[PACKET, LONG_DATA, FRONT, END],
        Ok(()),
    ),
];

// Some parts of a text, one after the other.
fn text_of(rt: &impl Abort, alloc: Global, parts: &[&str]) -> Vec<u8> {
    let mut text = Vec::new(alloc);
    for part in parts {
        text.extend_from_slice(part.as_bytes()).expect(rt, "memory");
    }
    text
}

// What is listed and answered of a file that is given by `piece` bytes at a time.
fn lists(rt: &impl Abort, alloc: Global, row: &Row, piece: usize)
    requires { 1 ≤ piece }
{
    let (file, shown, lines, ending) = *row;
    let wanted = text_of(rt, alloc, lines);
    let mut writer = room_of(rt, alloc, 1024);
    let source = reader_of(rt, alloc, file, piece);
    let answer = list_json_to(alloc, source, Tail::Refuse, shown, &mut writer);
    same!(rt; (answer, writer.bytes()), (answer_of_file(ending), wanted.as_slice()), lines);
}

#[test]
fn always_memory_packets_are_listed_in_json(rt: HostRuntime) {
    for row in &LISTED {
        for piece in [1, 4096] {
            lists(&rt, rt.alloc(), row, piece);
        }
    }
}

// A writer that fails after that many bytes holds a prefix of the lines.
fn stops(rt: &impl Abort, alloc: Global, wanted: &[u8], size: usize) {
    let mut writer = room_of(rt, alloc, size);
    let source = reader_of(rt, alloc, &[ETHERNET, LONG, FRONT, BACK], 4096);
    let answer = list_json_to(alloc, source, Tail::Refuse, 262_144, &mut writer);
    let wanted_answer = if size < wanted.len() {
        Err(Fault::Write)
    } else {
        Ok(())
    };
    same!(rt; (answer, Some(writer.bytes())), (wanted_answer, wanted.get(..size)));
}

#[test]
fn always_memory_a_writer_fails_in_a_line_of_json(rt: HostRuntime) {
    let wanted = text_of(&rt, rt.alloc(), &[PACKET, LONG_DATA, FRONT, BACK, END]);
    for size in 0..=wanted.len() {
        stops(&rt, rt.alloc(), wanted.as_slice(), size);
    }
}

// A read of that number, by one byte a read, fails in the second record: the first packet's line is written.
fn fails(rt: &impl Abort, alloc: Global, wanted: &[u8], number: u64) {
    let mut writer = room_of(rt, alloc, 512);
    let source = Pieces::new(bytes_of(rt, alloc, TWICE), 1, Some(number));
    let answer = list_json_to(alloc, source, Tail::Refuse, 16, &mut writer);
    let fault = Fault::Read {
        file: 1,
        offset: 44,
    };
    same!(rt; (answer, writer.bytes()), (Err(fault), wanted));
}

#[test]
fn always_memory_a_read_fails_between_lines_of_json(rt: HostRuntime) {
    let wanted = text_of(&rt, rt.alloc(), &[PACKET, DATA, "01020304", END]);
    for number in 45..=64 {
        fails(&rt, rt.alloc(), wanted.as_slice(), number);
    }
}
