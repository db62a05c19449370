//! The blocks of whole pcapng files, by one byte a read and by many. The files and what they give are worked out by
//! hand from draft-ietf-opsawg-pcapng.
ghost use Rattle.std.specs.Prelude.{◌≤◌, ◌^◌};
ghost use Rattle.cap_blocks.specs.inner.Parsing.{IsHeader};

use crate::checks::{holds, same};
use crate::vectors::{CARRY_PCAPNG, OPTIONS_PCAPNG, refused};
use cap_blocks::{
    Block, BlockReader, Options, PacketFields, body_rule, find_block_header, is_known, is_section,
    put_interface, put_packet, put_section,
};
use cap_bytes::{CutRest, Device, Order, Pieces, Room, Rule, Sink, Source, Tail, Window};
use cap_time::{Interface, Resolution};
use std::alloc::Global;
use std::cmp::max;
use std::process::Abort;

// A little-endian section and a big-endian one, each of 28, 20 and 36 bytes.
const TWO_SECTIONS: [u8; 168] = [
    0x0a, 0x0d, 0x0d, 0x0a, 0x1c, 0, 0, 0, 0x4d, 0x3c, 0x2b, 0x1a, 1, 0, 0, 0, //
    0xff, 0xff, 0xff, 0xff, 0xff, 0xff, 0xff, 0xff, 0x1c, 0, 0, 0, 1, 0, 0, 0, //
    0x14, 0, 0, 0, 1, 0, 0, 0, 0, 0, 0, 0, 0x14, 0, 0, 0, //
    6, 0, 0, 0, 0x24, 0, 0, 0, 0, 0, 0, 0, 0, 0, 0, 0, //
    1, 0, 0, 0, 4, 0, 0, 0, 4, 0, 0, 0, 1, 2, 3, 4, //
    0x24, 0, 0, 0, 0x0a, 0x0d, 0x0d, 0x0a, 0, 0, 0, 0x1c, 0x1a, 0x2b, 0x3c, 0x4d, //
    0, 1, 0, 0, 0xff, 0xff, 0xff, 0xff, 0xff, 0xff, 0xff, 0xff, 0, 0, 0, 0x1c, //
    0, 0, 0, 1, 0, 0, 0, 0x14, 0, 0x65, 0, 0, 0, 0, 0, 0, //
    0, 0, 0, 0x14, 0, 0, 0, 6, 0, 0, 0, 0x24, 0, 0, 0, 0, //
    0, 0, 0, 0, 0, 0, 0, 1, 0, 0, 0, 4, 0, 0, 0, 4, //
    1, 2, 3, 4, 0, 0, 0, 0x24, //
];

// A big-endian interface of link 101 that counts 1,024ths of a second from second -1 on.
const OFFSET_INTERFACE: [u8; 44] = [
    0, 0, 0, 1, 0, 0, 0, 0x2c, 0, 0x65, 0, 0, 0, 0, 0, 0, //
    0, 9, 0, 1, 0x8a, 0, 0, 0, 0, 0x0e, 0, 8, 0xff, 0xff, 0xff, 0xff, //
    0xff, 0xff, 0xff, 0xff, 0, 0, 0, 0, 0, 0, 0, 0x2c, //
];

// A big-endian packet of 5 of 9 bytes on interface 1.
const PADDED_PACKET: [u8; 40] = [
    0, 0, 0, 6, 0, 0, 0, 0x28, 0, 0, 0, 1, 1, 2, 3, 4, //
    5, 6, 7, 8, 0, 0, 0, 5, 0, 0, 0, 9, 1, 2, 3, 4, //
    5, 0, 0, 0, 0, 0, 0, 0x28, //
];

const SECTION: u32 = 0x0A0D_0D0A;

// A block's kind, the offset where it begins, its length and its byte order.
type Row = (u32, u64, u32, Order);

// The blocks of OPTIONS_PCAPNG.
const OPTION_BLOCKS: [Row; 4] = [
    (SECTION, 0, 44, Order::Little),
    (1, 44, 52, Order::Little),
    (6, 96, 48, Order::Little),
    (5, 144, 24, Order::Little),
];

// The blocks of TWO_SECTIONS.
const SECTION_BLOCKS: [Row; 6] = [
    (SECTION, 0, 28, Order::Little),
    (1, 28, 20, Order::Little),
    (6, 48, 36, Order::Little),
    (SECTION, 84, 28, Order::Big),
    (1, 112, 20, Order::Big),
    (6, 132, 36, Order::Big),
];

fn reader(
    rt: &impl Abort,
    alloc: Global,
    bytes: &[u8],
    piece: usize,
    tail: Tail,
) -> BlockReader<Pieces> {
    let bytes = bytes.to_vec(alloc).expect(rt, "memory");
    let pieces = Pieces::new(bytes, max(piece, 1), None);
    BlockReader::new(Window::new(alloc, pieces, 7), tail)
}

fn block(kind: u32, offset: u64, total: u32, order: Order) -> Block {
    Block {
        kind,
        offset,
        total,
        order,
    }
}

// Next comes that block, or the end.
fn comes<R: Source>(rt: &impl Abort, reader: &mut BlockReader<R>, block: Option<Block>) {
    same!(rt; reader.next_block(), Ok(block));
}

// Next come these blocks, and then the end, also if it is asked for again.
fn gives_blocks<R: Source>(rt: &impl Abort, reader: &mut BlockReader<R>, blocks: &[Row]) {
    for (kind, offset, total, order) in blocks {
        comes(rt, reader, Some(block(*kind, *offset, *total, *order)));
    }
    comes(rt, reader, None);
    comes(rt, reader, None);
}

// A file has these blocks, by one byte a read and by many, and that rest, if it was cut.
fn has_blocks(rt: &impl Abort, alloc: Global, file: &[u8], blocks: &[Row], cut: Option<CutRest>) {
    for &piece in &[1, 4_096] {
        let mut reader = reader(rt, alloc, file, piece, Tail::Accept);
        gives_blocks(rt, &mut reader, blocks);
        same!(rt; reader.cut(), cut);
        holds!(rt; !reader.window().failed());
    }
}

#[test]
fn always_memory_blocks_in_order(rt: HostRuntime) {
    has_blocks(&rt, rt.alloc(), &OPTIONS_PCAPNG, &OPTION_BLOCKS, None);
    let (cut, whole) = (OPTIONS_PCAPNG.split_at(167).0, OPTION_BLOCKS.split_at(3).0);
    has_blocks(
        &rt,
        rt.alloc(),
        cut,
        whole,
        Some(CutRest {
            offset: 144,
            size: 23,
        }),
    );
    has_blocks(&rt, rt.alloc(), &TWO_SECTIONS, &SECTION_BLOCKS, None);
}

// A block comes, and the window shows more.
fn gives_block<R: Source>(rt: &impl Abort, reader: &mut BlockReader<R>) {
    holds!(rt; matches!(reader.next_block(), Ok(Some(_))));
    holds!(rt; reader.window().has_buffered(8));
}

// The window shows a packet after two blocks, and then none.
fn shows_packet<R: Source>(rt: &impl Abort, reader: &mut BlockReader<R>) {
    same!(rt; reader.take_packet(), None);
    gives_block(rt, reader);
    gives_block(rt, reader);
    same!(rt; reader.take_packet(), Some(block(6, 96, 48, Order::Little)));
    same!(rt; reader.take_packet(), None);
    comes(rt, reader, Some(block(5, 144, 24, Order::Little)));
}

// The first bytes that are read bring a packet into the window, which shows it after the blocks before it.
#[test]
fn always_memory_a_shown_packet(rt: HostRuntime) {
    let mut reader = reader(&rt, rt.alloc(), &OPTIONS_PCAPNG, 4_096, Tail::Refuse);
    shows_packet(&rt, &mut reader);
}

// The bodies of the file's blocks are lent one by one.
fn lends_bodies<R: Source>(rt: &impl Abort, reader: &mut BlockReader<R>) {
    let mut rest = CARRY_PCAPNG.as_slice();
    for size in [16, 20, 24] {
        let Ok(Some(block)) = reader.next_block() else {
            break;
        };
        if !is_known(block.kind) || rest.len() < size + 12 {
            break;
        }
        same!(rt; reader.body(), rest.split_at(8).1.split_at(size).0);
        rest = rest.split_at(size + 12).1;
    }
    holds!(rt; rest.is_empty());
}

// The bodies are lent as they stand in the file.
#[test]
fn bodies(rt: HostRuntime) {
    holds!(&rt; is_section(&CARRY_PCAPNG));
    let mut reader = reader(&rt, rt.alloc(), &CARRY_PCAPNG, 1, Tail::Refuse);
    lends_bodies(&rt, &mut reader);
}

// The first block is refused, also if it is asked for again, and nothing was cut.
fn refuses_twice<R: Source>(rt: &impl Abort, reader: &mut BlockReader<R>, rule: Rule) {
    same!(rt; reader.next_block(), Err(refused(0, rule)));
    same!(rt; reader.next_block(), Err(refused(0, rule)));
    same!(rt; reader.cut(), None);
}

// A section of 24 bytes.
#[test]
fn a_refusal_comes_again(rt: HostRuntime) {
    let file = [0x0a, 0x0d, 0x0d, 0x0a, 24, 0, 0, 0, 0x4d, 0x3c, 0x2b, 0x1a];
    let mut reader = reader(&rt, rt.alloc(), &file, 1, Tail::Accept);
    refuses_twice(&rt, &mut reader, Rule::BlockLength);
}

fn interface(rt: &impl Abort, link: u16, snaplen: u32, code: u8, offset: i64) -> Interface {
    Interface {
        link,
        snaplen,
        resolution: Resolution::from_code(code).expect(rt, "a code that is read"),
        offset,
    }
}

// A writer into that many bytes.
fn room(rt: &impl Abort, alloc: Global, size: usize) -> Room {
    Room::new(Vec::with_capacity(alloc, size).expect(rt, "memory"))
}

// Writes what CARRY_PCAPNG has.
fn put_file<W: Sink>(rt: &impl Abort, writer: &mut W) {
    let interface = interface(rt, 1, 262_144, 6, 0);
    let fields = PacketFields {
        interface: 0,
        units: 2_500_000,
        original: 4,
    };
    same!(rt; put_section(writer, Order::Little), Ok(()));
    same!(rt; put_interface(writer, Order::Little, &interface), Ok(()));
    same!(rt; put_packet(writer, Order::Little, fields, &[1, 2, 3, 4]), Ok(()));
}

// Writes what PADDED_PACKET has.
fn put_padded<W: Sink>(rt: &impl Abort, writer: &mut W) {
    let fields = PacketFields {
        interface: 1,
        units: 0x0102_0304_0506_0708,
        original: 9,
    };
    same!(rt; put_packet(writer, Order::Big, fields, &[1, 2, 3, 4, 5]), Ok(()));
}

fn writes_file(rt: &impl Abort, alloc: Global) {
    let mut file = room(rt, alloc, 96);
    put_file(rt, &mut file);
    same!(rt; file.bytes(), CARRY_PCAPNG.as_slice());
}

fn writes_interface(rt: &impl Abort, alloc: Global) {
    let mut file = room(rt, alloc, 44);
    let interface = interface(rt, 101, 0, 0x8a, -1);
    same!(rt; put_interface(&mut file, Order::Big, &interface), Ok(()));
    same!(rt; file.bytes(), OFFSET_INTERFACE.as_slice());
}

fn writes_padded(rt: &impl Abort, alloc: Global) {
    let mut file = room(rt, alloc, 40);
    put_padded(rt, &mut file);
    same!(rt; file.bytes(), PADDED_PACKET.as_slice());
}

#[test]
fn written_blocks(rt: HostRuntime) {
    writes_file(&rt, rt.alloc());
    writes_interface(&rt, rt.alloc());
    writes_padded(&rt, rt.alloc());
}

// The options of the interface of OPTIONS_PCAPNG come, and then none, also if that is asked again.
fn gives_three(rt: &impl Abort, options: &mut Options<'_>) {
    same!(rt; options.next(), Some(Ok((2, b"eth0".as_slice()))));
    same!(rt; options.next(), Some(Ok((9, [6].as_slice()))));
    same!(rt; options.next(), Some(Ok((12, b"Linux".as_slice()))));
    same!(rt; options.next(), None);
    same!(rt; options.next(), None);
}

#[test]
fn options_in_order(rt: HostRuntime) {
    let (_, behind) = OPTIONS_PCAPNG.split_at(60);
    let (bytes, _) = behind.split_at(32);
    gives_three(&rt, &mut Options::new(Order::Little, bytes));
    let past = [0, 9, 0, 1, 6, 0, 0, 0, 0, 2, 0, 5, 1, 2, 3, 4];
    let mut options = Options::new(Order::Big, &past);
    same!(&rt; options.next(), Some(Ok((9, [6].as_slice()))));
    same!(&rt; options.next(), Some(Err(Rule::OptionEnd)));
    same!(&rt; options.next(), None);
}

// What is wrong with the rest of a block whose header stands at the front of those bytes.
fn rest_of(block: Block, bytes: &[u8]) -> Option<Rule>
    requires { IsHeader block block.offset bytes.now }
{
    if bytes.len() < block.total as usize {
        return Some(Rule::Cut);
    }
    body_rule(block, bytes)
}

// What is wrong with the block that stands at the front of those bytes, if anything is.
fn wrong_with(offset: u64, bytes: &[u8]) -> Option<Rule>
    requires { offset ≤ 2 ^ 40 }
{
    match find_block_header(Some(Order::Little), offset, bytes) {
        Ok(block) => rest_of(block, bytes),
        Err(rule) => Some(rule),
    }
}

// The interface block of OPTIONS_PCAPNG in bytes: whole, without the last of its first 12, and without the last of all.
#[test]
fn a_block_in_bytes(rt: HostRuntime) {
    let (kind, offset, total, order) = OPTION_BLOCKS[1];
    let block = Block {
        kind,
        offset,
        total,
        order,
    };
    let bytes = &OPTIONS_PCAPNG[44..96];
    same!(&rt; find_block_header(Some(order), 44, bytes), Ok(block));
    same!(&rt; wrong_with(44, bytes), None);
    same!(&rt; wrong_with(44, &bytes[..11]), Some(Rule::Cut));
    same!(&rt; wrong_with(44, &bytes[..51]), Some(Rule::Cut));
}
