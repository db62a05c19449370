//! The records of whole pcap files, by one byte a read and by many. The files and what they give are worked out by
//! hand from draft-ietf-opsawg-pcap.
ghost use Rattle.std.specs.Prelude.{◌≡◌, Some, IsSome};

use crate::checks::{holds, same};
use crate::vectors::{CARRY_PCAP, refused};
use cap_bytes::{CutRest, Device, Order, Pieces, Room, Rule, Sink, Source, Tail, Window};
use cap_pcap::{
    PcapHeader, PcapReader, Record, RecordTime, find_header, find_record, put_header, put_record,
};
use cap_time::Unit;
use std::alloc::Global;
use std::cmp::max;
use std::process::Abort;

// The packet of CARRY_PCAP as it is written, at 2 seconds and 500,000 microseconds.
const CARRIED: [u8; 44] = [
    0xd4, 0xc3, 0xb2, 0xa1, 2, 0, 4, 0, 0, 0, 0, 0, 0, 0, 0, 0, 0, 0, 4, 0, 1, 0, 0, 0, //
    2, 0, 0, 0, 0x20, 0xa1, 0x07, 0, 4, 0, 0, 0, 4, 0, 0, 0, 1, 2, 3, 4,
];

const BIG_MICRO: [u8; 44] = [
    0xa1, 0xb2, 0xc3, 0xd4, 0, 2, 0, 4, 0, 0, 0, 0, 0, 0, 0, 0, 0, 4, 0, 0, 0, 0, 0, 1, //
    0, 0, 0, 2, 0, 0x07, 0xa1, 0x20, 0, 0, 0, 4, 0, 0, 0, 4, 1, 2, 3, 4,
];

const LITTLE_NANO: [u8; 44] = [
    0x4d, 0x3c, 0xb2, 0xa1, 2, 0, 4, 0, 0, 0, 0, 0, 0, 0, 0, 0, 0, 0, 4, 0, 1, 0, 0, 0, //
    2, 0, 0, 0, 0, 0x65, 0xcd, 0x1d, 4, 0, 0, 0, 4, 0, 0, 0, 1, 2, 3, 4,
];

const BIG_NANO: [u8; 44] = [
    0xa1, 0xb2, 0x3c, 0x4d, 0, 2, 0, 4, 0, 0, 0, 0, 0, 0, 0, 0, 0, 4, 0, 0, 0, 0, 0, 1, //
    0, 0, 0, 2, 0x1d, 0xcd, 0x65, 0, 0, 0, 0, 4, 0, 0, 0, 4, 1, 2, 3, 4,
];

// Seconds 4,294,967,295 with a fraction of 1,500,000, in a file whose link word has high bits.
const LATE: [u8; 44] = [
    0xd4, 0xc3, 0xb2, 0xa1, 2, 0, 4, 0, 0, 0, 0, 0, 0, 0, 0, 0, 0, 0, 4, 0, 101, 0, 0, 0x14, //
    0xff, 0xff, 0xff, 0xff, 0x60, 0xe3, 0x16, 0, 4, 0, 0, 0, 9, 0, 0, 0, 1, 2, 3, 4,
];

fn reader(
    rt: &impl Abort,
    alloc: Global,
    bytes: &[u8],
    piece: usize,
    tail: Tail,
) -> PcapReader<Pieces> {
    let bytes = bytes.to_vec(alloc).expect(rt, "memory");
    let pieces = Pieces::new(bytes, max(piece, 1), None);
    PcapReader::new(Window::new(alloc, pieces, 7), tail)
}

fn header(order: Order, unit: Unit, link: u16) -> PcapHeader {
    PcapHeader {
        order,
        unit,
        snaplen: 262_144,
        link,
    }
}

fn record(offset: u64, units: u64, captured: u32, original: u32) -> Record {
    Record {
        offset,
        units,
        captured,
        original,
    }
}

// A file with one packet of 4 bytes: its order, unit and link, and the packet's units and length.
type Spelling = ([u8; 44], Order, Unit, u16, u64, u32);

const SPELLINGS: [Spelling; 6] = [
    (CARRY_PCAP, Order::Little, Unit::Micro, 1, 2_500_000, 4),
    (CARRIED, Order::Little, Unit::Micro, 1, 2_500_000, 4),
    (BIG_MICRO, Order::Big, Unit::Micro, 1, 2_500_000, 4),
    (LITTLE_NANO, Order::Little, Unit::Nano, 1, 2_500_000_000, 4),
    (BIG_NANO, Order::Big, Unit::Nano, 1, 2_500_000_000, 4),
    (
        LATE,
        Order::Little,
        Unit::Micro,
        101,
        4_294_967_296_500_000,
        9,
    ),
];

// The header comes, the one record, and the header again.
fn gives_one<R: Source>(
    rt: &impl Abort,
    reader: &mut PcapReader<R>,
    header: PcapHeader,
    record: Record,
)
    ensures known { IsSome reader.new.known }
{
    same!(rt; reader.header(), Ok(header));
    same!(rt; reader.next_record(), Ok(Some(record)));
    same!(rt; reader.header(), Ok(header));
}

// No record comes.
fn ends<R: Source>(rt: &impl Abort, reader: &mut PcapReader<R>)
    requires { IsSome reader.old.known }
    ensures known { reader.new.known ≡ reader.old.known }
{
    same!(rt; reader.next_record(), Ok(None));
}

// The end comes, also if it is asked for again, and nothing was cut.
fn gives_end<R: Source>(rt: &impl Abort, reader: &mut PcapReader<R>)
    requires { IsSome reader.old.known }
{
    ends(rt, reader);
    ends(rt, reader);
    same!(rt; reader.cut(), None);
}

// One packet comes, and then the end.
fn gives_file<R: Source>(
    rt: &impl Abort,
    reader: &mut PcapReader<R>,
    header: PcapHeader,
    record: Record,
) {
    gives_one(rt, reader, header, record);
    gives_end(rt, reader);
}

// The file is read as its row says, by one byte a read and by many.
fn is_spelled(rt: &impl Abort, alloc: Global, spelling: &Spelling) {
    let (bytes, order, unit, link, units, original) = spelling;
    let header = header(*order, *unit, *link);
    let record = record(24, *units, 4, *original);
    for &piece in &[1, 4_096] {
        let mut reader = reader(rt, alloc, bytes, piece, Tail::Refuse);
        gives_file(rt, &mut reader, header, record);
    }
}

#[test]
fn always_memory_six_spellings(rt: HostRuntime) {
    for spelling in &SPELLINGS {
        is_spelled(&rt, rt.alloc(), spelling);
    }
}

// CARRY_PCAP with a second record, of 2 of 60 bytes.
fn two_records(rt: &impl Abort, alloc: Global) -> Vec<u8> {
    let mut bytes = CARRY_PCAP.to_vec(alloc).expect(rt, "memory");
    let second = [3, 0, 0, 0, 5, 0, 0, 0, 2, 0, 0, 0, 60, 0, 0, 0, 0xfe, 0xff];
    bytes.extend_from_slice(&second).expect(rt, "memory");
    bytes
}

// A record comes next, with those bytes.
fn gives<R: Source>(rt: &impl Abort, reader: &mut PcapReader<R>, record: Record, frame: &[u8])
    requires { IsSome reader.old.known }
    ensures known { reader.new.known ≡ reader.old.known }
{
    same!(rt; reader.next_record(), Ok(Some(record)));
    same!(rt; reader.frame(), frame);
}

// Both records come, and then the end before a rest that is cut.
fn gives_two<R: Source>(rt: &impl Abort, reader: &mut PcapReader<R>) {
    reader.header().expect(rt, "the header");
    gives(rt, reader, record(24, 2_500_000, 4, 4), &[1, 2, 3, 4]);
    gives(rt, reader, record(44, 3_000_005, 2, 60), &[0xfe, 0xff]);
    ends(rt, reader);
    same!(rt; reader.cut(), Some(CutRest { offset: 62, size: 12 }));
}

// Two records, and the first 12 bytes of a third.
#[test]
fn records_in_order(rt: HostRuntime) {
    let mut bytes = two_records(&rt, rt.alloc());
    bytes
        .extend_from_slice(CARRIED.split_at(12).0)
        .expect(&rt, "memory");
    for &piece in &[1, 4_096] {
        let mut reader = reader(&rt, rt.alloc(), &bytes, piece, Tail::Accept);
        gives_two(&rt, &mut reader);
    }
}

// The header is known once it was asked for.
fn tells_header<R: Source>(rt: &impl Abort, reader: &mut PcapReader<R>) -> PcapHeader
    ensures known { reader.new.known ≡ Some result }
{
    same!(rt; reader.known(), None);
    let header = reader.header().expect(rt, "the header");
    same!(rt; reader.known(), Some(header));
    header
}

// Both records are shown.
fn shows_two<R: Source>(rt: &impl Abort, reader: &mut PcapReader<R>, header: PcapHeader)
    requires { reader.old.known ≡ Some header }
    ensures known { reader.new.known ≡ reader.old.known }
{
    same!(rt; reader.try_next_buffered(header), Some(record(24, 2_500_000, 4, 4)));
    same!(rt; reader.frame(), [1, 2, 3, 4].as_slice());
    same!(rt; reader.try_next_buffered(header), Some(record(44, 3_000_005, 2, 60)));
}

// Both records are shown, and then none, and none comes.
fn shows_all<R: Source>(rt: &impl Abort, reader: &mut PcapReader<R>) {
    let header = tells_header(rt, reader);
    shows_two(rt, reader, header);
    same!(rt; reader.try_next_buffered(header), None);
    ends(rt, reader);
}

// The first bytes that are read bring two records into the window, which shows them then.
#[test]
fn always_memory_shown_records(rt: HostRuntime) {
    let bytes = two_records(&rt, rt.alloc());
    let mut reader = reader(&rt, rt.alloc(), &bytes, 4_096, Tail::Refuse);
    shows_all(&rt, &mut reader);
}

// Files whose header is refused, and the rule: cut, of another format, and of another version.
const REFUSED: [(&[u8], Rule); 4] = [
    (&[], Rule::Cut),
    (&[0; 4], Rule::Magic),
    (&[0x0a, 0x0d, 0x0d, 0x0a], Rule::Magic),
    (
        &[
            0xd4, 0xc3, 0xb2, 0xa1, 2, 0, 3, 0, 0, 0, 0, 0, 0, 0, 0, 0, 0, 0, 4, 0, 1, 0, 0, 0,
        ],
        Rule::Version,
    ),
];

// The header is refused, also if it is asked for again, and nothing was cut.
fn refuses<R: Source>(rt: &impl Abort, reader: &mut PcapReader<R>, rule: Rule) {
    same!(rt; reader.header(), Err(refused(0, rule)));
    same!(rt; reader.header(), Err(refused(0, rule)));
    same!(rt; reader.cut(), None);
}

#[test]
fn refused_files(rt: HostRuntime) {
    for &(bytes, rule) in &REFUSED {
        let mut reader = reader(&rt, rt.alloc(), bytes, 1, Tail::Accept);
        refuses(&rt, &mut reader, rule);
    }
}

// Writes a file of one packet, at 2 seconds and a fraction.
fn put_file<W: Sink>(rt: &impl Abort, writer: &mut W, header: PcapHeader, fraction: u32) {
    let time = RecordTime {
        seconds: 2,
        fraction,
    };
    same!(rt; put_header(writer, &header), Ok(()));
    same!(rt; put_record(writer, header.order, time, 4, &[1, 2, 3, 4]), Ok(()));
}

// What is written, and with which order, unit and fraction.
const WRITTEN: [([u8; 44], Order, Unit, u32); 4] = [
    (CARRIED, Order::Little, Unit::Micro, 500_000),
    (BIG_MICRO, Order::Big, Unit::Micro, 500_000),
    (LITTLE_NANO, Order::Little, Unit::Nano, 500_000_000),
    (BIG_NANO, Order::Big, Unit::Nano, 500_000_000),
];

#[test]
fn written_files(rt: HostRuntime) {
    for (bytes, order, unit, fraction) in &WRITTEN {
        let mut room = Room::new(Vec::with_capacity(rt.alloc(), 44).expect(&rt, "memory"));
        put_file(&rt, &mut room, header(*order, *unit, 1), *fraction);
        same!(&rt; room.bytes(), bytes.as_slice());
    }
}

// The header and the record of CARRY_PCAP in bytes, and each without its last byte.
#[test]
fn a_header_and_a_record_in_bytes(rt: HostRuntime) {
    let header = header(Order::Little, Unit::Micro, 1);
    same!(&rt; find_header(0, &CARRY_PCAP), Ok(header));
    same!(&rt; find_header(0, &CARRY_PCAP[..23]), Err(Rule::Cut));
    let record = Record {
        offset: 24,
        units: 2_500_000,
        captured: 4,
        original: 4,
    };
    same!(&rt; find_record(header, 24, &CARRY_PCAP[24..]), Ok(record));
    same!(&rt; find_record(header, 24, &CARRY_PCAP[24..43]), Err(Rule::Cut));
}
