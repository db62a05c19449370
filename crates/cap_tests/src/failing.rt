//! Writers that fail after any number of bytes, and readers of which a read of any number fails.
ghost use Rattle.std.specs.Prelude.{◌≤◌};

use crate::checks::{holds, same};
use crate::files::{bytes_of, merged_of, pair_of, reader_of, room_of, sources_of};
use crate::hex_vectors::{
    CARRY_PCAP, CARRY_PCAPNG, ETHERNET, FRAGMENT_FRAMES, File, HEADER_ONLY, INTERFACE,
    OPTIONS_PCAPNG, PACKET, RUNS_BACK, RUNS_ON, SECTION, TAGGED_FRAMES,
};
use crate::report::TAGGED_REPORT;
use cap_blocks::{PacketFields, put_interface, put_packet, put_section};
use cap_bytes::{Fault, Order, Pieces, Sink, Source, Tail, Tracked};
use cap_check::{CheckLine, check_all_to};
use cap_commands::{OutputFormat, blocks_to, convert_to, diff_to, join_to, list_to, merge_to};
use cap_line::Task;
use cap_pcap::{PcapHeader, RecordTime, put_header, put_record};
use cap_print::{Form, TimeForm};
use cap_source::{Capture, PacketFeed};
use cap_talks::{file_lines, report};
use cap_time::{Interface, Resolution, Unit};
use std::alloc::Global;
use std::io;
use std::io::Write;
use std::process::Abort;

const LINE: &str =
    "packet 1 offset 24 time 2+500000/1000000 captured 4 original 4 link 1 data 01020304\n";

const BLOCK_LINES: &str = "block 1 offset 0 order little kind 0a0d0d0a total 44\n\
    block 2 offset 44 order little kind 00000001 total 52\n\
    block 3 offset 96 order little kind 00000006 total 48\n\
    block 4 offset 144 order little kind 00000005 total 24\n";

// A capture without packets, and how one of a packet differs from it.
const ETHERNET_ALONE: File = &[ETHERNET];

const END_LINES: &str = "differ packet 1 end\n\
    - packet 1 offset 24 time 2+500000/1000000 captured 4 original 4 link 1 data 01020304\n\
    + end\n";

const DIGEST_LINES: &str = "digest 1 sha256 \
    ae7312267c797be18247384507fd1956f2af9397397bd84f72a62298f1352b4e packets 1\n\
    digest 2 sha256 \
    e3b0c44298fc1c149afbf4c8996fb92427ae41e4649b934ca495991b7852b855 packets 0\n";

const CHECK_LINES: &str = "check 1 pcap packets 2 bytes 0 first 1+0/1000000 last 5+0/1000000 \
    backward 1 untimed 0 truncated 0 skipped 0 interfaces 1 whole\n\
    check 2 pcap packets 0 bytes 0 first - last - \
    backward 0 untimed 0 truncated 0 skipped 0 interfaces 1 whole\n";

const FILE_LINES: &str = "files 2\n\
    file 1 pcap packets 2 bytes 0 truncated 0 skipped 0 first 1+0/1000000 last 5+0/1000000\n\
    file 2 pcapng packets 1 bytes 4 truncated 0 skipped 1 first 2+500000/1000000 last 2+500000/1000000\n";

// The packets without bytes at 2, 5, 1 and 5 seconds, of files 2, 1, 1 and 2.
const BY_CLOCK: File = &[
    SECTION,
    INTERFACE,
    "0600000020000000000000000000000080841e00000000000000000020000000",
    INTERFACE,
    "06000000200000000100000000000000404b4c00000000000000000020000000",
    "0600000020000000010000000000000040420f00000000000000000020000000",
    "06000000200000000000000000000000404b4c00000000000000000020000000",
];

// The datagram of FRAGMENT_FRAMES.
const JOINED: File = &[
    SECTION,
    "0100000020000000650000000000000009000100060000000000000020000000",
    "060000004c000000000000000000000000093d002c0000002c000000\
    4500002c00070000401166b80a0000010a000002\
    03e907d100180000a0a1a2a3a4a5a6a7b0b1b2b3b4b5b6b74c000000",
];

// What a call answers that writes.
fn call<R: Source, W: Sink>(
    rt: &impl Abort,
    alloc: Global,
    task: Task,
    mut sources: Vec<R>,
    writer: &mut W,
) -> Result<(), Fault> {
    holds!(rt; !sources.is_empty());
    holds!(rt; sources.len() <= 32);
    let (tail, order) = (Tail::Refuse, Order::Little);
    match task {
        Task::List => list_to(alloc, sources.remove(0), tail, writer),
        Task::Blocks => blocks_to(alloc, sources.remove(0), tail, writer),
        Task::Diff => {
            holds!(rt; sources.len() == 2);
            let second = sources.remove(1);
            diff_to(alloc, sources.remove(0), second, tail, writer).map(|_| ())
        }
        Task::Digest => {
            let which = CheckLine::Digest;
            check_all_to(
                alloc,
                sources,
                tail,
                which,
                Form::Text(TimeForm::Exact),
                writer,
            )
            .map(|_| ())
        }
        Task::Check => {
            let which = CheckLine::Counts;
            check_all_to(
                alloc,
                sources,
                tail,
                which,
                Form::Text(TimeForm::Exact),
                writer,
            )
            .map(|_| ())
        }
        Task::Info => file_lines(alloc, sources, tail, writer),
        Task::Report => report(alloc, sources, tail, writer),
        Task::Convert => {
            let source = sources.remove(0);
            convert_to(alloc, source, tail, order, OutputFormat::Pcapng, writer)
        }
        Task::Merge => merge_to(alloc, sources, tail, order, writer),
        Task::Join => join_to(alloc, sources, tail, order, writer),
    }
}

// A writer of the standard library that takes 0 bytes once it has taken as many as were left.
#[derive(Drop)]
struct Disk {
    taken: Vec<u8>,
    left: usize,
}

impl Write for Disk {
    fn write(&mut self, bytes: &[u8]) -> io::Result<usize> {
        let count = bytes.len().min(self.left);
        let (front, _) = bytes.split_at(count);
        self.taken.extend_from_slice(front)?;
        self.left -= count;
        Ok(count)
    }

    fn flush(&mut self) -> io::Result<()> {
        Ok(())
    }
}

// What is answered and written is `Write` and a prefix of the text of that many bytes, or all of it.
fn is_front(
    rt: &impl Abort,
    answer: Result<(), Fault>,
    written: &[u8],
    wanted: &[u8],
    taken: usize,
) {
    let wanted_answer = if taken < wanted.len() {
        Err(Fault::Write)
    } else {
        Ok(())
    };
    same!(rt; (answer, Some(written)), (wanted_answer, wanted.get(..taken)));
}

// A call over a room of that many bytes.
fn fills_room(rt: &impl Abort, alloc: Global, row: Row, wanted: &[u8], size: usize) {
    let (task, files) = row;
    let mut room = room_of(rt, alloc, size);
    let sources = sources_of(rt, alloc, files, 4_096);
    let answer = call(rt, alloc, task, sources, &mut room);
    is_front(rt, answer, room.bytes(), wanted, size);
}

// A call over a disk that takes that many bytes, and then none.
fn fills_disk(rt: &impl Abort, alloc: Global, row: Row, wanted: &[u8], size: usize) {
    let (task, files) = row;
    let mut disk = Tracked::new(Disk {
        taken: Vec::new(alloc),
        left: size,
    });
    let sources = sources_of(rt, alloc, files, 4_096);
    let answer = call(rt, alloc, task, sources, &mut disk);
    is_front(rt, answer, disk.into_inner().taken.as_slice(), wanted, size);
}

// A call with its files.
type Row = (Task, &'static [File]);

// A call over writers that fail after each number of bytes of its text, and over one that takes it all.
fn fails_after_each_byte(rt: &impl Abort, alloc: Global, row: Row, wanted: &[u8]) {
    for size in 0..=wanted.len() {
        fills_room(rt, alloc, row, wanted, size);
        fills_disk(rt, alloc, row, wanted, size);
    }
}

const PRINTED: [(Row, &str); 8] = [
    ((Task::List, &[CARRY_PCAP]), LINE),
    ((Task::Blocks, &[OPTIONS_PCAPNG]), BLOCK_LINES),
    (
        (Task::Diff, &[CARRY_PCAP, CARRY_PCAPNG]),
        "same packets 1\n",
    ),
    ((Task::Diff, &[CARRY_PCAP, ETHERNET_ALONE]), END_LINES),
    ((Task::Digest, &[CARRY_PCAP, HEADER_ONLY]), DIGEST_LINES),
    ((Task::Check, &[RUNS_BACK, HEADER_ONLY]), CHECK_LINES),
    ((Task::Info, &[RUNS_BACK, OPTIONS_PCAPNG]), FILE_LINES),
    ((Task::Report, &[TAGGED_FRAMES]), TAGGED_REPORT),
];

#[test]
fn a_text_stops_where_its_writer_fails(rt: HostRuntime) {
    for (row, wanted) in &PRINTED {
        fails_after_each_byte(&rt, rt.alloc(), *row, wanted.as_bytes());
    }
}

const WRITTEN: [(Row, File); 3] = [
    ((Task::Convert, &[CARRY_PCAP]), CARRY_PCAPNG),
    ((Task::Merge, &[RUNS_BACK, RUNS_ON]), BY_CLOCK),
    ((Task::Join, &[FRAGMENT_FRAMES]), JOINED),
];

#[test]
fn a_capture_stops_where_its_writer_fails(rt: HostRuntime) {
    for (row, wanted) in &WRITTEN {
        let wanted = bytes_of(&rt, rt.alloc(), *wanted);
        fails_after_each_byte(&rt, rt.alloc(), *row, wanted.as_slice());
    }
}

// A piece of a capture that one call writes.
#[derive(Clone, Copy, Debug)]
enum Piece {
    Header,
    Record,
    Section,
    Interface,
    Packet,
}

// The interface that INTERFACE describes.
fn interface(rt: &impl Abort) -> Interface {
    Interface {
        link: 1,
        snaplen: 262_144,
        resolution: Resolution::from_code(6).expect(rt, "a code that is read"),
        offset: 0,
    }
}

// What the call of a piece answers.
fn put<W: Sink>(rt: &impl Abort, piece: Piece, writer: &mut W) -> Result<(), Fault> {
    let order = Order::Little;
    match piece {
        Piece::Header => {
            let header = PcapHeader {
                order,
                unit: Unit::Micro,
                snaplen: 262_144,
                link: 1,
            };
            put_header(writer, &header)
        }
        Piece::Record => {
            let time = RecordTime {
                seconds: 2,
                fraction: 500_000,
            };
            put_record(writer, order, time, 4, &[1, 2, 3, 4])
        }
        Piece::Section => put_section(writer, order),
        Piece::Interface => put_interface(writer, order, &interface(rt)),
        Piece::Packet => {
            let fields = PacketFields {
                interface: 0,
                units: 2_500_000,
                original: 4,
            };
            put_packet(writer, order, fields, &[1, 2, 3, 4])
        }
    }
}

const PIECES: [(Piece, &str); 5] = [
    (Piece::Header, ETHERNET),
    (Piece::Record, "0200000020a10700040000000400000001020304"),
    (Piece::Section, SECTION),
    (Piece::Interface, INTERFACE),
    (Piece::Packet, PACKET),
];

// A piece over a room of each number of bytes up to its own.
fn fills_rooms(rt: &impl Abort, alloc: Global, piece: Piece, wanted: &[u8]) {
    for size in 0..=wanted.len() {
        let mut room = room_of(rt, alloc, size);
        let answer = put(rt, piece, &mut room);
        is_front(rt, answer, room.bytes(), wanted, size);
    }
}

#[test]
fn a_piece_stops_where_its_writer_is_full(rt: HostRuntime) {
    for (piece, wanted) in &PIECES {
        let wanted = bytes_of(&rt, rt.alloc(), &[*wanted]);
        fills_rooms(&rt, rt.alloc(), *piece, wanted.as_slice());
    }
}

// The fault that comes of a feed of at most four packets.
fn fault_of<F: PacketFeed>(feed: &mut F) -> Option<Fault> {
    for _ in 0..4 {
        match feed.peek() {
            Ok(true) => feed.pass(),
            Ok(false) => return None,
            Err(fault) => return Some(fault),
        }
    }
    None
}

// A feed comes to a fault, and answers it again.
fn fails_again<F: PacketFeed>(rt: &impl Abort, mut feed: F, fault: Fault) {
    same!(rt; fault_of(&mut feed), Some(fault));
    same!(rt; feed.head(), Err(fault));
}

// OPTIONS_PCAPNG by one byte a read, of which the read of that number fails.
fn failing(rt: &impl Abort, alloc: Global, number: u64) -> Pieces {
    Pieces::new(bytes_of(rt, alloc, OPTIONS_PCAPNG), 1, Some(number))
}

// Where a read fails that many bytes into OPTIONS_PCAPNG: in the block that begins there last, or at its end.
fn offset_at(read: u64) -> u64 {
    let mut offset = 0;
    for begins in [44, 96, 144, 168] {
        if begins <= read {
            offset = begins;
        }
    }
    offset
}

#[test]
fn each_read_that_fails_is_told_where_it_is_and_again(rt: HostRuntime) {
    for number in 1..170 {
        let offset = offset_at(number - 1);
        let capture = Capture::new(
            rt.alloc(),
            failing(&rt, rt.alloc(), number),
            1,
            Tail::Refuse,
        );
        fails_again(&rt, capture, Fault::Read { file: 1, offset });
    }
}

#[test]
fn each_read_that_fails_of_a_merge_is_told_where_it_is_and_again(rt: HostRuntime) {
    for number in 1..170 {
        let offset = offset_at(number - 1);
        let whole = reader_of(&rt, rt.alloc(), CARRY_PCAP, 1);
        let sources = pair_of(&rt, rt.alloc(), whole, failing(&rt, rt.alloc(), number));
        let merged = merged_of(&rt, rt.alloc(), sources);
        fails_again(&rt, merged, Fault::Read { file: 2, offset });
    }
}
