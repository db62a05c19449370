//! The packets that `join` leaves out, by their class in a report.

use crate::checks::{holds, same};
use crate::files::{room_of, sources_of};
use crate::hex_vectors::{FIRST, FRAGMENT_FRAMES, File, LAST, RAW, RUNS_BACK, TAGGED_FRAMES};
use cap_bytes::{Fault, Order, Sink, Source, Tail};
use cap_class::{Class, ClassCounts, NO_PACKETS, class_of, with_frames, with_group};
use cap_commands::{DroppedInfo, OutputFormat, join_and_count};
use cap_ip::Transport;
use cap_write::{LeftOut, NO_PACKETS_LEFT_OUT};
use std::alloc::Global;
use std::process::Abort;

// A packet of each class of a report. In order: version 6; no byte; 10 of the 28 bytes of a datagram; a header that
// ends after 4 bytes; two fragments of a datagram whose UDP length is above its 16 bytes; a fragment alone; a datagram
// with its UDP header, but without its last 4 bytes; a whole datagram.
const EACH_CLASS: File = &[
    RAW,
    "01000000000000000400000004000000",
    "60000000",
    "02000000000000000000000000000000",
    "03000000000000000a0000001c000000",
    "4500001c000100004011",
    "04000000000000000400000004000000",
    "45000000",
    "05000000000000001c0000001c000000",
    "4500001c00092000401100000a0000010a00000203e807d000180000",
    "06000000000000001c0000001c000000",
    LAST,
    "07000000000000001c0000001c000000",
    "4500001c000a0001401100000a0000010a000002a0a1a2a3a4a5a6a7",
    "08000000000000001c00000020000000",
    "45000020000b0000401100000a0000010a00000203e807d0000c0000",
    "09000000000000001c0000001c000000",
    "4500001c000c0000401100000a0000010a00000203e807d000080000",
];

// A packet of a link type that isn't looked into.
const OTHER_LINK: File = &[
    "d4c3b2a10200040000000000000000000000040093000000",
    "01000000000000000000000000000000",
];

// A datagram whose two fragments come the last one first.
const TWO_FRAGMENTS: File = &[
    RAW,
    "01000000000000001c0000001c000000",
    LAST,
    "02000000000000001c0000001c000000",
    FIRST,
];

// Files, and how many packets of each class they have: other links, not IPv4, short, cut, bad, unjoined and counted;
// and how many of the counted ones aren't whole.
type Row = (&'static [File], [u64; 7], u64);

const JOINED: [Row; 6] = [
    (&[FRAGMENT_FRAMES], [0, 0, 0, 0, 0, 0, 4], 0),
    (&[TAGGED_FRAMES], [0, 0, 0, 0, 1, 0, 2], 0),
    (&[RUNS_BACK], [0, 0, 2, 0, 0, 0, 0], 0),
    (&[TWO_FRAGMENTS], [0, 0, 0, 0, 0, 0, 2], 0),
    (&[EACH_CLASS], [0, 1, 1, 1, 3, 1, 2], 1),
    (&[EACH_CLASS, OTHER_LINK], [1, 1, 1, 1, 3, 1, 2], 1),
];

// How many packets of each class there are.
fn counts_of(numbers: [u64; 7]) -> ClassCounts {
    let [other_link, not_ipv4, short, cut, bad, unjoined, counted] = numbers;
    ClassCounts {
        other_link,
        not_ipv4,
        short,
        cut,
        bad,
        unjoined,
        counted,
    }
}

// What a join of 1 to 32 files answers.
fn join<R: Source, W: Sink>(
    rt: &impl Abort,
    alloc: Global,
    sources: Vec<R>,
    format: OutputFormat,
    counts: bool,
    writer: &mut W,
) -> Result<DroppedInfo, Fault> {
    holds!(rt; !sources.is_empty());
    holds!(rt; sources.len() <= 32);
    join_and_count(
        alloc,
        sources,
        Tail::Refuse,
        Order::Little,
        format,
        counts,
        writer,
    )
}

// What is left out of files that are joined in a format.
fn joins(rt: &impl Abort, alloc: Global, row: &Row, format: OutputFormat, counts: bool) {
    let (files, numbers, truncated) = *row;
    let mut writer = room_of(rt, alloc, 512);
    let answer = join(
        rt,
        alloc,
        sources_of(rt, alloc, files, 4096),
        format,
        counts,
        &mut writer,
    );
    let wanted = LeftOut {
        classes: counts_of(numbers),
        truncated,
    };
    let found = answer.map(|left| left.left_out);
    same!(rt; found, Ok(if counts { Some(wanted) } else { None }), files);
}

#[test]
fn always_memory_joined_files_leave_packets_out(rt: HostRuntime) {
    for row in &JOINED {
        joins(&rt, rt.alloc(), row, OutputFormat::Pcapng, true);
        joins(&rt, rt.alloc(), row, OutputFormat::Pcapng, false);
    }
    // a pcap file without a datagram has no interface
    joins(&rt, rt.alloc(), &JOINED[0], OutputFormat::Pcap(None), true);
}

#[test]
fn packets_are_counted_by_class(rt: HostRuntime) {
    same!(&rt; NO_PACKETS_LEFT_OUT.classes, NO_PACKETS);
    same!(&rt; class_of(Transport::NoPorts), Class::Counted);
    same!(&rt; class_of(Transport::Cut), Class::Cut);
    let kept = with_frames(NO_PACKETS, Class::Unjoined, 1);
    same!(&rt; kept, counts_of([0, 0, 0, 0, 0, 1, 0]));
    same!(&rt; with_group(kept, Class::Bad, 2), counts_of([0, 0, 0, 0, 2, 0, 0]));
}
