//! The table step by step.
ghost use Rattle.std.specs.Prelude.{◌≤◌};

use crate::checks::same;
use crate::hex_vectors::{
    AT_1, AT_3, AT_4, AT_31, FIRST, FRAGMENT_FRAMES, File, LAST, RAW, TAGGED_FRAMES,
};
use crate::report::{
    BINARY, BINARY_REPORT, FRAGMENT_REPORT, TAGGED_REPORT, TENTHS, UNTIMED_THEN_TIMED,
};
use cap_bytes::{Fault, Pieces, Room, Tail};
use cap_merge::merge_files;
use cap_source::{Capture, PacketFeed};
use cap_talks::{Held, Step, Table};
use std::alloc::{AllocError, Global};
use std::process::Abort;

const BEFORE: &str = "files 1\n\
    file 1 - packets 0 bytes 0 truncated 0 skipped 0 first - last -\n\
    total packets 0 bytes 0 truncated 0\n\
    frames other-link 0 not-ipv4 0 short 0 cut 0 bad 0 unjoined 0 counted 0\n\
    joined 0 given-up 0\n\
    talks 0\n";

const AFTER_TWO: &str = "files 1\n\
    file 1 pcap packets 2 bytes 56 truncated 0 skipped 0 first 1+0/1000000 last 2+0/1000000\n\
    total packets 2 bytes 56 truncated 0\n\
    frames other-link 0 not-ipv4 0 short 0 cut 0 bad 0 unjoined 2 counted 0\n\
    joined 0 given-up 0\n\
    talks 0\n";

// Two fragments of one datagram, at 1 and at 31 seconds.
const THIRTY_SECONDS: File = &[RAW, AT_1, LAST, AT_31, FIRST];

const THIRTY_REPORT: &str = "files 1\n\
    file 1 pcap packets 2 bytes 56 truncated 0 skipped 0 first 1+0/1000000 last 31+0/1000000\n\
    total packets 2 bytes 56 truncated 0\n\
    frames other-link 0 not-ipv4 0 short 0 cut 0 bad 0 unjoined 0 counted 2\n\
    joined 1 given-up 0\n\
    talks 1\n\
    talk udp 10.0.0.1:1000 10.0.0.2:2000 forward 2 56 backward 0 0 first 1+0/1000000 last 31+0/1000000\n";

// Four fragments of one datagram of 32 bytes, of which 5 are in none; the second has 3 bytes.
const OVERLAP_MAP: File = &[
    RAW,
    AT_1,
    "4500001c000b2001401100000a0000010a000002a0a1a2a3a4a5a6a7",
    "02000000000000001700000017000000",
    "45000017000b0002401100000a0000010a000002c0c1c2",
    AT_3,
    "4500001c000b0003401100000a0000010a000002d0d1d2d3d4d5d6d7",
    AT_4,
    "4500001c000b2000401100000a0000010a00000203e807d000200000",
];

const OVERLAP_REPORT: &str = "files 1\n\
    file 1 pcap packets 4 bytes 107 truncated 0 skipped 0 first 1+0/1000000 last 4+0/1000000\n\
    total packets 4 bytes 107 truncated 0\n\
    frames other-link 0 not-ipv4 0 short 0 cut 0 bad 0 unjoined 0 counted 4\n\
    joined 1 given-up 0\n\
    talks 1\n\
    talk udp 10.0.0.1:1000 10.0.0.2:2000 forward 4 107 backward 0 0 first 1+0/1000000 last 4+0/1000000\n";

// The bytes of a file, if memory is found.
fn bytes_once(alloc: Global, file: File) -> Option<Vec<u8>> {
    let mut bytes = Vec::new(alloc);
    for part in file {
        let decoded = hex::decode(alloc, *part).ok()?;
        bytes.extend_from_slice(decoded.as_slice()).ok()?;
    }
    Some(bytes)
}

// Readers of files by `piece` bytes at a time, if memory is found.
fn sources_once(alloc: Global, files: &[File], piece: usize) -> Option<Vec<Pieces>>
    requires { 1 ≤ piece }
{
    let mut sources = Vec::new(alloc);
    for file in files {
        let bytes = bytes_once(alloc, *file)?;
        sources.push(Pieces::new(bytes, piece, None)).ok()?;
    }
    Some(sources)
}

// The table of 1 to 32 readers, if memory is found.
fn table_once(alloc: Global, sources: Vec<Pieces>) -> Option<Table<Capture<Pieces>>> {
    if sources.is_empty() || sources.len() > 32 {
        return None;
    }
    let merged = merge_files(alloc, sources, Tail::Refuse).ok()?;
    Some(Table::new(alloc, merged))
}

// The table of 1 to 32 files, if at most two growths are refused.
fn table_of(rt: &impl Abort, alloc: Global, files: &[File], piece: usize) -> Table<Capture<Pieces>>
    requires { 1 ≤ piece }
{
    for _ in 0..3 {
        if let Some(sources) = sources_once(alloc, files, piece) {
            if let Some(table) = table_once(alloc, sources) {
                return table;
            }
        }
    }
    panic!(rt; "no table")
}

// Room for a text, if at most two growths are refused.
fn room_of(alloc: Global) -> Result<Vec<u8>, AllocError> {
    for _ in 0..2 {
        if let Ok(room) = Vec::with_capacity(alloc, 1024) {
            return Ok(room);
        }
    }
    Vec::with_capacity(alloc, 1024)
}

// What a table writes, if at most two growths are refused.
fn text_of<F: PacketFeed>(rt: &impl Abort, alloc: Global, table: &Table<F>) -> Room {
    let mut writer = Room::new(room_of(alloc).expect(rt, "memory"));
    same!(rt; table.write_so_far(&mut writer), Ok(()));
    writer
}

// How many interfaces, groups, bytes of a group and conversations a table holds.
type Lengths = (u64, u64, u64, u64);

// Holds a table to what it writes, and to the interfaces, groups, bytes of a group and conversations that it holds.
fn check<F: PacketFeed>(
    rt: &impl Abort,
    alloc: Global,
    table: &Table<F>,
    wanted: &str,
    held: Lengths,
) {
    same!(rt; text_of(rt, alloc, table).bytes(), wanted.as_bytes());
    let now = table.held();
    same!(rt; (now.interfaces, now.groups), (held.0, held.1));
    same!(rt; (now.group_bytes, now.talks), (held.2, held.3));
}

// How often a step is taken, what it answers, what the table then writes, and what it holds.
const STEPS: [(u32, Step, &str, Lengths); 5] = [
    (0, Step::Took, BEFORE, (0, 0, 0, 0)),
    (2, Step::Took, AFTER_TWO, (0, 1, 24, 0)),
    (2, Step::Took, FRAGMENT_REPORT, (0, 0, 0, 1)),
    (1, Step::Done, FRAGMENT_REPORT, (0, 0, 0, 1)),
    (1, Step::Done, FRAGMENT_REPORT, (0, 0, 0, 1)),
];

// Takes a step that often, each of which answers the same.
fn take_steps<F: PacketFeed>(rt: &impl Abort, table: &mut Table<F>, count: u32, step: Step) {
    for _ in 0..count {
        same!(rt; table.step(), Ok(step));
    }
}

// Takes the steps of a table of FRAGMENT_FRAMES.
fn goes_by_steps<F: PacketFeed>(rt: &impl Abort, alloc: Global, table: &mut Table<F>) {
    same!(rt; table.held().window, 0);
    for (count, step, text, held) in &STEPS {
        take_steps(rt, table, *count, *step);
        check(rt, alloc, table, *text, *held);
    }
}

// The first step takes a packet, whose interface and conversation are held then.
fn holds_an_interface<F: PacketFeed>(rt: &impl Abort, table: &mut Table<F>) {
    same!(rt; table.held().interfaces, 0);
    same!(rt; table.step(), Ok(Step::Took));
    let now = table.held();
    same!(rt; (now.interfaces, now.talks), (1, 1));
}

// The table writes and holds what it did before.
fn is_as_before<F: PacketFeed>(
    rt: &impl Abort,
    alloc: Global,
    table: &Table<F>,
    before: &[u8],
    held: Held,
) {
    same!(rt; text_of(rt, alloc, table).bytes(), before);
    let now = table.held();
    same!(rt; (now.groups, now.talks), (held.groups, held.talks));
}

// A step, taken again after a growth was refused, which leaves the table as it was.
fn step_again<F: PacketFeed>(rt: &impl Abort, alloc: Global, table: &mut Table<F>) -> Step {
    let before = text_of(rt, alloc, table);
    let held = table.held();
    for _ in 0..3 {
        let answer = table.step();
        if answer != Err(Fault::Memory) {
            return answer.expect(rt, "a step");
        }
        is_as_before(rt, alloc, table, before.bytes(), held);
    }
    panic!(rt; "a third growth is refused")
}

// Eight such steps end at `Done`, and the report is that.
fn reports_again<F: PacketFeed>(
    rt: &impl Abort,
    alloc: Global,
    table: &mut Table<F>,
    wanted: &str,
) {
    let mut step = Step::Took;
    for _ in 0..8 {
        step = step_again(rt, alloc, table);
    }
    same!(rt; step, Step::Done);
    same!(rt; text_of(rt, alloc, table).bytes(), wanted.as_bytes());
}

// What a table is put through.
#[derive(Clone, Copy)]
enum Trial<'a> {
    // the steps of a table of FRAGMENT_FRAMES
    Steps,
    // that many steps, each of which takes a packet
    Takes(u32),
    // a step that takes the first interface
    Interface,
    // steps that are taken again after a refused growth, and that report
    Again(&'a str),
}

fn undergo<F: PacketFeed>(rt: &impl Abort, alloc: Global, table: &mut Table<F>, trial: Trial<'_>) {
    match trial {
        Trial::Steps => goes_by_steps(rt, alloc, table),
        Trial::Takes(count) => take_steps(rt, table, count, Step::Took),
        Trial::Interface => holds_an_interface(rt, table),
        Trial::Again(wanted) => reports_again(rt, alloc, table, wanted),
    }
}

// Puts the table of 1 to 32 files, read by `piece` bytes at a time, through that.
fn table_undergoes(rt: &impl Abort, alloc: Global, files: &[File], piece: usize, trial: Trial<'_>)
    requires { 1 ≤ piece }
{
    let mut table = table_of(rt, alloc, files, piece);
    undergo(rt, alloc, &mut table, trial);
}

#[test]
fn always_memory_step_by_step(rt: HostRuntime) {
    table_undergoes(&rt, rt.alloc(), &[FRAGMENT_FRAMES], 1, Trial::Steps);
    table_undergoes(&rt, rt.alloc(), &[FRAGMENT_FRAMES], 4096, Trial::Steps);
}

#[test]
fn interfaces_are_held(rt: HostRuntime) {
    table_undergoes(
        &rt,
        rt.alloc(),
        &[UNTIMED_THEN_TIMED],
        4096,
        Trial::Interface,
    );
}

#[test]
fn a_table_is_dropped_after_any_number_of_steps(rt: HostRuntime) {
    for steps in 0..5 {
        table_undergoes(&rt, rt.alloc(), &[FRAGMENT_FRAMES], 1, Trial::Takes(steps));
    }
}

// The files and the report of a table.
const REPORTS: [(&[File], &str); 5] = [
    (&[FRAGMENT_FRAMES], FRAGMENT_REPORT),
    (&[TAGGED_FRAMES], TAGGED_REPORT),
    (&[BINARY, TENTHS], BINARY_REPORT),
    (&[THIRTY_SECONDS], THIRTY_REPORT),
    (&[OVERLAP_MAP], OVERLAP_REPORT),
];

// Each report as with memory, whichever growth is refused, or two together (checks/faults.py).
#[test]
fn a_refused_growth_leaves_the_table(rt: HostRuntime) {
    for (files, wanted) in &REPORTS {
        table_undergoes(&rt, rt.alloc(), *files, 4096, Trial::Again(*wanted));
    }
}
