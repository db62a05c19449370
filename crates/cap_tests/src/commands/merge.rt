//! Merged files: values from the formats and from worked captures.
ghost use Rattle.std.specs.Prelude.{◌≤◌};

use crate::checks::holds;
use crate::commands::captures::{CARRY_PCAP, SECTION, TWICE};
use crate::commands::{ask_front, reader_again, room_again};
use crate::files::{answer_of_files, ask_written, pair_of, readers_of, room_of};
use cap_bytes::{Fault, Order, Rule, Sink, Source, Tail};
use cap_commands::{merge_to, merge_to_pcap};
use cap_time::Unit;
use std::alloc::Global;
use std::process::Abort;

// A packet at 5 seconds and one at 1 second; and at 2 and at 5 seconds.
const RUNS_BACK: &str = "d4c3b2a1020004000000000000000000000004000100000005000000\
    000000000100000001000000a501000000000000000100000001000000a1";

const RUNS_ON: &str = "d4c3b2a1020004000000000000000000000004000100000002000000\
    000000000100000001000000b205000000000000000100000001000000b5";

// A packet of 0 bytes at 5 seconds, and at 1 second, and 8 bytes of the next record.
const LATE: &str = "d4c3b2a102000400000000000000000000000400010000000500000000000000\
    00000000000000000000000000000000";

const EARLY: &str = "d4c3b2a102000400000000000000000000000400010000000100000000000000\
    00000000000000000000000000000000";

// A packet without a time.
const UNTIMED: &str = "0a0d0d0a1c0000004d3c2b1a01000000ffffffffffffffff1c000000\
    0100000014000000010000000400000014000000\
    03000000140000000a0000000102030414000000";

// The packets at 2, 5, 1 and 5 seconds, of files 2, 1, 1 and 2.
const BY_CLOCK: &str = "0a0d0d0a1c0000004d3c2b1a01000000ffffffffffffffff1c000000\
    0100000020000000010000000000040009000100060000000000000020000000\
    0600000024000000000000000000000080841e000100000001000000b200000024000000\
    0100000020000000010000000000040009000100060000000000000020000000\
    06000000240000000100000000000000404b4c000100000001000000a500000024000000\
    0600000024000000010000000000000040420f000100000001000000a100000024000000\
    06000000240000000000000000000000404b4c000100000001000000b500000024000000";

// They and CARRY_PCAP, whose packet at 2.5 seconds comes after the one at 2 seconds.
const OF_THREE: &str = "0a0d0d0a1c0000004d3c2b1a01000000ffffffffffffffff1c000000\
    0100000020000000010000000000040009000100060000000000000020000000\
    0600000024000000000000000000000080841e000100000001000000b200000024000000\
    0100000020000000010000000000040009000100060000000000000020000000\
    06000000240000000100000000000000a025260004000000040000000102030424000000\
    0100000020000000010000000000040009000100060000000000000020000000\
    06000000240000000200000000000000404b4c000100000001000000a500000024000000\
    0600000024000000020000000000000040420f000100000001000000a100000024000000\
    06000000240000000000000000000000404b4c000100000001000000b500000024000000";

const EARLY_ALONE: &str = "0a0d0d0a1c0000004d3c2b1a01000000ffffffffffffffff1c000000\
    0100000020000000010000000000040009000100060000000000000020000000\
    0600000020000000000000000000000040420f00000000000000000020000000";

// Files, what is written of them, and how that ends.
type Row = (
    &'static [&'static str],
    &'static str,
    Result<(), (u32, u64, Rule)>,
);

const MERGED: [Row; 8] = [
    (&[CARRY_PCAP, CARRY_PCAP], TWICE, Ok(())),
    (&[RUNS_BACK, RUNS_ON], BY_CLOCK, Ok(())),
    (&[BY_CLOCK], BY_CLOCK, Ok(())),
    // three files at once, and the first two first: the same bytes
    (&[RUNS_BACK, RUNS_ON, CARRY_PCAP], OF_THREE, Ok(())),
    (&[BY_CLOCK, CARRY_PCAP], OF_THREE, Ok(())),
    (&[LATE, EARLY], EARLY_ALONE, Err((2, 40, Rule::Cut))),
    (&[EARLY, LATE], EARLY_ALONE, Err((1, 40, Rule::Cut))),
    (&[UNTIMED], SECTION, Err((1, 48, Rule::NoTime))),
];

// What a merge of 1 to 32 files answers.
fn merge<R: Source, W: Sink>(
    rt: &impl Abort,
    alloc: Global,
    sources: Vec<R>,
    writer: &mut W,
) -> Result<(), Fault> {
    holds!(rt; !sources.is_empty());
    holds!(rt; sources.len() <= 32);
    merge_to(alloc, sources, Tail::Refuse, Order::Little, writer)
}

// The same as pcap, in that unit.
fn merge_as_pcap<R: Source, W: Sink>(
    rt: &impl Abort,
    alloc: Global,
    sources: Vec<R>,
    unit: Option<Unit>,
    writer: &mut W,
) -> Result<(), Fault> {
    holds!(rt; !sources.is_empty());
    holds!(rt; sources.len() <= 32);
    merge_to_pcap(alloc, sources, Tail::Refuse, Order::Big, unit, writer)
}

// What is written and answered of files that are given by `piece` bytes at a time.
fn merges(rt: &impl Abort, alloc: Global, row: &Row, piece: usize)
    requires { 1 ≤ piece }
{
    let (files, wanted, ending) = *row;
    let mut writer = room_of(rt, alloc, 512);
    let sources = readers_of(rt, alloc, files, piece);
    let answer = merge(rt, alloc, sources, &mut writer);
    let found = (answer, writer.bytes());
    ask_written(rt, alloc, found, answer_of_files(ending), &[wanted]);
}

#[test]
fn always_memory_files_are_merged_by_time(rt: HostRuntime) {
    for row in &MERGED {
        for piece in [1, 4096] {
            merges(&rt, rt.alloc(), row, piece);
        }
    }
}

// The packets at 2, 5, 1 and 5 seconds as pcap, in the other order.
const BY_CLOCK_AS_PCAP: &str = "a1b2c3d4000200040000000000000000000400000000000100000002\
    000000000000000100000001b200000005000000000000000100000001a5\
    00000001000000000000000100000001a100000005000000000000000100000001b5";

// The same in nanoseconds.
const BY_CLOCK_IN_NANO: &str = "a1b23c4d000200040000000000000000000400000000000100000002\
    000000000000000100000001b200000005000000000000000100000001a5\
    00000001000000000000000100000001a100000005000000000000000100000001b5";

const AS_PCAP: [(Option<Unit>, &str); 3] = [
    (None, BY_CLOCK_AS_PCAP),
    (Some(Unit::Micro), BY_CLOCK_AS_PCAP),
    (Some(Unit::Nano), BY_CLOCK_IN_NANO),
];

// What is written of two files as pcap in a unit.
fn merges_as_pcap(rt: &impl Abort, alloc: Global, unit: Option<Unit>, wanted: &str) {
    let sources = readers_of(rt, alloc, &[RUNS_BACK, RUNS_ON], 1);
    let mut writer = room_of(rt, alloc, 512);
    let answer = merge_as_pcap(rt, alloc, sources, unit, &mut writer);
    ask_written(rt, alloc, (answer, writer.bytes()), Ok(()), &[wanted]);
}

#[test]
fn always_memory_files_are_merged_as_pcap(rt: HostRuntime) {
    for (unit, wanted) in &AS_PCAP {
        merges_as_pcap(&rt, rt.alloc(), *unit, *wanted);
    }
}

// The answer is as with memory, or `Memory` after a prefix, whichever growth is refused.
#[test]
fn a_refused_growth_leaves_a_front(rt: HostRuntime) {
    let first = reader_again(&rt, rt.alloc(), RUNS_BACK);
    let second = reader_again(&rt, rt.alloc(), RUNS_ON);
    let sources = pair_of(&rt, rt.alloc(), first, second);
    let mut writer = room_again(&rt, rt.alloc());
    let answer = merge(&rt, rt.alloc(), sources, &mut writer);
    ask_front(&rt, rt.alloc(), answer, writer.bytes(), BY_CLOCK);
}
