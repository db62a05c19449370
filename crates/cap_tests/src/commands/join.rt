//! Joined files: values from the formats and from worked captures.
ghost use Rattle.std.specs.Prelude.{◌≤◌};

use crate::checks::same;
use crate::commands::{ask_front, reader_again, room_again};
use crate::files::{ask_written, readers_of, room_of, roomy};
use cap_bytes::{Fault, Order, Sink, Source, Tail};
use cap_commands::{join_to, join_to_pcap};
use cap_time::Unit;
use std::alloc::Global;
use std::process::Abort;

// Four fragments of one datagram, of link 101, at 1 to 4 seconds.
const FRAGMENTS: &str = "d4c3b2a102000400000000000000000000000400650000000100000000000000\
    1c0000001c0000004500001c00070002401100000a0000010a000002b0b1b2b3\
    b4b5b6b702000000000000001c0000001c0000004500001c0007200040110000\
    0a0000010a00000203e807d00018000003000000000000001c0000001c000000\
    4500001c00072000401100000a0000010a00000203e907d10018000004000000\
    000000001c0000001c0000004500001c00072001401100000a0000010a000002\
    a0a1a2a3a4a5a6a7";

// The datagram that they make.
const JOINED: &str = "0a0d0d0a1c0000004d3c2b1a01000000ffffffffffffffff1c00000001000000\
    2000000065000000000000000900010006000000000000002000000006000000\
    4c000000000000000000000000093d002c0000002c0000004500002c00070000\
    401166b80a0000010a00000203e907d100180000a0a1a2a3a4a5a6a7b0b1b2b3\
    b4b5b6b74c000000";

// What a join of one file answers.
fn join<R: Source, W: Sink>(
    rt: &impl Abort,
    alloc: Global,
    sources: Vec<R>,
    writer: &mut W,
) -> Result<(), Fault> {
    same!(rt; sources.len(), 1);
    join_to(alloc, sources, Tail::Refuse, Order::Little, writer)
}

// The same as pcap, in that unit.
fn join_as_pcap<R: Source, W: Sink>(
    rt: &impl Abort,
    alloc: Global,
    sources: Vec<R>,
    unit: Option<Unit>,
    writer: &mut W,
) -> Result<(), Fault> {
    same!(rt; sources.len(), 1);
    join_to_pcap(alloc, sources, Tail::Refuse, Order::Big, unit, writer)
}

// What is written of the fragments, by `piece` bytes at a time.
fn joins(rt: &impl Abort, alloc: Global, piece: usize)
    requires { 1 ≤ piece }
{
    let mut writer = room_of(rt, alloc, 512);
    let sources = readers_of(rt, alloc, &[FRAGMENTS], piece);
    let answer = join(rt, alloc, sources, &mut writer);
    ask_written(rt, alloc, (answer, writer.bytes()), Ok(()), &[JOINED]);
}

#[test]
fn always_memory_fragments_are_joined(rt: HostRuntime) {
    for piece in [1, 4096] {
        joins(&rt, rt.alloc(), piece);
    }
}

// The datagram as pcap, in the other order.
const JOINED_AS_PCAP: &str = "a1b2c3d40002000400000000000000000000000000000065\
    00000004000000000000002c0000002c4500002c00070000401166b80a0000010a000002\
    03e907d100180000a0a1a2a3a4a5a6a7b0b1b2b3b4b5b6b7";

// The same in nanoseconds.
const JOINED_IN_NANO: &str = "a1b23c4d0002000400000000000000000000000000000065\
    00000004000000000000002c0000002c4500002c00070000401166b80a0000010a000002\
    03e907d100180000a0a1a2a3a4a5a6a7b0b1b2b3b4b5b6b7";

const AS_PCAP: [(Option<Unit>, &str); 3] = [
    (None, JOINED_AS_PCAP),
    (Some(Unit::Micro), JOINED_AS_PCAP),
    (Some(Unit::Nano), JOINED_IN_NANO),
];

// What is written of the fragments as pcap in a unit.
fn joins_as_pcap(rt: &impl Abort, alloc: Global, unit: Option<Unit>, wanted: &str) {
    let sources = readers_of(rt, alloc, &[FRAGMENTS], 1);
    let mut writer = room_of(rt, alloc, 512);
    let answer = join_as_pcap(rt, alloc, sources, unit, &mut writer);
    ask_written(rt, alloc, (answer, writer.bytes()), Ok(()), &[wanted]);
}

#[test]
fn always_memory_fragments_are_joined_as_pcap(rt: HostRuntime) {
    for (unit, wanted) in &AS_PCAP {
        joins_as_pcap(&rt, rt.alloc(), *unit, *wanted);
    }
}

// The answer is as with memory, or `Memory` after a prefix, whichever growth is refused.
#[test]
fn a_refused_growth_leaves_a_front(rt: HostRuntime) {
    let mut sources = roomy(&rt, rt.alloc(), 1);
    sources
        .push(reader_again(&rt, rt.alloc(), FRAGMENTS))
        .expect(&rt, "memory");
    let mut writer = room_again(&rt, rt.alloc());
    let answer = join(&rt, rt.alloc(), sources, &mut writer);
    ask_front(&rt, rt.alloc(), answer, writer.bytes(), JOINED);
}
