//! Whole files, converted, merged and joined. The files and what is written are worked out by hand from
//! draft-ietf-opsawg-pcap and draft-ietf-opsawg-pcapng.

use crate::files::{answer_of_files, ask_written, merged_of, reader_of, room_of, sources_of};
use crate::hex_vectors::{
    CARRY_PCAP, CARRY_PCAPNG, EARLY, ETHERNET, FRAGMENT_FRAMES, File, HEADER_ONLY, INTERFACE, LATE,
    OPTIONS_PCAPNG, PACKET, RAW, RUNS_BACK, RUNS_ON, SECTION, SIMPLE_PACKET, TAGGED_FRAMES,
};
use cap_bytes::{Fault, Order, Rule, Sink, Source, Tail};
use cap_source::Capture;
use cap_time::Unit;
use cap_write::{
    to_pcap, to_pcapng, write_joined, write_joined_pcap, write_merged, write_merged_pcap,
    write_merged_sharing,
};
use std::alloc::Global;
use std::process::Abort;

// CARRY_PCAPNG as pcap, at 2 seconds and 500,000 microseconds.
const CARRIED_PCAP: File = &[ETHERNET, "0200000020a107000400000004000000", "01020304"];

const SECTION_ALONE: File = &[SECTION];

const INTERFACE_ALONE: File = &[SECTION, INTERFACE];

// What is asked for.
#[derive(Clone, Copy, Debug, PartialEq, Eq)]
enum Call {
    Pcapng,
    Pcap(Option<Unit>),
    Merged,
}

// What a call answers.
fn write<R: Source, W: Sink>(
    alloc: Global,
    call: Call,
    capture: &mut Capture<R>,
    writer: &mut W,
) -> Result<(), Fault> {
    match call {
        Call::Pcapng => to_pcapng(alloc, capture, Order::Little, writer),
        Call::Pcap(unit) => to_pcap(capture, Order::Little, unit, writer),
        Call::Merged => write_merged(alloc, capture, Order::Little, writer),
    }
}

// A call, its file, and what is written.
type Written = (Call, File, File);

// The same in nanoseconds, and what else is in nanoseconds.
const IN_NANO: &str = "4d3cb2a10200040000000000000000000000040001000000";

const CARRIED_NANO: File = &[IN_NANO, "020000000065cd1d0400000004000000", "01020304"];

const HEADER_NANO: File = &[IN_NANO];

const WRITTEN: [Written; 9] = [
    (Call::Pcap(Some(Unit::Nano)), CARRY_PCAPNG, CARRIED_NANO),
    (Call::Pcap(Some(Unit::Micro)), CARRIED_NANO, CARRIED_PCAP),
    (Call::Pcap(Some(Unit::Nano)), INTERFACE_ALONE, HEADER_NANO),
    (Call::Pcapng, CARRY_PCAP, CARRY_PCAPNG),
    (Call::Pcap(None), CARRY_PCAPNG, CARRIED_PCAP),
    (Call::Merged, CARRY_PCAPNG, CARRY_PCAPNG),
    (Call::Merged, CARRY_PCAP, CARRY_PCAPNG),
    (Call::Pcapng, HEADER_ONLY, INTERFACE_ALONE),
    (Call::Pcap(None), INTERFACE_ALONE, HEADER_ONLY),
];

// What a call writes of a file that is read one byte at a time.
fn writes(rt: &impl Abort, alloc: Global, row: &Written) {
    let (call, input, output) = *row;
    let source = reader_of(rt, alloc, input, 1);
    let mut capture = Capture::new(alloc, source, 1, Tail::Refuse);
    let mut writer = room_of(rt, alloc, 512);
    let answer = write(alloc, call, &mut capture, &mut writer);
    ask_written(rt, alloc, (answer, writer.bytes()), Ok(()), output);
}

#[test]
fn always_memory_a_packet_goes_both_ways(rt: HostRuntime) {
    for row in &WRITTEN {
        writes(&rt, rt.alloc(), row);
    }
}

// The packets of RUNS_BACK and RUNS_ON, of files 2, 1, 1 and 2.
const BY_CLOCK: File = &[
    SECTION,
    INTERFACE,
    "0600000020000000000000000000000080841e00000000000000000020000000",
    INTERFACE,
    "06000000200000000100000000000000404b4c00000000000000000020000000",
    "0600000020000000010000000000000040420f00000000000000000020000000",
    "06000000200000000000000000000000404b4c00000000000000000020000000",
];

// They in a file, and then CARRY_PCAP: its packet at 2.5 seconds comes after the one at 2 seconds.
const IN_ROUNDS: File = &[
    SECTION,
    INTERFACE,
    "0600000020000000000000000000000080841e00000000000000000020000000",
    INTERFACE,
    "06000000240000000100000000000000a025260004000000040000000102030424000000",
    INTERFACE,
    "06000000200000000200000000000000404b4c00000000000000000020000000",
    "0600000020000000020000000000000040420f00000000000000000020000000",
    "06000000200000000000000000000000404b4c00000000000000000020000000",
];

const TWICE: File = &[
    SECTION,
    INTERFACE,
    PACKET,
    INTERFACE,
    "06000000240000000100000000000000a025260004000000040000000102030424000000",
];

const EARLY_ALONE: File = &[
    SECTION,
    INTERFACE,
    "0600000020000000000000000000000040420f00000000000000000020000000",
];

// What is written of files, and how that ends: whole, or where and why one is refused.
type Row = (&'static [File], File, Result<(), (u32, u64, Rule)>);

const MERGED: [Row; 4] = [
    (&[CARRY_PCAP, CARRY_PCAP], TWICE, Ok(())),
    (&[LATE, EARLY], EARLY_ALONE, Err((2, 40, Rule::Cut))),
    (&[RUNS_BACK, RUNS_ON], BY_CLOCK, Ok(())),
    (&[BY_CLOCK, CARRY_PCAP], IN_ROUNDS, Ok(())),
];

// What a merge of files writes and answers.
fn merges(rt: &impl Abort, alloc: Global, row: &Row) {
    let (input, output, ending) = *row;
    let mut merged = merged_of(rt, alloc, sources_of(rt, alloc, input, 1));
    let mut writer = room_of(rt, alloc, 512);
    let answer = write_merged(alloc, &mut merged, Order::Little, &mut writer);
    let found = (answer, writer.bytes());
    ask_written(rt, alloc, found, answer_of_files(ending), output);
}

#[test]
fn always_memory_files_are_merged(rt: HostRuntime) {
    for row in &MERGED {
        merges(&rt, rt.alloc(), row);
    }
}

// The packets of two files whose interfaces are equal, though the second's has a name too.
const ONE_INTERFACE: File = &[SECTION, INTERFACE, PACKET, PACKET];

// Those of RUNS_BACK and RUNS_ON.
const BY_CLOCK_SHARED: File = &[
    SECTION,
    INTERFACE,
    "0600000020000000000000000000000080841e00000000000000000020000000",
    "06000000200000000000000000000000404b4c00000000000000000020000000",
    "0600000020000000000000000000000040420f00000000000000000020000000",
    "06000000200000000000000000000000404b4c00000000000000000020000000",
];

// A packet without a link header, at 2 seconds, and those of RUNS_ON before it and after it.
const RAW_AT_2: File = &[RAW, "02000000000000000000000000000000"];

const TWO_LINKS: File = &[
    SECTION,
    INTERFACE,
    "0600000020000000000000000000000080841e00000000000000000020000000",
    "0100000020000000650000000000040009000100060000000000000020000000",
    "0600000020000000010000000000000080841e00000000000000000020000000",
    "06000000200000000000000000000000404b4c00000000000000000020000000",
];

const SHARED: [Row; 4] = [
    (&[CARRY_PCAP, OPTIONS_PCAPNG], ONE_INTERFACE, Ok(())),
    (&[LATE, EARLY], EARLY_ALONE, Err((2, 40, Rule::Cut))),
    (&[RUNS_BACK, RUNS_ON], BY_CLOCK_SHARED, Ok(())),
    (&[RUNS_ON, RAW_AT_2], TWO_LINKS, Ok(())),
];

// What a merge of files writes and answers in which equal interfaces are one.
fn shares(rt: &impl Abort, alloc: Global, row: &Row) {
    let (input, output, ending) = *row;
    let mut merged = merged_of(rt, alloc, sources_of(rt, alloc, input, 1));
    let mut writer = room_of(rt, alloc, 512);
    let answer = write_merged_sharing(alloc, &mut merged, Order::Little, &mut writer);
    let found = (answer, writer.bytes());
    ask_written(rt, alloc, found, answer_of_files(ending), output);
}

#[test]
fn always_memory_interfaces_are_shared(rt: HostRuntime) {
    for row in &SHARED {
        shares(&rt, rt.alloc(), row);
    }
}

const NOTHING: File = &[];

// The packet of CARRIED_PCAP twice. CARRY_PCAP has it at 1 second and 1,500,000 microseconds.
const CARRIED_TWICE: File = &[
    ETHERNET,
    "0200000020a107000400000004000000",
    "01020304",
    "0200000020a107000400000004000000",
    "01020304",
];

const EARLY_AS_PCAP: File = &[ETHERNET, "01000000000000000000000000000000"];

const MERGED_AS_PCAP: [Row; 5] = [
    (&[CARRY_PCAPNG], CARRIED_PCAP, Ok(())),
    (&[CARRIED_PCAP, CARRY_PCAP], CARRIED_TWICE, Ok(())),
    (&[LATE, EARLY], EARLY_AS_PCAP, Err((2, 40, Rule::Cut))),
    (
        &[CARRY_PCAP, SIMPLE_PACKET],
        NOTHING,
        Err((2, 48, Rule::NoTime)),
    ),
    (
        &[HEADER_ONLY, SECTION_ALONE],
        NOTHING,
        Err((1, 0, Rule::NoInterface)),
    ),
];

const MERGED_IN_NANO: Row = (&[CARRY_PCAPNG], CARRIED_NANO, Ok(()));

// What a merge of files writes as pcap in a unit, and answers.
fn merges_as_pcap(rt: &impl Abort, alloc: Global, row: &Row, unit: Option<Unit>) {
    let (input, output, ending) = *row;
    let mut merged = merged_of(rt, alloc, sources_of(rt, alloc, input, 1));
    let mut writer = room_of(rt, alloc, 512);
    let answer = write_merged_pcap(&mut merged, Order::Little, unit, &mut writer);
    let found = (answer, writer.bytes());
    ask_written(rt, alloc, found, answer_of_files(ending), output);
}

#[test]
fn always_memory_files_are_merged_as_pcap(rt: HostRuntime) {
    for row in &MERGED_AS_PCAP {
        merges_as_pcap(&rt, rt.alloc(), row, None);
    }
    merges_as_pcap(&rt, rt.alloc(), &MERGED_IN_NANO, Some(Unit::Nano));
}

// The datagram that FRAGMENT_FRAMES make, as a file.
const JOINED: File = &[
    SECTION,
    "0100000020000000650000000000000009000100060000000000000020000000",
    "060000004c000000000000000000000000093d002c0000002c000000",
    "4500002c00070000401166b80a0000010a000002",
    "03e907d100180000a0a1a2a3a4a5a6a7b0b1b2b3b4b5b6b7",
    "4c000000",
];

// The datagrams of the first two of TAGGED_FRAMES as a file.
const TAGGED_JOINED: File = &[
    SECTION,
    "0100000020000000650000000000000009000100060000000000000020000000",
    "0600000040000000000000000000000040420f001e0000001e000000",
    "4500001e00010000401166cc0a0000010a00000203e807d0000a000068690000",
    "40000000",
    "0600000040000000000000000000000080841e001e0000001e000000",
    "4500001e00020000401166cb0a0000020a00000107d003e8000a000068690000",
    "40000000",
];

// An Ethernet frame of 1,514 bytes, of which 54 were captured: the TCP header with no data after it.
const CUT_SHORT: File = &[
    ETHERNET,
    "010000000000000036000000ea050000",
    "02000000000202000000000108004500",
    "05dc00010000400600000a0000010a000002",
    "0050c35000000001000000025010ffff00000000",
];

// FRAGMENT_FRAMES without its last byte.
const CUT_FRAGMENTS: File = &[
    "d4c3b2a10200040000000000000000000000040065000000",
    "01000000000000001c0000001c000000",
    "4500001c00070002401100000a0000010a000002b0b1b2b3b4b5b6b7",
    "02000000000000001c0000001c000000",
    "4500001c00072000401100000a0000010a00000203e807d000180000",
    "03000000000000001c0000001c000000",
    "4500001c00072000401100000a0000010a00000203e907d100180000",
    "04000000000000001c0000001c000000",
    "4500001c00072001401100000a0000010a000002a0a1a2a3a4a5a6",
];

// Files of which the datagrams are joined.
const DATAGRAMS: [Row; 6] = [
    (&[FRAGMENT_FRAMES], JOINED, Ok(())),
    (&[TAGGED_FRAMES], TAGGED_JOINED, Ok(())),
    (&[CUT_SHORT], SECTION_ALONE, Ok(())),
    (&[CARRY_PCAP], SECTION_ALONE, Ok(())),
    (&[SIMPLE_PACKET], SECTION_ALONE, Err((1, 48, Rule::NoTime))),
    (&[CUT_FRAGMENTS], SECTION_ALONE, Err((1, 156, Rule::Cut))),
];

// What is joined of files, and what is answered.
fn joins(rt: &impl Abort, alloc: Global, row: &Row) {
    let (input, output, ending) = *row;
    let mut merged = merged_of(rt, alloc, sources_of(rt, alloc, input, 1));
    let mut writer = room_of(rt, alloc, 512);
    let answer = write_joined(alloc, &mut merged, Order::Little, &mut writer);
    let found = (answer, writer.bytes());
    ask_written(rt, alloc, found, answer_of_files(ending), output);
}

#[test]
fn always_memory_datagrams_are_joined(rt: HostRuntime) {
    for row in &DATAGRAMS {
        joins(&rt, rt.alloc(), row);
    }
}

// The datagram that FRAGMENT_FRAMES make, as a pcap file.
const JOINED_AS_PCAP: File = &[
    "d4c3b2a10200040000000000000000000000000065000000",
    "04000000000000002c0000002c000000",
    "4500002c00070000401166b80a0000010a000002",
    "03e907d100180000a0a1a2a3a4a5a6a7b0b1b2b3b4b5b6b7",
];

const DATAGRAMS_AS_PCAP: [Row; 4] = [
    (&[FRAGMENT_FRAMES], JOINED_AS_PCAP, Ok(())),
    (&[CARRY_PCAP], NOTHING, Err((1, 0, Rule::NoInterface))),
    (&[SIMPLE_PACKET], NOTHING, Err((1, 48, Rule::NoTime))),
    (&[CUT_FRAGMENTS], NOTHING, Err((1, 156, Rule::Cut))),
];

// The datagram in nanoseconds.
const JOINED_IN_NANO: Row = (
    &[FRAGMENT_FRAMES],
    &[
        "4d3cb2a10200040000000000000000000000000065000000",
        "04000000000000002c0000002c000000",
        "4500002c00070000401166b80a0000010a000002",
        "03e907d100180000a0a1a2a3a4a5a6a7b0b1b2b3b4b5b6b7",
    ],
    Ok(()),
);

// What is joined of files as pcap in a unit, and what is answered.
fn joins_as_pcap(rt: &impl Abort, alloc: Global, row: &Row, unit: Option<Unit>) {
    let (input, output, ending) = *row;
    let mut merged = merged_of(rt, alloc, sources_of(rt, alloc, input, 1));
    let mut writer = room_of(rt, alloc, 512);
    let answer = write_joined_pcap(alloc, &mut merged, Order::Little, unit, &mut writer);
    let found = (answer, writer.bytes());
    ask_written(rt, alloc, found, answer_of_files(ending), output);
}

#[test]
fn always_memory_datagrams_are_joined_as_pcap(rt: HostRuntime) {
    for row in &DATAGRAMS_AS_PCAP {
        joins_as_pcap(&rt, rt.alloc(), row, None);
    }
    joins_as_pcap(&rt, rt.alloc(), &JOINED_IN_NANO, Some(Unit::Nano));
}
