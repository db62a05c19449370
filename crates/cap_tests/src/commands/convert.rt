//! Files written in either format: values from the formats and from worked captures.
ghost use Rattle.std.specs.Prelude.{◌≤◌};

use crate::commands::answer_of_file;
use crate::commands::captures::{
    CARRIED_BIG, CARRIED_PCAP, CARRY_PCAP, CARRY_PCAPNG, OBSOLETE_PCAPNG,
};
use crate::files::{ask_written, reader_of, room_of};
use cap_bytes::{Order, Rule, Tail};
use cap_commands::{OutputFormat, convert_to};
use cap_time::Unit;
use std::alloc::Global;
use std::process::Abort;

// A capture with the order, the format, what is written, and how that ends: whole, or where and why it is refused.
type Row = (
    &'static str,
    Order,
    OutputFormat,
    &'static str,
    Result<(), (u64, Rule)>,
);

// The packet at 2.5 seconds, and one at 2 seconds and a nanosecond, in nanoseconds.
const CARRIED_NANO: &str = "4d3cb2a10200040000000000000000000000040001000000\
    020000000065cd1d040000000400000001020304";

const INEXACT_NANO: &str = "4d3cb2a10200040000000000000000000000040001000000\
    0200000001000000040000000400000001020304";

const WRITTEN: [Row; 16] = [
    (
        CARRY_PCAP,
        Order::Little,
        OutputFormat::Pcapng,
        CARRY_PCAPNG,
        Ok(()),
    ),
    (
        OBSOLETE_PCAPNG,
        Order::Little,
        OutputFormat::Pcapng,
        CARRY_PCAPNG,
        Ok(()),
    ),
    (
        CARRY_PCAPNG,
        Order::Little,
        OutputFormat::Pcap(None),
        CARRIED_PCAP,
        Ok(()),
    ),
    (
        CARRY_PCAPNG,
        Order::Big,
        OutputFormat::Pcap(None),
        CARRIED_BIG,
        Ok(()),
    ),
    (
        CARRY_PCAP,
        Order::Little,
        OutputFormat::Pcap(None),
        CARRIED_PCAP,
        Ok(()),
    ),
    // In the unit that is asked for; a time that isn't whole in it.
    (
        CARRY_PCAPNG,
        Order::Little,
        OutputFormat::Pcap(Some(Unit::Nano)),
        CARRIED_NANO,
        Ok(()),
    ),
    (
        CARRIED_NANO,
        Order::Little,
        OutputFormat::Pcap(Some(Unit::Micro)),
        CARRIED_PCAP,
        Ok(()),
    ),
    (
        INEXACT_NANO,
        Order::Little,
        OutputFormat::Pcap(Some(Unit::Micro)),
        "d4c3b2a10200040000000000000000000000040001000000",
        Err((24, Rule::Inexact)),
    ),
    // No interface; a second link; a time below 0; a packet without a time, in both formats; 1/1024 of a second; a
    // packet that is cut; an empty file.
    (
        "0a0d0d0a1c0000004d3c2b1a01000000ffffffffffffffff1c000000",
        Order::Little,
        OutputFormat::Pcap(None),
        "",
        Err((0, Rule::NoInterface)),
    ),
    (
        "0a0d0d0a1c0000004d3c2b1a01000000ffffffffffffffff1c000000\
        0100000014000000010000000000040014000000\
        06000000240000000000000000000000a025260004000000040000000102030424000000\
        0a0d0d0a0000001c1a2b3c4d00010000ffffffffffffffff0000001c\
        0000000100000014006500000004000000000014\
        0000000600000024000000000000000000\
        2625a000000004000000040102030400000024",
        Order::Little,
        OutputFormat::Pcap(None),
        CARRIED_PCAP,
        Err((132, Rule::LinkMixed)),
    ),
    (
        "0a0d0d0a1c0000004d3c2b1a01000000ffffffffffffffff1c000000\
        010000002c000000010000000000040009000100060000000e000800ffffffffffffffff000000002c000000\
        0600000024000000000000000000000020a1070004000000040000000102030424000000",
        Order::Little,
        OutputFormat::Pcap(None),
        "d4c3b2a10200040000000000000000000000040001000000",
        Err((72, Rule::TimeRange)),
    ),
    (
        "0a0d0d0a1c0000004d3c2b1a01000000ffffffffffffffff1c000000\
        0100000014000000010000000400000014000000\
        03000000140000000a0000000102030414000000",
        Order::Little,
        OutputFormat::Pcap(None),
        "d4c3b2a10200040000000000000000000400000001000000",
        Err((48, Rule::NoTime)),
    ),
    (
        "0a0d0d0a1c0000004d3c2b1a01000000ffffffffffffffff1c000000\
        0100000014000000010000000400000014000000\
        03000000140000000a0000000102030414000000",
        Order::Little,
        OutputFormat::Pcapng,
        "0a0d0d0a1c0000004d3c2b1a01000000ffffffffffffffff1c000000\
        0100000020000000010000000400000009000100060000000000000020000000",
        Err((48, Rule::NoTime)),
    ),
    (
        "0a0d0d0a1c0000004d3c2b1a01000000ffffffffffffffff1c000000\
        01000000200000000100000000000400090001008a0000000000000020000000\
        060000002400000000000000000000000100000004000000040000000102030424000000",
        Order::Little,
        OutputFormat::Pcap(None),
        "4d3cb2a10200040000000000000000000000040001000000",
        Err((60, Rule::Inexact)),
    ),
    (
        "d4c3b2a102000400000000000000000000000400010000000100000060e316000400000004000000010203",
        Order::Little,
        OutputFormat::Pcapng,
        "0a0d0d0a1c0000004d3c2b1a01000000ffffffffffffffff1c000000\
        0100000020000000010000000000040009000100060000000000000020000000",
        Err((24, Rule::Cut)),
    ),
    (
        "",
        Order::Little,
        OutputFormat::Pcapng,
        "0a0d0d0a1c0000004d3c2b1a01000000ffffffffffffffff1c000000",
        Err((0, Rule::Cut)),
    ),
];

// What is written and answered of a capture that is given by `piece` bytes at a time.
fn converts(rt: &impl Abort, alloc: Global, row: &Row, piece: usize)
    requires { 1 ≤ piece }
{
    let (capture, order, format, wanted, ending) = *row;
    let mut writer = room_of(rt, alloc, 256);
    let source = reader_of(rt, alloc, &[capture], piece);
    let answer = convert_to(alloc, source, Tail::Refuse, order, format, &mut writer);
    let found = (answer, writer.bytes());
    ask_written(rt, alloc, found, answer_of_file(ending), &[wanted]);
}

#[test]
fn always_memory_captures_are_written_in_either_format(rt: HostRuntime) {
    for row in &WRITTEN {
        for piece in [1, 4096] {
            converts(&rt, rt.alloc(), row, piece);
        }
    }
}
