//! Reports of worked captures.
ghost use Rattle.std.specs.Prelude.{◌≤◌};

use crate::checks::same;
use crate::files::{report_to, room_of, sources_of};
use crate::hex_vectors::{CUT_PCAP, FRAGMENT_FRAMES, File, HEADER_ONLY, SECTION, TAGGED_FRAMES};
use cap_bytes::Tail;
use std::alloc::Global;
use std::process::Abort;

// An interface of IP alone.
const INTERFACE: &str = "0100000014000000650000000000000014000000";

// A datagram from 10.0.0.1:1000 to 10.0.0.2:2000 in a simple packet, and in an enhanced one at 5,000,000 units.
const SIMPLE: &str = "03000000300000001e000000\
    4500001e00010000401100000a0000010a00000203e807d0000a00006869000030000000";

const AT_FIVE: &str = "06000000400000000000000000000000404b4c001e0000001e000000\
    4500001e00010000401100000a0000010a00000203e807d0000a00006869000040000000";

// 512 units of 1/1024, and 5 units of 1/10.
pub(crate) const BINARY: File = &[
    SECTION,
    "010000001c0000006500000000000400090001008a0000001c000000",
    "06000000400000000000000000000000000200001e0000001e0000004500001e00010000401100000a0000010a000002\
    03e807d0000a00006869000040000000",
];

pub(crate) const TENTHS: File = &[
    SECTION,
    "010000001c000000650000000000040009000100010000001c000000",
    "06000000400000000000000000000000050000001e0000001e0000004500001e00010000401100000a0000010a000002\
    03e807d0000a00006869000040000000",
];

pub(crate) const UNTIMED: File = &[SECTION, INTERFACE, SIMPLE];

pub(crate) const UNTIMED_THEN_TIMED: File = &[SECTION, INTERFACE, SIMPLE, AT_FIVE];

const TIMED_THEN_UNTIMED: File = &[SECTION, INTERFACE, AT_FIVE, SIMPLE];

const HEADER_REPORT: &str = "files 1\n\
    file 1 pcap packets 0 bytes 0 truncated 0 skipped 0 first - last -\n\
    total packets 0 bytes 0 truncated 0\n\
    frames other-link 0 not-ipv4 0 short 0 cut 0 bad 0 unjoined 0 counted 0\n\
    joined 0 given-up 0\n\
    talks 0\n";

const CUT_REPORT: &str = "files 1\n\
    file 1 pcap packets 0 bytes 0 truncated 0 skipped 0 first - last - cut\n\
    total packets 0 bytes 0 truncated 0\n\
    frames other-link 0 not-ipv4 0 short 0 cut 0 bad 0 unjoined 0 counted 0\n\
    joined 0 given-up 0\n\
    talks 0\n";

pub(crate) const TAGGED_REPORT: &str = "files 1\n\
    file 1 pcap packets 3 bytes 180 truncated 0 skipped 0 first 1+0/1000000 last 3+0/1000000\n\
    total packets 3 bytes 180 truncated 0\n\
    frames other-link 0 not-ipv4 0 short 0 cut 0 bad 1 unjoined 0 counted 2\n\
    joined 0 given-up 0\n\
    talks 1\n\
    talk udp 10.0.0.1:1000 10.0.0.2:2000 forward 1 60 backward 1 60 first 1+0/1000000 last 2+0/1000000\n";

pub(crate) const FRAGMENT_REPORT: &str = "files 1\n\
    file 1 pcap packets 4 bytes 112 truncated 0 skipped 0 first 1+0/1000000 last 4+0/1000000\n\
    total packets 4 bytes 112 truncated 0\n\
    frames other-link 0 not-ipv4 0 short 0 cut 0 bad 0 unjoined 0 counted 4\n\
    joined 1 given-up 0\n\
    talks 1\n\
    talk udp 10.0.0.1:1001 10.0.0.2:2001 forward 4 112 backward 0 0 first 1+0/1000000 last 4+0/1000000\n";

// Equal times: the form of the lower file.
pub(crate) const BINARY_REPORT: &str = "files 2\n\
    file 1 pcapng packets 1 bytes 30 truncated 0 skipped 0 first 0+512/1024 last 0+512/1024\n\
    file 2 pcapng packets 1 bytes 30 truncated 0 skipped 0 first 0+5/10 last 0+5/10\n\
    total packets 2 bytes 60 truncated 0\n\
    frames other-link 0 not-ipv4 0 short 0 cut 0 bad 0 unjoined 0 counted 2\n\
    joined 0 given-up 0\n\
    talks 1\n\
    talk udp 10.0.0.1:1000 10.0.0.2:2000 forward 2 60 backward 0 0 first 0+512/1024 last 0+512/1024\n";

const TENTHS_REPORT: &str = "files 2\n\
    file 1 pcapng packets 1 bytes 30 truncated 0 skipped 0 first 0+5/10 last 0+5/10\n\
    file 2 pcapng packets 1 bytes 30 truncated 0 skipped 0 first 0+512/1024 last 0+512/1024\n\
    total packets 2 bytes 60 truncated 0\n\
    frames other-link 0 not-ipv4 0 short 0 cut 0 bad 0 unjoined 0 counted 2\n\
    joined 0 given-up 0\n\
    talks 1\n\
    talk udp 10.0.0.1:1000 10.0.0.2:2000 forward 2 60 backward 0 0 first 0+5/10 last 0+5/10\n";

const UNTIMED_REPORT: &str = "files 1\n\
    file 1 pcapng packets 1 bytes 30 truncated 0 skipped 0 first - last -\n\
    total packets 1 bytes 30 truncated 0\n\
    frames other-link 0 not-ipv4 0 short 0 cut 0 bad 0 unjoined 0 counted 1\n\
    joined 0 given-up 0\n\
    talks 1\n\
    talk udp 10.0.0.1:1000 10.0.0.2:2000 forward 1 30 backward 0 0 first - last -\n";

// A packet without a time adds to its conversation, and leaves its times.
const TIMED_REPORT: &str = "files 1\n\
    file 1 pcapng packets 2 bytes 60 truncated 0 skipped 0 first 5+0/1000000 last 5+0/1000000\n\
    total packets 2 bytes 60 truncated 0\n\
    frames other-link 0 not-ipv4 0 short 0 cut 0 bad 0 unjoined 0 counted 2\n\
    joined 0 given-up 0\n\
    talks 1\n\
    talk udp 10.0.0.1:1000 10.0.0.2:2000 forward 2 60 backward 0 0 first 5+0/1000000 last 5+0/1000000\n";

// Files, whether a cut end is dropped, and their report.
type Reported = (&'static [File], Tail, &'static str);

const REPORTED: [Reported; 9] = [
    (&[HEADER_ONLY], Tail::Refuse, HEADER_REPORT),
    (&[CUT_PCAP], Tail::Accept, CUT_REPORT),
    (&[TAGGED_FRAMES], Tail::Refuse, TAGGED_REPORT),
    (&[FRAGMENT_FRAMES], Tail::Refuse, FRAGMENT_REPORT),
    (&[BINARY, TENTHS], Tail::Refuse, BINARY_REPORT),
    (&[TENTHS, BINARY], Tail::Refuse, TENTHS_REPORT),
    (&[UNTIMED], Tail::Refuse, UNTIMED_REPORT),
    (&[UNTIMED_THEN_TIMED], Tail::Refuse, TIMED_REPORT),
    (&[TIMED_THEN_UNTIMED], Tail::Refuse, TIMED_REPORT),
];

// What is reported of files by `piece` bytes at a time.
fn reports(rt: &impl Abort, alloc: Global, row: &Reported, piece: usize)
    requires { 1 ≤ piece }
{
    let (files, tail, wanted) = *row;
    let mut writer = room_of(rt, alloc, 1024);
    let sources = sources_of(rt, alloc, files, piece);
    let answer = report_to(rt, alloc, sources, tail, &mut writer);
    same!(rt; (answer, writer.bytes()), (Ok(()), wanted.as_bytes()));
}

#[test]
fn always_memory_worked_files_are_reported(rt: HostRuntime) {
    for row in &REPORTED {
        for piece in [1, 4096] {
            reports(&rt, rt.alloc(), row, piece);
        }
    }
}
