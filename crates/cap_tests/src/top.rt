//! The conversations with the most bytes of a report.

use crate::checks::{holds, same};
use crate::files::{room_of, sources_of};
use crate::hex_vectors::{File, RAW};
use cap_bytes::{Fault, Tail};
use cap_print::{Form, TimeForm};
use cap_talks::{ReportOptions, report_with, top_rows_law};
use std::alloc::Global;
use std::process::Abort;

// Protocol 1 both ways, 40 bytes, and before it protocol 2 one way, 30 bytes, between the same addresses; then protocol
// 3, 40 bytes.
const TALKS: File = &[
    RAW,
    "01000000000000001e0000001e000000",
    "4500001e00010000400200000a0000010a00000203e807d0000a00006869",
    "02000000000000001400000014000000",
    "4500001400010000400100000a0000010a000002",
    "03000000000000001400000014000000",
    "4500001400010000400100000a0000020a000001",
    "04000000000000002800000028000000",
    "4500002800010000400300000a0000010a0000020000000000000000000000000000000000000000",
];

const HEAD: &str = "files 1\n\
    file 1 pcap packets 4 bytes 110 truncated 0 skipped 0 first 1+0/1000000 last 4+0/1000000\n\
    total packets 4 bytes 110 truncated 0\n\
    frames other-link 0 not-ipv4 0 short 0 cut 0 bad 0 unjoined 0 counted 4\n\
    joined 0 given-up 0\n\
    talks 3\n\
    talk p1 10.0.0.1 10.0.0.2 forward 1 20 backward 1 20 first 2+0/1000000 last 3+0/1000000\n";

const BOTH: &str = "files 1\n\
    file 1 pcap packets 4 bytes 110 truncated 0 skipped 0 first 1+0/1000000 last 4+0/1000000\n\
    total packets 4 bytes 110 truncated 0\n\
    frames other-link 0 not-ipv4 0 short 0 cut 0 bad 0 unjoined 0 counted 4\n\
    joined 0 given-up 0\n\
    talks 3\n\
    talk p1 10.0.0.1 10.0.0.2 forward 1 20 backward 1 20 first 2+0/1000000 last 3+0/1000000\n\
    talk p3 10.0.0.1 10.0.0.2 forward 1 40 backward 0 0 first 4+0/1000000 last 4+0/1000000\n";

// What a report with so many conversations answers and writes.
fn reports(rt: &impl Abort, alloc: Global, most: u32, wanted: &str) {
    let mut writer = room_of(rt, alloc, 1024);
    let sources = sources_of(rt, alloc, &[TALKS], 4096);
    holds!(rt; !sources.is_empty());
    holds!(rt; sources.len() <= 32);
    let options = ReportOptions {
        form: Form::Text(TimeForm::Exact),
        top: Some(most),
        counts: false,
        ipv6: false,
    };
    let answer: Result<_, Fault> = report_with(alloc, sources, Tail::Refuse, options, &mut writer);
    same!(rt; (answer.and(Ok(())), writer.bytes()), (Ok(()), wanted.as_bytes()));
}

#[test]
fn always_memory_the_greatest_conversations_are_shown(rt: HostRuntime) {
    top_rows_law();
    for (most, wanted) in [(1, HEAD), (2, BOTH)] {
        reports(&rt, rt.alloc(), most, wanted);
    }
}
