//! Conversations of IPv6 beside those of IPv4.

use crate::checks::{holds, same};
use crate::files::{room_of, sources_of};
use crate::hex_vectors::{File, RAW};
use cap_bytes::{Fault, Tail};
use cap_print::{Form, TimeForm};
use cap_talks::{ReportOptions, ipv6_law, report_with};
use std::alloc::Global;
use std::process::Abort;

// A datagram of UDP over IPv6 and its answer, one over IPv4, one of ICMPv6, a fragment, and a packet of another
// version.
const TALKS: File = &[
    RAW,
    "01000000000000003200000032000000",
    "60000000000a114020010db800000000000000000000000120010db800000000000000000000000203e807d0000a00006869",
    "02000000000000003200000032000000",
    "60000000000a114020010db800000000000000000000000220010db800000000000000000000000107d003e8000a00006869",
    "03000000000000001e0000001e000000",
    "4500001e00010000401100000a0000010a00000203e807d0000a00006869",
    "04000000000000002c0000002c000000",
    "6000000000043a40fe800000000000000000000000000001ff02000000000000000000000000000100000000",
    "05000000000000003800000038000000",
    "6000000000102c4020010db800000000000000000000000120010db800000000000000000000000211000001000000070000\
     000000000000",
    "06000000000000000100000001000000",
    "50",
];

const READ: &str = "files 1\n\
    file 1 pcap packets 6 bytes 231 truncated 0 skipped 0 first 1+0/1000000 last 6+0/1000000\n\
    total packets 6 bytes 231 truncated 0\n\
    frames other-link 0 not-ip 1 short 0 cut 0 bad 0 unjoined 1 counted 4\n\
    joined 0 given-up 0\n\
    talks 3\n\
    talk udp [2001:db8::1]:1000 [2001:db8::2]:2000 forward 1 50 backward 1 50 first 1+0/1000000 last 2+0/1000000\n\
    talk udp 10.0.0.1:1000 10.0.0.2:2000 forward 1 30 backward 0 0 first 3+0/1000000 last 3+0/1000000\n\
    talk p58 fe80::1 ff02::1 forward 1 44 backward 0 0 first 4+0/1000000 last 4+0/1000000\n";

const UNREAD: &str = "files 1\n\
    file 1 pcap packets 6 bytes 231 truncated 0 skipped 0 first 1+0/1000000 last 6+0/1000000\n\
    total packets 6 bytes 231 truncated 0\n\
    frames other-link 0 not-ipv4 5 short 0 cut 0 bad 0 unjoined 0 counted 1\n\
    joined 0 given-up 0\n\
    talks 1\n\
    talk udp 10.0.0.1:1000 10.0.0.2:2000 forward 1 30 backward 0 0 first 3+0/1000000 last 3+0/1000000\n";

// What a report that reads IPv6 packets or not writes.
fn reports(rt: &impl Abort, alloc: Global, ipv6: bool, wanted: &str) {
    let mut writer = room_of(rt, alloc, 2048);
    let sources = sources_of(rt, alloc, &[TALKS], 4096);
    holds!(rt; !sources.is_empty());
    holds!(rt; sources.len() <= 32);
    let options = ReportOptions {
        form: Form::Text(TimeForm::Exact),
        top: None,
        counts: false,
        ipv6,
    };
    let answer: Result<_, Fault> = report_with(alloc, sources, Tail::Refuse, options, &mut writer);
    same!(rt; (answer.and(Ok(())), writer.bytes()), (Ok(()), wanted.as_bytes()));
}

#[test]
fn always_memory_ipv6_is_read_or_not(rt: HostRuntime) {
    ipv6_law();
    reports(&rt, rt.alloc(), true, READ);
    reports(&rt, rt.alloc(), false, UNREAD);
}
