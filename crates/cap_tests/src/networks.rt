//! The networks other than IPv4 of the packets of a report.

use crate::checks::{holds, same};
use crate::files::{room_of, sources_of};
use crate::hex_vectors::{File, RAW};
use cap_bytes::{Fault, Tail};
use cap_print::{Form, TimeForm};
use cap_talks::{NO_OTHERS, OtherCounts, ReportLeft, other_networks_law, report_and_count};
use std::alloc::Global;
use std::process::Abort;

// Ethernet frames of the types 86DD, 0806, 0026, which is a length, 0806 behind a tag, and 0800.
const ETHERNET_FRAMES: File = &[
    "d4c3b2a10200040000000000000000000000040001000000",
    "01000000000000000e0000000e000000",
    "02000000000202000000000186dd",
    "02000000000000000e0000000e000000",
    "0200000000020200000000010806",
    "03000000000000000e0000000e000000",
    "0200000000020200000000010026",
    "04000000000000001200000012000000",
    "020000000002020000000001810000640806",
    "05000000000000000e0000000e000000",
    "0200000000020200000000010800",
];

// A packet of version 6 without a link header.
const RAW_IPV6: File = &[RAW, "01000000000000000400000004000000", "60000000"];

// What a report of both leaves.
fn reports(rt: &impl Abort, alloc: Global, counts: bool) -> Result<ReportLeft, Fault> {
    let mut writer = room_of(rt, alloc, 1024);
    let sources = sources_of(rt, alloc, &[ETHERNET_FRAMES, RAW_IPV6], 4096);
    holds!(rt; !sources.is_empty());
    holds!(rt; sources.len() <= 32);
    report_and_count(
        alloc,
        sources,
        Tail::Refuse,
        Form::Text(TimeForm::Exact),
        counts,
        &mut writer,
    )
}

#[test]
fn always_memory_networks_are_counted(rt: HostRuntime) {
    other_networks_law();
    same!(&rt; NO_OTHERS.ipv6 + NO_OTHERS.arp + NO_OTHERS.other, 0);
    let counted = OtherCounts {
        ipv6: 2,
        arp: 2,
        other: 1,
    };
    for (counts, not_ipv4) in [(true, Some(counted)), (false, None)] {
        let cuts = [None; 32];
        same!(&rt; reports(&rt, rt.alloc(), counts), Ok(ReportLeft { cuts, not_ipv4 }));
    }
}
