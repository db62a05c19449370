//! Jobs, over worked captures of the formats.
use crate::checks::{holds, same};
use crate::commands::captures::{
    CARRIED_BIG, CARRIED_PCAP, CARRY_PCAP, CARRY_PCAPNG, SECTION, TWICE,
};
use crate::files::{ask_written, readers_of, room_of};
use cap_bytes::{CutRest, Fault, Order, Sink};
use cap_commands::{Done, DroppedInfo, Finding, NOTHING_LEFT, job_to};
use cap_line::{
    Job, NOTHING_IGNORED, Task, can_have_unit, can_replace, can_share, can_skip, is_whole,
};
use cap_print::TimeForm;
use cap_source::Format;
use cap_talks::NO_OTHERS;
use cap_time::Unit;
use cap_write::NO_PACKETS_LEFT_OUT;
use std::alloc::Global;
use std::process::Abort;

const CUT_PCAP: &str = "d4c3b2a1020004000000000000000000000004000100000001000000\
    60e316000400000004000000010203";

const LINE: &str =
    "packet 1 offset 24 time 2+500000/1000000 captured 4 original 4 link 1 data 01020304\n";

const ENDED: &str = "differ packet 1 end\n\
    - packet 1 offset 24 time 2+500000/1000000 captured 4 original 4 link 1 data 01020304\n\
    + end\n";

const DIGEST: &str = "digest 1 sha256 \
    ae7312267c797be18247384507fd1956f2af9397397bd84f72a62298f1352b4e packets 1\n";

const CHECK: &str = "check 1 pcap packets 1 bytes 4 first 2+500000/1000000 last 2+500000/1000000 \
    backward 0 untimed 0 truncated 0 skipped 0 interfaces 1 whole\n";

// Of a capture whose record is cut, and of one that is whole.
const CHECKS: &str = "check 1 pcap packets 0 bytes 0 first - last - \
    backward 0 untimed 0 truncated 0 skipped 0 interfaces 1 refused offset 24 rule 3 cut\n\
    check 2 pcap packets 1 bytes 4 first 2+500000/1000000 last 2+500000/1000000 \
    backward 0 untimed 0 truncated 0 skipped 0 interfaces 1 whole\n";

const DIGEST_CHECKS: &str = "check 1 pcap packets 0 bytes 0 first - last - \
    backward 0 untimed 0 truncated 0 skipped 0 interfaces 1 sha256 - refused offset 24 rule 3 cut\n\
    check 2 pcap packets 1 bytes 4 first 2+500000/1000000 last 2+500000/1000000 \
    backward 0 untimed 0 truncated 0 skipped 0 interfaces 1 sha256 \
    ae7312267c797be18247384507fd1956f2af9397397bd84f72a62298f1352b4e whole\n";

const DIGESTS: &str = "digest 1 refused offset 24 rule 3 cut\n\
    digest 2 sha256 \
    ae7312267c797be18247384507fd1956f2af9397397bd84f72a62298f1352b4e packets 1\n";

const INFO: &str = "files 1\n\
    file 1 pcap packets 1 bytes 4 truncated 0 skipped 0 first 2+500000/1000000 last 2+500000/1000000\n";

const REPORT: &str = "files 1\n\
    file 1 pcap packets 1 bytes 4 truncated 0 skipped 0 first 2+500000/1000000 last 2+500000/1000000\n\
    total packets 1 bytes 4 truncated 0\n\
    frames other-link 0 not-ipv4 0 short 1 cut 0 bad 0 unjoined 0 counted 0\n\
    joined 0 given-up 0\n\
    talks 0\n";

// A task, whether a cut end is dropped, the capture, in hex, and what is printed.
type Printed = (Task, bool, &'static str, &'static str);

const PRINTED: [Printed; 7] = [
    (Task::List, false, CARRY_PCAP, LINE),
    (Task::List, true, CUT_PCAP, ""),
    (
        Task::Blocks,
        false,
        SECTION,
        "block 1 offset 0 order little kind 0a0d0d0a total 28\n",
    ),
    (Task::Digest, false, CARRY_PCAP, DIGEST),
    (Task::Check, false, CARRY_PCAP, CHECK),
    (Task::Info, false, CARRY_PCAP, INFO),
    (Task::Report, false, CARRY_PCAP, REPORT),
];

// A task, the order, the format and the unit that it writes, the captures, and what is written, in hex. A join writes
// no datagram of frames of 4 bytes.
type Written = (
    Task,
    Order,
    Option<Format>,
    Option<Unit>,
    &'static [&'static str],
    &'static str,
);

// The packet of CARRY_PCAPNG in nanoseconds.
const CARRIED_NANO: &str = "4d3cb2a10200040000000000000000000000040001000000\
    020000000065cd1d040000000400000001020304";

const WRITTEN: [Written; 7] = [
    (
        Task::Convert,
        Order::Little,
        Some(Format::Pcapng),
        None,
        &[CARRY_PCAP],
        CARRY_PCAPNG,
    ),
    (
        Task::Convert,
        Order::Little,
        Some(Format::Pcap),
        None,
        &[CARRY_PCAPNG],
        CARRIED_PCAP,
    ),
    (
        Task::Convert,
        Order::Big,
        Some(Format::Pcap),
        None,
        &[CARRY_PCAPNG],
        CARRIED_BIG,
    ),
    (
        Task::Merge,
        Order::Little,
        None,
        None,
        &[CARRY_PCAP, CARRY_PCAP],
        TWICE,
    ),
    (
        Task::Join,
        Order::Little,
        None,
        None,
        &[CARRY_PCAP],
        SECTION,
    ),
    (
        Task::Convert,
        Order::Little,
        Some(Format::Pcap),
        Some(Unit::Nano),
        &[CARRY_PCAPNG],
        CARRIED_NANO,
    ),
    (
        Task::Merge,
        Order::Little,
        Some(Format::Pcap),
        Some(Unit::Nano),
        &[CARRY_PCAP],
        CARRIED_NANO,
    ),
];

// What a job of that many captures answers.
fn does<W: Sink>(
    rt: &impl Abort,
    alloc: Global,
    job: &Job<'_>,
    captures: &[&str],
    writer: &mut W,
) -> Result<Finding, Fault> {
    let sources = readers_of(rt, alloc, captures, 4096);
    holds!(rt; sources.len() == job.files.len());
    holds!(rt; !job.files.is_empty());
    holds!(rt; job.files.len() <= 32);
    holds!(rt; job.list.is_none());
    holds!(rt; job.verify.is_none());
    holds!(rt; is_whole(job.task, job.files.len(), job.to, job.out));
    holds!(rt; can_replace(job.whole, job.out));
    holds!(rt; can_share(job.shares, job.to));
    holds!(rt; can_skip(job.skips, job.files.as_slice()));
    holds!(rt; can_have_unit(job.unit, job.to));
    let done = job_to(alloc, job, sources, false, writer)?;
    Ok(done.finding)
}

// What a job of two captures that writes answers, which counts what it leaves.
fn counts<W: Sink>(
    rt: &impl Abort,
    alloc: Global,
    job: &Job<'_>,
    captures: &[&str],
    writer: &mut W,
) -> Result<Done, Fault> {
    let sources = readers_of(rt, alloc, captures, 4096);
    holds!(rt; sources.len() == job.files.len());
    holds!(rt; !job.files.is_empty());
    holds!(rt; job.files.len() <= 32);
    holds!(rt; job.list.is_none());
    holds!(rt; job.verify.is_none());
    holds!(rt; is_whole(job.task, job.files.len(), job.to, job.out));
    holds!(rt; can_replace(job.whole, job.out));
    holds!(rt; can_share(job.shares, job.to));
    holds!(rt; can_skip(job.skips, job.files.as_slice()));
    holds!(rt; can_have_unit(job.unit, job.to));
    job_to(alloc, job, sources, true, writer)
}

// A job of one capture that prints.
fn printing(rt: &impl Abort, alloc: Global, task: Task, allow_cut: bool) -> Job<'static> {
    let mut files = Vec::new(alloc);
    files.push("a").expect(rt, "memory");
    Job {
        task,
        files,
        allow_cut,
        order: Order::Little,
        to: None,
        unit: None,
        out: None,
        explain: false,
        whole: false,
        json: false,
        data: None,
        time: TimeForm::Exact,
        top: None,
        ignored: NOTHING_IGNORED,
        list: None,
        verify: None,
        class: false,
        ipv6: false,
        digests: false,
        names: false,
        shares: false,
        skips: false,
    }
}

// What a job prints.
fn prints(rt: &impl Abort, alloc: Global, row: &Printed) {
    let (task, allow_cut, capture, text) = *row;
    let job = printing(rt, alloc, task, allow_cut);
    let mut writer = room_of(rt, alloc, 1024);
    let answer = does(rt, alloc, &job, &[capture], &mut writer);
    let wanted = (Ok(Finding::Nothing), text.as_bytes());
    same!(rt; (answer, writer.bytes()), wanted, task);
}

const CLASSED_LINE: &str = "packet 1 offset 24 time 2+500000/1000000 captured 4 original 4 \
    link 1 data 01020304 class short\n";

#[test]
fn a_job_lists_the_class_of_each_packet(rt: HostRuntime) {
    let alloc = rt.alloc();
    let mut job = printing(&rt, alloc, Task::List, false);
    job.class = true;
    let mut writer = room_of(&rt, alloc, 1024);
    let answer = does(&rt, alloc, &job, &[CARRY_PCAP], &mut writer);
    let wanted = (Ok(Finding::Nothing), CLASSED_LINE.as_bytes());
    same!(&rt; (answer, writer.bytes()), wanted);
}

// A datagram of UDP over IPv6, without a link header.
const IPV6_PCAP: &str =
    "d4c3b2a1020004000000000000000000000004006500000001000000000000003000000030000000\
    600000000008114020010db800000000000000000000000120010db800000000000000000000000203e807d0000898b1";

const IPV6_LINE: &str = "packet 1 offset 24 time 1+0/1000000 captured 48 original 48 link 101 \
    data 600000000008114020010db800000000 class counted udp [2001:db8::1]:1000 [2001:db8::2]:2000\n";

const IPV6_REPORT: &str = "files 1\n\
    file 1 pcap packets 1 bytes 48 truncated 0 skipped 0 first 1+0/1000000 last 1+0/1000000\n\
    total packets 1 bytes 48 truncated 0\n\
    frames other-link 0 not-ip 0 short 0 cut 0 bad 0 unjoined 0 counted 1\n\
    joined 0 given-up 0\n\
    talks 1\n\
    talk udp [2001:db8::1]:1000 [2001:db8::2]:2000 forward 1 48 backward 0 0 first 1+0/1000000 last 1+0/1000000\n";

// What a job prints of that datagram that reads IPv6 packets.
fn reads_ipv6(rt: &impl Abort, alloc: Global, task: Task, text: &str) {
    let mut job = printing(rt, alloc, task, false);
    job.class = true;
    job.ipv6 = true;
    let mut writer = room_of(rt, alloc, 1024);
    let answer = does(rt, alloc, &job, &[IPV6_PCAP], &mut writer);
    same!(rt; (answer, writer.bytes()), (Ok(Finding::Nothing), text.as_bytes()), task);
}

#[test]
fn jobs_read_ipv6(rt: HostRuntime) {
    reads_ipv6(&rt, rt.alloc(), Task::List, IPV6_LINE);
    reads_ipv6(&rt, rt.alloc(), Task::Report, IPV6_REPORT);
}

// What a job of two captures finds: a task, and whether its lines have a digest.
fn finds(
    rt: &impl Abort,
    alloc: Global,
    (task, digests): (Task, bool),
    captures: &[&str],
    text: &str,
    finding: Finding,
) {
    let mut job = printing(rt, alloc, task, false);
    job.digests = digests;
    job.files.push("b").expect(rt, "memory");
    let mut writer = room_of(rt, alloc, 1024);
    let answer = does(rt, alloc, &job, captures, &mut writer);
    same!(rt; (answer, writer.bytes()), (Ok(finding), text.as_bytes()));
}

#[test]
fn a_job_finds_a_difference(rt: HostRuntime) {
    let alloc = rt.alloc();
    let same = [CARRY_PCAP, CARRY_PCAPNG];
    let text = "same packets 1\n";
    finds(
        &rt,
        alloc,
        (Task::Diff, false),
        same.as_slice(),
        text,
        Finding::Nothing,
    );
    let other = [CARRY_PCAP, SECTION];
    finds(
        &rt,
        alloc,
        (Task::Diff, false),
        other.as_slice(),
        ENDED,
        Finding::Difference,
    );
}

// A task and whether its lines have a digest, and what is printed of a capture whose record is cut, and of a whole one.
const NOT_WHOLE: [((Task, bool), &str); 3] = [
    ((Task::Check, false), CHECKS),
    ((Task::Check, true), DIGEST_CHECKS),
    ((Task::Digest, false), DIGESTS),
];

#[test]
fn a_job_finds_a_file_that_is_not_whole(rt: HostRuntime) {
    let files = [CUT_PCAP, CARRY_PCAP];
    for (task, text) in &NOT_WHOLE {
        finds(
            &rt,
            rt.alloc(),
            *task,
            files.as_slice(),
            *text,
            Finding::NotWhole,
        );
    }
}

// What a job writes.
fn writes(rt: &impl Abort, alloc: Global, row: &Written) {
    let (task, order, to, unit, captures, text) = *row;
    let mut files = Vec::new(alloc);
    for _ in captures {
        files.push("a").expect(rt, "memory");
    }
    let job = Job {
        task,
        files,
        allow_cut: false,
        order,
        to,
        unit,
        out: Some("b"),
        explain: false,
        whole: false,
        json: false,
        data: None,
        time: TimeForm::Exact,
        top: None,
        ignored: NOTHING_IGNORED,
        list: None,
        verify: None,
        class: false,
        ipv6: false,
        digests: false,
        names: false,
        shares: false,
        skips: false,
    };
    let mut writer = room_of(rt, alloc, 1024);
    let answer = does(rt, alloc, &job, captures, &mut writer);
    same!(rt; answer, Ok(Finding::Nothing), task);
    ask_written(rt, alloc, (Ok(()), writer.bytes()), Ok(()), &[text]);
}

#[test]
fn each_job_is_done(rt: HostRuntime) {
    for row in &PRINTED {
        prints(&rt, rt.alloc(), row);
    }
    for row in &WRITTEN {
        writes(&rt, rt.alloc(), row);
    }
}

// A section and a statistics block, which is skipped.
const SKIPPING: &str = "0a0d0d0a1c0000004d3c2b1a01000000ffffffffffffffff1c000000\
    05000000180000000000000000000000a025260018000000";

// A task of two captures that skip a block each, and how many it says aren't carried on.
fn leaves(rt: &impl Abort, alloc: Global, task: Task, skipped: u128) {
    let mut job = printing(rt, alloc, task, false);
    job.files.push("b").expect(rt, "memory");
    job.out = if skipped == 0 { None } else { Some("c") };
    let mut writer = room_of(rt, alloc, 1024);
    let answer = counts(rt, alloc, &job, &[SKIPPING, SKIPPING], &mut writer);
    let wanted = Done {
        finding: Finding::Nothing,
        left: DroppedInfo {
            skipped,
            secret_blocks: 0,
            name_blocks: 0,
            named: 0,
            comments: 0,
            ran_back: 0,
            cuts: [None; 32],
            left_out: match task {
                Task::Join => Some(NO_PACKETS_LEFT_OUT),
                _ => None,
            },
            not_ipv4: match task {
                Task::Report => Some(NO_OTHERS),
                _ => None,
            },
        },
    };
    same!(rt; answer, Ok(wanted), task);
}

// The same without its last byte.
const CUT_BLOCK: &str = "0a0d0d0a1c0000004d3c2b1a01000000ffffffffffffffff1c000000\
    05000000180000000000000000000000a0252600180000";

// A task drops the end of a capture: so many bytes, from that offset on.
fn drops(rt: &impl Abort, alloc: Global, task: Task, capture: &str, rest: CutRest) {
    let job = printing(rt, alloc, task, true);
    let mut writer = room_of(rt, alloc, 1024);
    let answer = counts(rt, alloc, &job, &[capture], &mut writer);
    let mut left = NOTHING_LEFT;
    left.cuts[0] = Some(rest);
    if let Task::Report = task {
        left.not_ipv4 = Some(NO_OTHERS);
    }
    let finding = Finding::Nothing;
    same!(rt; answer, Ok(Done { finding, left }), task);
}

#[test]
fn always_memory_a_job_says_what_was_cut(rt: HostRuntime) {
    let record = CutRest {
        offset: 24,
        size: 19,
    };
    let block = CutRest {
        offset: 28,
        size: 23,
    };
    drops(&rt, rt.alloc(), Task::List, CUT_PCAP, record);
    drops(&rt, rt.alloc(), Task::Blocks, CUT_BLOCK, block);
    drops(&rt, rt.alloc(), Task::Info, CUT_PCAP, record);
    drops(&rt, rt.alloc(), Task::Report, CUT_PCAP, record);
}

// `diff` drops the end of both captures; neither has a packet.
#[test]
fn always_memory_a_job_says_what_was_cut_of_two(rt: HostRuntime) {
    let mut job = printing(&rt, rt.alloc(), Task::Diff, true);
    job.files.push("b").expect(&rt, "memory");
    let mut writer = room_of(&rt, rt.alloc(), 1024);
    let answer = counts(&rt, rt.alloc(), &job, &[CUT_PCAP, CUT_PCAP], &mut writer);
    let mut left = NOTHING_LEFT;
    let rest = CutRest {
        offset: 24,
        size: 19,
    };
    left.cuts[0] = Some(rest);
    left.cuts[1] = Some(rest);
    let finding = Finding::Nothing;
    same!(&rt; answer, Ok(Done { finding, left }));
    same!(&rt; writer.bytes(), b"same packets 0 cut A cut B\n");
}

#[test]
fn always_memory_a_job_counts_what_it_leaves(rt: HostRuntime) {
    for (task, skipped) in [
        (Task::Digest, 0),
        (Task::Check, 0),
        (Task::Info, 0),
        (Task::Report, 0),
        (Task::Merge, 2),
        (Task::Join, 2),
    ] {
        leaves(&rt, rt.alloc(), task, skipped);
    }
}
