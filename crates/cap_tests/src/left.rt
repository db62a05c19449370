//! What commands leave out of what they write, or as it was.

use crate::checks::{holds, same};
use crate::files::{reader_of, room_of, sources_of};
use crate::hex_vectors::{
    COMMENTS_PCAPNG, CUT_PCAP, File, LATE, OPTIONS_PCAPNG, RUNS_BACK, RUNS_ON, SKIPPED_PCAPNG,
};
use cap_bytes::{CutRest, Fault, Order, Pieces, Refusal, Rule, Sink, Source, Tail};
use cap_commands::{
    DroppedInfo, OutputFormat, RunForm, convert_and_count, join_and_count, merge_and_count,
};
use cap_merge::{Merged, merge_files};
use cap_print::{Form, TimeForm};
use cap_source::{Capture, PacketFeed};
use cap_talks::{file_lines_and_cuts, report_and_count};
use std::alloc::Global;
use std::process::Abort;

const CUT: Fault = Fault::Refused(Refusal {
    file: 2,
    offset: 24,
    rule: Rule::Cut,
});

// Files, how a merge or a join of them ends, how many blocks they hold that are skipped, how many of these have secrets
// and how many names, how many interfaces have a name, how many comments there are, and how many packets go backward.
type Row = (&'static [File], Result<(), Fault>, [u128; 6]);

const LEFT: [Row; 7] = [
    (&[OPTIONS_PCAPNG], Ok(()), [1, 0, 0, 1, 0, 0]),
    (&[RUNS_ON, RUNS_ON], Ok(()), [0, 0, 0, 0, 0, 0]),
    (&[RUNS_BACK, RUNS_BACK], Ok(()), [0, 0, 0, 0, 0, 2]),
    (
        &[OPTIONS_PCAPNG, RUNS_BACK, OPTIONS_PCAPNG],
        Ok(()),
        [2, 0, 0, 2, 0, 1],
    ),
    (
        &[SKIPPED_PCAPNG, OPTIONS_PCAPNG, SKIPPED_PCAPNG],
        Ok(()),
        [11, 4, 2, 1, 0, 0],
    ),
    (
        &[COMMENTS_PCAPNG, RUNS_ON, COMMENTS_PCAPNG],
        Ok(()),
        [0, 0, 0, 0, 8, 0],
    ),
    (&[RUNS_BACK, CUT_PCAP], Err(CUT), [0, 0, 0, 0, 0, 0]),
];

// What a merge of 1 to 32 files answers, whose packets that run backward are counted.
fn merge<R: Source, W: Sink>(
    rt: &impl Abort,
    alloc: Global,
    sources: Vec<R>,
    tail: Tail,
    writer: &mut W,
) -> Result<DroppedInfo, Fault> {
    holds!(rt; !sources.is_empty());
    holds!(rt; sources.len() <= 32);
    let form = RunForm::Pcapng;
    merge_and_count(alloc, sources, tail, Order::Little, form, true, writer)
}

// What a join of 1 to 32 files answers, whose packets that run backward are counted.
fn join<R: Source, W: Sink>(
    rt: &impl Abort,
    alloc: Global,
    sources: Vec<R>,
    tail: Tail,
    writer: &mut W,
) -> Result<DroppedInfo, Fault> {
    holds!(rt; !sources.is_empty());
    holds!(rt; sources.len() <= 32);
    let format = OutputFormat::Pcapng;
    join_and_count(alloc, sources, tail, Order::Little, format, true, writer)
}

// What is answered of files that are merged or joined.
fn wanted(row: &Row) -> Result<DroppedInfo, Fault> {
    let (_, ending, counts) = *row;
    ending?;
    let [
        skipped,
        secret_blocks,
        name_blocks,
        named,
        comments,
        ran_back,
    ] = counts;
    Ok(DroppedInfo {
        skipped,
        secret_blocks,
        name_blocks,
        named,
        comments,
        ran_back,
        cuts: [None; 32],
        left_out: None,
        not_ipv4: None,
    })
}

// What is left of files that are merged.
fn merges(rt: &impl Abort, alloc: Global, row: &Row) {
    let mut writer = room_of(rt, alloc, 512);
    let sources = sources_of(rt, alloc, row.0, 4096);
    let answer = merge(rt, alloc, sources, Tail::Refuse, &mut writer);
    same!(rt; answer, wanted(row), row.0);
}

// What a join answers, without the packets that it leaves out.
fn without_left_out(answer: Result<DroppedInfo, Fault>) -> Result<DroppedInfo, Fault> {
    let mut left = answer?;
    left.left_out = None;
    Ok(left)
}

// What is left of files that are joined.
fn joins(rt: &impl Abort, alloc: Global, row: &Row) {
    let mut writer = room_of(rt, alloc, 512);
    let sources = sources_of(rt, alloc, row.0, 4096);
    let answer = join(rt, alloc, sources, Tail::Refuse, &mut writer);
    same!(rt; without_left_out(answer), wanted(row), row.0);
}

#[test]
fn always_memory_files_are_merged_with_a_count(rt: HostRuntime) {
    for row in &LEFT {
        merges(&rt, rt.alloc(), row);
    }
}

#[test]
fn always_memory_files_are_joined_with_a_count(rt: HostRuntime) {
    for row in &LEFT {
        joins(&rt, rt.alloc(), row);
    }
}

// A file, the format that it is written in, how many of its blocks are skipped, how many of these have secrets and how
// many names, how many of its interfaces have a name, and how many comments it has.
const CONVERTED: [(File, OutputFormat, [u128; 5]); 5] = [
    (OPTIONS_PCAPNG, OutputFormat::Pcapng, [1, 0, 0, 1, 0]),
    (OPTIONS_PCAPNG, OutputFormat::Pcap(None), [1, 0, 0, 1, 0]),
    (SKIPPED_PCAPNG, OutputFormat::Pcapng, [5, 2, 1, 0, 0]),
    (COMMENTS_PCAPNG, OutputFormat::Pcapng, [0, 0, 0, 0, 4]),
    (RUNS_BACK, OutputFormat::Pcapng, [0, 0, 0, 0, 0]),
];

// What is left of a file that is converted.
fn converts(rt: &impl Abort, alloc: Global, file: File, format: OutputFormat, counts: [u128; 5]) {
    let mut writer = room_of(rt, alloc, 512);
    let source = reader_of(rt, alloc, file, 4096);
    let order = Order::Little;
    let answer = convert_and_count(
        alloc,
        source,
        Tail::Refuse,
        order,
        format,
        true,
        &mut writer,
    );
    let [skipped, secret_blocks, name_blocks, named, comments] = counts;
    let left_out = DroppedInfo {
        skipped,
        secret_blocks,
        name_blocks,
        named,
        comments,
        ran_back: 0,
        cuts: [None; 32],
        left_out: None,
        not_ipv4: None,
    };
    same!(rt; answer, Ok(left_out), file);
}

#[test]
fn always_memory_files_are_converted_with_a_count(rt: HostRuntime) {
    for (file, format, counts) in &CONVERTED {
        converts(&rt, rt.alloc(), *file, *format, *counts);
    }
}

// A file of 8 bytes behind a header and a record without bytes, one that is whole, and one whose only record of 4 bytes
// lacks the last; and the rests that are dropped of them.
const CUT_FILES: [File; 3] = [LATE, RUNS_ON, CUT_PCAP];

const LATE_REST: CutRest = CutRest {
    offset: 40,
    size: 8,
};

const RECORD_REST: CutRest = CutRest {
    offset: 24,
    size: 19,
};

// These rests, by the places of their files.
fn cut_places() -> [Option<CutRest>; 32] {
    let mut cuts = [None; 32];
    cuts[0] = Some(LATE_REST);
    cuts[2] = Some(RECORD_REST);
    cuts
}

// What is answered of these files.
fn cut_files_left() -> Result<DroppedInfo, Fault> {
    Ok(DroppedInfo {
        skipped: 0,
        secret_blocks: 0,
        name_blocks: 0,
        named: 0,
        comments: 0,
        ran_back: 0,
        cuts: cut_places(),
        left_out: None,
        not_ipv4: None,
    })
}

// What the lines of 1 to 32 files answer, or a report of them.
fn prints<R: Source, W: Sink>(
    rt: &impl Abort,
    alloc: Global,
    sources: Vec<R>,
    reports: bool,
    writer: &mut W,
) -> Result<[Option<CutRest>; 32], Fault> {
    holds!(rt; !sources.is_empty());
    holds!(rt; sources.len() <= 32);
    if reports {
        Ok(
            report_and_count(
                alloc,
                sources,
                Tail::Accept,
                Form::Text(TimeForm::Exact),
                false,
                writer,
            )?
            .cuts,
        )
    } else {
        file_lines_and_cuts(
            alloc,
            sources,
            Tail::Accept,
            Form::Text(TimeForm::Exact),
            writer,
        )
    }
}

#[test]
fn always_memory_rests_of_printed_files_are_left(rt: HostRuntime) {
    for reports in [false, true] {
        let mut writer = room_of(&rt, rt.alloc(), 1024);
        let sources = sources_of(&rt, rt.alloc(), &CUT_FILES, 4096);
        let answer = prints(&rt, rt.alloc(), sources, reports, &mut writer);
        same!(&rt; answer, Ok(cut_places()));
    }
}

#[test]
fn always_memory_rests_of_merged_files_are_left(rt: HostRuntime) {
    let mut writer = room_of(&rt, rt.alloc(), 512);
    let sources = sources_of(&rt, rt.alloc(), &CUT_FILES, 4096);
    let answer = merge(&rt, rt.alloc(), sources, Tail::Accept, &mut writer);
    same!(&rt; answer, cut_files_left());
}

#[test]
fn always_memory_rests_of_joined_files_are_left(rt: HostRuntime) {
    let mut writer = room_of(&rt, rt.alloc(), 512);
    let sources = sources_of(&rt, rt.alloc(), &CUT_FILES, 4096);
    let answer = join(&rt, rt.alloc(), sources, Tail::Accept, &mut writer);
    same!(&rt; without_left_out(answer), cut_files_left());
}

#[test]
fn always_memory_the_rest_of_a_converted_file_is_left(rt: HostRuntime) {
    let mut writer = room_of(&rt, rt.alloc(), 512);
    let source = reader_of(&rt, rt.alloc(), CUT_PCAP, 4096);
    let (order, format) = (Order::Little, OutputFormat::Pcap(None));
    let answer = convert_and_count(
        rt.alloc(),
        source,
        Tail::Accept,
        order,
        format,
        false,
        &mut writer,
    );
    let mut cuts = [None; 32];
    cuts[0] = Some(RECORD_REST);
    let left_out = DroppedInfo {
        skipped: 0,
        secret_blocks: 0,
        name_blocks: 0,
        named: 0,
        comments: 0,
        ran_back: 0,
        cuts,
        left_out: None,
        not_ipv4: None,
    };
    same!(&rt; answer, Ok(left_out));
}

// A packet is passed, and then so many have run backward.
fn passes(rt: &impl Abort, feed: &mut Merged<Capture<Pieces>>, backward: u64) {
    same!(rt; feed.peek(), Ok(true));
    feed.pass();
    same!(rt; feed.backward(), backward);
}

// At 5 seconds and then at 1 second, counted or not.
#[test]
fn a_packet_runs_back(rt: HostRuntime) {
    for counts in [true, false] {
        let sources = sources_of(&rt, rt.alloc(), &[RUNS_BACK], 1);
        holds!(&rt; sources.len() == 1);
        let mut feed = merge_files(rt.alloc(), sources, Tail::Refuse).expect(&rt, "memory");
        feed.count_backward(counts);
        passes(&rt, &mut feed, 0);
        passes(&rt, &mut feed, u64::from(counts));
    }
}
