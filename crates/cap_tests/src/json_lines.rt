//! The lines of files and reports in JSON (RFC 8259): worked files of both formats.
ghost use Rattle.std.specs.Prelude.{◌≤◌};

use crate::checks::{holds, same};
use crate::files::{room_of, sources_of};
use crate::hex_vectors::{
    AT_1, CUT_PCAP, FRAGMENT_FRAMES, File, HEADER_ONLY, OPTIONS_PCAPNG, RAW, RUNS_BACK,
    SIMPLE_PACKET, TAGGED_FRAMES,
};
use crate::report::UNTIMED;
use cap_bytes::{Fault, Sink, Source, Tail};
use cap_print::{Form, TimeForm};
use cap_talks::{file_lines_in, report_in};
use std::alloc::Global;
use std::process::Abort;

// An echo request from 10.0.0.1 to 10.0.0.2 (RFC 792): its protocol, 1, has no ports.
const PORTLESS: File = &[
    RAW,
    AT_1,
    "4500001c00010000400100000a0000010a0000020800000000000000",
];

const CUT_LINES: &str = "{\"type\":\"files\",\"files\":1}\n\
    {\"type\":\"file\",\"file\":1,\"format\":\"pcap\",\"packets\":0,\"bytes\":0,\"truncated\":0,\
    \"skipped\":0,\"first\":null,\"last\":null,\"cut\":true}\n";

const SIMPLE_LINES: &str = "{\"type\":\"files\",\"files\":1}\n\
    {\"type\":\"file\",\"file\":1,\"format\":\"pcapng\",\"packets\":1,\"bytes\":10,\"truncated\":1,\
    \"skipped\":0,\"first\":null,\"last\":null,\"cut\":false}\n";

const TWO_FILES: &str = "{\"type\":\"files\",\"files\":2}\n\
    {\"type\":\"file\",\"file\":1,\"format\":\"pcap\",\"packets\":2,\"bytes\":0,\"truncated\":0,\
    \"skipped\":0,\"first\":[1,0,1000000],\"last\":[5,0,1000000],\"cut\":false}\n\
    {\"type\":\"file\",\"file\":2,\"format\":\"pcapng\",\"packets\":1,\"bytes\":4,\"truncated\":0,\
    \"skipped\":1,\"first\":[2,500000,1000000],\"last\":[2,500000,1000000],\"cut\":false}\n";

const HEADER_REPORT: &str = "{\"type\":\"files\",\"files\":1}\n\
    {\"type\":\"file\",\"file\":1,\"format\":\"pcap\",\"packets\":0,\"bytes\":0,\"truncated\":0,\
    \"skipped\":0,\"first\":null,\"last\":null,\"cut\":false}\n\
    {\"type\":\"total\",\"packets\":0,\"bytes\":0,\"truncated\":0}\n\
    {\"type\":\"frames\",\"other_link\":0,\"not_ipv4\":0,\"short\":0,\"cut\":0,\"bad\":0,\
    \"unjoined\":0,\"counted\":0}\n\
    {\"type\":\"joined\",\"joined\":0,\"given_up\":0}\n\
    {\"type\":\"talks\",\"talks\":0}\n";

const CUT_REPORT: &str = "{\"type\":\"files\",\"files\":1}\n\
    {\"type\":\"file\",\"file\":1,\"format\":\"pcap\",\"packets\":0,\"bytes\":0,\"truncated\":0,\
    \"skipped\":0,\"first\":null,\"last\":null,\"cut\":true}\n\
    {\"type\":\"total\",\"packets\":0,\"bytes\":0,\"truncated\":0}\n\
    {\"type\":\"frames\",\"other_link\":0,\"not_ipv4\":0,\"short\":0,\"cut\":0,\"bad\":0,\
    \"unjoined\":0,\"counted\":0}\n\
    {\"type\":\"joined\",\"joined\":0,\"given_up\":0}\n\
    {\"type\":\"talks\",\"talks\":0}\n";

const TAGGED_REPORT: &str = "{\"type\":\"files\",\"files\":1}\n\
    {\"type\":\"file\",\"file\":1,\"format\":\"pcap\",\"packets\":3,\"bytes\":180,\"truncated\":0,\
    \"skipped\":0,\"first\":[1,0,1000000],\"last\":[3,0,1000000],\"cut\":false}\n\
    {\"type\":\"total\",\"packets\":3,\"bytes\":180,\"truncated\":0}\n\
    {\"type\":\"frames\",\"other_link\":0,\"not_ipv4\":0,\"short\":0,\"cut\":0,\"bad\":1,\
    \"unjoined\":0,\"counted\":2}\n\
    {\"type\":\"joined\",\"joined\":0,\"given_up\":0}\n\
    {\"type\":\"talks\",\"talks\":1}\n\
    {\"type\":\"talk\",\"protocol\":17,\"a\":{\"address\":\"10.0.0.1\",\"port\":1000},\
    \"b\":{\"address\":\"10.0.0.2\",\"port\":2000},\"forward\":{\"packets\":1,\"bytes\":60},\
    \"backward\":{\"packets\":1,\"bytes\":60},\"first\":[1,0,1000000],\"last\":[2,0,1000000]}\n";

const FRAGMENT_REPORT: &str = "{\"type\":\"files\",\"files\":1}\n\
    {\"type\":\"file\",\"file\":1,\"format\":\"pcap\",\"packets\":4,\"bytes\":112,\"truncated\":0,\
    \"skipped\":0,\"first\":[1,0,1000000],\"last\":[4,0,1000000],\"cut\":false}\n\
    {\"type\":\"total\",\"packets\":4,\"bytes\":112,\"truncated\":0}\n\
    {\"type\":\"frames\",\"other_link\":0,\"not_ipv4\":0,\"short\":0,\"cut\":0,\"bad\":0,\
    \"unjoined\":0,\"counted\":4}\n\
    {\"type\":\"joined\",\"joined\":1,\"given_up\":0}\n\
    {\"type\":\"talks\",\"talks\":1}\n\
    {\"type\":\"talk\",\"protocol\":17,\"a\":{\"address\":\"10.0.0.1\",\"port\":1001},\
    \"b\":{\"address\":\"10.0.0.2\",\"port\":2001},\"forward\":{\"packets\":4,\"bytes\":112},\
    \"backward\":{\"packets\":0,\"bytes\":0},\"first\":[1,0,1000000],\"last\":[4,0,1000000]}\n";

const PORTLESS_REPORT: &str = "{\"type\":\"files\",\"files\":1}\n\
    {\"type\":\"file\",\"file\":1,\"format\":\"pcap\",\"packets\":1,\"bytes\":28,\"truncated\":0,\
    \"skipped\":0,\"first\":[1,0,1000000],\"last\":[1,0,1000000],\"cut\":false}\n\
    {\"type\":\"total\",\"packets\":1,\"bytes\":28,\"truncated\":0}\n\
    {\"type\":\"frames\",\"other_link\":0,\"not_ipv4\":0,\"short\":0,\"cut\":0,\"bad\":0,\
    \"unjoined\":0,\"counted\":1}\n\
    {\"type\":\"joined\",\"joined\":0,\"given_up\":0}\n\
    {\"type\":\"talks\",\"talks\":1}\n\
    {\"type\":\"talk\",\"protocol\":1,\"a\":{\"address\":\"10.0.0.1\"},\
    \"b\":{\"address\":\"10.0.0.2\"},\"forward\":{\"packets\":1,\"bytes\":28},\
    \"backward\":{\"packets\":0,\"bytes\":0},\"first\":[1,0,1000000],\"last\":[1,0,1000000]}\n";

const UNTIMED_REPORT: &str = "{\"type\":\"files\",\"files\":1}\n\
    {\"type\":\"file\",\"file\":1,\"format\":\"pcapng\",\"packets\":1,\"bytes\":30,\"truncated\":0,\
    \"skipped\":0,\"first\":null,\"last\":null,\"cut\":false}\n\
    {\"type\":\"total\",\"packets\":1,\"bytes\":30,\"truncated\":0}\n\
    {\"type\":\"frames\",\"other_link\":0,\"not_ipv4\":0,\"short\":0,\"cut\":0,\"bad\":0,\
    \"unjoined\":0,\"counted\":1}\n\
    {\"type\":\"joined\",\"joined\":0,\"given_up\":0}\n\
    {\"type\":\"talks\",\"talks\":1}\n\
    {\"type\":\"talk\",\"protocol\":17,\"a\":{\"address\":\"10.0.0.1\",\"port\":1000},\
    \"b\":{\"address\":\"10.0.0.2\",\"port\":2000},\"forward\":{\"packets\":1,\"bytes\":30},\
    \"backward\":{\"packets\":0,\"bytes\":0},\"first\":null,\"last\":null}\n";

// What is printed of files.
#[derive(Clone, Copy)]
enum Printed {
    Lines,
    Report,
}

// Files, whether a cut end is dropped, and what is printed of them.
type Told = (&'static [File], Tail, &'static str);

const LINES: [Told; 3] = [
    (&[CUT_PCAP], Tail::Accept, CUT_LINES),
    (&[SIMPLE_PACKET], Tail::Refuse, SIMPLE_LINES),
    (&[RUNS_BACK, OPTIONS_PCAPNG], Tail::Refuse, TWO_FILES),
];

const REPORTS: [Told; 6] = [
    (&[HEADER_ONLY], Tail::Refuse, HEADER_REPORT),
    (&[CUT_PCAP], Tail::Accept, CUT_REPORT),
    (&[TAGGED_FRAMES], Tail::Refuse, TAGGED_REPORT),
    (&[FRAGMENT_FRAMES], Tail::Refuse, FRAGMENT_REPORT),
    (&[PORTLESS], Tail::Refuse, PORTLESS_REPORT),
    (&[UNTIMED], Tail::Refuse, UNTIMED_REPORT),
];

// What the lines or the report of 1 to 32 files answer, in JSON.
fn tell<R: Source, W: Sink>(
    rt: &impl Abort,
    alloc: Global,
    sources: Vec<R>,
    tail: Tail,
    printed: Printed,
    writer: &mut W,
) -> Result<(), Fault> {
    holds!(rt; !sources.is_empty());
    holds!(rt; sources.len() <= 32);
    match printed {
        Printed::Lines => file_lines_in(alloc, sources, tail, Form::Json(TimeForm::Exact), writer),
        Printed::Report => report_in(alloc, sources, tail, Form::Json(TimeForm::Exact), writer),
    }
}

// What is printed of files by `piece` bytes at a time.
fn tells(rt: &impl Abort, alloc: Global, printed: Printed, row: &Told, piece: usize)
    requires { 1 ≤ piece }
{
    let (files, tail, wanted) = *row;
    let mut writer = room_of(rt, alloc, 1024);
    let sources = sources_of(rt, alloc, files, piece);
    let answer = tell(rt, alloc, sources, tail, printed, &mut writer);
    same!(rt; (answer, writer.bytes()), (Ok(()), wanted.as_bytes()));
}

#[test]
fn always_memory_lines_of_files_are_json(rt: HostRuntime) {
    for row in &LINES {
        for piece in [1, 4096] {
            tells(&rt, rt.alloc(), Printed::Lines, row, piece);
        }
    }
}

#[test]
fn always_memory_reports_are_json(rt: HostRuntime) {
    for row in &REPORTS {
        for piece in [1, 4096] {
            tells(&rt, rt.alloc(), Printed::Report, row, piece);
        }
    }
}
