//! Files that are checked: values from the formats.
ghost use Rattle.std.specs.Prelude.{◌≤◌};

use crate::checks::same;
use crate::files::{bytes_of, reader_of, room_of};
use crate::hex_vectors::{
    CARRY_PCAP, CUT_PCAP, File, INTERFACE, OPTIONS_PCAPNG, PACKET, RUNS_BACK, SECTION,
    SIMPLE_PACKET, SKIPPED_PCAPNG, TAGGED_FRAMES,
};
use cap_bytes::{Fault, Pieces, Tail};
use cap_check::{Check, CheckEnd, CheckLine, check_file, check_to, put_check_line};
use cap_print::{Form, TimeForm};
use cap_source::SkippedKinds;
use std::alloc::Global;
use std::process::Abort;

// A file, what is done with a cut end, the form, the line that is printed, and whether the file is whole.
type Row = (File, Tail, Form, &'static str, bool);

const COUNTS: CheckLine = CheckLine::Counts;

// A file that is no capture.
const UNKNOWN: File = &["000102030405060708090a0b0c0d0e0f1011121314151617"];

// A capture of two sections: one interface with a packet, and two without.
const SILENT: File = &[SECTION, INTERFACE, PACKET, SECTION, INTERFACE, INTERFACE];

// A capture of five interfaces: their blocks at 28, 60, 92, 124 and 156, and a packet on the first of them at 188. It
// has 224 bytes.
const FIVE: File = &[
    SECTION, INTERFACE, INTERFACE, INTERFACE, INTERFACE, INTERFACE, PACKET,
];

// A file, which of its reads fails, each of one byte, and the line that is printed.
type Unread = (File, u64, &'static str);

const UNREAD: [Unread; 9] = [
    (
        FIVE,
        11,
        "check 1 - packets 0 bytes 0 first - last - \
        backward 0 untimed 0 truncated 0 skipped 0 interfaces 0 read offset 0\n",
    ),
    (
        FIVE,
        101,
        "check 1 pcapng packets 0 bytes 0 first - last - \
        backward 0 untimed 0 truncated 0 skipped 0 interfaces 2 read offset 92\n",
    ),
    (
        FIVE,
        201,
        "check 1 pcapng packets 0 bytes 0 first - last - \
        backward 0 untimed 0 truncated 0 skipped 0 interfaces 5 read offset 188\n",
    ),
    (
        FIVE,
        225,
        "check 1 pcapng packets 1 bytes 4 first 2+500000/1000000 last 2+500000/1000000 \
        backward 0 untimed 0 truncated 0 skipped 0 interfaces 5 read offset 224\n",
    ),
    (
        SILENT,
        181,
        "check 1 pcapng packets 1 bytes 4 first 2+500000/1000000 last 2+500000/1000000 \
        backward 0 untimed 0 truncated 0 skipped 0 interfaces 2 read offset 156\n",
    ),
    (
        OPTIONS_PCAPNG,
        169,
        "check 1 pcapng packets 1 bytes 4 first 2+500000/1000000 last 2+500000/1000000 \
        backward 0 untimed 0 truncated 0 skipped 1 interfaces 1 read offset 168\n",
    ),
    (
        RUNS_BACK,
        21,
        "check 1 - packets 0 bytes 0 first - last - \
        backward 0 untimed 0 truncated 0 skipped 0 interfaces 0 read offset 0\n",
    ),
    (
        RUNS_BACK,
        31,
        "check 1 pcap packets 0 bytes 0 first - last - \
        backward 0 untimed 0 truncated 0 skipped 0 interfaces 1 read offset 24\n",
    ),
    (
        RUNS_BACK,
        45,
        "check 1 pcap packets 1 bytes 0 first 5+0/1000000 last 5+0/1000000 \
        backward 0 untimed 0 truncated 0 skipped 0 interfaces 1 read offset 40\n",
    ),
];

const CHECKED: [Row; 11] = [
    (
        TAGGED_FRAMES,
        Tail::Refuse,
        Form::Text(TimeForm::Exact),
        "check 7 pcap packets 3 bytes 180 first 1+0/1000000 last 3+0/1000000 \
        backward 0 untimed 0 truncated 0 skipped 0 interfaces 1 whole\n",
        true,
    ),
    (
        RUNS_BACK,
        Tail::Refuse,
        Form::Text(TimeForm::Exact),
        "check 7 pcap packets 2 bytes 0 first 1+0/1000000 last 5+0/1000000 \
        backward 1 untimed 0 truncated 0 skipped 0 interfaces 1 whole\n",
        true,
    ),
    (
        OPTIONS_PCAPNG,
        Tail::Refuse,
        Form::Text(TimeForm::Exact),
        "check 7 pcapng packets 1 bytes 4 first 2+500000/1000000 last 2+500000/1000000 \
        backward 0 untimed 0 truncated 0 skipped 1 interfaces 1 whole\n",
        true,
    ),
    (
        SIMPLE_PACKET,
        Tail::Refuse,
        Form::Text(TimeForm::Exact),
        "check 7 pcapng packets 1 bytes 10 first - last - \
        backward 0 untimed 1 truncated 1 skipped 0 interfaces 1 whole\n",
        true,
    ),
    (
        CUT_PCAP,
        Tail::Accept,
        Form::Text(TimeForm::Exact),
        "check 7 pcap packets 0 bytes 0 first - last - \
        backward 0 untimed 0 truncated 0 skipped 0 interfaces 1 whole cut\n",
        true,
    ),
    (
        CUT_PCAP,
        Tail::Refuse,
        Form::Text(TimeForm::Exact),
        "check 7 pcap packets 0 bytes 0 first - last - \
        backward 0 untimed 0 truncated 0 skipped 0 interfaces 1 \
        refused offset 24 rule 3 cut\n",
        false,
    ),
    (
        UNKNOWN,
        Tail::Refuse,
        Form::Text(TimeForm::Exact),
        "check 7 - packets 0 bytes 0 first - last - \
        backward 0 untimed 0 truncated 0 skipped 0 interfaces 0 \
        refused offset 0 rule 1 magic\n",
        false,
    ),
    (
        SILENT,
        Tail::Refuse,
        Form::Text(TimeForm::Exact),
        "check 7 pcapng packets 1 bytes 4 first 2+500000/1000000 last 2+500000/1000000 \
        backward 0 untimed 0 truncated 0 skipped 0 interfaces 3 whole\n",
        true,
    ),
    (
        FIVE,
        Tail::Refuse,
        Form::Text(TimeForm::Exact),
        "check 7 pcapng packets 1 bytes 4 first 2+500000/1000000 last 2+500000/1000000 \
        backward 0 untimed 0 truncated 0 skipped 0 interfaces 5 whole\n",
        true,
    ),
    (
        CARRY_PCAP,
        Tail::Refuse,
        Form::Json(TimeForm::Exact),
        "{\"type\":\"check\",\"file\":7,\"format\":\"pcap\",\"packets\":1,\"bytes\":4,\
        \"first\":[2,500000,1000000],\"last\":[2,500000,1000000],\"backward\":0,\"untimed\":0,\
        \"truncated\":0,\"skipped\":0,\"interfaces\":1,\"whole\":true,\"cut\":false}\n",
        true,
    ),
    (
        CUT_PCAP,
        Tail::Refuse,
        Form::Json(TimeForm::Exact),
        "{\"type\":\"check\",\"file\":7,\"format\":\"pcap\",\"packets\":0,\"bytes\":0,\
        \"first\":null,\"last\":null,\"backward\":0,\
        \"untimed\":0,\"truncated\":0,\"skipped\":0,\"interfaces\":1,\
        \"refused\":{\"offset\":24,\"rule\":3,\"name\":\"cut\"}}\n",
        false,
    ),
];

// What is printed and returned of a file that is given by `piece` bytes at a time.
fn checks(rt: &impl Abort, alloc: Global, row: &Row, piece: usize)
    requires { 1 ≤ piece }
{
    let (file, tail, form, text, is_whole) = *row;
    let mut writer = room_of(rt, alloc, 512);
    let source = reader_of(rt, alloc, file, piece);
    let answer = check_to(alloc, Some(source), 7, tail, COUNTS, form, b"", &mut writer);
    same!(rt; (answer, writer.bytes()), (Ok(is_whole), text.as_bytes()));
}

#[test]
fn always_memory_files_are_checked(rt: HostRuntime) {
    for row in &CHECKED {
        for piece in [1, 4096] {
            checks(&rt, rt.alloc(), row, piece);
        }
    }
}

// What is printed of a file of which a read fails.
fn checks_unread(rt: &impl Abort, alloc: Global, row: &Unread) {
    let (file, call, text) = *row;
    let mut writer = room_of(rt, alloc, 512);
    let source = Pieces::new(bytes_of(rt, alloc, file), 1, Some(call));
    let answer = check_to(
        alloc,
        Some(source),
        1,
        Tail::Refuse,
        COUNTS,
        Form::Text(TimeForm::Exact),
        b"",
        &mut writer,
    );
    same!(rt; (answer, writer.bytes()), (Ok(false), text.as_bytes()));
}

// A file of which a read fails has a line as any other, with what it has up to there.
#[test]
fn a_read_that_fails_is_checked(rt: HostRuntime) {
    for row in &UNREAD {
        checks_unread(&rt, rt.alloc(), row);
    }
}

// A writer without room, and a file that could not be opened.
#[test]
fn a_check_is_written_or_fails(rt: HostRuntime) {
    let mut writer = room_of(&rt, rt.alloc(), 4);
    let source = reader_of(&rt, rt.alloc(), CARRY_PCAP, 4096);
    let answer = check_to(
        rt.alloc(),
        Some(source),
        1,
        Tail::Refuse,
        COUNTS,
        Form::Text(TimeForm::Exact),
        b"",
        &mut writer,
    );
    same!(&rt; (answer, writer.bytes()), (Err(Fault::Write), b"chec".as_slice()));
    let text = "check 3 - packets 0 bytes 0 first - last - \
    backward 0 untimed 0 truncated 0 skipped 0 interfaces 0 open\n";
    let named = "check 3 - packets 0 bytes 0 first - last - \
    backward 0 untimed 0 truncated 0 skipped 0 interfaces 0 open name a\n";
    let mut writer = room_of(&rt, rt.alloc(), 512);
    let answer = put_check_line(
        &mut writer,
        COUNTS,
        Form::Text(TimeForm::Exact),
        3,
        b" name a",
        &Check::unopened(),
    );
    same!(&rt; (answer, writer.bytes()), (Ok(()), named.as_bytes()));
    let mut writer = room_of(&rt, rt.alloc(), 512);
    let unopened: Option<Pieces> = None;
    let answer = check_to(
        rt.alloc(),
        unopened,
        3,
        Tail::Refuse,
        COUNTS,
        Form::Text(TimeForm::Exact),
        b"",
        &mut writer,
    );
    same!(&rt; (answer, writer.bytes()), (Ok(false), text.as_bytes()));
}

// What is found of a file, without its line.
#[test]
fn a_check_counts_a_file(rt: HostRuntime) {
    let source = reader_of(&rt, rt.alloc(), SILENT, 1);
    let Ok(check) = check_file(rt.alloc(), source, 1, Tail::Refuse, false) else {
        panic!(&rt; "memory");
    };
    same!(&rt; (check.counts.packets, check.counts.backward, check.digest), (1, 0, None));
    let CheckEnd::Whole(end) = check.end else {
        panic!(&rt; "not whole");
    };
    same!(&rt; (end.interfaces, end.named, end.ending.cut), (3, 0, None));
}

// How many of its blocks are skipped, and how many of these have secrets and how many names.
#[test]
fn a_check_counts_skipped_blocks(rt: HostRuntime) {
    let source = reader_of(&rt, rt.alloc(), SKIPPED_PCAPNG, 1);
    let Ok(check) = check_file(rt.alloc(), source, 1, Tail::Refuse, false) else {
        panic!(&rt; "memory");
    };
    let CheckEnd::Whole(end) = check.end else {
        panic!(&rt; "not whole");
    };
    let kinds = SkippedKinds {
        secrets: 2,
        names: 1,
    };
    same!(&rt; (end.ending.skipped, end.kinds), (5, kinds));
}
