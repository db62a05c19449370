//! Whether two captures have the same packets: values from the formats.
ghost use Rattle.std.specs.Prelude.{◌≤◌};

use crate::checks::same;
use crate::files::{reader_of, room_of};
use crate::hex_vectors::{CARRY_PCAP, CARRY_PCAPNG, CUT_PCAP, ETHERNET, File, RAW};
use cap_bytes::{CutRest, Fault, Refusal, Rule, Tail};
use cap_commands::{CutEnds, DiffEnd, DiffOptions, diff_in, diff_to};
use cap_line::{Ignored, NOTHING_IGNORED};
use cap_print::{Form, TimeForm};
use std::alloc::Global;
use std::process::Abort;

// Two files, what is printed of them, and what is returned: whether they are the same, or which file is refused, where
// and why.
type Row = (File, File, &'static str, Result<bool, (u32, u64, Rule)>);

// The packet of CARRY_PCAP at another time, with other bytes, and as one of which another byte was captured; and twice.
const LATER: File = &[ETHERNET, "0100000061e316000400000004000000", "01020304"];

const OTHER: File = &[ETHERNET, "0100000060e316000400000004000000", "01020305"];

const LONGER: File = &[ETHERNET, "0100000060e316000500000006000000", "0102030405"];

const TWICE: File = &[
    ETHERNET,
    "0100000060e316000400000004000000",
    "01020304",
    "0100000060e316000400000004000000",
    "01020304",
];

// A packet of 20 bytes, one whose byte at 17 is another, and one whose first 16 bytes alone were captured.
const TWENTY: File = &[
    ETHERNET,
    "0100000060e316001400000014000000",
    "000102030405060708090a0b0c0d0e0f10111213",
];

const TWENTY_OTHER: File = &[
    ETHERNET,
    "0100000060e316001400000014000000",
    "000102030405060708090a0b0c0d0e0f10ff1213",
];

const SIXTEEN: File = &[
    ETHERNET,
    "0100000060e316001000000014000000",
    "000102030405060708090a0b0c0d0e0f",
];

const COMPARED: [Row; 13] = [
    (&[ETHERNET], &[ETHERNET], "same packets 0\n", Ok(true)),
    (CARRY_PCAP, CARRY_PCAPNG, "same packets 1\n", Ok(true)),
    (CARRY_PCAPNG, CARRY_PCAP, "same packets 1\n", Ok(true)),
    (TWICE, TWICE, "same packets 2\n", Ok(true)),
    (
        CARRY_PCAP,
        LATER,
        "differ packet 1 time\n\
        - packet 1 offset 24 time 2+500000/1000000 captured 4 original 4 link 1 data 01020304\n\
        + packet 1 offset 24 time 2+500001/1000000 captured 4 original 4 link 1 data 01020304\n",
        Ok(false),
    ),
    (
        CARRY_PCAPNG,
        OTHER,
        "differ packet 1 data at 3\n\
        - packet 1 offset 60 time 2+500000/1000000 captured 4 original 4 link 1 data 01020304\n\
        + packet 1 offset 24 time 2+500000/1000000 captured 4 original 4 link 1 data 01020305\n",
        Ok(false),
    ),
    (
        LONGER,
        CARRY_PCAP,
        "differ packet 1 captured original data at 4\n\
        - packet 1 offset 24 time 2+500000/1000000 captured 5 original 6 link 1 data 0102030405\n\
        + packet 1 offset 24 time 2+500000/1000000 captured 4 original 4 link 1 data 01020304\n",
        Ok(false),
    ),
    // the row in which the difference is
    (
        TWENTY,
        TWENTY_OTHER,
        "differ packet 1 data at 17\n\
        - packet 1 offset 24 time 2+500000/1000000 captured 20 original 20 link 1 data 10111213\n\
        + packet 1 offset 24 time 2+500000/1000000 captured 20 original 20 link 1 data 10ff1213\n",
        Ok(false),
    ),
    (
        SIXTEEN,
        TWENTY,
        "differ packet 1 captured data at 16\n\
        - packet 1 offset 24 time 2+500000/1000000 captured 16 original 20 link 1 data -\n\
        + packet 1 offset 24 time 2+500000/1000000 captured 20 original 20 link 1 data 10111213\n",
        Ok(false),
    ),
    (
        TWICE,
        CARRY_PCAPNG,
        "differ packet 2 end\n\
        - packet 2 offset 44 time 2+500000/1000000 captured 4 original 4 link 1 data 01020304\n\
        + end\n",
        Ok(false),
    ),
    (
        &[ETHERNET],
        CARRY_PCAP,
        "differ packet 1 end\n\
        - end\n\
        + packet 1 offset 24 time 2+500000/1000000 captured 4 original 4 link 1 data 01020304\n",
        Ok(false),
    ),
    // refused where the walk meets it: the first file before the second
    (CARRY_PCAP, CUT_PCAP, "", Err((2, 24, Rule::Cut))),
    (CUT_PCAP, CUT_PCAP, "", Err((1, 24, Rule::Cut))),
];

// Two files, how many bytes of a packet are shown at most, and what is printed of them in JSON.
const OBJECTS: [(File, File, u32, &str, bool); 8] = [
    (
        CARRY_PCAP,
        CARRY_PCAPNG,
        16,
        "{\"type\":\"same\",\"packets\":1,\"cut_a\":false,\"cut_b\":false}\n",
        true,
    ),
    (
        CARRY_PCAP,
        LATER,
        16,
        "{\"type\":\"differ\",\"packet\":1,\"differs\":[\"time\"]}\n\
        {\"type\":\"side\",\"side\":\"-\",\"packet\":{\"type\":\"packet\",\"n\":1,\"offset\":24,\
        \"time\":[2,500000,1000000],\"captured\":4,\"original\":4,\"link\":1,\"data\":\"01020304\"}}\n\
        {\"type\":\"side\",\"side\":\"+\",\"packet\":{\"type\":\"packet\",\"n\":1,\"offset\":24,\
        \"time\":[2,500001,1000000],\"captured\":4,\"original\":4,\"link\":1,\"data\":\"01020304\"}}\n",
        false,
    ),
    (
        LONGER,
        CARRY_PCAP,
        16,
        "{\"type\":\"differ\",\"packet\":1,\"differs\":[\"captured\",\"original\",\"data\"],\"data_at\":4}\n\
        {\"type\":\"side\",\"side\":\"-\",\"packet\":{\"type\":\"packet\",\"n\":1,\"offset\":24,\
        \"time\":[2,500000,1000000],\"captured\":5,\"original\":6,\"link\":1,\"data\":\"0102030405\"}}\n\
        {\"type\":\"side\",\"side\":\"+\",\"packet\":{\"type\":\"packet\",\"n\":1,\"offset\":24,\
        \"time\":[2,500000,1000000],\"captured\":4,\"original\":4,\"link\":1,\"data\":\"01020304\"}}\n",
        false,
    ),
    (
        TWENTY,
        SIXTEEN,
        16,
        "{\"type\":\"differ\",\"packet\":1,\"differs\":[\"captured\",\"data\"],\"data_at\":16}\n\
        {\"type\":\"side\",\"side\":\"-\",\"data_from\":16,\"packet\":{\"type\":\"packet\",\"n\":1,\"offset\":24,\
        \"time\":[2,500000,1000000],\"captured\":20,\"original\":20,\"link\":1,\"data\":\"10111213\"}}\n\
        {\"type\":\"side\",\"side\":\"+\",\"data_from\":16,\"packet\":{\"type\":\"packet\",\"n\":1,\"offset\":24,\
        \"time\":[2,500000,1000000],\"captured\":16,\"original\":20,\"link\":1,\"data\":\"\"}}\n",
        false,
    ),
    // fewer bytes of the row, and none
    (
        TWENTY,
        TWENTY_OTHER,
        3,
        "{\"type\":\"differ\",\"packet\":1,\"differs\":[\"data\"],\"data_at\":17}\n\
        {\"type\":\"side\",\"side\":\"-\",\"data_from\":16,\"packet\":{\"type\":\"packet\",\"n\":1,\"offset\":24,\
        \"time\":[2,500000,1000000],\"captured\":20,\"original\":20,\"link\":1,\"data\":\"101112\"}}\n\
        {\"type\":\"side\",\"side\":\"+\",\"data_from\":16,\"packet\":{\"type\":\"packet\",\"n\":1,\"offset\":24,\
        \"time\":[2,500000,1000000],\"captured\":20,\"original\":20,\"link\":1,\"data\":\"10ff12\"}}\n",
        false,
    ),
    (
        CARRY_PCAP,
        OTHER,
        0,
        "{\"type\":\"differ\",\"packet\":1,\"differs\":[\"data\"],\"data_at\":3}\n\
        {\"type\":\"side\",\"side\":\"-\",\"packet\":{\"type\":\"packet\",\"n\":1,\"offset\":24,\
        \"time\":[2,500000,1000000],\"captured\":4,\"original\":4,\"link\":1,\"data\":\"\"}}\n\
        {\"type\":\"side\",\"side\":\"+\",\"packet\":{\"type\":\"packet\",\"n\":1,\"offset\":24,\
        \"time\":[2,500000,1000000],\"captured\":4,\"original\":4,\"link\":1,\"data\":\"\"}}\n",
        false,
    ),
    (
        TWICE,
        CARRY_PCAPNG,
        16,
        "{\"type\":\"differ\",\"packet\":2,\"differs\":[\"end\"]}\n\
        {\"type\":\"side\",\"side\":\"-\",\"packet\":{\"type\":\"packet\",\"n\":2,\"offset\":44,\
        \"time\":[2,500000,1000000],\"captured\":4,\"original\":4,\"link\":1,\"data\":\"01020304\"}}\n\
        {\"type\":\"side\",\"side\":\"+\",\"packet\":null,\"cut\":false}\n",
        false,
    ),
    (
        &[ETHERNET],
        CARRY_PCAP,
        16,
        "{\"type\":\"differ\",\"packet\":1,\"differs\":[\"end\"]}\n\
        {\"type\":\"side\",\"side\":\"-\",\"packet\":null,\"cut\":false}\n\
        {\"type\":\"side\",\"side\":\"+\",\"packet\":{\"type\":\"packet\",\"n\":1,\"offset\":24,\
        \"time\":[2,500000,1000000],\"captured\":4,\"original\":4,\"link\":1,\"data\":\"01020304\"}}\n",
        false,
    ),
];

// How two files end that were not cut.
fn uncut(is_same: bool) -> DiffEnd {
    DiffEnd {
        is_same,
        cuts: CutEnds {
            first: None,
            second: None,
        },
    }
}

// What is printed in JSON and returned of two files.
fn is_object(rt: &impl Abort, alloc: Global, row: &(File, File, u32, &str, bool)) {
    let (first, second, most, text, is_same) = *row;
    let mut writer = room_of(rt, alloc, 1024);
    let one = reader_of(rt, alloc, first, 4096);
    let other = reader_of(rt, alloc, second, 4096);
    let options = DiffOptions {
        ignored: NOTHING_IGNORED,
        form: Form::Json(TimeForm::Exact),
        most,
    };
    let answer = diff_in(alloc, one, other, Tail::Refuse, options, &mut writer);
    same!(rt; (answer, writer.bytes()), (Ok(uncut(is_same)), text.as_bytes()));
}

#[test]
fn always_memory_captures_are_compared_in_json(rt: HostRuntime) {
    for row in &OBJECTS {
        is_object(&rt, rt.alloc(), row);
    }
}

// The packet of CARRY_PCAP in another link type, and with another original length.
const OF_RAW: File = &[RAW, "0100000060e316000400000004000000", "01020304"];

const LARGER: File = &[ETHERNET, "0100000060e316000400000005000000", "01020304"];

const TIME: Ignored = Ignored {
    time: true,
    link: false,
    original: false,
};

const LINK: Ignored = Ignored {
    time: false,
    link: true,
    original: false,
};

const ORIGINAL: Ignored = Ignored {
    time: false,
    link: false,
    original: true,
};

// Two files, what is ignored, and what is printed of them then.
const IGNORING: [(File, File, Ignored, &str, bool); 6] = [
    (CARRY_PCAP, LATER, TIME, "same packets 1\n", true),
    (OF_RAW, CARRY_PCAPNG, LINK, "same packets 1\n", true),
    (CARRY_PCAP, LARGER, ORIGINAL, "same packets 1\n", true),
    (
        OF_RAW,
        LARGER,
        LINK,
        "differ packet 1 original\n\
        - packet 1 offset 24 time 2+500000/1000000 captured 4 original 4 link 101 data 01020304\n\
        + packet 1 offset 24 time 2+500000/1000000 captured 4 original 5 link 1 data 01020304\n",
        false,
    ),
    (
        LATER,
        LARGER,
        ORIGINAL,
        "differ packet 1 time\n\
        - packet 1 offset 24 time 2+500001/1000000 captured 4 original 4 link 1 data 01020304\n\
        + packet 1 offset 24 time 2+500000/1000000 captured 4 original 5 link 1 data 01020304\n",
        false,
    ),
    // captured lengths and bytes always count
    (
        LONGER,
        LATER,
        TIME,
        "differ packet 1 captured original data at 4\n\
        - packet 1 offset 24 time 2+500000/1000000 captured 5 original 6 link 1 data 0102030405\n\
        + packet 1 offset 24 time 2+500001/1000000 captured 4 original 4 link 1 data 01020304\n",
        false,
    ),
];

// What is printed and returned of two files if something is ignored.
fn ignores(rt: &impl Abort, alloc: Global, row: &(File, File, Ignored, &str, bool)) {
    let (first, second, ignored, text, is_same) = *row;
    let mut writer = room_of(rt, alloc, 1024);
    let one = reader_of(rt, alloc, first, 4096);
    let other = reader_of(rt, alloc, second, 4096);
    let options = DiffOptions {
        ignored,
        form: Form::Text(TimeForm::Exact),
        most: 16,
    };
    let answer = diff_in(alloc, one, other, Tail::Refuse, options, &mut writer);
    same!(rt; (answer, writer.bytes()), (Ok(uncut(is_same)), text.as_bytes()));
}

#[test]
fn always_memory_differences_are_ignored(rt: HostRuntime) {
    for row in &IGNORING {
        ignores(&rt, rt.alloc(), row);
    }
}

// The packet of CARRY_PCAP, and 8 bytes of the header of the next record.
const WITH_REST: File = &[
    ETHERNET,
    "0100000060e316000400000004000000",
    "01020304",
    "0100000060e31600",
];

// Two files, what is printed of them in text and in JSON if cut ends are dropped, whether they are the same, and the
// rests that are returned.
type Dropped = (File, File, &'static str, &'static str, bool, CutEnds);

// The rest of the second record, of 8 bytes, and that of a first record, of 19.
const SECOND_RECORD: Option<CutRest> = Some(CutRest {
    offset: 44,
    size: 8,
});

const FIRST_RECORD: Option<CutRest> = Some(CutRest {
    offset: 24,
    size: 19,
});

const DROPPED: [Dropped; 9] = [
    (
        WITH_REST,
        CARRY_PCAPNG,
        "same packets 1 cut A\n",
        "{\"type\":\"same\",\"packets\":1,\"cut_a\":true,\"cut_b\":false}\n",
        true,
        CutEnds {
            first: SECOND_RECORD,
            second: None,
        },
    ),
    (
        CARRY_PCAPNG,
        WITH_REST,
        "same packets 1 cut B\n",
        "{\"type\":\"same\",\"packets\":1,\"cut_a\":false,\"cut_b\":true}\n",
        true,
        CutEnds {
            first: None,
            second: SECOND_RECORD,
        },
    ),
    (
        CUT_PCAP,
        CUT_PCAP,
        "same packets 0 cut A cut B\n",
        "{\"type\":\"same\",\"packets\":0,\"cut_a\":true,\"cut_b\":true}\n",
        true,
        CutEnds {
            first: FIRST_RECORD,
            second: FIRST_RECORD,
        },
    ),
    // nothing was dropped
    (
        CARRY_PCAP,
        CARRY_PCAPNG,
        "same packets 1\n",
        "{\"type\":\"same\",\"packets\":1,\"cut_a\":false,\"cut_b\":false}\n",
        true,
        CutEnds {
            first: None,
            second: None,
        },
    ),
    // one file ends, and its end was dropped
    (
        CARRY_PCAP,
        CUT_PCAP,
        "differ packet 1 end\n\
        - packet 1 offset 24 time 2+500000/1000000 captured 4 original 4 link 1 data 01020304\n\
        + end cut\n",
        "{\"type\":\"differ\",\"packet\":1,\"differs\":[\"end\"]}\n\
        {\"type\":\"side\",\"side\":\"-\",\"packet\":{\"type\":\"packet\",\"n\":1,\"offset\":24,\
        \"time\":[2,500000,1000000],\"captured\":4,\"original\":4,\"link\":1,\"data\":\"01020304\"}}\n\
        {\"type\":\"side\",\"side\":\"+\",\"packet\":null,\"cut\":true}\n",
        false,
        CutEnds {
            first: None,
            second: FIRST_RECORD,
        },
    ),
    (
        CUT_PCAP,
        CARRY_PCAP,
        "differ packet 1 end\n\
        - end cut\n\
        + packet 1 offset 24 time 2+500000/1000000 captured 4 original 4 link 1 data 01020304\n",
        "{\"type\":\"differ\",\"packet\":1,\"differs\":[\"end\"]}\n\
        {\"type\":\"side\",\"side\":\"-\",\"packet\":null,\"cut\":true}\n\
        {\"type\":\"side\",\"side\":\"+\",\"packet\":{\"type\":\"packet\",\"n\":1,\"offset\":24,\
        \"time\":[2,500000,1000000],\"captured\":4,\"original\":4,\"link\":1,\"data\":\"01020304\"}}\n",
        false,
        CutEnds {
            first: FIRST_RECORD,
            second: None,
        },
    ),
    (
        WITH_REST,
        TWICE,
        "differ packet 2 end\n\
        - end cut\n\
        + packet 2 offset 44 time 2+500000/1000000 captured 4 original 4 link 1 data 01020304\n",
        "{\"type\":\"differ\",\"packet\":2,\"differs\":[\"end\"]}\n\
        {\"type\":\"side\",\"side\":\"-\",\"packet\":null,\"cut\":true}\n\
        {\"type\":\"side\",\"side\":\"+\",\"packet\":{\"type\":\"packet\",\"n\":2,\"offset\":44,\
        \"time\":[2,500000,1000000],\"captured\":4,\"original\":4,\"link\":1,\"data\":\"01020304\"}}\n",
        false,
        CutEnds {
            first: SECOND_RECORD,
            second: None,
        },
    ),
    // a file that has a packet left isn't named, even if its end was dropped
    (
        WITH_REST,
        &[ETHERNET],
        "differ packet 1 end\n\
        - packet 1 offset 24 time 2+500000/1000000 captured 4 original 4 link 1 data 01020304\n\
        + end\n",
        "{\"type\":\"differ\",\"packet\":1,\"differs\":[\"end\"]}\n\
        {\"type\":\"side\",\"side\":\"-\",\"packet\":{\"type\":\"packet\",\"n\":1,\"offset\":24,\
        \"time\":[2,500000,1000000],\"captured\":4,\"original\":4,\"link\":1,\"data\":\"01020304\"}}\n\
        {\"type\":\"side\",\"side\":\"+\",\"packet\":null,\"cut\":false}\n",
        false,
        CutEnds {
            first: None,
            second: None,
        },
    ),
    (
        WITH_REST,
        LATER,
        "differ packet 1 time\n\
        - packet 1 offset 24 time 2+500000/1000000 captured 4 original 4 link 1 data 01020304\n\
        + packet 1 offset 24 time 2+500001/1000000 captured 4 original 4 link 1 data 01020304\n",
        "{\"type\":\"differ\",\"packet\":1,\"differs\":[\"time\"]}\n\
        {\"type\":\"side\",\"side\":\"-\",\"packet\":{\"type\":\"packet\",\"n\":1,\"offset\":24,\
        \"time\":[2,500000,1000000],\"captured\":4,\"original\":4,\"link\":1,\"data\":\"01020304\"}}\n\
        {\"type\":\"side\",\"side\":\"+\",\"packet\":{\"type\":\"packet\",\"n\":1,\"offset\":24,\
        \"time\":[2,500001,1000000],\"captured\":4,\"original\":4,\"link\":1,\"data\":\"01020304\"}}\n",
        false,
        CutEnds {
            first: None,
            second: None,
        },
    ),
];

// What is printed in a form and returned of two files if cut ends are dropped.
fn drops(rt: &impl Abort, alloc: Global, row: &Dropped, form: Form) {
    let (first, second, text, objects, is_same, cuts) = *row;
    let mut writer = room_of(rt, alloc, 1024);
    let one = reader_of(rt, alloc, first, 4096);
    let other = reader_of(rt, alloc, second, 4096);
    let options = DiffOptions {
        ignored: NOTHING_IGNORED,
        form,
        most: 16,
    };
    let printed = match form {
        Form::Text(_) => text,
        Form::Json(_) => objects,
    };
    let answer = diff_in(alloc, one, other, Tail::Accept, options, &mut writer);
    let end = DiffEnd { is_same, cuts };
    same!(rt; (answer, writer.bytes()), (Ok(end), printed.as_bytes()));
}

#[test]
fn always_memory_cut_captures_are_compared(rt: HostRuntime) {
    for row in &DROPPED {
        for form in [Form::Text(TimeForm::Exact), Form::Json(TimeForm::Exact)] {
            drops(&rt, rt.alloc(), row, form);
        }
    }
}

fn answer_of(wanted: Result<bool, (u32, u64, Rule)>) -> Result<DiffEnd, Fault> {
    match wanted {
        Ok(is_same) => Ok(uncut(is_same)),
        Err((file, offset, rule)) => Err(Fault::Refused(Refusal { file, offset, rule })),
    }
}

// What is printed and returned of two files that are given by `piece` bytes at a time.
fn compares(rt: &impl Abort, alloc: Global, row: &Row, piece: usize)
    requires { 1 ≤ piece }
{
    let (first, second, text, wanted) = *row;
    let mut writer = room_of(rt, alloc, 1024);
    let one = reader_of(rt, alloc, first, piece);
    let other = reader_of(rt, alloc, second, piece);
    let answer = diff_to(alloc, one, other, Tail::Refuse, &mut writer);
    same!(rt; (answer, writer.bytes()), (answer_of(wanted), text.as_bytes()));
}

#[test]
fn always_memory_captures_are_compared(rt: HostRuntime) {
    for row in &COMPARED {
        for piece in [1, 4096] {
            compares(&rt, rt.alloc(), row, piece);
        }
    }
}
