//! Files that are left out, since they are refused.

use crate::checks::{holds, same};
use crate::files::{reader_of, room_of};
use crate::hex_vectors::{CARRY_PCAP, CUT_PCAP, File};
use cap_bytes::{Refusal, Rule, Tail};
use cap_commands::{is_any_refused, kept_files, kept_number, put_left_out, refusal_in};
use cap_print::{Form, TimeForm};

// The third file is cut in its record.
const CUT: Refusal = Refusal {
    file: 3,
    offset: 24,
    rule: Rule::Cut,
};

const EMPTY: Refusal = Refusal {
    file: 4_294_967_295,
    offset: 0,
    rule: Rule::Cut,
};

const REFUSALS: [Option<Refusal>; 5] = [None, Some(CUT), None, Some(EMPTY), None];

const TEXT: &str = "left out 3 offset 24 rule 3 cut\nleft out 4294967295 offset 0 rule 3 cut\n";

const OBJECTS: &str =
    "{\"type\":\"left out\",\"file\":3,\"offset\":24,\"rule\":3,\"name\":\"cut\"}\n\
    {\"type\":\"left out\",\"file\":4294967295,\"offset\":0,\"rule\":3,\"name\":\"cut\"}\n";

// A file, what is done with a cut end, and its refusal.
const FOUND: [(File, Tail, Option<Refusal>); 3] = [
    (CARRY_PCAP, Tail::Refuse, None),
    (CUT_PCAP, Tail::Refuse, Some(CUT)),
    (CUT_PCAP, Tail::Accept, None),
];

#[test]
fn always_memory_refusals_are_found(rt: HostRuntime) {
    for (file, tail, refusal) in &FOUND {
        let source = reader_of(&rt, rt.alloc(), *file, 4096);
        same!(&rt; refusal_in(rt.alloc(), source, 3, *tail), Ok(*refusal));
    }
}

// Whether a file is refused, and the lines of those that are.
#[test]
fn always_memory_files_that_are_left_out_are_told(rt: HostRuntime) {
    for (form, lines) in [
        (Form::Text(TimeForm::Exact), TEXT),
        (Form::Json(TimeForm::Exact), OBJECTS),
    ] {
        let mut writer = room_of(&rt, rt.alloc(), 512);
        let answer = put_left_out(&mut writer, form, REFUSALS.as_slice());
        same!(&rt; (answer, writer.bytes()), (Ok(()), lines.as_bytes()));
    }
    holds!(&rt; is_any_refused(REFUSALS.as_slice()));
    holds!(&rt; !is_any_refused(&[None, None]));
}

// The files that aren't refused, and the number of each among all.
#[test]
fn always_memory_other_files_are_kept(rt: HostRuntime) {
    let names = ["a", "b", "c", "d", "e"];
    match kept_files(rt.alloc(), names.as_slice(), REFUSALS.as_slice()) {
        Ok(kept) => same!(&rt; kept.as_slice(), ["a", "c", "e"].as_slice()),
        Err(_) => panic!(&rt; "memory"),
    }
    for (nth, number) in [(1, 1), (2, 3), (3, 5), (4, 0)] {
        same!(&rt; kept_number(REFUSALS.as_slice(), nth), number, nth);
    }
}
