//! Refusals and faults as JSON objects.

use crate::rooms::room_of;
use cap_bytes::{Fault, Refusal, Rule};
use cap_line::LineFault;
use cap_print::{Form, TimeForm};
use cap_tool::{Outcome, hint_object, outcome_object, tell_in};
use std::alloc::Global;
use std::process::Abort;

// The words that named the files: a plain one; one with a quotation mark, a backslash, a control character and a letter
// that isn't ASCII; one of more than 64 bytes, of which the 64th and 65th are escaped.
const PATHS: [&str; 3] = [
    "a.pcap",
    "b\"\\\u{1b}\u{e9}",
    "012345678901234567890123456789012345678901234567890123456789012\n\u{1f}tail",
];

const SECOND_FILE: Refusal = Refusal {
    file: 2,
    offset: 24,
    rule: Rule::BlockTrailer,
};

// What is printed of each outcome.
const OBJECTS: [(Outcome, &str); 13] = [
    (Outcome::Done, ""),
    (Outcome::Differ, ""),
    (Outcome::NotWhole, ""),
    (
        Outcome::Fault(Fault::Refused(SECOND_FILE)),
        "{\"type\":\"refused\",\"file\":2,\"offset\":24,\"rule\":6,\"name\":\"block-trailer\",\
            \"path\":\"b\\\"\\\\\\u001b\u{e9}\"}\n",
    ),
    (
        Outcome::Fault(Fault::Read {
            file: 1,
            offset: 24,
        }),
        "{\"type\":\"fault\",\"fault\":\"read\",\"file\":1,\"offset\":24,\"path\":\"a.pcap\"}\n",
    ),
    (
        Outcome::Open(3),
        "{\"type\":\"fault\",\"fault\":\"open\",\"file\":3,\"path\":\
            \"012345678901234567890123456789012345678901234567890123456789012\\u000a\\u001ftail\"}\n",
    ),
    (
        Outcome::Open(4),
        "{\"type\":\"fault\",\"fault\":\"open\",\"file\":4}\n",
    ),
    (
        Outcome::Fault(Fault::Write),
        "{\"type\":\"fault\",\"fault\":\"write\"}\n",
    ),
    (
        Outcome::Fault(Fault::Memory),
        "{\"type\":\"fault\",\"fault\":\"memory\"}\n",
    ),
    (Outcome::List, "{\"type\":\"fault\",\"fault\":\"list\"}\n"),
    (
        Outcome::ListLine(3),
        "{\"type\":\"fault\",\"fault\":\"list\",\"line\":3}\n",
    ),
    (
        Outcome::Create,
        "{\"type\":\"fault\",\"fault\":\"create\"}\n",
    ),
    (Outcome::Line(LineFault::Files), "fault: files\n"),
];

// What is printed of an outcome as an object.
fn prints(rt: &impl Abort, alloc: Global, outcome: &Outcome, text: &str) {
    let mut writer = room_of(rt, alloc, text.len());
    let answer = outcome_object(outcome, PATHS.as_slice(), &mut writer);
    assert_eq!(rt; (answer, writer.bytes()), (Ok(()), text.as_bytes()));
}

#[test]
fn refusals_and_faults_are_objects(rt: HostRuntime) {
    for (outcome, text) in &OBJECTS {
        prints(&rt, rt.alloc(), outcome, *text);
    }
}

// An outcome, the form, how it ends, what is printed on either stream.
type Told = (Outcome, Form, &'static [u8], &'static [u8]);

const TOLD: [Told; 4] = [
    (
        Outcome::Open(1),
        Form::Json(TimeForm::Exact),
        b"",
        b"{\"type\":\"fault\",\"fault\":\"open\",\"file\":1,\"path\":\"a.pcap\"}\n",
    ),
    (
        Outcome::Open(1),
        Form::Text(TimeForm::Exact),
        b"",
        b"fault: open file 1\n",
    ),
    (
        Outcome::Line(LineFault::Help),
        Form::Json(TimeForm::Exact),
        b"said\n",
        b"",
    ),
    (
        Outcome::Line(LineFault::Line),
        Form::Json(TimeForm::Exact),
        b"",
        b"said\n",
    ),
];

// What goes to each of two writers.
fn goes_to_two(rt: &impl Abort, alloc: Global, row: &Told) {
    let (outcome, form, printed, told) = *row;
    let mut output = room_of(rt, alloc, 64);
    let mut faults = room_of(rt, alloc, 64);
    let ending = tell_in(
        outcome,
        b"said\n",
        form,
        PATHS.as_slice(),
        &mut output,
        &mut faults,
    );
    assert_eq!(rt; ending, outcome);
    assert_eq!(rt; (output.bytes(), faults.bytes()), (printed, told));
}

#[test]
fn an_outcome_is_told_in_either_form(rt: HostRuntime) {
    for row in &TOLD {
        goes_to_two(&rt, rt.alloc(), row);
    }
}

#[test]
fn a_hint_is_an_object(rt: HostRuntime) {
    let object = hint_object(rt.alloc(), "a\"b\\u{7}: it is empty").expect(&rt, "memory");
    let text = "{\"type\":\"hint\",\"hint\":\"a\\\"b\\\\u{7}: it is empty\"}\n";
    assert_eq!(&rt; object.as_slice(), text.as_bytes());
}
