//! Outcomes and what is printed of them.

use crate::rooms::room_of;
use cap_bytes::{Fault, Refusal, Rule};
use cap_line::{LineFault, USAGE};
use cap_tool::{Finding, Outcome, end_of, fault_line, outcome_line, status_of, tell};
use std::alloc::Global;
use std::io;
use std::io::{BufWriter, Write};
use std::process::Abort;

const SECOND_FILE: Refusal = Refusal {
    file: 2,
    offset: 24,
    rule: Rule::BlockTrailer,
};

// What is printed of each outcome but the usage, and the status.
const TOLD: [(Outcome, &str, u8); 15] = [
    (Outcome::Done, "", 0),
    (Outcome::Differ, "", 3),
    (Outcome::NotWhole, "", 1),
    (
        Outcome::Fault(Fault::Refused(SECOND_FILE)),
        "refused: file 2 offset 24 rule 6 block-trailer\n",
        1,
    ),
    (
        Outcome::Fault(Fault::Read {
            file: 1,
            offset: 24,
        }),
        "fault: read file 1 offset 24\n",
        1,
    ),
    (Outcome::Fault(Fault::Write), "fault: write\n", 1),
    (Outcome::Fault(Fault::Memory), "fault: memory\n", 1),
    (Outcome::Open(1), "fault: open file 1\n", 1),
    (Outcome::List, "fault: read list\n", 1),
    (Outcome::ListLine(3), "fault: line 3 of list\n", 2),
    (Outcome::Create, "fault: create output\n", 1),
    (Outcome::Line(LineFault::Files), "fault: files\n", 2),
    (Outcome::Line(LineFault::Input), "fault: input\n", 2),
    (Outcome::Line(LineFault::Output), "fault: output\n", 2),
    (Outcome::Line(LineFault::Memory), "fault: memory\n", 1),
];

// What is printed of an outcome in that much room, and its status.
fn tells(rt: &impl Abort, alloc: Global, room: usize, outcome: Outcome, text: &str, status: u8) {
    let mut writer = room_of(rt, alloc, room);
    let answer = outcome_line(&outcome, &mut writer);
    assert_eq!(rt; (answer, writer.bytes()), (Ok(()), text.as_bytes()));
    assert_eq!(rt; status_of(&outcome), status);
}

// What a fault displays, with the end of a line; nothing for an outcome that holds none.
fn displayed(alloc: Global, outcome: &Outcome) -> Option<String> {
    match outcome {
        Outcome::Fault(fault) => format!(in alloc; "{fault}\n").ok(),
        Outcome::Line(fault) => format!(in alloc; "{fault}\n").ok(),
        Outcome::Done | Outcome::Differ | Outcome::NotWhole => None,
        Outcome::Open(_) | Outcome::List | Outcome::ListLine(_) | Outcome::Create => None,
    }
}

#[test]
fn always_memory_outcomes_print_one_line(rt: HostRuntime) {
    for (outcome, text, status) in &TOLD {
        tells(&rt, rt.alloc(), 64, *outcome, *text, *status);
        if let Outcome::Fault(fault) = outcome {
            assert_eq!(rt; fault_line(*fault).as_slice(), text.as_bytes());
        }
        if let Some(shown) = displayed(rt.alloc(), outcome) {
            assert_eq!(rt; shown.as_str(), *text);
        }
    }
    assert_eq!(rt; status_of(&Outcome::Line(LineFault::Help)), 0);
    assert_eq!(rt; status_of(&Outcome::Line(LineFault::Line)), 2);
}

// What clap says.
const SAID: &[u8] = b"what clap says\n";

// Help that was asked for, and words that are no command line.
const HELP: Outcome = Outcome::Line(LineFault::Help);

const MISUSE: Outcome = Outcome::Line(LineFault::Line);

// An outcome, the room for what is printed, how it ends, what is printed on either stream.
type Told = (Outcome, usize, Outcome, &'static [u8], &'static [u8]);

const SAID_TO_TWO: [Told; 3] = [
    (HELP, SAID.len(), HELP, SAID, b""),
    (MISUSE, SAID.len(), MISUSE, b"", SAID),
    (
        HELP,
        0,
        Outcome::Fault(Fault::Write),
        b"",
        b"fault: write\n",
    ),
];

// What goes to each of two writers.
fn goes_to_two(rt: &impl Abort, alloc: Global, row: &Told) {
    let (outcome, room, ending, printed, told) = *row;
    let mut output = room_of(rt, alloc, room);
    let mut faults = room_of(rt, alloc, 64);
    assert_eq!(rt; tell(outcome, SAID, &mut output, &mut faults), ending);
    assert_eq!(rt; (output.bytes(), faults.bytes()), (printed, told));
}

#[test]
fn help_and_usage_go_to_two_writers(rt: HostRuntime) {
    for row in &SAID_TO_TWO {
        goes_to_two(&rt, rt.alloc(), row);
    }
    tells(&rt, rt.alloc(), USAGE.len(), HELP, USAGE, 0);
    tells(&rt, rt.alloc(), USAGE.len(), MISUSE, USAGE, 2);
}

// A writer of the standard library that takes 0 bytes once it has taken that many.
#[derive(Drop)]
struct Disk<'a> {
    taken: &'a mut Vec<u8>,
    left: usize,
}

impl<'a> Write for Disk<'a> {
    fn write(&mut self, bytes: &[u8]) -> io::Result<usize> {
        let count = bytes.len().min(self.left);
        let (front, _) = bytes.split_at(count);
        self.taken.extend_from_slice(front)?;
        self.left -= count;
        Ok(count)
    }

    fn flush(&mut self) -> io::Result<()> {
        Ok(())
    }
}

// An answer, whether the disk is full, and how that ends.
type Flushed = (Result<Finding, Fault>, bool, Result<(), Outcome>);

const REFUSED: Fault = Fault::Refused(SECOND_FILE);

const FLUSHED: [Flushed; 8] = [
    (Ok(Finding::Nothing), false, Ok(())),
    (
        Ok(Finding::Nothing),
        true,
        Err(Outcome::Fault(Fault::Write)),
    ),
    (Ok(Finding::Difference), false, Err(Outcome::Differ)),
    (
        Ok(Finding::Difference),
        true,
        Err(Outcome::Fault(Fault::Write)),
    ),
    (Ok(Finding::NotWhole), false, Err(Outcome::NotWhole)),
    (
        Ok(Finding::NotWhole),
        true,
        Err(Outcome::Fault(Fault::Write)),
    ),
    (Err(REFUSED), false, Err(Outcome::Fault(REFUSED))),
    (Err(REFUSED), true, Err(Outcome::Fault(Fault::Write))),
];

// How a run ends that has written a line to a disk with room for that many bytes.
fn ends(
    rt: &impl Abort,
    alloc: Global,
    left: usize,
    answer: Result<Finding, Fault>,
) -> Result<(), Outcome> {
    let mut taken = Vec::new(alloc);
    let disk = Disk {
        taken: &mut taken,
        left,
    };
    let mut writer = BufWriter::new(alloc, disk).expect(rt, "a buffer");
    writer.write_all(b"a line\n").expect(rt, "a line");
    end_of(answer, writer.flush())
}

#[test]
fn a_flush_that_fails_comes_before_a_refusal(rt: HostRuntime) {
    for (answer, full, ending) in &FLUSHED {
        let left = if *full { 0 } else { 16 };
        assert_eq!(rt; ends(&rt, rt.alloc(), left, *answer), *ending);
    }
}
