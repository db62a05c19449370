//! How a run ends: its status, and what is printed of it.
ghost use Rattle.std.specs.Prelude.{◌≡◌, ◌++◌, is_err, IsTrue, IsFalse, IsOk, IsErr, IsOkUnless};
ghost use Rattle.cap_bytes.specs.Device.{Puts, WriterKeeps, writer_of};
ghost use Rattle.cap_print.specs.Lines.{text_in};
ghost use Rattle.cap_tool.specs.Outcomes.{ends_by, status_after, line_fault_text, outcome_text, open_text, told_text};
ghost use Rattle.cap_tool.specs.Outcomes.{is_help, HelpEnds, list_line_text};
ghost use Rattle.cap_bytes.specs.Printing.{PrintsFront};
ghost use Rattle.cap_commands.specs.Left.{nothing_left};

use crate::causes::Cause;
use cap_bytes::{Fault, Sink, put_all};
use cap_commands::{DroppedInfo, Finding, NOTHING_LEFT, fault_line};
use cap_line::{LineFault, USAGE};
use cap_print::Line;
use std::io;

/// How a run ended.
#[derive(Clone, Copy, Debug, PartialEq, Eq)]
pub enum Outcome {
    /// All was done.
    Done,
    /// All was done, and captures that were compared or verified differ.
    Differ,
    /// All was done, and a file that was checked isn't whole, one that was verified is missing, or one that is refused
    /// was left out.
    NotWhole,
    /// The command line was not run.
    Line(LineFault),
    /// An input was refused, or a device or memory failed.
    Fault(Fault),
    /// The file of that number, from 1, could not be opened.
    Open(u32),
    /// The list of the captures could not be opened or read.
    List,
    /// That line, from 1, of a list isn't one that `capt digest --names` prints.
    ListLine(u64),
    /// The output could not be created, or is one of the files that are read.
    Create,
}

/// Why a run ended other than by `Outcome::Done`.
#[derive(Debug, PartialEq, Eq, Drop)]
pub struct RunStop {
    /// How it ended.
    pub outcome: Outcome,
    /// Why it ended so.
    pub cause: Cause,
    /// What it left out, if it found a difference, or left files out.
    pub left: DroppedInfo,
}

impl From<Outcome> for RunStop {
    ghost use Rattle.cap_tool.specs.declared.causes.Cause.TheVariants.{Unknown};

    ghost from_gives = { λ outcome stop. stop ≡ record { outcome = outcome; cause = Unknown; left = nothing_left } };

    fn from(outcome: Outcome) -> RunStop {
        RunStop::because(outcome, Cause::Unknown)
    }
}

impl RunStop {
    /// A run that ended like this for that reason, and found no difference.
    pub(crate) fn because(outcome: Outcome, cause: Cause) -> RunStop
        ensures { result ≡ record { outcome = outcome; cause = cause; left = nothing_left } }
    {
        RunStop {
            outcome,
            cause,
            left: NOTHING_LEFT,
        }
    }

    /// A run whose output can't be created.
    pub fn create(cause: Cause) -> RunStop
        ensures { result ≡ record { outcome = Outcome.Create; cause = cause; left = nothing_left } }
    {
        RunStop::because(Outcome::Create, cause)
    }

    /// A run whose list of captures can't be opened or read.
    pub fn list(cause: Cause) -> RunStop
        ensures { result ≡ record { outcome = Outcome.List; cause = cause; left = nothing_left } }
    {
        RunStop::because(Outcome::List, cause)
    }

    /// A run of which that line, from 1, of its list isn't one that `capt digest --names` prints.
    pub fn list_line(line: u64) -> RunStop
        ensures { result ≡ record { outcome = Outcome.ListLine line; cause = Cause.Unknown; left = nothing_left } }
    {
        RunStop::because(Outcome::ListLine(line), Cause::Unknown)
    }

    /// A run in which memory was refused.
    pub fn memory() -> RunStop
        ensures { result ≡ record { outcome = Outcome.Fault Fault.Memory; cause = Cause.Memory; left = nothing_left } }
    {
        RunStop::because(Outcome::Fault(Fault::Memory), Cause::Memory)
    }
}

// How a run ends by what its command returned.
fn ended(answer: Result<Finding, Fault>) -> Result<(), Outcome>
    ensures { result ≡ ends_by answer }
{
    match answer {
        Ok(Finding::Nothing) => Ok(()),
        Ok(Finding::Difference) => Err(Outcome::Differ),
        Ok(Finding::NotWhole) => Err(Outcome::NotWhole),
        Err(fault) => Err(Outcome::Fault(fault)),
    }
}

/// How a command ends that returned `answer`, once what waited in its writer's buffer was flushed:
/// a flush that failed comes before the answer. Only a command that found nothing ends as `Ok`.
pub fn end_of(answer: Result<Finding, Fault>, flushed: io::Result<()>) -> Result<(), Outcome>
    ensures flushed { IsOk flushed → result ≡ ends_by answer }
    ensures write { IsErr flushed → result ≡ Err (Outcome.Fault Fault.Write) }
{
    match flushed {
        Ok(()) => ended(answer),
        Err(_) => Err(Outcome::Fault(Fault::Write)),
    }
}

/// The status that the process ends with: 0 for a run that is done and for help, 1 if an input is refused, if a file
/// that is checked isn't whole, or if a device, an opening, a list, a creation or memory fails, 2 for an invalid
/// command line or line of a list, 3 for captures that differ.
pub fn status_of(outcome: &Outcome) -> u8
    ensures { result ≡ status_after outcome.now }
{
    match outcome {
        Outcome::Done | Outcome::Line(LineFault::Help) => 0,
        Outcome::NotWhole
        | Outcome::Fault(_)
        | Outcome::Open(_)
        | Outcome::List
        | Outcome::Create
        | Outcome::Line(LineFault::Memory) => 1,
        Outcome::Line(LineFault::Line)
        | Outcome::Line(LineFault::Files)
        | Outcome::Line(LineFault::Input)
        | Outcome::Line(LineFault::Output)
        | Outcome::ListLine(_) => 2,
        Outcome::Differ => 3,
    }
}

// `fault: open file 1`
fn open_line(file: u32) -> Line
    ensures { text_in result ≡ open_text file }
{
    let mut line = Line::new();
    line.prepend_text(b"\n");
    line.prepend_field(b"fault: open file ", u64::from(file));
    line
}

// `fault: line 3 of list`
fn list_line(line_number: u64) -> Line
    ensures { text_in result ≡ list_line_text line_number }
{
    let mut line = Line::new();
    line.prepend_text(b" of list\n");
    line.prepend_field(b"fault: line ", line_number);
    line
}

// What is printed of a command line that wasn't run.
fn line_fault_text(fault: LineFault) -> &'static [u8]
    ensures { result.now ≡ line_fault_text fault }
{
    match fault {
        LineFault::Help | LineFault::Line => USAGE.as_bytes(),
        LineFault::Files => b"fault: files\n",
        LineFault::Input => b"fault: input\n",
        LineFault::Output => b"fault: output\n",
        LineFault::Memory => b"fault: memory\n",
    }
}

/// Writes what is printed of an outcome: nothing of a run that is done, the usage for help and for a
/// line that isn't of capt, and one line for each other. Returns `Fault::Write`, and no other
/// fault, if the writer failed: a prefix of the text is written then.
pub fn outcome_line<W: Sink>(outcome: &Outcome, writer: &mut W) -> Result<(), Fault>
    ensures text { IsTrue (W.tells_held writer.old)
        → Puts (W.held writer.old) result (W.held writer.new) (outcome_text outcome.now) }
    ensures writer { WriterKeeps (writer_of W.Sink writer.old) (is_err result) (writer_of W.Sink writer.new) }
    ensures fault { IsOkUnless result Fault.Write }
{
    match outcome {
        Outcome::Done | Outcome::Differ | Outcome::NotWhole => Ok(()),
        Outcome::Line(fault) => put_all(writer, line_fault_text(*fault)),
        Outcome::Fault(fault) => put_all(writer, fault_line(*fault).as_slice()),
        Outcome::Open(file) => put_all(writer, open_line(*file).as_slice()),
        Outcome::List => put_all(writer, b"fault: read list\n"),
        Outcome::ListLine(line) => put_all(writer, list_line(*line).as_slice()),
        Outcome::Create => put_all(writer, b"fault: create output\n"),
    }
}

// Writes what is printed of an outcome if something else than the usage is said of words that give no job.
fn put_told<W: Sink>(outcome: &Outcome, said: &[u8], writer: &mut W) -> Result<(), Fault>
    ensures text { IsTrue (W.tells_held writer.old)
        → Puts (W.held writer.old) result (W.held writer.new) (told_text said.now outcome.now) }
    ensures writer { WriterKeeps (writer_of W.Sink writer.old) (is_err result) (writer_of W.Sink writer.new) }
{
    match outcome {
        Outcome::Line(LineFault::Help) | Outcome::Line(LineFault::Line) => put_all(writer, said),
        _ => outcome_line(outcome, writer),
    }
}

/// Tells an outcome: help on `output`, all else on `faults`. `said` is what is printed of help, and of a line
/// that isn't of capt. Returns how the run ends: by `Fault::Write` if help could not be written, which is
/// told then, else by the same outcome. A failure of `faults` changes nothing.
pub fn tell<O: Sink, E: Sink>(
    outcome: Outcome,
    said: &[u8],
    output: &mut O,
    faults: &mut E,
) -> Outcome
    ensures same { IsFalse (is_help outcome) → result ≡ outcome }
    ensures silent { IsFalse (is_help outcome) → output.new ≡ output.old }
    ensures help { IsTrue (is_help outcome) → IsTrue (O.tells_held output.old)
        → HelpEnds said.now (O.held output.old) (O.held output.new) result }
    ensures ends { IsTrue (is_help outcome) → IsFalse (O.can_fail output.old) → result ≡ outcome }
    ensures told { IsTrue (E.tells_held faults.old) → IsFalse (is_help result)
        → PrintsFront (told_text said.now result) (E.held faults.old) (E.held faults.new) }
    ensures whole { IsTrue (E.tells_held faults.old) → IsFalse (is_help result)
        → IsFalse (E.can_fail faults.old)
        → E.held faults.new ≡ E.held faults.old ++ told_text said.now result }
{
    let ending = match outcome {
        Outcome::Line(LineFault::Help) => match put_told(&outcome, said, output) {
            Ok(()) => return outcome,
            Err(_) => Outcome::Fault(Fault::Write),
        },
        _ => outcome,
    };
    // if this fails, no stream is left to report it on
    let _ = put_told(&ending, said, faults);
    ending
}
