//! What is printed at a terminal beside the line of a fault: the file's name, and why.
ghost use Rattle.std.specs.Prelude.{◌≡◌, IfSome, IsSome, IsTrue, string_bytes};
ghost use Rattle.cap_tool.specs.Hints.{IsHintLine, is_of_file, is_of_files, is_of_names};
ghost use Rattle.cap_tool.specs.Objects.{hint_json};

use crate::causes::Cause;
use crate::kinds::{Kind, kind_at};
use crate::named::add_escaped;
use crate::outcomes::{Outcome, RunStop};
use crate::regular::{path_of, regular_at};
use cap_bytes::{Fault, Refusal, Rule};
use cap_line::{Job, LineFault, Task, escape};
use std::alloc::Global;
use std::fmt::Display;
use std::fs::File;
use std::io;
use std::rt::Files;

// What is wrong with a file of that kind that begins as none that the task reads: which program unpacks it, or which
// command reads it.
fn magic_meaning(task: Task, kind: Kind) -> &'static str {
    match kind {
        Kind::Gzip => "it is compressed by gzip: zcat FILE | capt list -",
        Kind::Zstd => "it is compressed by zstd: zstdcat FILE | capt list -",
        Kind::Xz => "it is compressed by xz: xzcat FILE | capt list -",
        Kind::Lz4 => "it is compressed by lz4: lz4cat FILE | capt list -",
        Kind::Bzip2 => "it is compressed by bzip2: bzcat FILE | capt list -",
        Kind::ModifiedPcap =>
            "this is a modified pcap file, which capt doesn't read: editcap -F pcap FILE OUT converts it",
        Kind::Pcap if task == Task::Blocks =>
            "only pcapng files have blocks, and this is a pcap file: capt list shows its packets",
        Kind::Other if task == Task::Blocks => "only pcapng files have blocks, and this isn't one",
        _ => "this is no capture of pcap or pcapng",
    }
}

// What rule 21 means of a run that is written as one pcap file.
const NOTHING_TO_WRITE: &str =
    "there is no packet or datagram to write, and so no link type for the pcap header";

// What is wrong with a capture that breaks a rule.
fn meaning(rule: Rule) -> &'static str {
    match rule {
        Rule::Magic => "this is no capture of pcap or pcapng",
        Rule::Version => "its version is neither pcap 2.4 nor pcapng 1.0 or 1.2",
        Rule::Cut => "it is cut off: --allow-cut drops a last record or block",
        Rule::PacketLong => "more than 262,144 bytes of a packet were captured",
        Rule::BlockLength => "the length of a block is wrong",
        Rule::BlockTrailer => "the two lengths of a block differ",
        Rule::OrderMagic => "a section has no valid byte order",
        Rule::Captured => "a packet doesn't fit in its block",
        Rule::InterfaceUnknown => "a packet names an interface that isn't in its section",
        Rule::OptionEnd => "an option runs past the end of its block",
        Rule::OptionLength => "the length of an option is wrong",
        Rule::Resolution => "its times are finer than 10^-19 or 2^-63 of a second",
        Rule::InterfaceLimit => "there are more than 1,024 interfaces",
        Rule::FileLimit => "a record or block ends past byte 2^40",
        Rule::OpenLimit => "too many groups of fragments are open",
        Rule::TalkLimit => "there are more than 1,048,576 conversations",
        Rule::NoTime => "a packet has no time, and can't be written",
        Rule::LinkMixed => "a pcap file has one link type, and the packets have two",
        Rule::Inexact => "a time isn't whole in the unit of the pcap file",
        Rule::TimeRange => "a time doesn't fit in a pcap file",
        Rule::NoInterface => "it has no interface, which a pcap file needs",
    }
}

// What is wrong with a file that ends inside a record or a block, or inside its file header, which begins at offset 0.
fn cut_meaning<R: Files<File = File>>(files: &R, name: &str, offset: u64) -> &'static str {
    if offset > 0 {
        return meaning(Rule::Cut);
    }
    match regular_at(files, path_of(name)) {
        Some(regular) if regular.size == 0 => "it is empty",
        _ => "it is cut off inside its file header, which --allow-cut doesn't drop",
    }
}

// The name of a file of a job, from 1 on.
fn name_of<'a>(job: &Job<'a>, file: u32) -> Option<&'a str> {
    job.files.get((file as usize).checked_sub(1)?).copied()
}

// `  33 captures are too many`: what a terminal wouldn't show is shown as its code.
fn told(alloc: Global, text: &str) -> Option<String>
    ensures { IfSome result (λ line. IsHintLine (string_bytes line)) }
{
    let shown = escape(alloc, text).ok()?;
    let mut line = String::from_str(alloc, "  ").ok()?;
    line.push_str(shown.as_str()).ok()?;
    line.push_str("\n").ok()?;
    Some(line)
}

// `  cut.pcap: it is cut off`
fn line(alloc: Global, name: &str, why: &impl Display) -> Option<String>
    ensures { IfSome result (λ line. IsHintLine (string_bytes line)) }
{
    let text = format!(in alloc; "{name}: {why}").ok()?;
    told(alloc, text.as_str())
}

/// The same line as a JSON object: `{"type":"hint","hint":"cut.pcap: it is cut off"}`. Returns `None` if memory runs
/// out.
pub fn hint_object(alloc: Global, text: &str) -> Option<Vec<u8>>
    ensures { IfSome result (λ object. object.items ≡ hint_json text.now) }
{
    let mut object = Vec::new(alloc);
    object
        .extend_from_slice(b"{\"type\":\"hint\",\"hint\":\"")
        .ok()?;
    add_escaped(&mut object, text).ok()?;
    object.extend_from_slice(b"\"}\n").ok()?;
    Some(object)
}

// What is wrong with a file that breaks a rule.
fn rule_line<R: Files<File = File>>(
    files: &R,
    alloc: Global,
    job: &Job<'_>,
    refusal: Refusal,
) -> Option<String>
    ensures { IfSome result (λ line. IsHintLine (string_bytes line)) }
{
    let name = name_of(job, refusal.file)?;
    match refusal.rule {
        Rule::Cut => line(alloc, name, &cut_meaning(files, name, refusal.offset)),
        Rule::Magic => line(alloc, name, &magic_meaning(job.task, kind_at(files, name))),
        Rule::NoInterface if job.task != Task::Convert => told(alloc, NOTHING_TO_WRITE),
        rule => line(alloc, name, &meaning(rule)),
    }
}

/// `  new: No such file or directory (os error 2)`: why the file or the stream of that name can't be opened, created or
/// written, if it is known.
pub(crate) fn cause_line(alloc: Global, name: &str, cause: &Cause) -> Option<String>
    ensures { IfSome result (λ line. IsHintLine (string_bytes line)) }
{
    let why = match cause {
        Cause::System(error) => return system_line(alloc, name, *error),
        Cause::Beside { name, error } => return system_line(alloc, name.as_str(), *error),
        Cause::Unknown | Cause::Memory => return None,
        Cause::Closed => "it is closed",
        Cause::Folder => "it is a folder",
        Cause::IsInput => "it is one of the files that are read",
        Cause::IsTerminal => "a terminal can't show a capture",
        Cause::NotRegular => "it isn't a regular file",
        Cause::Links => "invalid input parameter",
    };
    line(alloc, name, &why)
}

// The same, as the system says it.
fn system_line(alloc: Global, name: &str, error: i32) -> Option<String>
    ensures { IfSome result (λ line. IsHintLine (string_bytes line)) }
{
    line(alloc, name, &io::Error::from_raw_os_error(error))
}

/// What a file that is read is called.
pub(crate) fn called(name: &str) -> &str {
    if name == "-" { "standard input" } else { name }
}

// What a capture of a job is called, from 1 on.
fn input_name<'a>(job: &Job<'a>, file: u32) -> Option<&'a str> {
    Some(called(name_of(job, file)?))
}

// What a job's list of captures, or of printed lines, is called.
fn list_name<'a>(job: &Job<'a>) -> Option<&'a str> {
    Some(called(job.verify.or(job.list)?))
}

// What a job's output is called.
fn output_name<'a>(job: &Job<'a>) -> &'a str {
    match job.out {
        Some(name) if name != "-" => name,
        _ => "standard output",
    }
}

// Why a file can't be read.
fn read_line(alloc: Global, job: &Job<'_>, file: u32, cause: &Cause) -> Option<String>
    ensures { IfSome result (λ line. IsHintLine (string_bytes line)) }
{
    let why = match cause {
        Cause::Folder => "it is a folder",
        _ => "it can't be read",
    };
    line(alloc, name_of(job, file)?, &why)
}

// Why a list of captures can't be opened or read.
fn list_line(alloc: Global, name: &str, cause: &Cause) -> Option<String>
    ensures { IfSome result (λ line. IsHintLine (string_bytes line)) }
{
    match cause {
        Cause::Unknown => line(alloc, name, &"it can't be read"),
        _ => cause_line(alloc, name, cause),
    }
}

// Which line of a list isn't one that `capt digest --names` prints.
fn other_line(alloc: Global, name: &str, number: u64) -> Option<String>
    ensures { IfSome result (λ line. IsHintLine (string_bytes line)) }
{
    let why = format!(in alloc; "line {number} isn't a line of 'capt digest --names'").ok()?;
    line(alloc, name, &why.as_str())
}

// What is wrong with a file that is read or written, if a fault is of one.
fn fault_line<R: Files<File = File>>(
    files: &R,
    alloc: Global,
    job: &Job<'_>,
    fault: Fault,
    cause: &Cause,
) -> Option<String>
    ensures file { IsSome result → IsTrue (is_of_files fault) }
    ensures line { IfSome result (λ line. IsHintLine (string_bytes line)) }
{
    match fault {
        Fault::Refused(refusal) => rule_line(files, alloc, job, refusal),
        Fault::Read { file, .. } => read_line(alloc, job, file, cause),
        Fault::Write => cause_line(alloc, output_name(job), cause),
        Fault::Memory => None,
    }
}

// What is wrong with the files that a command line names.
fn names_line(alloc: Global, fault: LineFault) -> Option<String>
    ensures file { IsSome result → IsTrue (is_of_names fault) }
    ensures line { IfSome result (λ line. IsHintLine (string_bytes line)) }
{
    let why = match fault {
        LineFault::Files =>
            "only capt check and capt digest read more than 32 captures: examples/rounds.sh merges them",
        LineFault::Input => "standard input, -, can be read once",
        LineFault::Output => "the output is one of the captures that are read",
        _ => return None,
    };
    told(alloc, why)
}

/// The line that a terminal shows after the line of a fault: the name of the file, and why it can't be opened, created
/// or written, or what the rule means that is broken; of a command line, what is wrong with the files that it names.
/// What a terminal wouldn't show of a name is shown as its code. `job` is what was run, if the words of the command
/// line gave one. There is no line if the fault is of no file, if it isn't known why, or if memory runs out. `hint`
/// creates no file, and opens one only if it isn't a capture, to see what it is.
pub fn hint<R: Files<File = File>>(
    files: &R,
    alloc: Global,
    stop: &RunStop,
    job: Option<&Job<'_>>,
) -> Option<String>
    ensures file { IsSome result → IsTrue (is_of_file stop.now.outcome) }
    ensures line { IfSome result (λ line. IsHintLine (string_bytes line)) }
{
    if let Outcome::Line(fault) = stop.outcome {
        return names_line(alloc, fault);
    }
    let job = job?;
    match stop.outcome {
        Outcome::Fault(fault) => fault_line(files, alloc, job, fault, &stop.cause),
        Outcome::Open(file) => cause_line(alloc, input_name(job, file)?, &stop.cause),
        Outcome::List => list_line(alloc, list_name(job)?, &stop.cause),
        Outcome::ListLine(number) => other_line(alloc, list_name(job)?, number),
        Outcome::Create => cause_line(alloc, output_name(job), &stop.cause),
        _ => None,
    }
}
