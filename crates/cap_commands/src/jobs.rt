//! What the command line asks for, done over readers and a writer.
ghost use Rattle.std.specs.Prelude.{◌≡◌, ◌≤◌, ◌∷◌, [], Bool, IfOk, IsTrue, map, vec_len};
ghost use Rattle.cap_check.specs.CheckText.{WritesChecks, no_names};
ghost use Rattle.std.specs.List.{list_all};
ghost use Rattle.cap_line.specs.Jobs.{IsWholeJob};
ghost use Rattle.cap_commands.specs.Jobs.{Does, Finds, compared_by, counts_line, finding_by, form_by, format_in};
ghost use Rattle.cap_commands.specs.Jobs.{found_in, output_of};
ghost use Rattle.cap_commands.specs.Jobs.{finding_in, found_by, line_by, listed_by, opened_files, printed_by, shown_by};
ghost use Rattle.cap_commands.specs.Jobs.{reported_by, tail_of, whole_by, whole_finding, written_by};
ghost use Rattle.cap_commands.specs.JobLeft.{JobLeaves};
ghost use Rattle.cap_commands.specs.Left.{done_of};
ghost use Rattle.cap_commands.specs.ListText.{list_refusal};
ghost use Rattle.cap_commands.specs.RunText.{run_form};
ghost use Rattle.cap_bytes.specs.Device.{WriterKeeps, writer_of};
ghost use Rattle.cap_bytes.specs.Printing.{Prints, is_write};
ghost use Rattle.cap_source.specs.ReadFaults.{FailsOf};

use crate::blocks::blocks_in;
use crate::counting::{
    OutputFormat, RunForm, convert_and_count, join_and_count, merge_and_count, output_format,
};
use crate::diff::{DiffEnd, DiffOptions, diff_in};
use crate::left::{DroppedInfo, NOTHING_LEFT, both_cut, left_of_report, only_cut, only_cuts};
use crate::list::{ListOptions, list_in};
use cap_bytes::{CutRest, Fault, Sink, Source, Tail};
use cap_check::{CheckLine, check_all_to};
use cap_line::{Job, Task};
use cap_print::{Form, TimeForm};
use cap_talks::{ReportLeft, ReportOptions, file_lines_and_cuts, report_with};
use std::alloc::Global;

/// What a job that was done found, by which its run ends.
#[derive(Clone, Copy, Debug, PartialEq, Eq)]
pub enum Finding {
    /// Nothing by which a run ends otherwise.
    Nothing,
    /// Two captures differ.
    Difference,
    /// A file of `digest` or `check` isn't whole.
    NotWhole,
}

/// What a job that was done found, and what it left out.
#[derive(Clone, Copy, Debug, PartialEq, Eq)]
pub struct Done {
    /// What it found, by which its run ends.
    pub finding: Finding,
    /// What it left out of what it wrote, or as it was.
    pub left: DroppedInfo,
}

/// What is done with a cut end.
pub fn tail_of(allow_cut: bool) -> Tail
    ensures { result ≡ tail_of allow_cut }
{
    if allow_cut {
        Tail::Accept
    } else {
        Tail::Refuse
    }
}

/// The form of what is printed, by whether it is JSON and by the form of times.
pub fn form_of(json: bool, times: TimeForm) -> Form
    ensures { result ≡ form_by json times }
{
    if json {
        Form::Json(times)
    } else {
        Form::Text(times)
    }
}

// Which line `check` prints of a file, by whether it has a digest.
fn counts_line(digests: bool) -> CheckLine
    ensures { result ≡ counts_line digests }
{
    if digests {
        CheckLine::CountsAndDigest
    } else {
        CheckLine::Counts
    }
}

/// Which line `digest` or `check` prints of a file: `digests` says if that of `check` has a digest.
pub fn line_of(task: Task, digests: bool) -> CheckLine
    ensures { result ≡ line_by task digests }
{
    match task {
        Task::Digest => CheckLine::Digest,
        _ => counts_line(digests),
    }
}

/// How many bytes of a packet are shown at most: 16 in text, and in JSON unless the job says how many.
pub fn shown_of(form: Form, count: Option<u32>) -> u32
    ensures { result ≡ shown_by form count }
{
    match form {
        Form::Text(_) => 16,
        Form::Json(_) => count.unwrap_or(16),
    }
}

// The one source of a task of one file.
fn only<R: Source>(mut sources: Vec<R>) -> R
    requires { vec_len sources ≡ 1 }
    ensures { sources.items ≡ result ∷ [] }
{
    sources.remove(0)
}

// The two sources of `diff`.
fn pair<R: Source>(mut sources: Vec<R>) -> (R, R)
    requires { vec_len sources ≡ 2 }
    ensures { sources.items ≡ result.0 ∷ result.1 ∷ [] }
{
    let second = sources.remove(1);
    let first = sources.remove(0);
    (first, second)
}

// What is found by whether two captures have the same packets.
fn finding_of(is_same: bool) -> Finding
    ensures { result ≡ finding_by is_same }
{
    if is_same {
        Finding::Nothing
    } else {
        Finding::Difference
    }
}

/// What is found by whether all files that were checked are whole.
pub fn whole_finding(are_whole: bool) -> Finding
    ensures { result ≡ whole_finding are_whole }
{
    if are_whole {
        Finding::Nothing
    } else {
        Finding::NotWhole
    }
}

// `check` or `digest` in a form, and what it finds.
fn check<R: Source, W: Sink>(
    alloc: Global,
    sources: Vec<R>,
    tail: Tail,
    which: CheckLine,
    form: Form,
    writer: &mut W,
) -> Result<Finding, Fault>
    requires most { vec_len sources ≤ 4294967295 }
    ensures text { IsTrue (list_all R.tells_coming sources.items) → IsTrue (W.tells_held writer.old)
        → WritesChecks which form tail no_names
        (opened_files (map R.can_fail sources.items) (map R.coming sources.items)) (W.held writer.old)
        (whole_by (done_of result) (found_in result)) (W.held writer.new) }
    ensures finding { IfOk result (λ finding. (are_whole : Bool) × (finding ≡ whole_finding are_whole)) }
    ensures writer { WriterKeeps (writer_of W.Sink writer.old) (is_write result) (writer_of W.Sink writer.new) }
    ensures read { FailsOf (map R.can_fail sources.items) result }
{
    let are_whole = check_all_to(alloc, sources, tail, which, form, writer)?;
    Ok(whole_finding(are_whole))
}

// The format in which a job writes, if one is asked for, with the unit of time that is asked for.
fn output_of(job: &Job<'_>) -> Option<OutputFormat>
    ensures { result ≡ output_of job.now }
{
    match job.to {
        Some(format) => Some(output_format(format, job.unit)),
        None => None,
    }
}

// The format that `merge` and `join` write: pcapng if none is asked for.
fn format_of(to: Option<OutputFormat>) -> OutputFormat
    ensures { result ≡ format_in to }
{
    to.unwrap_or(OutputFormat::Pcapng)
}

// The form in which `merge` writes packets: in a pcap file no interfaces are shared.
fn run_form(shares: bool, format: OutputFormat) -> RunForm
    ensures { result ≡ run_form shares format }
{
    match format {
        OutputFormat::Pcap(unit) => RunForm::Pcap(unit),
        OutputFormat::Pcapng => {
            if shares {
                RunForm::SharedPcapng
            } else {
                RunForm::Pcapng
            }
        }
    }
}

// What a job has done that printed files which ended in those rests, by their places, where they were cut.
fn printed(answer: Result<[Option<CutRest>; 32], Fault>) -> Result<Done, Fault>
    ensures { result ≡ printed_by answer }
{
    match answer {
        Ok(cuts) => Ok(Done {
            finding: Finding::Nothing,
            left: only_cuts(cuts),
        }),
        Err(fault) => Err(fault),
    }
}

// What a job has done that printed a report, and left that.
fn reported(answer: Result<ReportLeft, Fault>) -> Result<Done, Fault>
    ensures { result ≡ reported_by answer }
{
    match answer {
        Ok(left) => Ok(Done {
            finding: Finding::Nothing,
            left: left_of_report(left),
        }),
        Err(fault) => Err(fault),
    }
}

// What a job has done that printed a file which ended in that rest, if it was cut.
fn listed(answer: Result<Option<CutRest>, Fault>) -> Result<Done, Fault>
    ensures { result ≡ listed_by answer }
{
    match answer {
        Ok(cut) => Ok(Done {
            finding: Finding::Nothing,
            left: only_cut(cut),
        }),
        Err(fault) => Err(fault),
    }
}

// What a job has done that compared two files, which ended so.
fn compared(answer: Result<DiffEnd, Fault>) -> Result<Done, Fault>
    ensures { result ≡ compared_by answer }
{
    match answer {
        Ok(end) => Ok(Done {
            finding: finding_of(end.is_same),
            left: both_cut(end.cuts),
        }),
        Err(fault) => Err(fault),
    }
}

// What a job has done that found that, and leaves nothing out.
fn found(answer: Result<Finding, Fault>) -> Result<Done, Fault>
    ensures { result ≡ found_by answer }
{
    match answer {
        Ok(finding) => Ok(Done {
            finding,
            left: NOTHING_LEFT,
        }),
        Err(fault) => Err(fault),
    }
}

// What a job has done that wrote a capture, and left that out.
fn written(answer: Result<DroppedInfo, Fault>) -> Result<Done, Fault>
    ensures { result ≡ written_by answer }
{
    match answer {
        Ok(left) => Ok(Done {
            finding: Finding::Nothing,
            left,
        }),
        Err(fault) => Err(fault),
    }
}

/// Does a job over the files that it names, of which `sources` gives the bytes in their order, and writes to what it
/// names as its output: each task is the command of its name, with the tail, the form, the order and the format that
/// the job has. It returns what it found: `Difference` exactly if it is `diff` of captures that differ, `NotWhole`
/// exactly if it is `digest` or `check` of files that aren't all whole. And it returns what it left out, as
/// `convert_and_count`, `merge_and_count` and `join_and_count` say, and the rests of cut files that `list`, `blocks`,
/// `info` and `report` drop: nothing of other tasks. Comments and packets that run backward are counted if `counts`
/// says so, and packets that `join` leaves out, by their class. `info`, `report` and `diff` write
/// all of their text, or nothing if they return `Refused`, `Read` or `Memory`; `digest` and `check` have a line for a
/// file that is refused or of which a read fails, and return neither; the others write up to the first refusal, which
/// they return, and a prefix of their text if they return another fault. It returns `Read` if a read fails, `Write` if
/// a write does, and `Memory` if a growth is refused. The lines of `digest` and `check` don't name their files. The
/// job's list isn't read: over no sources `digest` and `check` write nothing, and find nothing.
#[inline(never)]
pub fn job_to<R: Source, W: Sink>(
    alloc: Global,
    job: &Job<'_>,
    sources: Vec<R>,
    counts: bool,
    writer: &mut W,
) -> Result<Done, Fault>
    requires whole { IsWholeJob job.now }
    requires sources { vec_len sources ≡ vec_len job.now.files }
    ensures text { IsTrue (list_all R.tells_coming sources.items) → IsTrue (W.tells_held writer.old)
        → Does job.now (map R.can_fail sources.items) (map R.coming sources.items) (found_in (finding_in result))
        (W.held writer.old) (done_of (finding_in result)) (W.held writer.new) }
    ensures writer { WriterKeeps (writer_of W.Sink writer.old) (is_write result) (writer_of W.Sink writer.new) }
    ensures read { FailsOf (map R.can_fail sources.items) result }
    ensures left { IfOk result (λ done. IsTrue (list_all R.tells_coming sources.items)
        → JobLeaves job.now (map R.coming sources.items) counts done.left) }
    ensures finding { IfOk result (λ done. IsTrue (list_all R.tells_coming sources.items)
        → Finds job.now (map R.coming sources.items) done.finding) }
{
    let tail = tail_of(job.allow_cut);
    let form = form_of(job.json, job.time);
    match job.task {
        Task::List => {
            let most = shown_of(form, job.data);
            let options = ListOptions {
                form,
                most,
                class: job.class,
                ipv6: job.ipv6, // for the class alone
            };
            listed(list_in(alloc, only(sources), tail, options, writer))
        }
        Task::Blocks => listed(blocks_in(alloc, only(sources), tail, form, writer)),
        Task::Diff => {
            let options = DiffOptions {
                ignored: job.ignored,
                form,
                most: shown_of(form, job.data),
            };
            let (first, second) = pair(sources);
            compared(diff_in(alloc, first, second, tail, options, writer))
        }
        Task::Digest => {
            let which = CheckLine::Digest;
            found(check(alloc, sources, tail, which, form, writer))
        }
        Task::Check => {
            let which = counts_line(job.digests);
            found(check(alloc, sources, tail, which, form, writer))
        }
        Task::Info => printed(file_lines_and_cuts(alloc, sources, tail, form, writer)),
        Task::Report => {
            let options = ReportOptions {
                form,
                top: job.top,
                counts,
                ipv6: job.ipv6, // for the conversations, too
            };
            reported(report_with(alloc, sources, tail, options, writer))
        }
        Task::Convert => {
            let format = output_format(job.to.unwrap(), job.unit);
            let source = only(sources);
            written(convert_and_count(alloc, source, tail, job.order, format, counts, writer))
        }
        Task::Merge => {
            let form = run_form(job.shares, format_of(output_of(job)));
            let answer = merge_and_count(alloc, sources, tail, job.order, form, counts, writer);
            written(answer)
        }
        Task::Join => {
            let format = format_of(output_of(job));
            let answer = join_and_count(alloc, sources, tail, job.order, format, counts, writer);
            written(answer)
        }
    }
}
