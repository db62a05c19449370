//! The program's run over the system that it runs on.
ghost use Rattle.std.specs.Prelude.{◌≡◌, ◌⊎◌, ◌&&◌, IfErr, IsFalse, is_some};
ghost use Rattle.cap_tool.specs.Outcomes.{is_help};
ghost use Rattle.cap_line.specs.declared.faults.LineFault.{LineFault};

use crate::causes::Cause;
use crate::created::create_for;
use crate::cuts::{put_cuts, put_rest};
use crate::hints::{called, cause_line, hint, hint_object};
use crate::left::{Told, left_lines};
use crate::left_out::left_out_line;
use crate::networks::network_line;
use crate::objects::tell_in;
use crate::openers::Opener;
use crate::outcomes::{Outcome, RunStop, status_of, tell};
use crate::outlets::Buffered;
use crate::progress::Progress;
use crate::progress_devices::ProgressDevice;
use crate::regular::{FileId, FileType};
use crate::runs::{run_words, tell_unread};
use crate::shared::{OutputHandle, SharedOutput};
use crate::streams::{Input, Output};
use crate::systems::System;
use crate::whole::AtomicOutput;
use cap_bytes::{CutRest, Tracked, put_all};
use cap_commands::{DroppedInfo, form_of};
use cap_line::{Job, LineFault};
use cap_print::{Form, TimeForm};
use std::alloc::Global;
use std::env;
use std::fs::File;
use std::io::{ErrorKind, IsTerminal, Stderr, Stdin, Stdout};
use std::rt::{Env, Files};
use std::time::Clock;

/// The standard streams.
#[derive(Clone, Copy)]
pub struct StandardStreams {
    /// Standard input.
    pub input: Stdin,
    /// Standard output.
    pub output: Stdout,
    /// Standard error.
    pub faults: Stderr,
}

// How many bytes wait for a write: none at a terminal, if each line is seen as it comes. A write that begins or ends
// within a page costs the system more, so few and large ones are made.
fn output_buffer(is_terminal: bool) -> usize {
    if is_terminal { 0 } else { 262_144 }
}

// The words of the command line, the first of which is the program's name.
fn words_of<R: Env + AllocGlobal>(rt: &R) -> Result<Vec<String>, LineFault>
    ensures { IfErr result (λ fault. (fault ≡ LineFault.Line) ⊎ (fault ≡ LineFault.Memory)) }
{
    match env::args(rt) {
        Ok(words) => words.collect(rt.alloc()).map_err(|_| LineFault::Memory),
        Err(error) if error.kind() == ErrorKind::OutOfMemory => Err(LineFault::Memory),
        Err(_) => Err(LineFault::Line),
    }
}

// Where progress is shown: at a terminal, unless what is written goes to a program that may use the same one.
fn screen_of<R: Files<File = File>>(files: &R, faults: Stderr, output: &Output) -> Option<Stderr> {
    if faults.is_terminal() && (output.is_terminal() || output.is_regular(files)) {
        Some(faults)
    } else {
        None
    }
}

// The system that the program runs on.
#[derive(Drop)]
pub(crate) struct Host<'a, R: Clock> {
    rt: &'a R,
    streams: StandardStreams,
    is_closed: bool,
    output: &'a SharedOutput,
    progress: &'a Progress<'a, R>,
}

impl<'a, R: Files<File = File> + Clock + AllocGlobal> Opener for Host<'a, R> {
    ghost use Rattle.std.specs.Prelude.{option_map};
    ghost use Rattle.cap_bytes.specs.Tracked.{tracked_inner};
    ghost use Rattle.cap_tool.specs.CheckedNames.{IsOpenedBy};
    ghost use Rattle.cap_tool.specs.Host.{host_is_closed};
    ghost use Rattle.cap_tool.specs.ProgressDevice.{progress_inner};

    type Reader = ProgressDevice<'a, Tracked<Input>, R>;

    ghost gives = { λ h name reader. IsOpenedBy (host_is_closed h) name
        (option_map (λ w. tracked_inner (progress_inner w)) reader) };

    fn open(&self, name: &str) -> Result<(ProgressDevice<'a, Tracked<Input>, R>, FileType), Cause> {
        if self.is_closed && name == "-" {
            return Err(Cause::Closed);
        }
        let input = Input::open(self.rt, self.streams.input, name)?;
        let file_type = input.file_type(self.rt);
        Ok((
            ProgressDevice::new(Tracked::new(input), self.progress),
            file_type,
        ))
    }

    fn tell_cause(&self, name: &str, cause: &Cause, job: &Job<'_>) {
        if !job.explain && !self.streams.faults.is_terminal() {
            return;
        }
        if let Some(line) = cause_line(self.rt.alloc(), called(name), cause) {
            self.progress.wipe();
            let mut faults = Tracked::new(self.streams.faults);
            tell_hint(self.rt.alloc(), line.as_str(), job.json, &mut faults);
        }
    }

    fn tell_cut(&self, file: u32, rest: CutRest, names: &[&str], job: &Job<'_>) {
        if !job.explain && !self.streams.faults.is_terminal() {
            return;
        }
        self.progress.wipe();
        let mut faults = Tracked::new(self.streams.faults);
        // a standard error that fails doesn't change how the run ends
        let _ = put_rest(file, rest, form_of(job.json, job.time), names, &mut faults);
    }
}

// Prints how a run ended: with `--json` a refusal or a fault of a job is an object.
fn tell_job(
    outcome: Outcome,
    said: &[u8],
    job: Option<&Job<'_>>,
    output: &mut Tracked<Stdout>,
    faults: &mut Tracked<Stderr>,
) -> Outcome
    ensures same { IsFalse (is_help outcome) → result ≡ outcome }
{
    match job {
        Some(job) if job.json => {
            let paths = job.files.as_slice();
            tell_in(
                outcome,
                said,
                Form::Json(TimeForm::Exact),
                paths,
                output,
                faults,
            )
        }
        _ => tell(outcome, said, output, faults),
    }
}

// Tells more of a run than its line, on standard error: what is left out of what was written, or why it isn't done.
fn explain<R: Files<File = File> + AllocGlobal>(
    rt: &R,
    job: Option<&Job<'_>>,
    stop: &RunStop,
    told: &Told,
    faults: &mut Tracked<Stderr>,
) {
    let lines = left_lines(&stop.outcome, &told.left);
    // a standard error that fails doesn't change how the run ends
    let _ = put_all(faults, lines.as_slice());
    let _ = put_all(faults, left_out_line(&stop.outcome, &told.left).as_slice());
    tell_networks(job, &stop.outcome, &told.left, faults);
    tell_cuts(job, &stop.outcome, &told.left, faults);
    if let Some(line) = hint(rt, rt.alloc(), stop, job) {
        let is_object = matches!(job, Some(job) if job.json) && !is_of_line(&stop.outcome);
        tell_hint(rt.alloc(), line.as_str(), is_object, faults);
    }
}

// Tells the networks of the packets that a report counts as `not-ipv4`.
fn tell_networks(
    job: Option<&Job<'_>>,
    outcome: &Outcome,
    left: &DroppedInfo,
    faults: &mut Tracked<Stderr>,
) {
    if let Some(job) = job {
        let line = network_line(job.ipv6, form_of(job.json, job.time), outcome, left);
        // a standard error that fails doesn't change how the run ends
        let _ = put_all(faults, line.as_slice());
    }
}

// Tells which rests of a job's files were cut and dropped, after a run that is done, that left files out, or that found
// a difference.
fn tell_cuts(
    job: Option<&Job<'_>>,
    outcome: &Outcome,
    left: &DroppedInfo,
    faults: &mut Tracked<Stderr>,
) {
    match job {
        Some(job) if matches!(outcome, Outcome::Done | Outcome::Differ | Outcome::NotWhole) => {
            let form = form_of(job.json, job.time);
            // a standard error that fails doesn't change how the run ends
            let _ = put_cuts(&left.cuts, form, job.files.as_slice(), faults);
        }
        _ => {}
    }
}

// Whether a run ended because of its command line: what is printed of that is text, also of a job that prints JSON.
fn is_of_line(outcome: &Outcome) -> bool {
    match outcome {
        Outcome::Line(_) => true,
        _ => false,
    }
}

// The text of a hint's line: without the two blanks before it, and without its end.
fn hint_text(line: &str) -> &str {
    let text = line.strip_prefix("  ").unwrap_or(line);
    text.strip_suffix("\n").unwrap_or(text)
}

// Prints a hint's line on standard error, or the object of its text.
fn tell_hint(alloc: Global, line: &str, is_object: bool, faults: &mut Tracked<Stderr>) {
    // a standard error that fails doesn't change how the run ends
    if !is_object {
        let _ = put_all(faults, line.as_bytes());
    } else if let Some(object) = hint_object(alloc, hint_text(line)) {
        let _ = put_all(faults, object.as_slice());
    }
}

impl<'a, R: Files<File = File> + Clock + AllocGlobal> System for Host<'a, R> {
    ghost use Rattle.std.specs.Prelude.{MatchResult};
    ghost use Rattle.cap_bytes.specs.declared.faults.Fault.TheVariants.{Memory};
    ghost use Rattle.cap_tool.specs.declared.outcomes.Outcome.TheVariants as Outcome;
    ghost use Rattle.cap_tool.specs.Host.{Commits, host_is_closed};

    type Writer = ProgressDevice<'a, OutputHandle<'a>, R>;

    type Name = Option<AtomicOutput>;

    ghost lacks_input = { λ h. host_is_closed h };

    ghost makes = { λ h job ids result. MatchResult result (λ made. is_some made.1 ≡ (job.whole && is_some job.out))
        (λ stop. (stop.outcome ≡ Outcome.Create) ⊎ (stop.outcome ≡ Outcome.Fault Memory)) };

    ghost commits = { λ h name answer result. Commits (is_some name) answer result };

    fn has_no_input(&self) -> bool {
        self.is_closed
    }

    fn explains(&self) -> bool {
        self.streams.faults.is_terminal()
    }

    fn create(
        &self,
        job: &Job<'_>,
        names: &[&str],
        inputs: &[Option<FileId>],
        size: Option<u64>,
    ) -> Result<
        (
            ProgressDevice<'a, OutputHandle<'a>, R>,
            Option<AtomicOutput>,
        ),
        RunStop,
    > {
        let alloc = self.rt.alloc();
        let (output, beside) = create_for(self.rt, alloc, job, names, self.streams.output, inputs)?;
        let screen = screen_of(self.rt, self.streams.faults, &output);
        let is_terminal = output.is_terminal();
        match Buffered::new(alloc, output_buffer(is_terminal), output) {
            Ok(buffered) => self.output.begin(buffered),
            Err(outcome) => {
                if let Some(beside) = beside {
                    beside.remove(self.rt);
                }
                return Err(RunStop::from(outcome));
            }
        }
        self.progress.begin(screen, is_terminal, size);
        Ok((
            ProgressDevice::new(OutputHandle::new(self.output), self.progress),
            beside,
        ))
    }

    fn commit(
        &self,
        name: Option<AtomicOutput>,
        answer: Result<DroppedInfo, RunStop>,
    ) -> Result<DroppedInfo, RunStop> {
        self.progress.wipe();
        match name {
            Some(beside) => beside.commit(self.rt, answer),
            None => answer,
        }
    }

    fn tell(&self, stop: RunStop, job: Option<&Job<'_>>, said: &[u8], told: &Told) -> Outcome {
        let mut faults = Tracked::new(self.streams.faults);
        let mut output = Tracked::new(self.streams.output);
        let outcome = tell_job(stop.outcome, said, job, &mut output, &mut faults);
        if told.counts {
            let stop = RunStop::because(outcome, stop.cause);
            explain(self.rt, job, &stop, told, &mut faults);
        }
        outcome
    }
}

/// Runs the program: does what the words of its command line ask for, tells how that ended, and returns its status.
/// `has_no_input` says whether standard input is closed.
pub fn run<R: Files<File = File> + Clock + AllocGlobal + Env>(
    rt: &R,
    streams: StandardStreams,
    has_no_input: bool,
) -> u8 {
    let output = SharedOutput::new();
    let progress = Progress::idle(rt).with_output(&output);
    let host = Host {
        rt,
        streams,
        is_closed: has_no_input,
        output: &output,
        progress: &progress,
    };
    let outcome = match words_of(rt) {
        Ok(words) => run_words(&host, rt.alloc(), words.as_slice()),
        Err(fault) => tell_unread(&host, fault),
    };
    status_of(&outcome)
}
