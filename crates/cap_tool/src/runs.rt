//! A run: what the words of a command line ask for, done over a system, and how that ended.
ghost use Rattle.std.specs.Prelude.{◌≡◌, ◌⊎◌, IfErr, IfOk, IsFalse, IsOk, IsTrue, MatchResult, OnOk, Result, Some, map};
ghost use Rattle.std.specs.Prelude.{◌≤◌, ◌-◌, length, option_map, take, vec_len};
ghost use Rattle.std.specs.List.{list_all};
ghost use Rattle.cap_line.specs.CommandLine.{Parses};
ghost use Rattle.cap_line.specs.Jobs.{IsWholeJob, is_skipping};
ghost use Rattle.cap_line.specs.declared.faults.LineFault.{LineFault};
ghost use Rattle.cap_line.specs.declared.jobs.Job.{Job};
ghost use Rattle.cap_tool.specs.CheckedNames.{AreGiven};
ghost use Rattle.cap_bytes.specs.Device.{WriterKeeps, writer_of};
ghost use Rattle.cap_bytes.specs.Printing.{is_write};
ghost use Rattle.cap_commands.specs.JobLeft.{JobLeaves};
ghost use Rattle.cap_commands.specs.Jobs.{finding_in};
ghost use Rattle.cap_tool.specs.DigestLines.{entry_of};
ghost use Rattle.cap_tool.specs.Outcomes.{is_help};
ghost use Rattle.cap_tool.specs.Runs.{EndsBy, Runs, RunsAll, RunsBy, RunsChecks, RunsEither, RunsFiles, RunsJob};
ghost use Rattle.cap_tool.specs.Runs.{RunsVerified};
ghost use Rattle.cap_tool.specs.Runs.{RunsVerify};
ghost use Rattle.cap_tool.specs.Runs.{StopsFirst, StopsMaking, ended_as, names_of, outcome_after};
ghost use Rattle.cap_tool.specs.declared.outcomes.RunStop.{RunStop};

use crate::causes::Cause;
use crate::checks::check_named;
use crate::digest_lines::{DigestLine, line_names, lines_in};
use crate::left::Told;
use crate::listed::{check_listed, names_and_list, read_list, texts_of};
use crate::outcomes::{Outcome, RunStop, end_of};
use crate::outlets::Outlet;
use crate::reserved_stdio::check_input;
use crate::skipping::run_skipping;
use crate::streams::{Inputs, open_all};
use crate::systems::System;
use crate::verify::verify_lines;
use cap_bytes::{Fault, Source};
use cap_commands::{Done, DroppedInfo, Finding, NOTHING_LEFT, job_to};
use cap_line::{Job, LineFault, NOT_UTF_8, USAGE, is_skipping, is_surveying, message, parse};
use std::alloc::Global;
use std::convert::AsStr;

/// How a command ends that returned that and left that out, once what waits in its writer's buffer is written.
pub(crate) fn end_in<W: Outlet>(
    answer: Result<Finding, Fault>,
    left: DroppedInfo,
    writer: &mut W,
) -> Result<DroppedInfo, RunStop>
    ensures ends { IsTrue (W.tells_held writer.old) → EndsBy answer (W.waiting writer.new) result }
    ensures held { IsTrue (W.tells_held writer.old) → W.held writer.new ≡ W.held writer.old }
    ensures help { IsFalse (is_help (outcome_after result)) }
    ensures done { OnOk result (answer ≡ Ok Finding.Nothing) }
    ensures differs { IfErr result (λ stop. stop.outcome ≡ Outcome.Differ → IsOk answer) }
    ensures left { MatchResult result (λ l. l ≡ left) (λ stop. stop.left ≡ left) }
{
    match end_of(answer, writer.flush()) {
        Ok(()) => Ok(left),
        Err(outcome) => Err(RunStop {
            outcome,
            cause: Cause::of_error(writer.error()),
            left,
        }),
    }
}

// What a job found, and what it left out: nothing after a fault.
fn split(answer: Result<Done, Fault>) -> (Result<Finding, Fault>, DroppedInfo)
    ensures finding { result.0 ≡ finding_in answer }
    ensures left { IfOk answer (λ done. result.1 ≡ done.left) }
{
    match answer {
        Ok(done) => (Ok(done.finding), done.left),
        Err(fault) => (Err(fault), NOTHING_LEFT),
    }
}

/// Does a job over the files that it names, of which `sources` gives the bytes in their order, and writes what waits in
/// the writer's buffer then: the run ends by what `job_to` returns, or by `Fault::Write` if that could not be written.
/// A run that is done, or that found a difference, says what it left out; packets that run backward are counted if
/// that is asked for.
pub fn run_job<R: Source, W: Outlet>(
    alloc: Global,
    job: &Job<'_>,
    sources: Vec<R>,
    counts: bool,
    writer: &mut W,
) -> Result<DroppedInfo, RunStop>
    requires whole { IsWholeJob job.now }
    requires sources { vec_len sources ≡ vec_len job.now.files }
    ensures runs { IsTrue (list_all R.tells_coming sources.items) → IsTrue (W.tells_held writer.old)
        → RunsJob job.now (map R.can_fail sources.items) (map R.coming sources.items) (W.held writer.old) result
        (W.held writer.new) (W.waiting writer.new) }
    ensures help { IsFalse (is_help (outcome_after result)) }
    ensures left { IfOk result (λ left. IsTrue (list_all R.tells_coming sources.items)
        → JobLeaves job.now (map R.coming sources.items) counts left) }
    ensures differs { IfErr result (λ stop. stop.outcome ≡ Outcome.Differ
        → IsTrue (list_all R.tells_coming sources.items)
        → JobLeaves job.now (map R.coming sources.items) counts stop.left) }
{
    let answer = job_to(alloc, job, sources, counts, writer);
    let (answer, left) = split(answer);
    end_in(answer, left, writer)
}

// Opens the files of a job: none, if one of them is standard input, and that is closed.
fn open_inputs<S: System>(
    system: &S,
    alloc: Global,
    job: &Job<'_>,
) -> Result<Inputs<S::Reader>, RunStop>
    requires { IsWholeJob job.now }
    ensures opened { IfOk result (λ inputs. AreGiven (S.gives system.now) (names_of job.now)
        (map Some inputs.sources.items)) }
    ensures len { IfOk result (λ inputs. vec_len inputs.sources ≡ vec_len job.now.files) }
    ensures stops { IfErr result (λ stop. StopsFirst (S.gives system.now) (S.makes system.now job.now)
        (S.lacks_input system.now) job.now (Err stop)) }
    ensures help { IfErr result (λ stop. IsFalse (is_help stop.outcome)) }
{
    check_input(system.has_no_input(), job.files.as_slice())?;
    open_all(system, alloc, job.files.as_slice())
}

// Whether the file of that number, from 1, is a folder.
fn is_folder(folders: &[bool], file: u32) -> bool {
    match file.checked_sub(1) {
        Some(place) => folders.get(place as usize) == Some(&true),
        None => false,
    }
}

/// How a run ended, with the cause of a read that failed: the file is a folder.
pub(crate) fn with_read_cause(
    ended: Result<DroppedInfo, RunStop>,
    folders: &[bool],
) -> Result<DroppedInfo, RunStop>
    ensures ended { ended_as result ≡ ended_as ended }
    ensures left { IfOk ended (λ left. result ≡ Ok left) }
    ensures differs { IfErr ended (λ stop. stop.outcome ≡ Outcome.Differ → result ≡ Err stop) }
{
    match ended {
        Ok(left) => Ok(left),
        Err(stop) => match stop.outcome {
            Outcome::Fault(Fault::Read { file, .. }) if is_folder(folders, file) => {
                Err(RunStop::because(stop.outcome, Cause::Folder))
            }
            _ => Err(stop),
        },
    }
}

// Does a job whose files are all opened before its output is created.
fn run_files<S: System>(
    system: &S,
    alloc: Global,
    job: &Job<'_>,
    counts: bool,
) -> Result<DroppedInfo, RunStop>
    requires { IsWholeJob job.now }
    ensures runs { StopsFirst (S.gives system.now) (S.makes system.now job.now) (S.lacks_input system.now) job.now
        result
        ⊎ RunsFiles (S.gives system.now) (λ s. record {
          told = S.Reader.tells_coming s;
          bytes = S.Reader.coming s;
          can_fail = S.Reader.can_fail s;
        }) (S.makes system.now job.now) (λ w. record {
          told = S.Writer.tells_held w;
          held = S.Writer.held w;
          waiting = S.Writer.waiting w;
        }) (S.commits system.now) job.now result }
    ensures help { IsFalse (is_help (outcome_after result)) }
{
    let inputs = open_inputs(system, alloc, job)?;
    let names = job.files.as_slice();
    let (mut writer, name) = system.create(job, names, inputs.ids.as_slice(), inputs.size)?;
    let ended = run_job(alloc, job, inputs.sources, counts, &mut writer);
    system.commit(name, with_read_cause(ended, inputs.folders.as_slice()))
}

// Does `digest` or `check` of files of those names, which are opened one after another once the output is created.
// `read` has the names of all that is read: of a list too.
fn run_checks<'n, S: System>(
    system: &S,
    alloc: Global,
    job: &Job<'_>,
    names: &[&'n str],
    read: &[&'n str],
) -> Result<DroppedInfo, RunStop>
    requires { length names.now ≤ 4294967295 }
    ensures runs { StopsMaking (S.makes system.now job.now) result
        ⊎ RunsChecks (S.gives system.now) (λ s. record {
          told = S.Reader.tells_coming s;
          bytes = S.Reader.coming s;
          can_fail = S.Reader.can_fail s;
        }) (S.makes system.now job.now) (λ w. record {
          told = S.Writer.tells_held w;
          held = S.Writer.held w;
          waiting = S.Writer.waiting w;
        }) (S.commits system.now) job.now (map (λ n. n.now) names.now) result }
    ensures help { IsFalse (is_help (outcome_after result)) }
{
    let (mut writer, name) = system.create(job, read, &[], None)?;
    let answer = check_named(system, alloc, job, names, &mut writer);
    let ended = end_in(answer, NOTHING_LEFT, &mut writer);
    system.commit(name, ended)
}

// Does a job over a system whose files aren't opened one after another: over those that aren't refused, if it leaves
// out the others, or over all.
fn run_either<S: System>(
    system: &S,
    alloc: Global,
    job: &Job<'_>,
    counts: bool,
) -> Result<DroppedInfo, RunStop>
    requires { IsWholeJob job.now }
    ensures runs { RunsEither (is_skipping job.now.task job.now.skips) (S.gives system.now) (λ s. record {
      told = S.Reader.tells_coming s;
      bytes = S.Reader.coming s;
      can_fail = S.Reader.can_fail s;
    }) (S.makes system.now job.now) (λ w. record {
      told = S.Writer.tells_held w;
      held = S.Writer.held w;
      waiting = S.Writer.waiting w;
    }) (S.commits system.now) (S.lacks_input system.now) job.now result }
    ensures help { IsFalse (is_help (outcome_after result)) }
{
    if is_skipping(job.task, job.skips) {
        run_skipping(system, alloc, job, counts)
    } else {
        run_files(system, alloc, job, counts)
    }
}

// Does a job over a system: `digest` and `check` open their files one after another, any other job all of them before
// it begins.
fn run_task<S: System>(
    system: &S,
    alloc: Global,
    job: &Job<'_>,
    counts: bool,
) -> Result<DroppedInfo, RunStop>
    requires { IsWholeJob job.now }
    ensures runs { Runs (S.gives system.now) (λ s. record {
      told = S.Reader.tells_coming s;
      bytes = S.Reader.coming s;
      can_fail = S.Reader.can_fail s;
    }) (S.makes system.now job.now) (λ w. record {
      told = S.Writer.tells_held w;
      held = S.Writer.held w;
      waiting = S.Writer.waiting w;
    }) (S.commits system.now) (S.lacks_input system.now) job.now result }
    ensures help { IsFalse (is_help (outcome_after result)) }
{
    if is_surveying(job.task) {
        let names = job.files.as_slice();
        run_checks(system, alloc, job, names, names)
    } else {
        run_either(system, alloc, job, counts)
    }
}

// All of some names but the last.
fn without_last<'a, 'n>(names: &'a [&'n str]) -> &'a [&'n str]
    ensures { result.now ≡ take (length names.now - 1) names.now }
{
    names.split_at(names.len().saturating_sub(1)).0
}

// Does a job over the captures that the list of that name has.
fn run_listed<S: System>(
    system: &S,
    alloc: Global,
    job: &Job<'_>,
    list: &str,
) -> Result<DroppedInfo, RunStop>
    ensures runs { RunsBy (Some list.now) (S.gives system.now) (λ s. record {
      told = S.Reader.tells_coming s;
      bytes = S.Reader.coming s;
      can_fail = S.Reader.can_fail s;
    }) (S.makes system.now job.now) (λ w. record {
      told = S.Writer.tells_held w;
      held = S.Writer.held w;
      waiting = S.Writer.waiting w;
    })
        (S.commits system.now) (S.lacks_input system.now) job.now result }
    ensures help { IsFalse (is_help (outcome_after result)) }
{
    let bytes = read_list(system, alloc, list)?;
    let Ok(names) = names_and_list(alloc, bytes.as_slice(), list) else {
        return Err(RunStop::memory());
    };
    let Ok(read) = texts_of(alloc, names.as_slice()) else {
        return Err(RunStop::memory());
    };
    let listed = without_last(read.as_slice());
    if let Err(fault) = check_listed(job.task, list, listed) {
        return Err(RunStop::from(Outcome::Line(fault)));
    }
    run_checks(system, alloc, job, listed, read.as_slice())
}

// Says of lines whether they still hold, once the output is created. `read` has the names of all that is read: of the
// list too.
fn run_lines<'n, S: System>(
    system: &S,
    alloc: Global,
    job: &Job<'_>,
    lines: &[DigestLine],
    read: &[&'n str],
) -> Result<DroppedInfo, RunStop>
    ensures runs { StopsMaking (S.makes system.now job.now) result
        ⊎ RunsVerify (S.gives system.now) (λ s. record {
          told = S.Reader.tells_coming s;
          bytes = S.Reader.coming s;
          can_fail = S.Reader.can_fail s;
        }) (S.makes system.now job.now) (λ w. record {
          told = S.Writer.tells_held w;
          held = S.Writer.held w;
          waiting = S.Writer.waiting w;
        }) (S.commits system.now) job.now (map entry_of lines.now) result }
    ensures help { IsFalse (is_help (outcome_after result)) }
{
    let (mut writer, name) = system.create(job, read, &[], None)?;
    let found = verify_lines(system, alloc, job, lines, &mut writer);
    let ended = end_in(found, NOTHING_LEFT, &mut writer);
    system.commit(name, ended)
}

// Says of each line of the list of that name, which `digest --names` printed, whether it still holds.
fn run_verified<S: System>(
    system: &S,
    alloc: Global,
    job: &Job<'_>,
    list: &str,
) -> Result<DroppedInfo, RunStop>
    ensures runs { RunsVerified (S.gives system.now) (λ s. record {
      told = S.Reader.tells_coming s;
      bytes = S.Reader.coming s;
      can_fail = S.Reader.can_fail s;
    }) (S.makes system.now job.now) (λ w. record {
      told = S.Writer.tells_held w;
      held = S.Writer.held w;
      waiting = S.Writer.waiting w;
    }) (S.commits system.now) job.now list.now result }
    ensures help { IsFalse (is_help (outcome_after result)) }
{
    let bytes = read_list(system, alloc, list)?;
    let lines = lines_in(alloc, bytes.as_slice())?;
    let Ok(read) = line_names(alloc, lines.as_slice(), list) else {
        return Err(RunStop::memory());
    };
    let named = without_last(read.as_slice());
    if let Err(fault) = check_listed(job.task, list, named) {
        return Err(RunStop::from(Outcome::Line(fault)));
    }
    run_lines(system, alloc, job, lines.as_slice(), read.as_slice())
}

// Does a job over its files, or over the captures that its list has.
fn run_named<S: System>(
    system: &S,
    alloc: Global,
    job: &Job<'_>,
    counts: bool,
) -> Result<DroppedInfo, RunStop>
    requires { IsWholeJob job.now }
    ensures runs { RunsBy (option_map (λ l. l.now) job.now.list) (S.gives system.now) (λ s. record {
      told = S.Reader.tells_coming s;
      bytes = S.Reader.coming s;
      can_fail = S.Reader.can_fail s;
    }) (S.makes system.now job.now) (λ w. record {
      told = S.Writer.tells_held w;
      held = S.Writer.held w;
      waiting = S.Writer.waiting w;
    })
        (S.commits system.now) (S.lacks_input system.now) job.now result }
    ensures help { IsFalse (is_help (outcome_after result)) }
{
    match job.list {
        Some(list) => run_listed(system, alloc, job, list),
        None => run_task(system, alloc, job, counts),
    }
}

// Verifies lines, or does a job over its files or its list.
fn run_all<S: System>(
    system: &S,
    alloc: Global,
    job: &Job<'_>,
    counts: bool,
) -> Result<DroppedInfo, RunStop>
    requires { IsWholeJob job.now }
    ensures runs { RunsAll (S.gives system.now) (λ s. record {
      told = S.Reader.tells_coming s;
      bytes = S.Reader.coming s;
      can_fail = S.Reader.can_fail s;
    }) (S.makes system.now job.now) (λ w. record {
      told = S.Writer.tells_held w;
      held = S.Writer.held w;
      waiting = S.Writer.waiting w;
    })
        (S.commits system.now) (S.lacks_input system.now) job.now result }
    ensures help { IsFalse (is_help (outcome_after result)) }
{
    match job.verify {
        Some(list) => run_verified(system, alloc, job, list),
        None => run_named(system, alloc, job, counts),
    }
}

// How a run ended, and what it left out.
fn end_of_run(answer: Result<DroppedInfo, RunStop>) -> (RunStop, DroppedInfo)
    ensures outcome { result.0.outcome ≡ outcome_after answer }
    ensures left { MatchResult answer (λ left. result.1 ≡ left) (λ stop. result.1 ≡ stop.left) }
{
    match answer {
        Ok(left) => (RunStop::from(Outcome::Done), left),
        Err(stop) => {
            let left = stop.left;
            (stop, left)
        }
    }
}

/// Does a job over a system, and tells how it ended: it returns that outcome.
pub fn do_job<S: System>(system: &S, alloc: Global, job: &Job<'_>) -> Outcome
    requires { IsWholeJob job.now }
    ensures { (ended : Result DroppedInfo RunStop) × RunsAll (S.gives system.now) (λ s. record {
      told = S.Reader.tells_coming s;
      bytes = S.Reader.coming s;
      can_fail = S.Reader.can_fail s;
    }) (S.makes system.now job.now) (λ w. record {
      told = S.Writer.tells_held w;
      held = S.Writer.held w;
      waiting = S.Writer.waiting w;
    }) (S.commits system.now) (S.lacks_input system.now) job.now ended × (result ≡ outcome_after ended) }
{
    let counts = job.explain || system.explains();
    let (stop, left) = end_of_run(run_all(system, alloc, job, counts));
    system.tell(stop, Some(job), USAGE.as_bytes(), &Told { counts, left })
}

// Whether some words ask to explain a failure, even if they give no job.
fn asks<T: AsStr>(words: &[T]) -> bool {
    for word in words.iter() {
        if word.as_str() == "--explain" {
            return true;
        }
    }
    false
}

// Tells why words give no job: ends as that fault, unless help could not be written.
fn tell_fault<S: System, T: AsStr>(
    system: &S,
    alloc: Global,
    words: &[T],
    fault: LineFault,
) -> Outcome
    ensures { IsFalse (is_help (Outcome.Line fault)) → result ≡ Outcome.Line fault }
{
    let told = Told {
        counts: asks(words) || system.explains(),
        left: NOTHING_LEFT,
    };
    let stop = RunStop::from(Outcome::Line(fault));
    match message(alloc, words) {
        Some(text) => system.tell(stop, None, text.as_bytes(), &told),
        None => system.tell(stop, None, USAGE.as_bytes(), &told),
    }
}

/// Does what the words of a command line ask for over a system, tells how that ended, and returns it. Words that give
/// no job end as `parse` answers, unless help could not be written.
pub fn run_words<S: System, T: AsStr>(system: &S, alloc: Global, words: &[T]) -> Outcome
    ensures { (parsed : Result Job LineFault) × Parses (map T.text words.now) parsed
        × MatchResult parsed (λ job. (ended : Result DroppedInfo RunStop) × RunsAll (S.gives system.now) (λ s. record {
          told = S.Reader.tells_coming s;
          bytes = S.Reader.coming s;
          can_fail = S.Reader.can_fail s;
        }) (S.makes system.now job) (λ w. record {
          told = S.Writer.tells_held w;
          held = S.Writer.held w;
          waiting = S.Writer.waiting w;
        }) (S.commits system.now) (S.lacks_input system.now) job ended × (result ≡ outcome_after ended))
        (λ fault. IsFalse (is_help (Outcome.Line fault)) → result ≡ Outcome.Line fault) }
{
    match parse(alloc, words) {
        Ok(job) => do_job(system, alloc, &job),
        Err(fault) => tell_fault(system, alloc, words, fault),
    }
}

/// Tells that the words of the command line can't be read, which is no job.
pub fn tell_unread<S: System>(system: &S, fault: LineFault) -> Outcome
    ensures { IsFalse (is_help (Outcome.Line fault)) → result ≡ Outcome.Line fault }
{
    let stop = RunStop::from(Outcome::Line(fault));
    let told = Told {
        counts: false,
        left: NOTHING_LEFT,
    };
    system.tell(stop, None, NOT_UTF_8.as_bytes(), &told)
}
