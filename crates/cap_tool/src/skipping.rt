//! A run of `info` or `report` that leaves out the files that are refused: it reads each file to its end, opens those
//! that aren't refused once more, and does its job over these.
ghost use Rattle.std.specs.Prelude.{◌≡◌, ◌⊎◌, ◌≤◌, ◌<◌, IfErr, IfOk, IsFalse, IsTrue, length, map, vec_len};
ghost use Rattle.std.specs.List.{list_all};
ghost use Rattle.cap_line.specs.Jobs.{IsWholeJob, is_skipping};
ghost use Rattle.cap_tool.specs.Outcomes.{is_help};
ghost use Rattle.cap_tool.specs.Runs.{RunsRest, RunsSkipping, SkipsFiles, SkipsJob, StopsMaking, StopsSkipping};
ghost use Rattle.cap_tool.specs.Runs.{ended_as, outcome_after};
ghost use Rattle.cap_tool.specs.Skipped.{FindsAt, FindsRefusals, StopsFinding, ended_skipping, fault_on_line};
ghost use Rattle.cap_tool.specs.Skipped.{outcome_on_line};

use crate::causes::Cause;
use crate::openers::Opener;
use crate::outcomes::{Outcome, RunStop};
use crate::outlets::Outlet;
use crate::regular::FileType;
use crate::runs::{end_in, run_job, with_read_cause};
use crate::streams::{Inputs, open_all};
use crate::systems::System;
use cap_bytes::{CutRest, Fault, Refusal, Source, Tail};
use cap_commands::{
    DroppedInfo, Finding, NOTHING_LEFT, form_of, is_any_refused, kept_files, kept_number,
    put_left_out, refusal_in, tail_of,
};
use cap_line::Job;
use std::alloc::Global;

// How a run stops that finds no refusal of a file of that type.
fn stop_at(fault: Fault, file_type: FileType) -> RunStop
    ensures { result.outcome ≡ Outcome.Fault fault }
{
    let cause = match file_type {
        FileType::Folder => Cause::Folder,
        _ => Cause::Unknown,
    };
    match fault {
        Fault::Memory => RunStop::memory(),
        _ => RunStop::because(Outcome::Fault(fault), cause),
    }
}

// Opens the file at that place of some names, and returns its refusal, if it is refused.
fn find_at<O: Opener>(
    opener: &O,
    alloc: Global,
    names: &[&str],
    place: usize,
    tail: Tail,
) -> Result<Option<Refusal>, RunStop>
    requires place { place < length names.now }
    requires most { length names.now ≤ 4294967295 }
    ensures finds { FindsAt (O.gives opener.now) (λ s. record {
      told = O.Reader.tells_coming s;
      bytes = O.Reader.coming s;
      can_fail = O.Reader.can_fail s;
    }) tail (map (λ n. n.now) names.now) place result }
{
    let file = place as u32 + 1;
    match opener.open(names[place]) {
        Ok((reader, file_type)) => match refusal_in(alloc, reader, file, tail) {
            Ok(refusal) => Ok(refusal),
            Err(fault) => Err(stop_at(fault, file_type)),
        },
        Err(cause) => Err(RunStop::because(Outcome::Open(file), cause)),
    }
}

/// Opens the files of those names, one after another, reads each to its end, and returns the refusal of each, if it is
/// refused. Returns `Outcome::Open` with the number of the first that can't be opened, `Fault::Read` if a read fails,
/// and `Fault::Memory` if a growth is refused.
pub fn find_refusals<O: Opener>(
    opener: &O,
    alloc: Global,
    names: &[&str],
    tail: Tail,
) -> Result<Vec<Option<Refusal>>, RunStop>
    requires most { length names.now ≤ 4294967295 }
    ensures found { IfOk result (λ found. FindsRefusals (O.gives opener.now) (λ s. record {
      told = O.Reader.tells_coming s;
      bytes = O.Reader.coming s;
      can_fail = O.Reader.can_fail s;
    }) tail (map (λ n. n.now) names.now) found.items) }
    ensures stops { IfErr result (λ stop. StopsFinding (O.gives opener.now) (λ s. record {
      told = O.Reader.tells_coming s;
      bytes = O.Reader.coming s;
      can_fail = O.Reader.can_fail s;
    }) (map (λ n. n.now) names.now) stop.outcome) }
{
    let mut found = Vec::new(alloc);
    for place in 0..names.len() {
        let refusal = find_at(opener, alloc, names, place, tail)?;
        if found.push(refusal).is_err() {
            return Err(RunStop::memory());
        }
    }
    Ok(found)
}

// A fault of the files that are kept, with the number of the file on the command line.
fn fault_on_line(fault: Fault, refusals: &[Option<Refusal>]) -> Fault
    requires { length refusals.now ≤ 4294967294 }
    ensures { result ≡ fault_on_line refusals.now fault }
{
    match fault {
        Fault::Refused(refusal) => Fault::Refused(Refusal {
            file: kept_number(refusals, refusal.file),
            offset: refusal.offset,
            rule: refusal.rule,
        }),
        Fault::Read { file, offset } => {
            let file = kept_number(refusals, file);
            Fault::Read { file, offset }
        }
        Fault::Write | Fault::Memory => fault,
    }
}

// How a run over the files that are kept ended, with the number of the file on the command line.
fn outcome_on_line(outcome: Outcome, refusals: &[Option<Refusal>]) -> Outcome
    requires { length refusals.now ≤ 4294967294 }
    ensures { result ≡ outcome_on_line refusals.now outcome }
{
    match outcome {
        Outcome::Fault(fault) => Outcome::Fault(fault_on_line(fault, refusals)),
        Outcome::Open(file) => Outcome::Open(kept_number(refusals, file)),
        Outcome::Done
        | Outcome::Differ
        | Outcome::NotWhole
        | Outcome::Line(_)
        | Outcome::List
        | Outcome::ListLine(_)
        | Outcome::Create => outcome,
    }
}

// The rests that were cut of the files that are kept, by the places of all files.
fn cuts_on_line(
    cuts: &[Option<CutRest>; 32],
    refusals: &[Option<Refusal>],
) -> [Option<CutRest>; 32] {
    let mut placed: [Option<CutRest>; 32] = [None; 32];
    let mut kept = cuts.iter();
    for (place, refusal) in placed.iter_mut().zip(refusals.iter()) {
        if refusal.is_none() {
            if let Some(cut) = kept.next() {
                *place = *cut;
            }
        }
    }
    placed
}

// How a run stopped over the files that are kept, with the numbers on the command line.
fn stop_on_line(stop: RunStop, refusals: &[Option<Refusal>]) -> RunStop
    requires { length refusals.now ≤ 4294967294 }
    ensures { result.outcome ≡ outcome_on_line refusals.now stop.outcome }
{
    RunStop {
        outcome: outcome_on_line(stop.outcome, refusals),
        cause: stop.cause,
        left: stop.left,
    }
}

// How a run ends that did its job over the files that are kept, and ended so: as one that found a file that isn't whole
// if it is done, and left one out.
fn end_skipping(
    ended: Result<DroppedInfo, RunStop>,
    refusals: &[Option<Refusal>],
) -> Result<DroppedInfo, RunStop>
    requires { length refusals.now ≤ 4294967294 }
    ensures { ended_as result ≡ ended_skipping refusals.now (ended_as ended) }
{
    let mut left = match ended {
        Ok(left) => left,
        Err(stop) => return Err(stop_on_line(stop, refusals)),
    };
    left.cuts = cuts_on_line(&left.cuts, refusals);
    if is_any_refused(refusals) {
        let mut stop = RunStop::from(Outcome::NotWhole);
        stop.left = left;
        Err(stop)
    } else {
        Ok(left)
    }
}

// Does the rest of a job over the files that are kept, if there are any, once the lines of the others are written.
fn do_rest<'a, R: Source, W: Outlet>(
    alloc: Global,
    job: &Job<'a>,
    kept: Vec<&'a str>,
    inputs: Inputs<R>,
    refusals: &[Option<Refusal>],
    counts: bool,
    writer: &mut W,
) -> Result<DroppedInfo, RunStop>
    requires whole { IsWholeJob job.now }
    requires skips { IsTrue (is_skipping job.now.task job.now.skips) }
    requires sources { vec_len inputs.sources ≡ vec_len kept }
    requires fewer { vec_len kept ≤ vec_len job.now.files }
    requires most { length refusals.now ≤ 4294967294 }
    ensures runs { IsTrue (list_all R.tells_coming inputs.sources.items) → IsTrue (W.tells_held writer.old)
        → RunsRest job.now refusals.now (map R.can_fail inputs.sources.items) (map R.coming inputs.sources.items)
        (W.held writer.old) result (W.held writer.new) (W.waiting writer.new) }
    ensures help { IsFalse (is_help (outcome_after result)) }
{
    if kept.is_empty() {
        return end_in(Ok(Finding::NotWhole), NOTHING_LEFT, writer);
    }
    let ended = run_job(alloc, &job.over(kept), inputs.sources, counts, writer);
    let ended = with_read_cause(ended, inputs.folders.as_slice());
    end_skipping(ended, refusals)
}

// Does a job that leaves out the files that are refused, by the refusals of all files, once those that are kept are
// opened.
fn do_skipping<'a, R: Source, W: Outlet>(
    alloc: Global,
    job: &Job<'a>,
    kept: Vec<&'a str>,
    inputs: Inputs<R>,
    refusals: &[Option<Refusal>],
    counts: bool,
    writer: &mut W,
) -> Result<DroppedInfo, RunStop>
    requires whole { IsWholeJob job.now }
    requires skips { IsTrue (is_skipping job.now.task job.now.skips) }
    requires sources { vec_len inputs.sources ≡ vec_len kept }
    requires fewer { vec_len kept ≤ vec_len job.now.files }
    requires most { length refusals.now ≤ 4294967294 }
    ensures runs { IsTrue (list_all R.tells_coming inputs.sources.items) → IsTrue (W.tells_held writer.old)
        → SkipsJob job.now refusals.now (map R.can_fail inputs.sources.items) (map R.coming inputs.sources.items)
        (W.held writer.old) result (W.held writer.new) (W.waiting writer.new) }
    ensures help { IsFalse (is_help (outcome_after result)) }
{
    match put_left_out(writer, form_of(job.json, job.time), refusals) {
        Ok(()) => do_rest(alloc, job, kept, inputs, refusals, counts, writer),
        Err(fault) => end_in(Err(fault), NOTHING_LEFT, writer),
    }
}

// Does a job that leaves out the files that are refused, and writes it to `writer`.
fn skip_into<S: System>(
    system: &S,
    alloc: Global,
    job: &Job<'_>,
    counts: bool,
    writer: &mut S::Writer,
) -> Result<DroppedInfo, RunStop>
    requires whole { IsWholeJob job.now }
    requires skips { IsTrue (is_skipping job.now.task job.now.skips) }
    ensures skips { ((writer.new ≡ writer.old) × StopsSkipping (S.gives system.now) (λ s. record {
      told = S.Reader.tells_coming s;
      bytes = S.Reader.coming s;
      can_fail = S.Reader.can_fail s;
    }) job.now result)
        ⊎ SkipsFiles (S.gives system.now) (λ s. record {
          told = S.Reader.tells_coming s;
          bytes = S.Reader.coming s;
          can_fail = S.Reader.can_fail s;
        }) job.now (record {
          told = S.Writer.tells_held writer.old;
          held = S.Writer.held writer.old;
          waiting = S.Writer.waiting writer.old;
        }) result (record {
          told = S.Writer.tells_held writer.new;
          held = S.Writer.held writer.new;
          waiting = S.Writer.waiting writer.new;
        }) }
    ensures help { IsFalse (is_help (outcome_after result)) }
{
    let names = job.files.as_slice();
    let refusals = find_refusals(system, alloc, names, tail_of(job.allow_cut))?;
    let Ok(kept) = kept_files(alloc, names, refusals.as_slice()) else {
        return Err(RunStop::memory());
    };
    match open_all(system, alloc, kept.as_slice()) {
        Ok(inputs) => do_skipping(
            alloc,
            job,
            kept,
            inputs,
            refusals.as_slice(),
            counts,
            writer,
        ),
        Err(stop) => Err(stop_on_line(stop, refusals.as_slice())),
    }
}

/// Does a job over a system that leaves out the files that are refused: `info` or `report` whose job asks for that.
pub(crate) fn run_skipping<S: System>(
    system: &S,
    alloc: Global,
    job: &Job<'_>,
    counts: bool,
) -> Result<DroppedInfo, RunStop>
    requires whole { IsWholeJob job.now }
    requires skips { IsTrue (is_skipping job.now.task job.now.skips) }
    ensures runs { StopsMaking (S.makes system.now job.now) result
        ⊎ RunsSkipping (S.gives system.now) (λ s. record {
          told = S.Reader.tells_coming s;
          bytes = S.Reader.coming s;
          can_fail = S.Reader.can_fail s;
        }) (S.makes system.now job.now) (λ w. record {
          told = S.Writer.tells_held w;
          held = S.Writer.held w;
          waiting = S.Writer.waiting w;
        }) (S.commits system.now) job.now result }
    ensures help { IsFalse (is_help (outcome_after result)) }
{
    let (mut writer, name) = system.create(job, job.files.as_slice(), &[], None)?;
    let ended = skip_into(system, alloc, job, counts, &mut writer);
    system.commit(name, ended)
}
