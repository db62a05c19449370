//! The calls that open a job, and that read its text.
ghost use Rattle.std.specs.Prelude.{◌≡◌, ◌<◌, IsOkUnless, IsTrue, OnErr, Some, length};
ghost use Rattle.cap_bytes.specs.declared.faults.Fault.{Fault};
ghost use Rattle.capt_c.specs.Answers.{status_of_result, status_of_unit};
ghost use Rattle.capt_c.specs.HandleValue.{IsClosed};
ghost use Rattle.capt_c.specs.JobCalls.{Given, OpensAsked, OpensJob, Piece, ReadsHeld};
ghost use Rattle.capt_c.specs.JobOptions.{asked_of, is_asked};
ghost use Rattle.capt_c.specs.Reading.{Misused};

use crate::answers::{CPlace, MISUSE, status_and_place, status_of_result};
use crate::command_jobs::{CommandJob, count_read};
use crate::handles::{Handle, HandleValue, with_open};
use crate::job_begins::begin;
use crate::job_options::{Asked, JobOptions, asked_of};
use crate::texts::Bytes;
use cap_bytes::Fault;
use std::alloc::Global;

// Closes what the handle held, and opens a job.
fn open_job(
    alloc: Global,
    job: &mut Handle,
    asked: &Asked,
    files: &[Bytes<'static>],
) -> Result<(), Fault>
    requires { IsTrue (is_asked asked.now (length files.now)) }
    ensures opens { OpensJob asked.now files.now (status_of_result status_of_unit result) job.new.kept.value }
    ensures closed { OnErr result (IsClosed job.new.kept.value job.new.kept.at job.new.is_open) }
    ensures fault { IsOkUnless result Fault.Memory }
{
    // dropping what was held closes it, and frees its memory for the job
    let _ = job.take(alloc);
    let opened = Box::new(alloc, begin(alloc, asked, files)?)?;
    job.hold(alloc, HandleValue::Job(opened))
}

/// Opens a job: a command over captures in memory, which stay as they are until it is closed. What the handle held is
/// closed.
#[unsafe(no_mangle)]
pub extern "C" fn capt_job_open(
    alloc: Global,
    job: &mut Handle,
    command: u32,
    files: &[Bytes<'static>],
    options: &JobOptions,
) -> u32
    ensures opens { OpensAsked (asked_of command options.now (length files.now)) files.now result job.old job.new }
    ensures closed { result ≡ 5 → IsClosed job.new.kept.value job.new.kept.at job.new.is_open }
{
    match asked_of(command, options, files.len()) {
        Some(asked) => status_of_result(open_job(alloc, job, &asked, files)),
        None => MISUSE,
    }
}

// Gives the next bytes of a job.
fn read_job(
    alloc: Global,
    job: &mut CommandJob,
    buffer: &mut [u8],
    count: &mut usize,
    place: &mut CPlace,
) -> u32
    requires { 0 < length buffer.old }
    ensures { Given job.old buffer.old result (record {
      buffer = buffer.new;
      count = count.new;
      place = place.new;
    }) job.new }
{
    let answer = job.read(alloc, buffer);
    *count = count_read(&answer);
    status_and_place(answer, place)
}

// Gives the next bytes of what is held, if that is a job.
fn read_of(
    alloc: Global,
    held: &mut HandleValue,
    buffer: &mut [u8],
    count: &mut usize,
    place: &mut CPlace,
) -> u32
    requires { 0 < length buffer.old }
    ensures { ReadsHeld (Some held.old)
        (record { buffer = buffer.old; count = count.old; place = place.old }) result
        (record { buffer = buffer.new; count = count.new; place = place.new }) (Some held.new) }
{
    match held {
        HandleValue::Job(job) => read_job(alloc, job, buffer, count, place),
        HandleValue::Capture(_)
        | HandleValue::Fed(_)
        | HandleValue::Table(_)
        | HandleValue::Text(_)
        | HandleValue::Writer(_) => MISUSE,
    }
}

/// Gives the next bytes of a job's text, one or more, as many as the buffer has room for at most; or tells how the job
/// ended, once all came.
#[unsafe(no_mangle)]
pub extern "C" fn capt_job_read(
    alloc: Global,
    job: &mut Handle,
    buffer: &mut [u8],
    count: &mut usize,
    place: &mut CPlace,
) -> u32
    ensures reads { 0 < length buffer.old → ReadsHeld job.old.kept.value
        (record { buffer = buffer.old; count = count.old; place = place.old }) result
        (record { buffer = buffer.new; count = count.new; place = place.new }) job.new.kept.value }
    ensures misuse { length buffer.old ≡ 0 → Misused {X = Piece} result job.old.kept.value job.new.kept.value
        (record { buffer = buffer.old; count = count.old; place = place.old })
        (record { buffer = buffer.new; count = count.new; place = place.new }) }
{
    if buffer.is_empty() {
        return MISUSE;
    }
    with_open!(
        job,
        alloc,
        |held| read_of(alloc, &mut held, buffer, count, place)
    )
}
