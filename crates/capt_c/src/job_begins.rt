//! A command's beginning: what it is asked for, and the captures in memory that it is over.
ghost use Rattle.std.specs.Prelude.{◌≡◌, ◌≤◌, IfOk, IsOkUnless, IsTrue, length, map, vec_len};
ghost use Rattle.cap_bytes.specs.declared.faults.Fault.{Fault};
ghost use Rattle.cap_commands.specs.Jobs.{only_of};
ghost use Rattle.cap_line.specs.declared.jobs.Task.{Task};
ghost use Rattle.capt_c.specs.Asking.{BeginsJob, form_asked, list_options};
ghost use Rattle.capt_c.specs.CommandJobs.{job_rest};
ghost use Rattle.capt_c.specs.JobOptions.{is_asked};
ghost use Rattle.capt_c.specs.Texts.{file_bytes};

use crate::answers::{format_of, order_of, tail_of};
use crate::command_jobs::{CommandJob, JobWork};
use crate::job_blocks::BlocksWork;
use crate::job_ends::ends_as;
use crate::job_lists::ListWork;
use crate::job_options::Asked;
use crate::sinks::VecSink;
use crate::texts::{Bytes, slices};
use cap_bytes::Fault;
use cap_commands::{ListOptions, form_of, job_to, shown_of};
use cap_line::{Job, Task};
use cap_print::Form;
use std::alloc::Global;

// The form that is asked for.
fn form_asked(asked: &Asked) -> Form
    ensures { result ≡ form_asked asked.now }
{
    form_of(asked.flags.json, asked.times)
}

// The lines of `list` that are asked for.
fn list_options(asked: &Asked) -> ListOptions
    ensures { result ≡ list_options asked.now }
{
    let form = form_asked(asked);
    ListOptions {
        form,
        most: shown_of(form, asked.most),
        class: asked.flags.class,
        ipv6: asked.flags.common.ipv6,
    }
}

// The bytes of the first file.
fn first_bytes(files: &[Bytes<'static>]) -> &'static [u8]
    requires { 1 ≤ length files.now }
    ensures { result.now ≡ only_of (map file_bytes files.now) }
{
    files[0].bytes
}

// The lines of a capture's packets, of which none is made yet.
fn listed(alloc: Global, asked: &Asked, files: &[Bytes<'static>]) -> CommandJob
    requires task { asked.now.task ≡ Task.List }
    requires some { 1 ≤ length files.now }
    ensures { BeginsJob asked.now (map file_bytes files.now) (job_rest result) }
{
    let tail = tail_of(asked.flags.common.allow_cut);
    let work = ListWork::new(alloc, first_bytes(files), list_options(asked), tail);
    CommandJob::new(Vec::new(alloc), JobWork::List(work))
}

// The lines of a capture's blocks, of which none is made yet.
fn blocks_listed(alloc: Global, asked: &Asked, files: &[Bytes<'static>]) -> CommandJob
    requires task { asked.now.task ≡ Task.Blocks }
    requires some { 1 ≤ length files.now }
    ensures { BeginsJob asked.now (map file_bytes files.now) (job_rest result) }
{
    let tail = tail_of(asked.flags.common.allow_cut);
    let work = BlocksWork::new(alloc, first_bytes(files), form_asked(asked), tail);
    CommandJob::new(Vec::new(alloc), JobWork::Blocks(work))
}

// Names for so many files, which no name is printed of.
fn names(alloc: Global, count: usize) -> Result<Vec<&'static str>, Fault>
    requires { count ≤ 32 }
    ensures count { IfOk result (λ names. vec_len names ≡ count) }
    ensures fault { IsOkUnless result Fault.Memory }
{
    let mut names = Vec::new(alloc);
    for _ in 0..count {
        names.push("")?;
    }
    Ok(names)
}

// A command whose text is made at once.
fn whole(alloc: Global, asked: &Asked, files: &[Bytes<'static>]) -> Result<CommandJob, Fault>
    requires { IsTrue (is_asked asked.now (length files.now)) }
    ensures begins { IfOk result (λ job. BeginsJob asked.now (map file_bytes files.now) (job_rest job)) }
    ensures fault { IsOkUnless result Fault.Memory }
{
    let flags = &asked.flags;
    let sources = slices(alloc, files)?;
    let job = Job {
        task: asked.task,
        files: names(alloc, files.len())?,
        list: None,
        verify: None,
        allow_cut: flags.common.allow_cut,
        order: order_of(flags.common.big),
        to: Some(format_of(flags.common.to_pcap)),
        unit: asked.unit,
        out: Some("-"),
        explain: false,
        whole: false,
        json: flags.json,
        data: asked.most,
        time: asked.times,
        top: asked.top,
        ignored: flags.ignored,
        class: flags.class,
        ipv6: flags.common.ipv6,
        digests: flags.digests,
        names: false,
        shares: flags.shares,
        skips: false,
    };
    let mut sink = VecSink::new(alloc);
    let end = ends_as(job_to(alloc, &job, sources, false, &mut sink))?;
    Ok(CommandJob::new(sink.into_bytes(), JobWork::Whole(end)))
}

/// A command, of whose text nothing was read. It returns `Memory`, and no other fault, if there is none.
pub(crate) fn begin(
    alloc: Global,
    asked: &Asked,
    files: &[Bytes<'static>],
) -> Result<CommandJob, Fault>
    requires { IsTrue (is_asked asked.now (length files.now)) }
    ensures begins { IfOk result (λ job. BeginsJob asked.now (map file_bytes files.now) (job_rest job)) }
    ensures fault { IsOkUnless result Fault.Memory }
{
    match asked.task {
        Task::List => Ok(listed(alloc, asked, files)),
        Task::Blocks => Ok(blocks_listed(alloc, asked, files)),
        _ => whole(alloc, asked, files),
    }
}
