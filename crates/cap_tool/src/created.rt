//! The output of a job: standard output, a file, or one that takes its name once all is done.
ghost use Rattle.std.specs.Prelude.{IfErr, IfOk, false, option_map};
ghost use Rattle.cap_tool.specs.Created.{IsCreated};
ghost use Rattle.cap_tool.specs.Streams.{StopsCreating};

use crate::outcomes::RunStop;
use crate::regular::FileId;
use crate::streams::{Output, check_output, check_terminal, create_output};
use crate::whole::{AtomicOutput, create_beside};
use cap_line::Job;
use std::alloc::Global;
use std::fs::File;
use std::io::Stdout;
use std::rt::Files;

// Creates an output that has its name from the beginning.
fn create_named<R: Files<File = File>>(
    files: &R,
    standard: Stdout,
    name: Option<&str>,
    inputs: &[Option<FileId>],
) -> Result<(Output, Option<AtomicOutput>), RunStop>
    ensures created { IfOk result (IsCreated false (option_map (λ n. n.now) name.entry) standard) }
    ensures stops { IfErr result StopsCreating }
{
    check_terminal(standard, name)?;
    let output = create_output(files, standard, name, inputs)?;
    Ok((output, None))
}

/// Creates the output of a job that reads the files of those names: beside the file of its name, if it takes that once
/// all is done, and else as `create_output` does. Returns `Outcome::Create`, and no other outcome, with the reason, if
/// it can't be created, if it is one of the inputs, also as standard output, and if it is a terminal that is named for
/// a capture.
pub fn create_for<R: Files<File = File>>(
    files: &R,
    alloc: Global,
    job: &Job<'_>,
    names: &[&str],
    standard: Stdout,
    inputs: &[Option<FileId>],
) -> Result<(Output, Option<AtomicOutput>), RunStop>
    ensures created { IfOk result (IsCreated job.now.whole (option_map (λ n. n.now) job.now.out) standard) }
    ensures stops { IfErr result StopsCreating }
{
    let Some(name) = job.out else {
        check_output(files, names)?;
        return create_named(files, standard, None, inputs);
    };
    if job.whole {
        let (output, beside) = create_beside(files, alloc, name, inputs)?;
        Ok((output, Some(beside)))
    } else {
        create_named(files, standard, Some(name), inputs)
    }
}
