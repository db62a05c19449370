//! How a command's text ends.
ghost use Rattle.std.specs.Prelude.{IfOk, IsOkUnless};
ghost use Rattle.cap_bytes.specs.declared.faults.Fault.{Fault};
ghost use Rattle.capt_c.specs.JobEnds.{EndsAs};

use cap_bytes::{Fault, Refusal};
use cap_commands::{Done, Finding};

/// How a command ends, after the last byte of its text.
#[derive(Clone, Copy)]
pub enum JobEnd {
    /// It was done, and found that.
    Found(Finding),
    /// A capture breaks a rule.
    Refused(Refusal),
}

/// How a command ends that returned `answer`. It returns `Memory` for any fault but a refusal: the command wrote to
/// memory.
pub(crate) fn ends_as(answer: Result<Done, Fault>) -> Result<JobEnd, Fault>
    ensures end { IfOk result (λ end. EndsAs answer end) }
    ensures fault { IsOkUnless result Fault.Memory }
{
    match answer {
        Ok(done) => Ok(JobEnd::Found(done.finding)),
        Err(Fault::Refused(refusal)) => Ok(JobEnd::Refused(refusal)),
        Err(_) => Err(Fault::Memory),
    }
}
