//! What a run reaches besides its words: the files that it opens, its output, and who is told how it ended.
ghost use Rattle.std.specs.Prelude.{◌≡◌, ◌⊎◌, Bool, List, Option, Result, IfErr, IfOk, IsErr, IsFalse, IsOk};
ghost use Rattle.cap_commands.specs.declared.left.DroppedInfo.{DroppedInfo};
ghost use Rattle.cap_line.specs.declared.jobs.Job.{Job};
ghost use Rattle.cap_tool.specs.Outcomes.{is_help};
ghost use Rattle.cap_tool.specs.declared.outcomes.RunStop.{RunStop};
ghost use Rattle.cap_tool.specs.declared.regular.FileId.{FileId};

use crate::left::Told;
use crate::openers::Opener;
use crate::outcomes::{Outcome, RunStop};
use crate::outlets::Outlet;
use crate::regular::FileId;
use cap_bytes::Fault;
use cap_commands::DroppedInfo;
use cap_line::Job;

/// What a run reaches besides its words: the files that it opens, its output, and who is told how it ended.
pub trait System: Opener {
    /// What a job is written to.
    type Writer: Outlet;

    /// What is to be committed of an output once its job is done: whether it takes its name only then.
    type Name: Drop;

    /// Whether standard input is closed.
    ghost lacks_input: { Self → Bool };

    /// What the creation of a job's output may give, of a job that reads those regular files.
    ghost makes: { Self → Job → List (Option FileId) → Result (Self.Writer × Self.Name) RunStop → Type 0 };

    /// How a run may end whose job ended so, once its output is committed.
    ghost commits: { Self → Self.Name → Result DroppedInfo RunStop → Result DroppedInfo RunStop → Type 0 };

    /// Whether standard input is closed.
    fn has_no_input(&self) -> bool
        ensures { result ≡ lacks_input self.now };

    /// Whether a failure is explained also if the words of the command line don't ask for it.
    fn explains(&self) -> bool;

    /// Creates the output of a job that reads the files of those names, which are those regular files, if it is known
    /// which, and have as many bytes together as `size` says, if that is known. Returns `Outcome::Create` if it can't
    /// be created, and why, or `Fault::Memory`.
    fn create(
        &self,
        job: &Job<'_>,
        names: &[&str],
        inputs: &[Option<FileId>],
        size: Option<u64>,
    ) -> Result<(Self::Writer, Self::Name), RunStop>
        ensures makes { makes self.now job.now inputs.now result }
        ensures stops { IfErr result (λ stop. (stop.outcome ≡ Outcome.Create)
            ⊎ (stop.outcome ≡ Outcome.Fault Fault.Memory)) };

    /// Commits the output of a run whose job ended so. A job that wasn't done ends as it did; one that was done can
    /// end by `Fault::Write`, if the output can't take its name.
    fn commit(
        &self,
        name: Self::Name,
        answer: Result<DroppedInfo, RunStop>,
    ) -> Result<DroppedInfo, RunStop>
        ensures commits { commits self.now name answer result }
        ensures stopped { IsErr answer → result ≡ answer }
        ensures left { IfOk answer (λ left. IfOk result (λ committed. committed ≡ left)) }
        ensures done { IsOk answer → IfErr result (λ stop. stop.outcome ≡ Outcome.Fault Fault.Write) };

    /// Tells how a run ended, and more of it if that is asked for: `said` is what is printed of words that give no job.
    /// Returns how the program ends: as the run did, unless help could not be written.
    fn tell(&self, stop: RunStop, job: Option<&Job<'_>>, said: &[u8], told: &Told) -> Outcome
        ensures { IsFalse (is_help stop.outcome) → result ≡ stop.outcome };
}
