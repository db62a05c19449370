//! A command over captures in memory, whose text is read piece by piece.
ghost use Rattle.std.specs.Prelude.{◌≡◌, ◌<◌, ◌≤◌, ◌++◌, List, None, Ok, length, min, ℕ};
ghost use Rattle.std.specs.Prelude.{drop, take, vec_len};
ghost use Rattle.capt_c.specs.CommandJobs.{FillsJob, ReadsJob, RefillsJob, count_read, job_rest, status_of_finding};
ghost use Rattle.capt_c.specs.CommandJobs.{status_of_read, work_left, work_rest};
ghost use Rattle.capt_c.specs.JobRests.{StepsJob};

use crate::answers::{DIFFERENCE, DONE, NOT_WHOLE, PIECE, Success};
use crate::job_blocks::BlocksWork;
use crate::job_ends::JobEnd;
use crate::job_lists::ListWork;
use cap_bytes::Fault;
use cap_commands::Finding;
use cap_print::Line;
use std::alloc::Global;
use std::cmp::min;

/// What a job still has to do.
#[derive(Drop)]
pub enum JobWork {
    /// The lines of a capture's packets.
    List(ListWork),
    /// The lines of a capture's blocks.
    Blocks(BlocksWork),
    /// Nothing: all of the text was made, and this is how it ends.
    Whole(JobEnd),
}

// How a job ends all of whose text was made.
fn end_of(end: JobEnd) -> Result<Option<Finding>, Fault>
    ensures step { (made : List ℕ)
        → StepsJob (work_rest (JobWork.Whole end)) made result made (work_rest (JobWork.Whole end)) }
    ensures ends { result ≡ Ok None → ⊥ }
{
    match end {
        JobEnd::Found(finding) => Ok(Some(finding)),
        JobEnd::Refused(refusal) => Err(Fault::Refused(refusal)),
    }
}

impl JobWork {
    // Makes one more piece of the text, behind what was made.
    fn step(
        &mut self,
        alloc: Global,
        line: &mut Line,
        made: &mut Vec<u8>,
    ) -> Result<Option<Finding>, Fault>
        ensures step { StepsJob (work_rest self.old) made.old.items result made.new.items (work_rest self.new) }
        ensures fewer { result ≡ Ok None → work_left self.new < work_left self.old }
    {
        match self {
            JobWork::List(work) => work.step(alloc, line, made),
            JobWork::Blocks(work) => work.step(line, made),
            JobWork::Whole(end) => end_of(*end),
        }
    }
}

// Makes the next of the text, behind what was made, until there are that many bytes.
fn fill(
    alloc: Global,
    work: &mut JobWork,
    made: &mut Vec<u8>,
    room: usize,
) -> Result<Option<Finding>, Fault>
    ensures { FillsJob room (work_rest work.old) made.old.items result made.new.items (work_rest work.new) }
{
    let mut line = Line::new();
    while made.len() < room {
        if let Some(finding) = work.step(alloc, &mut line, made)? {
            return Ok(Some(finding));
        }
    }
    Ok(None)
}

// Copies as much of some bytes into a buffer as it has room for, and returns how many they are.
fn copy_front(bytes: &[u8], buffer: &mut [u8]) -> usize
    ensures count { result ≡ min (length bytes.now) (length buffer.old) }
    ensures buffer { buffer.new ≡ take result bytes.now ++ drop result buffer.old }
{
    let count = min(bytes.len(), buffer.len());
    let (front, _) = bytes.split_at(count);
    let (room, _) = buffer.split_at_mut(count);
    room.copy_from_slice(front);
    count
}

/// What a read of a job returns without a fault.
#[derive(Clone, Copy)]
pub enum JobRead {
    /// So many bytes came, one or more.
    Bytes(usize),
    /// All came before, and the job found that.
    End(Finding),
}

/// A command over captures in memory.
#[derive(Drop)]
pub struct CommandJob {
    // what was made of the text, and how many of these bytes were given
    made: Vec<u8>,
    given: usize,
    work: JobWork,
}

impl CommandJob {
    /// A job that has that to do, behind a text that was made of it.
    pub fn new(made: Vec<u8>, work: JobWork) -> CommandJob
        ensures { job_rest result ≡ record {
          text = made.items ++ (work_rest work).text;
          end = (work_rest work).end;
        } }
    {
        CommandJob {
            made,
            given: 0,
            work,
        }
    }

    // Makes the next of the text, once all that was made is given.
    fn refill(&mut self, alloc: Global, room: usize) -> Result<Option<Finding>, Fault>
        requires given { vec_len self.old.made ≤ self.old.given }
        requires room { 0 < room }
        ensures { RefillsJob (job_rest self.old) result self.new.given self.new.made.items (job_rest self.new) }
    {
        self.made.clear();
        self.given = 0;
        let answer = fill(alloc, &mut self.work, &mut self.made, room);
        if self.made.is_empty() {
            answer
        } else {
            Ok(None)
        }
    }

    // Gives the next bytes that were made.
    fn give(&mut self, buffer: &mut [u8]) -> usize
        requires made { self.old.given < vec_len self.old.made }
        requires room { 0 < length buffer.old }
        ensures { ReadsJob (job_rest self.old) buffer.old (Ok (JobRead.Bytes result)) buffer.new (job_rest self.new) }
    {
        let (_, rest) = self.made.as_slice().split_at(self.given);
        let count = copy_front(rest, buffer);
        self.given += count;
        count
    }

    /// Gives the next bytes of the text, one or more, as many as the buffer has room for at most; or tells how the job
    /// ended, once all came, now and at each later call. It returns `Refused` if a capture is refused, once all bytes
    /// before the refusal came. It returns `Memory` if there is none, and may be called again then.
    pub fn read(&mut self, alloc: Global, buffer: &mut [u8]) -> Result<JobRead, Fault>
        requires { 0 < length buffer.old }
        ensures { ReadsJob (job_rest self.old) buffer.old result buffer.new (job_rest self.new) }
    {
        if self.given < self.made.len() {
            return Ok(JobRead::Bytes(self.give(buffer)));
        }
        match self.refill(alloc, buffer.len())? {
            Some(finding) => Ok(JobRead::End(finding)),
            None => Ok(JobRead::Bytes(self.give(buffer))),
        }
    }
}

// The status of what a job found.
fn status_of_finding(finding: Finding) -> u32
    ensures { result ≡ status_of_finding finding }
{
    match finding {
        Finding::Nothing => DONE,
        Finding::Difference => DIFFERENCE,
        Finding::NotWhole => NOT_WHOLE,
    }
}

impl Success for JobRead {
    ghost status = { status_of_read };

    fn status(self) -> u32 {
        match self {
            JobRead::Bytes(_) => PIECE,
            JobRead::End(finding) => status_of_finding(finding),
        }
    }
}

/// How many bytes came by a read.
pub(crate) fn count_read(answer: &Result<JobRead, Fault>) -> usize
    ensures { result ≡ count_read answer.now }
{
    match answer {
        Ok(JobRead::Bytes(count)) => *count,
        Ok(JobRead::End(_)) | Err(_) => 0,
    }
}
