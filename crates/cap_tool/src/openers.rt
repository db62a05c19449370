//! What opens the files that a job names.
ghost use Rattle.std.specs.Prelude.{ℕ, List, Option};
ghost use Rattle.cap_tool.specs.Openers.{reader_of};

use crate::causes::Cause;
use crate::regular::FileType;
use cap_bytes::{CutRest, Source};
use cap_line::Job;

/// What opens files by their names: the system, or a folder in memory.
pub trait Opener {
    /// What a file is read from.
    type Reader: Source;

    /// What opening a name may give: what the file is read from, or none if it can't be opened. An opener that tells
    /// the bytes of its files says here which they are.
    ghost gives: { Self → List ℕ → Option Self.Reader → Type 0 };

    /// Opens the file of that name and says what it is, or why it can't be opened.
    fn open(&self, name: &str) -> Result<(Self::Reader, FileType), Cause>
        ensures { gives self.now name.now (reader_of result) };

    /// Tells why the file of that name isn't read, if the job asks for that, or if it is always told.
    fn tell_cause(&self, name: &str, cause: &Cause, job: &Job<'_>);

    /// Tells which rest of the file of that number was cut and dropped, if the job asks for that, or if it is always
    /// told: `names` has the files' names by their numbers.
    fn tell_cut(&self, file: u32, rest: CutRest, names: &[&str], job: &Job<'_>);
}
