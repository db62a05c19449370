//! `capt digest` and `capt check`: files that are opened one after another, so that there may be more of them than a
//! process can hold open.
ghost use Rattle.std.specs.Prelude.{◌≡◌, ◌<◌, ◌≤◌, IsTrue, length, map};
ghost use Rattle.cap_bytes.specs.Device.{WriterKeeps, writer_of};
ghost use Rattle.cap_bytes.specs.Printing.{is_write};
ghost use Rattle.cap_tool.specs.CheckedNames.{ChecksName, ChecksNames};
ghost use Rattle.cap_tool.specs.Openers.{reader_of};
ghost use Rattle.cap_commands.specs.Jobs.{form_by, line_by, tail_of};

use crate::causes::Cause;
use crate::named::name_field;
use crate::openers::Opener;
use crate::regular::FileType;
use cap_bytes::{Fault, Sink};
use cap_check::{CheckEnd, check_opened, put_check_line};
use cap_commands::{Finding, form_of, line_of, tail_of, whole_finding};
use cap_line::Job;
use std::alloc::Global;

/// What a file is read from, if an opener could open it.
pub(crate) fn reader_of<R, K: Drop>(opened: Result<(R, K), Cause>) -> Option<R>
    ensures { result ≡ reader_of opened }
{
    match opened {
        Ok((reader, _)) => Some(reader),
        Err(_) => None,
    }
}

/// Tells why a file can't be opened, or that it is a folder.
pub(crate) fn tell_opened<O: Opener>(
    opener: &O,
    job: &Job<'_>,
    name: &str,
    opened: &Result<(O::Reader, FileType), Cause>,
) {
    match opened {
        Err(cause) => opener.tell_cause(name, cause, job),
        Ok((_, FileType::Folder)) => opener.tell_cause(name, &Cause::Folder, job),
        Ok(_) => {}
    }
}

// Tells which rest of a file of that number was cut and dropped, if one was.
fn tell_dropped<O: Opener>(opener: &O, job: &Job<'_>, names: &[&str], file: u32, end: &CheckEnd) {
    if let CheckEnd::Whole(end) = end {
        if let Some(rest) = end.ending.cut {
            opener.tell_cut(file, rest, names, job);
        }
    }
}

// Opens the file at that place of some names, and checks it for a job as `check_to` does.
fn check_next<O: Opener, W: Sink>(
    opener: &O,
    alloc: Global,
    job: &Job<'_>,
    names: &[&str],
    place: usize,
    writer: &mut W,
) -> Result<bool, Fault>
    requires place { place < length names.now }
    requires most { length names.now ≤ 4294967295 }
    ensures text { IsTrue (W.tells_held writer.old) → ChecksName (O.gives opener.now) (λ s. record {
      told = O.Reader.tells_coming s;
      bytes = O.Reader.coming s;
      can_fail = O.Reader.can_fail s;
    }) (line_by job.now.task job.now.digests) (form_by job.now.json job.now.time) (tail_of job.now.allow_cut)
        job.now.names (map (λ n. n.now) names.now)
        place (W.held writer.old) result (W.held writer.new) }
    ensures writer { WriterKeeps (writer_of W.Sink writer.old) (is_write result) (writer_of W.Sink writer.new) }
{
    let name = names[place];
    let opened = opener.open(name);
    tell_opened(opener, job, name, &opened);
    let reader = reader_of(opened);
    let tail = tail_of(job.allow_cut);
    let form = form_of(job.json, job.time);
    let which = line_of(job.task, job.digests);
    let named = name_field(alloc, form, job.names, name)?;
    let file = place as u32 + 1;
    let check = check_opened(alloc, reader, file, tail, which.asks_digest())?;
    tell_dropped(opener, job, names, file, &check.end);
    put_check_line(writer, which, form, file, named.as_slice(), &check)?;
    Ok(check.end.is_whole())
}

/// Checks the files of those names for a job, with the numbers from 1 on, and prints the line that its task has of
/// each, as `check_to` does, in JSON with the file's name, in text if the job asks for that: opens one after another,
/// and closes it before the next. It returns `NotWhole` if one of the files isn't whole or could not be opened. It
/// returns `Memory` if a growth is refused, after the lines of the files before, and `Write` if a write fails, after a
/// prefix of the lines.
pub fn check_named<O: Opener, W: Sink>(
    opener: &O,
    alloc: Global,
    job: &Job<'_>,
    names: &[&str],
    writer: &mut W,
) -> Result<Finding, Fault>
    requires most { length names.now ≤ 4294967295 }
    ensures text { IsTrue (W.tells_held writer.old) → ChecksNames (O.gives opener.now) (λ s. record {
      told = O.Reader.tells_coming s;
      bytes = O.Reader.coming s;
      can_fail = O.Reader.can_fail s;
    }) (line_by job.now.task job.now.digests) (form_by job.now.json job.now.time) (tail_of job.now.allow_cut)
        job.now.names (map (λ n. n.now) names.now)
        (W.held writer.old) result (W.held writer.new) }
    ensures writer { WriterKeeps (writer_of W.Sink writer.old) (is_write result) (writer_of W.Sink writer.new) }
{
    let mut are_whole = true;
    for place in 0..names.len() {
        are_whole &= check_next(opener, alloc, job, names, place, writer)?;
    }
    Ok(whole_finding(are_whole))
}
