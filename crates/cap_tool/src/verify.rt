//! `capt digest --verify`: whether the lines that `capt digest --names` printed still hold.
ghost use Rattle.std.specs.Prelude.{◌≡◌, IfOk, IsOkUnless, IsTrue, [], length, map, option_map, true};
ghost use Rattle.std.specs.Prelude.{Some, codes};
ghost use Rattle.cap_bytes.specs.Device.{WriterKeeps, writer_of};
ghost use Rattle.cap_bytes.specs.Printing.{is_write};
ghost use Rattle.cap_commands.specs.Jobs.{form_by, tail_of};
ghost use Rattle.cap_print.specs.Facts.{begin_in, fields_in};
ghost use Rattle.cap_print.specs.Lines.{text_in};
ghost use Rattle.cap_tool.specs.DigestLines.{entry_of};
ghost use Rattle.cap_tool.specs.Verdicts.{IsVerdict, JudgesLine, Verifies, verdict_fields, verdict_line, verdict_name};
ghost use Rattle.cap_tool.specs.Verdicts.{worst_of};

use crate::checks::{reader_of, tell_opened};
use crate::digest_lines::DigestLine;
use crate::growing::Growing;
use crate::named::name_field;
use crate::openers::Opener;
use cap_bytes::{Fault, Sink, Source, Tail, put_all};
use cap_check::{CheckLine, check_to};
use cap_commands::{Finding, form_of, tail_of};
use cap_line::Job;
use cap_print::{Form, Line, TimeForm};
use std::alloc::{AllocError, Global};

/// What is said of a line that `capt digest --names` printed.
#[derive(Clone, Copy, Debug, PartialEq, Eq)]
pub enum Verdict {
    /// The file has the same line now.
    Same,
    /// The file has another line.
    Differs,
    /// The file can't be opened.
    Missing,
}

impl Verdict {
    /// The word for it: `same`, `differs` or `missing`.
    pub fn name(self) -> &'static str
        ensures { result.now ≡ verdict_name self }
    {
        match self {
            Verdict::Same => "same",
            Verdict::Differs => "differs",
            Verdict::Missing => "missing",
        }
    }
}

// What is said of a line whose file was opened.
fn verdict_of<R: Source>(
    alloc: Global,
    source: R,
    tail: Tail,
    line: &DigestLine,
) -> Result<Verdict, Fault>
    ensures verdict { IfOk result (IsVerdict tail (entry_of line.now) (Some (record {
      told = R.tells_coming source;
      bytes = R.coming source;
      can_fail = R.can_fail source;
    }))) }
    ensures fault { IsOkUnless result Fault.Memory }
{
    let name = name_field(alloc, Form::Text(TimeForm::Exact), true, line.name.as_str())?;
    let mut now = Growing::new(alloc);
    let written = check_to(
        alloc,
        Some(source),
        line.number,
        tail,
        CheckLine::Digest,
        Form::Text(TimeForm::Exact),
        name.as_slice(),
        &mut now,
    );
    match written {
        Ok(_) => {
            if now.bytes() == line.text.as_bytes() {
                Ok(Verdict::Same)
            } else {
                Ok(Verdict::Differs)
            }
        }
        Err(_) => Err(Fault::Memory),
    }
}

// What is said of a line whose file could be opened or not.
fn judge<R: Source>(
    alloc: Global,
    source: Option<R>,
    tail: Tail,
    line: &DigestLine,
) -> Result<Verdict, Fault>
    ensures verdict { IfOk result (IsVerdict tail (entry_of line.now) (option_map (λ s. record {
      told = R.tells_coming s;
      bytes = R.coming s;
      can_fail = R.can_fail s;
    }) source)) }
    ensures fault { IsOkUnless result Fault.Memory }
{
    match source {
        Some(source) => verdict_of(alloc, source, tail, line),
        None => Ok(Verdict::Missing),
    }
}

// What is said of a line, before the file's name.
fn verdict_part(form: Form, file: u32, verdict: Verdict) -> Line
    ensures { text_in result
        ≡ begin_in form (codes "verify") (fields_in form (verdict_fields file verdict) []) }
{
    let mut line = Line::new();
    line.put_word_as(form, b" ", b"result", Some(verdict.name()));
    line.put_number_as(form, b" ", b"file", file);
    line.put_kind(form, b"verify");
    line
}

// The line in which it is said.
fn verdict_line(
    alloc: Global,
    form: Form,
    line: &DigestLine,
    verdict: Verdict,
) -> Result<Vec<u8>, AllocError>
    ensures { IfOk result (λ text. text.items ≡ verdict_line form (entry_of line.now) verdict) }
{
    let name = name_field(alloc, form, true, line.name.as_str())?;
    let mut text = Vec::new(alloc);
    text.extend_from_slice(verdict_part(form, line.number, verdict).as_slice())?;
    text.extend_from_slice(name.as_slice())?;
    text.extend_from_slice(Line::end(form).as_slice())?;
    Ok(text)
}

// Opens the file of a line, and writes what is said of that.
fn verify_next<O: Opener, W: Sink>(
    opener: &O,
    alloc: Global,
    job: &Job<'_>,
    line: &DigestLine,
    writer: &mut W,
) -> Result<Verdict, Fault>
    ensures text { IsTrue (W.tells_held writer.old) → JudgesLine (O.gives opener.now) (option_map (λ s. record {
      told = O.Reader.tells_coming s;
      bytes = O.Reader.coming s;
      can_fail = O.Reader.can_fail s;
    })) (tail_of job.now.allow_cut) (form_by job.now.json job.now.time) (entry_of line.now) (W.held writer.old) result
        (W.held writer.new) }
    ensures writer { WriterKeeps (writer_of W.Sink writer.old) (is_write result) (writer_of W.Sink writer.new) }
{
    let name = line.name.as_str();
    let opened = opener.open(name);
    tell_opened(opener, job, name, &opened);
    let verdict = judge(alloc, reader_of(opened), tail_of(job.allow_cut), line)?;
    let text = verdict_line(alloc, form_of(job.json, job.time), line, verdict)?;
    put_all(writer, text.as_slice())?;
    Ok(verdict)
}

// What is found with one line more.
fn worst_of(found: Finding, verdict: Verdict) -> Finding
    ensures { result ≡ worst_of found verdict }
{
    match verdict {
        Verdict::Same => found,
        Verdict::Missing => Finding::NotWhole,
        Verdict::Differs => match found {
            Finding::Nothing | Finding::Difference => Finding::Difference,
            Finding::NotWhole => Finding::NotWhole,
        },
    }
}

/// Says of each line that `capt digest --names` printed, in their order, whether its file is missing, as it can't be
/// opened, or `capt digest --names` prints that very line of it, with the line's number, or it differs: in a form,
/// `verify N same name NAME`. It opens one file after another, and closes it before the next. It returns `NotWhole` if
/// a file is missing, else `Difference` if one differs. It returns `Memory` if a growth is refused, after what it says
/// of the lines before, and `Write` if a write fails, after a prefix.
pub fn verify_lines<O: Opener, W: Sink>(
    opener: &O,
    alloc: Global,
    job: &Job<'_>,
    lines: &[DigestLine],
    writer: &mut W,
) -> Result<Finding, Fault>
    ensures text { IsTrue (W.tells_held writer.old) → Verifies (O.gives opener.now) (option_map (λ s. record {
      told = O.Reader.tells_coming s;
      bytes = O.Reader.coming s;
      can_fail = O.Reader.can_fail s;
    })) (tail_of job.now.allow_cut) (form_by job.now.json job.now.time) (map entry_of lines.now)
        (W.held writer.old) result (W.held writer.new) }
    ensures writer { WriterKeeps (writer_of W.Sink writer.old) (is_write result) (writer_of W.Sink writer.new) }
{
    let mut found = Finding::Nothing;
    for place in 0..lines.len() {
        let verdict = verify_next(opener, alloc, job, &lines[place], writer)?;
        found = worst_of(found, verdict);
    }
    Ok(found)
}
