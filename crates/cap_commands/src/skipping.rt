//! The files that `info` and `report` leave out, if that is asked for: those that are refused.
ghost use Rattle.std.specs.Prelude.{◌≡◌, ◌≤◌, IsOkUnless, IsTrue, IfOk, is_err, length, map};
ghost use Rattle.cap_bytes.specs.Device.{Puts, WriterKeeps, writer_of};
ghost use Rattle.cap_print.specs.Lines.{text_in};
ghost use Rattle.cap_commands.specs.Skipping.{FindsRefusal, is_any_refused, kept_number, kept_of, left_out_if};
ghost use Rattle.cap_commands.specs.Skipping.{left_out_line_in, left_out_lines};

use cap_bytes::{Fault, Refusal, Sink, Source, Tail, put_all};
use cap_check::{CheckEnd, check_file};
use cap_print::{Form, Line};
use std::alloc::{AllocError, Global};

/// Reads the capture file of that number to its end, and returns its refusal, or `None` if it isn't refused. Returns
/// `Read` if a read fails, and `Memory` if a growth is refused.
pub fn refusal_in<R: Source>(
    alloc: Global,
    source: R,
    file: u32,
    tail: Tail,
) -> Result<Option<Refusal>, Fault>
    ensures { FindsRefusal tail file (record {
      told = R.tells_coming source;
      bytes = R.coming source;
      can_fail = R.can_fail source;
    }) result }
{
    let check = check_file(alloc, source, file, tail, false)?;
    match check.end {
        CheckEnd::Refusing(refusal, _) => Ok(Some(refusal)),
        CheckEnd::Reading(offset, _) => Err(Fault::Read { file, offset }),
        // a file that was opened ends otherwise than `Opening`
        CheckEnd::Whole(_) | CheckEnd::Opening => Ok(None),
    }
}

// `left out 24 offset 404865 rule 3 cut`
fn left_out_line(form: Form, refusal: &Refusal) -> Line
    ensures { text_in result ≡ left_out_line_in form refusal.now }
{
    let mut line = Line::end(form);
    line.put_word_as(form, b" ", b"name", Some(refusal.rule.name()));
    line.put_number(form, b"rule", refusal.rule.number());
    line.put_number(form, b"offset", refusal.offset);
    line.put_number_as(form, b" ", b"file", refusal.file);
    line.put_kind(form, b"left out");
    line
}

// Writes the line of a file, if it is refused.
fn put_left_out_if<W: Sink>(
    writer: &mut W,
    form: Form,
    refusal: &Option<Refusal>,
) -> Result<(), Fault>
    ensures text { IsTrue (W.tells_held writer.old)
        → Puts (W.held writer.old) result (W.held writer.new) (left_out_if form refusal.now) }
    ensures writer { WriterKeeps (writer_of W.Sink writer.old) (is_err result) (writer_of W.Sink writer.new) }
    ensures fault { IsOkUnless result Fault.Write }
{
    match refusal {
        Some(refusal) => put_all(writer, left_out_line(form, refusal).as_slice()),
        None => put_all(writer, b""),
    }
}

/// Writes a line for each refusal, in a form: `left out 24 offset 404865 rule 3 cut`, of the file with that number, or
/// `{"type":"left out","file":24,"offset":404865,"rule":3,"name":"cut"}` (RFC 8259). Returns `Write`, and no other
/// fault, if the writer fails: a prefix of the lines is written then.
pub fn put_left_out<W: Sink>(
    writer: &mut W,
    form: Form,
    refusals: &[Option<Refusal>],
) -> Result<(), Fault>
    ensures text { IsTrue (W.tells_held writer.old)
        → Puts (W.held writer.old) result (W.held writer.new) (left_out_lines form refusals.now) }
    ensures writer { WriterKeeps (writer_of W.Sink writer.old) (is_err result) (writer_of W.Sink writer.new) }
    ensures fault { IsOkUnless result Fault.Write }
{
    let mut rest = refusals;
    while let Some((refusal, others)) = rest.split_first() {
        put_left_out_if(writer, form, refusal)?;
        rest = others;
    }
    Ok(())
}

/// The names of the files that are kept, by the refusals of all of them: those of the files that aren't refused.
pub fn kept_files<'a>(
    alloc: Global,
    names: &[&'a str],
    refusals: &[Option<Refusal>],
) -> Result<Vec<&'a str>, AllocError>
    requires { length names.now ≡ length refusals.now }
    ensures { IfOk result (λ kept. map (λ k. k.now) kept.items
        ≡ kept_of refusals.now (map (λ n. n.now) names.now)) }
{
    let mut kept = Vec::new(alloc);
    for place in 0..names.len() {
        if refusals[place].is_none() {
            kept.push(names[place])?;
        }
    }
    Ok(kept)
}

/// Whether any file is refused.
pub fn is_any_refused(refusals: &[Option<Refusal>]) -> bool
    ensures { result ≡ is_any_refused refusals.now }
{
    refusals.iter().any(|refusal| refusal.is_some())
}

/// The number on the command line, from 1, of the file that has the number `nth` among those that are kept, by the
/// refusals of all files; 0 if fewer are kept.
pub fn kept_number(refusals: &[Option<Refusal>], nth: u32) -> u32
    requires { length refusals.now ≤ 4294967294 }
    ensures { result ≡ kept_number 1 refusals.now nth }
{
    let mut number = 1u32;
    let mut left = nth;
    let mut rest = refusals;
    while let Some((refusal, others)) = rest.split_first() {
        if refusal.is_none() {
            if left <= 1 {
                return number;
            }
            left -= 1;
        }
        number += 1;
        rest = others;
    }
    0
}
