//! The line of a file that was checked.
ghost use Rattle.std.specs.Prelude.{◌≡◌, ◌≤◌, ◌+◌, ◌++◌, [], is_err, option_map, IsOkUnless, IsTrue};
ghost use Rattle.cap_bytes.specs.Device.{Puts, WriterKeeps, writer_of};
ghost use Rattle.cap_digest.specs.DigestText.{digest_fact, whole_fields};
ghost use Rattle.cap_print.specs.Facts.{end_in, fact_in, fields_in};
ghost use Rattle.cap_print.specs.Lines.{room_in, text_in};
ghost use Rattle.cap_check.specs.CheckText.{check_line_in, digest_fields, end_fields, end_format_name, end_interfaces};
ghost use Rattle.cap_check.specs.CheckText.{end_skipped, known_end};
ghost use Rattle.cap_check.specs.inner.Parts.{counts_in, held_in, odd_in, unnamed_in};

use crate::checked::{Check, CheckEnd, CheckLine};
use cap_bytes::{Fault, Sink, put_all};
use cap_print::{Form, Line};
use cap_source::FileEnd;

// What a file has up to its end, to its refusal or to a read that failed, unless that is at its first byte.
fn known_end(end: &CheckEnd) -> Option<FileEnd>
    ensures { result ≡ known_end end.now }
{
    match end {
        CheckEnd::Whole(end) => Some(*end),
        CheckEnd::Refusing(refusal, end) => {
            if refusal.offset == 0 {
                None
            } else {
                Some(*end)
            }
        }
        CheckEnd::Reading(_, end) => *end,
        CheckEnd::Opening => None,
    }
}

// The name of its format.
fn format_name_of(end: &CheckEnd) -> Option<&'static str>
    ensures { option_map (λ n. n.now) result ≡ option_map end_format_name (known_end end.now) }
{
    known_end(end).map(|end| end.ending.format.name())
}

// How many of its blocks are skipped.
fn skipped_of(end: &CheckEnd) -> u64
    ensures { result ≡ end_skipped (known_end end.now) }
{
    known_end(end).map_or(0, |end| end.ending.skipped)
}

// How many interfaces it has.
fn interfaces_of(end: &CheckEnd) -> u64
    ensures { result ≡ end_interfaces (known_end end.now) }
{
    known_end(end).map_or(0, |end| end.interfaces)
}

// The last fields of a line: ` whole`, ` whole cut`, ` refused offset O rule R NAME`, ` read offset O` or ` open`.
fn end_of(form: Form, end: &CheckEnd) -> Line
    ensures text { text_in result ≡ fields_in form (end_fields end.now) [] }
    ensures room { 380 ≤ room_in result }
{
    let mut line = Line::new();
    match end {
        CheckEnd::Whole(end) => {
            line.put_flag(form, b"cut", end.ending.cut.is_some());
            line.put_flag(form, b"whole", true);
        }
        CheckEnd::Refusing(refusal, _) => {
            line.put_group_end(form);
            line.put_word_as(form, b" ", b"name", Some(refusal.rule.name()));
            line.put_number(form, b"rule", refusal.rule.number());
            line.put_number_as(form, b" refused offset ", b"offset", refusal.offset);
            line.put_group(form, b"refused");
        }
        CheckEnd::Reading(offset, _) => {
            line.put_group_end(form);
            line.put_number_as(form, b" read offset ", b"offset", *offset);
            line.put_group(form, b"read");
        }
        CheckEnd::Opening => line.put_flag(form, b"open", true),
    }
    line
}

// What a file has, the first part of its line: ` N FORMAT packets P bytes B first T last T` behind `check`.
fn held_part(form: Form, file: u32, check: &Check) -> Line
    ensures { text_in result ≡ held_in form file check.now }
{
    let mut line = Line::new();
    line.put_time(form, b"last", check.counts.last);
    line.put_time(form, b"first", check.counts.first);
    line.put_number(form, b"bytes", check.counts.bytes);
    line.put_number(form, b"packets", check.counts.packets);
    line.put_word_as(form, b" ", b"format", format_name_of(&check.end));
    line.put_number_as(form, b" ", b"file", file);
    line.put_kind(form, b"check");
    line
}

// Puts a digest, ` sha256 HEX`, or ` sha256 -` if there is none.
fn put_digest(line: &mut Line, form: Form, digest: &Option<[u8; 32]>)
    requires { 80 ≤ room_in line.old }
    ensures text { text_in line.new ≡ fact_in form (digest_fact digest.now) (text_in line.old) }
    ensures room { room_in line.old ≤ room_in line.new + 80 }
{
    match digest {
        Some(digest) => line.put_hex(form, b"sha256", digest),
        None => line.put_word_as(form, b" sha256 ", b"sha256", None),
    }
}

// Puts the digest of a file into a line of what is counted, if that has it.
fn put_digest_in(line: &mut Line, which: CheckLine, form: Form, check: &Check)
    requires { 80 ≤ room_in line.old }
    ensures text { text_in line.new ≡ fields_in form (digest_fields which check.now) (text_in line.old) }
    ensures room { room_in line.old ≤ room_in line.new + 80 }
{
    match which {
        CheckLine::CountsAndDigest => put_digest(line, form, &check.digest),
        CheckLine::Counts | CheckLine::Digest => {}
    }
}

// What is odd about it, and how it ends, the second part of its line.
fn odd_part(which: CheckLine, form: Form, check: &Check) -> Line
    ensures { text_in result ≡ odd_in which form check.now }
{
    let mut line = end_of(form, &check.end);
    put_digest_in(&mut line, which, form, check);
    line.put_number(form, b"interfaces", interfaces_of(&check.end));
    line.put_number(form, b"skipped", skipped_of(&check.end));
    line.put_number(form, b"truncated", check.counts.truncated);
    line.put_number(form, b"untimed", check.counts.untimed);
    line.put_number(form, b"backward", check.counts.backward);
    line
}

// Writes a line of what is counted, without its end.
fn put_counts<W: Sink>(
    writer: &mut W,
    which: CheckLine,
    form: Form,
    file: u32,
    check: &Check,
) -> Result<(), Fault>
    ensures text { IsTrue (W.tells_held writer.old)
        → Puts (W.held writer.old) result (W.held writer.new) (counts_in which form file check.now) }
    ensures writer { WriterKeeps (writer_of W.Sink writer.old) (is_err result) (writer_of W.Sink writer.new) }
    ensures fault { IsOkUnless result Fault.Write }
{
    let held = held_part(form, file, check);
    let odd = odd_part(which, form, check);
    put_all(writer, held.as_slice())?;
    put_all(writer, odd.as_slice())
}

// What a whole file has: ` sha256 HEX packets P`, and ` cut` if a rest of it was dropped.
fn whole_part(form: Form, digest: &Option<[u8; 32]>, packets: u64, was_cut: bool) -> Line
    ensures text { text_in result ≡ fields_in form (whole_fields digest.now packets was_cut) [] }
    ensures room { 380 ≤ room_in result }
{
    let mut line = Line::new();
    line.put_flag(form, b"cut", was_cut);
    line.put_number(form, b"packets", packets);
    put_digest(&mut line, form, digest);
    line
}

// The line of a digest, without its end: `digest N` before what a whole file has, or before how it ends.
fn digest_part(form: Form, file: u32, check: &Check) -> Line
    ensures { text_in result ≡ unnamed_in CheckLine.Digest form file check.now }
{
    let mut line = match &check.end {
        CheckEnd::Whole(end) => {
            whole_part(
                form,
                &check.digest,
                check.counts.packets,
                end.ending.cut.is_some(),
            )
        }
        CheckEnd::Refusing(_, _) | CheckEnd::Reading(_, _) | CheckEnd::Opening => end_of(
            form, &check.end,
        ),
    };
    line.put_number_as(form, b" ", b"file", file);
    line.put_kind(form, b"digest");
    line
}

// Writes the line of a digest, without its end.
fn put_digest_part<W: Sink>(
    writer: &mut W,
    form: Form,
    file: u32,
    check: &Check,
) -> Result<(), Fault>
    ensures text { IsTrue (W.tells_held writer.old)
        → Puts (W.held writer.old) result (W.held writer.new) (unnamed_in CheckLine.Digest form file check.now) }
    ensures writer { WriterKeeps (writer_of W.Sink writer.old) (is_err result) (writer_of W.Sink writer.new) }
    ensures fault { IsOkUnless result Fault.Write }
{
    let part = digest_part(form, file, check);
    put_all(writer, part.as_slice())
}

// Writes the line of a file without its end.
fn put_fields<W: Sink>(
    writer: &mut W,
    which: CheckLine,
    form: Form,
    file: u32,
    check: &Check,
) -> Result<(), Fault>
    ensures text { IsTrue (W.tells_held writer.old)
        → Puts (W.held writer.old) result (W.held writer.new) (unnamed_in which form file check.now) }
    ensures writer { WriterKeeps (writer_of W.Sink writer.old) (is_err result) (writer_of W.Sink writer.new) }
    ensures fault { IsOkUnless result Fault.Write }
{
    match which {
        CheckLine::Digest => put_digest_part(writer, form, file, check),
        CheckLine::Counts | CheckLine::CountsAndDigest => {
            put_counts(writer, which, form, file, check)
        }
    }
}

// Writes the field of a name, and the end of a line.
fn put_line_end<W: Sink>(writer: &mut W, form: Form, name: &[u8]) -> Result<(), Fault>
    ensures text { IsTrue (W.tells_held writer.old)
        → Puts (W.held writer.old) result (W.held writer.new) (name.now ++ end_in form) }
    ensures writer { WriterKeeps (writer_of W.Sink writer.old) (is_err result) (writer_of W.Sink writer.new) }
    ensures fault { IsOkUnless result Fault.Write }
{
    let end = Line::end(form);
    put_all(writer, name)?;
    put_all(writer, end.as_slice())
}

/// Writes one line of a file of that number that was checked, in a form. In text `CheckLine::Counts` is
/// `check N FORMAT packets P bytes B first T last T backward K untimed U truncated Q skipped S interfaces I`, and then
/// `whole`, with ` cut` after it if a rest of the file was dropped, `refused offset O rule R NAME`, `read offset O` or
/// `open`. Skipped blocks and interfaces are those that the file has up to there. If it is refused, or a read fails, in
/// its header or in its first block, none are, and the format is `-`; so are the times if no packet has one.
/// `CheckLine::CountsAndDigest` has ` sha256 HEX` behind the interfaces, 64 digits, or `-` if the check has no digest.
/// `CheckLine::Digest` is `digest N sha256 HEX packets P`, with ` cut` if a rest was dropped; or, if the file isn't
/// whole, `digest N` and then `refused offset O rule R NAME`, `read offset O` or `open`. The last field of the line is
/// `name`, as it is: what names the file in that form, or nothing. Returns `Fault::Write`, and no other fault, if the
/// writer failed: a prefix of the line is written then.
pub fn put_check_line<W: Sink>(
    writer: &mut W,
    which: CheckLine,
    form: Form,
    file: u32,
    name: &[u8],
    check: &Check,
) -> Result<(), Fault>
    ensures text { IsTrue (W.tells_held writer.old)
        → Puts (W.held writer.old) result (W.held writer.new) (check_line_in which form file name.now check.now) }
    ensures writer { WriterKeeps (writer_of W.Sink writer.old) (is_err result) (writer_of W.Sink writer.new) }
    ensures fault { IsOkUnless result Fault.Write }
{
    put_fields(writer, which, form, file, check)?;
    put_line_end(writer, form, name)
}
