//! A refusal or a fault as a JSON object (RFC 8259), with the word that named its file.
ghost use Rattle.std.specs.Prelude.{◌≡◌, ◌++◌, chars, codes, flat_map, is_err, map, option_map};
ghost use Rattle.std.specs.Prelude.{IsTrue, IsFalse, IsOkUnless};
ghost use Rattle.cap_bytes.specs.Device.{Puts, WriterKeeps, writer_of};
ghost use Rattle.cap_bytes.specs.Printing.{PrintsFront};
ghost use Rattle.cap_print.specs.Lines.{text_in};
ghost use Rattle.cap_tool.specs.Objects.{escaped_character, open_fields, outcome_json, path_json, path_of};
ghost use Rattle.cap_tool.specs.Objects.{list_line_json, read_fields, refused_fields, told_in, told_json};
ghost use Rattle.cap_tool.specs.Outcomes.{HelpEnds, is_help};

use crate::outcomes::{Outcome, outcome_line, tell};
use cap_bytes::{Fault, Refusal, Sink, put_all};
use cap_line::{LineFault, is_hidden};
use cap_print::{Form, Line, prepend_escaped};

// `{"type":"refused","file":2,"offset":24,"rule":6,"name":"block-trailer"`
fn refused_fields(refusal: &Refusal) -> Line
    ensures { text_in result ≡ codes "{" ++ refused_fields refusal.now }
{
    let mut line = Line::new();
    line.prepend_text(b"\"");
    line.prepend_text(refusal.rule.name().as_bytes());
    line.prepend_text(b",\"name\":\"");
    line.prepend_field(b",\"rule\":", u64::from(refusal.rule.number()));
    line.prepend_field(b",\"offset\":", refusal.offset);
    line.prepend_field(b"{\"type\":\"refused\",\"file\":", u64::from(refusal.file));
    line
}

// `{"type":"fault","fault":"read","file":1,"offset":24`
fn read_fields(file: u32, offset: u64) -> Line
    ensures { text_in result ≡ codes "{" ++ read_fields file offset }
{
    let mut line = Line::new();
    line.prepend_field(b",\"offset\":", offset);
    line.prepend_field(
        b"{\"type\":\"fault\",\"fault\":\"read\",\"file\":",
        u64::from(file),
    );
    line
}

// `{"type":"fault","fault":"open","file":1`
fn open_fields(file: u32) -> Line
    ensures { text_in result ≡ codes "{" ++ open_fields file }
{
    let mut line = Line::new();
    line.prepend_field(
        b"{\"type\":\"fault\",\"fault\":\"open\",\"file\":",
        u64::from(file),
    );
    line
}

/// The word that named the file of that number, from 1, if there is one.
pub(crate) fn path_of<'a>(paths: &[&'a str], file: u32) -> Option<&'a str>
    ensures { option_map (λ p. p.now) result ≡ path_of (map (λ p. p.now) paths.now) file }
{
    let place = file.checked_sub(1)?;
    paths.get(place as usize).copied()
}

/// A character of a word as it stands in a string.
pub(crate) fn escaped(c: char) -> Line
    ensures { text_in result ≡ escaped_character c }
{
    let mut line = Line::new();
    if is_hidden(c) {
        let code = c as u32;
        line.prepend_hex(b"\\u", &[(code / 256) as u8, (code % 256) as u8]);
    } else {
        let mut room = [0; 4];
        prepend_escaped(&mut line, c.encode_utf8(&mut room).as_bytes());
    }
    line
}

// Writes a word as it stands in a string.
fn put_escaped<W: Sink>(text: &str, writer: &mut W) -> Result<(), Fault>
    ensures text { IsTrue (W.tells_held writer.old)
        → Puts (W.held writer.old) result (W.held writer.new) (flat_map escaped_character (chars text.now)) }
    ensures writer { WriterKeeps (writer_of W.Sink writer.old) (is_err result) (writer_of W.Sink writer.new) }
    ensures fault { IsOkUnless result Fault.Write }
{
    let mut rest = text.chars();
    while let Some(c) = rest.next() {
        put_all(writer, escaped(c).as_slice())?;
    }
    Ok(())
}

// Writes a word as it stands in a string, with the end of the string and of its object.
fn put_string_end<W: Sink>(text: &str, writer: &mut W) -> Result<(), Fault>
    ensures text { IsTrue (W.tells_held writer.old) → Puts (W.held writer.old) result (W.held writer.new)
        (flat_map escaped_character (chars text.now) ++ codes "\"}\n") }
    ensures writer { WriterKeeps (writer_of W.Sink writer.old) (is_err result) (writer_of W.Sink writer.new) }
    ensures fault { IsOkUnless result Fault.Write }
{
    put_escaped(text, writer)?;
    put_all(writer, b"\"}\n")
}

// Writes the field of a word that named a file, and the end of its object.
fn put_path<W: Sink>(text: &str, writer: &mut W) -> Result<(), Fault>
    ensures text { IsTrue (W.tells_held writer.old) → Puts (W.held writer.old) result (W.held writer.new)
        (codes ",\"path\":\"" ++ (flat_map escaped_character (chars text.now) ++ codes "\"}\n")) }
    ensures writer { WriterKeeps (writer_of W.Sink writer.old) (is_err result) (writer_of W.Sink writer.new) }
    ensures fault { IsOkUnless result Fault.Write }
{
    put_all(writer, b",\"path\":\"")?;
    put_string_end(text, writer)
}

// Writes the field of the word that named a file, if there is one, and the end of its object.
fn put_end<W: Sink>(path: Option<&str>, writer: &mut W) -> Result<(), Fault>
    ensures text { IsTrue (W.tells_held writer.old) → Puts (W.held writer.old) result (W.held writer.new)
        (path_json (option_map (λ p. p.now) path.entry) ++ codes "}\n") }
    ensures writer { WriterKeeps (writer_of W.Sink writer.old) (is_err result) (writer_of W.Sink writer.new) }
    ensures fault { IsOkUnless result Fault.Write }
{
    match path {
        Some(path) => put_path(path, writer),
        None => put_all(writer, b"}\n"),
    }
}

// `{"type":"fault","fault":"list","line":3}`
fn list_line_object(line_number: u64) -> Line
    ensures { text_in result ≡ list_line_json line_number }
{
    let mut line = Line::new();
    line.prepend_text(b"}\n");
    line.prepend_field(
        b"{\"type\":\"fault\",\"fault\":\"list\",\"line\":",
        line_number,
    );
    line
}

/// Writes an object: `fields` is what stands before the word that named its file.
pub(crate) fn put_object<W: Sink>(
    fields: &[u8],
    path: Option<&str>,
    writer: &mut W,
) -> Result<(), Fault>
    ensures text { IsTrue (W.tells_held writer.old) → Puts (W.held writer.old) result (W.held writer.new)
        (fields.now ++ (path_json (option_map (λ p. p.now) path.entry) ++ codes "}\n")) }
    ensures writer { WriterKeeps (writer_of W.Sink writer.old) (is_err result) (writer_of W.Sink writer.new) }
    ensures fault { IsOkUnless result Fault.Write }
{
    put_all(writer, fields)?;
    put_end(path, writer)
}

/// Writes what is printed of an outcome as a JSON object: nothing of a run that is done, one line of a refusal or a
/// fault, with the word that named its file, of `paths` by its number from 1. Of a command line that wasn't run it
/// writes what `outcome_line` does. Returns `Fault::Write`, and no other fault, if the writer failed: a prefix of the
/// text is written then.
pub fn outcome_object<W: Sink>(
    outcome: &Outcome,
    paths: &[&str],
    writer: &mut W,
) -> Result<(), Fault>
    ensures text { IsTrue (W.tells_held writer.old) → Puts (W.held writer.old) result (W.held writer.new)
        (outcome_json outcome.now (map (λ p. p.now) paths.now)) }
    ensures writer { WriterKeeps (writer_of W.Sink writer.old) (is_err result) (writer_of W.Sink writer.new) }
    ensures fault { IsOkUnless result Fault.Write }
{
    match outcome {
        Outcome::Fault(Fault::Refused(refusal)) => {
            let fields = refused_fields(refusal);
            put_object(fields.as_slice(), path_of(paths, refusal.file), writer)
        }
        Outcome::Fault(Fault::Read { file, offset }) => {
            let fields = read_fields(*file, *offset);
            put_object(fields.as_slice(), path_of(paths, *file), writer)
        }
        Outcome::Open(file) => {
            let fields = open_fields(*file);
            put_object(fields.as_slice(), path_of(paths, *file), writer)
        }
        Outcome::Fault(Fault::Write) => {
            put_all(writer, b"{\"type\":\"fault\",\"fault\":\"write\"}\n")
        }
        Outcome::Fault(Fault::Memory) => {
            put_all(writer, b"{\"type\":\"fault\",\"fault\":\"memory\"}\n")
        }
        Outcome::List => put_all(writer, b"{\"type\":\"fault\",\"fault\":\"list\"}\n"),
        Outcome::ListLine(line) => put_all(writer, list_line_object(*line).as_slice()),
        Outcome::Create => put_all(writer, b"{\"type\":\"fault\",\"fault\":\"create\"}\n"),
        Outcome::Done | Outcome::Differ | Outcome::NotWhole | Outcome::Line(_) => outcome_line(
            outcome, writer,
        ),
    }
}

// Writes what is printed of an outcome as an object, if something else than the usage is said of words that give no
// job.
fn put_told_object<W: Sink>(
    outcome: &Outcome,
    said: &[u8],
    paths: &[&str],
    writer: &mut W,
) -> Result<(), Fault>
    ensures text { IsTrue (W.tells_held writer.old) → Puts (W.held writer.old) result (W.held writer.new)
        (told_json said.now outcome.now (map (λ p. p.now) paths.now)) }
    ensures writer { WriterKeeps (writer_of W.Sink writer.old) (is_err result) (writer_of W.Sink writer.new) }
{
    match outcome {
        Outcome::Line(LineFault::Help) | Outcome::Line(LineFault::Line) => put_all(writer, said),
        _ => outcome_object(outcome, paths, writer),
    }
}

// Tells an outcome as `tell` does, but a refusal or a fault as an object.
fn tell_object<O: Sink, E: Sink>(
    outcome: Outcome,
    said: &[u8],
    paths: &[&str],
    output: &mut O,
    faults: &mut E,
) -> Outcome
    ensures same { IsFalse (is_help outcome) → result ≡ outcome }
    ensures silent { IsFalse (is_help outcome) → output.new ≡ output.old }
    ensures help { IsTrue (is_help outcome) → IsTrue (O.tells_held output.old)
        → HelpEnds said.now (O.held output.old) (O.held output.new) result }
    ensures ends { IsTrue (is_help outcome) → IsFalse (O.can_fail output.old) → result ≡ outcome }
    ensures told { IsTrue (E.tells_held faults.old) → IsFalse (is_help result)
        → PrintsFront (told_json said.now result (map (λ p. p.now) paths.now)) (E.held faults.old)
        (E.held faults.new) }
    ensures whole { IsTrue (E.tells_held faults.old) → IsFalse (is_help result)
        → IsFalse (E.can_fail faults.old)
        → E.held faults.new ≡ E.held faults.old ++ told_json said.now result (map (λ p. p.now) paths.now) }
{
    let ending = match outcome {
        Outcome::Line(LineFault::Help) => match put_told_object(&outcome, said, paths, output) {
            Ok(()) => return outcome,
            Err(_) => Outcome::Fault(Fault::Write),
        },
        _ => outcome,
    };
    // if this fails, no stream is left to report it on
    let _ = put_told_object(&ending, said, paths, faults);
    ending
}

/// Tells an outcome in a form: as `tell` does, but in JSON a refusal or a fault is the object that `outcome_object`
/// writes, with the word that named its file, of `paths` by its number from 1.
pub fn tell_in<O: Sink, E: Sink>(
    outcome: Outcome,
    said: &[u8],
    form: Form,
    paths: &[&str],
    output: &mut O,
    faults: &mut E,
) -> Outcome
    ensures same { IsFalse (is_help outcome) → result ≡ outcome }
    ensures silent { IsFalse (is_help outcome) → output.new ≡ output.old }
    ensures help { IsTrue (is_help outcome) → IsTrue (O.tells_held output.old)
        → HelpEnds said.now (O.held output.old) (O.held output.new) result }
    ensures ends { IsTrue (is_help outcome) → IsFalse (O.can_fail output.old) → result ≡ outcome }
    ensures told { IsTrue (E.tells_held faults.old) → IsFalse (is_help result)
        → PrintsFront (told_in form said.now result (map (λ p. p.now) paths.now)) (E.held faults.old)
        (E.held faults.new) }
    ensures whole { IsTrue (E.tells_held faults.old) → IsFalse (is_help result)
        → IsFalse (E.can_fail faults.old)
        → E.held faults.new ≡ E.held faults.old ++ told_in form said.now result (map (λ p. p.now) paths.now) }
{
    match form {
        Form::Text(_) => tell(outcome, said, output, faults),
        Form::Json(_) => tell_object(outcome, said, paths, output, faults),
    }
}
