//! The lines that tell which rests of files were cut, and dropped.
ghost use Rattle.std.specs.Prelude.{◌≡◌, ◌++◌, ◌+◌, ◌≤◌, IsOkUnless, IsTrue, codes, is_err, length, map};
ghost use Rattle.cap_bytes.specs.Device.{Puts, WriterKeeps, writer_of};
ghost use Rattle.cap_print.specs.Lines.{text_in};
ghost use Rattle.cap_tool.specs.Cuts.{cut_fields, cut_line, cut_line_if, cut_lines, cut_text};
ghost use Rattle.cap_tool.specs.Cuts.{dropped_word};

use crate::objects::{path_of, put_object};
use cap_bytes::{CutRest, Fault, Sink, put_all};
use cap_print::{Form, Line};

// What stands after the number of bytes that were dropped.
fn dropped_word(size: u64) -> &'static [u8]
    ensures { result.now ≡ dropped_word size }
{
    if size == 1 {
        b" byte dropped\n"
    } else {
        b" bytes dropped\n"
    }
}

// `cut: file 1 offset 404865, 1057 bytes dropped`
fn cut_text(file: u32, rest: CutRest) -> Line
    ensures { text_in result ≡ cut_text file rest }
{
    let mut line = Line::new();
    line.prepend_text(dropped_word(rest.size));
    line.prepend_field(b", ", rest.size);
    line.prepend_field(b" offset ", rest.offset);
    line.prepend_field(b"cut: file ", u64::from(file));
    line
}

// `{"type":"cut","file":1,"offset":404865,"bytes":1057`
fn cut_fields(file: u32, rest: CutRest) -> Line
    ensures { text_in result ≡ codes "{" ++ cut_fields file rest }
{
    let mut line = Line::new();
    line.prepend_field(b",\"bytes\":", rest.size);
    line.prepend_field(b",\"offset\":", rest.offset);
    line.prepend_field(b"{\"type\":\"cut\",\"file\":", u64::from(file));
    line
}

/// Writes the line of a rest of the file of that number in a form, as `put_cuts` does.
pub(crate) fn put_rest<W: Sink>(
    file: u32,
    rest: CutRest,
    form: Form,
    paths: &[&str],
    writer: &mut W,
) -> Result<(), Fault>
    ensures text { IsTrue (W.tells_held writer.old) → Puts (W.held writer.old) result (W.held writer.new)
        (cut_line form (map (λ p. p.now) paths.now) file rest) }
    ensures writer { WriterKeeps (writer_of W.Sink writer.old) (is_err result) (writer_of W.Sink writer.new) }
    ensures fault { IsOkUnless result Fault.Write }
{
    match form {
        Form::Text(_) => put_all(writer, cut_text(file, rest).as_slice()),
        Form::Json(_) => {
            let fields = cut_fields(file, rest);
            put_object(fields.as_slice(), path_of(paths, file), writer)
        }
    }
}

// The same, if there is one.
fn put_cut<W: Sink>(
    file: u32,
    cut: Option<CutRest>,
    form: Form,
    paths: &[&str],
    writer: &mut W,
) -> Result<(), Fault>
    ensures text { IsTrue (W.tells_held writer.old) → Puts (W.held writer.old) result (W.held writer.new)
        (cut_line_if form (map (λ p. p.now) paths.now) file cut) }
    ensures writer { WriterKeeps (writer_of W.Sink writer.old) (is_err result) (writer_of W.Sink writer.new) }
    ensures fault { IsOkUnless result Fault.Write }
{
    match cut {
        Some(rest) => put_rest(file, rest, form, paths, writer),
        None => put_all(writer, b""),
    }
}

/// Writes a line in a form for each rest that was cut and dropped, of the files from number 1 on, by their places: in
/// text `cut: file 1 offset 404865, 1057 bytes dropped`, in JSON an object (RFC 8259)
/// `{"type":"cut","file":1,"offset":404865,"bytes":1057,"path":"a.pcap"}`, with the word that named the file, of
/// `paths` by its number. It returns `Write`, and no other fault, if the writer fails: a prefix is written then.
pub fn put_cuts<W: Sink>(
    cuts: &[Option<CutRest>; 32],
    form: Form,
    paths: &[&str],
    writer: &mut W,
) -> Result<(), Fault>
    ensures text { IsTrue (W.tells_held writer.old) → Puts (W.held writer.old) result (W.held writer.new)
        (cut_lines form (map (λ p. p.now) paths.now) 1 cuts.now) }
    ensures writer { WriterKeeps (writer_of W.Sink writer.old) (is_err result) (writer_of W.Sink writer.new) }
    ensures fault { IsOkUnless result Fault.Write }
{
    let mut file = 1u32;
    let mut rest = cuts.as_slice();
    while let Some((cut, others)) = rest.split_first() {
        put_cut(file, *cut, form, paths, writer)?;
        rest = others;
        file += 1;
    }
    Ok(())
}
