//! The lines of the files.
ghost use Rattle.std.specs.Prelude.{◌≡◌, option_map};
ghost use Rattle.cap_print.specs.Facts.{line_in};
ghost use Rattle.cap_print.specs.Lines.{text_in};
ghost use Rattle.cap_bytes.specs.Formats.{format_name};
ghost use Rattle.cap_talks.specs.counts.FileLines.{counts_facts, file_facts, files_facts};

use crate::counts::counts::Counts;
use cap_print::{Form, Line};
use cap_source::{Ending, Format};

/// The line that says how many files there are: in text `files K`.
pub fn files_line(form: Form, count: u32) -> Line
    ensures { text_in result ≡ line_in form (files_facts count) }
{
    let mut line = Line::end(form);
    line.put_number_as(form, b" ", b"files", count);
    line.put_kind(form, b"files");
    line
}

// The name of a format, if it is known.
fn name_of(format: Option<Format>) -> Option<&'static str>
    ensures { option_map (λ n. n.now) result ≡ option_map format_name format }
{
    format.map(|format| format.name())
}

// The line of the file of that number, with its format, its skipped blocks and its end.
fn line_of(
    form: Form,
    file: u32,
    format: Option<Format>,
    counts: &Counts,
    skipped: u64,
    was_cut: bool,
) -> Line
    ensures { text_in result ≡ line_in form (counts_facts file format counts.now skipped was_cut) }
{
    let mut line = Line::end(form);
    line.put_flag(form, b"cut", was_cut);
    line.put_time(form, b"last", counts.last);
    line.put_time(form, b"first", counts.first);
    line.put_number(form, b"skipped", skipped);
    line.put_number(form, b"truncated", counts.truncated);
    line.put_number(form, b"bytes", counts.bytes);
    line.put_number(form, b"packets", counts.packets);
    line.put_word_as(form, b" ", b"format", name_of(format));
    line.put_number_as(form, b" ", b"file", file);
    line.put_kind(form, b"file");
    line
}

/// The line of the file of that number. In text it is
/// `file I FORMAT packets P bytes B truncated Q skipped S first T last T`, with ` cut` after it if a rest
/// of the file was dropped. Before the file has ended, the format and the skipped blocks are those of the last packet
/// that was taken.
pub fn file_line(form: Form, file: u32, counts: &Counts, ending: Option<Ending>) -> Line
    ensures { text_in result ≡ line_in form (file_facts file counts.now ending) }
{
    match ending {
        None => line_of(form, file, counts.format, counts, counts.skipped, false),
        Some(ending) => line_of(
            form,
            file,
            Some(ending.format),
            counts,
            ending.skipped,
            ending.cut.is_some(),
        ),
    }
}
