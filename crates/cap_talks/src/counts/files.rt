//! The lines of files that were counted.
ghost use Rattle.std.specs.Prelude.{◌≡◌, ◌≤◌, ◌++◌, IsTrue, IsOkUnless, None, length};
ghost use Rattle.cap_bytes.specs.Device.{WriterKeeps, writer_of};
ghost use Rattle.cap_bytes.specs.Printing.{Prints, is_write};
ghost use Rattle.cap_print.specs.Facts.{line_in};
ghost use Rattle.cap_talks.specs.counts.FileLines.{counted_cuts, counted_texts_in, cut_of, files_facts};

use crate::counts::counts::Counts;
use crate::counts::file_lines::{file_line, files_line};
use cap_bytes::{CutRest, Fault, Sink, put_all};
use cap_print::Form;
use cap_source::Ending;

/// What is counted of a file, and how it has ended, if that is known.
#[derive(Clone, Copy, Default)]
pub struct Counted {
    /// What is counted of its packets, as far as they were taken.
    pub counts: Counts,
    /// How it has ended; `None` if that isn't told, as of a file that is still being read.
    pub ending: Option<Ending>,
}

// Writes the lines of files that have the numbers from 1 on, in a form.
fn put_each<W: Sink>(writer: &mut W, form: Form, counted: &[Counted]) -> Result<(), Fault>
    requires most { length counted.now ≤ 32 }
    ensures text { IsTrue (W.tells_held writer.old)
        → Prints (counted_texts_in form 1 counted.now) None (W.held writer.old) result (W.held writer.new) }
    ensures writer { WriterKeeps (writer_of W.Sink writer.old) (is_write result) (writer_of W.Sink writer.new) }
    ensures fault { IsOkUnless result Fault.Write }
{
    for (place, each) in counted.iter().enumerate() {
        let line = file_line(form, place as u32 + 1, &each.counts, each.ending);
        put_all(writer, line.as_slice())?;
    }
    Ok(())
}

// The rest of a file that was cut, and dropped, if that is known and there is one.
fn cut_of(ending: Option<Ending>) -> Option<CutRest>
    ensures { result ≡ cut_of ending }
{
    ending?.cut
}

/// The rests that were cut of files that were counted, by their places: those that no file has are empty.
pub(crate) fn cuts_of(counted: &[Counted]) -> [Option<CutRest>; 32]
    requires most { length counted.now ≤ 32 }
    ensures { result ≡ counted_cuts counted.now }
{
    let mut cuts: [Option<CutRest>; 32] = [None; 32];
    for (place, each) in counted.iter().enumerate() {
        cuts[place] = cut_of(each.ending);
    }
    cuts
}

/// Writes a line that says how many files there are, at most 32, and the lines of these, which have the numbers from 1
/// on, in a form. Returns `Fault::Write`, and no other fault, if the writer failed: a prefix of the lines is written
/// then.
pub fn put_files<W: Sink>(writer: &mut W, form: Form, counted: &[Counted]) -> Result<(), Fault>
    requires most { length counted.now ≤ 32 }
    ensures text { IsTrue (W.tells_held writer.old)
        → Prints (line_in form (files_facts (length counted.now)) ++ counted_texts_in form 1 counted.now) None
        (W.held writer.old) result (W.held writer.new) }
    ensures writer { WriterKeeps (writer_of W.Sink writer.old) (is_write result) (writer_of W.Sink writer.new) }
    ensures fault { IsOkUnless result Fault.Write }
{
    let line = files_line(form, counted.len() as u32);
    let text = line.as_slice();
    put_all(writer, text)?;
    put_each(writer, form, counted)
}
