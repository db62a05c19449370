//! The lines of the files, each read by itself.
ghost use Rattle.std.specs.Prelude.{◌≡◌, ◌≤◌, ◌^◌, false, None, IsTrue, IfOk, length, map, vec_len};
ghost use Rattle.std.specs.List.{list_all};
ghost use Rattle.cap_bytes.specs.Device.{WriterKeeps, writer_of};
ghost use Rattle.cap_bytes.specs.Printing.{is_write};
ghost use Rattle.cap_source.specs.Feed.{FeedKeeps};
ghost use Rattle.cap_source.specs.inner.Walk.{Walks};
ghost use Rattle.cap_source.specs.inner.Growing.{IfMemory};
ghost use Rattle.cap_source.specs.ReadFaults.{FailsAs, FailsOf};
ghost use Rattle.cap_merge.specs.Files.{endings_of_files};
ghost use Rattle.cap_talks.specs.talks.CutRests.{rests_by_place};
ghost use Rattle.cap_talks.specs.talks.InfoText.{info_text, info_text_in, first_refusal};
ghost use Rattle.cap_talks.specs.talks.Reading.{CountsAll, CountsFile, CountsFiles, FailsFirst};
ghost use Rattle.cap_talks.specs.talks.Telling.{Tells};

use crate::counts::{Counted, Counts, cuts_of, put_files};
use cap_bytes::{CutRest, Fault, Sink, Source, Tail};
use cap_print::{Form, TimeForm};
use cap_source::{Capture, Head, PacketFeed};
use std::alloc::Global;

// Takes all packets that a feed still gives.
fn count_packets<F: PacketFeed>(feed: &mut F) -> Result<Counts, Fault>
    requires { (F.feed feed.old).left ≤ 2 ^ 40 }
    ensures counts { IsTrue (F.feed feed.old).told → CountsAll (F.feed feed.old) result (F.feed feed.new) }
    ensures walks { Walks (F.feed feed.old) result (F.feed feed.new) }
    ensures memory { IfMemory result ((F.feed feed.new).known ≡ None) }
    ensures keeps { FeedKeeps (F.feed feed.old) (F.feed feed.new) }
    ensures write { is_write result ≡ false }
{
    let mut counts = Counts::new();
    while feed.peek()? {
        let meta = feed.packet();
        // A length that is read is known to be below 2^32, so the sum of them all stays small.
        let _length = meta.original;
        counts.take(meta.time(), meta);
        feed.pass();
    }
    Ok(counts)
}

// Reads the file of that number whole.
fn count_file<R: Source>(alloc: Global, source: R, file: u32, tail: Tail) -> Result<Counted, Fault>
    ensures counts { IsTrue (R.tells_coming source) → CountsFile tail file (R.coming source) result }
    ensures read { FailsAs file (R.can_fail source) result }
    ensures write { is_write result ≡ false }
{
    let mut capture = Capture::new(alloc, source, file, tail);
    let counts = count_packets(&mut capture)?;
    let ending = capture.ending(file);
    Ok(Counted {
        counts,
        ending: Some(ending),
    })
}

// Reads files whole, one after another, which have the numbers from 1 on.
fn count_files<R: Source>(alloc: Global, sources: Vec<R>, tail: Tail) -> Result<Vec<Counted>, Fault>
    requires most { vec_len sources ≤ 32 }
    ensures counts { IsTrue (list_all R.tells_coming sources.items)
        → CountsFiles tail (map R.coming sources.items) result }
    ensures len { IfOk result (λ counted. length counted.items ≡ length sources.items) }
    ensures read { FailsOf (map R.can_fail sources.items) result }
    ensures write { is_write result ≡ false }
{
    let mut counted = Vec::new(alloc);
    let mut file = 1u32;
    for source in sources {
        let each = count_file(alloc, source, file, tail)?;
        counted.push(each)?;
        file += 1;
    }
    Ok(counted)
}

/// Writes a line that says how many files there are, and a line for each of 1 to 32 capture files, each of either
/// format: `file I FORMAT packets P bytes B truncated Q skipped S first T last T`. Each file is read by itself, in
/// order. If some are refused, the refusal of the first is returned and nothing is written; nor is anything if a read
/// fails or a growth is refused. After `Write` a prefix of the lines is written.
pub fn file_lines<R: Source, W: Sink>(
    alloc: Global,
    sources: Vec<R>,
    tail: Tail,
    writer: &mut W,
) -> Result<(), Fault>
    requires some { 1 ≤ vec_len sources }
    requires most { vec_len sources ≤ 32 }
    ensures text { IsTrue (list_all R.tells_coming sources.items) → IsTrue (W.tells_held writer.old)
        → Tells (info_text tail (map R.coming sources.items)) (first_refusal tail 1 (map R.coming sources.items))
        (W.held writer.old) result (W.held writer.new) }
    ensures writer { WriterKeeps (writer_of W.Sink writer.old) (is_write result) (writer_of W.Sink writer.new) }
    ensures read { FailsOf (map R.can_fail sources.items) result }
    ensures first { IsTrue (list_all R.tells_coming sources.items)
        → FailsFirst tail (map R.coming sources.items) result }
{
    file_lines_in(alloc, sources, tail, Form::Text(TimeForm::Exact), writer)
}

/// Writes the lines of 1 to 32 capture files in a form: in text those of `file_lines`, in JSON an object on each line
/// (RFC 8259), `{"type":"files","files":K}` and for each file, on one line,
///
/// ```text
/// {"type":"file","file":I,"format":"pcap","packets":P,"bytes":B,"truncated":Q,"skipped":S,
///  "first":[SEC,NUM,DEN],"last":[SEC,NUM,DEN],"cut":false}
/// ```
///
/// with `null` in place of a time if no packet has one. The faults are those of `file_lines`: if some files are
/// refused, the refusal of the first one. Nothing is written then, nor if a read fails or a growth is refused. After
/// `Write` a prefix of the lines is written.
pub fn file_lines_in<R: Source, W: Sink>(
    alloc: Global,
    sources: Vec<R>,
    tail: Tail,
    form: Form,
    writer: &mut W,
) -> Result<(), Fault>
    requires some { 1 ≤ vec_len sources }
    requires most { vec_len sources ≤ 32 }
    ensures text { IsTrue (list_all R.tells_coming sources.items) → IsTrue (W.tells_held writer.old)
        → Tells (info_text_in form tail (map R.coming sources.items))
        (first_refusal tail 1 (map R.coming sources.items)) (W.held writer.old) result (W.held writer.new) }
    ensures writer { WriterKeeps (writer_of W.Sink writer.old) (is_write result) (writer_of W.Sink writer.new) }
    ensures read { FailsOf (map R.can_fail sources.items) result }
    ensures first { IsTrue (list_all R.tells_coming sources.items)
        → FailsFirst tail (map R.coming sources.items) result }
{
    file_lines_and_cuts(alloc, sources, tail, form, writer).and(Ok(()))
}

/// Writes what `file_lines_in` writes, and returns the faults that it returns, or the rest of each file, by its place,
/// that was cut and is dropped: the places that no file has are empty.
pub fn file_lines_and_cuts<R: Source, W: Sink>(
    alloc: Global,
    sources: Vec<R>,
    tail: Tail,
    form: Form,
    writer: &mut W,
) -> Result<[Option<CutRest>; 32], Fault>
    requires some { 1 ≤ vec_len sources }
    requires most { vec_len sources ≤ 32 }
    ensures text { IsTrue (list_all R.tells_coming sources.items) → IsTrue (W.tells_held writer.old)
        → Tells (info_text_in form tail (map R.coming sources.items))
        (first_refusal tail 1 (map R.coming sources.items)) (W.held writer.old) result (W.held writer.new) }
    ensures cuts { IfOk result (λ cuts. IsTrue (list_all R.tells_coming sources.items)
        → cuts ≡ rests_by_place (endings_of_files tail (map R.coming sources.items)) (length sources.items)) }
    ensures writer { WriterKeeps (writer_of W.Sink writer.old) (is_write result) (writer_of W.Sink writer.new) }
    ensures read { FailsOf (map R.can_fail sources.items) result }
    ensures first { IsTrue (list_all R.tells_coming sources.items)
        → FailsFirst tail (map R.coming sources.items) result }
{
    let counted = count_files(alloc, sources, tail)?;
    put_files(writer, form, counted.as_slice())?;
    Ok(cuts_of(counted.as_slice()))
}
