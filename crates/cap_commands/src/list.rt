//! `capt list`, in text and in JSON: one line for each packet, as it is found.
ghost use Rattle.std.specs.Prelude.{◌≡◌, ◌<◌, ◌≤◌, ◌^◌, ◌∷◌, [], None, IsTrue, false, length};
ghost use Rattle.std.specs.Prelude.{IfOk, IsOkUnless, OnOk, is_err};
ghost use Rattle.cap_commands.specs.ClassText.{list_by, packet_line_by};
ghost use Rattle.cap_commands.specs.Left.{done_of};
ghost use Rattle.cap_commands.specs.ListText.{facts_before, list_json, list_lines, list_refusal, list_text};
ghost use Rattle.cap_commands.specs.inner.PacketParts.{packet_rest, packet_text};
ghost use Rattle.cap_bytes.specs.Device.{Puts, WriterKeeps, writer_of};
ghost use Rattle.cap_bytes.specs.Printing.{Prints, is_write};
ghost use Rattle.cap_print.specs.Facts.{line_in};
ghost use Rattle.cap_source.specs.Feed.{refusal_of};
ghost use Rattle.cap_source.specs.ReadFaults.{FailsOf};
ghost use Rattle.cap_source.specs.Items.{file_ending};
ghost use Rattle.cap_source.specs.inner.Walk.{SameEndings, Walks};
ghost use Rattle.cap_source.specs.inner.Growing.{IfMemory};
ghost use Rattle.cap_talks.specs.table.Descriptions.{describe_for, description_fields};

use crate::left::without_cut;
use crate::lines::{
    Behind, MOST_SHOWN, MOST_SHOWN_CLASSED, write_classed, write_packet, write_packet_end,
    write_packet_head,
};
use cap_bytes::{CutRest, Fault, Sink, Source, Tail, put_all};
use cap_print::{Form, Line, TimeForm};
use cap_source::{Capture, Meta, PacketFeed};
use cap_talks::describe_for;
use std::alloc::Global;
use std::cmp::min;

// Writes bytes as digits, and then the end of their packet's line in a form.
fn put_rest<W: Sink>(
    writer: &mut W,
    line: &mut Line,
    form: Form,
    behind: &Behind,
    bytes: &[u8],
) -> Result<(), Fault>
    ensures bytes { IsTrue (W.tells_held writer.old)
        → Puts (W.held writer.old) result (W.held writer.new) (packet_rest form behind.now bytes.now) }
    ensures writer { WriterKeeps (writer_of W.Sink writer.old) (is_err result) (writer_of W.Sink writer.new) }
    ensures fault { IsOkUnless result Fault.Write }
{
    let mut rest = bytes;
    while rest.len() > MOST_SHOWN {
        let (piece, others) = rest.split_at(MOST_SHOWN);
        line.clear();
        line.prepend_hex(b"", piece);
        put_all(writer, line.as_slice())?;
        rest = others;
    }
    write_packet_end(line, form, behind);
    line.prepend_hex(b"", rest);
    put_all(writer, line.as_slice())
}

/// Writes the packet number n, from 1, in a form, in pieces, with these of its captured bytes, of which there are some,
/// and that behind them. It returns `Write` if that fails, after a prefix.
#[inline(never)]
pub(crate) fn put_long_packet<W: Sink>(
    writer: &mut W,
    line: &mut Line,
    form: Form,
    behind: &Behind,
    n: u64,
    meta: &Meta,
    shown: &[u8],
) -> Result<(), Fault>
    requires { 0 < length shown.now }
    ensures bytes { IsTrue (W.tells_held writer.old)
        → Puts (W.held writer.old) result (W.held writer.new) (packet_text form behind.now n meta.now shown.now) }
    ensures writer { WriterKeeps (writer_of W.Sink writer.old) (is_err result) (writer_of W.Sink writer.new) }
    ensures fault { IsOkUnless result Fault.Write }
{
    write_packet_head(line, form, n, meta);
    put_all(writer, line.as_slice())?;
    put_rest(writer, line, form, behind, shown)
}

/// What a line of `list` shows of a packet.
#[derive(Clone, Copy, Debug, PartialEq, Eq)]
pub struct ListOptions {
    /// The form of the line.
    pub form: Form,
    /// How many of its captured bytes are shown at most, the first of them.
    pub most: u32,
    /// Whether it is said what the packet is by itself, and why.
    pub class: bool,
    /// Whether an IPv6 packet is read for that.
    pub ipv6: bool,
}

// Writes the packet number n, from 1, in a form, with these of its captured bytes, and what it is by itself, where IPv6
// packets are read or not.
#[inline(never)]
fn put_classed_packet<W: Sink>(
    writer: &mut W,
    line: &mut Line,
    form: Form,
    ipv6: bool,
    n: u64,
    meta: &Meta,
    bytes: &[u8],
    shown: &[u8],
) -> Result<(), Fault>
    ensures bytes { IsTrue (W.tells_held writer.old)
        → Puts (W.held writer.old) result (W.held writer.new)
        (line_in form
        (facts_before (description_fields (describe_for ipv6 meta.now bytes.now)) n meta.now shown.now)) }
    ensures writer { WriterKeeps (writer_of W.Sink writer.old) (is_err result) (writer_of W.Sink writer.new) }
    ensures fault { IsOkUnless result Fault.Write }
{
    let description = describe_for(ipv6, meta, bytes);
    if shown.len() > MOST_SHOWN_CLASSED {
        let behind = Behind::Described(description);
        return put_long_packet(writer, line, form, &behind, n, meta, shown);
    }
    write_classed(line, form, n, meta, shown, &description);
    put_all(writer, line.as_slice())
}

/// Writes the line of the packet number n, from 1, as the options say. It returns `Write` if that fails, after a
/// prefix. `line` is room for it, whatever it holds.
#[inline(always)]
pub fn put_packet_line<W: Sink>(
    writer: &mut W,
    line: &mut Line,
    options: ListOptions,
    n: u64,
    meta: &Meta,
    bytes: &[u8],
) -> Result<(), Fault>
    ensures bytes { IsTrue (W.tells_held writer.old)
        → Puts (W.held writer.old) result (W.held writer.new)
        (packet_line_by options.class options.ipv6 options.form options.most n meta.now bytes.now) }
    ensures writer { WriterKeeps (writer_of W.Sink writer.old) (is_err result) (writer_of W.Sink writer.new) }
    ensures fault { IsOkUnless result Fault.Write }
{
    let form = options.form;
    let (shown, _) = bytes.split_at(min(bytes.len(), options.most as usize));
    if options.class {
        return put_classed_packet(writer, line, form, options.ipv6, n, meta, bytes, shown);
    }
    if shown.len() > MOST_SHOWN {
        return put_long_packet(writer, line, form, &Behind::LineEnd, n, meta, shown);
    }
    write_packet(line, form, n, meta, shown);
    put_all(writer, line.as_slice())
}

// Prints the packets that a feed still gives as the options say. The first of them has the number 1.
fn list_packets<F: PacketFeed, W: Sink>(
    feed: &mut F,
    options: ListOptions,
    writer: &mut W,
) -> Result<(), Fault>
    requires { (F.feed feed.old).left ≤ 2 ^ 40 }
    ensures text { IsTrue (F.feed feed.old).told → IsTrue (W.tells_held writer.old)
        → Prints (list_lines (packet_line_by options.class options.ipv6 options.form options.most) 1
        (F.feed feed.old).items) (refusal_of (F.feed feed.old).items)
        (W.held writer.old) result (W.held writer.new) }
    ensures writer { WriterKeeps (writer_of W.Sink writer.old) (is_write result) (writer_of W.Sink writer.new) }
    ensures walks { Walks (F.feed feed.old) result (F.feed feed.new) }
    ensures endings { OnOk result (IsTrue (F.feed feed.old).told → SameEndings (F.feed feed.old) (F.feed feed.new)) }
    ensures files { OnOk result ((F.feed feed.new).files ≡ (F.feed feed.old).files) }
    ensures memory { IfMemory result ((F.feed feed.new).known ≡ None) }
{
    let mut line = Line::new();
    let mut number = 1u64;
    while feed.peek()? {
        let packet = feed.packet();
        put_packet_line(writer, &mut line, options, number, packet, feed.frame())?;
        feed.pass();
        number += 1;
    }
    Ok(())
}

/// Does what `list_to` or `list_json_to` does, by the form of the options, with at most so many bytes of each packet;
/// behind them it also prints what the packet is by itself, as `put_description` does, if they say so. It returns the
/// rest of the file that was cut and dropped, if it was.
pub(crate) fn list_in<R: Source, W: Sink>(
    alloc: Global,
    source: R,
    tail: Tail,
    options: ListOptions,
    writer: &mut W,
) -> Result<Option<CutRest>, Fault>
    ensures text { IsTrue (R.tells_coming source) → IsTrue (W.tells_held writer.old)
        → Prints (list_by options.class options.ipv6 options.form options.most tail (R.coming source))
        (list_refusal tail (R.coming source)) (W.held writer.old) (done_of result) (W.held writer.new) }
    ensures writer { WriterKeeps (writer_of W.Sink writer.old) (is_write result) (writer_of W.Sink writer.new) }
    ensures read { FailsOf (R.can_fail source ∷ []) result }
    ensures cut { IfOk result (λ cut. IsTrue (R.tells_coming source)
        → cut ≡ (file_ending tail 1 (R.coming source)).ending.cut) }
{
    let mut capture = Capture::new(alloc, source, 1, tail);
    list_packets(&mut capture, options, writer)?;
    Ok(capture.ending(1).cut)
}

// Lines in a form that show that many bytes of a packet at most, and don't say what it is.
fn without_classes(form: Form, most: u32) -> ListOptions
    ensures { result ≡ record { form = form; most = most; class = false; ipv6 = false } }
{
    ListOptions {
        form,
        most,
        class: false,
        ipv6: false,
    }
}

/// Prints a line for each packet of a capture file of either format, each as it is found, up to the first refusal,
/// which it returns. It returns `Read` if a read fails, `Write` if a write does, `Memory` if a growth is refused; then
/// a prefix of those lines is written.
pub fn list_to<R: Source, W: Sink>(
    alloc: Global,
    source: R,
    tail: Tail,
    writer: &mut W,
) -> Result<(), Fault>
    ensures text { IsTrue (R.tells_coming source) → IsTrue (W.tells_held writer.old)
        → Prints (list_text tail (R.coming source)) (list_refusal tail (R.coming source))
        (W.held writer.old) result (W.held writer.new) }
    ensures writer { WriterKeeps (writer_of W.Sink writer.old) (is_write result) (writer_of W.Sink writer.new) }
    ensures read { FailsOf (R.can_fail source ∷ []) result }
{
    let options = without_classes(Form::Text(TimeForm::Exact), 16);
    without_cut(list_in(alloc, source, tail, options, writer))
}

/// Prints a JSON object on a line of its own for each packet of a capture file of either format, each as it is found,
/// with at most `shown` of its captured bytes, up to the first refusal, which it returns. It returns `Read` if a read
/// fails, `Write` if a write does, `Memory` if a growth is refused; then a prefix of those lines is written.
pub fn list_json_to<R: Source, W: Sink>(
    alloc: Global,
    source: R,
    tail: Tail,
    shown: u32,
    writer: &mut W,
) -> Result<(), Fault>
    ensures text { IsTrue (R.tells_coming source) → IsTrue (W.tells_held writer.old)
        → Prints (list_json shown tail (R.coming source)) (list_refusal tail (R.coming source))
        (W.held writer.old) result (W.held writer.new) }
    ensures writer { WriterKeeps (writer_of W.Sink writer.old) (is_write result) (writer_of W.Sink writer.new) }
    ensures read { FailsOf (R.can_fail source ∷ []) result }
{
    let objects = without_classes(Form::Json(TimeForm::Exact), shown);
    without_cut(list_in(alloc, source, tail, objects, writer))
}
