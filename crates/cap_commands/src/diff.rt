//! `capt diff`: whether two captures have the same packets.
ghost use Rattle.std.specs.Prelude.{◌≡◌, ℕ, ◌+◌, ◌≤◌, ◌++◌, ◌∷◌, ◌^◌, [], false, codes, None, Some};
ghost use Rattle.std.specs.Prelude.{IsNone, IsSome, IsTrue, OnOk};
ghost use Rattle.std.specs.Prelude.{IfOk, IsOkUnless, is_none, is_some, length, not, ◌&&◌};
ghost use Rattle.cap_bytes.specs.Device.{WriterKeeps, writer_of};
ghost use Rattle.cap_bytes.specs.Printing.{Prints, is_write};
ghost use Rattle.cap_print.specs.Lines.{text_in};
ghost use Rattle.cap_source.specs.Feed.{FeedKeeps, HasFile, IsPacket};
ghost use Rattle.cap_source.specs.ReadFaults.{FailsOf};
ghost use Rattle.cap_source.specs.inner.Walk.{GivesPacket, SameEndings, ShowsItem};
ghost use Rattle.cap_source.specs.declared.feeds.Head.{Head};
ghost use Rattle.cap_source.specs.Times.{meta_time};
ghost use Rattle.cap_commands.specs.DiffText.{TellsDiff, before_side, compared, comparison_of, counted_differences};
ghost use Rattle.cap_commands.specs.DiffText.{cuts_of, diff_end, diff_refusal};
ghost use Rattle.cap_commands.specs.DiffText.{data_place, default_options, diff_text_in, difference_line};
ghost use Rattle.cap_commands.specs.DiffText.{difference_words, differences_of, do_differ, first_difference, is_same};
ghost use Rattle.cap_commands.specs.DiffText.{is_same_time, nothing_ignored, other_packet, packet_side};
ghost use Rattle.cap_commands.specs.DiffText.{place_of, row_start, shown_from, side_in, sides_in};
ghost use Rattle.cap_commands.specs.inner.DiffWalk.{FailsOne, KnowsPackets, Parts, are_alike, compared_of, ended_cut};
ghost use Rattle.cap_commands.specs.inner.DiffWalk.{given, known_packet, parted};
ghost use Rattle.cap_commands.specs.Left.{done_of};
ghost use Rattle.cap_talks.specs.talks.Telling.{Tells};

use crate::diff_lines::{differ_line, end_line, no_packet_line, row_start, same_line, side_head};
use crate::lines::{Behind, MOST_SHOWN, write_side};
use crate::list::put_long_packet;
use cap_bytes::{CutRest, Fault, Sink, Source, Tail, put_all};
use cap_line::{Ignored, NOTHING_IGNORED};
use cap_print::{Form, Line, TimeForm};
use cap_source::{Capture, Meta, PacketFeed};
use cap_time::Stamp;
use std::alloc::Global;
use std::cmp::min;

/// In which of five things two packets differ.
#[derive(Clone, Copy, Debug, PartialEq, Eq)]
pub struct Differences {
    /// The link type.
    pub link: bool,
    /// The exact time, or that one of them has none.
    pub time: bool,
    /// How many bytes were captured.
    pub captured: bool,
    /// How many bytes the packet had.
    pub original: bool,
    /// The captured bytes.
    pub bytes: bool,
}

/// How two captures are compared, and how that is printed.
#[derive(Clone, Copy, Debug, PartialEq, Eq)]
pub struct DiffOptions {
    /// In what two packets may differ and still count as the same.
    pub ignored: Ignored,
    /// The form.
    pub form: Form,
    /// How many bytes of each packet are shown at most.
    pub most: u32,
}

// Whether two packets have the same exact time, or both have none.
fn is_same_time(first: Option<Stamp>, second: Option<Stamp>) -> bool
    ensures { result ≡ is_same_time first second }
{
    match first {
        None => second.is_none(),
        Some(first) => match second {
            None => false,
            Some(second) => first == second,
        },
    }
}

// In what two packets with these captured bytes differ.
#[inline(always)]
fn differences_of(first: &Meta, frame: &[u8], second: &Meta, bytes: &[u8]) -> Differences
    ensures { result ≡ differences_of (record { meta = first.now; frame = frame.now })
        (record { meta = second.now; frame = bytes.now }) }
{
    Differences {
        link: first.interface.link != second.interface.link,
        time: !is_same_time(first.time(), second.time()),
        captured: first.captured != second.captured,
        original: first.original != second.original,
        bytes: frame != bytes,
    }
}

// Whether a difference counts.
fn counts(is_ignored: bool, is_so: bool) -> bool
    ensures { result ≡ (not is_ignored && is_so) }
{
    !is_ignored && is_so
}

// The differences that count.
fn counted_differences(ignored: Ignored, it: Differences) -> Differences
    ensures { result ≡ counted_differences ignored it }
{
    Differences {
        link: counts(ignored.link, it.link),
        time: counts(ignored.time, it.time),
        captured: it.captured,
        original: counts(ignored.original, it.original),
        bytes: it.bytes,
    }
}

// How many bytes both have in common at their beginning.
fn first_difference(first: &[u8], second: &[u8]) -> usize
    ensures { result ≡ first_difference first.now second.now }
{
    let shorter = min(first.len(), second.len());
    for place in 0..shorter {
        if first[place] != second[place] {
            return place;
        }
    }
    shorter
}

// Whether they differ in one of these at least.
fn do_differ(it: Differences) -> bool
    ensures { result ≡ do_differ it }
{
    it.link || it.time || it.captured || it.original || it.bytes
}

// Whether they differ in one of these that counts. Most packets are the same in all, which is seen first.
#[inline(always)]
fn do_count(ignored: Ignored, it: Differences) -> bool
    ensures { result ≡ do_differ (counted_differences ignored it) }
{
    if do_differ(it) {
        return do_differ(counted_differences(ignored, it));
    }
    false
}

/// Of two files: the rest of each that was cut, and that was dropped. Nothing is known of one that hasn't ended: then
/// it is `None`.
#[derive(Clone, Copy, Debug, PartialEq, Eq)]
pub struct CutEnds {
    /// The rest of the first.
    pub first: Option<CutRest>,
    /// The rest of the second.
    pub second: Option<CutRest>,
}

/// How a comparison of two files ended.
#[derive(Clone, Copy, Debug, PartialEq, Eq)]
pub struct DiffEnd {
    /// Whether they have the same packets.
    pub is_same: bool,
    /// The rests of those that had ended there.
    pub cuts: CutEnds,
}

// Where two feeds are no longer the same: after how many packets, and which packet each of them has there.
#[derive(Clone, Copy)]
struct Divergence {
    passed: u64,
    first: Option<Meta>,
    second: Option<Meta>,
}

// Whether a packet comes next, which is known then. A copy of it would cost more than all else of a small packet.
#[inline(always)]
fn look<F: PacketFeed>(feed: &mut F) -> Result<bool, Fault>
    ensures answer { GivesPacket (F.feed feed.old) (given result (F.feed feed.new).known) (F.feed feed.new) }
    ensures keeps { FeedKeeps (F.feed feed.old) (F.feed feed.new) }
    ensures items { IsTrue (F.feed feed.old).told
        → ShowsItem (F.feed feed.old) (given result (F.feed feed.new).known) (F.feed feed.new) }
    ensures found { IfOk result (λ found. found ≡ is_some (known_packet (F.feed feed.new).known)) }
{
    feed.peek()
}

// The packet that comes next, if one does.
fn packet_of<F: PacketFeed>(feed: &F, found: bool) -> Option<Meta>
    requires { found ≡ is_some (known_packet (F.feed feed.now).known) }
    ensures { result ≡ known_packet (F.feed feed.now).known }
{
    if found { Some(*feed.packet()) } else { None }
}

// Whether the packets that come next, if there are some, are the same apart from what is ignored: none is the same as
// nothing.
fn is_alike<F: PacketFeed>(ignored: Ignored, first: &F, one: bool, second: &F, other: bool) -> bool
    requires first { one ≡ is_some (known_packet (F.feed first.now).known) }
    requires second { other ≡ is_some (known_packet (F.feed second.now).known) }
    ensures { result ≡ are_alike ignored (compared_of (known_packet (F.feed first.now).known) (F.feed first.now).frame)
        (compared_of (known_packet (F.feed second.now).known) (F.feed second.now).frame) }
{
    if one {
        if other {
            let (a, b) = (first.packet(), second.packet());
            let it = differences_of(a, first.frame(), b, second.frame());
            return !do_count(ignored, it);
        }
    }
    false
}

// Passes the packets that are the same apart from what is ignored, up to the first that isn't, or to the end of both.
fn part<F: PacketFeed>(ignored: Ignored, first: &mut F, second: &mut F) -> Result<Divergence, Fault>
    requires left { (F.feed first.old).left ≤ 2 ^ 40 }
    ensures parts { IsTrue (F.feed first.old).told → IsTrue (F.feed second.old).told
        → Parts (compared ignored 0 (F.feed first.old).items (F.feed second.old).items) result (F.feed first.new).frame
        (F.feed second.new).frame }
    ensures known { IfOk result (λ p. KnowsPackets p (F.feed first.new) (F.feed second.new)) }
    ensures keeps_first { FeedKeeps (F.feed first.old) (F.feed first.new) }
    ensures keeps_second { FeedKeeps (F.feed second.old) (F.feed second.new) }
    ensures ends_first { OnOk result (IsTrue (F.feed first.old).told
        → SameEndings (F.feed first.old) (F.feed first.new)) }
    ensures ends_second { OnOk result (IsTrue (F.feed second.old).told
        → SameEndings (F.feed second.old) (F.feed second.new)) }
    ensures few { IfOk result (λ p. p.passed ≤ 2 ^ 40) }
    ensures write { is_write result ≡ false }
    ensures fails { FailsOne (F.feed first.old) (F.feed second.old) result }
{
    let mut passed = 0u64;
    loop {
        let one = look(first)?;
        let other = look(second)?;
        if !is_alike(ignored, first, one, second, other) {
            return Ok(Divergence {
                passed,
                first: packet_of(first, one),
                second: packet_of(second, other),
            });
        }
        first.pass();
        second.pass();
        passed += 1;
    }
}

// The rest of a file of that number that was dropped, if it has ended.
fn cut_of<F: PacketFeed>(feed: &F, file: u32, packet: Option<Meta>) -> Option<CutRest>
    requires end { IsNone packet → (F.feed feed.now).known ≡ Some Head.End }
    requires file { HasFile (F.feed feed.now).files file }
    ensures { result ≡ ended_cut packet ((F.feed feed.now).endings file) }
{
    match packet {
        None => feed.ending(file).cut,
        Some(_) => None,
    }
}

// Which of a packet's bytes are shown: at most so many, from that byte on.
#[derive(Clone, Copy)]
struct Shown {
    from: usize,
    most: u32,
}

// The bytes of a packet that are shown.
fn shown_of(shown: Shown, frame: &[u8]) -> &[u8]
    ensures { result.now ≡ shown_from shown.most shown.from frame.now }
{
    let (_, rest) = frame.split_at(min(frame.len(), shown.from));
    let (front, _) = rest.split_at(min(rest.len(), shown.most as usize));
    front
}

// Writes a line.
fn put_line<W: Sink>(writer: &mut W, line: &Line) -> Result<(), Fault>
    ensures text { IsTrue (W.tells_held writer.old)
        → Prints (text_in line.now) None (W.held writer.old) result (W.held writer.new) }
    ensures writer { WriterKeeps (writer_of W.Sink writer.old) (is_write result) (writer_of W.Sink writer.new) }
    ensures fault { IsOkUnless result Fault.Write }
{
    put_all(writer, line.as_slice())
}

// Writes a packet in a form, with these of its bytes; in JSON its object ends the one that it stands in.
fn put_packet<W: Sink>(
    writer: &mut W,
    form: Form,
    n: u64,
    meta: &Meta,
    shown: &[u8],
) -> Result<(), Fault>
    ensures text { IsTrue (W.tells_held writer.old)
        → Prints (packet_side form n meta.now shown.now) None (W.held writer.old) result (W.held writer.new) }
    ensures writer { WriterKeeps (writer_of W.Sink writer.old) (is_write result) (writer_of W.Sink writer.new) }
    ensures fault { IsOkUnless result Fault.Write }
{
    let mut line = Line::new();
    if shown.len() > MOST_SHOWN {
        return put_long_packet(writer, &mut line, form, &Behind::ObjectEnd, n, meta, shown);
    }
    write_side(&mut line, form, n, meta, shown);
    put_line(writer, &line)
}

// Writes the packet that comes next in a form, with these of its bytes, or that its file has ended, cut or not.
fn put_next<F: PacketFeed, W: Sink>(
    writer: &mut W,
    form: Form,
    n: u64,
    shown: Shown,
    cut: bool,
    packet: Option<Meta>,
    feed: &F,
) -> Result<(), Fault>
    requires packet { IsSome packet → IsPacket (F.feed feed.now).known }
    ensures text { IsTrue (W.tells_held writer.old)
        → Prints (side_in form shown.most n shown.from cut (compared_of packet (F.feed feed.now).frame)) None
        (W.held writer.old) result (W.held writer.new) }
    ensures writer { WriterKeeps (writer_of W.Sink writer.old) (is_write result) (writer_of W.Sink writer.new) }
    ensures fault { IsOkUnless result Fault.Write }
{
    match packet {
        None => put_line(writer, &no_packet_line(form, cut)),
        Some(meta) => put_packet(writer, form, n, &meta, shown_of(shown, feed.frame())),
    }
}

// Writes one side of a difference in a form: the sign of its file, and the packet that comes next, with these of its
// bytes, or that the file has ended, cut or not.
fn put_side<F: PacketFeed, W: Sink>(
    writer: &mut W,
    form: Form,
    sign: &[u8],
    n: u64,
    shown: Shown,
    cut: bool,
    packet: Option<Meta>,
    feed: &F,
) -> Result<(), Fault>
    requires sign { length sign.now ≤ 400 }
    requires packet { IsSome packet → IsPacket (F.feed feed.now).known }
    ensures text { IsTrue (W.tells_held writer.old)
        → Prints (before_side form sign.now shown.from
        ++ side_in form shown.most n shown.from cut (compared_of packet (F.feed feed.now).frame)) None
        (W.held writer.old) result (W.held writer.new) }
    ensures writer { WriterKeeps (writer_of W.Sink writer.old) (is_write result) (writer_of W.Sink writer.new) }
    ensures fault { IsOkUnless result Fault.Write }
{
    let head = side_head(form, sign, shown.from);
    put_all(writer, head.as_slice())?;
    put_next(writer, form, n, shown, cut, packet, feed)
}

// Writes both sides in a form, with these of their bytes.
fn put_sides<F: PacketFeed, W: Sink>(
    writer: &mut W,
    form: Form,
    n: u64,
    shown: Shown,
    cuts: CutEnds,
    divergence: &Divergence,
    first: &F,
    second: &F,
) -> Result<(), Fault>
    requires known { KnowsPackets divergence.now (F.feed first.now) (F.feed second.now) }
    ensures text { IsTrue (W.tells_held writer.old)
        → Prints (sides_in form shown.most n shown.from cuts (compared_of divergence.now.first (F.feed first.now).frame)
        (compared_of divergence.now.second (F.feed second.now).frame)) None (W.held writer.old) result
        (W.held writer.new) }
    ensures writer { WriterKeeps (writer_of W.Sink writer.old) (is_write result) (writer_of W.Sink writer.new) }
    ensures fault { IsOkUnless result Fault.Write }
{
    put_side(
        writer,
        form,
        b"-",
        n,
        shown,
        cuts.first.is_some(),
        divergence.first,
        first,
    )?;
    put_side(
        writer,
        form,
        b"+",
        n,
        shown,
        cuts.second.is_some(),
        divergence.second,
        second,
    )
}

// Where these captured bytes differ, if they do.
fn place_of(frame: &[u8], bytes: &[u8]) -> Option<usize>
    ensures { result ≡ place_of frame.now bytes.now }
{
    if frame == bytes {
        None
    } else {
        Some(first_difference(frame, bytes))
    }
}

// Where the captured bytes of the packets that come next differ, if they do.
fn data_place<F: PacketFeed>(divergence: &Divergence, first: &F, second: &F) -> Option<usize>
    requires known { KnowsPackets divergence.now (F.feed first.now) (F.feed second.now) }
    ensures { result ≡ data_place (compared_of divergence.now.first (F.feed first.now).frame)
        (compared_of divergence.now.second (F.feed second.now).frame) }
{
    match divergence.first {
        None => None,
        Some(_) => match divergence.second {
            None => None,
            Some(_) => place_of(first.frame(), second.frame()),
        },
    }
}

// The first line of a difference in a form, with where the captured bytes differ.
fn head_line<F: PacketFeed>(
    ignored: Ignored,
    form: Form,
    n: u64,
    place: Option<usize>,
    divergence: &Divergence,
    first: &F,
    second: &F,
) -> Line
    requires known { KnowsPackets divergence.now (F.feed first.now) (F.feed second.now) }
    requires place { place ≡ data_place (compared_of divergence.now.first (F.feed first.now).frame)
        (compared_of divergence.now.second (F.feed second.now).frame) }
    ensures { text_in result ≡ difference_line form n
        (difference_words ignored (compared_of divergence.now.first (F.feed first.now).frame)
        (compared_of divergence.now.second (F.feed second.now).frame)) place }
{
    match divergence.first {
        None => end_line(form, n),
        Some(one) => match divergence.second {
            None => end_line(form, n),
            Some(other) => {
                let it = differences_of(&one, first.frame(), &other, second.frame());
                differ_line(form, n, counted_differences(ignored, it), place)
            }
        },
    }
}

// Writes what is printed in a form of two packets that aren't the same, or of one whose counterpart is missing.
fn put_difference<F: PacketFeed, W: Sink>(
    writer: &mut W,
    options: DiffOptions,
    n: u64,
    cuts: CutEnds,
    divergence: &Divergence,
    first: &F,
    second: &F,
) -> Result<(), Fault>
    requires known { KnowsPackets divergence.now (F.feed first.now) (F.feed second.now) }
    ensures text { IsTrue (W.tells_held writer.old)
        → Prints (diff_text_in options cuts (other_packet n (compared_of divergence.now.first (F.feed first.now).frame)
        (compared_of divergence.now.second (F.feed second.now).frame))) None (W.held writer.old) result
        (W.held writer.new) }
    ensures writer { WriterKeeps (writer_of W.Sink writer.old) (is_write result) (writer_of W.Sink writer.new) }
    ensures fault { IsOkUnless result Fault.Write }
{
    let place = data_place(divergence, first, second);
    let line = head_line(
        options.ignored,
        options.form,
        n,
        place,
        divergence,
        first,
        second,
    );
    put_all(writer, line.as_slice())?;
    let shown = Shown {
        from: row_start(place),
        most: options.most,
    };
    put_sides(
        writer,
        options.form,
        n,
        shown,
        cuts,
        divergence,
        first,
        second,
    )
}

// Whether both have ended.
fn is_end(divergence: &Divergence) -> bool
    ensures { result ≡ (is_none divergence.now.first && is_none divergence.now.second) }
{
    divergence.first.is_none() && divergence.second.is_none()
}

// Writes what is printed in a form where two feeds part, and returns whether they are the same.
fn put_divergence<F: PacketFeed, W: Sink>(
    writer: &mut W,
    options: DiffOptions,
    cuts: CutEnds,
    divergence: &Divergence,
    first: &F,
    second: &F,
) -> Result<bool, Fault>
    requires known { KnowsPackets divergence.now (F.feed first.now) (F.feed second.now) }
    requires few { divergence.now.passed ≤ 2 ^ 40 }
    ensures text { IsTrue (W.tells_held writer.old)
        → TellsDiff options cuts
        (parted divergence.now.passed (compared_of divergence.now.first (F.feed first.now).frame)
        (compared_of divergence.now.second (F.feed second.now).frame)) (W.held writer.old) result (W.held writer.new) }
    ensures same { IfOk result (λ so. so ≡ (is_none divergence.now.first && is_none divergence.now.second)) }
    ensures writer { WriterKeeps (writer_of W.Sink writer.old) (is_write result) (writer_of W.Sink writer.new) }
    ensures fault { IsOkUnless result Fault.Write }
{
    if is_end(divergence) {
        put_line(writer, &same_line(options.form, divergence.passed, cuts))?;
        return Ok(true);
    }
    put_difference(
        writer,
        options,
        divergence.passed + 1,
        cuts,
        divergence,
        first,
        second,
    )?;
    Ok(false)
}

/// Prints whether two capture files, each of either format, have the same packets, in link type, exact time, captured
/// and original length and captured bytes, apart from what is ignored, and returns it: `same packets N`; or the number
/// and the differences of the first packet that isn't the same in both, and its line in each, as `list_to` prints it.
/// In JSON these are three objects, of which the second and the third hold the object
/// that `list_json_to` prints, or `null`. If a file has ended, and a cut end of it was dropped, that is printed too:
/// behind `same packets N` as `cut A` and `cut B`, behind `end` as `cut`; in JSON as `cut_a`, `cut_b` and `cut`. Each
/// line or object has at most `most` bytes of its packet. If the captured bytes differ, the place of the first byte
/// that differs is printed, and these are the bytes from the row of 16 bytes on in which that byte is. It returns the
/// cut ends too that were dropped, of the files that have ended. If a file is refused before that, the refusal is
/// returned. It returns `Read` if a read fails and `Memory` if a growth is refused; after these and a refusal nothing
/// is printed. It returns `Write` if a write fails, after a prefix.
pub fn diff_in<R: Source, W: Sink>(
    alloc: Global,
    first: R,
    second: R,
    tail: Tail,
    options: DiffOptions,
    writer: &mut W,
) -> Result<DiffEnd, Fault>
    ensures text { IsTrue (R.tells_coming first) → IsTrue (R.tells_coming second) → IsTrue (W.tells_held writer.old)
        → Tells (diff_text_in options (cuts_of tail (R.coming first) (R.coming second))
        (comparison_of options.ignored tail (R.coming first) (R.coming second)))
        (diff_refusal (comparison_of options.ignored tail (R.coming first) (R.coming second)))
        (W.held writer.old) (done_of result) (W.held writer.new) }
    ensures end { IfOk result (λ end. IsTrue (R.tells_coming first) → IsTrue (R.tells_coming second)
        → end ≡ diff_end (cuts_of tail (R.coming first) (R.coming second))
        (comparison_of options.ignored tail (R.coming first) (R.coming second))) }
    ensures writer { WriterKeeps (writer_of W.Sink writer.old) (is_write result) (writer_of W.Sink writer.new) }
    ensures read { FailsOf (R.can_fail first ∷ R.can_fail second ∷ []) result }
{
    let mut first = Capture::new(alloc, first, 1, tail);
    let mut second = Capture::new(alloc, second, 2, tail);
    let divergence = part(options.ignored, &mut first, &mut second)?;
    let cuts = CutEnds {
        first: cut_of(&first, 1, divergence.first),
        second: cut_of(&second, 2, divergence.second),
    };
    let is_same = put_divergence(writer, options, cuts, &divergence, &first, &second)?;
    Ok(DiffEnd { is_same, cuts })
}

/// The options of `capt diff` without any: nothing is ignored, and text is printed, with at most 16 bytes of each
/// packet.
pub const DEFAULT_OPTIONS: DiffOptions = DiffOptions {
    ignored: NOTHING_IGNORED,
    form: Form::Text(TimeForm::Exact),
    most: 16,
};

/// Does what `diff_in` does with `DEFAULT_OPTIONS`.
pub fn diff_to<R: Source, W: Sink>(
    alloc: Global,
    first: R,
    second: R,
    tail: Tail,
    writer: &mut W,
) -> Result<DiffEnd, Fault>
    ensures text { IsTrue (R.tells_coming first) → IsTrue (R.tells_coming second) → IsTrue (W.tells_held writer.old)
        → Tells (diff_text_in default_options (cuts_of tail (R.coming first) (R.coming second))
        (comparison_of nothing_ignored tail (R.coming first) (R.coming second)))
        (diff_refusal (comparison_of nothing_ignored tail (R.coming first) (R.coming second)))
        (W.held writer.old) (done_of result) (W.held writer.new) }
    ensures end { IfOk result (λ end. IsTrue (R.tells_coming first) → IsTrue (R.tells_coming second)
        → end ≡ diff_end (cuts_of tail (R.coming first) (R.coming second))
        (comparison_of nothing_ignored tail (R.coming first) (R.coming second))) }
    ensures writer { WriterKeeps (writer_of W.Sink writer.old) (is_write result) (writer_of W.Sink writer.new) }
    ensures read { FailsOf (R.can_fail first ∷ R.can_fail second ∷ []) result }
{
    diff_in(alloc, first, second, tail, DEFAULT_OPTIONS, writer)
}
