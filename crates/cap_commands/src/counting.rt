//! What `capt convert`, `merge` and `join` write of files, and what they leave out of it or as it was.
ghost use Rattle.std.specs.Prelude.{◌≡◌, ◌≤◌, ◌∷◌, [], IsTrue, IfOk, IsOkUnless, OnOk, Some, length, map};
ghost use Rattle.std.specs.Prelude.{None, is_some, vec_len};
ghost use Rattle.std.specs.List.{list_all, range_with_len};
ghost use Rattle.cap_bytes.specs.Device.{WriterKeeps, writer_of};
ghost use Rattle.cap_bytes.specs.Printing.{Prints, is_write};
ghost use Rattle.cap_merge.specs.Files.{clocked_run, counted_endings};
ghost use Rattle.cap_merge.specs.Parts.{merged_feed, run_of};
ghost use Rattle.cap_merge.specs.inner.Readers.{IsCountedRun, reader_of};
ghost use Rattle.cap_merge.specs.inner.View.{backward_of, counts_backward, parts_of};
ghost use Rattle.cap_source.specs.inner.Captures.{capture_feed as file_of, capture_number, capture_first};
ghost use Rattle.cap_source.specs.Feed.{FeedKeeps};
ghost use Rattle.cap_source.specs.Items.{counted_ending};
ghost use Rattle.cap_source.specs.ReadFaults.{FailsOf};
ghost use Rattle.cap_source.specs.inner.Walk.{SameEndings, Walks};
ghost use Rattle.cap_source.specs.declared.feeds.Head.{Head};
ghost use Rattle.cap_commands.specs.Converted.{convert_text, convert_refusal};
ghost use Rattle.cap_commands.specs.inner.FileText.{written_file_text, file_refusal};
ghost use Rattle.cap_commands.specs.JoinText.{join_text, join_text_in, join_refusal, join_refusal_in};
ghost use Rattle.cap_commands.specs.Left.{left_of_file, LeavesOut, LeavesPackets};
ghost use Rattle.cap_commands.specs.MergeText.{merge_text, merge_text_in, merge_refusal, merge_refusal_in};
ghost use Rattle.cap_class.specs.Runs.{taken_after};
ghost use Rattle.cap_write.specs.LeftOut.{CountsLeftOut};
ghost use Rattle.cap_commands.specs.RunText.{datagrams_refusal, datagrams_text, output_format, packets_refusal};
ghost use Rattle.cap_commands.specs.RunText.{packets_text};

use crate::left::{DroppedInfo, only_cut};
use cap_bytes::{CutRest, Fault, Order, Sink, Source, Tail};
use cap_merge::{Merged, merge_files_with_comments};
use cap_source::{Capture, Format, PacketFeed};
use cap_time::Unit;
use cap_write::{
    LeftOut, NO_PACKETS_LEFT_OUT, to_pcap, to_pcapng, write_joined_and_count,
    write_joined_pcap_and_count, write_merged, write_merged_pcap, write_merged_sharing,
};
use std::alloc::Global;

// What isn't carried on of the files of a feed that has come to its end.
fn dropped_of<F: PacketFeed>(feed: &F, files: u32) -> DroppedInfo
    requires end { (F.feed feed.now).known ≡ Some Head.End }
    requires files { (F.feed feed.now).files ≡ range_with_len 1 files }
    requires most { files ≤ 32 }
    ensures { LeavesOut (F.feed feed.now).endings files result }
{
    let mut skipped: u128 = 0;
    let mut secret_blocks: u128 = 0;
    let mut name_blocks: u128 = 0;
    let mut named: u128 = 0;
    let mut comments: u128 = 0;
    let mut cuts: [Option<CutRest>; 32] = [None; 32];
    for place in 0..files {
        let ending = feed.ending(place + 1);
        skipped += u128::from(ending.skipped);
        named += u128::from(feed.named_interfaces(place + 1));
        comments += u128::from(feed.comments(place + 1).unwrap_or(0));
        let kinds = feed.skipped_kinds(place + 1);
        secret_blocks += u128::from(kinds.secrets);
        name_blocks += u128::from(kinds.names);
        cuts[place as usize] = ending.cut;
    }
    DroppedInfo {
        skipped,
        secret_blocks,
        name_blocks,
        named,
        comments,
        ran_back: 0,
        cuts,
        left_out: None,
        not_ipv4: None,
    }
}

// What is left of files that were merged, once they have come to their end, and of whose packets that was left out.
fn left_of_merged<F: PacketFeed>(merged: &Merged<F>, left_out: Option<LeftOut>) -> DroppedInfo
    requires end { (merged_feed (parts_of merged.now)).known ≡ Some Head.End }
    ensures dropped { LeavesOut (merged_feed (parts_of merged.now)).endings
        (length (merged_feed (parts_of merged.now)).files) result }
    ensures backward { result.ran_back ≡ backward_of merged.now }
    ensures packets { result.left_out ≡ left_out }
{
    let dropped = dropped_of(merged, merged.files());
    let cuts = dropped.cuts;
    DroppedInfo {
        skipped: dropped.skipped,
        secret_blocks: dropped.secret_blocks,
        name_blocks: dropped.name_blocks,
        named: dropped.named,
        comments: dropped.comments,
        ran_back: u128::from(merged.backward()),
        cuts,
        left_out,
        not_ipv4: None,
    }
}

// What is left of a file that has come to its end.
fn left_of_one<F: PacketFeed>(feed: &F) -> DroppedInfo
    requires end { (F.feed feed.now).known ≡ Some Head.End }
    requires file { (F.feed feed.now).files ≡ 1 ∷ [] }
    ensures { result ≡ left_of_file ((F.feed feed.now).endings 1) }
{
    let ending = feed.ending(1);
    let mut left = only_cut(ending.cut);
    left.skipped = u128::from(ending.skipped);
    left.named = u128::from(feed.named_interfaces(1));
    left.comments = u128::from(feed.comments(1).unwrap_or(0));
    let kinds = feed.skipped_kinds(1);
    left.secret_blocks = u128::from(kinds.secrets);
    left.name_blocks = u128::from(kinds.names);
    left
}

// The packets of 1 to 32 files in the order of exact time, of which those that run backward are counted if that is
// asked for, and so are the files' comments. Nothing is read yet.
fn merge_counted<R: Source>(
    alloc: Global,
    sources: Vec<R>,
    tail: Tail,
    counts: bool,
) -> Result<Merged<Capture<R>>, Fault>
    requires some { 1 ≤ vec_len sources }
    requires most { vec_len sources ≤ 32 }
    ensures unread { IfOk result (λ merged. IsCountedRun counts tail
        (map (reader_of R.tells_coming R.can_fail R.coming) sources.items) (parts_of merged)) }
    ensures backward { IfOk result (λ merged. backward_of merged ≡ 0) }
    ensures counts { IfOk result (λ merged. counts_backward merged ≡ counts) }
    ensures memory { IsOkUnless result Fault.Memory }
{
    let mut merged = merge_files_with_comments(alloc, sources, tail, counts)?;
    merged.count_backward(counts);
    Ok(merged)
}

/// The format in which a capture is written.
#[derive(Clone, Copy, Debug, PartialEq, Eq)]
pub enum OutputFormat {
    /// A pcap file (draft-ietf-opsawg-pcap, 4 and 5), in the unit of time that is asked for, if one is.
    Pcap(Option<Unit>),
    /// A pcapng file (draft-ietf-opsawg-pcapng, 4).
    Pcapng,
}

/// The format of that name in which a capture is written, with the unit of time that is asked for, if one is. In pcapng
/// each interface keeps its own.
pub fn output_format(format: Format, unit: Option<Unit>) -> OutputFormat
    ensures { result ≡ output_format format unit }
{
    match format {
        Format::Pcap => OutputFormat::Pcap(unit),
        Format::Pcapng => OutputFormat::Pcapng,
    }
}

// Writes a file in that format, before any of its packets was passed.
fn write_file<R: Source, W: Sink>(
    alloc: Global,
    capture: &mut Capture<R>,
    order: Order,
    format: OutputFormat,
    writer: &mut W,
) -> Result<(), Fault>
    ensures text { IsTrue (file_of capture.old).told → IsTrue (W.tells_held writer.old)
        → Prints (written_file_text format order (capture_number capture.old) (capture_first capture.old)
        (file_of capture.old).items)
        (file_refusal format (capture_number capture.old) (capture_first capture.old) (file_of capture.old).items)
        (W.held writer.old) result (W.held writer.new) }
    ensures writer { WriterKeeps (writer_of W.Sink writer.old) (is_write result) (writer_of W.Sink writer.new) }
    ensures walks { Walks (file_of capture.old) result (file_of capture.new) }
    ensures endings { OnOk result (IsTrue (file_of capture.old).told
        → SameEndings (file_of capture.old) (file_of capture.new)) }
    ensures keeps { FeedKeeps (file_of capture.old) (file_of capture.new) }
{
    match format {
        OutputFormat::Pcap(unit) => to_pcap(capture, order, unit, writer),
        OutputFormat::Pcapng => to_pcapng(alloc, capture, order, writer),
    }
}

/// Writes what `convert_to` writes, and returns the faults that it returns, or how many blocks of the file and names of
/// its interfaces aren't carried on, and, if `counts` asks for it, how many comments of its sections, interfaces and
/// packets. No packet is counted as one that ran back, since each stays where it was.
pub fn convert_and_count<R: Source, W: Sink>(
    alloc: Global,
    source: R,
    tail: Tail,
    order: Order,
    format: OutputFormat,
    counts: bool,
    writer: &mut W,
) -> Result<DroppedInfo, Fault>
    ensures text { IsTrue (R.tells_coming source) → IsTrue (W.tells_held writer.old)
        → Prints (convert_text format order tail (R.coming source)) (convert_refusal format tail (R.coming source))
        (W.held writer.old) result (W.held writer.new) }
    ensures writer { WriterKeeps (writer_of W.Sink writer.old) (is_write result) (writer_of W.Sink writer.new) }
    ensures read { FailsOf (R.can_fail source ∷ []) result }
    ensures left { IfOk result (λ left. IsTrue (R.tells_coming source)
        → left ≡ left_of_file (counted_ending counts tail 1 (R.coming source))) }
{
    let mut capture = Capture::with_comments(alloc, source, 1, tail, counts);
    write_file(alloc, &mut capture, order, format, writer)?;
    Ok(left_of_one(&capture))
}

/// How the packets of a run are written.
#[derive(Clone, Copy, Debug, PartialEq, Eq)]
pub enum RunForm {
    /// As a pcap file (draft-ietf-opsawg-pcap, 4 and 5), in the unit of time that is asked for, if one is.
    Pcap(Option<Unit>),
    /// As a pcapng file (draft-ietf-opsawg-pcapng, 4), in which the interfaces of each file are its own.
    Pcapng,
    /// As a pcapng file, in which interfaces with the same link, snaplen, resolution and offset are one.
    SharedPcapng,
}

// Writes the packets of a run, before any was passed.
fn write_run<F: PacketFeed, W: Sink>(
    alloc: Global,
    merged: &mut Merged<F>,
    order: Order,
    form: RunForm,
    writer: &mut W,
) -> Result<(), Fault>
    ensures text { IsTrue (merged_feed (parts_of merged.old)).told → IsTrue (W.tells_held writer.old)
        → Prints (packets_text form order (merged_feed (parts_of merged.old)).items)
        (packets_refusal form (merged_feed (parts_of merged.old)).items)
        (W.held writer.old) result (W.held writer.new) }
    ensures writer { WriterKeeps (writer_of W.Sink writer.old) (is_write result) (writer_of W.Sink writer.new) }
    ensures walks { Walks (merged_feed (parts_of merged.old)) result (merged_feed (parts_of merged.new)) }
    ensures endings { OnOk result (IsTrue (merged_feed (parts_of merged.old)).told
        → SameEndings (merged_feed (parts_of merged.old)) (merged_feed (parts_of merged.new))) }
    ensures keeps { FeedKeeps (merged_feed (parts_of merged.old)) (merged_feed (parts_of merged.new)) }
{
    match form {
        RunForm::Pcap(unit) => write_merged_pcap(merged, order, unit, writer),
        RunForm::Pcapng => write_merged(alloc, merged, order, writer),
        RunForm::SharedPcapng => write_merged_sharing(alloc, merged, order, writer),
    }
}

// No packet was left out yet, if packets are counted.
fn no_packets_if(counts: bool) -> Option<LeftOut>
    ensures none { CountsLeftOut result [] }
    ensures asked { is_some result ≡ counts }
{
    if counts {
        Some(NO_PACKETS_LEFT_OUT)
    } else {
        None
    }
}

// Writes the datagrams of a run, before any packet was passed.
fn write_datagrams<F: PacketFeed, W: Sink>(
    alloc: Global,
    merged: &mut Merged<F>,
    order: Order,
    format: OutputFormat,
    left: &mut Option<LeftOut>,
    writer: &mut W,
) -> Result<(), Fault>
    requires none { CountsLeftOut left.old [] }
    ensures text { IsTrue (merged_feed (parts_of merged.old)).told → IsTrue (W.tells_held writer.old)
        → Prints (datagrams_text format order (run_of (parts_of merged.old)))
        (datagrams_refusal format (run_of (parts_of merged.old)))
        (W.held writer.old) result (W.held writer.new) }
    ensures writer { WriterKeeps (writer_of W.Sink writer.old) (is_write result) (writer_of W.Sink writer.new) }
    ensures walks { Walks (merged_feed (parts_of merged.old)) result (merged_feed (parts_of merged.new)) }
    ensures endings { OnOk result (IsTrue (merged_feed (parts_of merged.old)).told
        → SameEndings (merged_feed (parts_of merged.old)) (merged_feed (parts_of merged.new))) }
    ensures left { OnOk result (IsTrue (merged_feed (parts_of merged.old)).told
        → CountsLeftOut left.new (taken_after [] (run_of (parts_of merged.old)))) }
    ensures asked { is_some left.new ≡ is_some left.old }
    ensures keeps { FeedKeeps (merged_feed (parts_of merged.old)) (merged_feed (parts_of merged.new)) }
{
    match format {
        OutputFormat::Pcap(unit) => {
            write_joined_pcap_and_count(alloc, merged, order, unit, left, writer)
        }
        OutputFormat::Pcapng => write_joined_and_count(alloc, merged, order, left, writer),
    }
}

/// Writes what `merge_to` writes, in any of the forms, and returns the faults that it returns, or what is left out: how
/// many blocks of the files and names of their interfaces aren't carried on, and, if `counts` asks for it, how many
/// comments of their sections, interfaces and packets, and how many packets had a time that is earlier than that of a
/// packet before them in their file.
pub fn merge_and_count<R: Source, W: Sink>(
    alloc: Global,
    sources: Vec<R>,
    tail: Tail,
    order: Order,
    form: RunForm,
    counts: bool,
    writer: &mut W,
) -> Result<DroppedInfo, Fault>
    requires some { 1 ≤ vec_len sources }
    requires most { vec_len sources ≤ 32 }
    ensures text { IsTrue (list_all R.tells_coming sources.items) → IsTrue (W.tells_held writer.old)
        → Prints (merge_text_in form order tail (map R.coming sources.items))
        (merge_refusal_in form tail (map R.coming sources.items))
        (W.held writer.old) result (W.held writer.new) }
    ensures writer { WriterKeeps (writer_of W.Sink writer.old) (is_write result) (writer_of W.Sink writer.new) }
    ensures read { FailsOf (map R.can_fail sources.items) result }
    ensures dropped { IfOk result (λ left. IsTrue (list_all R.tells_coming sources.items)
        → LeavesOut (counted_endings counts tail (map R.coming sources.items)) (length sources.items) left) }
    ensures packets { IfOk result (λ left. left.left_out ≡ None) }
{
    let mut merged = merge_counted(alloc, sources, tail, counts)?;
    write_run(alloc, &mut merged, order, form, writer)?;
    Ok(left_of_merged(&merged, None))
}

/// Writes what `join_to` writes, in either format, and returns the faults that it returns, or what is left out: how
/// many blocks of the files and names of their interfaces aren't carried on, and, if `counts` asks for it, how many
/// comments of their sections, interfaces and packets, how many packets had a time that is earlier than that of a
/// packet before them in their file, and how many packets are in no datagram that is written, by their class in a
/// report of the files.
pub fn join_and_count<R: Source, W: Sink>(
    alloc: Global,
    sources: Vec<R>,
    tail: Tail,
    order: Order,
    format: OutputFormat,
    counts: bool,
    writer: &mut W,
) -> Result<DroppedInfo, Fault>
    requires some { 1 ≤ vec_len sources }
    requires most { vec_len sources ≤ 32 }
    ensures text { IsTrue (list_all R.tells_coming sources.items) → IsTrue (W.tells_held writer.old)
        → Prints (join_text_in format order tail (map R.coming sources.items))
        (join_refusal_in format tail (map R.coming sources.items))
        (W.held writer.old) result (W.held writer.new) }
    ensures writer { WriterKeeps (writer_of W.Sink writer.old) (is_write result) (writer_of W.Sink writer.new) }
    ensures read { FailsOf (map R.can_fail sources.items) result }
    ensures dropped { IfOk result (λ left. IsTrue (list_all R.tells_coming sources.items)
        → LeavesOut (counted_endings counts tail (map R.coming sources.items)) (length sources.items) left) }
    ensures packets { IfOk result (λ left. IsTrue (list_all R.tells_coming sources.items)
        → LeavesPackets counts (clocked_run tail (map R.coming sources.items)) left) }
{
    let mut run = merge_counted(alloc, sources, tail, counts)?;
    let mut left_out = no_packets_if(counts);
    write_datagrams(alloc, &mut run, order, format, &mut left_out, writer)?;
    Ok(left_of_merged(&run, left_out))
}
