//! The report over capture files.
ghost use Rattle.std.specs.Prelude.{◌≡◌, ◌≤◌, [], None, IfOk, IsTrue, OnOk, length, map, vec_len};
ghost use Rattle.std.specs.List.{list_all};
ghost use Rattle.cap_bytes.specs.Device.{WriterKeeps, writer_of};
ghost use Rattle.cap_bytes.specs.Printing.{is_write};
ghost use Rattle.cap_merge.specs.Files.{clocked_run, endings_of_files};
ghost use Rattle.cap_merge.specs.Parts.{merged_feed, run_of};
ghost use Rattle.cap_merge.specs.inner.View.{parts_of};
ghost use Rattle.cap_source.specs.ReadFaults.{FailsOf};
ghost use Rattle.cap_source.specs.Feed.{Feed};
ghost use Rattle.cap_source.specs.inner.Walk.{Walks};
ghost use Rattle.cap_source.specs.inner.Growing.{IfMemory, IsAtPacket};
ghost use Rattle.cap_talks.specs.inner.talks.Reporting.{LeavesReport, TakesAll, TellsReport, TookAll};
ghost use Rattle.cap_talks.specs.talks.CutRests.{rests_by_place};
ghost use Rattle.cap_talks.specs.table.OtherNetworks.{counts_if, other_counts};
ghost use Rattle.cap_class.specs.Runs.{taken_after};
ghost use Rattle.cap_talks.specs.talks.ReportText.{report_for, report_refusal, report_refusal_for, report_text};
ghost use Rattle.cap_talks.specs.talks.ReportText.{report_text_in};
ghost use Rattle.cap_talks.specs.inner.table.Stepping.{TableStands};
ghost use Rattle.cap_talks.specs.inner.table.TableView.{table_of};
ghost use Rattle.cap_talks.specs.talks.Telling.{Tells};

use crate::table::{NO_OTHERS, OtherCounts, Step, Table, with_network};
use cap_bytes::{CutRest, Fault, Sink, Source, Tail};
use cap_merge::{Merged, merge_files};
use cap_print::{Form, TimeForm};
use cap_source::PacketFeed;
use std::alloc::Global;

/// What a report shows, and counts.
#[derive(Clone, Copy, Debug, PartialEq, Eq)]
pub struct ReportOptions {
    /// The form of its lines.
    pub form: Form,
    /// How many conversations have a line at most, those with the most bytes, both ways; all have one if none is given.
    pub top: Option<u32>,
    /// Whether the packets of the class `NotIpv4` are counted by their networks.
    pub counts: bool,
    /// Whether IPv6 packets are read: their conversations stand beside those of IPv4, each packet counts in the class
    /// that it has then, and the class `not-ipv4` is called `not-ip`.
    pub ipv6: bool,
}

/// What a report drops, or counts without a line.
#[derive(Clone, Copy, Debug, PartialEq, Eq)]
pub struct ReportLeft {
    /// The rest of each file, by its place, that was cut and is dropped: the places that no file has are empty.
    pub cuts: [Option<CutRest>; 32],
    /// How many packets of the class `NotIpv4` there are of each network, if they were counted.
    pub not_ipv4: Option<OtherCounts>,
}

// Takes all packets that come.
fn take_all<F: PacketFeed>(table: &mut Table<F>) -> Result<(), Fault>
    ensures takes { TakesAll (table_of table.old) result (table_of table.new) }
    ensures walks { Walks (merged_feed (table_of table.old).parts) result (merged_feed (table_of table.new).parts) }
{
    while let Step::Took = table.step()? {}
    Ok(())
}

// Takes all packets that come, and counts those of networks other than IPv4.
fn take_and_count<F: PacketFeed>(table: &mut Table<F>) -> Result<OtherCounts, Fault>
    requires stands { TableStands (table_of table.old) [] }
    ensures takes { TakesAll (table_of table.old) result (table_of table.new) }
    ensures walks { Walks (merged_feed (table_of table.old).parts) result (merged_feed (table_of table.new).parts) }
    ensures counts { IfOk result (λ counts. IsTrue (merged_feed (table_of table.old).parts).told
        → counts ≡ other_counts (taken_after [] (run_of (table_of table.old).parts))) }
{
    let mut counts = NO_OTHERS;
    loop {
        let network = table.peek_network()?;
        match table.step()? {
            Step::Took => counts = with_network(counts, network),
            Step::Done => return Ok(counts),
        }
    }
}

// Takes all packets that come, and counts those of networks other than IPv4, if that is asked for.
fn take_packets<F: PacketFeed>(
    table: &mut Table<F>,
    counts: bool,
) -> Result<Option<OtherCounts>, Fault>
    requires stands { TableStands (table_of table.old) [] }
    ensures takes { TakesAll (table_of table.old) result (table_of table.new) }
    ensures walks { Walks (merged_feed (table_of table.old).parts) result (merged_feed (table_of table.new).parts) }
    ensures counts { IfOk result (λ others. IsTrue (merged_feed (table_of table.old).parts).told
        → others ≡ counts_if counts (taken_after [] (run_of (table_of table.old).parts))) }
{
    if counts {
        let others = take_and_count(table)?;
        Ok(Some(others))
    } else {
        take_all(table)?;
        Ok(None)
    }
}

// Takes all packets of a table that has taken none, and writes the report over them, as the options say. After the last
// packet it needs memory only to find the conversations with the most bytes.
fn write_table<F: PacketFeed, W: Sink>(
    alloc: Global,
    table: &mut Table<F>,
    options: ReportOptions,
    writer: &mut W,
) -> Result<Option<OtherCounts>, Fault>
    requires stands { TableStands (table_of table.old) [] }
    ensures text { IsTrue (merged_feed (table_of table.old).parts).told → IsTrue (W.tells_held writer.old)
        → TellsReport (table_of table.old).tally.reads options.form options.top
        (length (table_of table.old).totals.files) (table_of table.old).parts
        (W.held writer.old) result (W.held writer.new) }
    ensures writer { WriterKeeps (writer_of W.Sink writer.old) (is_write result) (writer_of W.Sink writer.new) }
    ensures walks { Walks (merged_feed (table_of table.old).parts) result (merged_feed (table_of table.new).parts) }
    ensures memory { options.top ≡ None
        → IfMemory result (IsAtPacket (merged_feed (table_of table.new).parts).known) }
    ensures took { OnOk result (TookAll (table_of table.old) (table_of table.new)) }
    ensures counts { IfOk result (λ others. IsTrue (merged_feed (table_of table.old).parts).told
        → others ≡ counts_if options.counts (taken_after [] (run_of (table_of table.old).parts))) }
{
    let others = take_packets(table, options.counts)?;
    let shown = table.shown(alloc, options.top)?;
    table.write_in(options.form, &shown, writer)?;
    Ok(others)
}

// Does the same, and returns which rests of the files were cut, too.
fn report_table<F: PacketFeed, W: Sink>(
    alloc: Global,
    table: &mut Table<F>,
    options: ReportOptions,
    writer: &mut W,
) -> Result<ReportLeft, Fault>
    requires stands { TableStands (table_of table.old) [] }
    ensures text { IsTrue (merged_feed (table_of table.old).parts).told → IsTrue (W.tells_held writer.old)
        → TellsReport (table_of table.old).tally.reads options.form options.top
        (length (table_of table.old).totals.files) (table_of table.old).parts
        (W.held writer.old) result (W.held writer.new) }
    ensures left { IfOk result (λ left. IsTrue (merged_feed (table_of table.old).parts).told
        → LeavesReport options.counts (length (table_of table.old).totals.files) (table_of table.old).parts left) }
    ensures writer { WriterKeeps (writer_of W.Sink writer.old) (is_write result) (writer_of W.Sink writer.new) }
    ensures walks { Walks (merged_feed (table_of table.old).parts) result (merged_feed (table_of table.new).parts) }
{
    let not_ipv4 = write_table(alloc, table, options, writer)?;
    Ok(ReportLeft {
        cuts: table.cuts(),
        not_ipv4,
    })
}

// Writes the report over the packets of a merge, as the options say, and returns what it leaves.
fn report_merged<F: PacketFeed, W: Sink>(
    alloc: Global,
    merged: Merged<F>,
    options: ReportOptions,
    writer: &mut W,
) -> Result<ReportLeft, Fault>
    ensures text { IsTrue (merged_feed (parts_of merged)).told → IsTrue (W.tells_held writer.old)
        → TellsReport options.ipv6 options.form options.top (length (merged_feed (parts_of merged)).files)
        (parts_of merged)
        (W.held writer.old) result (W.held writer.new) }
    ensures left { IfOk result (λ left. IsTrue (merged_feed (parts_of merged)).told
        → LeavesReport options.counts (length (merged_feed (parts_of merged)).files) (parts_of merged) left) }
    ensures writer { WriterKeeps (writer_of W.Sink writer.old) (is_write result) (writer_of W.Sink writer.new) }
    ensures walks { (new : Feed) × Walks (merged_feed (parts_of merged)) result new }
{
    let mut table = Table::reading(alloc, merged, options.ipv6);
    report_table(alloc, &mut table, options, writer)
}

/// Writes the report over 1 to 32 capture files, each of either format: a line for each file, the totals, how
/// many packets there are of each class, the joined datagrams, and a line for each conversation. Packets are
/// taken in the order of exact time: by the greatest time so far in a packet's file, of equal ones by file, then
/// by place in the file.
///
/// The whole report is written, or nothing: `Refused` is the first refusal in that order, of a file or of the
/// packet that would open the 1,048,577th conversation (rule 16, talk-limit). Nothing is written either if a
/// read fails, which is reported by file and offset, or a growth is refused. After `Write` a prefix of the report
/// is written.
pub fn report<R: Source, W: Sink>(
    alloc: Global,
    sources: Vec<R>,
    tail: Tail,
    writer: &mut W,
) -> Result<(), Fault>
    requires some { 1 ≤ vec_len sources }
    requires most { vec_len sources ≤ 32 }
    ensures text { IsTrue (list_all R.tells_coming sources.items) → IsTrue (W.tells_held writer.old)
        → Tells (report_text (length sources.items) (endings_of_files tail (map R.coming sources.items))
        (clocked_run tail (map R.coming sources.items)))
        (report_refusal (clocked_run tail (map R.coming sources.items)))
        (W.held writer.old) result (W.held writer.new) }
    ensures writer { WriterKeeps (writer_of W.Sink writer.old) (is_write result) (writer_of W.Sink writer.new) }
    ensures read { FailsOf (map R.can_fail sources.items) result }
{
    report_in(alloc, sources, tail, Form::Text(TimeForm::Exact), writer)
}

/// Writes the report over 1 to 32 capture files in a form: in text that of `report`, in JSON an object on each line
/// (RFC 8259). The lines of the files are those of `file_lines_in`; after them come, the last one on one line,
///
/// ```text
/// {"type":"total","packets":P,"bytes":B,"truncated":Q}
/// {"type":"frames","other_link":N,"not_ipv4":N,"short":N,"cut":N,"bad":N,"unjoined":N,"counted":N}
/// {"type":"joined","joined":J,"given_up":G}
/// {"type":"talks","talks":C}
/// {"type":"talk","protocol":17,"a":{"address":"10.0.0.1","port":1000},"b":{"address":"10.0.0.2","port":2000},
///  "forward":{"packets":P,"bytes":B},"backward":{"packets":P,"bytes":B},
///  "first":[SEC,NUM,DEN],"last":[SEC,NUM,DEN]}
/// ```
///
/// `protocol` is its number (IANA). An end has no `port` if the protocol has none, and `null` stands in place of a time
/// if there is none. The faults are those of `report`: the whole report is written, or
/// nothing, and after `Write` a prefix of it.
pub fn report_in<R: Source, W: Sink>(
    alloc: Global,
    sources: Vec<R>,
    tail: Tail,
    form: Form,
    writer: &mut W,
) -> Result<(), Fault>
    requires some { 1 ≤ vec_len sources }
    requires most { vec_len sources ≤ 32 }
    ensures text { IsTrue (list_all R.tells_coming sources.items) → IsTrue (W.tells_held writer.old)
        → Tells (report_text_in form (length sources.items) (endings_of_files tail (map R.coming sources.items))
        (clocked_run tail (map R.coming sources.items)))
        (report_refusal (clocked_run tail (map R.coming sources.items)))
        (W.held writer.old) result (W.held writer.new) }
    ensures writer { WriterKeeps (writer_of W.Sink writer.old) (is_write result) (writer_of W.Sink writer.new) }
    ensures read { FailsOf (map R.can_fail sources.items) result }
{
    report_and_count(alloc, sources, tail, form, false, writer).and(Ok(()))
}

/// Writes what `report_in` writes, and returns the faults that it returns, or what is left: the rest of each file that
/// was cut and is dropped, and, if `counts` asks for it, how many packets of the class `NotIpv4` there are of each
/// network.
pub fn report_and_count<R: Source, W: Sink>(
    alloc: Global,
    sources: Vec<R>,
    tail: Tail,
    form: Form,
    counts: bool,
    writer: &mut W,
) -> Result<ReportLeft, Fault>
    requires some { 1 ≤ vec_len sources }
    requires most { vec_len sources ≤ 32 }
    ensures text { IsTrue (list_all R.tells_coming sources.items) → IsTrue (W.tells_held writer.old)
        → Tells (report_text_in form (length sources.items) (endings_of_files tail (map R.coming sources.items))
        (clocked_run tail (map R.coming sources.items)))
        (report_refusal (clocked_run tail (map R.coming sources.items)))
        (W.held writer.old) result (W.held writer.new) }
    ensures cuts { IfOk result (λ left. IsTrue (list_all R.tells_coming sources.items)
        → left.cuts ≡ rests_by_place (endings_of_files tail (map R.coming sources.items)) (length sources.items)) }
    ensures networks { IfOk result (λ left. IsTrue (list_all R.tells_coming sources.items)
        → left.not_ipv4 ≡ counts_if counts (taken_after [] (clocked_run tail (map R.coming sources.items)))) }
    ensures writer { WriterKeeps (writer_of W.Sink writer.old) (is_write result) (writer_of W.Sink writer.new) }
    ensures read { FailsOf (map R.can_fail sources.items) result }
{
    let options = ReportOptions {
        form,
        top: None,
        counts,
        ipv6: false,
    };
    report_with(alloc, sources, tail, options, writer)
}

/// Writes what `report_in` writes. If the options have a number, only so many conversations have a line: those with the
/// most bytes, both ways. The conversation with the most bytes comes first, and those of equal bytes keep their order;
/// the line `talks` counts all. The conversations with the most bytes are found once all packets are taken: nothing is
/// written if a growth is refused then. If they ask for IPv6 it has the conversations of that too, and the refusal of
/// rule 16 is that of the packet that would open the 1,048,577th conversation of both. It returns what
/// `report_and_count` returns.
pub fn report_with<R: Source, W: Sink>(
    alloc: Global,
    sources: Vec<R>,
    tail: Tail,
    options: ReportOptions,
    writer: &mut W,
) -> Result<ReportLeft, Fault>
    requires some { 1 ≤ vec_len sources }
    requires most { vec_len sources ≤ 32 }
    ensures text { IsTrue (list_all R.tells_coming sources.items) → IsTrue (W.tells_held writer.old)
        → Tells (report_for options.ipv6 options.form options.top (length sources.items)
        (endings_of_files tail (map R.coming sources.items)) (clocked_run tail (map R.coming sources.items)))
        (report_refusal_for options.ipv6 (clocked_run tail (map R.coming sources.items)))
        (W.held writer.old) result (W.held writer.new) }
    ensures cuts { IfOk result (λ left. IsTrue (list_all R.tells_coming sources.items)
        → left.cuts ≡ rests_by_place (endings_of_files tail (map R.coming sources.items)) (length sources.items)) }
    ensures networks { IfOk result (λ left. IsTrue (list_all R.tells_coming sources.items)
        → left.not_ipv4 ≡ counts_if options.counts (taken_after [] (clocked_run tail (map R.coming sources.items)))) }
    ensures writer { WriterKeeps (writer_of W.Sink writer.old) (is_write result) (writer_of W.Sink writer.new) }
    ensures read { FailsOf (map R.can_fail sources.items) result }
{
    let merged = merge_files(alloc, sources, tail)?;
    report_merged(alloc, merged, options, writer)
}
