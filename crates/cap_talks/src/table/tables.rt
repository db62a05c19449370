//! The table of a report, step by step.
ghost use Rattle.std.specs.Prelude.{◌≡◌, ◌+◌, ◌≤◌, ◌^◌, ◌||◌, List, [], not, false, length, IsTrue, IsOkUnless, Some};
ghost use Rattle.std.specs.Prelude.{None, Ok, IfOk, if◌then◌else◌, ◌-◌, nat_le, slice_get};
ghost use Rattle.std.specs.List.{range_with_len};
ghost use Rattle.cap_bytes.specs.Device.{WriterKeeps, writer_of};
ghost use Rattle.cap_bytes.specs.Printing.{Prints, is_write};
ghost use Rattle.cap_merge.specs.Parts.{merged_feed, is_end_head};
ghost use Rattle.cap_merge.specs.inner.View.{parts_of};
ghost use Rattle.cap_source.specs.Feed.{HasFile};
ghost use Rattle.cap_talks.specs.inner.table.Props.{IsNumbered-prop};
ghost use Rattle.cap_talks.specs.counts.FileLines.{counted_cuts, ended_from, ending_at};
ghost use Rattle.cap_talks.specs.inner.table.Holding.{held_of};
ghost use Rattle.cap_talks.specs.inner.table.Stepping.{TableStands, StepKeeps, TableSteps, AnswersAgain};
ghost use Rattle.cap_talks.specs.inner.table.Others.{SeesNext};
ghost use Rattle.cap_talks.specs.inner.table.Stepping.{endings_so_far};
ghost use Rattle.cap_talks.specs.table.CountedUnits.{limit_refusal};
ghost use Rattle.cap_talks.specs.inner.table.Ranked.{Shows};
ghost use Rattle.cap_talks.specs.table.Conversations.{Conversation};
ghost use Rattle.cap_talks.specs.table.TableCounts.{file_counted, talk_at, talks_for, totals_for};
ghost use Rattle.cap_talks.specs.table.TakenText.{text_for, text_showing_for};
ghost use Rattle.cap_print.specs.declared.forms.Form.TheVariants.{Text};
ghost use Rattle.cap_print.specs.declared.forms.TimeForm.TheVariants.{Exact};
ghost use Rattle.cap_talks.specs.table.TopRows.{shown_rows};
ghost use Rattle.cap_class.specs.Taken.{Taken};

use crate::counts::{Counted, Counts, cuts_of, put_files};
use crate::table::conversations::ConversationsFault;
use crate::table::report_lines::total_line;
use crate::table::rows::{TalkKey, TalkRow};
use crate::table::tallies::Tally;
use crate::table::top::Ranked;
use crate::table::totals::Totals;
use arrayvec::ArrayVec;
use cap_bytes::{CutRest, Fault, Refusal, Rule, Sink, put_all};
use cap_class::ClassCounts;
use cap_link::{OtherNetwork, other_network};
use cap_merge::Merged;
use cap_print::{Form, TimeForm};
use cap_source::{Ending, Meta, PacketFeed};
use std::alloc::Global;

/// What a step did.
#[derive(Clone, Copy, Debug, PartialEq, Eq)]
pub enum Step {
    /// It took the packet that came next.
    Took,
    /// No packet is left.
    Done,
}

/// What a table holds: the lengths of its buffers and tables themselves.
#[derive(Clone, Copy, Debug, PartialEq, Eq)]
pub struct Held {
    /// The bytes of the largest window's buffer: at most 524,288.
    pub window: u64,
    /// The most interfaces of a file's present section: at most 1,024.
    pub interfaces: u64,
    /// The open groups of fragments, and a joined datagram that waits for its conversation: at most 1,024.
    pub groups: u64,
    /// The bytes of the largest of these: at most 65,520.
    pub group_bytes: u64,
    /// The conversations: at most 1,048,576.
    pub talks: u64,
}

/// What is counted of all packets that a table has taken.
#[derive(Clone, Copy, Debug, PartialEq, Eq)]
pub struct TableTotals {
    /// How many packets there are.
    pub packets: u64,
    /// The sum of their original lengths, in bytes: below 2^77.
    pub bytes: u128,
    /// How many of them had more bytes than were captured.
    pub truncated: u64,
    /// How many there are of each class.
    pub classes: ClassCounts,
    /// How many datagrams were joined from fragments, and count in a conversation.
    pub joined: u64,
    /// How many groups of fragments were given up.
    pub given_up: u64,
}

/// The table of a report: what is counted of the packets that a merge of files gives, packet by packet.
#[derive(Drop)]
pub struct Table<F: PacketFeed> {
    merged: Merged<F>,
    totals: Totals,
    tally: Tally,
    // whether the files are at their end
    done: bool,
    ghost numbered: { (merged_feed (parts_of merged)).files ≡ range_with_len 1 (length totals.files) } by { IsNumbered-prop _ _ },
    ghost finished: { IsTrue (not done || is_end_head (merged_feed (parts_of merged)).known) },
    ghost counted: { totals.packets ≡ tally.place },
    ghost places: { tally.place + (merged_feed (parts_of merged)).left ≤ 2 ^ 45 },
}

// The refusal of a packet whose conversation is one too many.
fn talk_limit(meta: &Meta) -> Refusal
    ensures { result ≡ limit_refusal meta.now }
{
    Refusal {
        file: meta.file,
        offset: meta.offset,
        rule: Rule::TalkLimit,
    }
}

impl<F: PacketFeed> Table<F> {
    ghost use Rattle.cap_talks.specs.inner.table.TableView.{table_of};

    /// The table of a merge of files, before it takes a packet. It doesn't read IPv6 packets.
    pub fn new(alloc: Global, merged: Merged<F>) -> Table<F>
        ensures stands { TableStands (table_of result) [] }
        ensures parts { (table_of result).parts ≡ parts_of merged }
        ensures files { length (table_of result).totals.files ≡ length (merged_feed (parts_of merged)).files }
        ensures going { (table_of result).done ≡ false }
        ensures reads { (table_of result).tally.reads ≡ false }
    {
        Table::reading(alloc, merged, false)
    }

    /// The table of a merge of files, before it takes a packet. It has the conversations of IPv6 beside those of IPv4
    /// if IPv6 packets are read; else they count as `NotIpv4`, or as `OtherLink` if their link type is 229 IPV6.
    pub fn reading(alloc: Global, merged: Merged<F>, ipv6: bool) -> Table<F>
        ensures stands { TableStands (table_of result) [] }
        ensures parts { (table_of result).parts ≡ parts_of merged }
        ensures files { length (table_of result).totals.files ≡ length (merged_feed (parts_of merged)).files }
        ensures going { (table_of result).done ≡ false }
        ensures reads { (table_of result).tally.reads ≡ ipv6 }
    {
        let totals = Totals::new(merged.files());
        Table {
            merged,
            totals,
            tally: Tally::new(alloc, ipv6),
            done: false,
        }
    }

    /// Takes the packet that comes next, or returns `Done` if none is left, now and at each later call.
    ///
    /// Returns `Refused` exactly if what comes next is a refusal, or a packet that would open the 1,048,577th
    /// conversation (rule 16, talk-limit); each later call returns it again. Returns `Read` if a device failed, and
    /// `Memory` if a growth was refused. A step that returns a fault has taken nothing: the table is as it was, and so
    /// are the packets to come, unless it was `Read`.
    pub fn step(&mut self) -> Result<Step, Fault>
        ensures step { TableSteps (table_of self.old) result (table_of self.new) }
        ensures keeps { StepKeeps (table_of self.old) (table_of self.new) }
        ensures again { AnswersAgain (merged_feed (table_of self.old).parts).known result }
    {
        if !self.merged.peek()? {
            self.done = true;
            return Ok(Step::Done);
        }
        let packet = self.merged.next_packet();
        let time = packet.meta.time();
        match self.tally.take(packet, time) {
            Ok(()) => {
                self.totals.take(time, packet.meta, packet.frame);
                self.merged.pass();
                Ok(Step::Took)
            }
            Err(ConversationsFault::Limit) => Err(Fault::Refused(talk_limit(packet.meta))),
            Err(ConversationsFault::Memory) => Err(Fault::Memory),
        }
    }

    /// The network of the packet that comes next, if one does and that isn't IPv4. It faults as `step` does, and takes
    /// nothing: `step` takes that packet next.
    pub(crate) fn peek_network(&mut self) -> Result<Option<OtherNetwork>, Fault>
        ensures sees { SeesNext (table_of self.old) result (table_of self.new) }
        ensures keeps { StepKeeps (table_of self.old) (table_of self.new) }
    {
        if !self.merged.peek()? {
            return Ok(None);
        }
        let packet = self.merged.next_packet();
        Ok(other_network(packet.meta.interface.link, packet.frame))
    }

    /// Writes the report over the packets that were taken. Until `step` has returned `Done` it doesn't say how the
    /// files end: a file of which no packet was taken has the format `-`, the blocks that were skipped are those
    /// before the last packet that was taken, and no line says `cut`. It takes no memory, and can be called at any
    /// time. After `Write` a prefix of the report is written.
    pub fn write_so_far<W: Sink>(&self, writer: &mut W) -> Result<(), Fault>
        ensures text { (xs : List Taken) → TableStands (table_of self.now) xs → IsTrue (W.tells_held writer.old)
            → Prints (text_for (table_of self.now).tally.reads (Text Exact) (length (table_of self.now).totals.files)
            (endings_so_far (table_of self.now)) xs) None
            (W.held writer.old) result (W.held writer.new) }
        ensures writer { WriterKeeps (writer_of W.Sink writer.old) (is_write result) (writer_of W.Sink writer.new) }
        ensures fault { IsOkUnless result Fault.Write }
    {
        self.write_in(Form::Text(TimeForm::Exact), &None, writer)
    }

    /// How many conversations there are, of the packets that were taken: as many as `write_so_far` writes lines of.
    pub fn talks(&self) -> usize
        ensures value { (xs : List Taken) → TableStands (table_of self.now) xs
            → result ≡ length (talks_for (table_of self.now).tally.reads xs) }
        ensures bound { result ≤ 1048576 }
    {
        self.tally.talks()
    }

    /// The conversation at a place, counted from 0, in the order of their lines, and what is counted of it; `None` past
    /// the last. No conversation changes its place when more packets are taken.
    pub fn talk(&self, place: usize) -> Option<(TalkKey, TalkRow)>
        ensures value { (xs : List Taken) → TableStands (table_of self.now) xs
            → result ≡ talk_at (table_of self.now).tally.reads xs place }
    {
        self.tally.talk(place)
    }

    /// How many files it has: at most 32.
    pub fn files(&self) -> usize
        ensures value { result ≡ length (table_of self.now).totals.files }
        ensures bound { result ≤ 32 }
    {
        self.totals.files().len()
    }

    /// What is counted of the packets that were taken of the file of that number, counted from 1, and how it has ended,
    /// once `step` has returned `Done`; `None` if there is no such file.
    pub fn file(&self, number: u32) -> Option<Counted>
        ensures value { (xs : List Taken) → TableStands (table_of self.now) xs
            → result ≡ file_counted (length (table_of self.now).totals.files) (endings_so_far (table_of self.now)) xs
            number }
    {
        let counts = counts_at(self.totals.files(), number)?;
        Some(Counted {
            counts,
            ending: ending_of(&self.merged, self.done, number),
        })
    }

    /// What is counted of all packets that were taken.
    pub fn totals(&self) -> TableTotals
        ensures value { (xs : List Taken) → TableStands (table_of self.now) xs
            → result ≡ totals_for (table_of self.now).tally.reads xs }
    {
        let (totals, tally) = (&self.totals, &self.tally);
        TableTotals {
            packets: totals.packets(),
            bytes: totals.bytes(),
            truncated: totals.truncated(),
            classes: tally.classes(),
            joined: tally.joined(),
            given_up: tally.given_up(),
        }
    }

    /// The conversations that are shown: the `most` with the most bytes, the greatest first, if a number is given. They
    /// are named by their places; none are named if all are shown. Returns `Memory`, and no other fault, if a growth
    /// was refused; all are shown without one.
    pub(crate) fn shown(
        &self,
        alloc: Global,
        most: Option<u32>,
    ) -> Result<Option<Vec<Ranked>>, Fault>
        ensures shows { IfOk result (λ shown. Shows (table_of self.now).tally.talks.rows shown
            (shown_rows most (table_of self.now).tally.talks.rows)) }
        ensures fault { IsOkUnless result Fault.Memory }
        ensures all { most ≡ None → result ≡ Ok None }
    {
        self.tally.shown(alloc, most)
    }

    /// Writes what `write_so_far` writes, in a form and with the lines of the conversations that are shown alone.
    pub(crate) fn write_in<W: Sink>(
        &self,
        form: Form,
        shown: &Option<Vec<Ranked>>,
        writer: &mut W,
    ) -> Result<(), Fault>
        requires shown { (rows : List Conversation) × Shows (table_of self.now).tally.talks.rows shown.now rows }
        ensures text { (xs : List Taken) (rows : List Conversation) → TableStands (table_of self.now) xs
            → Shows (table_of self.now).tally.talks.rows shown.now rows → IsTrue (W.tells_held writer.old)
            → Prints (text_showing_for (table_of self.now).tally.reads form rows
            (length (table_of self.now).totals.files)
            (endings_so_far (table_of self.now)) xs)
            None (W.held writer.old) result (W.held writer.new) }
        ensures writer { WriterKeeps (writer_of W.Sink writer.old) (is_write result) (writer_of W.Sink writer.new) }
        ensures fault { IsOkUnless result Fault.Write }
    {
        let totals = &self.totals;
        let counted = with_endings(&self.merged, totals.files(), self.done);
        put_files(writer, form, counted.as_slice())?;
        let line = total_line(form, totals.packets(), totals.bytes(), totals.truncated());
        put_all(writer, line.as_slice())?;
        self.tally.put_lines(form, shown, writer)
    }

    /// The rest of each file, by its place, that was cut and is dropped, once `step` has returned `Done`: none before.
    /// The places that no file has are empty.
    pub(crate) fn cuts(&self) -> [Option<CutRest>; 32]
        ensures { result ≡ counted_cuts (ended_from (endings_so_far (table_of self.now)) 1
            (table_of self.now).totals.files) }
    {
        let counted = with_endings(&self.merged, self.totals.files(), self.done);
        cuts_of(counted.as_slice())
    }

    /// What the table holds of its files, of groups of fragments and of conversations.
    pub fn held(&self) -> Held
        ensures value { result ≡ held_of (table_of self.now) }
        ensures window { result.window ≤ 524288 }
        ensures interfaces { result.interfaces ≤ 1024 }
        ensures groups { result.groups ≤ 1024 }
        ensures group_bytes { result.group_bytes ≤ 65520 }
        ensures talks { result.talks ≤ 1048576 }
    {
        let feed = self.merged.feed_held();
        let tally = &self.tally;
        Held {
            window: feed.window,
            interfaces: feed.interfaces,
            groups: tally.groups() as u64,
            group_bytes: tally.group_bytes() as u64,
            talks: tally.talks() as u64,
        }
    }
}

// What is counted of the file of that number, counted from 1, if there is one.
fn counts_at(counts: &[Counts], number: u32) -> Option<Counts>
    ensures { result ≡ (if nat_le 1 number then slice_get counts.now (number - 1) else None) }
{
    if number == 0 {
        return None;
    }
    counts.get(number as usize - 1).copied()
}

// How the file of that number ended, once all have.
fn ending_of<F: PacketFeed>(merged: &Merged<F>, done: bool, file: u32) -> Option<Ending>
    requires end { IsTrue (not done || is_end_head (merged_feed (parts_of merged.now)).known) }
    requires file { HasFile (merged_feed (parts_of merged.now)).files file }
    ensures { result ≡ ending_at (if done then Some (merged_feed (parts_of merged.now)).endings else None) file }
{
    if done {
        Some(merged.ending(file))
    } else {
        None
    }
}

// What is counted of each file, by number, with how it ended, once all have.
fn with_endings<F: PacketFeed>(
    merged: &Merged<F>,
    counts: &[Counts],
    done: bool,
) -> ArrayVec<Counted, 32>
    requires end { IsTrue (not done || is_end_head (merged_feed (parts_of merged.now)).known) }
    requires numbered { (merged_feed (parts_of merged.now)).files ≡ range_with_len 1 (length counts.now) }
    requires few { length counts.now ≤ 32 }
    ensures { result.items ≡ ended_from (if done then Some (merged_feed (parts_of merged.now)).endings else None) 1
        counts.now }
{
    let mut counted = ArrayVec::new();
    for (place, each) in counts.iter().enumerate() {
        counted.push(Counted {
            counts: *each,
            ending: ending_of(merged, done, place as u32 + 1),
        });
    }
    counted
}
