//! What is counted of packets, besides what is reported of files.
ghost use Rattle.std.specs.Prelude.{◌≡◌, ℕ, true, false, ◌+◌, ◌++◌, IsOkUnless, max, ◌≤◌, ◌<◌, ◌^◌, List, []};
ghost use Rattle.std.specs.Prelude.{◌∷◌, length, IsTrue, IsSome, OnOk, OnErr, IfOk, IfErr, Option, Some, None};
ghost use Rattle.std.specs.Prelude.{Err, Ok, if◌then◌else◌, slice_get};
ghost use Rattle.cap_bytes.specs.Device.{WriterKeeps, writer_of};
ghost use Rattle.cap_bytes.specs.Printing.{Prints, is_write};
ghost use Rattle.cap_join.specs.Fragments.{piece_of};
ghost use Rattle.cap_join.specs.Joiners.{most_bytes};
ghost use Rattle.cap_class.specs.Ipv6.{read_in};
ghost use Rattle.cap_class.specs.Runs.{taken_of};
ghost use Rattle.cap_ipv6.specs.Seen.{packet_seen};
ghost use Rattle.cap_talks.specs.inner.table.Looking.{is_plain_for};
ghost use Rattle.cap_print.specs.Facts.{line_in};
ghost use Rattle.cap_talks.specs.table.TakenText.{frames_facts_for, joined_facts};
ghost use Rattle.cap_class.specs.Taken.{Taken, datagram, fragment, classify, plain, stamped_of};
ghost use Rattle.cap_talks.specs.inner.table.Tallies.{TallyStands, LimitBy, one_if_waiting, tally_text_in};
ghost use Rattle.cap_talks.specs.inner.table.Tallies.{counted_one, waiting_bytes};
ghost use Rattle.cap_talks.specs.inner.table.Tallies.{Looks};
ghost use Rattle.cap_talks.specs.inner.table.Tallies.{WaitsIf};
ghost use Rattle.cap_source.specs.Times.{meta_time};
ghost use Rattle.cap_talks.specs.declared.table.conversations.ConversationsFault.TheVariants.{Memory};
ghost use Rattle.cap_talks.specs.inner.table.Ranked.{Shows};
ghost use Rattle.cap_talks.specs.table.Conversations.{Conversation};
ghost use Rattle.cap_talks.specs.table.CountedUnits.{is_limit_for};
ghost use Rattle.cap_talks.specs.table.TopRows.{shown_rows};

use crate::table::adding::{add_ipv4, add_unit, ipv6_unit, joined_unit, whole_unit};
use crate::table::conversations::{Conversations, ConversationsFault};
use crate::table::report_lines::{frames_line, joined_line};
use crate::table::rows::{TalkKey, TalkRow};
use crate::table::talk_lines::put_talks;
use crate::table::top::{Ranked, shown_of};
use cap_bytes::{Fault, Sink, put_all};
use cap_class::{
    Class, ClassCounts, Classified, NO_PACKETS, class_of, classify, count_frames, ipv6_class,
    joined_class, read_ipv6, stamped_of, with_frames, with_group,
};
use cap_ip::{Header, transport};
use cap_ipv6::Ipv6Packet;
use cap_join::{Datagram, Joiner, Put, Stamped};
use cap_merge::RunPacket;
use cap_print::Form;
use cap_time::Stamp;
use std::alloc::Global;
use std::cmp::max;
use std::marker::Model;

/// What is counted of the packets of a run.
#[derive(Drop)]
pub(crate) struct Tally {
    // whether IPv6 packets are read
    reads_ipv6: bool,
    place: u64,
    classes: ClassCounts,
    joined: u64,
    talks: Conversations,
    joiner: Joiner,
    // a joined datagram whose conversation got no memory, or is one too many
    waiting: Option<Datagram>,
}

impl Model for Tally {
    ghost use Rattle.cap_talks.specs.inner.table.Tallies.{TallyState};

    ghost Value = { TallyState };

    ghost use Rattle.cap_talks.specs.inner.table.TallyView.{tally_view, IsSoundTallyInside};

    ghost view = { tally_view };

    ghost invariant = { IsSoundTallyInside };
}

// One, of a class that counts.
fn counted_one(class: Class) -> u64
    ensures { result ≡ counted_one class }
{
    match class {
        Class::Counted => 1,
        _ => 0,
    }
}

impl Tally {
    /// Nothing was taken. IPv6 packets are read or not.
    pub(crate) fn new(alloc: Global, reads_ipv6: bool) -> Tally
        ensures stands { (next : Option Taken) → TallyStands result [] next }
        ensures reads { result.reads ≡ reads_ipv6 }
    {
        Tally {
            reads_ipv6,
            place: 0,
            classes: NO_PACKETS,
            joined: 0,
            talks: Conversations::new(alloc),
            joiner: Joiner::new(alloc),
            waiting: None,
        }
    }

    // Puts a fragment, while no datagram waits: counts it, or completes a datagram, which waits from then on. Returns
    // whether one does.
    fn put_fragment(
        &mut self,
        packet: RunPacket<'_>,
        header: Header,
        bytes: &[u8],
    ) -> Result<bool, ConversationsFault>
        requires none { self.old.waiting ≡ None }
        requires few { self.old.place < 2 ^ 62 }
        requires fragment { IsSome header.fragment }
        requires whole { length bytes.now ≡ header.data_length }
        requires classify { (place : ℕ) → classify place (taken_of packet)
            ≡ fragment (piece_of header bytes.now (stamped_of place packet.meta.now)) }
        ensures looks { IfOk result (λ waits. Looks self.old (taken_of packet.entry) waits self.new) }
        ensures waits { IfOk result (λ waits. WaitsIf self.new.waiting waits) }
        ensures place { IfOk result (λ waits. self.new.place ≡ (if waits then self.old.place else self.old.place + 1)) }
        ensures fault { IfErr result (λ e. e ≡ Memory) }
        ensures grows { OnErr result ((xs : List Taken) → TallyStands self.old xs (Some (taken_of packet.entry))
            → is_plain_for self.old.reads (length xs) (taken_of packet.entry) ≡ false) }
        ensures reads { self.new.reads ≡ self.old.reads }
        ensures err { OnErr result (self.new ≡ self.old) }
    {
        let stamped = stamped_of(self.place, packet.meta.time(), packet.meta);
        match self.joiner.put(*packet.clock, &header, bytes, stamped) {
            Ok(Put::Kept) => {
                self.classes = with_frames(self.classes, Class::Unjoined, 1);
                self.place += 1;
                Ok(false)
            }
            Ok(Put::Joined(datagram)) => {
                self.waiting = Some(datagram);
                Ok(true)
            }
            Err(_) => Err(ConversationsFault::Memory),
        }
    }

    // Counts a whole datagram, while none waits.
    #[inline(always)]
    fn take_datagram(
        &mut self,
        packet: RunPacket<'_>,
        time: Option<Stamp>,
        header: Header,
        captured: &[u8],
    ) -> Result<(), ConversationsFault>
        requires none { self.old.waiting ≡ None }
        requires few { self.old.place < 2 ^ 62 }
        requires time { time ≡ meta_time packet.meta.now }
        requires classify { (place : ℕ) → classify place (taken_of packet) ≡ datagram header captured.now }
        ensures looks { OnOk result (Looks self.old (taken_of packet.entry) false self.new) }
        ensures none { OnOk result (self.new.waiting ≡ None) }
        ensures place { OnOk result (self.new.place ≡ self.old.place + 1) }
        ensures limit { IfErr result (λ e. (xs : List Taken) → TallyStands self.old xs (Some (taken_of packet.entry))
            → LimitBy (Err e) (is_limit_for self.old.reads xs (taken_of packet.entry))) }
        ensures grows { OnErr result ((xs : List Taken) → TallyStands self.old xs (Some (taken_of packet.entry))
            → is_plain_for self.old.reads (length xs) (taken_of packet.entry) ≡ false) }
        ensures reads { self.new.reads ≡ self.old.reads }
        ensures err { OnErr result (self.new ≡ self.old) }
    {
        let seen = transport(header.key().protocol, captured, header.data_length());
        let stamped = stamped_of(self.place, time, packet.meta);
        add_ipv4(
            &mut self.talks,
            &whole_unit(&header, captured, seen, stamped),
        )?;
        self.joiner.flush(header.key());
        count_frames(&mut self.classes, class_of(seen), 1);
        self.place += 1;
        Ok(())
    }

    // Counts a packet that is neither a datagram nor a fragment, while no datagram waits.
    #[inline(always)]
    fn count_plain(&mut self, packet: RunPacket<'_>, class: Class)
        requires none { self.old.waiting ≡ None }
        requires few { self.old.place < 2 ^ 62 }
        requires classify { (place : ℕ) → classify place (taken_of packet) ≡ plain class }
        requires unread { read_in self.old.reads (taken_of packet) ≡ None }
        ensures looks { Looks self.old (taken_of packet.entry) false self.new }
        ensures none { self.new.waiting ≡ None }
        ensures place { self.new.place ≡ self.old.place + 1 }
        ensures reads { self.new.reads ≡ self.old.reads }
    {
        // only the contract speaks of the packet: its class says all that is counted
        let _ = packet;
        self.classes = with_frames(self.classes, class, 1);
        self.place += 1;
    }

    // Counts a packet that is neither a datagram nor a fragment of IPv4, while no datagram waits.
    #[inline(always)]
    fn take_other(
        &mut self,
        packet: RunPacket<'_>,
        time: Option<Stamp>,
        class: Class,
    ) -> Result<(), ConversationsFault>
        requires none { self.old.waiting ≡ None }
        requires few { self.old.place < 2 ^ 62 }
        requires time { time ≡ meta_time packet.meta.now }
        requires classify { (place : ℕ) → classify place (taken_of packet) ≡ plain class }
        ensures looks { OnOk result (Looks self.old (taken_of packet.entry) false self.new) }
        ensures none { OnOk result (self.new.waiting ≡ None) }
        ensures place { OnOk result (self.new.place ≡ self.old.place + 1) }
        ensures limit { IfErr result (λ e. (xs : List Taken) → TallyStands self.old xs (Some (taken_of packet.entry))
            → LimitBy (Err e) (is_limit_for self.old.reads xs (taken_of packet.entry))) }
        ensures grows { OnErr result ((xs : List Taken) → TallyStands self.old xs (Some (taken_of packet.entry))
            → is_plain_for self.old.reads (length xs) (taken_of packet.entry) ≡ false) }
        ensures reads { self.new.reads ≡ self.old.reads }
        ensures err { OnErr result (self.new ≡ self.old) }
    {
        if self.reads_ipv6 {
            return self.take_read(packet, time, class);
        }
        self.count_plain(packet, class);
        Ok(())
    }

    // Counts the same where IPv6 packets are read. It isn't inlined, so that what it returns takes no room where they
    // aren't.
    #[inline(never)]
    fn take_read(
        &mut self,
        packet: RunPacket<'_>,
        time: Option<Stamp>,
        class: Class,
    ) -> Result<(), ConversationsFault>
        requires none { self.old.waiting ≡ None }
        requires few { self.old.place < 2 ^ 62 }
        requires reads { self.old.reads ≡ true }
        requires time { time ≡ meta_time packet.meta.now }
        requires classify { (place : ℕ) → classify place (taken_of packet) ≡ plain class }
        ensures looks { OnOk result (Looks self.old (taken_of packet.entry) false self.new) }
        ensures none { OnOk result (self.new.waiting ≡ None) }
        ensures place { OnOk result (self.new.place ≡ self.old.place + 1) }
        ensures limit { IfErr result (λ e. (xs : List Taken) → TallyStands self.old xs (Some (taken_of packet.entry))
            → LimitBy (Err e) (is_limit_for self.old.reads xs (taken_of packet.entry))) }
        ensures grows { OnErr result ((xs : List Taken) → TallyStands self.old xs (Some (taken_of packet.entry))
            → is_plain_for self.old.reads (length xs) (taken_of packet.entry) ≡ false) }
        ensures reads { self.new.reads ≡ self.old.reads }
        ensures err { OnErr result (self.new ≡ self.old) }
    {
        match read_ipv6(packet.meta, packet.frame) {
            None => {
                self.count_plain(packet, class);
                Ok(())
            }
            Some(read) => self.take_ipv6(packet, time, class, read),
        }
    }

    // Counts an IPv6 packet, while no datagram waits; as any other it has that class.
    #[inline(always)]
    fn take_ipv6(
        &mut self,
        packet: RunPacket<'_>,
        time: Option<Stamp>,
        class: Class,
        read: Ipv6Packet<'_>,
    ) -> Result<(), ConversationsFault>
        requires none { self.old.waiting ≡ None }
        requires few { self.old.place < 2 ^ 62 }
        requires time { time ≡ meta_time packet.meta.now }
        requires classify { (place : ℕ) → classify place (taken_of packet) ≡ plain class }
        requires read { read_in self.old.reads (taken_of packet) ≡ Some (packet_seen read) }
        ensures looks { OnOk result (Looks self.old (taken_of packet.entry) false self.new) }
        ensures none { OnOk result (self.new.waiting ≡ None) }
        ensures place { OnOk result (self.new.place ≡ self.old.place + 1) }
        ensures limit { IfErr result (λ e. (xs : List Taken) → TallyStands self.old xs (Some (taken_of packet.entry))
            → LimitBy (Err e) (is_limit_for self.old.reads xs (taken_of packet.entry))) }
        ensures grows { OnErr result ((xs : List Taken) → TallyStands self.old xs (Some (taken_of packet.entry))
            → is_plain_for self.old.reads (length xs) (taken_of packet.entry) ≡ false) }
        ensures reads { self.new.reads ≡ self.old.reads }
        ensures err { OnErr result (self.new ≡ self.old) }
    {
        // only the contract speaks of the class that it has where IPv6 packets aren't read
        let _ = class;
        let stamped = stamped_of(self.place, time, packet.meta);
        add_unit(&mut self.talks, &ipv6_unit(&read, stamped))?;
        count_frames(&mut self.classes, ipv6_class(&read), 1);
        self.place += 1;
        Ok(())
    }

    // Counts the datagram that waits, and with it the packet that completed it.
    #[inline(never)]
    fn take_waiting(&mut self) -> Result<(), ConversationsFault>
        requires some { IsSome self.old.waiting }
        requires few { self.old.place < 2 ^ 62 }
        ensures stands { OnOk result ((xs : List Taken) (x : Taken) → TallyStands self.old xs (Some x)
            → (is_limit_for self.old.reads xs x ≡ false)
            × ((next : Option Taken) → TallyStands self.new (x ∷ xs) next)) }
        ensures limit { IfErr result (λ e. (xs : List Taken) (x : Taken) → TallyStands self.old xs (Some x)
            → LimitBy (Err e) (is_limit_for self.old.reads xs x)) }
        ensures grows { OnErr result ((xs : List Taken) (x : Taken) → TallyStands self.old xs (Some x)
            → is_plain_for self.old.reads (length xs) x ≡ false) }
        ensures none { OnOk result (self.new.waiting ≡ None) }
        ensures place { OnOk result (self.new.place ≡ self.old.place + 1) }
        ensures reads { self.new.reads ≡ self.old.reads }
        ensures err { OnErr result (self.new ≡ self.old) }
    {
        let Some(datagram) = &self.waiting else {
            unreachable!();
        };
        add_unit(&mut self.talks, &joined_unit(datagram))?;
        let class = joined_class(datagram);
        let frames = datagram.frames;
        self.classes = with_group(self.classes, class, frames);
        self.joined += counted_one(class);
        self.waiting = None;
        self.place += 1;
        Ok(())
    }

    // Takes a fragment, while no datagram waits, and counts the datagram that it completes, if it does. It isn't
    // inlined, so that what it returns takes no room where whole datagrams are taken.
    #[inline(never)]
    fn take_fragment(
        &mut self,
        packet: RunPacket<'_>,
        header: Header,
        bytes: &[u8],
    ) -> Result<(), ConversationsFault>
        requires none { self.old.waiting ≡ None }
        requires few { self.old.place < 2 ^ 62 }
        requires fragment { IsSome header.fragment }
        requires whole { length bytes.now ≡ header.data_length }
        requires classify { (place : ℕ) → classify place (taken_of packet)
            ≡ fragment (piece_of header bytes.now (stamped_of place packet.meta.now)) }
        ensures stands { OnOk result (Looks self.old (taken_of packet.entry) false self.new) }
        ensures limit { IfErr result (λ e. (xs : List Taken) → TallyStands self.old xs (Some (taken_of packet.entry))
            → LimitBy (Err e) (is_limit_for self.old.reads xs (taken_of packet.entry))) }
        ensures grows { OnErr result ((xs : List Taken) → TallyStands self.old xs (Some (taken_of packet.entry))
            → is_plain_for self.old.reads (length xs) (taken_of packet.entry) ≡ false) }
        ensures none { OnOk result (self.new.waiting ≡ None) }
        ensures place { OnOk result (self.new.place ≡ self.old.place + 1) }
        ensures same { OnErr result (self.new.place ≡ self.old.place) }
        ensures reads { self.new.reads ≡ self.old.reads }
        ensures err { OnErr result ((xs : List Taken) → TallyStands self.old xs (Some (taken_of packet.entry))
            → TallyStands self.new xs (Some (taken_of packet.entry))) }
    {
        if self.put_fragment(packet, header, bytes)? {
            return self.take_waiting();
        }
        Ok(())
    }

    /// Takes the packet that comes next, which has that time.
    ///
    /// Returns `Limit` exactly if it completes a unit of a new conversation and there are 1,048,576 already, `Memory`
    /// if a growth was refused; a packet that is no datagram and no fragment needs none. Both leave the counts as they
    /// were, and the same call may be made again; a datagram that the packet joined is kept for it.
    #[inline(always)]
    pub(crate) fn take(
        &mut self,
        packet: RunPacket<'_>,
        time: Option<Stamp>,
    ) -> Result<(), ConversationsFault>
        requires time { time ≡ meta_time packet.meta.now }
        requires few { self.old.place < 2 ^ 62 }
        ensures stands { OnOk result (Looks self.old (taken_of packet.entry) false self.new) }
        ensures limit { IfErr result (λ e. (xs : List Taken) → TallyStands self.old xs (Some (taken_of packet.entry))
            → LimitBy (Err e) (is_limit_for self.old.reads xs (taken_of packet.entry))) }
        ensures grows { OnErr result ((xs : List Taken) → TallyStands self.old xs (Some (taken_of packet.entry))
            → is_plain_for self.old.reads (length xs) (taken_of packet.entry) ≡ false) }
        ensures none { OnOk result (self.new.waiting ≡ None) }
        ensures place { OnOk result (self.new.place ≡ self.old.place + 1) }
        ensures same { OnErr result (self.new.place ≡ self.old.place) }
        ensures reads { self.new.reads ≡ self.old.reads }
        ensures err { OnErr result ((xs : List Taken) → TallyStands self.old xs (Some (taken_of packet.entry))
            → TallyStands self.new xs (Some (taken_of packet.entry))) }
    {
        if self.is_waiting() {
            return self.take_waiting();
        }
        match classify(packet.meta, packet.frame) {
            Classified::Plain(class) => self.take_other(packet, time, class),
            Classified::Datagram(header, captured) => self.take_datagram(
                packet, time, header, captured,
            ),
            Classified::Fragment(header, bytes) => self.take_fragment(packet, header, bytes),
        }
    }

    // Whether a joined datagram waits for its conversation.
    fn is_waiting(&self) -> bool
        ensures { WaitsIf self.now.waiting result }
    {
        match self.waiting {
            None => false,
            Some(_) => true,
        }
    }

    /// The conversations that are shown: the `most` with the most bytes, the greatest first, if a number is given. They
    /// are named by their places; none are named if all are shown. Returns `Memory`, and no other fault, if a growth
    /// was refused; all are shown without one.
    pub(crate) fn shown(
        &self,
        alloc: Global,
        most: Option<u32>,
    ) -> Result<Option<Vec<Ranked>>, Fault>
        ensures shows { IfOk result (λ shown. Shows self.now.talks.rows shown (shown_rows most self.now.talks.rows)) }
        ensures fault { IsOkUnless result Fault.Memory }
        ensures all { most ≡ None → result ≡ Ok None }
    {
        shown_of(alloc, &self.talks, most)
    }

    /// Writes the lines of the classes, of the joined datagrams and of the conversations that are shown, in a form: in
    /// text `frames ..`, `joined J given-up G`, `talks C` and a line for each of those conversations. After `Write` a
    /// prefix of them is written.
    pub(crate) fn put_lines<W: Sink>(
        &self,
        form: Form,
        shown: &Option<Vec<Ranked>>,
        writer: &mut W,
    ) -> Result<(), Fault>
        requires shown { (rows : List Conversation) × Shows self.now.talks.rows shown.now rows }
        ensures text { (rows : List Conversation) → Shows self.now.talks.rows shown.now rows
            → IsTrue (W.tells_held writer.old)
            → Prints (tally_text_in form rows self.now) None (W.held writer.old) result (W.held writer.new) }
        ensures writer { WriterKeeps (writer_of W.Sink writer.old) (is_write result) (writer_of W.Sink writer.new) }
        ensures fault { IsOkUnless result Fault.Write }
    {
        put_counts(
            writer,
            form,
            self.reads_ipv6,
            &self.classes,
            self.joined,
            self.joiner.given_up(),
        )?;
        put_talks(writer, form, &self.talks, shown)
    }

    /// How many groups of fragments are held: the open ones, and a joined datagram that waits. At most 1,024.
    pub(crate) fn groups(&self) -> usize
        ensures value { result ≡ length self.now.joiner.groups + one_if_waiting self.now.waiting }
        ensures bound { result ≤ 1024 }
    {
        self.joiner.open_count() + waiting_count(&self.waiting)
    }

    /// The bytes of the largest of them: at most 65,520.
    pub(crate) fn group_bytes(&self) -> usize
        ensures value { result ≡ max (most_bytes self.now.joiner.groups) (waiting_bytes self.now.waiting) }
        ensures bound { result ≤ 65520 }
    {
        max(self.joiner.held_bytes(), waiting_bytes(&self.waiting))
    }

    /// How many packets there are of each class.
    pub(crate) fn classes(&self) -> ClassCounts
        ensures { result ≡ self.now.classes }
    {
        self.classes
    }

    /// How many joined datagrams count.
    pub(crate) fn joined(&self) -> u64
        ensures { result ≡ self.now.joined }
    {
        self.joined
    }

    /// How many groups of fragments were given up.
    pub(crate) fn given_up(&self) -> u64
        ensures { result ≡ self.now.joiner.given_up }
    {
        self.joiner.given_up()
    }

    /// The conversation at a place in the order of their first units, and its row; `None` past the last.
    pub(crate) fn talk(&self, place: usize) -> Option<(TalkKey, TalkRow)>
        ensures { result ≡ slice_get self.now.talks.rows place }
    {
        self.talks.get(place)
    }

    /// How many conversations there are: at most 1,048,576.
    pub(crate) fn talks(&self) -> usize
        ensures value { result ≡ length self.now.talks.rows }
        ensures bound { result ≤ 1048576 }
    {
        self.talks.len()
    }
}

// Writes the lines of the classes and of the joined datagrams, in a form.
fn put_counts<W: Sink>(
    writer: &mut W,
    form: Form,
    reads_ipv6: bool,
    classes: &ClassCounts,
    joined: u64,
    given_up: u64,
) -> Result<(), Fault>
    ensures text { IsTrue (W.tells_held writer.old)
        → Prints (line_in form (frames_facts_for reads_ipv6 classes.now)
        ++ line_in form (joined_facts joined given_up)) None
        (W.held writer.old) result (W.held writer.new) }
    ensures writer { WriterKeeps (writer_of W.Sink writer.old) (is_write result) (writer_of W.Sink writer.new) }
    ensures fault { IsOkUnless result Fault.Write }
{
    let line = frames_line(form, reads_ipv6, classes);
    put_all(writer, line.as_slice())?;
    let line = joined_line(form, joined, given_up);
    put_all(writer, line.as_slice())
}

// One, if a datagram waits.
fn waiting_count(waiting: &Option<Datagram>) -> usize
    ensures { result ≡ one_if_waiting waiting.now }
{
    match waiting {
        None => 0,
        Some(_) => 1,
    }
}

// How many bytes of data a datagram has that waits.
fn waiting_bytes(waiting: &Option<Datagram>) -> usize
    ensures { result ≡ waiting_bytes waiting.now }
{
    match waiting {
        None => 0,
        Some(datagram) => datagram.payload.len(),
    }
}
