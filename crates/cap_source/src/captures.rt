//! The packets of one capture file.
ghost use Rattle.std.specs.Prelude.{◌≡◌, [], ◌∷◌, ℕ, None, IfOk, IsTrue, false};
ghost use Rattle.std.proofs.Props.{props};
ghost use Rattle.cap_bytes.specs.inner.SourceState.{source_of};
ghost use Rattle.cap_source.specs.Feed.{FeedKeeps, GivesHead, KeepsItems, FindsPacket, FindsItem, IsLast, IsPacket};
ghost use Rattle.cap_source.specs.Feed.{FeedPasses};
ghost use Rattle.cap_bytes.specs.inner.Window.{opened_window};
ghost use Rattle.cap_source.specs.Items.{beginning, counted_ending, file_items, file_ending, file_first, fresh};
ghost use Rattle.cap_source.specs.inner.FileState.{file_feed, GivesFirst, KeepsFirst, IsSoundFile};
ghost use Rattle.cap_source.specs.inner.FileState.{FileAnswers, FileKeeps, FileTakes, IfTaken, LearnsNext, ReadsTo};
ghost use Rattle.cap_source.specs.inner.FileState.{ShowsNext, TakesShown};
ghost use Rattle.cap_source.specs.inner.Fronts.{FrontsAnswer, FrontsFind, FrontsPass, unread_fronts};
ghost use Rattle.cap_source.specs.inner.Laws.{captures_lawful};
ghost use Rattle.cap_source.specs.inner.PeekSlotView.{with_reader};
ghost use Rattle.cap_source.specs.inner.SectionState.{progress_of};
ghost use Rattle.cap_source.specs.inner.Readers.{reader_file_state, is_there, reader_room};

use crate::feeds::{Ending, FeedHeld, FileEnd, Head, PacketFeed, SkippedKinds};
use crate::opening::open;
use crate::packets::Meta;
use crate::pcap::{ending_of_pcap, next_of_pcap};
use crate::pcapng::{ending_of_blocks, next_of_blocks};
use crate::peek_slots::PeekSlot;
use crate::readers::{
    Peeked, Reader, ending_of, failed_of, held_of, last_of, noted_of, number_of, part_of,
};
use crate::section_states::{SectionState, beginning};
use crate::{pcap, pcapng};
use cap_bytes::{Fault, Source, Tail, Window};
use cap_time::Interface;
use std::alloc::Global;

/// The packets of one capture file, of either format. It keeps no more of the file than its window shows,
/// and the interfaces of the section that is being read.
#[derive(Drop)]
pub struct Capture<R: Source> {
    reader: Reader<R>,
    reached: SectionState,
    // what comes next, once it was asked for
    next: PeekSlot,
    ghost there: { IsTrue (is_there reader) },
    ghost room: { IsTrue (reader_room reader reached) },
    ghost prepared: { with_reader reader next.meta ≡ next.meta },
    ghost sound: { IsSoundFile (reader_file_state reader (progress_of reached)) next.next } by { Prim.hlevel props },
}

impl<R: Source> Capture<R> {
    ghost use Rattle.cap_source.specs.inner.Captures.{capture_number, capture_first, position_of, unread_position};
    ghost use Rattle.cap_source.specs.inner.Captures.{capture_file, ReadsToPacket};
    ghost use Rattle.cap_source.specs.inner.Captures.{capture_fronts};

    /// The packets that `reader` gives, which is the file of that number. It reads nothing yet, so a faulty
    /// file header is the first item.
    pub fn new(alloc: Global, reader: R, file: u32, tail: Tail) -> Capture<R>
        ensures files { (⟦<Capture<R> as PacketFeed>⟧.feed result).files ≡ file ∷ [] }
        ensures told { (⟦<Capture<R> as PacketFeed>⟧.feed result).told ≡ R.tells_coming reader }
        ensures items { (⟦<Capture<R> as PacketFeed>⟧.feed result).items ≡ file_items tail file (R.coming reader) }
        ensures endings { (n : ℕ) → (⟦<Capture<R> as PacketFeed>⟧.feed result).endings n
            ≡ file_ending tail file (R.coming reader) }
        ensures known { (⟦<Capture<R> as PacketFeed>⟧.feed result).known ≡ None }
        ensures whole { (⟦<Capture<R> as PacketFeed>⟧.feed result).broken ≡ None }
        ensures can_fail { (⟦<Capture<R> as PacketFeed>⟧.feed result).can_fail file ≡ R.can_fail reader }
        ensures held { (⟦<Capture<R> as PacketFeed>⟧.feed result).held
            ≡ record { window = 0; interfaces = 0; failed = R.has_failed reader } }
        ensures first { capture_first result ≡ file_first tail file (R.coming reader) }
        ensures number { capture_number result ≡ file }
        ensures position { position_of result ≡ unread_position (source_of R.Source reader) }
        ensures fronts { capture_fronts result
            ≡ unread_fronts (opened_window file (source_of R.Source reader)) tail fresh }
    {
        Capture::with_comments(alloc, reader, file, tail, false)
    }

    /// The same packets, of a file whose comments are counted if that is asked for: those of its sections, interfaces
    /// and packets. Packets are read more slowly then.
    pub fn with_comments(
        alloc: Global,
        reader: R,
        file: u32,
        tail: Tail,
        comments: bool,
    ) -> Capture<R>
        ensures files { (⟦<Capture<R> as PacketFeed>⟧.feed result).files ≡ file ∷ [] }
        ensures told { (⟦<Capture<R> as PacketFeed>⟧.feed result).told ≡ R.tells_coming reader }
        ensures items { (⟦<Capture<R> as PacketFeed>⟧.feed result).items ≡ file_items tail file (R.coming reader) }
        ensures endings { (n : ℕ) → (⟦<Capture<R> as PacketFeed>⟧.feed result).endings n
            ≡ counted_ending comments tail file (R.coming reader) }
        ensures known { (⟦<Capture<R> as PacketFeed>⟧.feed result).known ≡ None }
        ensures whole { (⟦<Capture<R> as PacketFeed>⟧.feed result).broken ≡ None }
        ensures can_fail { (⟦<Capture<R> as PacketFeed>⟧.feed result).can_fail file ≡ R.can_fail reader }
        ensures held { (⟦<Capture<R> as PacketFeed>⟧.feed result).held
            ≡ record { window = 0; interfaces = 0; failed = R.has_failed reader } }
        ensures first { capture_first result ≡ file_first tail file (R.coming reader) }
        ensures number { capture_number result ≡ file }
        ensures position { position_of result ≡ unread_position (source_of R.Source reader) }
        ensures fronts { capture_fronts result
            ≡ unread_fronts (opened_window file (source_of R.Source reader)) tail (beginning comments) }
    {
        Capture {
            reader: Reader::Unread(Window::new(alloc, reader, file), tail),
            reached: beginning(alloc, comments),
            next: PeekSlot::new(),
        }
    }

    /// The number of the file.
    pub fn file(&self) -> u32
        ensures file { result ≡ capture_number self.now }
    {
        number_of(&self.reader)
    }

    /// The first interface of the file that stands before what comes next: before the first item if
    /// nothing was passed. `Read` and `Memory` come as of `head`, which is known afterwards.
    pub fn first(&mut self) -> Result<Option<Interface>, Fault>
        ensures answer { GivesFirst (⟦<Capture<R> as PacketFeed>⟧.feed self.old) (capture_first self.old) result
            (⟦<Capture<R> as PacketFeed>⟧.feed self.new) }
        ensures keeps { FeedKeeps (⟦<Capture<R> as PacketFeed>⟧.feed self.old)
            (⟦<Capture<R> as PacketFeed>⟧.feed self.new) }
        ensures items { IsTrue (⟦<Capture<R> as PacketFeed>⟧.feed self.old).told
            → KeepsFirst (⟦<Capture<R> as PacketFeed>⟧.feed self.old) (capture_first self.old) result
            (⟦<Capture<R> as PacketFeed>⟧.feed self.new) (capture_first self.new) }
        ensures reads { IfOk result (λ _. IsPacket (⟦<Capture<R> as PacketFeed>⟧.feed self.new).known
            → ReadsToPacket (position_of self.old) (position_of self.new)) }
        ensures most { (position_of self.new).most ≡ (position_of self.old).most }
    {
        self.learn()?;
        Ok(noted_of(&self.reader, &self.reached))
    }

    /// How the file ended, or how far it was read before it was refused.
    pub fn file_end(&self) -> FileEnd
        requires last { IsLast (⟦<Capture<R> as PacketFeed>⟧.feed self.now).known }
        ensures end { (file : ℕ) → result ≡ (⟦<Capture<R> as PacketFeed>⟧.feed self.now).endings file }
    {
        last_of(self.next.get())
    }

    /// What the file has up to the record or block that is read next: `None` before its format is known.
    pub fn so_far(&self) -> Option<FileEnd>
        ensures { result ≡ (capture_fronts self.now).so_far }
    {
        match &self.reader {
            Reader::Unread(_, _) | Reader::Moved => None,
            Reader::Pcap(_) => Some(ending_of_pcap(None)),
            Reader::Pcapng(_) => Some(ending_of_blocks(&self.reached, None)),
        }
    }

    // Learns what comes next, unless it is known.
    #[inline(always)]
    fn learn(&mut self) -> Result<(), Fault>
        ensures answer { LearnsNext (capture_file self.old) self.old.next.next result (capture_file self.new)
            self.new.next.next }
        ensures reaches { IfOk result (λ _. IfTaken self.new.next.next
            (ReadsTo (capture_file self.old) (capture_file self.new))) }
        ensures fronts { self.old.next.next ≡ None → IsTrue (capture_fronts self.old).told
            → FrontsAnswer (capture_fronts self.old) result self.new.next.next (capture_fronts self.new) }
        ensures keeps { FileKeeps (capture_file self.old) (capture_file self.new) }
    {
        if self.next.is_some() {
            return Ok(());
        }
        if self.try_next_buffered() {
            return Ok(());
        }
        self.find()
    }

    // Learns which packet comes next, unless that is known, if the window shows it already. Returns whether a packet
    // is known then.
    #[inline(always)]
    fn try_peek(&mut self) -> bool
        ensures answer { ShowsNext (capture_file self.old) self.old.next.next result (capture_file self.new)
            self.new.next.next }
        ensures keeps { FileKeeps (capture_file self.old) (capture_file self.new) }
    {
        if self.next.is_some() {
            return self.next.is_packet();
        }
        self.try_next_buffered() && self.next.is_packet()
    }

    // Learns which packet comes next, if the window shows it already. Returns whether it did: if not, nothing has
    // changed.
    #[inline(always)]
    fn try_next_buffered(&mut self) -> bool
        requires { self.old.next.next ≡ None }
        ensures answer { TakesShown (capture_file self.old) result self.new.next.next (capture_file self.new) }
        ensures reaches { IsTrue result → FileTakes (capture_file self.old) (capture_file self.new) }
        ensures fronts { IsTrue (capture_fronts self.old).told → IsTrue result → IfTaken self.new.next.next
            (FrontsPass (capture_fronts self.old) self.new.next.next (capture_fronts self.new)) }
        ensures keeps { FileKeeps (capture_file self.old) (capture_file self.new) }
        ensures none { result ≡ false → (capture_file self.new ≡ capture_file self.old) × (self.new.next.next ≡ None)
            × (capture_fronts self.new ≡ capture_fronts self.old) }
    {
        // the commonest format is asked for first, in place of a jump by a table
        if let Reader::Pcap(reader) = &mut self.reader {
            return pcap::try_next_buffered(reader, &mut self.next);
        }
        match &mut self.reader {
            Reader::Pcapng(reader) => pcapng::try_next_buffered(
                reader,
                &self.reached,
                &mut self.next,
            ),
            _ => false,
        }
    }

    // Learns what comes next, which isn't shown yet. It is written where it is kept, since copies of it cost more than
    // reading it.
    #[inline(never)]
    fn find(&mut self) -> Result<(), Fault>
        requires { self.old.next.next ≡ None }
        ensures answer { FileAnswers (capture_file self.old) result self.new.next.next (capture_file self.new) }
        ensures reaches { IfOk result (λ _. IfTaken self.new.next.next
            (FileTakes (capture_file self.old) (capture_file self.new))) }
        ensures fronts { IsTrue (capture_fronts self.old).told
            → FrontsAnswer (capture_fronts self.old) result self.new.next.next (capture_fronts self.new) }
        ensures keeps { FileKeeps (capture_file self.old) (capture_file self.new) }
    {
        open(&mut self.reader)?;
        match &mut self.reader {
            Reader::Pcap(reader) => next_of_pcap(reader, &mut self.next),
            Reader::Pcapng(reader) => next_of_blocks(reader, &mut self.reached, &mut self.next),
            _ => unreachable!(),
        }
    }
}

impl<R: Source> PacketFeed for Capture<R> {
    ghost use Rattle.cap_source.specs.inner.Captures.{capture_feed, position_of, ReadsForHead};
    ghost use Rattle.cap_source.specs.inner.Captures.{ReadsForPacket};
    ghost use Rattle.cap_source.specs.inner.Captures.{capture_fronts};

    ghost feed = { λ c. file_feed (reader_file_state c.reader (progress_of c.reached)) c.next.next };

    fn head(&mut self) -> Result<Head, Fault>
        ensures answer { GivesHead (capture_feed self.old) result (capture_feed self.new) }
        ensures keeps { FeedKeeps (capture_feed self.old) (capture_feed self.new) }
        ensures items { IsTrue (capture_feed self.old).told
            → KeepsItems (capture_feed self.old) result (capture_feed self.new) }
        ensures reads { ReadsForHead (position_of self.old) result (position_of self.new) }
        ensures most { (position_of self.new).most ≡ (position_of self.old).most }
    {
        self.learn()?;
        match self.next.get() {
            Some(Peeked::Packet(meta, _)) => Ok(Head::Packet(meta)),
            Some(Peeked::Refused(refusal, _)) => Ok(Head::Refused(refusal)),
            Some(Peeked::End(_)) => Ok(Head::End),
            None => unreachable!(),
        }
    }

    #[inline(always)]
    fn peek(&mut self) -> Result<bool, Fault>
        ensures answer { FindsPacket (capture_feed self.old) result (capture_feed self.new) }
        ensures keeps { FeedKeeps (capture_feed self.old) (capture_feed self.new) }
        ensures items { IsTrue (capture_feed self.old).told
            → FindsItem (capture_feed self.old) result (capture_feed self.new) }
        ensures reads { ReadsForPacket (position_of self.old) result (position_of self.new) }
        ensures fronts { IsTrue (capture_fronts self.old).told → (capture_feed self.old).known ≡ None
            → FrontsFind (capture_fronts self.old) result (capture_feed self.new).known (capture_fronts self.new) }
        ensures most { (position_of self.new).most ≡ (position_of self.old).most }
    {
        self.learn()?;
        match self.next.get() {
            Some(Peeked::Packet(_, _)) => Ok(true),
            Some(Peeked::Refused(refusal, _)) => Err(Fault::Refused(refusal)),
            Some(Peeked::End(_)) => Ok(false),
            None => unreachable!(),
        }
    }

    #[inline(always)]
    fn try_peek_buffered(&mut self) -> bool {
        self.try_peek()
    }

    #[inline(always)]
    fn packet(&self) -> &Meta {
        self.next.packet()
    }

    fn frame(&self) -> &[u8] {
        part_of(&self.reader, &self.next)
    }

    fn pass(&mut self)
        requires packet { IsPacket (capture_feed self.old).known }
        ensures passes { FeedPasses (capture_feed self.old) (capture_feed self.new) }
        ensures keeps { FeedKeeps (capture_feed self.old) (capture_feed self.new) }
        ensures position { position_of self.new ≡ position_of self.old }
        ensures fronts { capture_fronts self.new ≡ capture_fronts self.old }
    {
        self.next.forget();
    }

    fn ending(&self, _file: u32) -> Ending {
        ending_of(self.next.get()).ending
    }

    fn named_interfaces(&self, _file: u32) -> u64 {
        ending_of(self.next.get()).named
    }

    fn skipped_kinds(&self, _file: u32) -> SkippedKinds {
        ending_of(self.next.get()).kinds
    }

    fn comments(&self, _file: u32) -> Option<u64> {
        ending_of(self.next.get()).comments
    }

    fn feed_held(&self) -> FeedHeld {
        FeedHeld {
            window: held_of(&self.reader),
            interfaces: self.reached.interfaces.len() as u64,
            failed: failed_of(&self.reader),
        }
    }

    ghost lawful = { λ c. captures_lawful (reader_file_state c.reader (progress_of c.reached)) c.next.next c.sound };
}
