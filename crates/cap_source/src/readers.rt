//! What a reader of a file of either format is, and what it lends.
ghost use Rattle.std.specs.Prelude.{◌≡◌, ◌≤◌, IsTrue, IsSome, Some};
ghost use Rattle.cap_source.specs.Feed.{IsLast, IsPacket};
ghost use Rattle.cap_source.specs.Items.{SectionProgress};
ghost use Rattle.cap_source.specs.inner.FileState.{next_head, lent_end, lent_length, next_frame, ending_by};
ghost use Rattle.cap_source.specs.inner.SectionState.{progress_of};
ghost use Rattle.cap_source.specs.inner.Readers.{reader_file_state, is_there, lent_of};

use crate::feeds::{FileEnd, Head};
use crate::packets::Meta;
use crate::pcap::noted_of_pcap;
use crate::peek_slots::PeekSlot;
use crate::section_states::SectionState;
use cap_blocks::BlockReader;
use cap_bytes::{Refusal, Source, Tail, Window};
use cap_pcap::PcapReader;
use cap_time::Interface;

/// What comes next of a file, as its reader finds it. A `Head` tells less of it: not where a packet's bytes begin, nor
/// how the file ends.
#[derive(Clone, Copy)]
pub enum Peeked {
    /// A packet. Its captured bytes begin at that place of what the reader lends.
    Packet(Meta, u32),
    /// A refusal.
    Refused(Refusal, FileEnd),
    /// The end.
    End(FileEnd),
}

/// By what a file is read.
#[derive(Drop)]
pub enum Reader<R: Source> {
    /// Nothing was read, and so the format isn't known.
    Unread(Window<R>, Tail),
    /// A pcap file.
    Pcap(PcapReader<R>),
    /// A pcapng file.
    Pcapng(BlockReader<R>),
    /// The window is on its way into a reader.
    Moved,
}

// What the reader lends of the record or block that was given last.
fn lent_of<R: Source>(reader: &Reader<R>) -> &[u8]
    requires { IsSome (lent_of reader.now) }
    ensures { lent_of reader.now ≡ Some result.now }
{
    // the commonest format is asked for first, in place of a jump by a table
    if let Reader::Pcap(reader) = reader {
        return reader.frame();
    }
    match reader {
        Reader::Pcapng(reader) => reader.body(),
        _ => unreachable!(),
    }
}

/// The captured bytes of a packet that comes next.
pub fn part_of<'a, R: Source>(reader: &'a Reader<R>, next: &PeekSlot) -> &'a [u8]
    requires packet { IsPacket (next_head next.now.next) }
    requires lent { lent_end next.now.next ≤ lent_length (lent_of reader.now) }
    ensures { result.now ≡ next_frame next.now.next (lent_of reader.entry.now) }
{
    let (_, behind) = lent_of(reader).split_at(next.place());
    behind.split_at(next.packet().captured as usize).0
}

/// How a file ended of which the end comes next.
pub fn ending_of(next: Option<Peeked>) -> FileEnd
    requires { next_head next ≡ Some Head.End }
    ensures { (later : FileEnd) → result ≡ ending_by next later }
{
    match next {
        Some(Peeked::End(ending)) => ending,
        _ => unreachable!(),
    }
}

/// How a file ended, or was refused, of which the end or a refusal comes next.
pub fn last_of(next: Option<Peeked>) -> FileEnd
    requires { IsLast (next_head next) }
    ensures { (later : FileEnd) → result ≡ ending_by next later }
{
    match next {
        Some(Peeked::End(ending)) | Some(Peeked::Refused(_, ending)) => ending,
        _ => unreachable!(),
    }
}

/// The number of a file.
pub fn number_of<R: Source>(reader: &Reader<R>) -> u32
    requires { IsTrue (is_there reader.now) }
    ensures { (progress : SectionProgress) → result ≡ (reader_file_state reader.now progress).file }
{
    match reader {
        Reader::Unread(window, _) => window.file(),
        Reader::Pcap(reader) => reader.window().file(),
        Reader::Pcapng(reader) => reader.window().file(),
        Reader::Moved => unreachable!(),
    }
}

/// The first interface of a file, as far as it was read.
pub fn noted_of<R: Source>(reader: &Reader<R>, reached: &SectionState) -> Option<Interface>
    requires { IsTrue (is_there reader.now) }
    ensures { result ≡ (reader_file_state reader.now (progress_of reached.now)).noted }
{
    match reader {
        Reader::Unread(_, _) => reached.first,
        Reader::Pcap(reader) => noted_of_pcap(reader),
        Reader::Pcapng(_) => reached.first,
        Reader::Moved => unreachable!(),
    }
}

/// How many bytes are kept of a file.
pub fn held_of<R: Source>(reader: &Reader<R>) -> u64
    requires { IsTrue (is_there reader.now) }
    ensures { (progress : SectionProgress) → result ≡ (reader_file_state reader.now progress).held }
{
    match reader {
        Reader::Unread(window, _) => window.held(),
        Reader::Pcap(reader) => reader.window().held(),
        Reader::Pcapng(reader) => reader.window().held(),
        Reader::Moved => unreachable!(),
    }
}

/// Whether a file's device has failed.
pub fn failed_of<R: Source>(reader: &Reader<R>) -> bool
    requires { IsTrue (is_there reader.now) }
    ensures { (progress : SectionProgress) → result ≡ (reader_file_state reader.now progress).failed }
{
    match reader {
        Reader::Unread(window, _) => window.failed(),
        Reader::Pcap(reader) => reader.window().failed(),
        Reader::Pcapng(reader) => reader.window().failed(),
        Reader::Moved => unreachable!(),
    }
}
