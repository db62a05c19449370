//! Merged files.
ghost use Rattle.std.specs.Prelude.{◌≡◌, ◌≤◌, IsTrue, OnOk, None};
ghost use Rattle.cap_bytes.specs.Device.{WriterKeeps, writer_of};
ghost use Rattle.cap_bytes.specs.Printing.{Prints, is_write};
ghost use Rattle.cap_source.specs.Feed.{FeedKeeps};
ghost use Rattle.cap_source.specs.inner.Walk.{Walks, SameEndings};
ghost use Rattle.cap_source.specs.inner.Growing.{IfMemory, IsAtPacket};
ghost use Rattle.cap_write.specs.PcapRun.{run_bytes, run_refusal};
ghost use Rattle.cap_write.specs.Numbering.{count_of, refusal_in};
ghost use Rattle.cap_write.specs.Texts.{merged_bytes, merged_refusal, section_text, sharing_bytes, sharing_refusal};
ghost use Rattle.cap_write.specs.inner.Interfaces.{origins_of};

use crate::interfaces::{Origins, units_of};
use crate::packets::put_packets;
use crate::pcap::{in_unit, no_interface, put_file};
use cap_blocks::put_section;
use cap_bytes::{Fault, Order, Sink};
use cap_source::{PacketFeed, next_packet};
use cap_time::Unit;
use std::alloc::Global;

// Writes a section header, and the packets of a feed after it, whose interfaces are told apart by `origins`.
fn put_merged<F: PacketFeed, W: Sink>(
    feed: &mut F,
    order: Order,
    origins: &mut Origins,
    writer: &mut W,
) -> Result<(), Fault>
    requires limit { count_of (origins_of origins.old) ≤ 1024 }
    ensures text { IsTrue (F.feed feed.old).told → IsTrue (W.tells_held writer.old)
        → Prints (section_text order (origins_of origins.old) (F.feed feed.old).items)
        (refusal_in (origins_of origins.old) (F.feed feed.old).items)
        (W.held writer.old) result (W.held writer.new) }
    ensures writer { WriterKeeps (writer_of W.Sink writer.old) (is_write result) (writer_of W.Sink writer.new) }
    ensures walks { Walks (F.feed feed.old) result (F.feed feed.new) }
    ensures endings { OnOk result (IsTrue (F.feed feed.old).told → SameEndings (F.feed feed.old) (F.feed feed.new)) }
    ensures memory { IfMemory result (IsAtPacket (F.feed feed.new).known) }
    ensures keeps { FeedKeeps (F.feed feed.old) (F.feed feed.new) }
{
    put_section(writer, order)?;
    put_packets(feed, order, origins, writer)
}

/// Writes the packets of a feed as a pcapng file (draft-ietf-opsawg-pcapng, 4) of one section in that byte
/// order, each interface in front of its first packet. Interfaces are numbered by first use. Returns `Refused`
/// at a packet that has no time (rule 17, no-time), at one whose interface would be the 1,025th (rule 13,
/// interface-limit), and if the feed's packets end in a refusal: what is written is the text of the
/// packets before it. After `Read`, `Write` or `Memory` a prefix of the text is written.
pub fn write_merged<F: PacketFeed, W: Sink>(
    alloc: Global,
    feed: &mut F,
    order: Order,
    writer: &mut W,
) -> Result<(), Fault>
    ensures text { IsTrue (F.feed feed.old).told → IsTrue (W.tells_held writer.old)
        → Prints (merged_bytes order (F.feed feed.old).items) (merged_refusal (F.feed feed.old).items)
        (W.held writer.old) result (W.held writer.new) }
    ensures writer { WriterKeeps (writer_of W.Sink writer.old) (is_write result) (writer_of W.Sink writer.new) }
    ensures walks { Walks (F.feed feed.old) result (F.feed feed.new) }
    ensures endings { OnOk result (IsTrue (F.feed feed.old).told → SameEndings (F.feed feed.old) (F.feed feed.new)) }
    ensures memory { IfMemory result (IsAtPacket (F.feed feed.new).known) }
    ensures keeps { FeedKeeps (F.feed feed.old) (F.feed feed.new) }
{
    let mut origins = Origins::own(alloc);
    put_merged(feed, order, &mut origins, writer)
}

/// Writes what `write_merged` writes, but that interfaces with the same link, snaplen, resolution and offset are one,
/// whichever files describe them. Returns `Refused` as it does: rule 13, interface-limit, comes at a packet whose
/// interface would be the 1,025th that differs from the others.
pub fn write_merged_sharing<F: PacketFeed, W: Sink>(
    alloc: Global,
    feed: &mut F,
    order: Order,
    writer: &mut W,
) -> Result<(), Fault>
    ensures text { IsTrue (F.feed feed.old).told → IsTrue (W.tells_held writer.old)
        → Prints (sharing_bytes order (F.feed feed.old).items) (sharing_refusal (F.feed feed.old).items)
        (W.held writer.old) result (W.held writer.new) }
    ensures writer { WriterKeeps (writer_of W.Sink writer.old) (is_write result) (writer_of W.Sink writer.new) }
    ensures walks { Walks (F.feed feed.old) result (F.feed feed.new) }
    ensures endings { OnOk result (IsTrue (F.feed feed.old).told → SameEndings (F.feed feed.old) (F.feed feed.new)) }
    ensures memory { IfMemory result (IsAtPacket (F.feed feed.new).known) }
    ensures keeps { FeedKeeps (F.feed feed.old) (F.feed feed.new) }
{
    let mut origins = Origins::shared(alloc);
    put_merged(feed, order, &mut origins, writer)
}

/// Writes the packets of a feed as a pcap file (draft-ietf-opsawg-pcap, 4 and 5) in that byte order, with the link and
/// the snaplen of the first packet's interface, in the unit that is asked for, else in microseconds if each unit of
/// that interface is a whole number of them, else in nanoseconds. Returns `Refused`, in this order, at a packet that
/// has no time (rule 17, no-time), has another link (18, link-mixed), has a time that isn't whole in that fraction (19,
/// inexact) or one whose seconds are below 0 or above 4,294,967,295 (20, time-range), and if the feed's packets end in
/// a refusal: what is written is the text of the packets before it. Nothing is written if the first packet has no time,
/// or if no packet comes: then rule 21, no-interface, is returned of file 1, unless the feed ends in a refusal. After
/// `Read`, `Write` or `Memory` a prefix of the text is written.
pub fn write_merged_pcap<F: PacketFeed, W: Sink>(
    feed: &mut F,
    order: Order,
    unit: Option<Unit>,
    writer: &mut W,
) -> Result<(), Fault>
    ensures text { IsTrue (F.feed feed.old).told → IsTrue (W.tells_held writer.old)
        → Prints (run_bytes unit order (F.feed feed.old).items) (run_refusal unit (F.feed feed.old).items)
        (W.held writer.old) result (W.held writer.new) }
    ensures writer { WriterKeeps (writer_of W.Sink writer.old) (is_write result) (writer_of W.Sink writer.new) }
    ensures walks { Walks (F.feed feed.old) result (F.feed feed.new) }
    ensures endings { OnOk result (IsTrue (F.feed feed.old).told → SameEndings (F.feed feed.old) (F.feed feed.new)) }
    ensures memory { IfMemory result ((F.feed feed.new).known ≡ None) }
    ensures keeps { FeedKeeps (F.feed feed.old) (F.feed feed.new) }
{
    match next_packet(feed)? {
        Some(meta) => {
            units_of(&meta)?;
            put_file(feed, order, &in_unit(unit, meta.interface), writer)
        }
        None => Err(no_interface(1)),
    }
}
