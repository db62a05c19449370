//! A feed written as a pcapng file.
ghost use Rattle.std.specs.Prelude.{◌≡◌, ◌⊎◌, IsErr, IsSome, IsTrue, is_err, IsOkUnless, OnOk};
ghost use Rattle.cap_bytes.specs.Device.{Puts, WriterKeeps, writer_of};
ghost use Rattle.cap_bytes.specs.Printing.{Prints, is_write};
ghost use Rattle.cap_source.specs.Feed.{FeedKeeps};
ghost use Rattle.cap_source.specs.inner.Walk.{Walks, SameEndings};
ghost use Rattle.cap_source.specs.inner.Growing.{IfMemory, IsAtPacket};
ghost use Rattle.cap_write.specs.inner.Interfaces.{Holds, origins_of};
ghost use Rattle.cap_write.specs.Texts.{first_origins, first_bytes, front_bytes, pcapng_bytes, pcapng_refusal};

use crate::interfaces::{FileStart, Origins};
use crate::packets::put_packets;
use cap_blocks::{put_interface, put_section};
use cap_bytes::{Fault, Order, Sink};
use cap_source::PacketFeed;
use cap_time::Interface;
use indexmap::IndexSet;
use std::alloc::Global;

// The interfaces that are described before the first packet.
fn first_origins(alloc: Global, start: FileStart) -> Result<Origins, Fault>
    ensures origins { Holds origins_of (first_origins start.file start.first) result }
    ensures some { IsErr result → IsSome start.first }
{
    let mut origins = IndexSet::new(alloc);
    match start.first {
        Some(_) => match origins.insert((start.file, 0)) {
            Ok(_) => Ok(Origins::Own(origins)),
            Err(_) => Err(Fault::Memory),
        },
        None => Ok(Origins::Own(origins)),
    }
}

// Writes the first interface, if there is one.
fn put_first<W: Sink>(writer: &mut W, order: Order, first: Option<Interface>) -> Result<(), Fault>
    ensures bytes { IsTrue (W.tells_held writer.old)
        → Puts (W.held writer.old) result (W.held writer.new) (first_bytes order first) }
    ensures writer { WriterKeeps (writer_of W.Sink writer.old) (is_err result) (writer_of W.Sink writer.new) }
    ensures fault { IsOkUnless result Fault.Write }
{
    match first {
        Some(interface) => put_interface(writer, order, &interface),
        None => Ok(()),
    }
}

// Writes what stands before the first packet: a section header, and the first interface.
fn put_front<W: Sink>(writer: &mut W, order: Order, first: Option<Interface>) -> Result<(), Fault>
    ensures bytes { IsTrue (W.tells_held writer.old)
        → Puts (W.held writer.old) result (W.held writer.new) (front_bytes order first) }
    ensures writer { WriterKeeps (writer_of W.Sink writer.old) (is_err result) (writer_of W.Sink writer.new) }
    ensures fault { IsOkUnless result Fault.Write }
{
    put_section(writer, order)?;
    put_first(writer, order, first)
}

/// Writes the packets of a feed as the pcapng file (draft-ietf-opsawg-pcapng, 4), of one section in that byte order, of
/// a file of that number: its first interface, if there is one, right after the section header, and each other
/// interface in front of its first packet. Returns `Refused` at a packet that has no time (rule 17, no-time), at one
/// whose interface would be the 1,025th (rule 13, interface-limit), and if the feed's items end in a refusal: what is
/// written is the text of the packets before it. After `Read`, `Write` or `Memory` a prefix of the text is written.
pub(crate) fn put_pcapng<F: PacketFeed, W: Sink>(
    alloc: Global,
    feed: &mut F,
    start: FileStart,
    order: Order,
    writer: &mut W,
) -> Result<(), Fault>
    ensures text { IsTrue (F.feed feed.old).told → IsTrue (W.tells_held writer.old)
        → Prints (pcapng_bytes order start.file start.first (F.feed feed.old).items)
        (pcapng_refusal start.file start.first (F.feed feed.old).items)
        (W.held writer.old) result (W.held writer.new) }
    ensures writer { WriterKeeps (writer_of W.Sink writer.old) (is_write result) (writer_of W.Sink writer.new) }
    ensures walks { Walks (F.feed feed.old) result (F.feed feed.new) }
    ensures endings { OnOk result (IsTrue (F.feed feed.old).told → SameEndings (F.feed feed.old) (F.feed feed.new)) }
    ensures memory { IfMemory result (IsAtPacket (F.feed feed.new).known
        ⊎ (IsSome start.first × (F.feed feed.new ≡ F.feed feed.old))) }
    ensures keeps { FeedKeeps (F.feed feed.old) (F.feed feed.new) }
{
    let mut origins = first_origins(alloc, start)?;
    put_front(writer, order, start.first)?;
    put_packets(feed, order, &mut origins, writer)
}
