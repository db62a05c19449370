//! The packets of a feed, written one by one in the form of pcapng.
ghost use Rattle.std.specs.Prelude.{◌≡◌, ◌+◌, ◌≤◌, ◌++◌, length, IsTrue, is_err, IsOkUnless, OnOk, None, if◌then◌else◌};
ghost use Rattle.std.specs.Prelude.{◌==◌, []};
ghost use Rattle.cap_bytes.specs.Device.{Puts, WriterKeeps, writer_of};
ghost use Rattle.cap_bytes.specs.Printing.{Prints, IsReadFault, is_write};
ghost use Rattle.cap_blocks.specs.Grammar.{interface_bytes, packet_bytes};
ghost use Rattle.cap_source.specs.Feed.{FeedKeeps};
ghost use Rattle.cap_source.specs.inner.Walk.{Walks, SameEndings};
ghost use Rattle.cap_source.specs.inner.Growing.{IfMemory, IsAtPacket};
ghost use Rattle.cap_write.specs.Numbering.{count_of, number_of, with_origin, refusal_in, refusal_by, write_fault};
ghost use Rattle.cap_write.specs.Texts.{text_behind, one_bytes};
ghost use Rattle.cap_write.specs.inner.Interfaces.{origins_of};

use crate::interfaces::{Origins, number_of, units_of};
use cap_blocks::{PacketFields, put_interface, put_packet};
use cap_bytes::{Fault, Order, Sink};
use cap_source::{Meta, PacketFeed};

// Writes a packet's interface if it is the next one.
fn put_new_interface<W: Sink>(
    writer: &mut W,
    order: Order,
    is_new: bool,
    meta: &Meta,
) -> Result<(), Fault>
    ensures bytes { IsTrue (W.tells_held writer.old)
        → Puts (W.held writer.old) result (W.held writer.new)
        (if is_new then interface_bytes order meta.now.interface else []) }
    ensures writer { WriterKeeps (writer_of W.Sink writer.old) (is_err result) (writer_of W.Sink writer.new) }
    ensures fault { IsOkUnless result Fault.Write }
{
    if is_new {
        put_interface(writer, order, &meta.interface)
    } else {
        Ok(())
    }
}

// A packet that can be written.
#[derive(Clone, Copy)]
struct Writable<'a> {
    meta: &'a Meta,
    frame: &'a [u8],
    // the number of its interface
    number: u32,
    // whether that is described first
    is_new: bool,
    // its time in units of the interface's resolution
    units: u64,
    ghost captured: { length frame.now ≤ 262144 },
}

// Writes a packet, after its interface if that is the next one.
fn put_writable<W: Sink>(writer: &mut W, order: Order, packet: &Writable<'_>) -> Result<(), Fault>
    ensures bytes { IsTrue (W.tells_held writer.old)
        → Puts (W.held writer.old) result (W.held writer.new)
        ((if packet.now.is_new then interface_bytes order packet.now.meta.now.interface else [])
        ++ packet_bytes order packet.now.number packet.now.units packet.now.meta.now.original packet.now.frame.now) }
    ensures writer { WriterKeeps (writer_of W.Sink writer.old) (is_err result) (writer_of W.Sink writer.new) }
    ensures fault { IsOkUnless result Fault.Write }
{
    put_new_interface(writer, order, packet.is_new, packet.meta)?;
    let fields = PacketFields {
        interface: packet.number,
        units: packet.units,
        original: packet.meta.original,
    };
    put_packet(writer, order, fields, packet.frame)
}

/// Writes a packet, or returns why it isn't written.
pub(crate) fn put_one<W: Sink>(
    origins: &mut Origins,
    order: Order,
    meta: &Meta,
    frame: &[u8],
    writer: &mut W,
) -> Result<(), Fault>
    requires captured { length frame.now ≤ 262144 }
    requires limit { count_of (origins_of origins.old) ≤ 1024 }
    ensures text { IsTrue (W.tells_held writer.old)
        → Prints (one_bytes order (origins_of origins.old) meta.now frame.now)
        (refusal_by meta.now (write_fault (origins_of origins.old) meta.now))
        (W.held writer.old) result (W.held writer.new) }
    ensures origins { OnOk result ((origins_of origins.new ≡ with_origin (origins_of origins.old) meta.now)
        × (write_fault (origins_of origins.old) meta.now ≡ None)) }
    ensures limit { count_of (origins_of origins.new) ≤ 1024 }
    ensures writer { WriterKeeps (writer_of W.Sink writer.old) (is_write result) (writer_of W.Sink writer.new) }
    ensures read { IsReadFault result → ⊥ }
    ensures memory { IfMemory result (write_fault (origins_of origins.old) meta.now ≡ None) }
{
    let units = units_of(meta)?;
    let count = origins.count();
    let number = number_of(origins, meta)?;
    let packet = Writable {
        meta,
        frame,
        number,
        is_new: number as usize == count,
        units,
    };
    put_writable(writer, order, &packet)
}

/// Writes the packets of a feed after the interfaces of `origins` were described.
pub(crate) fn put_packets<F: PacketFeed, W: Sink>(
    feed: &mut F,
    order: Order,
    origins: &mut Origins,
    writer: &mut W,
) -> Result<(), Fault>
    requires limit { count_of (origins_of origins.old) ≤ 1024 }
    ensures text { IsTrue (F.feed feed.old).told → IsTrue (W.tells_held writer.old)
        → Prints (text_behind order (origins_of origins.old) (F.feed feed.old).items)
        (refusal_in (origins_of origins.old) (F.feed feed.old).items)
        (W.held writer.old) result (W.held writer.new) }
    ensures writer { WriterKeeps (writer_of W.Sink writer.old) (is_write result) (writer_of W.Sink writer.new) }
    ensures walks { Walks (F.feed feed.old) result (F.feed feed.new) }
    ensures endings { OnOk result (IsTrue (F.feed feed.old).told → SameEndings (F.feed feed.old) (F.feed feed.new)) }
    ensures memory { IfMemory result (IsAtPacket (F.feed feed.new).known) }
    ensures keeps { FeedKeeps (F.feed feed.old) (F.feed feed.new) }
{
    while feed.peek()? {
        let meta = feed.packet();
        put_one(origins, order, meta, feed.frame(), writer)?;
        feed.pass();
    }
    Ok(())
}
