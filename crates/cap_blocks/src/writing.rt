//! Blocks as they are written.
ghost use Rattle.std.specs.Prelude.{◌≡◌, ◌+◌, ◌≤◌, ◌++◌, [], length, IsTrue, is_err, IsOkUnless};
ghost use Rattle.std.specs.Int.{w64, cast_unsigned};
ghost use Rattle.cap_bytes.specs.Device.{Puts, WriterKeeps, writer_of};
ghost use Rattle.cap_blocks.specs.Grammar.{section_bytes, interface_bytes, interface_total, packet_bytes, packet_head};
ghost use Rattle.cap_blocks.specs.Grammar.{packet_tail, offset_option};
ghost use Rattle.cap_blocks.specs.OptionList.{padded};

use crate::blocks::{ENHANCED_PACKET, INTERFACE, ORDER_MAGIC, SECTION};
use crate::buffers::BlockBuffer;
use cap_bytes::{Fault, Order, Sink, put_all};
use cap_time::Interface;

// The codes of options that are written (draft-ietf-opsawg-pcapng, 3.5 and 4.2).
const RESOLUTION_OPTION: u16 = 9;

const OFFSET_OPTION: u16 = 14;

const END_OPTION: u16 = 0;

// The most captured bytes of a packet whose block is put together before it is written: for so few a copy costs less
// than two calls of the writer.
const SMALL: usize = 125;

/// Writes a section header of version 1.0, whose section length is left open and which has no
/// options: 28 bytes (draft-ietf-opsawg-pcapng, 4.1). Returns `Fault::Write`, and no other fault,
/// if the writer failed: a prefix of the bytes is written then.
pub fn put_section<W: Sink>(writer: &mut W, order: Order) -> Result<(), Fault>
    ensures bytes { IsTrue (W.tells_held writer.old)
        → Puts (W.held writer.old) result (W.held writer.new) (section_bytes order) }
    ensures writer { WriterKeeps (writer_of W.Sink writer.old) (is_err result) (writer_of W.Sink writer.new) }
    ensures fault { IsOkUnless result Fault.Write }
{
    put_all(writer, section_header(order).bytes())
}

// A section header.
fn section_header(order: Order) -> BlockBuffer
    ensures { result ≡ section_bytes order }
{
    let mut buffer = BlockBuffer::new();
    buffer.add_u32(order, SECTION);
    buffer.add_u32(order, 28);
    buffer.add_u32(order, ORDER_MAGIC);
    buffer.add_u16(order, 1);
    buffer.add_u16(order, 0);
    buffer.add_u64(order, u64::MAX);
    buffer.add_u32(order, 28);
    buffer
}

/// Writes an interface block (draft-ietf-opsawg-pcapng, 4.2) with the resolution as the option
/// `if_tsresol` and, if it isn't 0, the offset as the option `if_tsoffset`: 32 bytes, or 44 with the
/// offset. Returns `Fault::Write`, and no other fault, if the writer failed: a prefix of the bytes is
/// written then.
pub fn put_interface<W: Sink>(
    writer: &mut W,
    order: Order,
    interface: &Interface,
) -> Result<(), Fault>
    ensures bytes { IsTrue (W.tells_held writer.old)
        → Puts (W.held writer.old) result (W.held writer.new) (interface_bytes order interface.now) }
    ensures writer { WriterKeeps (writer_of W.Sink writer.old) (is_err result) (writer_of W.Sink writer.new) }
    ensures fault { IsOkUnless result Fault.Write }
{
    put_all(writer, interface_block(order, interface).bytes())
}

// An interface block.
fn interface_block(order: Order, interface: &Interface) -> BlockBuffer
    ensures { result ≡ interface_bytes order interface.now }
{
    let seconds = seconds_of(interface);
    let total = total_of(seconds);
    let mut buffer = BlockBuffer::new();
    buffer.add_u32(order, INTERFACE);
    buffer.add_u32(order, total);
    buffer.add_u16(order, interface.link);
    buffer.add_u16(order, 0);
    buffer.add_u32(order, interface.snaplen);
    buffer.add_u16(order, RESOLUTION_OPTION);
    buffer.add_u16(order, 1);
    buffer.add(&[interface.resolution.code(), 0, 0, 0]);
    add_offset(&mut buffer, order, seconds);
    buffer.add_u16(order, END_OPTION);
    buffer.add_u16(order, 0);
    buffer.add_u32(order, total);
    buffer
}

// An interface's offset in two's complement.
fn seconds_of(interface: &Interface) -> u64
    ensures { result ≡ cast_unsigned w64 interface.now.offset }
{
    interface.offset.cast_unsigned()
}

// How many bytes an interface block takes.
fn total_of(seconds: u64) -> u32
    ensures { result ≡ interface_total seconds }
{
    if seconds == 0 { 32 } else { 44 }
}

// Puts an interface's offset into a buffer, if it isn't 0.
fn add_offset(buffer: &mut BlockBuffer, order: Order, seconds: u64)
    requires { length buffer.old + 12 ≤ 44 }
    ensures bytes { buffer.new ≡ buffer.old ++ offset_option order seconds }
    ensures size { length buffer.new ≡ length buffer.old + length (offset_option order seconds) }
{
    if seconds != 0 {
        buffer.add_u16(order, OFFSET_OPTION);
        buffer.add_u16(order, 8);
        buffer.add_u64(order, seconds);
    }
}

/// What an enhanced packet block tells of its packet beside the captured bytes. draft-ietf-opsawg-pcapng, 4.3.
#[derive(Clone, Copy, Debug, PartialEq, Eq)]
pub struct PacketFields {
    /// The number of its interface in the section, from 0 on.
    pub interface: u32,
    /// Its time, in the units of that interface's resolution.
    pub units: u64,
    /// How many bytes it had.
    pub original: u32,
}

/// Writes an enhanced packet block (draft-ietf-opsawg-pcapng, 4.3) without options, with these fields and
/// `data`, the captured bytes. It takes 32 bytes and the captured bytes, padded to a multiple of 4. Returns
/// `Fault::Write`, and no other fault, if the writer failed: a prefix of the bytes is written then.
pub fn put_packet<W: Sink>(
    writer: &mut W,
    order: Order,
    packet: PacketFields,
    data: &[u8],
) -> Result<(), Fault>
    requires captured { length «data».now ≤ 262144 }
    ensures bytes { IsTrue (W.tells_held writer.old)
        → Puts (W.held writer.old) result (W.held writer.new)
        (packet_bytes order packet.interface packet.units packet.original «data».now) }
    ensures writer { WriterKeeps (writer_of W.Sink writer.old) (is_err result) (writer_of W.Sink writer.new) }
    ensures fault { IsOkUnless result Fault.Write }
{
    if data.len() <= SMALL {
        let mut block = BlockBuffer::new();
        add_packet(&mut block, order, packet, data);
        put_all(writer, block.bytes())
    } else {
        put_parts(writer, order, packet, data)
    }
}

// Puts an enhanced packet block of few captured bytes into an empty buffer.
#[inline(always)]
fn add_packet(buffer: &mut BlockBuffer, order: Order, packet: PacketFields, data: &[u8])
    requires empty { buffer.old ≡ [] }
    requires captured { length «data».now ≤ 125 }
    ensures { buffer.new ≡ packet_bytes order packet.interface packet.units packet.original «data».now }
{
    let captured = data.len() as u32;
    add_head(buffer, order, packet, captured);
    buffer.add(data);
    add_tail(buffer, order, captured);
}

// Writes an enhanced packet block in three parts, which spares a copy of the captured bytes.
fn put_parts<W: Sink>(
    writer: &mut W,
    order: Order,
    packet: PacketFields,
    data: &[u8],
) -> Result<(), Fault>
    requires captured { length «data».now ≤ 262144 }
    ensures bytes { IsTrue (W.tells_held writer.old)
        → Puts (W.held writer.old) result (W.held writer.new)
        (packet_bytes order packet.interface packet.units packet.original «data».now) }
    ensures writer { WriterKeeps (writer_of W.Sink writer.old) (is_err result) (writer_of W.Sink writer.new) }
    ensures fault { IsOkUnless result Fault.Write }
{
    let captured = data.len() as u32;
    put_all(writer, packet_head(order, packet, captured).bytes())?;
    put_all(writer, data)?;
    put_all(writer, packet_tail(order, captured).bytes())
}

// Puts what stands in front of the captured bytes into an empty buffer.
#[inline(always)]
fn add_head(buffer: &mut BlockBuffer, order: Order, packet: PacketFields, captured: u32)
    requires empty { buffer.old ≡ [] }
    requires captured { captured ≤ 262144 }
    ensures size { length buffer.new ≡ 28 }
    ensures bytes { buffer.new ≡ packet_head order packet.interface packet.units captured packet.original }
{
    buffer.add_u32(order, ENHANCED_PACKET);
    buffer.add_u32(order, 32 + padded(captured));
    buffer.add_u32(order, packet.interface);
    buffer.add_u32(order, (packet.units >> 32) as u32);
    buffer.add_u32(order, (packet.units % 0x1_0000_0000) as u32);
    buffer.add_u32(order, captured);
    buffer.add_u32(order, packet.original);
}

// What stands in front of the captured bytes.
fn packet_head(order: Order, packet: PacketFields, captured: u32) -> BlockBuffer
    requires { captured ≤ 262144 }
    ensures size { length result ≡ 28 }
    ensures bytes { result ≡ packet_head order packet.interface packet.units captured packet.original }
{
    let mut buffer = BlockBuffer::new();
    add_head(&mut buffer, order, packet, captured);
    buffer
}

// What comes after them.
fn packet_tail(order: Order, captured: u32) -> BlockBuffer
    requires { captured ≤ 262144 }
    ensures { result ≡ packet_tail order captured }
{
    let mut buffer = BlockBuffer::new();
    add_tail(&mut buffer, order, captured);
    buffer
}

// Puts what comes after them into a buffer.
fn add_tail(buffer: &mut BlockBuffer, order: Order, captured: u32)
    requires captured { captured ≤ 262144 }
    requires room { length buffer.old + 7 ≤ 160 }
    ensures { buffer.new ≡ buffer.old ++ packet_tail order captured }
{
    let size = padded(captured);
    // many packets have none, and to put no bytes costs as much as to put some
    if size > captured {
        let zeros = [0u8; 3];
        buffer.add(zeros.split_at((size - captured) as usize).0);
    }
    buffer.add_u32(order, 32 + size);
}

// A length with the padding to a multiple of 4.
fn padded(length: u32) -> u32
    requires { length ≤ 262144 }
    ensures { result ≡ padded length }
{
    4 * ((length + 3) / 4)
}
