//! Packets of a caller's, written one by one as a capture file.
ghost use Rattle.std.specs.Prelude.{◌≡◌, ◌++◌, IfOk, IsOkUnless, Ok, OnErr, OnOk, Some};
ghost use Rattle.cap_bytes.specs.declared.faults.Fault.{Fault};
ghost use Rattle.capt_c.specs.Answers.{format_of, nowhere, order_of, status_of_result, status_of_unit};
ghost use Rattle.capt_c.specs.Flags.{flags_taken, form_alone};
ghost use Rattle.capt_c.specs.HandleValue.{IsClosed};
ghost use Rattle.capt_c.specs.Texts.{Shown};
ghost use Rattle.capt_c.specs.Reading.{OpensWith};
ghost use Rattle.capt_c.specs.Writing.{OpensWriter, PutsHeld, TakenBy, TakesHeld, state_of};

use crate::answers::{CPlace, MISUSE, format_of, order_of, status_and_place, status_of_result};
use crate::flags::{FORM_ALONE, Flags, flags_taken};
use crate::handles::{Handle, HandleValue, with_open};
use crate::packet_writers::PacketWriter;
use crate::packets::CPacket;
use crate::texts::{Text, empty};
use crate::told_packets::told_packet;
use cap_bytes::Fault;
use std::alloc::Global;

// Closes what the handle held, and opens a file of that format.
fn open_writer(alloc: Global, writer: &mut Handle, set: Flags) -> Result<(), Fault>
    ensures opens { OpensWriter (format_of set.to_pcap) (order_of set.big)
        (status_of_result status_of_unit result) writer.new.kept.value }
    ensures closed { OnErr result (IsClosed writer.new.kept.value writer.new.kept.at writer.new.is_open) }
    ensures fault { IsOkUnless result Fault.Memory }
{
    // dropping what was held closes it, and frees its memory for the file
    let _ = writer.take(alloc);
    let opened = PacketWriter::new(alloc, format_of(set.to_pcap), order_of(set.big))?;
    writer.hold(alloc, HandleValue::Writer(opened))
}

/// Opens a capture file that is written in memory. What the handle held is closed.
#[unsafe(no_mangle)]
pub extern "C" fn capt_writer_open(alloc: Global, writer: &mut Handle, flags: u32) -> u32
    ensures closed { result ≡ 5 → IsClosed writer.new.kept.value writer.new.kept.at writer.new.is_open }
    ensures opens { OpensWith (flags_taken form_alone flags) (λ set.
        OpensWriter (format_of set.to_pcap) (order_of set.big) result writer.new.kept.value)
        result writer.old writer.new }
{
    let Some(set) = flags_taken(FORM_ALONE, flags) else {
        return MISUSE;
    };
    status_of_result(open_writer(alloc, writer, set))
}

// Puts a packet into what is held, if that is a file that is written.
fn put_of(
    alloc: Global,
    held: &mut HandleValue,
    packet: &CPacket,
    frame: &[u8],
    place: &mut CPlace,
) -> u32
    ensures { PutsHeld (Some held.old) packet.now frame.now place.old result place.new (Some held.new) }
{
    match held {
        HandleValue::Writer(writer) => match told_packet(packet, frame.len()) {
            Some(meta) => status_and_place(writer.put(alloc, &meta, frame), place),
            None => MISUSE,
        },
        HandleValue::Capture(_)
        | HandleValue::Fed(_)
        | HandleValue::Table(_)
        | HandleValue::Text(_)
        | HandleValue::Job(_) => MISUSE,
    }
}

/// Puts a packet with those captured bytes at the end of a file, after its interface if the file lacks it. A packet
/// that isn't put leaves the file as it was.
#[unsafe(no_mangle)]
pub extern "C" fn capt_writer_put(
    alloc: Global,
    writer: &mut Handle,
    packet: &CPacket,
    frame: &[u8],
    place: &mut CPlace,
) -> u32
    ensures { PutsHeld writer.old.kept.value packet.now frame.now place.old result place.new writer.new.kept.value }
{
    with_open!(
        writer,
        alloc,
        |held| put_of(alloc, &mut held, packet, frame, place)
    )
}

// Shows what was written, and takes it out of the file.
fn show_written(alloc: Global, writer: &mut PacketWriter, text: &mut Text) -> Result<(), Fault>
    ensures shown { Shown (state_of writer.old).bytes (Ok tt) (status_of_result status_of_unit result) nowhere
        text.new text.new.handle.kept.value }
    ensures taken { TakenBy (status_of_result status_of_unit result) (state_of writer.old) (state_of writer.new) }
{
    empty(text);
    // dropping what was held closes it, and frees its memory
    let _ = text.handle.take(alloc);
    let mut held = Box::new(alloc, HandleValue::Text(Vec::new(alloc)))?;
    let bytes = writer.take(alloc);
    text.at = bytes.as_ptr();
    text.len = bytes.len();
    *held = HandleValue::Text(bytes);
    text.handle.put(held);
    Ok(())
}

// Takes what was written out of what is held, if that is a file that is written.
fn take_of(alloc: Global, held: &mut HandleValue, text: &mut Text) -> u32
    ensures { TakesHeld (Some held.old) text.old result text.new (Some held.new) }
{
    match held {
        HandleValue::Writer(writer) => status_of_result(show_written(alloc, writer, text)),
        HandleValue::Capture(_)
        | HandleValue::Fed(_)
        | HandleValue::Table(_)
        | HandleValue::Text(_)
        | HandleValue::Job(_) => MISUSE,
    }
}

/// Takes out what was written since the last call.
#[unsafe(no_mangle)]
pub extern "C" fn capt_writer_take(alloc: Global, writer: &mut Handle, text: &mut Text) -> u32
    ensures { TakesHeld writer.old.kept.value text.old result text.new writer.new.kept.value }
{
    with_open!(writer, alloc, |held| take_of(alloc, &mut held, text))
}
