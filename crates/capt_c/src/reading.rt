//! A capture that is read packet by packet.
ghost use Rattle.std.specs.Prelude.{◌≡◌, ◌<◌, [], Result, Some, None, true, false, length};
ghost use Rattle.cap_source.specs.Feed.{GivesHead, FeedKeeps};
ghost use Rattle.cap_bytes.specs.declared.faults.Fault.{Fault};
ghost use Rattle.cap_source.specs.declared.feeds.Head.{Head};
ghost use Rattle.cap_commands.specs.Jobs.{tail_of};
ghost use Rattle.capt_c.specs.Flags.{cut_alone, flags_taken};
ghost use Rattle.capt_c.specs.HandleValue.{IsClosed};
ghost use Rattle.capt_c.specs.Packets.{StepsPacket};
ghost use Rattle.capt_c.specs.Sources.{tells_of, input_coming, input_can_fail};
ghost use Rattle.capt_c.specs.Reading.{Batch, EndTold, FedEndTold, Misused, Nexts, NextsMany, OpensCapture, OpensWith};
ghost use Rattle.capt_c.specs.Reading.{ShowsEnding, TellsEnd};
ghost use Rattle.capt_c.specs.Reading.{status_of_found};

use crate::answers::{
    CPlace, DONE, MISUSE, PACKET, Success, status_and_place, status_of_result, tail_of,
};
use crate::batches::step_many;
use crate::feeding::step_fed;
use crate::flags::{CUT_ALONE, flags_taken};
use crate::handles::{Handle, HandleValue, with_open};
use crate::packets::{CPacket, packet_of};
use crate::sources::{CaptureInput, Slice};
use cap_bytes::{Fault, Tracked};
use cap_source::{Capture, Ending, FedCapture, Format, Head, PacketFeed, next_packet};
use std::alloc::Global;
use std::io::Stdin;

/// Writes the next packet and advances past it, if there is one.
#[inline(always)]
pub fn step<F: PacketFeed>(feed: &mut F, packet: &mut CPacket) -> Result<bool, Fault>
    ensures answer { StepsPacket (F.feed feed.old) packet.old result packet.new (F.feed feed.new) }
    ensures keeps { FeedKeeps (F.feed feed.old) (F.feed feed.new) }
{
    match next_packet(feed)? {
        Some(meta) => {
            *packet = packet_of(&meta, feed.frame());
            feed.pass();
            Ok(true)
        }
        None => Ok(false),
    }
}

// Whether there was a next packet.
impl Success for bool {
    ghost status = { status_of_found };

    fn status(self) -> u32 {
        if self { PACKET } else { DONE }
    }
}

// Writes the next packet of what is held, if that is a capture.
fn next_of(held: &mut HandleValue, packet: &mut CPacket, place: &mut CPlace) -> u32
    ensures { Nexts (λ c. ⟦<Capture<CaptureInput> as PacketFeed>⟧.feed c) (Some held.old) packet.old place.old result
        packet.new place.new (Some held.new) }
{
    match held {
        HandleValue::Capture(capture) => status_and_place(step(capture, packet), place),
        HandleValue::Fed(fed) => step_fed(fed, packet, place),
        HandleValue::Table(_)
        | HandleValue::Text(_)
        | HandleValue::Job(_)
        | HandleValue::Writer(_) => MISUSE,
    }
}

/// How a capture ended.
#[repr(C)]
#[derive(Clone, Copy)]
pub struct End {
    /// How many of its blocks were skipped; 0 in a pcap file.
    pub skipped: u64,
    /// Whether it is a pcapng file, and no pcap file.
    pub is_pcapng: bool,
    /// Whether its last record or block was cut off, and dropped.
    pub was_cut: bool,
}

// Opens a capture over `input`. What the handle held is closed.
fn open(alloc: Global, reader: &mut Handle, input: CaptureInput, flags: u32) -> u32
    ensures closed { result ≡ 5 → IsClosed reader.new.kept.value reader.new.kept.at reader.new.is_open }
    ensures opens { OpensWith (flags_taken cut_alone flags) (λ set.
        OpensCapture (λ c. ⟦<Capture<CaptureInput> as PacketFeed>⟧.feed c) (tail_of set.allow_cut)
        (tells_of input) (input_coming input) (input_can_fail input) result reader.new.kept.value)
        result reader.old reader.new }
{
    let Some(set) = flags_taken(CUT_ALONE, flags) else {
        return MISUSE;
    };
    let capture = Capture::new(alloc, input, 1, tail_of(set.allow_cut));
    status_of_result(reader.hold(alloc, HandleValue::Capture(capture)))
}

/// Opens a capture over bytes in memory, which stay as they are until it is closed. What the handle held is closed.
#[unsafe(no_mangle)]
pub extern "C" fn capt_open(
    alloc: Global,
    reader: &mut Handle,
    bytes: &'static [u8],
    flags: u32,
) -> u32
    ensures closed { result ≡ 5 → IsClosed reader.new.kept.value reader.new.kept.at reader.new.is_open }
    ensures opens { OpensWith (flags_taken cut_alone flags) (λ set.
        OpensCapture (λ c. ⟦<Capture<CaptureInput> as PacketFeed>⟧.feed c) (tail_of set.allow_cut)
        true bytes.now false result reader.new.kept.value) result reader.old reader.new }
{
    let input = CaptureInput::Memory(Slice::new(bytes));
    open(alloc, reader, input, flags)
}

/// Opens a capture over standard input, which is read until it is closed. What the handle held is closed.
#[unsafe(no_mangle)]
pub extern "C" fn capt_open_stdin(
    alloc: Global,
    stdin: Stdin,
    reader: &mut Handle,
    flags: u32,
) -> u32
    ensures closed { result ≡ 5 → IsClosed reader.new.kept.value reader.new.kept.at reader.new.is_open }
    ensures opens { OpensWith (flags_taken cut_alone flags) (λ set.
        OpensCapture (λ c. ⟦<Capture<CaptureInput> as PacketFeed>⟧.feed c) (tail_of set.allow_cut)
        false [] true result reader.new.kept.value) result reader.old reader.new }
{
    let input = CaptureInput::Standard(Tracked::new(stdin));
    open(alloc, reader, input, flags)
}

/// Writes the next packet of a capture, and advances past it.
#[unsafe(no_mangle)]
pub extern "C" fn capt_next(
    alloc: Global,
    reader: &mut Handle,
    packet: &mut CPacket,
    place: &mut CPlace,
) -> u32
    ensures { Nexts (λ c. ⟦<Capture<CaptureInput> as PacketFeed>⟧.feed c) reader.old.kept.value packet.old place.old
        result
        packet.new place.new reader.new.kept.value }
{
    with_open!(reader, alloc, |held| next_of(&mut held, packet, place))
}

// Writes the next packets of what is held, if that is a capture.
fn next_many_of(
    held: &mut HandleValue,
    packets: &mut [CPacket],
    count: &mut usize,
    place: &mut CPlace,
) -> u32
    requires { 0 < length packets.old }
    ensures { NextsMany (λ c. ⟦<Capture<CaptureInput> as PacketFeed>⟧.feed c) (Some held.old)
        (record { count = count.old; packets = packets.old; place = place.old }) result
        (record { count = count.new; packets = packets.new; place = place.new }) (Some held.new) }
{
    match held {
        HandleValue::Capture(capture) => status_and_place(
            step_many(capture, packets, count),
            place,
        ),
        HandleValue::Fed(_)
        | HandleValue::Table(_)
        | HandleValue::Text(_)
        | HandleValue::Job(_)
        | HandleValue::Writer(_) => MISUSE,
    }
}

/// Writes the next packets of a capture, and advances past them: one, and those after it that need no further read, as
/// many as there is room for, at least for one.
#[unsafe(no_mangle)]
pub extern "C" fn capt_next_many(
    alloc: Global,
    reader: &mut Handle,
    packets: &mut [CPacket],
    count: &mut usize,
    place: &mut CPlace,
) -> u32
    ensures nexts { 0 < length packets.old
        → NextsMany (λ c. ⟦<Capture<CaptureInput> as PacketFeed>⟧.feed c) reader.old.kept.value
        (record { count = count.old; packets = packets.old; place = place.old }) result
        (record { count = count.new; packets = packets.new; place = place.new }) reader.new.kept.value }
    ensures misuse { length packets.old ≡ 0
        → Misused {X = Batch} result reader.old.kept.value reader.new.kept.value
        (record { count = count.old; packets = packets.old; place = place.old })
        (record { count = count.new; packets = packets.new; place = place.new }) }
{
    if packets.is_empty() {
        return MISUSE;
    }
    with_open!(
        reader,
        alloc,
        |held| next_many_of(&mut held, packets, count, place)
    )
}

/// Closes a handle. It may be closed already.
#[unsafe(no_mangle)]
pub extern "C" fn capt_close(alloc: Global, handle: &mut Handle)
    ensures { IsClosed handle.new.kept.value handle.new.kept.at handle.new.is_open }
{
    // dropping what was held closes it
    let _ = handle.take(alloc);
}

// How a capture ended, as a caller sees it.
fn end_shown(ending: Ending) -> End
    ensures { ShowsEnding ending result }
{
    let Ending {
        skipped,
        format,
        cut,
    } = ending;
    End {
        skipped,
        is_pcapng: format == Format::Pcapng,
        was_cut: cut.is_some(),
    }
}

// Writes how a capture that is fed ended, if it has.
fn end_of_fed(fed: &FedCapture, ending: &mut End) -> u32
    ensures { FedEndTold fed.now ending.old result ending.new }
{
    match fed.ending() {
        Some(end) => {
            *ending = end_shown(end.ending);
            DONE
        }
        None => MISUSE,
    }
}

// Writes how a capture ended, if it has no more packets.
fn end_of_capture(capture: &mut Capture<CaptureInput>, ending: &mut End) -> u32
    ensures answer { (answer : Result Head Fault)
        × GivesHead (⟦<Capture<CaptureInput> as PacketFeed>⟧.feed capture.old) answer
        (⟦<Capture<CaptureInput> as PacketFeed>⟧.feed capture.new)
        × EndTold (⟦<Capture<CaptureInput> as PacketFeed>⟧.feed capture.new) ending.old answer result ending.new }
    ensures keeps { FeedKeeps (⟦<Capture<CaptureInput> as PacketFeed>⟧.feed capture.old)
        (⟦<Capture<CaptureInput> as PacketFeed>⟧.feed capture.new) }
{
    match capture.head() {
        Ok(Head::End) => {
            *ending = end_shown(capture.ending(capture.file()));
            DONE
        }
        _ => MISUSE,
    }
}

// Writes how what is held ended, if that is a capture without more packets.
fn end_of(held: &mut HandleValue, ending: &mut End) -> u32
    ensures { TellsEnd (λ c. ⟦<Capture<CaptureInput> as PacketFeed>⟧.feed c)
        (Some held.old) ending.old result ending.new
        (Some held.new) }
{
    match held {
        HandleValue::Capture(capture) => end_of_capture(capture, ending),
        HandleValue::Fed(fed) => end_of_fed(fed, ending),
        HandleValue::Text(_)
        | HandleValue::Job(_)
        | HandleValue::Table(_)
        | HandleValue::Writer(_) => MISUSE,
    }
}

/// Writes how a capture ended, once all of its packets were returned.
#[unsafe(no_mangle)]
pub extern "C" fn capt_end(alloc: Global, reader: &mut Handle, ending: &mut End) -> u32
    ensures { TellsEnd (λ c. ⟦<Capture<CaptureInput> as PacketFeed>⟧.feed c) reader.old.kept.value ending.old result
        ending.new reader.new.kept.value }
{
    with_open!(reader, alloc, |held| end_of(&mut held, ending))
}
