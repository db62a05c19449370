//! A capture whose bytes the caller feeds piece by piece.
ghost use Rattle.std.specs.Prelude.{◌≡◌, Some};
ghost use Rattle.cap_source.specs.inner.FedStates.{GivesFed};
ghost use Rattle.cap_commands.specs.Jobs.{tail_of};
ghost use Rattle.capt_c.specs.Feeding.{EndsHeld, FeedsHeld, OpensFed, StepsFedCapture, WritesFed, status_of_fed};
ghost use Rattle.capt_c.specs.Flags.{cut_alone, flags_taken};
ghost use Rattle.capt_c.specs.HandleValue.{IsClosed};
ghost use Rattle.capt_c.specs.Reading.{OpensWith};

use crate::answers::{
    CPlace, DONE, MISUSE, MORE, PACKET, Success, status_and_place, status_of_result, tail_of,
};
use crate::flags::{CUT_ALONE, flags_taken};
use crate::handles::{Handle, HandleValue, with_open};
use crate::packets::{CPacket, packet_of};
use cap_bytes::Fault;
use cap_source::{Fed, FedCapture};
use std::alloc::Global;

impl Success for Fed {
    ghost status = { status_of_fed };

    fn status(self) -> u32 {
        match self {
            Fed::Packet(_) => PACKET,
            Fed::More => MORE,
            Fed::End => DONE,
        }
    }
}

// Returns what is next in a capture that is fed. If that is a packet, writes it and advances past it.
fn next_fed(fed: &mut FedCapture, packet: &mut CPacket) -> Result<Fed, Fault>
    ensures gives { GivesFed fed.old result fed.new }
    ensures writes { WritesFed packet.old result packet.new }
{
    let next = fed.next()?;
    if let Fed::Packet(meta) = next {
        *packet = packet_of(&meta, fed.frame());
    }
    Ok(next)
}

/// Writes the next packet of a capture that is fed, and advances past it.
pub fn step_fed(fed: &mut FedCapture, packet: &mut CPacket, place: &mut CPlace) -> u32
    ensures { StepsFedCapture fed.old packet.old result packet.new place.new fed.new }
{
    status_and_place(next_fed(fed, packet), place)
}

/// Opens a capture whose bytes `capt_feed` feeds. What the handle held is closed.
#[unsafe(no_mangle)]
pub extern "C" fn capt_open_fed(alloc: Global, reader: &mut Handle, flags: u32) -> u32
    ensures closed { result ≡ 5 → IsClosed reader.new.kept.value reader.new.kept.at reader.new.is_open }
    ensures opens { OpensWith (flags_taken cut_alone flags)
        (λ set. OpensFed (tail_of set.allow_cut) result reader.new.kept.value) result reader.old reader.new }
{
    let Some(set) = flags_taken(CUT_ALONE, flags) else {
        return MISUSE;
    };
    let fed = FedCapture::new(alloc, 1, tail_of(set.allow_cut));
    status_of_result(reader.hold(alloc, HandleValue::Fed(fed)))
}

// Feeds bytes to what is held, if that is a capture that is fed and hasn't ended.
fn feed_of(held: &mut HandleValue, bytes: &[u8]) -> u32
    ensures { FeedsHeld (Some held.old) bytes.now result (Some held.new) }
{
    match held {
        HandleValue::Fed(fed) if !fed.has_ended() => status_of_result(fed.feed(bytes)),
        _ => MISUSE,
    }
}

/// Feeds the next bytes of a capture, which are copied.
#[unsafe(no_mangle)]
pub extern "C" fn capt_feed(alloc: Global, reader: &mut Handle, bytes: &[u8]) -> u32
    ensures { FeedsHeld reader.old.kept.value bytes.now result reader.new.kept.value }
{
    with_open!(reader, alloc, |held| feed_of(&mut held, bytes))
}

// Ends what is held, if that is a capture that is fed.
fn end_fed(held: &mut HandleValue) -> u32
    ensures { EndsHeld (Some held.old) result (Some held.new) }
{
    match held {
        HandleValue::Fed(fed) => {
            fed.end();
            DONE
        }
        HandleValue::Capture(_)
        | HandleValue::Table(_)
        | HandleValue::Text(_)
        | HandleValue::Job(_)
        | HandleValue::Writer(_) => MISUSE,
    }
}

/// Ends a capture all of whose bytes were fed.
#[unsafe(no_mangle)]
pub extern "C" fn capt_feed_end(alloc: Global, reader: &mut Handle) -> u32
    ensures { EndsHeld reader.old.kept.value result reader.new.kept.value }
{
    with_open!(reader, alloc, |held| end_fed(&mut held))
}
