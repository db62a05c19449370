//! IPv4 datagrams as packets: whole ones, and those that are joined of fragments.
ghost use Rattle.std.specs.Prelude.{◌≡◌, ◌+◌, ◌≤◌, ◌<◌, ◌^◌, ◌++◌, ◌==◌, ◌&&◌, ◌∷◌, length, List, IsTrue, IsOkUnless};
ghost use Rattle.std.specs.Prelude.{IfOk, OnOk, IsSome, is_some, ℕ};
ghost use Rattle.cap_class.specs.Taken.{Taken, classify, fragment, stamped_of};
ghost use Rattle.cap_ip.specs.Header.{IsWellFormed};
ghost use Rattle.cap_ip.specs.Transport.{transport_of};
ghost use Rattle.cap_ip.specs.Written.{ipv4_header_bytes};
ghost use Rattle.cap_join.specs.Fragments.{piece_of};
ghost use Rattle.cap_join.specs.History.{Event, arrives};
ghost use Rattle.cap_join.specs.Joiners.{JoinerStandsFor};
ghost use Rattle.cap_class.specs.Runs.{taken_of};
ghost use Rattle.cap_write.specs.inner.Datagrams.{IsFilled, JoinerStands};
ghost use Rattle.cap_write.specs.inner.LeftCounts.{StandsForTaken};
ghost use Rattle.cap_write.specs.inner.RunPackets.{completed_by, events_behind};
ghost use Rattle.cap_write.specs.Joined.{complete_of, group_after, has_form, joined_of};

use crate::left_out::{LeftOut, count_class, count_datagram, count_group};
use cap_bytes::Fault;
use cap_class::{Class, Classified, classify, stamped_of};
use cap_ip::{Header, Transport, transport};
use cap_join::{Joiner, Put};
use cap_merge::RunPacket;

/// A run whose datagrams are being joined: a joiner, and a buffer for a datagram.
#[derive(Drop)]
pub(crate) struct Joining {
    /// The joiner.
    pub joiner: Joiner,
    /// The bytes of the datagram that was completed last.
    pub packet: Vec<u8>,
    /// The place in the run of the packet that comes next, from 0.
    pub place: u64,
    /// How many packets are left out so far, if they are counted.
    pub left: Option<LeftOut>,
}

// Appends bytes.
fn append(packet: &mut Vec<u8>, bytes: &[u8]) -> Result<(), Fault>
    ensures items { OnOk result (packet.new.items ≡ packet.old.items ++ bytes.now) }
    ensures fault { IsOkUnless result Fault.Memory }
{
    match packet.extend_from_slice(bytes) {
        Ok(()) => Ok(()),
        Err(_) => Err(Fault::Memory),
    }
}

// Puts a datagram into an empty packet.
fn fill(packet: &mut Vec<u8>, header: &Header, bytes: &[u8]) -> Result<(), Fault>
    requires short { length bytes.now ≤ 65515 }
    ensures items { OnOk result (packet.new.items ≡ ipv4_header_bytes header.now (length bytes.now) ++ bytes.now) }
    ensures short { OnOk result (length packet.new.items ≤ 65535) }
    ensures fault { IsOkUnless result Fault.Memory }
{
    packet.clear();
    append(packet, &header.to_bytes(bytes.len() as u16))?;
    append(packet, bytes)
}

// Whether data has the form of its protocol, as far as its ports.
fn has_form(transport: Transport) -> bool
    ensures { result ≡ has_form transport }
{
    match transport {
        Transport::Ports(_, _) => true,
        Transport::NoPorts => true,
        Transport::Bad => false,
        Transport::Cut => false,
    }
}

// Whether all of a datagram's data was captured, and has the form of its protocol.
fn is_complete(header: &Header, captured: &[u8], size: u32) -> bool
    ensures { result ≡ ((length captured.now == size)
        && has_form (transport_of header.now.key.protocol captured.now size)) }
{
    captured.len() == size as usize && has_form(transport(header.key().protocol, captured, size))
}

// Puts a datagram into the packet, if it is complete.
#[tactic(auto, unfolding(crate::specs::Joined::complete_of))]
fn fill_complete(
    packet: &mut Vec<u8>,
    header: &Header,
    captured: &[u8],
    size: u32,
) -> Result<bool, Fault>
    requires short { size ≤ 65515 }
    ensures filled { IfOk result (λ some. IsFilled (complete_of header.now captured.now size) some packet.new.items) }
    ensures short { IfOk result (λ some. IsTrue some → length packet.new.items ≤ 65535) }
    ensures fault { IsOkUnless result Fault.Memory }
{
    if !is_complete(header, captured, size) {
        return Ok(false);
    }
    fill(packet, header, captured)?;
    Ok(true)
}

// Puts a fragment, and the datagram that it completes into `joining.packet`, if it does.
fn take_fragment(
    joining: &mut Joining,
    run: RunPacket<'_>,
    header: &Header,
    bytes: &[u8],
) -> Result<bool, Fault>
    requires formed { IsWellFormed header.now }
    requires fragment { IsSome header.now.fragment }
    requires whole { length bytes.now ≡ header.now.data_length }
    requires stands { JoinerStands joining.old.joiner }
    requires place { joining.old.joiner.next ≤ joining.old.place }
    requires last { joining.old.place < 2 ^ 63 }
    requires taken { (xs : List Taken) × StandsForTaken xs joining.old.place joining.old.joiner joining.old.left }
    requires classify { (place : ℕ) → classify place (taken_of run)
        ≡ fragment (piece_of header.now bytes.now (stamped_of place run.meta.now)) }
    ensures filled { IfOk result (λ some. (events : List Event) → JoinerStandsFor joining.old.joiner events →
        IsFilled (joined_of (group_after run.entry.clock.now events
        (piece_of header.now bytes.now (stamped_of joining.old.place run.entry.meta.now)))) some
        joining.new.packet.items) }
    ensures stands { OnOk result ((events : List Event) → JoinerStandsFor joining.old.joiner events →
        JoinerStandsFor joining.new.joiner (arrives run.entry.clock.now
        (piece_of header.now bytes.now (stamped_of joining.old.place run.entry.meta.now)) ∷ events)) }
    ensures next { OnOk result (joining.new.joiner.next ≤ joining.old.place + 1) }
    ensures short { IfOk result (λ some. IsTrue some → length joining.new.packet.items ≤ 65535) }
    ensures taken { OnOk result ((xs : List Taken) → StandsForTaken xs joining.old.place joining.old.joiner
        joining.old.left → StandsForTaken (taken_of run.entry ∷ xs) (joining.old.place + 1) joining.new.joiner
        joining.new.left) }
    ensures asked { is_some joining.new.left ≡ is_some joining.old.left }
    ensures same { joining.new.place ≡ joining.old.place }
    ensures fault { IsOkUnless result Fault.Memory }
{
    let stamped = stamped_of(joining.place, run.meta.time(), run.meta);
    match joining.joiner.put(*run.clock, header, bytes, stamped) {
        Ok(Put::Kept) => {
            count_class(&mut joining.left, Class::Unjoined);
            Ok(false)
        }
        Ok(Put::Joined(datagram)) => {
            count_group(&mut joining.left, &datagram);
            let data = datagram.payload.as_slice();
            fill_complete(
                &mut joining.packet,
                &datagram.header,
                data,
                data.len() as u32,
            )
        }
        Err(_) => Err(Fault::Memory),
    }
}

/// Takes a packet of a run, and puts the datagram that it completes into `joining.packet`. Returns whether there
/// is one: a whole datagram, or one whose last missing fragment this is, if all of its data was captured and has
/// the form of its protocol. If packets are counted it counts the packet. Returns `Memory` if a growth was refused.
#[tactic(auto, unfolding(crate::specs::Joined::completed, crate::specs::Joined::events_after))]
pub(crate) fn take_packet(joining: &mut Joining, run: RunPacket<'_>) -> Result<bool, Fault>
    requires stands { JoinerStands joining.old.joiner }
    requires place { joining.old.joiner.next ≤ joining.old.place }
    requires last { joining.old.place < 2 ^ 63 }
    requires taken { (xs : List Taken) × StandsForTaken xs joining.old.place joining.old.joiner joining.old.left }
    ensures filled { IfOk result (λ some. (events : List Event) → JoinerStandsFor joining.old.joiner events →
        IsFilled (completed_by joining.old.place run.entry events) some joining.new.packet.items) }
    ensures stands { OnOk result ((events : List Event) → JoinerStandsFor joining.old.joiner events →
        JoinerStandsFor joining.new.joiner (events_behind joining.old.place run.entry events)) }
    ensures next { OnOk result (joining.new.joiner.next ≤ joining.old.place + 1) }
    ensures short { IfOk result (λ some. IsTrue some → length joining.new.packet.items ≤ 65535) }
    ensures taken { OnOk result ((xs : List Taken) → StandsForTaken xs joining.old.place joining.old.joiner
        joining.old.left → StandsForTaken (taken_of run.entry ∷ xs) (joining.old.place + 1) joining.new.joiner
        joining.new.left) }
    ensures asked { is_some joining.new.left ≡ is_some joining.old.left }
    ensures same { joining.new.place ≡ joining.old.place }
    ensures fault { IsOkUnless result Fault.Memory }
{
    match classify(run.meta, run.frame) {
        Classified::Plain(class) => {
            count_class(&mut joining.left, class);
            Ok(false)
        }
        Classified::Datagram(header, captured) => {
            joining.joiner.flush(header.key());
            count_datagram(&mut joining.left, &header, captured);
            fill_complete(&mut joining.packet, &header, captured, header.data_length())
        }
        Classified::Fragment(header, bytes) => take_fragment(joining, run, &header, bytes),
    }
}
