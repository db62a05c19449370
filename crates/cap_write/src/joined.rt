//! Files of whole datagrams.
ghost use Rattle.std.specs.Prelude.{◌≡◌, ◌+◌, ◌≤◌, ◌<◌, ◌^◌, length, List, [], IsSome, IsTrue, OnOk, None};
ghost use Rattle.std.specs.Prelude.{◌∷◌, is_some};
ghost use Rattle.cap_bytes.specs.Device.{WriterKeeps, writer_of};
ghost use Rattle.cap_bytes.specs.Printing.{Prints, IsReadFault, is_write};
ghost use Rattle.cap_class.specs.Taken.{Taken};
ghost use Rattle.cap_join.specs.History.{Event};
ghost use Rattle.cap_join.specs.Joiners.{JoinerStandsFor};
ghost use Rattle.cap_merge.specs.Parts.{merged_feed, run_of};
ghost use Rattle.cap_merge.specs.inner.View.{parts_of};
ghost use Rattle.cap_source.specs.Feed.{FeedKeeps};
ghost use Rattle.cap_source.specs.inner.Walk.{Walks, SameEndings};
ghost use Rattle.cap_source.specs.inner.Growing.{IfMemory, IsAtPacket};
ghost use Rattle.cap_class.specs.Runs.{taken_of};
ghost use Rattle.cap_class.specs.Runs.{taken_after};
ghost use Rattle.cap_write.specs.LeftOut.{CountsLeftOut};
ghost use Rattle.cap_write.specs.inner.Datagrams.{JoinerStands};
ghost use Rattle.cap_write.specs.inner.Forms.{IsFew, form_behind, form_refusal, form_stop, form_text, form_state};
ghost use Rattle.cap_write.specs.inner.LeftCounts.{StandsForTaken};
ghost use Rattle.cap_write.specs.Joined.{datagram_meta, joined_items, joined_bytes, joined_refusal};
ghost use Rattle.cap_write.specs.PcapRun.{joined_pcap_bytes, joined_pcap_refusal};
ghost use Rattle.cap_write.specs.inner.RunPackets.{events_behind, items_by};

use crate::datagrams::{Joining, take_packet};
use crate::forms::{WrittenForm, end_of, put_in};
use crate::interfaces::{Origins, units_of};
use crate::left_out::LeftOut;
use cap_blocks::put_section;
use cap_bytes::{Fault, Order, Sink};
use cap_join::Joiner;
use cap_merge::{Merged, RunPacket};
use cap_source::{Meta, PacketFeed};
use cap_time::{Interface, Unit};
use std::alloc::Global;

// LINKTYPE_RAW: no link header, an IPv4 or IPv6 packet.
const RAW: u16 = 101;

// What is known of a datagram of that many bytes, written as one packet; that packet of the run completed it.
fn datagram_meta(meta: &Meta, size: u32) -> Meta
    ensures { result ≡ datagram_meta meta.now size }
{
    Meta {
        file: meta.file,
        offset: meta.offset,
        format: meta.format,
        skipped: meta.skipped,
        instance: meta.instance,
        interface: Interface {
            link: RAW,
            snaplen: 0,
            resolution: meta.interface.resolution,
            offset: meta.interface.offset,
        },
        units: meta.units,
        captured: size,
        original: size,
    }
}

// Writes the datagram that a packet of a run completes, if it does.
fn put_completed<W: Sink>(
    form: &mut WrittenForm,
    joining: &mut Joining,
    order: Order,
    run: RunPacket<'_>,
    writer: &mut W,
) -> Result<(), Fault>
    requires limit { IsFew (form_state form.old) }
    requires stands { JoinerStands joining.old.joiner }
    requires place { joining.old.joiner.next ≤ joining.old.place }
    requires last { joining.old.place < 2 ^ 63 }
    requires taken { (xs : List Taken) × StandsForTaken xs joining.old.place joining.old.joiner joining.old.left }
    ensures text { IsTrue (W.tells_held writer.old) → (events : List Event) → JoinerStandsFor joining.old.joiner events
        → Prints (form_text order (form_state form.old) (items_by joining.old.place run.entry events))
        (form_stop (form_state form.old) (items_by joining.old.place run.entry events))
        (W.held writer.old) result (W.held writer.new) }
    ensures form { OnOk result ((events : List Event) → JoinerStandsFor joining.old.joiner events
        → (form_state form.new ≡ form_behind (form_state form.old) (items_by joining.old.place run.entry events))
        × (form_stop (form_state form.old) (items_by joining.old.place run.entry events) ≡ None)) }
    ensures stands { OnOk result ((events : List Event) → JoinerStandsFor joining.old.joiner events
        → JoinerStandsFor joining.new.joiner
        (events_behind joining.old.place run.entry events)) }
    ensures next { OnOk result (joining.new.joiner.next ≤ joining.old.place + 1) }
    ensures taken { OnOk result ((xs : List Taken) → StandsForTaken xs joining.old.place joining.old.joiner
        joining.old.left → StandsForTaken (taken_of run.entry ∷ xs) (joining.old.place + 1) joining.new.joiner
        joining.new.left) }
    ensures asked { is_some joining.new.left ≡ is_some joining.old.left }
    ensures same { joining.new.place ≡ joining.old.place }
    ensures limit { IsFew (form_state form.new) }
    ensures writer { WriterKeeps (writer_of W.Sink writer.old) (is_write result) (writer_of W.Sink writer.new) }
    ensures read { IsReadFault result → ⊥ }
    ensures memory { IfMemory result (IsSome run.entry.meta.now.units) }
{
    units_of(run.meta)?;
    if take_packet(joining, run)? {
        let meta = datagram_meta(run.meta, joining.packet.len() as u32);
        put_in(form, order, &meta, joining.packet.as_slice(), writer)
    } else {
        Ok(())
    }
}

// Writes the datagrams of a run, after what was written before.
fn put_joined<F: PacketFeed, W: Sink>(
    alloc: Global,
    merged: &mut Merged<F>,
    order: Order,
    form: &mut WrittenForm,
    left: &mut Option<LeftOut>,
    writer: &mut W,
) -> Result<(), Fault>
    requires limit { IsFew (form_state form.old) }
    requires none { CountsLeftOut left.old [] }
    ensures text { IsTrue (merged_feed (parts_of merged.old)).told → IsTrue (W.tells_held writer.old)
        → Prints (form_text order (form_state form.old) (joined_items 0 [] (run_of (parts_of merged.old))))
        (form_refusal (form_state form.old) (joined_items 0 [] (run_of (parts_of merged.old))))
        (W.held writer.old) result (W.held writer.new) }
    ensures writer { WriterKeeps (writer_of W.Sink writer.old) (is_write result) (writer_of W.Sink writer.new) }
    ensures walks { Walks (merged_feed (parts_of merged.old)) result (merged_feed (parts_of merged.new)) }
    ensures left { OnOk result (IsTrue (merged_feed (parts_of merged.old)).told
        → CountsLeftOut left.new (taken_after [] (run_of (parts_of merged.old)))) }
    ensures asked { is_some left.new ≡ is_some left.old }
    ensures endings { OnOk result (IsTrue (merged_feed (parts_of merged.old)).told
        → SameEndings (merged_feed (parts_of merged.old)) (merged_feed (parts_of merged.new))) }
    ensures memory { IfMemory result (IsAtPacket (merged_feed (parts_of merged.new)).known) }
    ensures keeps { FeedKeeps (merged_feed (parts_of merged.old)) (merged_feed (parts_of merged.new)) }
{
    let mut joining = Joining {
        joiner: Joiner::new(alloc),
        packet: Vec::new(alloc),
        place: 0,
        left: *left,
    };
    // 32 files at most, of fewer than 2^40 packets each: so the place stays below 2^63
    let _ = merged.files();
    while merged.peek()? {
        put_completed(form, &mut joining, order, merged.next_packet(), writer)?;
        merged.pass();
        joining.place += 1;
    }
    *left = joining.left;
    end_of(form)
}

/// Writes what `write_joined` writes, and returns what it returns. If `left` is some, the packets of the run that are
/// in no written datagram are counted there, by their class in a report of the run: it is to be `NO_PACKETS_LEFT_OUT`
/// before. It says so once all is done.
pub fn write_joined_and_count<F: PacketFeed, W: Sink>(
    alloc: Global,
    merged: &mut Merged<F>,
    order: Order,
    left: &mut Option<LeftOut>,
    writer: &mut W,
) -> Result<(), Fault>
    requires none { CountsLeftOut left.old [] }
    ensures text { IsTrue (merged_feed (parts_of merged.old)).told → IsTrue (W.tells_held writer.old)
        → Prints (joined_bytes order (run_of (parts_of merged.old))) (joined_refusal (run_of (parts_of merged.old)))
        (W.held writer.old) result (W.held writer.new) }
    ensures writer { WriterKeeps (writer_of W.Sink writer.old) (is_write result) (writer_of W.Sink writer.new) }
    ensures walks { Walks (merged_feed (parts_of merged.old)) result (merged_feed (parts_of merged.new)) }
    ensures left { OnOk result (IsTrue (merged_feed (parts_of merged.old)).told
        → CountsLeftOut left.new (taken_after [] (run_of (parts_of merged.old)))) }
    ensures asked { is_some left.new ≡ is_some left.old }
    ensures endings { OnOk result (IsTrue (merged_feed (parts_of merged.old)).told
        → SameEndings (merged_feed (parts_of merged.old)) (merged_feed (parts_of merged.new))) }
    ensures memory { IfMemory result (IsAtPacket (merged_feed (parts_of merged.new)).known) }
    ensures keeps { FeedKeeps (merged_feed (parts_of merged.old)) (merged_feed (parts_of merged.new)) }
{
    put_section(writer, order)?;
    let mut numbered = WrittenForm::Pcapng(Origins::own(alloc));
    put_joined(alloc, merged, order, &mut numbered, left, writer)
}

/// Writes the datagrams of a run of packets as a pcapng file (draft-ietf-opsawg-pcapng, 4) of one section in
/// that byte order: each whole IPv4 datagram, and each that is joined of fragments (RFC 791, 3.2), as one packet
/// without a link header, of the datagram's header without options and all of its data. It has the place, the
/// time and the interface's number of the packet that completed it; the interface has link 101 and no snaplen.
/// A datagram isn't written if some of its data wasn't captured, or if it is UDP or TCP and its data doesn't have
/// that form; nor is a frame that isn't IPv4. Interfaces are numbered by first use.
///
/// Returns `Refused` at a packet that has no time (rule 17, no-time), whatever it holds, at one that
/// completes a datagram whose interface would be the 1,025th (rule 13, interface-limit), and if the run
/// ends in a refusal: what is written is the text of the datagrams before it. After `Read`, `Write` or
/// `Memory` a prefix of the text is written.
pub fn write_joined<F: PacketFeed, W: Sink>(
    alloc: Global,
    merged: &mut Merged<F>,
    order: Order,
    writer: &mut W,
) -> Result<(), Fault>
    ensures text { IsTrue (merged_feed (parts_of merged.old)).told → IsTrue (W.tells_held writer.old)
        → Prints (joined_bytes order (run_of (parts_of merged.old))) (joined_refusal (run_of (parts_of merged.old)))
        (W.held writer.old) result (W.held writer.new) }
    ensures writer { WriterKeeps (writer_of W.Sink writer.old) (is_write result) (writer_of W.Sink writer.new) }
    ensures walks { Walks (merged_feed (parts_of merged.old)) result (merged_feed (parts_of merged.new)) }
    ensures endings { OnOk result (IsTrue (merged_feed (parts_of merged.old)).told
        → SameEndings (merged_feed (parts_of merged.old)) (merged_feed (parts_of merged.new))) }
    ensures memory { IfMemory result (IsAtPacket (merged_feed (parts_of merged.new)).known) }
    ensures keeps { FeedKeeps (merged_feed (parts_of merged.old)) (merged_feed (parts_of merged.new)) }
{
    let mut left = None;
    write_joined_and_count(alloc, merged, order, &mut left, writer)
}

/// Writes what `write_joined_pcap` writes, and returns what it returns, with packets counted in `left` as
/// `write_joined_and_count` does.
pub fn write_joined_pcap_and_count<F: PacketFeed, W: Sink>(
    alloc: Global,
    merged: &mut Merged<F>,
    order: Order,
    unit: Option<Unit>,
    left: &mut Option<LeftOut>,
    writer: &mut W,
) -> Result<(), Fault>
    requires none { CountsLeftOut left.old [] }
    ensures text { IsTrue (merged_feed (parts_of merged.old)).told → IsTrue (W.tells_held writer.old)
        → Prints (joined_pcap_bytes unit order (run_of (parts_of merged.old)))
        (joined_pcap_refusal unit (run_of (parts_of merged.old)))
        (W.held writer.old) result (W.held writer.new) }
    ensures writer { WriterKeeps (writer_of W.Sink writer.old) (is_write result) (writer_of W.Sink writer.new) }
    ensures walks { Walks (merged_feed (parts_of merged.old)) result (merged_feed (parts_of merged.new)) }
    ensures left { OnOk result (IsTrue (merged_feed (parts_of merged.old)).told
        → CountsLeftOut left.new (taken_after [] (run_of (parts_of merged.old)))) }
    ensures asked { is_some left.new ≡ is_some left.old }
    ensures endings { OnOk result (IsTrue (merged_feed (parts_of merged.old)).told
        → SameEndings (merged_feed (parts_of merged.old)) (merged_feed (parts_of merged.new))) }
    ensures memory { IfMemory result (IsAtPacket (merged_feed (parts_of merged.new)).known) }
    ensures keeps { FeedKeeps (merged_feed (parts_of merged.old)) (merged_feed (parts_of merged.new)) }
{
    let mut headed = WrittenForm::Pcap(unit, None);
    put_joined(alloc, merged, order, &mut headed, left, writer)
}

/// Writes the datagrams of a run of packets as a pcap file (draft-ietf-opsawg-pcap, 4 and 5) in that byte order: the
/// datagrams that `write_joined` writes, with link 101 and no snaplen, in the unit that is asked for, else in
/// microseconds if each unit of the first datagram's interface is a whole number of them, else in nanoseconds.
///
/// Returns `Refused` at a packet that has no time (rule 17, no-time), whatever it holds, at one that completes a
/// datagram and has a time that isn't whole in that fraction (19, inexact) or one whose seconds are below 0 or above
/// 4,294,967,295 (20, time-range), and if the run ends in a refusal: what is written is the text of the datagrams
/// before it. The header is written with the first datagram; if none comes, nothing is written, and unless the run ends
/// in a refusal rule 21, no-interface, is returned of file 1. After `Read`, `Write` or `Memory` a prefix of the text is
/// written.
pub fn write_joined_pcap<F: PacketFeed, W: Sink>(
    alloc: Global,
    merged: &mut Merged<F>,
    order: Order,
    unit: Option<Unit>,
    writer: &mut W,
) -> Result<(), Fault>
    ensures text { IsTrue (merged_feed (parts_of merged.old)).told → IsTrue (W.tells_held writer.old)
        → Prints (joined_pcap_bytes unit order (run_of (parts_of merged.old)))
        (joined_pcap_refusal unit (run_of (parts_of merged.old)))
        (W.held writer.old) result (W.held writer.new) }
    ensures writer { WriterKeeps (writer_of W.Sink writer.old) (is_write result) (writer_of W.Sink writer.new) }
    ensures walks { Walks (merged_feed (parts_of merged.old)) result (merged_feed (parts_of merged.new)) }
    ensures endings { OnOk result (IsTrue (merged_feed (parts_of merged.old)).told
        → SameEndings (merged_feed (parts_of merged.old)) (merged_feed (parts_of merged.new))) }
    ensures memory { IfMemory result (IsAtPacket (merged_feed (parts_of merged.new)).known) }
    ensures keeps { FeedKeeps (merged_feed (parts_of merged.old)) (merged_feed (parts_of merged.new)) }
{
    let mut left = None;
    write_joined_pcap_and_count(alloc, merged, order, unit, &mut left, writer)
}
