//! A feed written as a pcap file.
ghost use Rattle.std.specs.Prelude.{◌≡◌, ◌≤◌, [], length, IsTrue, IsFalse, OnOk, Some, None};
ghost use Rattle.cap_bytes.specs.Device.{WriterKeeps, writer_of};
ghost use Rattle.cap_bytes.specs.Printing.{Prints, IsReadFault, is_write};
ghost use Rattle.cap_source.specs.Feed.{FeedKeeps};
ghost use Rattle.cap_source.specs.inner.Walk.{Walks, SameEndings};
ghost use Rattle.cap_source.specs.inner.Growing.{IfMemory};
ghost use Rattle.cap_source.specs.Items.{resolution_of_unit};
ghost use Rattle.cap_write.specs.Pcap.{first_in_unit, fraction_of, header_of, in_unit, packet_record, records_bytes};
ghost use Rattle.cap_write.specs.Pcap.{written_record_fault};
ghost use Rattle.cap_write.specs.Pcap.{records_refusal, pcap_bytes, pcap_refusal, bare_refusal};
ghost use Rattle.cap_write.specs.inner.Times.{HasTime, HasRecord, IsBare};
ghost use Rattle.cap_write.specs.Texts.{text_or};
ghost use Rattle.cap_write.specs.Numbering.{refusal_by};

use crate::interfaces::{FileStart, refused, units_of};
use cap_bytes::{Fault, Order, Refusal, Rule, Sink};
use cap_pcap::{PcapHeader, RecordTime, put_header, put_record};
use cap_source::{Head, Meta, PacketFeed};
use cap_time::{Interface, Resolution, Stamp, Unit};

// How many microseconds there are in a second.
const MICROSECONDS: u64 = 1_000_000;

// The resolution of times that count in a unit.
#[tactic(auto, using(cap_source::proofs::Resolutions::same_of_unit))]
fn resolution_of(unit: Unit) -> Resolution
    ensures { result ≡ resolution_of_unit unit }
{
    match unit {
        Unit::Micro => Resolution::from_code(6).unwrap(),
        Unit::Nano => Resolution::from_code(9).unwrap(),
    }
}

/// An interface whose times count in the unit that is asked for, if one is, in place of its own.
pub(crate) fn in_unit(unit: Option<Unit>, first: Interface) -> Interface
    ensures { result ≡ in_unit unit first }
{
    match unit {
        Some(unit) => {
            let mut in_unit = first;
            in_unit.resolution = resolution_of(unit);
            in_unit
        }
        None => first,
    }
}

// The same of a first interface, if there is one.
fn first_in_unit(unit: Option<Unit>, first: Option<Interface>) -> Option<Interface>
    ensures { result ≡ first_in_unit unit first }
{
    match first {
        Some(first) => Some(in_unit(unit, first)),
        None => None,
    }
}

// The fraction of a second in which times are written.
fn fraction_of(first: &Interface) -> Unit
    ensures { result ≡ fraction_of first.now }
{
    let units = first.resolution.units();
    if units == MICROSECONDS || MICROSECONDS % units == 0 {
        Unit::Micro
    } else {
        Unit::Nano
    }
}

/// The header that is written.
pub(crate) fn header_of(order: Order, first: &Interface) -> PcapHeader
    ensures { result ≡ header_of order first.now }
{
    PcapHeader {
        order,
        unit: fraction_of(first),
        snaplen: first.snaplen,
        link: first.link,
    }
}

// A time as it is written, or why it isn't.
fn time_of(units: u64, fraction: Unit, meta: &Meta) -> Result<RecordTime, Fault>
    ensures answer { HasTime fraction meta.now units result }
{
    let (seconds, fraction) = match Stamp::new(units, &meta.interface).whole_in(fraction) {
        Some(time) => time,
        None => return Err(refused(meta, Rule::Inexact)),
    };
    match u32::try_from(seconds) {
        Ok(seconds) => Ok(RecordTime { seconds, fraction }),
        Err(_) => Err(refused(meta, Rule::TimeRange)),
    }
}

// The time with which a packet is written after the header of that interface, or why it isn't.
fn written_time(first: &Interface, meta: &Meta) -> Result<RecordTime, Fault>
    ensures answer { HasRecord first.now meta.now result }
{
    let units = units_of(meta)?;
    if meta.interface.link != first.link {
        return Err(refused(meta, Rule::LinkMixed));
    }
    time_of(units, fraction_of(first), meta)
}

/// Writes a packet after the header of that interface, or returns why it isn't written.
pub(crate) fn put_after_header<W: Sink>(
    first: &Interface,
    order: Order,
    meta: &Meta,
    frame: &[u8],
    writer: &mut W,
) -> Result<(), Fault>
    requires captured { length frame.now ≤ 262144 }
    ensures text { IsTrue (W.tells_held writer.old)
        → Prints (text_or (written_record_fault first.now meta.now) (packet_record order first.now meta.now frame.now))
        (refusal_by meta.now (written_record_fault first.now meta.now))
        (W.held writer.old) result (W.held writer.new) }
    ensures whole { OnOk result (written_record_fault first.now meta.now ≡ None) }
    ensures writer { WriterKeeps (writer_of W.Sink writer.old) (is_write result) (writer_of W.Sink writer.new) }
    ensures read { IsReadFault result → ⊥ }
    ensures memory { IfMemory result ⊥ }
{
    let time = written_time(first, meta)?;
    put_record(writer, order, time, meta.original, frame)
}

// Writes the packets of a feed after the header of that interface.
fn put_records<F: PacketFeed, W: Sink>(
    feed: &mut F,
    order: Order,
    first: &Interface,
    writer: &mut W,
) -> Result<(), Fault>
    ensures text { IsTrue (F.feed feed.old).told → IsTrue (W.tells_held writer.old)
        → Prints (records_bytes order first.now (F.feed feed.old).items)
        (records_refusal first.now (F.feed feed.old).items)
        (W.held writer.old) result (W.held writer.new) }
    ensures writer { WriterKeeps (writer_of W.Sink writer.old) (is_write result) (writer_of W.Sink writer.new) }
    ensures walks { Walks (F.feed feed.old) result (F.feed feed.new) }
    ensures endings { OnOk result (IsTrue (F.feed feed.old).told → SameEndings (F.feed feed.old) (F.feed feed.new)) }
    ensures memory { IfMemory result ((F.feed feed.new).known ≡ None) }
    ensures keeps { FeedKeeps (F.feed feed.old) (F.feed feed.new) }
{
    while feed.peek()? {
        let meta = feed.packet();
        put_after_header(first, order, meta, feed.frame(), writer)?;
        feed.pass();
    }
    Ok(())
}

/// Writes a header and the packets of a feed after it.
pub(crate) fn put_file<F: PacketFeed, W: Sink>(
    feed: &mut F,
    order: Order,
    first: &Interface,
    writer: &mut W,
) -> Result<(), Fault>
    ensures text { IsTrue (F.feed feed.old).told → IsTrue (W.tells_held writer.old)
        → Prints (pcap_bytes order (Some first.now) (F.feed feed.old).items)
        (records_refusal first.now (F.feed feed.old).items)
        (W.held writer.old) result (W.held writer.new) }
    ensures writer { WriterKeeps (writer_of W.Sink writer.old) (is_write result) (writer_of W.Sink writer.new) }
    ensures walks { Walks (F.feed feed.old) result (F.feed feed.new) }
    ensures endings { OnOk result (IsTrue (F.feed feed.old).told → SameEndings (F.feed feed.old) (F.feed feed.new)) }
    ensures memory { IfMemory result ((F.feed feed.new).known ≡ None) }
    ensures keeps { FeedKeeps (F.feed feed.old) (F.feed feed.new) }
{
    put_header(writer, &header_of(order, first))?;
    put_records(feed, order, first, writer)
}

/// The refusal of a file of that number that describes no interface.
pub(crate) fn no_interface(file: u32) -> Fault
    ensures { result ≡ Fault.Refused (bare_refusal file []) }
{
    Fault::Refused(Refusal {
        file,
        offset: 0,
        rule: Rule::NoInterface,
    })
}

// Returns the refusal of a file that describes no interface: its own, or that it describes none.
fn refuse_bare<F: PacketFeed>(feed: &mut F, file: u32) -> Result<(), Fault>
    ensures text { IsTrue (F.feed feed.old).told
        → IsBare file (F.feed feed.old).items result }
    ensures walks { Walks (F.feed feed.old) result (F.feed feed.new) }
    ensures endings { OnOk result (IsTrue (F.feed feed.old).told → SameEndings (F.feed feed.old) (F.feed feed.new)) }
    ensures memory { IfMemory result ((F.feed feed.new).known ≡ None) }
    ensures keeps { FeedKeeps (F.feed feed.old) (F.feed feed.new) }
    ensures write { IsFalse (is_write result) }
{
    match feed.head()? {
        Head::Refused(refusal) => Err(Fault::Refused(refusal)),
        Head::Packet(_) | Head::End => Err(no_interface(file)),
    }
}

/// Writes the packets of a feed as the pcap file (draft-ietf-opsawg-pcap, 4 and 5), in that byte order, of a file of
/// that number with that first interface: with its link and its snaplen, in the unit that is asked for, else in
/// microseconds if each of its units is a whole number of them, else in nanoseconds. Returns `Refused`, in this order,
/// at a packet that has no time (rule 17, no-time), has another link (18, link-mixed), has a time that isn't whole in
/// that fraction (19, inexact) or one whose seconds are below 0 or above 4,294,967,295 (20, time-range), and if the
/// feed's items end in a refusal: what is written is the text of the packets before it. If there is no first interface,
/// the feed's own refusal, or rule 21, no-interface, is returned, and nothing is written. After `Read`, `Write` or
/// `Memory` a prefix of the text is written.
pub(crate) fn put_pcap<F: PacketFeed, W: Sink>(
    feed: &mut F,
    start: FileStart,
    order: Order,
    unit: Option<Unit>,
    writer: &mut W,
) -> Result<(), Fault>
    ensures text { IsTrue (F.feed feed.old).told → IsTrue (W.tells_held writer.old)
        → Prints (pcap_bytes order (first_in_unit unit start.first) (F.feed feed.old).items)
        (pcap_refusal start.file (first_in_unit unit start.first) (F.feed feed.old).items)
        (W.held writer.old) result (W.held writer.new) }
    ensures writer { WriterKeeps (writer_of W.Sink writer.old) (is_write result) (writer_of W.Sink writer.new) }
    ensures walks { Walks (F.feed feed.old) result (F.feed feed.new) }
    ensures endings { OnOk result (IsTrue (F.feed feed.old).told → SameEndings (F.feed feed.old) (F.feed feed.new)) }
    ensures memory { IfMemory result ((F.feed feed.new).known ≡ None) }
    ensures keeps { FeedKeeps (F.feed feed.old) (F.feed feed.new) }
{
    match first_in_unit(unit, start.first) {
        Some(first) => put_file(feed, order, &first, writer),
        None => refuse_bare(feed, start.file),
    }
}
