//! One capture file written in either format.
ghost use Rattle.std.specs.Prelude.{◌≡◌, ◌⊎◌, None, IsSome, IsTrue, OnOk};
ghost use Rattle.cap_bytes.specs.Device.{WriterKeeps, writer_of};
ghost use Rattle.cap_bytes.specs.Printing.{Prints, is_write};
ghost use Rattle.cap_write.specs.Pcap.{first_in_unit, pcap_bytes, pcap_refusal};
ghost use Rattle.cap_write.specs.Texts.{pcapng_bytes, pcapng_refusal};
ghost use Rattle.cap_source.specs.Feed.{FeedKeeps};
ghost use Rattle.cap_source.specs.inner.Walk.{Walks, SameEndings};
ghost use Rattle.cap_source.specs.inner.Growing.{IfMemory, IsAtPacket};
ghost use Rattle.cap_source.specs.inner.Captures.{capture_feed, capture_number, capture_first};

use crate::interfaces::FileStart;
use crate::pcap::put_pcap;
use crate::pcapng::put_pcapng;
use cap_bytes::{Fault, Order, Sink, Source};
use cap_source::{Capture, PacketFeed};
use cap_time::Unit;
use std::alloc::Global;

/// Writes a file as a pcapng file (draft-ietf-opsawg-pcapng, 4) of one section in that byte order: its first
/// interface, if one stands before the first packet, right after the section header, and each other interface
/// in front of its first packet. Nothing of the file was passed before. Returns `Refused` at a packet that has no time
/// (rule 17, no-time), at one whose interface would be the 1,025th (rule 13, interface-limit), and if
/// the file's packets end in a refusal: what is written is the text of the packets before it. After
/// `Read`, `Write` or `Memory` a prefix of the text is written.
pub fn to_pcapng<R: Source, W: Sink>(
    alloc: Global,
    capture: &mut Capture<R>,
    order: Order,
    writer: &mut W,
) -> Result<(), Fault>
    ensures text { IsTrue (capture_feed capture.old).told → IsTrue (W.tells_held writer.old)
        → Prints (pcapng_bytes order (capture_number capture.old) (capture_first capture.old)
        (capture_feed capture.old).items)
        (pcapng_refusal (capture_number capture.old) (capture_first capture.old) (capture_feed capture.old).items)
        (W.held writer.old) result (W.held writer.new) }
    ensures writer { WriterKeeps (writer_of W.Sink writer.old) (is_write result) (writer_of W.Sink writer.new) }
    ensures walks { Walks (capture_feed capture.old) result (capture_feed capture.new) }
    ensures endings { OnOk result (IsTrue (capture_feed capture.old).told
        → SameEndings (capture_feed capture.old) (capture_feed capture.new)) }
    ensures memory { IfMemory result (IsAtPacket (capture_feed capture.new).known
        ⊎ (IsTrue (capture_feed capture.old).told → IsSome (capture_first capture.old))) }
    ensures keeps { FeedKeeps (capture_feed capture.old) (capture_feed capture.new) }
{
    let file = capture.file();
    let first = capture.first()?;
    put_pcapng(alloc, capture, FileStart { file, first }, order, writer)
}

/// Writes a file as a pcap file (draft-ietf-opsawg-pcap, 4 and 5) in that byte order, with the link and the
/// snaplen of its first interface, in the unit that is asked for, else in microseconds if each of that interface's
/// units is a whole number of them, else in nanoseconds. Nothing of the file was passed before. Returns `Refused`, in
/// this order, at a packet that has no time (rule 17, no-time), has another link (18, link-mixed), has a time that
/// isn't whole in that fraction (19, inexact) or one whose seconds are below 0 or above 4,294,967,295 (20,
/// time-range), and if the file's packets end in a refusal: what is written is the text of the packets before it. A
/// file that describes no interface before its first packet is refused, by its own refusal or by rule 21,
/// no-interface, and nothing is written. After `Read`, `Write` or `Memory` a prefix of the text is written.
pub fn to_pcap<R: Source, W: Sink>(
    capture: &mut Capture<R>,
    order: Order,
    unit: Option<Unit>,
    writer: &mut W,
) -> Result<(), Fault>
    ensures text { IsTrue (capture_feed capture.old).told → IsTrue (W.tells_held writer.old)
        → Prints (pcap_bytes order (first_in_unit unit (capture_first capture.old)) (capture_feed capture.old).items)
        (pcap_refusal (capture_number capture.old) (first_in_unit unit (capture_first capture.old))
        (capture_feed capture.old).items)
        (W.held writer.old) result (W.held writer.new) }
    ensures writer { WriterKeeps (writer_of W.Sink writer.old) (is_write result) (writer_of W.Sink writer.new) }
    ensures walks { Walks (capture_feed capture.old) result (capture_feed capture.new) }
    ensures endings { OnOk result (IsTrue (capture_feed capture.old).told
        → SameEndings (capture_feed capture.old) (capture_feed capture.new)) }
    ensures memory { IfMemory result ((capture_feed capture.new).known ≡ None) }
    ensures keeps { FeedKeeps (capture_feed capture.old) (capture_feed capture.new) }
{
    let file = capture.file();
    let first = capture.first()?;
    put_pcap(capture, FileStart { file, first }, order, unit, writer)
}
