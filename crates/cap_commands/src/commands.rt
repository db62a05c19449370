//! What `capt convert`, `merge` and `join` write of files.
ghost use Rattle.std.specs.Prelude.{◌≤◌, ◌∷◌, [], IsTrue, map, vec_len};
ghost use Rattle.std.specs.List.{list_all};
ghost use Rattle.cap_bytes.specs.Device.{WriterKeeps, writer_of};
ghost use Rattle.cap_bytes.specs.Printing.{Prints, is_write};
ghost use Rattle.cap_source.specs.ReadFaults.{FailsOf};
ghost use Rattle.cap_commands.specs.Converted.{convert_text, convert_refusal};
ghost use Rattle.cap_commands.specs.JoinText.{join_text, join_text_in, join_refusal, join_refusal_in};
ghost use Rattle.cap_commands.specs.MergeText.{merge_text, merge_text_in, merge_refusal, merge_refusal_in};

use crate::counting::{OutputFormat, RunForm, convert_and_count, join_and_count, merge_and_count};
use cap_bytes::{Fault, Order, Sink, Source, Tail};
use cap_time::Unit;
use std::alloc::Global;

/// Writes the packets of a capture file of either format as a file of that format, with numbers in that byte order,
/// exactly as they were read, up to the first refusal, which it returns: one of the file that is read, or of a packet
/// that the format can't hold (rules 13 and 17 in pcapng, 17 to 21 in pcap: see `to_pcapng` and `to_pcap`). Returns
/// `Read` if a read fails, `Write` if a write does, `Memory` if a growth is refused; after these a prefix of that
/// text is written.
pub fn convert_to<R: Source, W: Sink>(
    alloc: Global,
    source: R,
    tail: Tail,
    order: Order,
    format: OutputFormat,
    writer: &mut W,
) -> Result<(), Fault>
    ensures text { IsTrue (R.tells_coming source) → IsTrue (W.tells_held writer.old)
        → Prints (convert_text format order tail (R.coming source)) (convert_refusal format tail (R.coming source))
        (W.held writer.old) result (W.held writer.new) }
    ensures writer { WriterKeeps (writer_of W.Sink writer.old) (is_write result) (writer_of W.Sink writer.new) }
    ensures read { FailsOf (R.can_fail source ∷ []) result }
{
    convert_and_count(alloc, source, tail, order, format, false, writer)?;
    Ok(())
}

/// Writes the packets of 1 to 32 capture files, each of either format, as a pcapng file of one section in
/// that byte order, sorted by exact time: by the greatest time so far in a packet's file, of equal ones
/// by file, then by place in the file. It ends at the first refusal, which it returns: one of a file that
/// is read, or of a packet that can't be written (rules 13 and 17: see `write_merged`). Returns `Read` if a
/// read fails, `Write` if a write does, `Memory` if a growth is refused; after these a prefix of that text is
/// written.
pub fn merge_to<R: Source, W: Sink>(
    alloc: Global,
    sources: Vec<R>,
    tail: Tail,
    order: Order,
    writer: &mut W,
) -> Result<(), Fault>
    requires some { 1 ≤ vec_len sources }
    requires most { vec_len sources ≤ 32 }
    ensures text { IsTrue (list_all R.tells_coming sources.items) → IsTrue (W.tells_held writer.old)
        → Prints (merge_text order tail (map R.coming sources.items)) (merge_refusal tail (map R.coming sources.items))
        (W.held writer.old) result (W.held writer.new) }
    ensures writer { WriterKeeps (writer_of W.Sink writer.old) (is_write result) (writer_of W.Sink writer.new) }
    ensures read { FailsOf (map R.can_fail sources.items) result }
{
    merge_and_count(alloc, sources, tail, order, RunForm::Pcapng, false, writer)?;
    Ok(())
}

/// Writes the packets of 1 to 32 capture files, each of either format, as a pcap file in that byte order, sorted as
/// `merge_to` sorts them. It has the link and the snaplen of the first packet's interface, and the unit of time that is
/// asked for, or else the fraction of a second of that interface. It ends at the first refusal, which it returns: one
/// of a file that is read, or of a packet that can't be written (rules 17 to 20, or 21 if there is no packet: see
/// `write_merged_pcap`). Returns `Read` if a read fails, `Write` if a write does, `Memory` if a growth is refused;
/// after these a prefix of that text is written.
pub fn merge_to_pcap<R: Source, W: Sink>(
    alloc: Global,
    sources: Vec<R>,
    tail: Tail,
    order: Order,
    unit: Option<Unit>,
    writer: &mut W,
) -> Result<(), Fault>
    requires some { 1 ≤ vec_len sources }
    requires most { vec_len sources ≤ 32 }
    ensures text { IsTrue (list_all R.tells_coming sources.items) → IsTrue (W.tells_held writer.old)
        → Prints (merge_text_in (RunForm.Pcap unit) order tail (map R.coming sources.items))
        (merge_refusal_in (RunForm.Pcap unit) tail (map R.coming sources.items))
        (W.held writer.old) result (W.held writer.new) }
    ensures writer { WriterKeeps (writer_of W.Sink writer.old) (is_write result) (writer_of W.Sink writer.new) }
    ensures read { FailsOf (map R.can_fail sources.items) result }
{
    let form = RunForm::Pcap(unit);
    merge_and_count(alloc, sources, tail, order, form, false, writer)?;
    Ok(())
}

/// Writes the whole IPv4 datagrams of 1 to 32 capture files, each of either format, as a pcapng file of
/// one section in that byte order: the packets are taken in the order of exact time, as `merge_to` does, their
/// fragments are joined (RFC 791, 3.2), and each datagram is one packet without a link header, as
/// `write_joined` writes it. It ends at the first refusal, which it returns: one of a file that is read, or of a
/// packet or a datagram that can't be written (rules 13 and 17: see `write_joined`). Returns `Read` if a read
/// fails, `Write` if a write does, `Memory` if a growth is refused; after these a prefix of that text is written.
pub fn join_to<R: Source, W: Sink>(
    alloc: Global,
    sources: Vec<R>,
    tail: Tail,
    order: Order,
    writer: &mut W,
) -> Result<(), Fault>
    requires some { 1 ≤ vec_len sources }
    requires most { vec_len sources ≤ 32 }
    ensures text { IsTrue (list_all R.tells_coming sources.items) → IsTrue (W.tells_held writer.old)
        → Prints (join_text order tail (map R.coming sources.items)) (join_refusal tail (map R.coming sources.items))
        (W.held writer.old) result (W.held writer.new) }
    ensures writer { WriterKeeps (writer_of W.Sink writer.old) (is_write result) (writer_of W.Sink writer.new) }
    ensures read { FailsOf (map R.can_fail sources.items) result }
{
    let format = OutputFormat::Pcapng;
    join_and_count(alloc, sources, tail, order, format, false, writer)?;
    Ok(())
}

/// Writes the whole IPv4 datagrams of 1 to 32 capture files, each of either format, as a pcap file in that byte
/// order: those that `join_to` writes, in the unit of time that is asked for, if one is. It ends at the first refusal,
/// which it returns: one of a file that is read, or of a packet or a datagram that can't be written (rules 17, 19 and
/// 20, or 21 if there is no datagram: see `write_joined_pcap`). Returns `Read` if a read fails, `Write` if a write
/// does, `Memory` if a growth is refused; after these a prefix of that text is written.
pub fn join_to_pcap<R: Source, W: Sink>(
    alloc: Global,
    sources: Vec<R>,
    tail: Tail,
    order: Order,
    unit: Option<Unit>,
    writer: &mut W,
) -> Result<(), Fault>
    requires some { 1 ≤ vec_len sources }
    requires most { vec_len sources ≤ 32 }
    ensures text { IsTrue (list_all R.tells_coming sources.items) → IsTrue (W.tells_held writer.old)
        → Prints (join_text_in (OutputFormat.Pcap unit) order tail (map R.coming sources.items))
        (join_refusal_in (OutputFormat.Pcap unit) tail (map R.coming sources.items))
        (W.held writer.old) result (W.held writer.new) }
    ensures writer { WriterKeeps (writer_of W.Sink writer.old) (is_write result) (writer_of W.Sink writer.new) }
    ensures read { FailsOf (map R.can_fail sources.items) result }
{
    let format = OutputFormat::Pcap(unit);
    join_and_count(alloc, sources, tail, order, format, false, writer)?;
    Ok(())
}
