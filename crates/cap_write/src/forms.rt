//! Packets that are written one by one in one of the formats.
ghost use Rattle.std.specs.Prelude.{◌≡◌, ◌≤◌, length, [], ◌∷◌, IsTrue, OnErr, OnOk, None};
ghost use Rattle.cap_bytes.specs.Device.{WriterKeeps, writer_of};
ghost use Rattle.cap_bytes.specs.Printing.{Prints, IsReadFault, is_write};
ghost use Rattle.cap_source.specs.Feed.{packet};
ghost use Rattle.cap_source.specs.inner.Growing.{IfMemory};
ghost use Rattle.cap_write.specs.inner.Forms.{EndsForm, IsFew, form_after, form_stop, form_text, headed, form_state};
ghost use Rattle.cap_write.specs.PcapRun.{run_bytes, run_refusal};

use crate::interfaces::{Origins, units_of};
use crate::packets::put_one;
use crate::pcap::{header_of, in_unit, no_interface, put_after_header};
use cap_bytes::{Fault, Order, Sink};
use cap_pcap::put_header;
use cap_source::Meta;
use cap_time::{Interface, Unit};

/// A file that is being written.
#[derive(Drop)]
pub(crate) enum WrittenForm {
    /// A pcapng file, with the origins of the interfaces that it has described.
    Pcapng(Origins),
    /// A pcap file, with the unit that is asked for, and the interface of its header, once that is written.
    Pcap(Option<Unit>, Option<Interface>),
}

// Writes the first packet of a pcap file, after the header of its interface in the unit that is asked for, or returns
// why it isn't written.
fn put_leading<W: Sink>(
    unit: Option<Unit>,
    order: Order,
    meta: &Meta,
    frame: &[u8],
    writer: &mut W,
) -> Result<(), Fault>
    requires captured { length frame.now ≤ 262144 }
    ensures text { IsTrue (W.tells_held writer.old)
        → Prints (run_bytes unit order (packet meta.now frame.now ∷ []))
        (run_refusal unit (packet meta.now frame.now ∷ []))
        (W.held writer.old) result (W.held writer.new) }
    ensures whole { OnOk result (run_refusal unit (packet meta.now frame.now ∷ []) ≡ None) }
    ensures writer { WriterKeeps (writer_of W.Sink writer.old) (is_write result) (writer_of W.Sink writer.new) }
    ensures read { IsReadFault result → ⊥ }
    ensures memory { IfMemory result ⊥ }
{
    units_of(meta)?;
    let first = in_unit(unit, meta.interface);
    put_header(writer, &header_of(order, &first))?;
    put_after_header(&first, order, meta, frame, writer)
}

/// Writes the next packet of a pcap file whose header is that of the interface `first`, if it has one; else its header
/// in front of it, in the unit that is asked for, if one is. Returns `Refused` by the rules 17 to 20 (no-time,
/// link-mixed, inexact, time-range): the packet isn't written then, but in front of a first packet the header may be.
/// After `Write` a prefix is written. After either `first` is as it was.
pub fn put_headed<W: Sink>(
    unit: Option<Unit>,
    first: &mut Option<Interface>,
    order: Order,
    meta: &Meta,
    frame: &[u8],
    writer: &mut W,
) -> Result<(), Fault>
    requires captured { length frame.now ≤ 262144 }
    ensures text { IsTrue (W.tells_held writer.old)
        → Prints (form_text order (headed unit first.old) (packet meta.now frame.now ∷ []))
        (form_stop (headed unit first.old) (packet meta.now frame.now ∷ []))
        (W.held writer.old) result (W.held writer.new) }
    ensures form { OnOk result ((headed unit first.new ≡ form_after (headed unit first.old) meta.now)
        × (form_stop (headed unit first.old) (packet meta.now frame.now ∷ []) ≡ None)) }
    ensures kept { OnErr result (first.new ≡ first.old) }
    ensures writer { WriterKeeps (writer_of W.Sink writer.old) (is_write result) (writer_of W.Sink writer.new) }
    ensures read { IsReadFault result → ⊥ }
    ensures memory { IfMemory result ⊥ }
{
    if let Some(header) = *first {
        return put_after_header(&header, order, meta, frame, writer);
    }
    put_leading(unit, order, meta, frame, writer)?;
    *first = Some(in_unit(unit, meta.interface));
    Ok(())
}

/// Writes a packet, or returns why it isn't written.
pub(crate) fn put_in<W: Sink>(
    form: &mut WrittenForm,
    order: Order,
    meta: &Meta,
    frame: &[u8],
    writer: &mut W,
) -> Result<(), Fault>
    requires captured { length frame.now ≤ 262144 }
    requires limit { IsFew (form_state form.old) }
    ensures text { IsTrue (W.tells_held writer.old)
        → Prints (form_text order (form_state form.old) (packet meta.now frame.now ∷ []))
        (form_stop (form_state form.old) (packet meta.now frame.now ∷ []))
        (W.held writer.old) result (W.held writer.new) }
    ensures form { OnOk result ((form_state form.new ≡ form_after (form_state form.old) meta.now)
        × (form_stop (form_state form.old) (packet meta.now frame.now ∷ []) ≡ None)) }
    ensures limit { IsFew (form_state form.new) }
    ensures writer { WriterKeeps (writer_of W.Sink writer.old) (is_write result) (writer_of W.Sink writer.new) }
    ensures read { IsReadFault result → ⊥ }
{
    match form {
        WrittenForm::Pcapng(origins) => put_one(origins, order, meta, frame, writer),
        WrittenForm::Pcap(unit, first) => put_headed(*unit, first, order, meta, frame, writer),
    }
}

/// The answer at the end of the packets: a pcap file without a header is refused by rule 21, no-interface, of file 1.
pub(crate) fn end_of(form: &WrittenForm) -> Result<(), Fault>
    ensures { EndsForm (form_state form.now) result }
{
    match form {
        WrittenForm::Pcapng(_) => Ok(()),
        WrittenForm::Pcap(_, Some(_)) => Ok(()),
        WrittenForm::Pcap(_, None) => Err(no_interface(1)),
    }
}
