//! A capture file that is written packet by packet, in memory.
ghost use Rattle.std.specs.Prelude.{◌≡◌, ◌≤◌, ◌∷◌, [], length, IsOkUnless, IfOk, IsFalse, OnErr, OnOk, Some, None};
ghost use Rattle.cap_bytes.specs.Printing.{Prints, IsReadFault};
ghost use Rattle.cap_bytes.specs.declared.faults.Fault.{Fault};
ghost use Rattle.cap_source.specs.Feed.{packet};
ghost use Rattle.cap_write.specs.Numbering.{is_used, refusal_at, refusal_by, with_origin, write_fault};
ghost use Rattle.cap_write.specs.Texts.{one_bytes};
ghost use Rattle.cap_write.specs.inner.Forms.{form_after, form_stop, form_text};
ghost use Rattle.capt_c.specs.Writing.{GrowsBy, PutsPacket, WriterStands, described, emptied, file_of, fresh_form};
ghost use Rattle.capt_c.specs.Writing.{shared_in, state_of};

use crate::interfaces::Interfaces;
use crate::sinks::VecSink;
use crate::texts::by_memory;
use cap_blocks::{PacketFields, put_interface, put_packet, put_section};
use cap_bytes::{Fault, Order, Refusal, Rule, Sink};
use cap_source::{Format, Meta};
use cap_time::Interface;
use cap_write::put_headed;
use std::alloc::Global;
use std::mem::replace;

/// The format of a file that is being written, and what it has described.
#[derive(Drop)]
pub enum WriterForm {
    /// A pcapng file, and its interfaces.
    Pcapng(Interfaces),
    /// A pcap file, and the interface of its header, once that is written.
    Pcap(Option<Interface>),
}

/// A capture file that is being written.
#[derive(Drop)]
pub struct PacketWriter {
    // what was written and not taken
    bytes: Vec<u8>,
    order: Order,
    form: WriterForm,
}

// The refusal of a packet that isn't written.
fn refused(meta: &Meta, rule: Rule) -> Fault
    ensures { result ≡ Fault.Refused (refusal_at meta.now rule) }
{
    Fault::Refused(Refusal {
        file: meta.file,
        offset: meta.offset,
        rule,
    })
}

// Writes a packet after its interface, which wasn't described.
fn put_described(
    interfaces: &mut Interfaces,
    order: Order,
    meta: &Meta,
    fields: PacketFields,
    frame: &[u8],
    sink: &mut VecSink,
) -> Result<(), Fault>
    requires captured { length frame.now ≤ 262144 }
    requires number { fields.interface ≡ length interfaces.old.list.items }
    requires units { meta.now.units ≡ Some fields.units }
    requires original { fields.original ≡ meta.now.original }
    requires new { IsFalse (is_used (shared_in interfaces.old) meta.now) }
    ensures text { Prints (one_bytes order (shared_in interfaces.old) meta.now frame.now)
        (refusal_by meta.now (write_fault (shared_in interfaces.old) meta.now))
        (⟦<VecSink as Sink>⟧.held sink.old) result (⟦<VecSink as Sink>⟧.held sink.new) }
    ensures origins { OnOk result ((shared_in interfaces.new ≡ with_origin (shared_in interfaces.old) meta.now)
        × (write_fault (shared_in interfaces.old) meta.now ≡ None)) }
    ensures kept { OnErr result (shared_in interfaces.new ≡ shared_in interfaces.old) }
    ensures read { IsReadFault result → ⊥ }
{
    if interfaces.is_full() {
        return Err(refused(meta, Rule::InterfaceLimit));
    }
    put_interface(sink, order, &meta.interface)?;
    put_packet(sink, order, fields, frame)?;
    interfaces.add(meta.interface)
}

// Writes a packet with that time, after its interface if that wasn't described.
fn put_timed(
    interfaces: &mut Interfaces,
    order: Order,
    meta: &Meta,
    units: u64,
    frame: &[u8],
    sink: &mut VecSink,
) -> Result<(), Fault>
    requires captured { length frame.now ≤ 262144 }
    requires units { meta.now.units ≡ Some units }
    ensures text { Prints (one_bytes order (shared_in interfaces.old) meta.now frame.now)
        (refusal_by meta.now (write_fault (shared_in interfaces.old) meta.now))
        (⟦<VecSink as Sink>⟧.held sink.old) result (⟦<VecSink as Sink>⟧.held sink.new) }
    ensures origins { OnOk result ((shared_in interfaces.new ≡ with_origin (shared_in interfaces.old) meta.now)
        × (write_fault (shared_in interfaces.old) meta.now ≡ None)) }
    ensures kept { OnErr result (shared_in interfaces.new ≡ shared_in interfaces.old) }
    ensures read { IsReadFault result → ⊥ }
{
    let number = interfaces.number_of(&meta.interface);
    let fields = PacketFields {
        interface: number as u32,
        units,
        original: meta.original,
    };
    if number == interfaces.count() {
        return put_described(interfaces, order, meta, fields, frame, sink);
    }
    put_packet(sink, order, fields, frame)
}

// Writes a packet of a pcapng file, or returns why it isn't written.
fn put_numbered(
    interfaces: &mut Interfaces,
    order: Order,
    meta: &Meta,
    frame: &[u8],
    sink: &mut VecSink,
) -> Result<(), Fault>
    requires captured { length frame.now ≤ 262144 }
    ensures text { Prints (one_bytes order (shared_in interfaces.old) meta.now frame.now)
        (refusal_by meta.now (write_fault (shared_in interfaces.old) meta.now))
        (⟦<VecSink as Sink>⟧.held sink.old) result (⟦<VecSink as Sink>⟧.held sink.new) }
    ensures origins { OnOk result ((shared_in interfaces.new ≡ with_origin (shared_in interfaces.old) meta.now)
        × (write_fault (shared_in interfaces.old) meta.now ≡ None)) }
    ensures kept { OnErr result (shared_in interfaces.new ≡ shared_in interfaces.old) }
    ensures read { IsReadFault result → ⊥ }
{
    match meta.units {
        Some(units) => put_timed(interfaces, order, meta, units, frame, sink),
        None => Err(refused(meta, Rule::NoTime)),
    }
}

impl WriterForm {
    // Writes a packet, or returns why it isn't written.
    fn put(
        &mut self,
        order: Order,
        meta: &Meta,
        frame: &[u8],
        sink: &mut VecSink,
    ) -> Result<(), Fault>
        requires captured { length frame.now ≤ 262144 }
        ensures text { Prints (form_text order (described self.old) (packet meta.now frame.now ∷ []))
            (form_stop (described self.old) (packet meta.now frame.now ∷ []))
            (⟦<VecSink as Sink>⟧.held sink.old) result (⟦<VecSink as Sink>⟧.held sink.new) }
        ensures form { OnOk result ((described self.new ≡ form_after (described self.old) meta.now)
            × (form_stop (described self.old) (packet meta.now frame.now ∷ []) ≡ None)) }
        ensures kept { OnErr result (described self.new ≡ described self.old) }
        ensures read { IsReadFault result → ⊥ }
    {
        match self {
            WriterForm::Pcapng(interfaces) => put_numbered(interfaces, order, meta, frame, sink),
            WriterForm::Pcap(first) => put_headed(None, first, order, meta, frame, sink),
        }
    }
}

// What stands before the first packet of a file: of a pcapng file the section header.
fn front(alloc: Global, format: Format, order: Order) -> Result<Vec<u8>, Fault>
    ensures bytes { IfOk result (λ v. v.items ≡ file_of format order []) }
    ensures fault { IsOkUnless result Fault.Memory }
{
    let mut sink = VecSink::new(alloc);
    match format {
        Format::Pcap => Ok(sink.into_bytes()),
        Format::Pcapng => match put_section(&mut sink, order) {
            Ok(()) => Ok(sink.into_bytes()),
            Err(_) => Err(Fault::Memory),
        },
    }
}

// What a file has described before its first packet.
fn fresh(alloc: Global, format: Format) -> WriterForm
    ensures { described result ≡ fresh_form format }
{
    match format {
        Format::Pcap => WriterForm::Pcap(None),
        Format::Pcapng => WriterForm::Pcapng(Interfaces::new(alloc)),
    }
}

impl PacketWriter {
    /// A file without packets.
    pub fn new(alloc: Global, format: Format, order: Order) -> Result<PacketWriter, Fault>
        ensures stands { IfOk result (λ w. WriterStands format (state_of w) [] []) }
        ensures order { IfOk result (λ w. w.order ≡ order) }
        ensures fault { IsOkUnless result Fault.Memory }
    {
        Ok(PacketWriter {
            bytes: front(alloc, format, order)?,
            order,
            form: fresh(alloc, format),
        })
    }

    // Writes a packet, or leaves the file as it was and returns why it isn't written.
    fn put_next(&mut self, alloc: Global, meta: &Meta, frame: &[u8]) -> Result<(), Fault>
        requires { length frame.now ≤ 262144 }
        ensures { PutsPacket (state_of self.old) meta.now frame.now result (state_of self.new) }
    {
        let count = self.bytes.len();
        let mut sink = VecSink::behind(replace(&mut self.bytes, Vec::new(alloc)));
        let answer = self.form.put(self.order, meta, frame, &mut sink);
        self.bytes = sink.into_bytes();
        if answer.is_err() {
            self.bytes.truncate(count);
        }
        by_memory(answer)
    }

    /// Writes a packet, or leaves the file as it was and returns why it isn't written.
    pub fn put(&mut self, alloc: Global, meta: &Meta, frame: &[u8]) -> Result<(), Fault>
        requires { length frame.now ≤ 262144 }
        ensures puts { PutsPacket (state_of self.old) meta.now frame.now result (state_of self.new) }
        ensures grows { GrowsBy (state_of self.old) (packet meta.now frame.now) result (state_of self.new) }
    {
        self.put_next(alloc, meta, frame)
    }

    /// Takes out what was written.
    pub fn take(&mut self, alloc: Global) -> Vec<u8>
        ensures bytes { result.items ≡ (state_of self.old).bytes }
        ensures state { state_of self.new ≡ emptied (state_of self.old) }
    {
        replace(&mut self.bytes, Vec::new(alloc))
    }
}
