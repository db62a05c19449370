//! What is known of what comes next of a file, as it is kept.
ghost use Rattle.std.specs.Prelude.{◌≡◌, Some, None, is_some};
ghost use Rattle.cap_source.specs.Feed.{IsPacket};
ghost use Rattle.cap_source.specs.declared.feeds.Head.TheVariants as heads;
ghost use Rattle.cap_source.specs.inner.FileState.{next_head, is_packet, start_of};
ghost use Rattle.cap_source.specs.inner.PeekSlotView.{with_record};
ghost use Rattle.cap_source.specs.declared.readers.Peeked.TheVariants.{Packet, Refused, End};

use crate::feeds::FileEnd;
use crate::packets::Meta;
use crate::readers::Peeked;
use cap_bytes::{Format, Refusal};
use cap_pcap::Record;
use cap_time::{Interface, Resolution};
use std::marker::Model;

/// What comes next of a file, if that is known, as it is kept: an `Option<Peeked>` in which a packet has fields of its
/// own. So it is forgotten by one mark, where an `Option<Peeked>` would be set to zero as a whole, and what a pcap
/// file's packets have in common is written once.
#[derive(Drop)]
pub struct PeekSlot {
    // whether a packet comes next, if anything is known
    is_packet: Option<bool>,
    place: u32,
    meta: Meta,
    // else the refusal or the end that comes next
    last: Option<Peeked>,
}

impl Model for PeekSlot {
    ghost use Rattle.cap_source.specs.inner.PeekSlotView.{KeptPeek, peeked_by, IsKeptPeek};

    ghost Value = { KeptPeek };

    ghost view = { λ k. record { next = peeked_by k.is_packet k.place k.meta k.last; meta = k.meta } };

    ghost invariant = { λ k. IsKeptPeek k.is_packet k.last };
}

impl PeekSlot {
    /// Nothing is known.
    pub fn new() -> PeekSlot
        ensures { result.next ≡ None }
    {
        // the packet isn't read before it was put
        PeekSlot {
            is_packet: None,
            place: 0,
            meta: Meta {
                file: 0,
                offset: 0,
                format: Format::Pcap,
                skipped: 0,
                instance: 0,
                interface: Interface {
                    link: 0,
                    snaplen: 0,
                    resolution: Resolution::from_code(6).unwrap(),
                    offset: 0,
                },
                units: None,
                captured: 0,
                original: 0,
            },
            last: None,
        }
    }

    /// Whether anything is.
    #[inline(always)]
    pub fn is_some(&self) -> bool
        ensures { result ≡ is_some self.now.next }
    {
        self.is_packet.is_some()
    }

    /// Whether a packet is known to come next.
    #[inline(always)]
    pub fn is_packet(&self) -> bool
        ensures { result ≡ is_packet self.now.next }
    {
        self.is_packet.unwrap_or(false)
    }

    /// That packet, without its bytes.
    #[inline(always)]
    pub fn packet(&self) -> &Meta
        requires { IsPacket (next_head self.now.next) }
        ensures { next_head self.now.next ≡ Some (heads.Packet result.now) }
    {
        &self.meta
    }

    /// Where its captured bytes begin in what the reader lends.
    #[inline(always)]
    pub fn place(&self) -> usize
        requires { IsPacket (next_head self.now.next) }
        ensures { result ≡ start_of self.now.next }
    {
        self.place as usize
    }

    /// What comes next.
    pub fn get(&self) -> Option<Peeked>
        ensures { result ≡ self.now.next }
    {
        match self.is_packet {
            None => None,
            Some(true) => Some(Peeked::Packet(self.meta, self.place)),
            Some(false) => self.last,
        }
    }

    /// A packet comes next.
    #[inline(always)]
    pub fn set_packet(&mut self, meta: Meta, place: u32)
        ensures { self.new.next ≡ Some (Packet meta place) }
    {
        self.is_packet = Some(true);
        self.place = place;
        self.meta = meta;
    }

    /// A packet of a pcap file comes next, which has what the packet before it had, but for its record.
    #[inline(always)]
    pub fn set_record(&mut self, given: Record)
        ensures packet { self.new.next ≡ Some (Packet (with_record self.old.meta given) 0) }
        ensures meta { self.new.meta ≡ with_record self.old.meta given }
    {
        self.is_packet = Some(true);
        self.place = 0;
        self.meta.offset = given.offset;
        self.meta.units = Some(given.units);
        self.meta.captured = given.captured;
        self.meta.original = given.original;
    }

    /// What the packets have in common of a file of which nothing else is known.
    pub fn set_common(&mut self, meta: Meta)
        ensures next { self.new.next ≡ None }
        ensures meta { self.new.meta ≡ meta }
    {
        self.is_packet = None;
        self.meta = meta;
    }

    /// A refusal comes next.
    pub fn set_refused(&mut self, refusal: Refusal, ending: FileEnd)
        ensures next { self.new.next ≡ Some (Refused refusal ending) }
        ensures meta { self.new.meta ≡ self.old.meta }
    {
        self.is_packet = Some(false);
        self.last = Some(Peeked::Refused(refusal, ending));
    }

    /// The end comes next.
    pub fn set_end(&mut self, ending: FileEnd)
        ensures next { self.new.next ≡ Some (End ending) }
        ensures meta { self.new.meta ≡ self.old.meta }
    {
        self.is_packet = Some(false);
        self.last = Some(Peeked::End(ending));
    }

    /// What came next is passed: nothing is known.
    #[inline(always)]
    pub fn forget(&mut self)
        ensures next { self.new.next ≡ None }
        ensures meta { self.new.meta ≡ self.old.meta }
    {
        self.is_packet = None;
    }
}
