//! A reader of pcap files.
ghost use Rattle.std.specs.Prelude.{◌≡◌, ◌≤◌, ◌+◌, length, IsTrue, IsSome, IsNone, Some, Ok, IfSome, OnErr};
ghost use Rattle.std.specs.Prelude.{is_some};
ghost use Rattle.cap_bytes.specs.Items.{cut_by};
ghost use Rattle.cap_bytes.specs.inner.Reader.{opened_reader, ReaderKeeps, HasWindow};
ghost use Rattle.cap_pcap.specs.inner.Reader.{records_to_come, GivesHeader, GivesNextRecord, KeepsHeader, KeepsRecords};
ghost use Rattle.cap_pcap.specs.inner.Reader.{ReachesHeader};
ghost use Rattle.cap_pcap.specs.inner.Reader.{ReachesRecord, TakesRecord, RefusesAgain, shown_record_size, place_after};

use crate::headers::{HEADER_SIZE, PcapHeader, look_for_header};
use crate::records::{HEAD_SIZE, Record, look_for_record, try_next_buffered};
use cap_bytes::{CutRest, FILE_LIMIT, Fault, Source, Stop, Tail, Window};
use std::marker::Model;

/// A reader of a pcap file, record by record. It keeps no more of the file than its window shows.
#[derive(Drop)]
pub struct PcapReader<R: Source> {
    window: Window<R>,
    tail: Tail,
    header: Option<PcapHeader>,
    // how many bytes were captured of the record that was given last, which the window still shows
    captured: Option<usize>,
    stop: Option<Stop>,
}

impl<R: Source> Model for PcapReader<R> {
    ghost use Rattle.std.specs.Prelude.{length};
    ghost use Rattle.cap_bytes.specs.inner.Reader.{ReaderState};
    ghost use Rattle.cap_pcap.specs.declared.headers.PcapHeader.{PcapHeader};
    ghost use Rattle.cap_pcap.specs.inner.Reader.{IsSoundRecordReader, record_reader_state};

    ghost Value = { ReaderState PcapHeader };

    ghost view = { λ r. record_reader_state r.window r.tail r.header r.captured r.stop };

    ghost invariant = { λ r. IsSoundRecordReader r.header r.captured r.stop
        (length r.window.shown) r.window.offset r.window.held };
}

// How many bytes the record that was given last takes.
fn size_given(captured: Option<usize>) -> usize
    requires { shown_record_size captured ≤ 262160 }
    ensures { result ≡ shown_record_size captured }
{
    match captured {
        Some(captured) => HEAD_SIZE + captured,
        None => 0,
    }
}

// Returns the refusal that ended the records, if one did.
fn refuse_again(stop: Option<Stop>) -> Result<(), Fault>
    ensures { RefusesAgain stop result }
{
    match stop {
        Some(Stop::Refused(refusal)) => Err(Fault::Refused(refusal)),
        _ => Ok(()),
    }
}

impl<R: Source> PcapReader<R> {
    /// A reader of the bytes that a window shows from now on. It reads nothing yet.
    pub fn new(window: Window<R>, tail: Tail) -> PcapReader<R>
        ensures opened { result ≡ opened_reader window tail }
        ensures held { result.held ≤ 524288 }
    {
        // limits of every window, which the reader keeps
        prove!(window.offset() <= FILE_LIMIT);
        prove!(window.held() <= 524_288);
        PcapReader {
            window,
            tail,
            header: None,
            captured: None,
            stop: None,
        }
    }

    /// The file's header, once it was read.
    #[inline]
    pub fn known(&self) -> Option<PcapHeader>
        ensures { result ≡ self.now.known }
    {
        self.header
    }

    /// The file's header. It comes again at each call. Returns `Refused`, now and at each later call,
    /// if the header is cut, has another magic or is of another version; if a header read from
    /// elsewhere than the file's first byte would end past byte 2^40; and if a record was refused.
    /// `Memory` leaves what is to come; `Read` comes again. draft-ietf-opsawg-pcap, 4.
    pub fn header(&mut self) -> Result<PcapHeader, Fault>
        ensures answer { GivesHeader self.old result self.new }
        ensures reaches { ReachesHeader self.old result self.new }
        ensures header { KeepsHeader self.old self.new }
        ensures place { OnErr result (self.new.offset ≡ self.old.offset) }
        ensures keeps { ReaderKeeps self.old self.new }
        ensures items { IsTrue self.old.told
            → KeepsRecords (records_to_come self.old) result (records_to_come self.new) }
    {
        refuse_again(self.stop)?;
        if let Some(header) = self.header {
            return Ok(header);
        }
        match look_for_header(&mut self.window)? {
            Ok(header) => {
                self.window.pass(HEADER_SIZE);
                self.header = Some(header);
                Ok(header)
            }
            Err(refusal) => {
                self.stop = Some(Stop::Refused(refusal));
                Err(Fault::Refused(refusal))
            }
        }
    }

    /// The next record, if the window shows it whole already, as it does most of them: what `next_record` returns then,
    /// at less cost. `None` says nothing of the record, and leaves the reader as it is. The header is the file's.
    #[inline(always)]
    pub fn try_next_buffered(&mut self, header: PcapHeader) -> Option<Record>
        requires { self.old.known ≡ Some header }
        ensures answer { IfSome result (λ r. GivesNextRecord header self.old (Ok (Some r)) self.new) }
        ensures reaches { IfSome result (λ r. ReachesRecord header self.old (Ok (Some r)) self.new) }
        ensures place { IfSome result (λ r. self.new.offset ≡ place_after self.old.offset (Ok (Some r))) }
        ensures header { self.new.known ≡ self.old.known }
        ensures keeps { ReaderKeeps self.old self.new }
        ensures items { IsTrue self.old.told → IfSome result (λ r.
            TakesRecord (records_to_come self.old) (Ok (Some r)) self.new.lent (records_to_come self.new)) }
        ensures none { IsNone result → self.new ≡ self.old }
    {
        if self.stop.is_some() {
            return None;
        }
        match try_next_buffered(&mut self.window, size_given(self.captured), header) {
            Some(record) => {
                self.captured = Some(record.captured as usize);
                Some(record)
            }
            None => None,
        }
    }

    /// The next record, or `None` at the end of the file, which comes again then. `frame` lends its
    /// captured bytes. Returns `Refused`, now and at each later call, if the rest is cut, if more
    /// than 262,144 bytes were captured, and if the record would end past byte 2^40; if a cut
    /// tail is accepted, a cut rest is the end instead. `Memory` leaves what is to come; `Read` comes
    /// again. draft-ietf-opsawg-pcap, 5.
    pub fn next_record(&mut self) -> Result<Option<Record>, Fault>
        requires { IsSome self.old.known }
        ensures answer { IfSome self.old.known
            (λ header. GivesNextRecord header self.old result self.new) }
        ensures reaches { IfSome self.old.known
            (λ header. ReachesRecord header self.old result self.new) }
        ensures place { self.new.offset ≡ place_after self.old.offset result }
        ensures header { self.new.known ≡ self.old.known }
        ensures keeps { ReaderKeeps self.old self.new }
        ensures items { IsTrue self.old.told
            → TakesRecord (records_to_come self.old) result self.new.lent (records_to_come self.new) }
    {
        let header = self.header.unwrap();
        if let Some(stop) = self.stop {
            return stop.answer();
        }
        self.window.pass(size_given(self.captured));
        self.captured = None;
        match look_for_record(&mut self.window, header, self.tail)? {
            Ok(record) => {
                self.captured = Some(record.captured as usize);
                Ok(Some(record))
            }
            Err(stop) => {
                self.stop = Some(stop);
                stop.answer()
            }
        }
    }

    /// The captured bytes of the record that was given last, which lie in the window.
    pub fn frame(&self) -> &[u8]
        requires { IsSome self.now.lent }
        ensures { self.now.lent ≡ Some result.now }
    {
        let size = size_given(self.captured);
        let (record, _) = self.window.bytes().split_at(size);
        let (_, frame) = record.split_at(HEAD_SIZE);
        frame
    }

    /// The rest of the file that was cut, and that was dropped, if it ended so.
    pub fn cut(&self) -> Option<CutRest>
        ensures { result ≡ cut_by self.now.stop }
    {
        match self.stop {
            Some(stop) => stop.cut(),
            None => None,
        }
    }

    /// The window by which the file is read.
    pub fn window(&self) -> &Window<R>
        ensures { HasWindow self.now result.now }
    {
        &self.window
    }
}
