//! What comes next of a pcap file.
ghost use Rattle.std.specs.Prelude.{◌≡◌, IsTrue, IfOk, None, Some, false};
ghost use Rattle.cap_source.specs.Items.{SectionProgress, resolution_of_unit, interface_of, pcap_ending_with, meta_of};
ghost use Rattle.cap_source.specs.inner.FileState.{FileAnswers, TakesShown, FileKeeps, IfTaken, FileTakes, noted_by};
ghost use Rattle.cap_source.specs.inner.FileState.{pcap_state};
ghost use Rattle.cap_source.specs.inner.Fronts.{FrontsAnswer, FrontsPass, pcap_fronts};
ghost use Rattle.cap_source.specs.inner.PeekSlotView.{IsPrepared};

use crate::feeds::{Ending, FileEnd, NO_KINDS};
use crate::packets::Meta;
use crate::peek_slots::PeekSlot;
use cap_bytes::{CutRest, Fault, Format, Source};
use cap_pcap::{PcapHeader, PcapReader, Record};
use cap_time::{Interface, Resolution, Unit};

// The resolution of a pcap file. draft-ietf-opsawg-pcap, 4.
#[tactic(auto, using(crate::proofs::Resolutions::same_of_unit))]
fn resolution_of_pcap(unit: Unit) -> Resolution
    ensures { result ≡ resolution_of_unit unit }
{
    match unit {
        Unit::Micro => Resolution::from_code(6).unwrap(),
        Unit::Nano => Resolution::from_code(9).unwrap(),
    }
}

// The one interface of a pcap file. draft-ietf-opsawg-pcap, 4.
fn interface_of_pcap(header: PcapHeader) -> Interface
    ensures { result ≡ interface_of header }
{
    Interface {
        link: header.link,
        snaplen: header.snaplen,
        resolution: resolution_of_pcap(header.unit),
        offset: 0,
    }
}

/// How a pcap file ended.
pub fn ending_of_pcap(cut: Option<CutRest>) -> FileEnd
    ensures { result ≡ pcap_ending_with cut }
{
    FileEnd {
        ending: Ending {
            format: Format::Pcap,
            skipped: 0,
            cut,
        },
        interfaces: 1,
        named: 0,
        kinds: NO_KINDS,
        comments: None,
    }
}

// What the packets of a pcap file have in common.
fn common_meta(file: u32, header: PcapHeader) -> Meta
    ensures { IsPrepared file (Some header) result }
{
    Meta {
        file,
        offset: 0,
        format: Format::Pcap,
        skipped: 0,
        instance: 0,
        interface: interface_of_pcap(header),
        units: None,
        captured: 0,
        original: 0,
    }
}

/// What a record tells of its packet.
pub fn meta_of_record(file: u32, header: PcapHeader, given: Record) -> Meta
    ensures { result ≡ meta_of file (interface_of header) given }
{
    Meta {
        offset: given.offset,
        units: Some(given.units),
        captured: given.captured,
        original: given.original,
        ..common_meta(file, header)
    }
}

/// The interface of a pcap file, as far as the file was read.
pub fn noted_of_pcap<R: Source>(reader: &PcapReader<R>) -> Option<Interface>
    ensures { result ≡ noted_by reader.now.known }
{
    match reader.known() {
        Some(header) => Some(interface_of_pcap(header)),
        None => None,
    }
}

/// Puts the packet that comes next of a pcap file into `known`, if the window shows its record already, as it does most
/// of them. Returns whether it did: if not, nothing has changed.
#[inline(always)]
pub fn try_next_buffered<R: Source>(reader: &mut PcapReader<R>, known: &mut PeekSlot) -> bool
    requires unknown { known.old.next ≡ None }
    requires prepared { IsPrepared reader.old.file reader.old.known known.old.meta }
    ensures answer { (progress : SectionProgress) → TakesShown (pcap_state reader.old progress) result known.new.next
        (pcap_state reader.new progress) }
    ensures reaches { (progress : SectionProgress) → IsTrue result
        → FileTakes (pcap_state reader.old progress) (pcap_state reader.new progress) }
    ensures keeps { (progress : SectionProgress) → FileKeeps (pcap_state reader.old progress)
        (pcap_state reader.new progress) }
    ensures fronts { IsTrue reader.old.told → IsTrue result
        → IfTaken known.new.next (FrontsPass (pcap_fronts reader.old) known.new.next (pcap_fronts reader.new)) }
    ensures none { result ≡ false → (reader.new ≡ reader.old) × (known.new.next ≡ None) }
    ensures prepared { IsPrepared reader.new.file reader.new.known known.new.meta }
{
    let Some(header) = reader.known() else {
        return false;
    };
    match reader.try_next_buffered(header) {
        Some(record) => {
            known.set_record(record);
            true
        }
        None => false,
    }
}

// Puts into `known` what comes next of a pcap file whose header is known.
fn next_record_of<R: Source>(
    reader: &mut PcapReader<R>,
    header: PcapHeader,
    known: &mut PeekSlot,
) -> Result<(), Fault>
    requires unknown { known.old.next ≡ None }
    requires header { reader.old.known ≡ Some header }
    requires free { reader.old.stop ≡ None }
    ensures answer { (progress : SectionProgress) → FileAnswers (pcap_state reader.old progress) result known.new.next
        (pcap_state reader.new progress) }
    ensures reaches { (progress : SectionProgress) → IfOk result
        (λ _. IfTaken known.new.next (FileTakes (pcap_state reader.old progress) (pcap_state reader.new progress))) }
    ensures keeps { (progress : SectionProgress) → FileKeeps (pcap_state reader.old progress)
        (pcap_state reader.new progress) }
    ensures fronts { IsTrue reader.old.told
        → FrontsAnswer (pcap_fronts reader.old) result known.new.next (pcap_fronts reader.new) }
    ensures prepared { IsPrepared reader.new.file reader.new.known known.new.meta }
{
    known.set_common(common_meta(reader.window().file(), header));
    match reader.next_record() {
        Ok(Some(record)) => {
            known.set_record(record);
            Ok(())
        }
        Ok(None) => {
            known.set_end(ending_of_pcap(reader.cut()));
            Ok(())
        }
        Err(Fault::Refused(refusal)) => {
            known.set_refused(refusal, ending_of_pcap(None));
            Ok(())
        }
        Err(fault) => Err(fault),
    }
}

/// Puts into `known` what comes next of a pcap file.
pub fn next_of_pcap<R: Source>(
    reader: &mut PcapReader<R>,
    known: &mut PeekSlot,
) -> Result<(), Fault>
    requires unknown { known.old.next ≡ None }
    requires free { reader.old.stop ≡ None }
    requires prepared { IsPrepared reader.old.file reader.old.known known.old.meta }
    ensures answer { (progress : SectionProgress) → FileAnswers (pcap_state reader.old progress) result known.new.next
        (pcap_state reader.new progress) }
    ensures reaches { (progress : SectionProgress) → IfOk result
        (λ _. IfTaken known.new.next (FileTakes (pcap_state reader.old progress) (pcap_state reader.new progress))) }
    ensures keeps { (progress : SectionProgress) → FileKeeps (pcap_state reader.old progress)
        (pcap_state reader.new progress) }
    ensures fronts { IsTrue reader.old.told
        → FrontsAnswer (pcap_fronts reader.old) result known.new.next (pcap_fronts reader.new) }
    ensures prepared { IsPrepared reader.new.file reader.new.known known.new.meta }
{
    match reader.header() {
        Ok(header) => next_record_of(reader, header, known),
        Err(Fault::Refused(refusal)) => {
            known.set_refused(refusal, ending_of_pcap(None));
            Ok(())
        }
        Err(fault) => Err(fault),
    }
}
