//! The reader of a file, once its first bytes have told the format.
ghost use Rattle.std.specs.Prelude.{◌≡◌, ◌+◌, false, IsTrue, IfOk, None, Some};
ghost use Rattle.cap_bytes.specs.inner.Reach.{Reaches, ReachesTo};
ghost use Rattle.cap_bytes.specs.inner.Window as windows;
ghost use Rattle.cap_source.specs.Items.{SectionProgress};
ghost use Rattle.cap_source.specs.inner.FileState.{FileKeeps};
ghost use Rattle.cap_source.specs.inner.Fronts.{FrontsAnswer, reader_fronts};
ghost use Rattle.cap_source.specs.inner.PeekSlotView.{with_reader};
ghost use Rattle.cap_source.specs.inner.Readers.{reader_file_state, is_there, IsReadyReader, is_stopped, OpensReader};
ghost use Rattle.cap_source.specs.inner.Readers.{LooksAtWindow, reader_by, reader_room};
ghost use Rattle.cap_source.specs.declared.packets.Meta.{Meta};
ghost use Rattle.cap_source.specs.declared.section_states.SectionState.{SectionState};

use crate::readers::Reader;
use cap_blocks::{BlockReader, is_section};
use cap_bytes::{Fault, Format, Source, Window};
use cap_pcap::PcapReader;
use std::mem;

// The format that the first four bytes tell: that of a pcap file also if they tell none.
fn look<R: Source>(window: &mut Window<R>) -> Result<Format, Fault>
    ensures answer { LooksAtWindow window.old result window.new }
    ensures reaches { Reaches (λ _. Some 4) 4 (windows.position window.old) result (windows.read_to window.new) }
    ensures keeps { windows.WindowKeeps window.old window.new }
{
    if !window.need(4)? {
        return Ok(Format::Pcap);
    }
    if is_section(window.bytes()) {
        Ok(Format::Pcapng)
    } else {
        Ok(Format::Pcap)
    }
}

// The reader of that format over a window.
fn reader_of<R: Source>(reader: Reader<R>, format: Format) -> Reader<R>
    ensures { result ≡ reader_by reader format }
{
    match (reader, format) {
        (Reader::Unread(window, tail), Format::Pcap) => {
            Reader::Pcap(PcapReader::new(window, tail))
        }
        (Reader::Unread(window, tail), Format::Pcapng) => {
            Reader::Pcapng(BlockReader::new(window, tail))
        }
        (reader, _) => reader,
    }
}

/// Makes the reader, unless it is there.
pub fn open<R: Source>(reader: &mut Reader<R>) -> Result<(), Fault>
    requires there { IsTrue (is_there reader.old) }
    requires free { is_stopped reader.old ≡ false }
    ensures there { IsTrue (is_there reader.new) }
    ensures ready { IfOk result (λ _. IsReadyReader reader.new) }
    ensures answer { (progress : SectionProgress) → OpensReader (reader_file_state reader.old progress) result
        (reader_file_state reader.new progress) }
    ensures reaches { (progress : SectionProgress)
        → IfOk result (λ _. ReachesTo (reader_file_state reader.old progress).most
        ((reader_file_state reader.old progress).offset + 4) (reader_file_state reader.old progress).read
        (reader_file_state reader.new progress).read) }
    ensures keeps { (progress : SectionProgress)
        → FileKeeps (reader_file_state reader.old progress) (reader_file_state reader.new progress) }
    ensures fronts { (progress : SectionProgress) → IsTrue (reader_fronts reader.old progress).told
        → FrontsAnswer (reader_fronts reader.old progress) result None (reader_fronts reader.new progress) }
    ensures room { (reached : SectionState) → IsTrue (reader_room reader.old reached)
        → IsTrue (reader_room reader.new reached) }
    ensures prepared { (meta : Meta) → with_reader reader.old meta ≡ meta → with_reader reader.new meta ≡ meta }
{
    match reader {
        Reader::Unread(window, _) => {
            let format = look(window)?;
            let unread = mem::replace(reader, Reader::Moved);
            *reader = reader_of(unread, format);
            Ok(())
        }
        _ => Ok(()),
    }
}
