//! Laws of digests, each the contract of a function that does nothing.
ghost use Rattle.cap_laws.specs.Digests.{DigestOfConverted, FileTextLaw, SameAsDiff, TextLaw};

use crate::again::{pcap_again, pcapng_again};
use crate::laws::diff_same;

/// Two lists of packets, the fields of which fit in their widths, have the same canonical text exactly if their packets
/// have, one by one, the same link type, exact time, captured and original length and captured bytes. So have the
/// packets of two files, of either format, of which none is refused (`files`), exactly if `diff` says that these are
/// the same (`diff`): so a digest tells packets apart as far as SHA-256 tells texts apart.
pub fn same_text()
    ensures lists { TextLaw }
    ensures files { FileTextLaw }
    ensures diff { SameAsDiff }
{
    diff_same();
}

/// What `convert` writes of any file, in either format and byte order and whatever bytes the file holds, is a capture
/// that isn't refused, and has the digest line of the file apart from whether a cut end was dropped, if nothing is
/// refused of the file and at most 2^40 bytes are written. Read without dropping a cut end, it has the line of a whole
/// file.
pub fn converted_digest()
    ensures { DigestOfConverted }
{
    pcapng_again();
    pcap_again();
}
