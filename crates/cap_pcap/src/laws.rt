//! The laws of the grammar of pcap files.
ghost use Rattle.cap_pcap.specs.inner.Laws.{OneRecord, OneRecordSplit, EveryRecordSplit, RecordSplitItems, HeaderRead};
ghost use Rattle.cap_pcap.specs.inner.Laws.{RecordRead};
ghost use Rattle.cap_pcap.specs.inner.Laws.{HeaderAgain};
ghost use Rattle.cap_pcap.specs.inner.Laws.{RecordAgain};

/// The laws of the grammar, as the contract of a function that does nothing.
///
/// - `record`: no record's spelling is a proper prefix of another's, and no bytes spell two packets.
/// - `one`, `every`: the bytes after every header split, in one way, into records and a rest that no record begins.
/// - `items`: the items of some bytes are the packets of their split, and then what the rest is.
/// - `header_spelled`, `packet_spelled`: bytes that spell a header or a packet are read as that, whatever follows
///   them.
/// - `header`, `packet`: what is written for a header or a packet spells it, so it is read again as the same
///   values, whatever follows it.
pub fn grammar_laws()
    ensures record { OneRecord }
    ensures one { OneRecordSplit }
    ensures every { EveryRecordSplit }
    ensures items { RecordSplitItems }
    ensures header_spelled { HeaderRead }
    ensures packet_spelled { RecordRead }
    ensures header { HeaderAgain }
    ensures packet { RecordAgain }
{}
