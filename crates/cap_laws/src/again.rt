//! Laws of written files and of merged ones, each the contract of a function that does nothing.
ghost use Rattle.cap_laws.specs.again.Laws.{MergedAgain, OneInterface, PcapAgain, PcapngAgain, RoundTrip, SameBytes};
ghost use Rattle.cap_laws.specs.again.Rounds.{ClockLaw, FileRoundsLaw, MergeLaw, MergedPcap, RoundsLaw, SharingLaw};

/// An accepted pcap file whose pcapng text is at most 2^40 bytes long, written as pcapng and then as pcap again,
/// comes back: the pcapng file has its interface, also if there is no packet, and its packets, in order, with
/// link, snaplen, exact time, lengths and bytes. The pcap file has the same interface (the link, the snaplen and the
/// unit of its header) and the packets before the first with a time of 2^32 seconds or more, which is refused (rule
/// 20, time-range); nothing else is. A file in the written form comes back byte for byte in the same order.
pub fn round_trip()
    ensures packets { RoundTrip }
    ensures bytes { SameBytes }
{}

/// What `to_pcapng` writes of any file, of either format and whatever bytes it holds, if it is at most 2^40
/// bytes long, has the file's first interface, also if there is no packet (or none, if the file has none before
/// its first packet), and the file's packets, those before a refusal, in order: with the same numbers of interfaces
/// after the file's first one, and the same interfaces, times, lengths and bytes.
pub fn pcapng_again()
    ensures { PcapngAgain }
{}

/// What `to_pcap` writes of any file, of either format and whatever bytes it holds, has the link and the snaplen of
/// the file's first interface, also if there is no packet, and counts in microseconds if each of that
/// interface's units is a whole number of them, else in nanoseconds; if the file has no interface before its first
/// packet, neither has the text. If nothing is refused and the text is at most 2^40 bytes long, it has the file's
/// packets, in order: with the same link, lengths and bytes, and the same time, which may have another form.
pub fn pcap_again()
    ensures { PcapAgain }
{}

/// What `write_merged` writes of the run of any files, whatever bytes they hold, if it is at most 2^40 bytes long, has
/// the packets of the run, those before a refusal, in order: with the same numbers of interfaces, which are the
/// instances there, and the same interfaces, times, lengths and bytes. The same holds of every list whose fields fit in
/// their widths and in which the packets of one instance have one interface, but that the captured length which is read
/// again is the number of a packet's bytes.
///
/// If `write_merged` refuses nothing of such a run, and writes at most 2^40 bytes, then `write_merged_pcap` writes of
/// the run, byte for byte, what `to_pcap` writes of that file, and is refused if that is, by the same rule (`pcap`).
///
/// In every file, of either format, the packets of one instance have one interface (`interfaces`). In the run of some
/// files, the greatest time among the packets up to and with one equals that packet's clock by the order of times, also
/// if files run back in time (`clocks`).
pub fn merged_again()
    ensures files { MergeLaw }
    ensures packets { MergedAgain }
    ensures pcap { MergedPcap }
    ensures interfaces { OneInterface }
    ensures clocks { ClockLaw }
{}

/// What `write_merged_sharing` writes of the run of any files, whatever bytes they hold, if it is at most 2^40 bytes
/// long, has the packets of the run, those before a refusal, in order: with the same interfaces, times, lengths and
/// bytes. A packet's instance there is the number, by first use, of its interface among those of the run, where
/// interfaces with the same link, snaplen, resolution and offset are one.
pub fn sharing_again()
    ensures { SharingLaw }
{}

/// Files are split, in their order, into neighbouring groups, and each group is merged. If nothing is
/// refused in these merges, the merge of what came of the groups, in their order, writes the packets that the
/// merge of all files at once writes, in that order and with the same numbers of interfaces; and if one of
/// the two is refused after these packets, so is the other, by the same rule.
pub fn rounds_law()
    ensures packets { RoundsLaw }
    ensures files { FileRoundsLaw }
{}
