//! Laws, each the contract of a function that does nothing.
ghost use Rattle.std.specs.Prelude.{List};
ghost use Rattle.cap_laws.specs.CheckedPackets.{CheckedByPlaces};
ghost use Rattle.cap_laws.specs.Described.{DescribedAlone, DescribedTogether};
ghost use Rattle.cap_laws.specs.Diffs.{SameAsConverted, SameButIgnored, SameExactly};
ghost use Rattle.cap_laws.specs.ExactTimes.{TimesReadBack};
ghost use Rattle.cap_laws.specs.FirstDifferences.{DifferencePlaced, DifferencesNamed, FirstDifference};
ghost use Rattle.cap_laws.specs.Forms.{BodyParts, PcapReport};
ghost use Rattle.cap_laws.specs.InOrder.{ByPlaces, Ipv6Apart, ReportByPlaces};
ghost use Rattle.cap_laws.specs.JoinedByPlaces.{JoinedByPlaces};
ghost use Rattle.cap_laws.specs.JoinedUnits.{JoinedUnits};
ghost use Rattle.cap_laws.specs.JsonDifferences.{IsDifferLine, IsSideLine};
ghost use Rattle.cap_laws.specs.JsonFaults.{IsCutLine, IsHintLine, IsListLine, IsNetworkLine, IsOpenLine};
ghost use Rattle.cap_laws.specs.JsonFaults.{IsReadLine, IsRefusedLine};
ghost use Rattle.cap_laws.specs.JsonLines.{IsJsonLine, IsNamedLine, LinesReadBack, ValuesReadBack};
ghost use Rattle.cap_laws.specs.JsonWords.{ListedWordsPlain, PlainLinesFit, ReportWordsPlain};
ghost use Rattle.cap_laws.specs.MergeSorts.{MergeSorts, RunSorts, SortsOnce};
ghost use Rattle.cap_laws.specs.Reports.{MergedReport, PcapngReport, RuleLaw};
ghost use Rattle.cap_laws.specs.Rounds.{RoundsInBytes, SharingRoundsInBytes};
ghost use Rattle.cap_laws.specs.Runs.{MergedRun, PcapngRun};
ghost use Rattle.cap_laws.specs.SkippedFiles.{KeepsWhole, SkipsAsOthers};
ghost use Rattle.cap_laws.specs.Sums.{LoneClasses, ReportSums};
ghost use Rattle.cap_laws.specs.Totals.{ReportTotals};
ghost use Rattle.cap_laws.specs.VerifiedLines.{VerifiesAsSame};
ghost use Rattle.cap_laws.specs.WorkedReport.{Overlapped, Tagged};
ghost use Rattle.cap_class.specs.Counting.{OneClass};
ghost use Rattle.cap_class.specs.Taken.{Taken};

use crate::again::{merged_again, pcap_again, pcapng_again, rounds_law, sharing_again};

/// If `write_merged` writes the run of some files, whatever bytes these hold, with no refusal and in at most
/// 2^40 bytes, the report over the one file that it wrote has the lines of the report over those files, byte for
/// byte, but for the lines of the files: `total`, `frames`, `joined`, `talks` and each `talk` line. Or both are
/// refused, by the same rule, after as many packets of the run. This holds also if clocks run back.
pub fn merged_report()
    ensures { MergedReport }
{
    merged_again();
}

/// The same holds of the one file that `to_pcapng` writes, with no refusal and in at most 2^40 bytes, and the
/// file that it was written of.
pub fn pcapng_report()
    ensures { PcapngReport }
{
    pcapng_again();
}

/// The report over the one file that `to_pcap` writes, with no refusal and in at most 2^40 bytes, has the lines
/// `total`, `frames`, `joined` and `talks` of the report over the file that it was written of, byte for byte, and
/// its `talk` lines, one by one, have the same protocol, ends, frames and bytes each way, and the same times, which
/// may have another form. Or both are refused, by the same rule, after as many packets of the run. A report has no
/// other lines but those of the files.
pub fn pcap_report()
    ensures report { PcapReport }
    ensures lines { BodyParts }
{
    pcap_again();
}

/// What `merged_report` tells of a refusal by its place in the run is the refusal that `report` returns: one
/// comes if the other does, by the same rule.
pub fn refusal_rule()
    ensures { RuleLaw }
{}

/// Files, whatever bytes they hold, are split, in their order, into neighbouring groups, and each group is merged, in a
/// byte order of its own. If no group is refused, and each writes at most 2^40 bytes, the merge of the written files,
/// in the groups' order, writes byte for byte what the merge of all files at once writes, in the same byte order; and
/// one of the two is refused if the other is, after these packets, by the same rule.
pub fn rounds_bytes()
    ensures { RoundsInBytes }
{
    merged_again();
    rounds_law();
}

/// The same holds of merges in which equal interfaces are one, as `write_merged_sharing` writes them, in
/// every round and at once.
pub fn sharing_rounds()
    ensures { SharingRoundsInBytes }
{
    sharing_again();
}

/// The run of some files, whatever bytes they hold, is their merge up to the first refusal: a permutation of the files'
/// packets and refusals that is sorted by clock, and by file if clocks are equal, and in which those of each file keep
/// their order (`run`). There is only one such merge (`once`). If `write_merged` writes the run with no refusal and in
/// at most 2^40 bytes, the packets that are read again from that file are a permutation of the files' packets, in the
/// order of the merge, with the same interfaces, times, lengths and bytes (`written`).
pub fn merge_sorts()
    ensures run { RunSorts }
    ensures once { SortsOnce }
    ensures written { MergeSorts }
{
    merged_again();
}

/// If `write_merged` writes the run of some files, whatever bytes these hold, with no refusal and in at most
/// 2^40 bytes, the run of the one file that it wrote is, packet by packet, the run of those files: the same
/// interface, units, captured and original lengths and bytes, and clocks that are equal by the order. Which file
/// a packet is of, and where it begins there, may differ. This holds also where clocks run back.
pub fn merged_run()
    ensures { MergedRun }
{
    merged_again();
}

/// The same holds of the one file that `to_pcapng` writes, with no refusal and in at most 2^40 bytes, and the
/// file that it was written of.
pub fn pcapng_run()
    ensures { PcapngRun }
{
    pcapng_again();
}

/// `diff` says that two captures have the same packets exactly if neither is refused and they have as many packets, of
/// which those of one place have the same link type, exact time, captured and original length and captured bytes.
pub fn diff_same()
    ensures { SameExactly }
{}

/// If times, link types or original lengths are ignored, `diff` says that two captures have the same packets exactly if
/// neither is refused and they have as many packets, of which those of one place are the same apart from that. So
/// captures whose packets are the same apart from their times have the same packets if times are ignored.
pub fn diff_ignoring()
    ensures { SameButIgnored }
{}

/// What `diff` says of two captures, by places. Both begin with n packets that are the same, one by one. If both end
/// there, it says that they have the same n packets. If the next packets differ, or only one capture has a next packet,
/// it says that packet n + 1 differs. If the first capture is refused there, or the second is and the first isn't, it
/// returns that refusal. It says nothing else. Of two packets it names exactly the fields in which they differ, and if
/// their captured bytes do, the place of the first byte that isn't the same in both, or that only one of them has.
pub fn diff_first()
    ensures said { FirstDifference }
    ensures named { DifferencesNamed }
    ensures placed { DifferencePlaced }
{}

/// `diff` says of a capture, of either format and whatever bytes it holds, and of what `convert` writes of it, in
/// either format and byte order, that both have the same packets, as many as the capture has, if nothing is refused and
/// at most 2^40 bytes are written.
pub fn diff_converted()
    ensures { SameAsConverted }
{
    pcap_again();
    pcapng_again();
}

/// `check` counts, of the packets of a capture before its end or its refusal, as many packets, bytes and truncated
/// packets, and the same least and greatest time, as `info`; as going backward each packet whose time is earlier than
/// the time of a packet before it; and each packet without a time.
pub fn check_counts()
    ensures { CheckedByPlaces }
{}

/// If none of some files is refused, whatever bytes they hold, the packets, bytes and packets captured in part that the
/// report over them counts in its line `total` are the sums of those that the reports over each file alone count. That
/// line is the same whether a report reads IPv6 packets or not.
pub fn report_totals()
    ensures { ReportTotals }
{}

/// If none of some files is refused, and none of their packets is an IPv4 fragment, all that the report over them
/// counts is the sum of what the reports over each file alone count: the line `total`, the packets of each class, and
/// the row of each conversation in both directions, whose first time is the least of theirs and whose last is the
/// greatest. So machines may share an archive, and add up (`sums`). Each packet has the class then that it has in a
/// report over it alone (`alone`). Both hold of reports that read IPv6 packets, fragments among them, and of reports
/// that don't.
pub fn report_sums()
    ensures sums { ReportSums }
    ensures alone { LoneClasses }
{}

/// What `list --class` says of a packet is the class that it has in a report over it alone, a fragment being unjoined
/// there (`alone`). If none of some packets is an IPv4 fragment, it is the class that each has in the report over all
/// of them (`together`): so the packets that the report counts as bad are those that `list --class` calls bad. Both
/// hold if the list and the report read IPv6 packets, and if neither does.
pub fn described_classes()
    ensures alone { DescribedAlone }
    ensures together { DescribedTogether }
{}

/// A line of facts that is printed with `--json` is the text of a value of JSON (RFC 8259): an object with the line's
/// kind and its facts as members (`line`). So is the line of a file in `check` and `digest`, whose last member is the
/// file's name, whatever characters it has (`named`). No two values have the same text, whatever comes after it
/// (`values`). So two lines of facts that are the same say the same (`lines`).
pub fn json_lines()
    ensures line { IsJsonLine }
    ensures named { IsNamedLine }
    ensures values { ValuesReadBack }
    ensures lines { LinesReadBack }
{}

/// The lines of facts that the commands print have no word with a character that JSON escapes (`report`, `listed`). So
/// `json_lines` holds for them if their numbers have up to 64 digits and the bytes that they show are below 256
/// (`fits`).
pub fn json_words()
    ensures report { ReportWordsPlain }
    ensures listed { ListedWordsPlain }
    ensures fits { PlainLinesFit }
{}

/// The line of a refusal, of a read that failed, of a file that couldn't be opened, of a line of a list that isn't
/// taken and of what explains how a run ended is the text of a value of JSON (RFC 8259), whatever characters the name
/// of the file and the explanation have.
pub fn json_faults()
    ensures refused { IsRefusedLine }
    ensures failed { IsReadLine }
    ensures unopened { IsOpenLine }
    ensures listed { IsListLine }
    ensures explained { IsHintLine }
{}

/// The line of a rest of a file that was cut and dropped is the text of a value of JSON (RFC 8259), whatever characters
/// the name of the file has.
pub fn json_cuts()
    ensures { IsCutLine }
{}

/// The line of the networks of the packets that a report counts as `not-ipv4` is the text of a value of JSON
/// (RFC 8259), and so is that of `not-ip`.
pub fn json_networks()
    ensures { IsNetworkLine }
{}

/// The three lines that `diff --json` prints of a difference are texts of values of JSON (RFC 8259).
pub fn json_differences()
    ensures differ { IsDifferLine }
    ensures side { IsSideLine }
{}

/// The exact text of a time says its seconds, its numerator and its denominator: no two times have one text, and none
/// has that of no time.
pub fn exact_times()
    ensures { TimesReadBack }
{}

/// The lines that `digest --names` printed of files that were opened are read back by `digest --verify`, each with the
/// name of its file, and while the files are the same, it says `same` of each. The names are UTF-8, and none of them
/// spells out the escape of a hidden character.
pub fn verified_lines()
    ensures { VerifiesAsSame }
{}

/// If `info` or `report` leaves out the files that are refused, it keeps those that aren't: `info` refuses none of
/// them, and keeps all if it refuses none (`kept`). If the kept files have the same bytes when they are opened once
/// more, a run that is done has printed what it prints of all files, and none is refused. One that ends as having
/// left files out has printed the lines of those that are refused, at least one, and then what it prints of the others
/// alone (`printed`).
pub fn skipped_files()
    ensures kept { KeepsWhole }
    ensures printed { SkipsAsOthers }
{}

/// Each packet has one class, and the seven counts add up to the number of packets.
pub fn one_class()
    ensures { (xs : List Taken) → OneClass xs }
{}

/// In every run of files the groups of IPv4 fragments are those by places, at each of its packets: so the report in
/// either form and the refusal that is returned instead are those by places (`report`). So are, after each packet, the
/// classes and the units of the packets so far, how many datagrams were joined and groups given up, and which groups
/// are open (`after`). Both hold of a report that reads IPv6 packets, and of one that doesn't. No IPv6 packet changes a
/// group: so its fragments are never joined (`apart`).
pub fn report_by_places()
    ensures report { ReportByPlaces }
    ensures after { ByPlaces }
    ensures apart { Ipv6Apart }
{}

/// The report on four fragments that overlap, after two of them and after all, and on three tagged frames, by
/// computation.
pub fn worked_report()
    ensures overlapped { Overlapped }
    ensures tagged { Tagged }
{}

/// What is written of a run's datagrams, and the refusal that is returned after it, are those by places.
pub fn joined_by_places()
    ensures { JoinedByPlaces }
{}

/// What `join` writes of a packet is a datagram exactly if the packet completes a counted unit of the report, all of
/// whose data was captured; and both see the same fragments and datagrams.
pub fn joined_units()
    ensures { JoinedUnits }
{}
