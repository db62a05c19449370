//! What the program says of itself. clap makes the rest of its help and its messages.

/// The version of the program, and the kits that prove it.
pub const VERSION: &str = "1.0.0 (rattle-kit-13b or 13f, logic dac8208d650f15bf)";

pub(crate) const REPORT_ABOUT: &str =
    "Prints the totals of captures, and a line for each conversation";

pub(crate) const REPORT_HELP: &str = "Prints, for all packets in the order of time:
  files K
  file I FORMAT packets P bytes B truncated Q skipped S first T last T
  total packets P bytes B truncated Q
  frames other-link N not-ipv4 N short N cut N bad N unjoined N counted N
  joined J given-up G
  talks C
  talk PROTO A B forward P BYTES backward P BYTES first T last T
If a capture breaks a rule, report prints only the refusal. Bytes are original
lengths. Q packets were captured only in part. S counts the pcapng blocks other
than sections, interfaces and packets. A time T is SEC+NUM/DEN: 2+500000/1000000
is 2.5 seconds after 1970 began; - is no time. With --time decimal this time is
2.500000, with --time utc 1970-01-01T00:00:02.500000Z.
Each packet is in one class: other-link, if capt doesn't look into its link
type; not-ipv4, if it has another protocol; short, if it was captured whole but
ends inside its link header; cut, if too little of it was captured; bad, if its
headers are wrong; unjoined, if it is a fragment of a datagram that was never
completed; or counted, in a conversation. J datagrams were joined from
fragments. If a 1,025th group of fragments opens, the oldest is given up, and G
counts these groups. A is the lesser of the two ends, and forward is from A to
B. At a terminal, or with --explain, a line on standard error counts the IPv6,
the ARP and the other packets in not-ipv4.
With --top N, only the N conversations with the most bytes, both ways, have a
talk line, the greatest first. With equal bytes, the one that began earlier
comes first. C still counts all conversations.
With --ipv6, report prints IPv6 conversations too, calls the class not-ipv4
not-ip, and reads link type 229. An IPv6 end is [2001:db8::1]:1000, or
2001:db8::1 without a port. IPv6 fragments aren't joined: each counts in
unjoined.
With --skip-refused, report leaves out each capture that breaks a rule. The
first lines give the place I of each on the command line, and the rule:
  left out I offset O rule R NAME
The report of the other captures follows, numbered from 1, if there are any.
Each capture is read twice, so none may be standard input. The status is 1 if
any capture was left out.

Examples: capt report morning.pcap evening.pcapng
          capt report --top 10 morning.pcap
          capt report --skip-refused ring-*.pcapng
          set -o pipefail; zcat trace.pcap.gz | capt report -";

pub(crate) const INFO_ABOUT: &str = "Prints a line for each capture";

pub(crate) const INFO_HELP: &str = "Prints:
  files K
  file I FORMAT packets P bytes B truncated Q skipped S first T last T
The line ends with cut if --allow-cut dropped the end of the capture. If a
capture breaks a rule, info prints only the refusal. Bytes are original lengths.
Q packets were captured only in part. S counts the pcapng blocks other than
sections, interfaces and packets. A time T is SEC+NUM/DEN: 2+500000/1000000 is
2.5 seconds after 1970 began; - is no time. With --time decimal this time is
2.500000, with --time utc 1970-01-01T00:00:02.500000Z.
With --skip-refused, info leaves out each capture that breaks a rule. The first
lines give the place I of each on the command line, and the rule:
  left out I offset O rule R NAME
The lines of the other captures follow, numbered from 1, if there are any. Each
capture is read twice, so none may be standard input. The status is 1 if any
capture was left out.

Examples: capt info morning.pcap evening.pcapng
          capt info --skip-refused ring-*.pcapng";

pub(crate) const LIST_ABOUT: &str = "Prints a line for each packet of a capture";

pub(crate) const LIST_HELP: &str = "Prints, for each packet, as it is found:
  packet N offset O time T captured C original G link L data X
O is where its record or block begins, C and G are its captured and original
length, L is its link type, and X has at most 16 of its bytes in hex. list stops
at the first record or block that breaks a rule. A time T is SEC+NUM/DEN:
2+500000/1000000 is 2.5 seconds after 1970 began; - is no time. With --time
decimal this time is 2.500000, with --time utc 1970-01-01T00:00:02.500000Z.
With --class, one of these follows X, as report counts the packet by itself:
  class counted PROTO A B  it counts in this conversation
  class fragment identification I fragment-offset O
  class bad reason R       R names what is wrong with its headers
  class cut reason R       R names what wasn't captured
  class other-link, class not-ipv4, class short
With --ipv6, IPv6 packets get these classes too, as in report --ipv6, and
not-ipv4 is called not-ip.

Examples: capt list --allow-cut trace.pcap
          set -o pipefail; capt list --class trace.pcap | grep 'class bad'
          set -o pipefail; zcat trace.pcap.gz | capt list -";

pub(crate) const BLOCKS_ABOUT: &str = "Prints a line for each block of a pcapng file";

pub(crate) const BLOCKS_HELP: &str = "Prints, for each block, as it is found:
  block N offset O order ORDER kind KIND total T
O is where it begins, T is its length, ORDER the byte order of its section,
little or big, and KIND its type, in eight hex digits. blocks stops at the first
block that breaks a rule. It refuses a pcap file, which has no blocks.

Example: capt blocks trace.pcapng";

pub(crate) const DIFF_ABOUT: &str = "Compares the packets of two captures";

pub(crate) const DIFF_HELP: &str = "Prints, if both have the same packets in the same order:
  same packets N [cut A] [cut B]
or, for the first packet that differs:
  differ packet N WHAT
  - LINE
  + LINE
WHAT is one or more of link, time, captured, original and data at P, or end if
one capture has no packet N. LINE is packet N as list prints it, from A after -
and from B after +, or end. P is the place, counted from 0, of the first
captured byte that differs or that only one packet has. LINE then shows the 16
bytes of its row: bytes 48 to 63 if P is 60. Times are compared exactly.
Formats, byte orders, time units, interfaces and offsets may differ. If a
capture breaks a rule before the first difference, diff prints only the refusal.
The status is 3 if the packets differ. --ignore KIND lets packets differ in
KIND; it may be repeated. cut A, cut B and end cut mean that --allow-cut dropped
the end of a capture.

Examples: capt diff trace.pcap trace.pcapng
          capt diff --ignore time --ignore link sent.pcap received.pcap
          set -o pipefail; zcat old.pcap.gz | capt diff - new.pcap";

pub(crate) const DIGEST_ABOUT: &str = "Prints the SHA-256 of the packets of each capture";

pub(crate) const DIGEST_HELP: &str = "Prints, for each capture, as soon as it is read:
  digest I sha256 HEX packets P [cut]
or, if the capture isn't whole, its end, as check prints it:
  digest I refused offset O rule R NAME
  digest I read offset O
  digest I open
HEX is the SHA-256 of the packets in a canonical form: the link type, the
captured and the original length, the exact time and the bytes of each. So
captures with the same packets in the same order have the same digest, whatever
their format, byte order and time units. The word cut follows if --allow-cut
dropped the end. With --names, the line ends with name and the file's name. The
status is 1 if any capture has no digest.
With --verify LIST, digest reads such lines, with names, from LIST, and prints
for each:
  verify I same name FILE     the file has the same line now
  verify I differs name FILE  it has another line
  verify I missing name FILE  it can't be opened
I is the number in the line of LIST. The status is 1 if any file is missing,
else 3 if any line differs. Give --allow-cut if the lines were printed with it.

Examples: capt digest trace.pcap trace.pcapng
          capt digest --names *.pcap > digests; capt digest --verify digests
          set -o pipefail; find . -type f -print0 | capt digest --files0-from -
          set -o pipefail; zcat trace.pcap.gz | capt digest -";

pub(crate) const CHECK_ABOUT: &str = "Tests each capture to its end";

pub(crate) const CHECK_HELP: &str = "Prints, for each capture, as soon as it is read:
  check I FORMAT packets P bytes B first T last T backward K untimed U
    truncated Q skipped S interfaces N END
With --digest, sha256 and the digest that capt digest prints precede END; if the
capture isn't whole, - replaces the digest. With --names, name and the file's
name follow END. FORMAT, B and the times T are as info prints them. K packets
are earlier than a packet before them, U have no time, and Q were captured only
in part. S blocks are skipped. The capture has N interfaces. END is one of:
  whole                         capt read it to its end
  whole cut                     the same, but --allow-cut dropped the end
  refused offset O rule R NAME  the record or block at O breaks rule R
  read offset O                 the record or block at O can't be read
  open                          it can't be opened
If the capture isn't whole, the line counts what comes before O. An unknown
FORMAT is -. check then goes on with the next capture. The status is 1 if any
capture isn't whole. A capture that was cut exactly between two records or
blocks is whole: nothing in it shows that more was captured.

Examples: capt check morning.pcap evening.pcapng
          set -o pipefail; find . -type f -print0 | capt check --files0-from -
          set -o pipefail; zcat trace.pcap.gz | capt check -";

pub(crate) const CONVERT_ABOUT: &str = "Writes the packets of a capture in either format";

pub(crate) const CONVERT_HELP: &str =
    "A pcap file has one link type and times in whole micro- or nanoseconds. convert
stops at the first packet that the file can't hold. A pcap file takes its
snaplen and, unless --unit is given, its unit of time from the first interface.
OUT has each packet's bytes, lengths and time; as pcapng, also the link type,
snaplen, time resolution and time offset of its interface. convert drops names,
descriptions and filters of interfaces, comments and other options, secrets,
name records and statistics. At a terminal, or with --explain, a line counts the
dropped blocks and comments.

Examples: capt convert --to pcapng -o trace.pcapng trace.pcap
          set -o pipefail; zcat trace.pcapng.gz | capt convert --to pcap -o - -";

pub(crate) const MERGE_ABOUT: &str = "Writes the packets of captures as one, in the order of time";

pub(crate) const MERGE_HELP: &str =
    "Packets are sorted by the greatest time so far in their file. With equal times,
the file that is named first comes first. So each file keeps its order, and no
time is changed: where the times of a file go backward, the times of OUT do too.
OUT has each packet's bytes, lengths and time; as pcapng, also the link type,
snaplen, time resolution and time offset of its interface. A pcap file has the
link type and the snaplen of the first packet's interface, and times in whole
micro- or nanoseconds, as that interface or --unit has them. merge stops at the
first packet that the file can't hold. It drops names, descriptions and filters
of interfaces, comments and other options, secrets, name records and statistics.
At a terminal, or with --explain, a line counts the dropped blocks and comments,
and another the packets whose time is below the greatest so far in their file.
In a pcapng OUT each capture keeps its own interfaces, at most 1,024 in all.
With --share-interfaces, interfaces with the same link type, snaplen, time
resolution and time offset become one, even from different captures.
More than 32 captures are merged in rounds: 32 at a time, in order, and then
the results.

Examples: capt merge -o day.pcapng morning.pcap evening.pcapng
          capt merge --to pcap -o day.pcap morning.pcap evening.pcap
          capt merge --share-interfaces -o day.pcapng ring-*.pcapng";

pub(crate) const JOIN_ABOUT: &str = "Writes the whole IPv4 datagrams of captures, fragments joined";

pub(crate) const JOIN_HELP: &str =
    "Each datagram becomes one packet, from its IPv4 header on, with the time of the
frame that completed it, which also gives its place in the order of merge. join
leaves out what isn't IPv4, and datagrams that lack a fragment.
OUT has each datagram's bytes and time; as pcapng, also the time resolution and
time offset of its interface. A pcap file has times in whole micro- or
nanoseconds, as the first datagram's interface or --unit has them. join stops at
the first datagram that the file can't hold. It drops link headers, names,
descriptions and filters of interfaces, comments and other options, secrets,
name records and statistics. At a terminal, or with --explain, a line counts the
dropped blocks and comments, another the packets that go backward, as in merge,
and a third the packets that are in no datagram of OUT, by their class in the
frames line of report.

Example: capt join -o whole.pcapng morning.pcap evening.pcapng";

pub(crate) const ALLOW_CUT_HELP: &str = "Drop a last packet or block that is cut off";

pub(crate) const EXPLAIN_HELP: &str = "Name the file and the reason if the run fails";

pub(crate) const JSON_HELP: &str = "Print each line as a JSON object";

pub(crate) const NAMES_HELP: &str = "Name each file at the end of its line";

pub(crate) const CLASS_HELP: &str = "Print the class of each packet, and the reason";

pub(crate) const IPV6_HELP: &str = "Read IPv6 packets too";

pub(crate) const DIGESTS_HELP: &str = "Print the SHA-256 of each capture's packets too";

pub(crate) const LIST_OF_FILES_HELP: &str = "Read the names of captures, each ended by a NUL,
from the file LIST, or - for standard input";

pub(crate) const VERIFY_HELP: &str = "Read lines that capt digest --names printed from the
file LIST, or - for standard input, and print for
each whether it still holds";

pub(crate) const DATA_HELP: &str = "With --json, show at most N bytes of a packet, from
0 to 262144, default 16";

pub(crate) const TOP_HELP: &str = "Print only the N conversations with the most bytes,
the greatest first; N is at least 1";

pub(crate) const TIME_HELP: &str = "Form of times,
default exact";

pub(crate) const IGNORE_HELP: &str = "Let KIND differ";

pub(crate) const WHOLE_HELP: &str = "Write a new file beside OUT, and rename it to OUT once
all is done: a run that fails leaves OUT as it was.
If capt is killed, a file OUT.capt-1 may remain";

pub(crate) const SHARE_HELP: &str = "Write equal interfaces as one";

pub(crate) const SKIP_HELP: &str = "Leave out each capture that breaks a rule, and print
a line for it first";

pub(crate) const ORDER_HELP: &str = "Byte order, default little";

// The same beside a long option.
pub(crate) const ORDER_SHORT_HELP: &str = "Byte order,
default little";

pub(crate) const UNIT_HELP: &str = "Unit of times in pcap";

pub(crate) const TO_HELP: &str = "The format of OUT";

pub(crate) const TO_DEFAULT_HELP: &str = "Format, default pcapng";

pub(crate) const OUT_HELP: &str = "The file to write, or - for standard output. It is
emptied once every FILE is open, unless it is one of
them. If a capture breaks a rule, it has the packets
before";

pub(crate) const FILE_HELP: &str = "A capture, or - for standard input";

pub(crate) const A_HELP: &str = "A capture, or - for standard input";

pub(crate) const B_HELP: &str = "The capture to compare A with, or -";

pub(crate) const FILES_HELP: &str = "1 to 32 captures, of which one may be - for standard input";

pub(crate) const LISTED_FILES_HELP: &str =
    "1 capture or more, of which one may be - for standard input";
