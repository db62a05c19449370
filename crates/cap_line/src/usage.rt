//! What the program says of itself where clap says nothing.

/// The usage: the program's help.
pub const USAGE: &str = "Reads packet captures, pcap 2.4 and pcapng 1.0 and 1.2, reports on them,
compares and checks them, and converts, merges and joins them.

Usage: capt report [--allow-cut] [--ipv6] [--json] [--time FORM] [--top N]
            [--skip-refused] FILE...
       capt info [--allow-cut] [--json] [--time FORM] [--skip-refused] FILE...
       capt list [--allow-cut] [--class [--ipv6]] [--json [--data N]]
            [--time FORM] FILE
       capt blocks [--allow-cut] [--json] FILE
       capt diff [--allow-cut] [--ignore KIND]... [--json [--data N]]
            [--time FORM] A B
       capt digest [--allow-cut] [--json] [--names] FILE...
       capt digest [--allow-cut] [--json] --verify LIST
       capt check [--allow-cut] [--digest] [--json] [--names] [--time FORM]
            FILE...
       capt convert [--allow-cut] [--order ORDER] --to FORMAT -o OUT FILE
       capt merge [--allow-cut] [--order ORDER] [--to FORMAT] -o OUT FILE...
       capt join [--allow-cut] [--order ORDER] [--to FORMAT] -o OUT FILE...

Commands that look at captures:
  report   Prints the totals of captures, and a line for each conversation
  info     Prints a line for each capture
  list     Prints a line for each packet of a capture
  blocks   Prints a line for each block of a pcapng file

Commands that compare and check captures:
  diff     Compares the packets of two captures
  digest   Prints the SHA-256 of the packets of each capture
  check    Tests each capture to its end

Commands that write captures:
  convert  Writes the packets of a capture in either format
  merge    Writes the packets of captures as one, in the order of time
  join     Writes the whole IPv4 datagrams of captures, fragments joined

Options:
  -h, --help     Print help; capt help merge prints that of merge
  -V, --version  Print version
      --explain  In each command: name the file and the reason if the run fails,
                 and count what is dropped; at a terminal this is the default
      --json     In report, info, list, blocks, diff, digest and check: print
                 each line as a JSON object
      --data N   In list and diff with --json: show N bytes of each packet,
                 default 16
      --top N    In report: print only the N conversations with the most bytes,
                 the greatest first
      --time FORM
                 In report, info, list, diff and check: print times as exact,
                 2+500000/1000000, which is the default, as decimal, 2.500000,
                 or as utc, 1970-01-01T00:00:02.500000Z
      --skip-refused
                 In report and info: leave out each capture that breaks a rule,
                 and print a line for it first
      --ignore KIND
                 In diff: let packets differ in KIND, which is time, link or
                 original; it may be repeated
      --class    In list: print the class of each packet, and the reason
      --ipv6     In report, and in list with --class: read IPv6 packets too
      --digest   In check: print the SHA-256 of the packets too
      --names    In digest and check: name each file at the end of its line
      --files0-from LIST
                 In digest and check: read the names of captures, each ended
                 by a NUL, from the file LIST, or - for standard input
      --verify LIST
                 In digest: read lines that digest --names printed from the
                 file LIST, and print for each whether it still holds
      --whole    In convert, merge and join: leave OUT as it was until all is
                 done
      --share-interfaces
                 In merge: write equal interfaces as one
      --unit UNIT
                 In convert, merge and join with --to pcap: write times in UNIT,
                 which is micro or nano

A refusal names the file, the offset and the broken rule. Status 0: success.
1: a capture breaks a rule, is left out, missing or not whole; a file can't be
opened, read, created or written; or memory ran out. 2: the command line, or a
line of the LIST of --verify, is invalid. 3: diff or digest --verify found a
difference.
";

/// What is printed for words that aren't all UTF-8.
pub const NOT_UTF_8: &str = "error: a word of the command line isn't UTF-8

  tip: to read a file of such a name, use 'capt list - < FILE'

Usage: capt <COMMAND>

For more information, try '--help'.
";

// What is printed for `--data` without `--json`.
pub(crate) const DATA_ALONE: &str =
    "error: the argument '--data <N>' cannot be used without '--json'

For more information, try '--help'.
";

// What is printed for `--data` with what isn't a number that it takes.
pub(crate) const DATA_NUMBER: &str =
    "error: invalid value for '--data <N>': no number from 0 to 262144

For more information, try '--help'.
";

// What is printed for `--top` with what isn't a number that it takes.
pub(crate) const TOP_NUMBER: &str =
    "error: invalid value for '--top <N>': no number from 1 to 4294967295

For more information, try '--help'.
";

// What is printed for `list --ipv6` without `--class`.
pub(crate) const IPV6_ALONE: &str = "error: the argument '--ipv6' cannot be used without '--class'

For more information, try '--help'.
";

// What is printed for `--whole` with standard output.
pub(crate) const WHOLE_DASH: &str = "error: the argument '--whole' cannot be used with '--output -'

For more information, try '--help'.
";

// What is printed for `--share-interfaces` with `--to pcap`.
pub(crate) const SHARE_PCAP: &str =
    "error: the argument '--share-interfaces' cannot be used with '--to pcap'

  tip: a pcap file has one interface

For more information, try '--help'.
";

// What is printed for `--unit` without `--to pcap`.
pub(crate) const UNIT_PCAPNG: &str =
    "error: the argument '--unit <UNIT>' cannot be used without '--to pcap'

  tip: in a pcapng file each interface has its own unit

For more information, try '--help'.
";

// What is printed for `digest` and `check` without a capture, and with captures beside a list of them.
pub(crate) const NO_FILES: &str = "error: the following required arguments were not provided:
  <FILE>...

  tip: '--files0-from <LIST>' names captures too

For more information, try '--help'.
";

pub(crate) const FILES_BESIDE_LIST: &str =
    "error: the argument '--files0-from <LIST>' cannot be used with '[FILE]...'

For more information, try '--help'.
";

// What is printed for `digest --verify` with what it can't have beside it.
pub(crate) const LIST_BESIDE_VERIFY: &str =
    "error: the argument '--verify <LIST>' cannot be used with '--files0-from <LIST>'

For more information, try '--help'.
";

pub(crate) const NAMES_BESIDE_VERIFY: &str =
    "error: the argument '--verify <LIST>' cannot be used with '--names'

For more information, try '--help'.
";

pub(crate) const FILES_BESIDE_VERIFY: &str =
    "error: the argument '--verify <LIST>' cannot be used with '[FILE]...'

For more information, try '--help'.
";

// What is added to a message about words that ask for conversations, or for an output as tcpdump and tshark do.
pub(crate) const TALKS_TIP: &str = "
  tip: 'capt report' prints conversations
";

pub(crate) const WRITE_TIP: &str = "
  tip: 'convert', 'merge' and 'join' write to '-o OUT'
";
