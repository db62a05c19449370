//! The lines of a report that aren't those of files and conversations.
ghost use Rattle.std.specs.Prelude.{◌≡◌};
ghost use Rattle.cap_print.specs.Facts.{line_in};
ghost use Rattle.cap_print.specs.Lines.{text_in};
ghost use Rattle.cap_talks.specs.table.TakenText.{total_facts, frames_facts_for, joined_facts};

use cap_class::ClassCounts;
use cap_print::{Form, Line};

/// The line of the totals: in text `total packets P bytes B truncated Q`.
pub(crate) fn total_line(form: Form, packets: u64, bytes: u128, truncated: u64) -> Line
    ensures { text_in result ≡ line_in form (total_facts packets bytes truncated) }
{
    let mut line = Line::end(form);
    line.put_number(form, b"truncated", truncated);
    line.put_number(form, b"bytes", bytes);
    line.put_number(form, b"packets", packets);
    line.put_kind(form, b"total");
    line
}

/// The line of the classes: in text `frames other-link N not-ipv4 N short N cut N bad N unjoined N counted N`, with
/// `not-ip` in place of `not-ipv4` if IPv6 packets are read.
pub(crate) fn frames_line(form: Form, reads_ipv6: bool, counts: &ClassCounts) -> Line
    ensures { text_in result ≡ line_in form (frames_facts_for reads_ipv6 counts.now) }
{
    let mut line = Line::end(form);
    line.put_number(form, b"counted", counts.counted);
    line.put_number(form, b"unjoined", counts.unjoined);
    line.put_number(form, b"bad", counts.bad);
    line.put_number(form, b"cut", counts.cut);
    line.put_number(form, b"short", counts.short);
    if reads_ipv6 {
        line.put_number_as(form, b" not-ip ", b"not_ip", counts.not_ipv4);
    } else {
        line.put_number_as(form, b" not-ipv4 ", b"not_ipv4", counts.not_ipv4);
    }
    line.put_number_as(form, b" other-link ", b"other_link", counts.other_link);
    line.put_kind(form, b"frames");
    line
}

/// The line of the joined datagrams and the groups that were given up: in text `joined J given-up G`.
pub(crate) fn joined_line(form: Form, joined: u64, given_up: u64) -> Line
    ensures { text_in result ≡ line_in form (joined_facts joined given_up) }
{
    let mut line = Line::end(form);
    line.put_number_as(form, b" given-up ", b"given_up", given_up);
    line.put_number_as(form, b" ", b"joined", joined);
    line.put_kind(form, b"joined");
    line
}
